//! The bits of a segment in its thread.

ghost use Rattle.std.specs.Prelude.{◌≡◌, ◌<◌, ◌≤◌, ℕ, true, OnOk, OnErr, IfOk, IfErr};
ghost use Rattle.gw_site.specs.Sites.{SegmentRuns, SiteRuns, IsNewSegment, IsNewSite};
ghost use Rattle.gw_threads.specs.Clocks.{TicksAt, MayGo, SameClocks};
ghost use Rattle.gw_threads.specs.declared.thread_fault.ThreadFault.TheVariants.{Memory};

use crate::clock_seat::ClockSeat;
use crate::thread_fault::ThreadFault;
use crate::views::Pace;
use can_segment::{RxSink, Segment};
use gw_site::{Site, make_bits};
use std::hint::spin_loop;
use std::sync::Wait;
use std::thread;

/// How many looks at the other clocks a segment that waits makes before it gives its processor away.
const LOOKS: u32 = 64;

/// How far the clock may go, which is beyond `made`: as far as it may anyway, or what the others let it once they have
/// come so far. Where it waits for them, it does so until half of the slack is free, so that it need not wait again at
/// the next bit. `Memory` only where the stop word was seen set meanwhile.
fn wait_for_others<R: Wait>(
    rt: &R,
    clock: &mut ClockSeat,
    made: u64,
    limit: u64,
) -> Result<u64, ThreadFault>
    requires { MayGo limit clock.old }
    ensures same { OnOk result (SameClocks clock.old clock.new) }
    ensures warned { OnErr result (clock.new.view.warned ≡ true) }
    ensures err { IfErr result (λ fault. fault ≡ Memory) }
    ensures further { IfOk result (λ limit. made < limit) }
    ensures go { IfOk result (λ limit. MayGo limit clock.new) }
{
    if made < limit {
        return Ok(limit);
    }
    let mut looks = 0u32;
    for _look in rt.forever() {
        let limit = clock.limit();
        if made < limit && clock.is_far_enough(made, limit) {
            return Ok(limit);
        }
        if clock.is_stopped() {
            return Err(ThreadFault::Memory);
        }
        // those that it waits for run on other processors, if there are enough of them
        looks = looks.wrapping_add(1);
        if looks % LOOKS == 0 {
            thread::yield_now();
        } else {
            spin_loop();
        }
    }
    unreachable!()
}

/// Simulates all bits of a segment with its controllers, unless the stop word is seen set: then no bit more is
/// simulated. After each bit come those that need no port, as far as the clock may go, and then it goes on by all of
/// them. The other clocks are looked at only where it has come as far as it may go.
fn make_all_bits<R: Wait, P: RxSink<R>>(
    rt: &R,
    segment: &mut Segment,
    ports: &mut [P],
    pace: Pace,
    clock: &mut ClockSeat,
) -> Result<(), ThreadFault>
    requires new { IsNewSegment P.bus_after P.transmitting P.sink_after pace.bits segment.old ports.old }
    requires clock { TicksAt pace 0 clock.old }
    ensures runs { OnOk result (SegmentRuns P.bus_after P.transmitting P.sink_after P.port_stays segment.old
        segment.new ports.old ports.new) }
    ensures clock { OnOk result (TicksAt pace pace.bits clock.new) }
    ensures err { IfErr result (λ fault. fault ≡ Memory) }
{
    let mut made = 0u64;
    let mut limit = 0u64;
    while made < pace.bits {
        if clock.is_stopped() {
            return Err(ThreadFault::Memory);
        }
        limit = wait_for_others(rt, clock, made, limit)?;
        let Ok(now) = make_bits(rt, segment, ports, limit) else {
            return Err(ThreadFault::Memory);
        };
        clock.tick(now - made);
        made = now;
    }
    Ok(())
}

/// Runs a segment. Where it fails, and only there, it sets the stop word, so that all threads stop.
pub(crate) fn run_site<R: Wait, P: RxSink<R> + Drop>(
    rt: &R,
    mut site: Site<P>,
    pace: Pace,
    clock: &mut ClockSeat,
) -> Result<Site<P>, ThreadFault>
    requires new { IsNewSite P.bus_after P.transmitting P.sink_after pace.bits site }
    requires clock { TicksAt pace 0 clock.old }
    ensures runs { IfOk result (SiteRuns P.bus_after P.transmitting P.sink_after P.port_stays site) }
    ensures clock { OnOk result (TicksAt pace pace.bits clock.new) }
    ensures stop { OnErr result (clock.new.view.stopped ≡ true) }
    ensures err { IfErr result (λ fault. fault ≡ Memory) }
{
    let made = make_all_bits(
        rt,
        &mut site.segment,
        site.ports.as_mut_slice(),
        pace,
        clock,
    );
    match made {
        Ok(()) => Ok(site),
        Err(fault) => {
            clock.stop();
            Err(fault)
        }
    }
}

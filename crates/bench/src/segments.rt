//! Node-bits a second of segments of 2, 8, 16 and 64 talkers, on an idle bus and on one where all of them always have
//! frames to send; and how many bytes an event of a record takes.

ghost use Rattle.std.specs.Prelude.{◌≡◌, IfOk, length};
ghost use Rattle.can_segment.specs.Segments.{Fit};

use crate::nodes::frame_of;
use crate::rate::millions;
use bx_controller::Port;
use bx_core::PlainMail;
use can_segment::{DueFrame, Event, RxSink, SegFault, Segment, SegmentPlan, Talker};
use std::alloc::{AllocError, Global};
use std::io;
use std::mem::size_of;
use std::rt::Clock;
use std::sync::Wait;
use std::time::Instant;

const BITS: u64 = 1_000_000;

fn talker(alloc: Global, id: u16, times: u32) -> Result<Talker, AllocError> {
    let mut queue = Vec::new(alloc);
    for _ in 0..times {
        let frame = frame_of(id);
        queue.push(DueFrame { due: 0, frame })?;
    }
    Ok(Talker { on: 0, queue })
}

fn plan_of(alloc: Global, size: u16, times: u32) -> Result<SegmentPlan, AllocError> {
    let mut talkers = Vec::new(alloc);
    for id in 0..size {
        talkers.push(talker(alloc, id, times)?)?;
    }
    Ok(SegmentPlan {
        bits: BITS,
        talkers,
        controllers: Vec::new(alloc),
        node_faults: Vec::new(alloc),
        line_faults: Vec::new(alloc),
    })
}

/// A segment without controllers.
fn segment_of(alloc: Global, plan: SegmentPlan) -> Result<Segment, SegFault>
    ensures { IfOk result (λ segment. length segment.sending ≡ 0) }
{
    if !plan.controllers.is_empty() || plan.talkers.len() > 64 {
        return Err(SegFault::Ended);
    }
    Segment::new(alloc, plan)
}

/// Simulates bits at which no port is needed, as far as there are some.
fn make_uneventful_bits<R, P: RxSink<R>>(_rt: &R, segment: &mut Segment, ports: &[P])
    requires { Fit P.transmitting segment.old ports.now }
    ensures { Fit P.transmitting segment.new ports.now }
{
    segment.uneventful_bits(BITS);
}

/// Simulates all bits.
fn make_bits<R, P: RxSink<R>>(
    rt: &R,
    segment: &mut Segment,
    ports: &mut [P],
) -> Result<(), SegFault>
    requires { Fit P.transmitting segment.old ports.old }
{
    for _ in 0..BITS {
        make_uneventful_bits(rt, segment, ports);
        if segment.record().levels.len() as u64 >= BITS {
            return Ok(());
        }
        segment.bit(rt, ports)?;
    }
    Ok(())
}

/// Prints the rate of each segment.
pub(crate) fn measure<H: Print + Clock + AllocGlobal + Wait>(rt: &H) -> io::Result<()> {
    println!(rt; "a line of a record takes {} bytes", size_of::<Event>())?;
    for size in [2u16, 8, 16, 64] {
        for (name, times) in [("idle", 0u32), ("busy", 10_000)] {
            let plan = plan_of(rt.alloc(), size, times)?;
            let Ok(mut segment) = segment_of(rt.alloc(), plan) else {
                return println!(rt; "no memory");
            };
            let mut ports: [Port<PlainMail>; 0] = [];
            let start = Instant::now(rt)?;
            let done = make_bits(rt, &mut segment, &mut ports).is_ok();
            let rate = millions(rt.alloc(), BITS * u64::from(size), start.elapsed(rt)?)?;
            let lines = segment.record().events.len();
            println!(rt; "{size} nodes, {name}: {rate} node-bits a second, {lines} lines, {done}")?;
        }
    }
    Ok(())
}

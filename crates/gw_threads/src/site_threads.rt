//! Segments in threads of their own.

ghost use Rattle.std.specs.Prelude.{◌≡◌, ◌≤◌, [], IfOk, IfErr, OnOk, vec_len, vec_capacity};
ghost use Rattle.bx_core.specs.Lists.{Each};
ghost use Rattle.gw_site.specs.Pairs.{Pairs};
ghost use Rattle.gw_site.specs.Sites.{IsNewSite};
ghost use Rattle.gw_threads.specs.Clocks.{Deals, TicksAt};
ghost use Rattle.gw_threads.specs.declared.thread_fault.ThreadFault.TheVariants.{Spawn};

use crate::clock_seat::ClockSeat;
use crate::joining::Running;
use crate::site_promise::SiteRun;
use crate::site_run::run_site;
use crate::thread_fault::ThreadFault;
use crate::views::Pace;
use can_segment::RxSink;
use gw_site::Site;
use std::sync::Wait;
use std::thread;
use std::thread::Threads;

/// A thread in which a segment runs.
pub(crate) type SiteThread<R, P> = Running<Result<Site<P>, ThreadFault>, SiteRun<R, P>>;

/// Starts a segment in a thread of its own, with this seat for its clock. `Spawn` where the thread could not be
/// started.
fn start_site<
    R: Threads + Wait + Copy + Send + Sync + 'static,
    P: RxSink<R> + Drop + Send + 'static,
>(rt: R, site: Site<P>, pace: Pace, clock: ClockSeat) -> Result<SiteThread<R, P>, ThreadFault>
    requires new { IsNewSite P.bus_after P.transmitting P.sink_after pace.bits site }
    requires clock { TicksAt pace 0 clock }
    ensures started { IfOk result (λ thread. thread.handle.promise.start.value ≡ site) }
    ensures err { IfErr result (λ fault. fault ≡ Spawn) }
{
    let promise = SiteRun::of(&site);
    match thread::spawn_with(
        &rt,
        promise,
        move || -> Result<Site<P>, ThreadFault>
            requires new { IsNewSite P.bus_after P.transmitting P.sink_after pace.bits site }
            requires clock { TicksAt pace 0 clock }
        {
            let mut clock = clock;
            run_site(&rt, site, pace, &mut clock)
        },
    ) {
        Ok(thread) => Ok(Running::of(thread)),
        Err(_) => Err(ThreadFault::Spawn),
    }
}

/// Each segment runs in a thread of its own, with a seat for its clock that this one deals. The threads, also those
/// that were started before one could not be, go into this list, which has room for them.
pub(crate) fn start_sites<
    R: Threads + Wait + Copy + Send + Sync + 'static,
    P: RxSink<R> + Drop + Send + 'static,
>(
    rt: R,
    sites: Vec<Site<P>>,
    pace: Pace,
    clock: &mut ClockSeat,
    threads: &mut Vec<SiteThread<R, P>>,
) -> Result<(), ThreadFault>
    requires new { Each (IsNewSite P.bus_after P.transmitting P.sink_after pace.bits) sites.items }
    requires segments { pace.segments ≡ vec_len sites }
    requires clocks { Deals pace 0 clock.old }
    requires room { vec_len sites ≤ vec_capacity threads.old }
    requires empty { threads.old.items ≡ [] }
    ensures room { vec_len threads.new ≤ vec_len sites }
    ensures clocks { OnOk result (Deals pace pace.segments clock.new) }
    ensures started { OnOk result (Pairs (λ k site thread. thread.handle.promise.start.value ≡ site) sites.items
        threads.new.items) }
{
    for site in sites {
        let seat = clock.deal()?;
        threads.push_reserved(start_site(rt, site, pace, seat)?);
    }
    Ok(())
}

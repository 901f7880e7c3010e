//! Runs in threads.

ghost use Rattle.std.specs.Prelude.{◌≡◌, ◌≤◌, ℕ, List, IfOk, Some, length, slice_get};
ghost use Rattle.bx_core.specs.Lists.{Each};
ghost use Rattle.bx_core.specs.declared.entry.Entry.{Entry};
ghost use Rattle.gw_config.specs.SoundScripts.{IsSound};
ghost use Rattle.gw_ending.specs.Headline.{NotRefilled, Balances};
ghost use Rattle.gw_ending.specs.Reports.{AreOrdered, RunsSegments, RunsRoutes, AreStartsOf, lines_of};
ghost use Rattle.gw_script.specs.NamedPlaces.{Names};
ghost use Rattle.gw_script.specs.declared.route_report.RouteReport.{RouteReport};

use crate::run_fault::RunFault;
use bx_core::Gate;
use bx_mail::{BusSeat, Mail, RouteSeat};
use gw_script::{Report, Script};
use gw_threaded::run_over;
use std::alloc::Global;
use std::sync::Wait;
use std::thread::Threads;

/// Runs a script in threads: each segment in a thread of its own, and the routes by so many workers, 1 to 16, each in a
/// thread of its own. They share the mailboxes of each controller without a lock (`bx_mail::Mail`): the bus's seat is
/// with the segment, a route's seat with its hand and its gate. These three are the route's baton: a worker takes it,
/// makes one turn of the route, and passes it on. Each segment makes the script's bits, none of them more than `slack`
/// bits, 1 to 1,000,000, ahead of another. A worker ends after 32 tries in a row, each begun once all segments had made
/// their bits, that came to nothing or found no baton. The gates are reported of what the routes' calls pass, one gate a
/// route, in the order of the script. Which turns fall between which bits is left to the machine, so two runs of a
/// script may differ.
///
/// The claims are those of `run_inline`, for every number of workers and every slack, and for every way in which the
/// threads' steps may fall. Of each route into a controller that sends by order of requests (TXFP set), the completed
/// frames are, in order and each once, a prefix of the frames released from its source FIFO with the aborted ones left
/// out; into one that sends by identifier (TXFP clear), they are, each once, among the released frames, and none of
/// them is an aborted one. No mailbox was refilled while its bus held it, as each line `started` shows; and accepted
/// equals completed, aborted, overrun and held.
///
/// `Memory` where a growth was refused, `Spawn` where a thread could not be started, for want of memory too. Either way
/// there is no report, and all threads that were started have ended. Whether and when it returns is not claimed.
pub fn run_threads<
    R: Threads + Wait + Copy + Send + Sync + 'static,
    G: Gate + Drop + Send + 'static,
>(
    rt: R,
    alloc: Global,
    script: &Script,
    workers: u32,
    slack: u32,
    gates: Vec<G>,
) -> Result<Report, RunFault>
    requires sound { IsSound script.now }
    requires workers { (1 ≤ workers) × (workers ≤ 16) }
    requires slack { (1 ≤ slack) × (slack ≤ 1000000) }
    requires gates { length gates.items ≡ length script.now.routes }
    ensures order { IfOk result (AreOrdered script.now) }
    ensures no_refill { IfOk result (λ report. (place : ℕ) (r : RouteReport) (started : List Entry)
        → slice_get report.routes.items place ≡ Some r → (is : AreStartsOf script.now (lines_of report) place started)
        → NotRefilled is.route.rewrites r started) }
    ensures sum { IfOk result (λ report. Each Balances report.routes.items) }
    ensures segments { IfOk result (RunsSegments script.now) }
    ensures routes { IfOk result (RunsRoutes 3 script.now) }
    ensures names { IfOk result (Names script.now) }
{
    match run_over::<R, BusSeat, RouteSeat, Mail, G>(rt, alloc, script, workers, slack, gates) {
        Ok((report, _clock)) => Ok(report),
        Err(fault) => Err(fault.into()),
    }
}

//! A run in threads over any mailboxes.

ghost use Rattle.std.specs.Prelude.{◌≡◌, ◌≤◌, IfOk, length};
ghost use Rattle.gw_config.specs.SoundScripts.{IsSound};
ghost use Rattle.gw_ending.specs.Reports.{RunsSegments, RunsRoutes};
ghost use Rattle.gw_script.specs.NamedPlaces.{Names};
ghost use Rattle.gw_sides.specs.Sets.{AllSendBy, IsNewSet, IsNewSide};
ghost use Rattle.gw_threads.specs.Clocks.{HasPaced, pace_of};
ghost use Rattle.gw_threaded.specs.Runs.{HasRun, Starts};

use crate::parting::{meet, part_all};
use crate::starting::{Start, start};
use bx_controller::Port;
use bx_core::{Gate, Mailboxes, RouteTx, TxBus};
use can_frame::Memory;
use gw_ending::end_run;
use gw_opening::Lane;
use gw_script::{Report, Script};
use gw_sides::close_all;
use gw_site::Site;
use gw_threads::{ClockSeat, ThreadFault, run_in_threads};
use std::alloc::Global;
use std::sync::Wait;
use std::thread::Threads;

/// Runs what was started: each segment in a thread of its own, and the routes by so many workers. Returns it with the
/// seat that dealt the clocks.
fn run_started<
    R: Threads + Wait + Copy + Send + Sync + 'static,
    B: TxBus<R> + Drop + Send + 'static,
    S: RouteTx<R> + Drop + Send + 'static,
    M: Mailboxes<R, B, S>,
    G: Gate + Drop + Send + 'static,
>(
    rt: R,
    alloc: Global,
    script: &Script,
    started: Start<B, S>,
    gates: Vec<G>,
    workers: u32,
    slack: u32,
) -> Result<(Start<B, S>, ClockSeat), ThreadFault>
    requires sound { IsSound script.now }
    requires gates { length gates.items ≡ length script.now.routes }
    requires workers { workers ≤ 16 }
    requires starts { Starts (IsNewSet B.bus_after B.bus_asked B.transmitting M.routes_of M.txfp_of)
        (IsNewSide M.side_of S.route_after) script.now started.0.items started.1.items started.2.items }
    ensures run { IfOk result (λ made. HasRun B.bus_after B.transmitting S.route_after M.routes_of M.txfp_of M.side_of
        script.now made.0.0.items made.0.1.items made.0.2.items) }
    ensures paced { IfOk result (λ made. HasPaced (pace_of (length script.now.segments) slack script.now.bits) workers
        made.1) }
{
    let (sites, mut seats, lanes) = started;
    let Ok((leads, couriers)) = part_all(alloc, lanes, seats.as_mut_slice(), gates) else {
        return Err(ThreadFault::Memory);
    };
    let (sites, couriers, clock) = run_in_threads(
        rt,
        alloc,
        sites,
        couriers,
        script.bits(),
        workers,
        slack,
    )?;
    match meet(alloc, leads.as_slice(), couriers, seats.as_mut_slice()) {
        Ok(lanes) => Ok(((sites, seats, lanes), clock)),
        Err(_) => Err(ThreadFault::Memory),
    }
}

/// Closes the mailboxes of a run, and reports on it.
fn report_on<R: Wait, B: TxBus<R> + Drop, S: RouteTx<R> + Drop, M: Mailboxes<R, B, S>>(
    rt: &R,
    alloc: Global,
    script: &Script,
    ended: Start<B, S>,
) -> Result<Report, Memory>
    requires sound { IsSound script.now }
    requires run { HasRun B.bus_after B.transmitting S.route_after M.routes_of M.txfp_of M.side_of
        script.now ended.0.items ended.1.items ended.2.items }
    ensures segments { IfOk result (RunsSegments script.now) }
    ensures routes { IfOk result (RunsRoutes M.room script.now) }
    ensures names { IfOk result (Names script.now) }
{
    let (sites, seats, lanes) = ended;
    let closed = close_all::<R, B, S, M>(rt, alloc, script, sites, seats)?;
    end_run(rt, alloc, script, closed, lanes)
}

/// Runs a script over these mailboxes: each segment in a thread of its own, none of them more than `slack` bits ahead
/// of another, and the routes by so many workers, 1 to 16, each in a thread of its own; one gate a route, in the order
/// of the script. Returns the report, and the seat at the clock table that dealt a clock to each segment's thread and
/// lent a seat to each worker: contracts see by it what slack the table was made for, and how many workers there were.
///
/// `Memory` where an allocation failed, `Spawn` where a thread could not be started: either way there is no report, and
/// all threads that were started have ended.
pub fn run_over<
    R: Threads + Wait + Copy + Send + Sync + 'static,
    B: TxBus<R> + Drop + Send + 'static,
    S: RouteTx<R> + Drop + Send + 'static,
    M: Mailboxes<R, B, S>,
    G: Gate + Drop + Send + 'static,
>(
    rt: R,
    alloc: Global,
    script: &Script,
    workers: u32,
    slack: u32,
    gates: Vec<G>,
) -> Result<(Report, ClockSeat), ThreadFault>
    requires sound { IsSound script.now }
    requires priority { AllSendBy M.can_send_by script.now }
    requires gates { length gates.items ≡ length script.now.routes }
    requires workers { workers ≤ 16 }
    ensures segments { IfOk result (λ made. RunsSegments script.now made.0) }
    ensures routes { IfOk result (λ made. RunsRoutes M.room script.now made.0) }
    ensures names { IfOk result (λ made. Names script.now made.0) }
    ensures paced { IfOk result (λ made. HasPaced (pace_of (length script.now.segments) slack script.now.bits) workers
        made.1) }
{
    let Ok(started) = start::<R, B, S, M>(&rt, alloc, script) else {
        return Err(ThreadFault::Memory);
    };
    let (ended, clock) = run_started::<R, B, S, M, G>(
        rt, alloc, script, started, gates, workers, slack,
    )?;
    match report_on::<R, B, S, M>(&rt, alloc, script, ended) {
        Ok(report) => Ok((report, clock)),
        Err(_) => Err(ThreadFault::Memory),
    }
}

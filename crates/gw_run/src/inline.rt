//! Runs in one thread.

ghost use Rattle.std.specs.Prelude.{◌≡◌, ◌<◌, ℕ, List, IfOk, IfErr, OnOk, Some, length, map, slice_get};
ghost use Rattle.bx_core.specs.Lists.{Each};
ghost use Rattle.bx_core.specs.declared.entry.Entry.{Entry};
ghost use Rattle.gw_script.specs.NamedPlaces.{Names};
ghost use Rattle.gw_config.specs.SoundScripts.{IsSound};
ghost use Rattle.gw_script.specs.declared.route_report.RouteReport.{RouteReport};
ghost use Rattle.gw_ending.specs.Headline.{NotRefilled, Balances};
ghost use Rattle.gw_ending.specs.Reports.{AreOrdered, RunsSegments, RunsRoutes, AreStartsOf, lines_of};
ghost use Rattle.gw_opening.specs.Openings.{AreNewSites, HaveMails};
ghost use Rattle.gw_run.specs.Finals.{HasRun};
ghost use Rattle.gw_run.specs.Ports.{IsNewMail};
ghost use Rattle.gw_run.specs.Schedules.{AreSchedules, EachTurned, schedule_of};
ghost use Rattle.gw_run.specs.Worlds.{Opens, HaveTurned, NoneShort};
ghost use Rattle.gw_run.specs.declared.run_fault.RunFault.TheVariants.{Memory as WantOfMemory};

use crate::closing::close_sites;
use crate::opening::sites_of;
use crate::port::Site;
use crate::run_fault::RunFault;
use crate::schedule::{Schedule, schedules_of};
use crate::world::make_all;
use can_frame::Memory;
use gw_ending::end_run;
use gw_opening::{Lane, lanes_of};
use gw_script::{Report, Script};
use std::alloc::Global;
use std::sync::Wait;

/// All bits of these segments, and all turns of the routes between them.
fn make_bits_and_turns<R: Wait>(
    rt: &R,
    script: &Script,
    sites: &mut [Site],
    lanes: &mut [Lane],
    schedules: &[Schedule],
) -> Result<(), Memory>
    requires sound { IsSound script.now }
    requires schedules { AreSchedules schedules.now }
    requires all { length schedules.now ≡ length script.now.routes }
    requires opens { Opens script.now sites.old lanes.old }
    ensures run { OnOk result (HasRun script.now sites.new lanes.new) }
    ensures turned { OnOk result (HaveTurned schedules.now script.now.bits lanes.new) }
    ensures short { OnOk result (NoneShort sites.new) }
{
    make_all(rt, sites, lanes, schedules, u64::from(script.bits()))?;
    Ok(())
}

/// The routes of a script are made, and run their turns while these segments make their bits.
fn run_routes<R: Wait>(
    rt: &R,
    alloc: Global,
    script: &Script,
    sites: &mut [Site],
    turn: u32,
) -> Result<Vec<Lane>, Memory>
    requires sound { IsSound script.now }
    requires turn { 0 < turn }
    requires sites { AreNewSites script.now sites.old }
    requires mails { HaveMails IsNewMail script.now sites.old }
    ensures run { IfOk result (λ lanes. HasRun script.now sites.new lanes.items) }
    ensures turned { IfOk result (λ lanes. HaveTurned (map (schedule_of turn) script.now.routes) script.now.bits
        lanes.items) }
{
    let mut lanes = lanes_of(alloc, script, sites)?;
    let schedules = schedules_of(alloc, script, turn)?;
    make_bits_and_turns(
        rt,
        script,
        sites,
        lanes.as_mut_slice(),
        schedules.as_slice(),
    )?;
    Ok(lanes)
}

/// All bits and turns of a script, and the report.
fn run<R: Wait>(rt: &R, alloc: Global, script: &Script, turn: u32) -> Result<Report, Memory>
    requires sound { IsSound script.now }
    requires turn { 0 < turn }
    ensures segments { IfOk result (RunsSegments script.now) }
    ensures routes { IfOk result (RunsRoutes 3 script.now) }
    ensures names { IfOk result (Names script.now) }
    ensures turns { IfOk result (EachTurned turn script.now) }
{
    let mut sites = sites_of(alloc, script)?;
    let lanes = run_routes(rt, alloc, script, sites.as_mut_slice(), turn)?;
    let closed = close_sites(alloc, sites)?;
    end_run(rt, alloc, script, closed, lanes)
}

/// Runs a script in this thread: for each of its bits, each segment in the order of the script makes one bit; then the
/// queues of the routes are filled; and where the number of bits made is a multiple of a route's `every`, or of `turn`
/// where it has none, it makes turns, in the order of the script, until one is idle or waits, at most as many as its
/// `burst`. Bits at which no controller needs its mailboxes may be simulated earlier, and turns at which nothing waits
/// are only counted. Each route's `turns` in the report is at least the script's bits divided by that number, rounded
/// down, and at most `burst` times that, both up to 1,000,000.
///
/// Each controller has three transmit mailboxes and two receive FIFOs of three frames (RM0008, bxCAN, "Transmission
/// handling" and "Reception handling").
///
/// Of each route into a controller that sends by order of requests (TXFP set), the completed frames are, in
/// order and each once, a prefix of the frames released from its source FIFO with the aborted ones left out.
/// The released frames are read here under the new identifiers that the route gives to them.
/// Of each route into one that sends by identifier (TXFP clear), they are, each once, among the released
/// frames, and none of them is an aborted one. Of each route, no mailbox was refilled while its bus held it, as each
/// line `started` shows; and accepted equals completed, aborted, overrun and held. `Memory` where a
/// growth was refused: then there is no report.
pub fn run_inline<R: Wait>(
    rt: &R,
    alloc: Global,
    script: &Script,
    turn: u32,
) -> Result<Report, RunFault>
    requires sound { IsSound script.now }
    requires turn { 0 < turn }
    ensures order { IfOk result (AreOrdered script.now) }
    ensures no_refill { IfOk result (λ report. (place : ℕ) (r : RouteReport) (started : List Entry)
        → slice_get report.routes.items place ≡ Some r → (is : AreStartsOf script.now (lines_of report) place started)
        → NotRefilled is.route.rewrites r started) }
    ensures sum { IfOk result (λ report. Each Balances report.routes.items) }
    ensures segments { IfOk result (RunsSegments script.now) }
    ensures routes { IfOk result (RunsRoutes 3 script.now) }
    ensures names { IfOk result (Names script.now) }
    ensures turns { IfOk result (EachTurned turn script.now) }
    ensures err { IfErr result (λ fault. fault ≡ WantOfMemory) }
{
    match run(rt, alloc, script, turn) {
        Ok(report) => Ok(report),
        Err(_) => Err(RunFault::Memory),
    }
}

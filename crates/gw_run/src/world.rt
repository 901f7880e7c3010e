//! All segments and routes of a run.

ghost use Rattle.std.specs.Prelude.{◌≡◌, ◌<◌, ◌≤◌, ◌+◌, ℕ, true, List, IfOk, OnOk, Some, false, length};
ghost use Rattle.std.specs.Prelude.{slice_get};
ghost use Rattle.can_station.specs.Places.{AtPlaces};
ghost use Rattle.gw_opening.specs.declared.lane.Lane.{Lane};
ghost use Rattle.gw_run.specs.Ports.{Site};
ghost use Rattle.gw_run.specs.Sites.{SiteHolds, SiteMoves};
ghost use Rattle.gw_run.specs.Lanes.{AskedInVain};
ghost use Rattle.gw_run.specs.Schedules.{AreSchedules, IsSchedule, next_due};
ghost use Rattle.gw_run.specs.Worlds.{AllAskedInVain, AllHavePast, CountsByIts, CountsTurns, Leads, LaneFills};
ghost use Rattle.gw_run.specs.Worlds.{AllFull, LaneTurns, LanesKeep, NoneHasToDo, NoneQueues, NoneTurns, SitesKeep};
ghost use Rattle.gw_run.specs.Worlds.{WorldHolds};
ghost use Rattle.gw_run.specs.Worlds.{SameSegments, HaveMade, HaveMadeUpTo, HaveTurned, NoneShort};

use crate::lane::turns_on;
use crate::port::Site;
use crate::schedule::{Schedule, first_due};
use crate::site::bits_of;
use crate::stretch::{idle_lanes, idle_until, nothing_waits, stretch};
use can_frame::Memory;
use gw_opening::Lane;
use std::sync::Wait;

/// The bits of each segment, in their order, until each has made so many of all that it has to make. Some may be ahead
/// by bits at which no port is needed, before and behind it.
pub(crate) fn make_bits<R: Wait>(
    rt: &R,
    sites: &mut [Site],
    until: u64,
    bits: u64,
) -> Result<(), Memory>
    requires holds { (i : ℕ) (site : Site) → slice_get sites.old i ≡ Some site
        → SiteHolds site.segment site.ports.items }
    requires before { HaveMadeUpTo bits until sites.old }
    requires until { until ≤ bits }
    ensures made { OnOk result (HaveMade bits until sites.new) }
    ensures moves { OnOk result (AtPlaces (λ i. SiteMoves) sites.old sites.new) }
    ensures world { OnOk result ((lanes : List Lane) → WorldHolds sites.old lanes → WorldHolds sites.new lanes) }
    ensures keeps { OnOk result ((lanes : List Lane) → SitesKeep lanes sites.old sites.new) }
{
    for place in 0..sites.len() {
        bits_of(rt, &mut sites[place], until, bits)?;
    }
    Ok(())
}

/// Fills the queue of a route behind the tick of this number, counted from 1, and makes its turns, if they are due.
/// Returns whether they were due, and it had nothing to do. `Memory` where it was refused to the hand, or to the
/// mailboxes at any time before.
fn serve<R: Wait>(
    rt: &R,
    sites: &mut [Site],
    lane: &mut Lane,
    schedule: Schedule,
    tick: u64,
) -> Result<bool, Memory>
    requires leads { Leads sites.old lane.old }
    requires schedule { IsSchedule schedule }
    ensures turns { LaneTurns sites.old sites.new lane.old lane.new }
    ensures counted { OnOk result (CountsTurns schedule tick lane.old lane.new) }
    ensures idle { IfOk result (λ idle. idle ≡ true → AskedInVain lane.new.hand) }
    ensures short { OnOk result (NoneShort sites.old → NoneShort sites.new) }
{
    if !schedule.is_due(tick) {
        lane.hand.fill(rt)?;
        return Ok(false);
    }
    let place = lane.target;
    turns_on(
        rt,
        &mut lane.hand,
        &mut sites[place.site].ports[place.port],
        lane.number,
        schedule.burst,
    )
}

/// Fills the queue of each route behind the tick of this number, counted from 1, and makes its turns, if they are due.
/// Returns whether the turns of all routes were due, and none had anything to do. That one route makes its turns before
/// the queue of another is filled changes nothing: neither knows of the other.
pub(crate) fn serve_all<R: Wait>(
    rt: &R,
    sites: &mut [Site],
    lanes: &mut [Lane],
    schedules: &[Schedule],
    tick: u64,
) -> Result<bool, Memory>
    requires world { WorldHolds sites.old lanes.old }
    requires schedules { AreSchedules schedules.now }
    requires all { length lanes.old ≡ length schedules.now }
    ensures world { OnOk result (WorldHolds sites.new lanes.new) }
    ensures counted { OnOk result (AtPlaces (CountsByIts schedules.now tick) lanes.old lanes.new) }
    ensures idle { IfOk result (λ idle. idle ≡ true → AllAskedInVain lanes.new) }
    ensures short { OnOk result (NoneShort sites.old → NoneShort sites.new) }
    ensures segments { OnOk result (SameSegments sites.old sites.new) }
    ensures lanes { OnOk result (LanesKeep lanes.old lanes.new) }
    ensures keeps { OnOk result (SitesKeep lanes.old sites.old sites.new) }
{
    let mut idle = true;
    for place in 0..lanes.len() {
        idle &= serve(rt, sites, &mut lanes[place], schedules[place], tick)?;
    }
    Ok(idle)
}

/// Fills the queues of the routes, in their order, out of their FIFOs. `Memory` where it was refused to a hand.
fn fill_all<R: Wait>(rt: &R, lanes: &mut [Lane]) -> Result<(), Memory>
    requires { AllHavePast lanes.old }
    ensures { OnOk result (AtPlaces (λ k. LaneFills) lanes.old lanes.new) }
{
    for place in 0..lanes.len() {
        lanes[place].hand.fill(rt)?;
    }
    Ok(())
}

/// Whether one of these routes has a queue.
fn one_queues(lanes: &[Lane]) -> bool
    ensures { result ≡ false → NoneQueues lanes.now }
{
    for lane in lanes {
        if lane.hand.queue.is_some() {
            return true;
        }
    }
    false
}

/// The bits of each segment until each has made so many of all that it has to make. Behind each bit but the last one
/// the queues of the routes are filled, if one has a queue: `queues`. No turns are made.
fn make_until<R: Wait>(
    rt: &R,
    sites: &mut [Site],
    lanes: &mut [Lane],
    queues: bool,
    bits: u64,
    made: u64,
    until: u64,
) -> Result<(), Memory>
    requires world { WorldHolds sites.old lanes.old }
    requires queues { queues ≡ false → NoneQueues lanes.old }
    requires made { HaveMadeUpTo bits (made + 1) sites.old }
    requires more { made < until }
    requires until { until ≤ bits }
    requires fits { bits ≤ 4294967295 }
    ensures world { OnOk result (WorldHolds sites.new lanes.new) }
    ensures made { OnOk result (HaveMade bits until sites.new) }
    ensures turned { OnOk result (NoneTurns lanes.old lanes.new) }
    ensures full { OnOk result (made + 1 < until → AllFull lanes.new) }
    ensures same { OnOk result (queues ≡ false → lanes.new ≡ lanes.old) }
    ensures short { OnOk result (NoneShort sites.old → NoneShort sites.new) }
    ensures lanes { OnOk result (LanesKeep lanes.old lanes.new) }
    ensures keeps { OnOk result (SitesKeep lanes.old sites.old sites.new) }
{
    if !queues {
        return make_bits(rt, sites, until, bits);
    }
    let mut tick = made + 1;
    make_bits(rt, sites, tick, bits)?;
    while tick < until {
        fill_all(rt, lanes)?;
        // while all segments idle, the FIFOs and so the queues stay as they are
        tick = idle_until(sites, tick, until - 1) + 1;
        make_bits(rt, sites, tick, bits)?;
    }
    Ok(())
}

/// Returns how many events these segments have in all.
fn count_events(sites: &[Site]) -> usize {
    let mut count = 0_usize;
    for site in sites {
        count = count.wrapping_add(site.segment.record().events.len());
    }
    count
}

/// The turns of the routes that are due behind tick `due`, the first one behind `made` at which any are: where `waits`
/// says that none has anything to do, they are only counted. Returns whether the turns of all routes were due, and none
/// had anything to do.
fn make_turns<R: Wait>(
    rt: &R,
    sites: &mut [Site],
    lanes: &mut [Lane],
    schedules: &[Schedule],
    waits: bool,
    made: u64,
    due: u64,
) -> Result<bool, Memory>
    requires world { WorldHolds sites.old lanes.old }
    requires schedules { AreSchedules schedules.now }
    requires all { length lanes.old ≡ length schedules.now }
    requires waits { waits ≡ true → NoneHasToDo lanes.old }
    requires turned { HaveTurned schedules.now made lanes.old }
    requires later { made < due }
    requires first { (k : ℕ) (schedule : Schedule) → slice_get schedules.now k ≡ Some schedule
        → due ≤ next_due schedule made }
    ensures world { OnOk result (WorldHolds sites.new lanes.new) }
    ensures turned { OnOk result (HaveTurned schedules.now due lanes.new) }
    ensures idle { IfOk result (λ idle. idle ≡ true → AllAskedInVain lanes.new) }
    ensures short { OnOk result (NoneShort sites.old → NoneShort sites.new) }
    ensures segments { OnOk result (SameSegments sites.old sites.new) }
    ensures lanes { OnOk result (LanesKeep lanes.old lanes.new) }
    ensures keeps { OnOk result (SitesKeep lanes.old sites.old sites.new) }
{
    if waits {
        idle_lanes(lanes, schedules, made, due);
        return Ok(true);
    }
    serve_all(rt, sites, lanes, schedules, due)
}

/// All bits of all segments, with the turns of the routes between them.
pub(crate) fn make_all<R: Wait>(
    rt: &R,
    sites: &mut [Site],
    lanes: &mut [Lane],
    schedules: &[Schedule],
    bits: u64,
) -> Result<(), Memory>
    requires world { WorldHolds sites.old lanes.old }
    requires made { HaveMade bits 0 sites.old }
    requires schedules { AreSchedules schedules.now }
    requires all { length lanes.old ≡ length schedules.now }
    requires turned { HaveTurned schedules.now 0 lanes.old }
    requires fits { bits ≤ 4294967295 }
    ensures world { OnOk result (WorldHolds sites.new lanes.new) }
    ensures made { OnOk result (HaveMade bits bits sites.new) }
    ensures turned { OnOk result (HaveTurned schedules.now bits lanes.new) }
    ensures short { OnOk result (NoneShort sites.old → NoneShort sites.new) }
    ensures lanes { OnOk result (LanesKeep lanes.old lanes.new) }
    ensures keeps { OnOk result (SitesKeep lanes.old sites.old sites.new) }
{
    if lanes.is_empty() {
        // then no segment knows of another
        return make_bits(rt, sites, bits, bits);
    }
    let queues = one_queues(lanes);
    let mut made = 0;
    let mut idle = false;
    while made < bits {
        let waits = nothing_waits(lanes, idle);
        made = stretch(sites, lanes, schedules, waits, bits, made);
        let due = first_due(schedules, made, bits);
        let events = count_events(sites);
        make_until(rt, sites, lanes, queues, bits, made, due)?;
        // without an event no frame came
        let quiet = waits && !queues && count_events(sites) == events;
        idle = make_turns(rt, sites, lanes, schedules, quiet, made, due)?;
        made = due;
    }
    Ok(())
}

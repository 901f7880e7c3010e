//! Stretches of bits at which each segment idles or is ahead, and no route has anything to do.

ghost use Rattle.std.specs.Prelude.{◌≡◌, ◌<◌, ◌≤◌, ◌+◌, ℕ, true, length};
ghost use Rattle.can_station.specs.Places.{AtPlaces};
ghost use Rattle.gw_opening.specs.declared.lane.Lane.{Lane};
ghost use Rattle.gw_run.specs.Schedules.{AreSchedules};
ghost use Rattle.gw_run.specs.Sites.{SiteIdles};
ghost use Rattle.gw_run.specs.Worlds.{AllAskedInVain, AllReach, AllWait, AreFar, HaveMade, HaveMadeUpTo, HaveTurned};
ghost use Rattle.gw_run.specs.Worlds.{LaneIdles, LanesKeep, MayIdle, NoneHasToDo, NoneShort, SitesKeep, WorldHolds};
ghost use Rattle.gw_run.specs.Worlds.{idle_turns};

use crate::port::Site;
use crate::schedule::Schedule;
use crate::site::{idle_on, idles_until};
use gw_opening::Lane;

/// Whether each of these routes waits for a frame.
fn all_wait(lanes: &[Lane]) -> bool
    ensures { result ≡ true → AllWait lanes.now }
{
    for lane in lanes {
        if !lane.hand.waits_for_frame() {
            return false;
        }
    }
    true
}

/// Counts the turns of each of these routes behind the ticks from `made` until `next`, at which it has nothing to do.
pub(crate) fn idle_lanes(lanes: &mut [Lane], schedules: &[Schedule], made: u64, next: u64)
    requires waits { NoneHasToDo lanes.old }
    requires schedules { AreSchedules schedules.now }
    requires all { length lanes.old ≡ length schedules.now }
    requires more { made ≤ next }
    ensures { AtPlaces (λ k. LaneIdles (idle_turns schedules.now made next k)) lanes.old lanes.new }
{
    for place in 0..lanes.len() {
        let every = u64::from(schedules[place].every);
        lanes[place].hand.idle(next / every - made / every);
    }
}

/// Bits of an idle bus of each segment until it has made so many, where it idles and no request waits there. Whether
/// each has made so many then.
fn all_idle_on(sites: &mut [Site], until: u64) -> bool
    requires { MayIdle until sites.old }
    ensures idle { AtPlaces (λ i. SiteIdles until) sites.old sites.new }
    ensures far { result ≡ true → AreFar until sites.new }
    ensures reach { AllReach until sites.old → AreFar until sites.new }
{
    let mut all = true;
    for place in 0..sites.len() {
        all &= idle_on(&mut sites[place], until);
    }
    all
}

/// Returns a bit up to which `all_idle_on` gets each of these segments, at most `last`.
fn all_idle_until(sites: &[Site], last: u64) -> u64
    ensures reach { AllReach result sites.now }
    ensures most { result ≤ last }
    ensures least { (made : ℕ) → made ≤ last → AreFar made sites.now → made ≤ result }
{
    let mut until = last;
    for site in sites {
        until = until.min(idles_until(site));
    }
    until
}

/// Passes over bits of all segments, as long as each idles or is ahead, at most until all have made `last`. Returns how
/// many all have made then. Behind a bit that all have made, it passes over all bits at once up to the next one at
/// which something may happen.
pub(crate) fn idle_until(sites: &mut [Site], made: u64, last: u64) -> u64
    requires may { MayIdle made sites.old }
    requires far { AreFar made sites.old }
    requires less { made ≤ last }
    requires fits { last < 18446744073709551615 }
    ensures idle { AtPlaces (λ i. SiteIdles (result + 1)) sites.old sites.new }
    ensures far { AreFar result sites.new }
    ensures least { made ≤ result }
    ensures most { result ≤ last }
{
    let mut made = made;
    while made < last {
        if !all_idle_on(sites, made + 1) {
            return made;
        }
        made = all_idle_until(sites, last);
        all_idle_on(sites, made);
    }
    made
}

/// Whether no turn has anything to do before a frame comes: the last turns were idle, and each route waits for one.
pub(crate) fn nothing_waits(lanes: &[Lane], idle: bool) -> bool
    requires { idle ≡ true → AllAskedInVain lanes.now }
    ensures { result ≡ true → NoneHasToDo lanes.now }
{
    idle && all_wait(lanes)
}

/// A stretch of bits at which each segment is ahead, or idles and no request waits there, and the turns behind them,
/// where `waits` says that the last turns of all routes were idle and each route waits for a frame: so none of these
/// turns has anything to do. Returns how many bits are made then, one is left to make at least; some segments may have made one more.
pub(crate) fn stretch(
    sites: &mut [Site],
    lanes: &mut [Lane],
    schedules: &[Schedule],
    waits: bool,
    bits: u64,
    made: u64,
) -> u64
    requires world { WorldHolds sites.old lanes.old }
    requires made { HaveMade bits made sites.old }
    requires waits { waits ≡ true → NoneHasToDo lanes.old }
    requires schedules { AreSchedules schedules.now }
    requires all { length lanes.old ≡ length schedules.now }
    requires turned { HaveTurned schedules.now made lanes.old }
    requires still { made < bits }
    ensures world { WorldHolds sites.new lanes.new }
    ensures made { HaveMadeUpTo bits (result + 1) sites.new }
    ensures far { AreFar result sites.new }
    ensures turned { HaveTurned schedules.now result lanes.new }
    ensures short { NoneShort sites.old → NoneShort sites.new }
    ensures lanes { LanesKeep lanes.old lanes.new }
    ensures keeps { SitesKeep lanes.old sites.old sites.new }
    ensures least { made ≤ result }
    ensures still { result < bits }
    ensures waits { waits ≡ true → NoneHasToDo lanes.new }
{
    if !waits {
        return made;
    }
    let next = idle_until(sites, made, bits - 1);
    idle_lanes(lanes, schedules, made, next);
    next
}

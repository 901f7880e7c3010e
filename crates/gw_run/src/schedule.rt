//! When the routes of a run in one thread make their turns.

ghost use Rattle.std.specs.Prelude.{◌≡◌, ◌≢◌, ◌<◌, ◌≤◌, ◌%◌, ℕ, List, IfOk, Some, map, slice_get, true, false};
ghost use Rattle.gw_run.specs.Schedules.{AreSchedules, next_due, schedule_of};

use gw_script::{Route, Script};
use std::alloc::{AllocError, Global};

/// When a route makes its turns.
#[derive(Clone, Copy, Debug, PartialEq, Eq)]
pub struct Schedule {
    /// The route makes turns behind each tick whose number, counted from 1, is a multiple of this; at least 1.
    pub every: u32,
    /// The greatest number of turns behind one tick, at least 1.
    pub burst: u32,
}

impl Schedule {
    /// Returns the schedule of a route: its own pace, where `turn` stands for an `every` that is absent.
    fn of(route: &Route, turn: u32) -> Schedule
        ensures { result ≡ schedule_of turn route.now }
    {
        let pace = route.pace();
        Schedule {
            every: match pace.every {
                Some(every) => every,
                None => turn,
            },
            burst: pace.burst,
        }
    }

    /// Whether turns are made behind the tick of this number, counted from 1. Most routes make them behind each tick:
    /// then nothing is divided.
    pub(crate) fn is_due(&self, tick: u64) -> bool
        requires { 0 < self.now.every }
        ensures yes { result ≡ true → tick % self.now.every ≡ 0 }
        ensures no { result ≡ false → tick % self.now.every ≢ 0 }
    {
        self.every == 1 || tick % u64::from(self.every) == 0
    }

    /// Returns the number of the first tick behind so many at which turns are made.
    fn next_due(&self, ticks: u64) -> u64
        requires some { 0 < self.now.every }
        requires fits { ticks ≤ 4294967295 }
        ensures { result ≡ next_due self.now ticks }
    {
        let every = u64::from(self.every);
        (ticks / every + 1) * every
    }
}

/// Returns the schedules of the routes of a script, in their order.
pub(crate) fn schedules_of(
    alloc: Global,
    script: &Script,
    turn: u32,
) -> Result<Vec<Schedule>, AllocError>
    ensures { IfOk result (λ schedules. schedules.items ≡ map (schedule_of turn) script.now.routes) }
{
    let routes = script.routes();
    let mut schedules = Vec::with_capacity(alloc, routes.len())?;
    for route in routes {
        schedules.push(Schedule::of(route, turn))?;
    }
    Ok(schedules)
}

/// Returns the number of the first tick behind so many at which one of these routes makes turns, at most `last`. Mostly
/// one makes them behind each tick: then the others aren't looked at.
pub(crate) fn first_due(schedules: &[Schedule], ticks: u64, last: u64) -> u64
    requires schedules { AreSchedules schedules.now }
    requires fits { ticks ≤ 4294967295 }
    requires less { ticks < last }
    ensures later { ticks < result }
    ensures most { result ≤ last }
    ensures first { (k : ℕ) (schedule : Schedule) → slice_get schedules.now k ≡ Some schedule
        → result ≤ next_due schedule ticks }
{
    let mut first = last;
    for schedule in schedules {
        if schedule.every == 1 {
            return ticks + 1;
        }
        first = first.min(schedule.next_due(ticks));
    }
    first
}

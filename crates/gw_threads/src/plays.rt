//! The rule of the clock table, and the names of its steps.
ghost use Rattle.gw_threads.specs.Clocks.{Kept, first_pacer, one_of, rest_of, lender_of, watcher_of};
ghost use Rattle.gw_threads.specs.Clocks.{Looks, Ticks, Stops, Watches};

use crate::views::{Pace, Pacer};
use atomic_table::{Play, Split, TableRule};

/// No clock passes the run's bits, and none is further ahead of another than the slack.
pub struct Paced;

impl TableRule<(), Pacer, Pace> for Paced {
    ghost holds = { Kept };

    ghost first = { first_pacer };
}

/// A look at a clock.
pub struct Look;

impl Play<(), Pacer> for Look {
    ghost then = { Looks };
}

/// A clock goes on.
pub struct Tick;

impl Play<(), Pacer> for Tick {
    ghost then = { Ticks };
}

/// The stop word is set.
pub struct Stop;

impl Play<(), Pacer> for Stop {
    ghost then = { Stops };
}

/// A look at the stop word.
pub struct Watch;

impl Play<(), Pacer> for Watch {
    ghost then = { Watches };
}

/// Cuts off the first of a seat's clocks.
pub struct Deal;

impl Split<Pacer> for Deal {
    ghost left = { rest_of };

    ghost right = { one_of };
}

/// Cuts off a seat with no clock.
pub struct Lend;

impl Split<Pacer> for Lend {
    ghost left = { lender_of };

    ghost right = { watcher_of };
}

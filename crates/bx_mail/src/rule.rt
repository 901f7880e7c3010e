//! The rule of a post's queue, and its moves.
ghost use Rattle.std.specs.Prelude.{◌≡◌, ◌+◌, ◌++◌, ◌∷◌, []};
ghost use Rattle.bx_mail.specs.Rule.{bus_log, route_log, idle_log, Delivers, Taken, TotalFact, SentFact};

use crate::log::Log;
use crate::posting::Posting;
use crossbeam_queue::RuledArrayQueue;
use crossbeam_queue::protocol::{Join, Lesson, Outcome, Protocol, Split};

/// The queue of eight posts that the bus side and the routes' sides share.
pub(crate) type Line = RuledArrayQueue<Posting, Log, InOrder>;

/// Of each route, what it posted is what was taken of it and then what the queue holds of it.
pub(crate) struct InOrder;

impl Protocol<Posting, Log> for InOrder {
    ghost holds = { Delivers };

    ghost first = { bus_log [] 0 [] };
}

/// The bus side makes the next route's side, and takes it in at the end.
pub(crate) struct Sides;

impl Split<Log> for Sides {
    ghost left = { λ v. bus_log v.got (v.made + 1) v.known };

    ghost right = { λ v. route_log v.made [] };
}

impl Join<Log> for Sides {
    ghost both = { λ v w. bus_log v.got v.made (v.known ++ w.sent ∷ []) };

    ghost spent = { idle_log };
}

/// A route posts, behind what it posted before.
pub(crate) struct Posts;

impl Outcome<Posting, Log> for Posts {
    ghost then = { λ v x w. w ≡ route_log v.from (v.sent ++ x ∷ []) };
}

impl Lesson<Posting, Log> for Posts {
    ghost fact = { SentFact };
}

/// The bus side takes a post, behind those taken before.
pub(crate) struct Takes;

impl Outcome<Posting, Log> for Takes {
    ghost then = { Taken };
}

impl Lesson<Posting, Log> for Takes {
    ghost fact = { TotalFact };
}

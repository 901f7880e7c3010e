//! The rule of a FIFO's queue, and its moves.
ghost use Rattle.std.specs.Prelude.{◌≡◌, ◌++◌, ◌∷◌, [], Some, None, true, false};
ghost use Rattle.bx_rx.specs.Rule.{log, Relays, StoredFact, ReleasedFact, TotalFact};

use crate::log::Log;
use crate::rx_frame::RxFrame;
use crossbeam_queue::RuledArrayQueue;
use crossbeam_queue::protocol::{Join, Lesson, Outcome, Protocol, Split};
use std::alloc::Global;

/// The queue of three places that the two sides share.
pub(crate) type Line = RuledArrayQueue<RxFrame, Log, InOrder>;

/// What was stored is what was released and then what the queue holds.
pub(crate) struct InOrder;

impl Protocol<RxFrame, Log> for InOrder {
    ghost holds = { Relays };

    ghost first = { log true true [] [] [] };
}

/// One side offers, the other releases.
pub(crate) struct Sides;

impl Split<Log> for Sides {
    ghost left = { λ v. log true false v.stored [] v.calls };

    ghost right = { λ v. log false true [] v.released [] };
}

impl Join<Log> for Sides {
    ghost both = { λ v w. log true true v.stored w.released [] };

    ghost spent = { log false false [] [] [] };
}

/// A call that gave or stored nothing is noted: a pass that may do nothing is divided off, and taken in again.
pub(crate) struct Notes;

impl Split<Log> for Notes {
    ghost left = { λ v. v };

    ghost right = { λ v. log false false [] [] [] };
}

impl Join<Log> for Notes {
    ghost both = { λ v w. log v.offers v.releases v.stored v.released (v.calls ++ None ∷ []) };

    ghost spent = { log false false [] [] [] };
}

/// A frame is stored, behind those stored before.
pub(crate) struct Stores;

impl Outcome<RxFrame, Log> for Stores {
    ghost then = { λ v x w. w ≡ log v.offers v.releases (v.stored ++ x ∷ []) v.released (v.calls ++ Some x ∷ []) };
}

impl Lesson<RxFrame, Log> for Stores {
    ghost fact = { StoredFact };
}

/// A frame is released, behind those released before.
pub(crate) struct Releases;

impl Outcome<RxFrame, Log> for Releases {
    ghost then = { λ v x w. w ≡ log v.offers v.releases v.stored (v.released ++ x ∷ []) (v.calls ++ Some x ∷ []) };
}

impl Lesson<RxFrame, Log> for Releases {
    ghost fact = { ReleasedFact };
}

/// What both sides know together.
pub(crate) struct Total;

impl Lesson<RxFrame, Log> for Total {
    ghost fact = { TotalFact };
}

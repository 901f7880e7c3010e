//! The rule of the queue of batons, and its moves.
ghost use Rattle.std.specs.Prelude.{◌≡◌, ◌++◌, ◌∷◌, ◌+◌, ◌-◌, []};
ghost use Rattle.gw_pool.specs.Pool.{account, Balanced, Remains};

use crate::account::Account;
use crate::pool::Placed;
use crossbeam_queue::RuledArrayQueue;
use crossbeam_queue::protocol::{Join, Lesson, Outcome, Protocol, Split};

/// The queue that all seats share.
pub(crate) type Batons<X> = RuledArrayQueue<X, Account, Fair>;

/// Each baton that was put was taken, or is in the queue, as often as it was put.
pub(crate) struct Fair;

impl<X: Placed> Protocol<X, Account> for Fair {
    ghost holds = { Balanced X.place };

    ghost first = { account 1024 [] [] };
}

/// A seat for one worker more, and its way back.
pub(crate) struct Parts;

impl Split<Account> for Parts {
    ghost left = { λ v. account (v.parts - 1) v.put v.taken };

    ghost right = { λ v. account 1 [] [] };
}

impl Join<Account> for Parts {
    ghost both = { λ v w. account (v.parts + w.parts) (v.put ++ w.put) (v.taken ++ w.taken) };

    ghost spent = { account 0 [] [] };
}

/// A baton is put.
pub(crate) struct Puts;

impl<X: Placed> Outcome<X, Account> for Puts {
    ghost then = { λ v x w. w ≡ account v.parts (v.put ++ X.place x ∷ []) v.taken };
}

/// A baton is taken.
pub(crate) struct Takes;

impl<X: Placed> Outcome<X, Account> for Takes {
    ghost then = { λ v x w. w ≡ account v.parts v.put (v.taken ++ X.place x ∷ []) };
}

impl<X: Placed> Lesson<X, Account> for Takes {
    ghost fact = { Remains X.place };
}

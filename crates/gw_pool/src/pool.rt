//! A queue of batons, and the seats at it.
ghost use Rattle.std.specs.Prelude.{◌≡◌, ◌<◌, ◌+◌, ◌-◌, ◌++◌, [], ◌∷◌, ℕ, IfOk, IfSome, IfNone, OnOk, OnErr};
ghost use Rattle.gw_pool.specs.Pool.{account, weigh};

use crate::account::Account;
use crate::rule::{Batons, Parts, Puts, Takes};
use crossbeam_queue::Pass;
use std::alloc::{AllocError, Global};
use std::marker::Model;
use std::sync::{Arc, Wait};
use std::thread;

/// A baton: it has a place.
pub trait Placed {
    ghost use Rattle.std.specs.Prelude.{ℕ};

    // its place
    ghost place: { Self → ℕ };
}

/// A seat at a pool, a queue of sixteen batons, which may be in a thread of its own. Contracts see which queue it is
/// at, and what it put and took there.
#[derive(Drop)]
pub struct PoolSeat<X: Placed> {
    queue: Arc<Batons<X>, Global>,
    pass: Pass<X, Account>,
}

impl<X: Placed> Model for PoolSeat<X> {
    ghost use Rattle.std.specs.Arc.{arc_value};
    ghost use Rattle.std.specs.Prelude.{◌≡◌};
    ghost use Rattle.crossbeam_queue.specs.Passes.{view as known, IsPassOf, ruled_capacity};
    ghost use Rattle.gw_pool.specs.Pool.{PoolPlace, pool_place};

    ghost Value = { PoolPlace };

    ghost view = { λ s. pool_place s.pass.table_id (known s.pass) };

    // the queue has room for sixteen batons
    ghost invariant = { λ s. IsPassOf (arc_value s.queue) s.pass × (ruled_capacity (arc_value s.queue) ≡ 16) };
}

impl<X: Placed + Drop> PoolSeat<X> {
    /// The first seat of a new pool, which has all parts. An error where memory was refused.
    pub fn open(alloc: Global) -> Result<PoolSeat<X>, AllocError>
        ensures { IfOk result (λ seat. seat.account ≡ account 1024 [] []) }
    {
        let (queue, pass) = Batons::ruled(alloc, 16)?;
        let queue = Arc::new(alloc, queue)?;
        Ok(PoolSeat { queue, pass })
    }

    /// A seat for one worker more, with one of this seat's parts. An error where memory was refused: then nothing
    /// changed.
    pub fn recruit(&mut self) -> Result<PoolSeat<X>, AllocError>
        requires { 1 < self.old.account.parts }
        ensures queue { self.new.queue ≡ self.old.queue }
        ensures rest { OnOk result (self.new.account ≡ account (self.old.account.parts - 1) self.old.account.put
            self.old.account.taken) }
        ensures same { OnErr result (self.new ≡ self.old) }
        ensures theirs { IfOk result (λ seat. seat.queue ≡ self.old.queue) }
        ensures new { IfOk result (λ seat. seat.account ≡ account 1 [] []) }
    {
        let queue = Arc::try_clone(&self.queue)?;
        let pass = self.queue.another::<Parts>(&mut self.pass);
        Ok(PoolSeat { queue, pass })
    }

    /// A worker's seat comes back.
    pub fn retire(&mut self, seat: PoolSeat<X>)
        requires queue { seat.queue ≡ self.old.queue }
        requires part { 0 < self.old.account.parts }
        ensures queue { self.new.queue ≡ self.old.queue }
        ensures both { self.new.account ≡ account (self.old.account.parts + seat.account.parts)
            (self.old.account.put ++ seat.account.put) (self.old.account.taken ++ seat.account.taken) }
    {
        let PoolSeat { queue: _, pass } = seat;
        self.queue.absorb::<Parts>(&mut self.pass, pass);
    }

    /// Puts a baton. Tries again while another seat is in the middle of a call.
    pub fn put<R: Wait>(&mut self, rt: &R, baton: X)
        requires { 0 < self.old.account.parts }
        ensures queue { self.new.queue ≡ self.old.queue }
        ensures put { self.new.account ≡ account self.old.account.parts (self.old.account.put ++ X.place baton ∷ [])
            self.old.account.taken }
    {
        let mut next = baton;
        for _try in rt.forever() {
            match self.queue.try_push_as::<Puts>(&mut self.pass, next) {
                Ok(()) => return,
                Err(back) => next = back,
            }
            thread::yield_now();
        }
        unreachable!()
    }

    /// Takes the baton at the front. `None` where there is none, or where another seat is in the middle of a call.
    pub fn take(&mut self) -> Option<X>
        requires { 0 < self.old.account.parts }
        ensures queue { self.new.queue ≡ self.old.queue }
        ensures taken { IfSome result (λ x. self.new.account
            ≡ account self.old.account.parts self.old.account.put (self.old.account.taken ++ X.place x ∷ [])) }
        ensures none { IfNone result (self.new ≡ self.old) }
    {
        self.queue.try_pop_as::<Takes>(&mut self.pass)
    }

    /// Takes the next baton that is left, by the seat that has all parts. `None` only where each baton was taken as
    /// often as it was put.
    pub fn collect<R: Wait>(&mut self, rt: &R) -> Option<X>
        requires { self.old.account.parts ≡ 1024 }
        ensures queue { self.new.queue ≡ self.old.queue }
        ensures taken { IfSome result (λ x. self.new.account
            ≡ account 1024 self.old.account.put (self.old.account.taken ++ X.place x ∷ [])) }
        ensures none { IfNone result (self.new ≡ self.old) }
        ensures all { IfNone result ((h : ℕ → ℕ) → weigh h self.old.account.put ≡ weigh h self.old.account.taken) }
    {
        self.queue.pop_as::<Takes, R>(rt, &mut self.pass)
    }
}

//! A route that workers pass on, and which of the routes it is.
ghost use Rattle.std.specs.Prelude.{◌≡◌, ◌<◌, Some, OnOk, OnErr, slice_get, length};
ghost use Rattle.gw_route.specs.Turn.{next_turn};
ghost use Rattle.gw_pool.specs.Couriers.{IsReadyCourier, CourierRuns};
ghost use Rattle.gw_pool.specs.declared.courier.Courier.{Courier};

use crate::courier::{Courier, make_turn};
use crate::pool::Placed;
use bx_core::{Gate, RouteTx};
use can_frame::Memory;
use gw_route::TurnAnswer;
use std::marker::{Brand, Model, PhantomData};
use std::sync::Wait;

/// Which routes were dealt: what a baton is compared with. It is no code: whoever deals picks the list, by which batons
/// are known at the end as the routes that they were at the start.
pub trait Dealing<S, G> {
    ghost use Rattle.std.specs.Prelude.{List};
    ghost use Rattle.gw_pool.specs.declared.courier.Courier.{Courier};

    // the routes that were dealt, in order
    ghost dealt: { List (Courier S G) };
}

impl<S, G> Dealing<S, G> for Brand {
    ghost use Rattle.std.specs.Prelude.{[]};

    ghost dealt = { [] };
}

/// A route with its place among those that were dealt, after turns. Contracts see its place, and how many turns its
/// hand made.
pub struct Baton<R, S: RouteTx<R>, G, J: Dealing<S, G>> {
    place: usize,
    courier: Courier<S, G>,
    of: PhantomData<(R, J)>,
}

impl<R, S: RouteTx<R>, G, J: Dealing<S, G>> Model for Baton<R, S, G, J> {
    ghost use Rattle.std.specs.Prelude.{◌≡◌, Some, slice_get};
    ghost use Rattle.gw_pool.specs.Couriers.{BatonPlace, baton_place, CourierRuns};
    ghost use Rattle.gw_pool.specs.declared.courier.Courier.{Courier};

    ghost Value = { BatonPlace };

    ghost view = { λ b. baton_place b.place b.courier.hand.turns };

    // one was dealt at its place, and it is that one after turns
    ghost invariant = { λ b. (start : Courier S G) × (slice_get J.dealt b.place ≡ Some start)
        × CourierRuns S.route_after S.stays start b.courier };
}

impl<R, S: RouteTx<R> + Drop, G: Drop, J: Dealing<S, G>> Drop for Baton<R, S, G, J> {
    fn drop(self) {
        let Baton {
            place: _,
            courier: _,
            of: _,
        } = self;
    }
}

impl<R, S: RouteTx<R>, G, J: Dealing<S, G>> Placed for Baton<R, S, G, J> {
    ghost place = { λ b. b.place };
}

impl<R, S: RouteTx<R>, G, J: Dealing<S, G>> Baton<R, S, G, J> {
    /// The baton of a route that made no turn, which was dealt at this place.
    pub fn new(place: usize, courier: Courier<S, G>) -> Baton<R, S, G, J>
        requires known { slice_get J.dealt place ≡ Some courier }
        requires ready { IsReadyCourier S.route_after courier }
        ensures place { result.place ≡ place }
        ensures turns { result.turns ≡ courier.hand.turns }
    {
        Baton {
            place,
            courier,
            of: PhantomData,
        }
    }

    /// Its place.
    pub fn place(&self) -> usize
        ensures place { result ≡ self.now.place }
        ensures within { result < length J.dealt }
    {
        self.place
    }

    /// The route is taken out: it is the one that was dealt at its place, after turns.
    pub fn end(self) -> Courier<S, G>
        ensures { (start : Courier S G) → slice_get J.dealt self.place ≡ Some start
            → CourierRuns S.route_after S.stays start result }
    {
        let Baton {
            place: _,
            courier,
            of: _,
        } = self;
        courier
    }
}

impl<R: Wait, S: RouteTx<R>, G: Gate, J: Dealing<S, G>> Baton<R, S, G, J> {
    /// Makes one turn and returns what came of it. `Memory` where an allocation failed: then no turn was made. The hand
    /// counts the turn, up to 1,000,000.
    pub fn turn(&mut self, rt: &R) -> Result<TurnAnswer, Memory>
        ensures place { self.new.place ≡ self.old.place }
        ensures one { OnOk result (self.new.turns ≡ next_turn self.old.turns) }
        ensures none { OnErr result (self.new.turns ≡ self.old.turns) }
    {
        make_turn(
            rt,
            &mut self.courier.hand,
            &mut self.courier.side,
            &mut self.courier.gate,
        )
    }
}

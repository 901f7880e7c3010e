//! Mailboxes that threads share, as a set of sides.
use crate::bus_seat::BusSeat;
use crate::closing::end;
use crate::mail::Mail;
use crate::route_seat::RouteSeat;
use bx_core::{Left, Mailboxes};
use can_frame::Memory;
use std::alloc::Global;

impl<R> Mailboxes<R, BusSeat, RouteSeat> for Mail {
    ghost use Rattle.std.specs.Prelude.{◌≡◌, ◌≤◌, ℕ, Bool, None, IfOk, length};
    ghost use Rattle.std.proofs.Common.{lit≤};
    ghost use Rattle.bx_core.specs.TxBus.{no_bus_past};
    ghost use Rattle.bx_core.specs.Ties.{AreSides, AreNew, AllTied, NothingBeyond};
    ghost use Rattle.bx_shared.specs.Sides.{BusAfter, RouteAfter};
    ghost use Rattle.bx_shared.specs.Closing.{IsSideOf, routes_of, side-stays, side-moves, routes-stay, txfp-stays};

    ghost side_of = { IsSideOf };

    ghost routes_of = { routes_of };

    ghost txfp_of = { λ b. b.txfp };

    ghost can_send_by = { λ txfp. Unit };

    ghost room = { 3 };

    fn open(
        _rt: &R,
        alloc: Global,
        routes: u8,
        txfp: bool,
    ) -> Result<(BusSeat, Vec<RouteSeat>), Memory>
        requires some { 1 ≤ routes }
        requires few { routes ≤ 8 }
        ensures bus { IfOk result (λ made. BusAfter made.0 no_bus_past) }
        ensures asked { IfOk result (λ made. Unit) }
        ensures idle { IfOk result (λ made. made.0.bus.sends ≡ None) }
        ensures routes { IfOk result (λ made. routes_of made.0 ≡ routes) }
        ensures priority { IfOk result (λ made. made.0.txfp ≡ txfp) }
        ensures size { IfOk result (λ made. length made.1.items ≡ routes) }
        ensures sides { IfOk result (λ made. AreSides IsSideOf made.0 made.1.items) }
        ensures new { IfOk result (λ made. AreNew RouteAfter made.1.items) }
    {
        Mail::with_txfp(alloc, routes, txfp)
    }

    fn close(
        _rt: &R,
        alloc: Global,
        bus: BusSeat,
        sides: Vec<RouteSeat>,
    ) -> Result<Vec<Left>, Memory>
        requires all { length sides.items ≡ routes_of bus }
        requires sides { AreSides IsSideOf bus sides.items }
        ensures tied { IfOk result (λ left. AllTied BusAfter RouteAfter bus.txfp bus sides.items left.items) }
        ensures beyond { IfOk result (λ left. NothingBeyond BusAfter (routes_of bus) bus left.items) }
        ensures few { IfOk result (λ left. length left.items ≤ 3) }
    {
        Ok(end(alloc, bus, sides)?)
    }

    ghost side_stays = { side-stays };

    ghost side_moves = { side-moves };

    ghost routes_stay = { routes-stay };

    ghost txfp_stays = { txfp-stays };

    ghost few_room = { lit≤ tt };
}

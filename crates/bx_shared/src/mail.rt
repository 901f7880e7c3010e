//! Mailboxes that threads share by atomic steps.
ghost use Rattle.std.specs.Prelude.{◌≡◌, ◌≤◌, true, IfOk, length};
ghost use Rattle.bx_core.specs.Ties.{AreSides, AllTied, NothingBeyond};
ghost use Rattle.bx_shared.specs.Seats.{IsNewBus, AreDealt};
ghost use Rattle.bx_shared.specs.Sides.{BusAfter, RouteAfter};
ghost use Rattle.bx_shared.specs.Closing.{IsSideOf, routes_of, AreCounted, AreAccounted, AddUp, HasEnded};

use crate::bus_seat::BusSeat;
use crate::closed::Closed;
use crate::closing::{counts_of, end};
use crate::dealing::deal;
use crate::route_seat::RouteSeat;
use can_frame::Memory;
use std::alloc::Global;

/// The three transmit mailboxes of a bxCAN controller (RM0008, bxCAN, "Transmission handling") in one control word and
/// six payload words, on which the bus's seat and the seats of the routes act by atomic steps, each in a thread of its
/// own, without a lock.
pub struct Mail;

impl Mail {
    /// The seats at three empty mailboxes for so many routes, 1 to 8, in order, of which nothing was requested yet.
    /// They send by order of requests (TXFP is set). `Memory` where a growth was refused, and nothing else is refused.
    /// Of all calls only this one, `with_txfp` and `close` take memory.
    pub fn new(alloc: Global, routes: u8) -> Result<(BusSeat, Vec<RouteSeat>), Memory>
        requires some { 1 ≤ routes }
        requires few { routes ≤ 8 }
        ensures bus { IfOk result (λ made. IsNewBus true routes made.0) }
        ensures size { IfOk result (λ made. length made.1.items ≡ routes) }
        ensures seats { IfOk result (λ made. AreDealt made.0.table made.1.items) }
    {
        Mail::with_txfp(alloc, routes, true)
    }

    /// The same, with this priority (RM0008, bxCAN, "Transmit priority"): true is the order of requests, false is by
    /// identifier.
    pub fn with_txfp(
        alloc: Global,
        routes: u8,
        txfp: bool,
    ) -> Result<(BusSeat, Vec<RouteSeat>), Memory>
        requires some { 1 ≤ routes }
        requires few { routes ≤ 8 }
        ensures bus { IfOk result (λ made. IsNewBus txfp routes made.0) }
        ensures size { IfOk result (λ made. length made.1.items ≡ routes) }
        ensures seats { IfOk result (λ made. AreDealt made.0.table made.1.items) }
    {
        Ok(deal(alloc, routes, txfp)?)
    }

    /// Ends the mailboxes, given the bus's seat and the seats of all their routes, in order. Returns how many requests
    /// each route made, how many of them ended in which way, and what is left: the requests that wait, the oldest of
    /// all routes first. Of each route, the requests are as many as those that were sent, aborted and reaped, and
    /// those that are left. `Memory` where a growth was refused: then the seats are gone.
    pub fn close(alloc: Global, bus: BusSeat, routes: Vec<RouteSeat>) -> Result<Closed, Memory>
        requires all { length routes.items ≡ routes_of bus }
        requires sides { AreSides IsSideOf bus routes.items }
        ensures size { IfOk result (λ closed. length closed.routes.items ≡ length routes.items) }
        ensures counted { IfOk result (λ closed. AreCounted bus routes.items closed.routes.items) }
        ensures tied { IfOk result (λ closed. AllTied BusAfter RouteAfter bus.txfp bus routes.items closed.left.items) }
        ensures beyond { IfOk result (λ closed. NothingBeyond BusAfter (routes_of bus) bus closed.left.items) }
        ensures few { IfOk result (λ closed. length closed.left.items ≤ 3) }
        ensures accounted { IfOk result (λ closed. AreAccounted bus routes.items closed.left.items) }
        ensures add_up { IfOk result (λ closed. AddUp closed.routes.items closed.left.items) }
        ensures ended { IfOk result (λ closed. HasEnded bus routes.items closed.left.items) }
    {
        let counts = counts_of(alloc, &bus, &routes)?;
        let left = end(alloc, bus, routes)?;
        Ok(Closed {
            routes: counts,
            left,
        })
    }
}

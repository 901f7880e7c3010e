//! Mailboxes whose sides may stand in threads of their own.
use crate::left::Left;
use crate::route_tx::RouteTx;
use crate::tx_bus::TxBus;
use can_frame::Memory;
use std::alloc::Global;

/// How the transmit mailboxes of a controller (RM0008, bxCAN, "Transmission handling") are made as a bus side and one
/// side for each of its routes, which may go to threads of their own, and how they are closed once all of these are
/// together again.
///
/// `R` is a runtime, for those mailboxes whose calls may wait.
pub trait Mailboxes<R, B: TxBus<R>, S: RouteTx<R>> {
    ghost use Rattle.std.specs.Prelude.{◌≡◌, ◌≤◌, ℕ, Bool, None, [], IfOk, length};
    ghost use Rattle.bx_core.specs.TxBus.{no_bus_past};
    ghost use Rattle.bx_core.specs.Ties.{AreSides, AreNew, AllTied, NothingBeyond};

    // of these mailboxes, this is the side of the route of this number
    ghost side_of: { B → ℕ → S → Type 0 };

    // for how many routes they are
    ghost routes_of: { B → ℕ };

    // whether they send by order of requests (TXFP set)
    ghost txfp_of: { B → Bool };

    // the priorities that they can be made with
    ghost can_send_by: { Bool → Type 0 };

    // how many requests may wait in them
    ghost room: { ℕ };

    /// Empty mailboxes of this priority (RM0008, bxCAN, "Transmit priority") for so many routes, 1 to 8, of which
    /// nothing was asked yet. `Memory` where a growth was refused.
    fn open(rt: &R, alloc: Global, routes: u8, txfp: bool) -> Result<(B, Vec<S>), Memory>
        requires some { 1 ≤ routes }
        requires few { routes ≤ 8 }
        requires priority { can_send_by txfp }
        ensures bus { IfOk result (λ made. B.bus_after made.0 no_bus_past) }
        ensures asked { IfOk result (λ made. B.bus_asked made.0 []) }
        ensures idle { IfOk result (λ made. B.transmitting made.0 ≡ None) }
        ensures routes { IfOk result (λ made. routes_of made.0 ≡ routes) }
        ensures priority { IfOk result (λ made. txfp_of made.0 ≡ txfp) }
        ensures size { IfOk result (λ made. length made.1.items ≡ routes) }
        ensures sides { IfOk result (λ made. AreSides side_of made.0 made.1.items) }
        ensures new { IfOk result (λ made. AreNew S.route_after made.1.items) };

    /// Closes the mailboxes, given their bus side and the sides of all their routes, in order. Which requests wait in
    /// them, of each route the oldest first. `Memory` where a growth was refused: then the sides are gone.
    fn close(rt: &R, alloc: Global, bus: B, sides: Vec<S>) -> Result<Vec<Left>, Memory>
        requires all { length sides.items ≡ routes_of bus }
        requires sides { AreSides side_of bus sides.items }
        ensures tied { IfOk result (λ left. AllTied B.bus_after S.route_after (txfp_of bus) bus sides.items
            left.items) }
        ensures beyond { IfOk result (λ left. NothingBeyond B.bus_after (routes_of bus) bus left.items) }
        ensures few { IfOk result (λ left. length left.items ≤ room) };

    // no call of either side changes whose it is, for how many routes they are, or their priority
    ghost side_stays: { (a b : B) (route : ℕ) (s : S) → B.bus_stays a b → side_of a route s → side_of b route s };

    ghost side_moves: { (a : B) (route : ℕ) (s t : S) → S.stays s t → side_of a route s → side_of a route t };

    ghost routes_stay: { (a b : B) → B.bus_stays a b → routes_of b ≡ routes_of a };

    ghost txfp_stays: { (a b : B) → B.bus_stays a b → txfp_of b ≡ txfp_of a };

    // none has room for more than twelve
    ghost few_room: { room ≤ 12 };
}

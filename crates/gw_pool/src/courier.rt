//! A route of a run as it goes to threads.
ghost use Rattle.std.specs.Prelude.{◌≡◌, IfOk, OnOk, OnErr};
ghost use Rattle.gw_route.specs.RouteHand.{HandValue, hand_value};
ghost use Rattle.gw_route.specs.Turn.{Filled, TurnMade, next_turn};
ghost use Rattle.gw_pool.specs.Couriers.{CourierHolds, CourierMoves};

use bx_core::{Gate, RouteTx};
use can_frame::Memory;
use gw_route::{RouteHand, TurnAnswer};
use std::sync::Wait;

/// A route of a run as it goes to threads: its hand, its side of the mailboxes that it leads into, and its gate.
#[derive(Drop)]
pub struct Courier<S, G> {
    /// The hand, which takes frames out of a receive FIFO (RM0008, bxCAN, "Reception handling").
    pub hand: RouteHand,
    /// The side of the mailboxes (RM0008, bxCAN, "Transmission handling").
    pub side: S,
    /// Is told of each point that a call on the side passes.
    pub gate: G,
}

/// Fills the queue of a route, if it has one, makes one turn of it, and returns what came of it. `Memory` where an
/// allocation failed: then no turn was made. The hand counts the turn, up to 1,000,000.
pub(crate) fn make_turn<R: Wait, S: RouteTx<R>, G: Gate>(
    rt: &R,
    hand: &mut RouteHand,
    side: &mut S,
    gate: &mut G,
) -> Result<TurnAnswer, Memory>
    requires { CourierHolds S.route_after hand.old side.old }
    ensures moves { CourierMoves S.route_after S.stays hand.old hand.new side.old side.new }
    ensures turned { IfOk result (λ answer. (filled : HandValue) × Filled (hand_value hand.old) filled
        × TurnMade (S.route_after side.old) (S.route_after side.new) filled (hand_value hand.new) answer) }
    ensures one { OnOk result (hand.new.turns ≡ next_turn hand.old.turns) }
    ensures none { OnErr result (hand.new.turns ≡ hand.old.turns) }
    ensures untouched { OnErr result (side.new ≡ side.old) }
{
    hand.fill(rt)?;
    hand.turn(rt, side, gate)
}

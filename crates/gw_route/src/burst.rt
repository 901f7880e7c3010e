//! Turns of a route that are made one behind the other.
ghost use Rattle.std.specs.Prelude.{◌≡◌, ◌+◌, ◌≤◌, List, IfOk, IfSome, min};
ghost use Rattle.gw_route.specs.Plans.{FromPlan};
ghost use Rattle.gw_route.specs.declared.route_abort.RouteAbort.{RouteAbort};
ghost use Rattle.gw_route.specs.RouteHand.{hand_value, LogsReleased, IsLinked, IsTied};
ghost use Rattle.gw_route.specs.Burst.{IsBurst};

use crate::route_hand::RouteHand;
use crate::turn_answer::TurnAnswer;
use bx_core::{NoGate, RouteTx};
use bx_rx::Memory;
use std::sync::Wait;

/// What a burst of turns came to.
#[derive(Clone, Copy, Debug, PartialEq, Eq)]
pub struct Burst {
    /// How many turns were made.
    pub turns: u32,
    /// What the last one came to.
    pub last: TurnAnswer,
}

/// Makes turns of a route until one is idle or waits: at least one, and at most `most`. May wait where a turn may.
///
/// `Memory` where a turn couldn't be made: those before it were.
pub fn make_burst<R: Wait, T: RouteTx<R>>(
    rt: &R,
    hand: &mut RouteHand,
    tx: &mut T,
    most: u32,
) -> Result<Burst, Memory>
    requires some { 1 ≤ most }
    requires linked { IsLinked (T.route_after tx.old) (hand_value hand.old) }
    ensures made { IfOk result (IsBurst T.route_after most tx.old tx.new (hand_value hand.old) (hand_value hand.new)) }
    ensures counted { IfOk result (λ burst. hand.old.turns ≤ 1000000
        → hand.new.turns ≡ min (hand.old.turns + burst.turns) 1000000) }
    ensures plan { (planned : List RouteAbort) → FromPlan planned (hand_value hand.old)
        → FromPlan planned (hand_value hand.new) }
    ensures linked { IsLinked (T.route_after tx.new) (hand_value hand.new) }
    ensures log { LogsReleased (hand_value hand.old) → LogsReleased (hand_value hand.new) }
    ensures tied { IsTied hand.old hand.new }
    ensures stays { T.stays tx.old tx.new }
{
    let mut turns = 1;
    let mut last = hand.turn(rt, tx, &mut NoGate)?;
    while turns < most && !last.ends_burst() {
        last = hand.turn(rt, tx, &mut NoGate)?;
        turns += 1;
    }
    Ok(Burst { turns, last })
}

//! A route's turns in one thread.

ghost use Rattle.std.specs.Prelude.{◌≡◌, ◌+◌, ◌<◌, ◌≤◌, ℕ, List, IfOk, OnOk, true, false, length, min};
ghost use Rattle.bx_core.specs.PlainMail.{core_of, short_of};
ghost use Rattle.bx_core.specs.Stands.{RouteStands};
ghost use Rattle.gw_route.specs.Plans.{FromPlan};
ghost use Rattle.gw_route.specs.RouteHand.{hand_value, IsLinked, IsTied, LogsReleased};
ghost use Rattle.gw_route.specs.declared.route_abort.RouteAbort.{RouteAbort};
ghost use Rattle.gw_route.specs.declared.turn_answer.TurnAnswer.TheVariants.{Idle};
ghost use Rattle.gw_run.specs.Lanes.{AskedInVain, TurnLeaves};

use crate::port::Port;
use bx_core::PlainRoute;
use can_frame::Memory;
use gw_route::{Burst, RouteHand, TurnAnswer, make_burst};
use std::sync::Wait;

/// Whether a burst was one turn, at which the route had nothing to do.
fn is_idle(burst: Burst) -> bool
    ensures { result ≡ true → (burst.turns ≡ 1) × (burst.last ≡ Idle) }
{
    burst.turns == 1 && matches!(burst.last, TurnAnswer::Idle)
}

/// Fills the queue of a route, if it has one, and makes turns of it into the mailboxes of this controller until one is
/// idle or waits, at most `most`. Returns whether it had nothing to do. `Memory` where it was refused to the hand, or
/// to the mailboxes at any time before.
pub(crate) fn turns_on<R: Wait>(
    rt: &R,
    hand: &mut RouteHand,
    port: &mut Port,
    number: u8,
    most: u32,
) -> Result<bool, Memory>
    requires route { number < length (core_of port.old.mail).routes }
    requires linked { IsLinked (RouteStands (core_of port.old.mail) number) (hand_value hand.old) }
    requires some { 1 ≤ most }
    ensures linked { IsLinked (RouteStands (core_of port.new.mail) number) (hand_value hand.new) }
    ensures log { LogsReleased (hand_value hand.old) → LogsReleased (hand_value hand.new) }
    ensures tied { IsTied hand.old hand.new }
    ensures counted { OnOk result ((turns : ℕ) × (1 ≤ turns) × (turns ≤ most)
        × (hand.old.turns ≤ 1000000 → hand.new.turns ≡ min (hand.old.turns + turns) 1000000)) }
    ensures short { OnOk result (short_of port.new.mail ≡ false) }
    ensures plan { (planned : List RouteAbort) → FromPlan planned (hand_value hand.old)
        → FromPlan planned (hand_value hand.new) }
    ensures port { TurnLeaves number port.old port.new }
    ensures idle { IfOk result (λ idle. idle ≡ true → AskedInVain hand.new) }
{
    hand.fill(rt)?;
    let mut side = PlainRoute {
        mail: &mut port.mail,
        route: number,
    };
    let burst = make_burst(rt, hand, &mut side, most)?;
    if port.mail.short() {
        return Err(Memory);
    }
    Ok(is_idle(burst))
}

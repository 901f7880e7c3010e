//! A route's seat is a route's side of mailboxes.
ghost use Rattle.std.specs.Prelude.{◌≡◌, [], ◌∷◌};
ghost use Rattle.bx_core.specs.declared.answer.Sent.TheVariants.{NotNow};
ghost use Rattle.bx_core.specs.declared.point.Heard.TheVariants.{Not};
ghost use Rattle.bx_core.specs.declared.point.Point.TheVariants.{Answered};
ghost use Rattle.bx_core.specs.Gate.{Passes};

use crate::abort_outcome::AbortOutcome;
use crate::request_answer::RequestAnswer;
use crate::route_seat::RouteSeat;
use bx_core::{AbortAnswer, Gate, Heard, NumberTooLarge, Point, RouteTx, Sent};
use can_frame::Frame;

/// The answer where nothing was requested.
fn not_now<G: Gate>(gate: &mut G) -> Sent
    ensures answer { result ≡ NotNow }
    ensures heard { Passes G.may_have_heard (Answered Not ∷ []) gate.old gate.new }
{
    gate.pass(Point::Answered(Heard::Not));
    Sent::NotNow
}

impl<R> RouteTx<R> for RouteSeat {
    ghost use Rattle.std.specs.Prelude.{◌≡◌, ◌↔◌, ◌<◌, ◌≤◌, Bool, IsErr, OnErr, IfOk};
    ghost use Rattle.bx_core.specs.Gate.{HearsAnswer, HearsSteps};
    ghost use Rattle.bx_core.specs.Steps.{last_number, greatest_number};
    ghost use Rattle.bx_core.specs.RouteTx.{RoutePast, after_request, after_abort};
    ghost use Rattle.bx_shared.specs.Sides.{RouteAfter, SameRoute, RequestsAs, HearsWhere, AbortsAs};
    ghost use Rattle.bx_shared.specs.Sides.{same_route-self, same_route-on, last-is};

    ghost route_after = { RouteAfter };

    ghost last = { λ s. last_number s.part.requested };

    ghost stays = { SameRoute };

    fn request<G: Gate>(
        &mut self,
        _rt: &R,
        number: u32,
        frame: Frame,
        gate: &mut G,
    ) -> Result<Sent, NumberTooLarge>
        requires { last_number self.old.part.requested < number }
        ensures past { (past : RoutePast) → RouteAfter self.old past
            → RouteAfter self.new (after_request past number frame result) }
        ensures limit { IsErr result ↔ (greatest_number < number) }
        ensures unchanged { OnErr result (self.new ≡ self.old) }
        ensures unheard { OnErr result (gate.new ≡ gate.old) }
        ensures heard { IfOk result (λ sent. HearsAnswer G.may_have_heard sent gate.old gate.new) }
        ensures stays { SameRoute self.old self.new }
        ensures answer { IfOk result (RequestsAs self.old.part self.new.part number frame) }
        ensures told { IfOk result (λ sent. HearsWhere G.may_have_heard self.new.part sent gate.old gate.new) }
    {
        match RouteSeat::request(self, number, frame, gate)? {
            RequestAnswer::Taken(mailbox) => {
                gate.pass(Point::Answered(Heard::In(mailbox)));
                Ok(Sent::Yes)
            }
            RequestAnswer::NoRoom => Ok(not_now(gate)),
            RequestAnswer::Contended(_) => Ok(not_now(gate)),
        }
    }

    fn abort<G: Gate>(&mut self, _rt: &R, number: u32, gate: &mut G) -> AbortAnswer
        requires positive { 0 < number }
        requires known { number ≤ last_number self.old.part.requested }
        ensures past { (past : RoutePast) → RouteAfter self.old past
            → (asks : Bool) × RouteAfter self.new (after_abort past number result asks) }
        ensures heard { HearsSteps G.may_have_heard gate.old gate.new }
        ensures stays { SameRoute self.old self.new }
        ensures answer { AbortsAs self.old.part self.new.part number result }
    {
        match RouteSeat::abort(self, number, gate) {
            AbortOutcome::Aborted => AbortAnswer::Ended,
            AbortOutcome::Asked => AbortAnswer::Asked,
            AbortOutcome::Gone => AbortAnswer::Gone,
            AbortOutcome::Contended(_) => AbortAnswer::NotNow,
        }
    }

    ghost last_is = { last-is };

    ghost stays_self = { same_route-self };

    ghost stays_on = { same_route-on };
}

//! A route's side of the mailboxes for one thread.
ghost use Rattle.std.specs.Prelude.{◌≡◌, ◌<◌, ◌≤◌, ◌↔◌, ℕ, Bool, length, IsErr, IfOk, OnErr};
ghost use Rattle.bx_core.specs.States.{lists_of};
ghost use Rattle.bx_core.specs.Steps.{last_number, greatest_number};
ghost use Rattle.bx_core.specs.RouteTx.{RoutePast, after_request, after_abort};
ghost use Rattle.bx_core.specs.Gate.{HearsAnswer, HearsSteps};
ghost use Rattle.bx_core.specs.PlainMail.{core_of, short_of, Requests, Aborts, HearsOnly};
ghost use Rattle.bx_core.specs.Stands.{RouteStands, RouteKeeps};

use crate::answer::{AbortAnswer, NumberTooLarge, Sent};
use crate::gate::Gate;
use crate::plain_mail::PlainMail;
use crate::route_tx::RouteTx;
use can_frame::Frame;

/// One route's side of a `PlainMail`. Whoever makes one owes that the route is one of the mail's: the
/// test is `core().routes()`.
#[derive(Drop)]
pub struct PlainRoute<'a> {
    /// The mail that the route shares with the others.
    pub mail: &'a mut PlainMail,
    /// One of the mail's routes, from 0 on.
    pub route: u8,
    ghost in_range: { route < length (core_of mail.now).routes },
}

impl<'a, R> RouteTx<R> for PlainRoute<'a> {
    ghost use Rattle.std.specs.Prelude.{◌≡◌};
    ghost use Rattle.std.proofs.Common.{refl, ◌∙◌, ap, sym};
    ghost use Rattle.bx_core.specs.States.{lists_of};
    ghost use Rattle.bx_core.specs.PlainMail.{core_of};
    ghost use Rattle.bx_core.specs.Steps.{last_number};
    ghost use Rattle.bx_core.specs.Stands.{RouteStands, RouteKeeps, route_keeps-self, route_keeps-then};

    ghost route_after = { λ r past. RouteStands (core_of r.mail.now) r.route past };

    ghost last = { λ r. last_number (lists_of (core_of r.mail.now) r.route).requested };

    // of the same mail and the same route
    ghost stays = { λ a b. (a.mail.ghost_name ≡ b.mail.ghost_name)
        × ((a.route ≡ b.route) × RouteKeeps a.route a.mail.now b.mail.now) };

    /// Requests in the lowest empty mailbox. `NotNow` comes where none is empty, or where memory was
    /// wanted and refused, and then only the mail is `short` from then on; either way the core is as
    /// before. The gate passes only `Answered`, at the end.
    fn request<G: Gate>(
        &mut self,
        _rt: &R,
        number: u32,
        frame: Frame,
        gate: &mut G,
    ) -> Result<Sent, NumberTooLarge>
        requires { last_number (lists_of (core_of self.old.mail.now) self.old.route).requested
            < number }
        ensures past { (past : RoutePast) → RouteStands (core_of self.old.mail.now) self.old.route past
            → RouteStands (core_of self.new.mail.now) self.new.route
            (after_request past number frame result) }
        ensures limit { IsErr result ↔ (greatest_number < number) }
        ensures unchanged { OnErr result (self.new ≡ self.old) }
        ensures unheard { OnErr result (gate.new ≡ gate.old) }
        ensures heard { IfOk result (λ sent. HearsAnswer G.may_have_heard sent gate.old gate.new) }
        ensures hears { IfOk result (λ sent.
            HearsOnly G.may_have_heard (core_of self.old.mail.now) sent gate.old gate.new) }
        ensures stays { (self.old.mail.ghost_name ≡ self.new.mail.ghost_name)
            × ((self.old.route ≡ self.new.route) × RouteKeeps self.old.route self.old.mail.now self.new.mail.now) }
        ensures sent { IfOk result (λ sent.
            Requests self.old.mail.now self.old.route number frame sent self.new.mail.now) }
    {
        if number > 16_777_215 {
            return Err(NumberTooLarge);
        }
        Ok(self.mail.request_of(self.route, number, frame, gate))
    }

    /// `Ended` where the request was pending or scheduled, `Asked` where it is transmitting or its abort
    /// was asked before, `Gone` where it waits in no mailbox. Never `NotNow`. No gate is passed.
    fn abort<G: Gate>(&mut self, _rt: &R, number: u32, gate: &mut G) -> AbortAnswer
        requires positive { 0 < number }
        requires known { number
            ≤ last_number (lists_of (core_of self.old.mail.now) self.old.route).requested }
        ensures past { (past : RoutePast) → RouteStands (core_of self.old.mail.now) self.old.route past
            → (asks : Bool) × RouteStands (core_of self.new.mail.now) self.new.route
            (after_abort past number result asks) }
        ensures heard { HearsSteps G.may_have_heard gate.old gate.new }
        ensures stays { (self.old.mail.ghost_name ≡ self.new.mail.ghost_name)
            × ((self.old.route ≡ self.new.route) × RouteKeeps self.old.route self.old.mail.now self.new.mail.now) }
        ensures aborted { Aborts (core_of self.old.mail.now) self.old.route number result
            (core_of self.new.mail.now) }
        ensures short { short_of self.new.mail.now ≡ short_of self.old.mail.now }
        ensures unheard { gate.new ≡ gate.old }
    {
        self.mail.keep_law();
        self.mail.abort_of(self.route, number)
    }

    ghost last_is = { λ r past s. ap last_number (sym s.requested_is) };

    ghost stays_self = { λ x. (refl, (refl, route_keeps-self x.route x.mail.now)) };

    ghost stays_on = { λ x y z p q. (
      p.0 ∙ q.0,
      (
        p.1.0 ∙ q.1.0,
        route_keeps-then x.route y.route x.mail.now y.mail.now z.mail.now p.1.0 p.1.1 q.1.1,
      ),
    ) };
}

//! A route's side of the mailboxes over a post.
ghost use Rattle.std.specs.Prelude.{◌≡◌, ◌<◌, ◌≤◌, ◌↔◌, ◌∷◌, [], IsErr, IfOk, OnErr};
ghost use Rattle.bx_core.specs.declared.point.Point.TheVariants.{Post, Answered};
ghost use Rattle.bx_core.specs.Gate.{Passes};
ghost use Rattle.bx_core.specs.Steps.{greatest_number, last_number};
ghost use Rattle.bx_mail.specs.declared.posting.Asks.TheVariants.{Transmit, Abort};
ghost use Rattle.bx_mail.specs.Postings.{requests_in, MayFollow, newest_by, count_by};
ghost use Rattle.bx_mail.specs.Sides.{IsPosted, IsAbortAnswer, is_yes, heard_as};

use crate::log::Log;
use crate::posting::{Asks, Posting};
use crate::rule::{Line, Posts};
use bx_core::{AbortAnswer, Gate, Heard, NumberTooLarge, Point, RouteTx, Sent};
use can_frame::Frame;
use crossbeam_queue::Pass;
use std::alloc::Global;
use std::marker::Model;
use std::sync::{Arc, Wait};

/// A route's side of the mailboxes over a post: it posts requests and aborts to the bus side. Contracts see its
/// queue, its route, and all that it posted, the first one first.
#[derive(Drop)]
pub struct PostRoute {
    pub(crate) line: Arc<Line, Global>,
    pub(crate) pass: Pass<Posting, Log>,
    pub(crate) route: u8,
    // the newest number requested, or 0
    pub(crate) last: u32,
    // how many requests were posted
    pub(crate) requested: u32,
}

impl Model for PostRoute {
    ghost use Rattle.bx_mail.specs.Sides.{RouteSide};

    ghost Value = { RouteSide };

    ghost use Rattle.bx_mail.specs.RouteParts.{route_view, IsRoute};

    ghost view = { route_view };

    ghost invariant = { IsRoute };
}

impl PostRoute {
    /// The newest number that was requested, or 0: the test for the condition of `request`.
    pub fn last(&self) -> u32
        ensures { result ≡ last_number (requests_in self.now.sent) }
    {
        self.last
    }

    /// Posts the request of a frame under a number above the route's last one. `Yes` where it was posted, and
    /// `NotNow` only where the queue held eight posts at one moment of the call; then nothing changed.
    /// `NumberTooLarge` comes above 16,777,215, before any step: nothing changed, and the gate wasn't passed. The
    /// gate passes `Post`, and at the end `Answered`. Takes no memory. May wait while another side is in the middle
    /// of a call.
    pub fn request<R: Wait, G: Gate>(
        &mut self,
        rt: &R,
        number: u32,
        frame: Frame,
        gate: &mut G,
    ) -> Result<Sent, NumberTooLarge>
        requires { last_number (requests_in self.old.sent) < number }
        ensures limit { IsErr result ↔ (greatest_number < number) }
        ensures unchanged { OnErr result (self.new ≡ self.old) }
        ensures unheard { OnErr result (gate.new ≡ gate.old) }
        ensures posted { IfOk result (λ sent. IsPosted self.old number (Transmit frame) (is_yes sent) self.new) }
        ensures hears { IfOk result (λ sent. Passes G.may_have_heard (Post ∷ Answered (heard_as sent) ∷ []) gate.old
            gate.new) }
    {
        if number > 16_777_215 {
            return Err(NumberTooLarge);
        }
        gate.pass(Point::Post);
        let sent = match self.post(rt, number, Asks::Transmit(frame)) {
            true => Sent::Yes,
            false => Sent::NotNow,
        };
        gate.pass(Point::Answered(heard(sent)));
        Ok(sent)
    }

    /// Posts the abort of a number (RM0008, bxCAN, "Abort"). `Asked` where it was posted: the bus side ends the
    /// request when it comes to the post, unless it is over by then. `NotNow` only where the queue held eight posts
    /// at one moment of the call; then nothing changed. There is no other answer. The gate passes `Post`. Takes no
    /// memory. May wait while another side is in the middle of a call.
    pub fn abort<R: Wait, G: Gate>(&mut self, rt: &R, number: u32, gate: &mut G) -> AbortAnswer
        ensures posted { IsAbortAnswer self.old number Abort result self.new }
        ensures hears { Passes G.may_have_heard (Post ∷ []) gate.old gate.new }
    {
        gate.pass(Point::Post);
        match self.post(rt, number, Asks::Abort) {
            true => AbortAnswer::Asked,
            false => AbortAnswer::NotNow,
        }
    }

    /// Whether there was room for it.
    fn post<R: Wait>(&mut self, rt: &R, number: u32, what: Asks) -> bool
        requires { MayFollow self.old.sent number what }
        ensures { IsPosted self.old number what result self.new }
    {
        let posting = Posting {
            route: self.route,
            number,
            what,
        };
        let Ok(()) = self.line.push_as::<Posts, R>(rt, &mut self.pass, posting) else {
            return false;
        };
        self.last = newest(self.last, number, &what);
        self.requested = counted(self.requested, &what);
        true
    }
}

/// The newest number after a post.
fn newest(last: u32, number: u32, what: &Asks) -> u32
    ensures { result ≡ newest_by last number what.now }
{
    match what {
        Asks::Transmit(_) => number,
        Asks::Abort => last,
    }
}

/// Returns how many requests a route made, once it made this post.
fn counted(count: u32, what: &Asks) -> u32
    requires { count ≤ greatest_number }
    ensures { result ≡ count_by count what.now }
{
    match what {
        Asks::Transmit(_) => count + 1,
        Asks::Abort => count,
    }
}

fn heard(sent: Sent) -> Heard
    ensures { result ≡ heard_as sent }
{
    match sent {
        Sent::Yes => Heard::Posted,
        Sent::NotNow => Heard::Not,
    }
}

impl<R: Wait> RouteTx<R> for PostRoute {
    ghost use Rattle.bx_core.specs.Steps.{last_number};
    ghost use Rattle.bx_mail.specs.Postings.{requests_in};
    ghost use Rattle.bx_mail.specs.Sides.{RouteRuns, RouteKeeps};
    ghost use Rattle.bx_mail.specs.SideLaws.{last-is, route_keeps-self, route_keeps-on};

    ghost route_after = { RouteRuns };

    ghost last = { λ s. last_number (requests_in s.sent) };

    ghost stays = { RouteKeeps };

    fn request<G: Gate>(
        &mut self,
        rt: &R,
        number: u32,
        frame: Frame,
        gate: &mut G,
    ) -> Result<Sent, NumberTooLarge> {
        PostRoute::request(self, rt, number, frame, gate)
    }

    fn abort<G: Gate>(&mut self, rt: &R, number: u32, gate: &mut G) -> AbortAnswer {
        PostRoute::abort(self, rt, number, gate)
    }

    ghost last_is = { last-is };

    ghost stays_self = { route_keeps-self };

    ghost stays_on = { route_keeps-on };
}

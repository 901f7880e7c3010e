//! A route's seat at the mailboxes.
ghost use Rattle.std.specs.Prelude.{◌≡◌, ◌<◌, ◌≤◌, ◌↔◌, IfOk, IsErr, OnErr};
ghost use Rattle.bx_core.specs.Steps.{greatest_number, last_number};
ghost use Rattle.bx_shared.specs.Seats.{Answers, Hears};
ghost use Rattle.bx_shared.specs.Calls.{Stays, Answered, HearsAbort};

use crate::abort_outcome::AbortOutcome;
use crate::attempt::attempt;
use crate::ending::end;
use crate::request_answer::RequestAnswer;
use crate::route_steps::{Seat, Words};
use bx_core::{Entry, Gate, NumberTooLarge};
use can_frame::Frame;
use std::alloc::Global;
use std::marker::Model;
use std::sync::Arc;

/// A route's seat at a controller's transmit mailboxes (RM0008, bxCAN, "Transmission handling"), which may be in a
/// thread of its own. Contracts see the mailboxes that it is at, and what it knows of them: what it requested, and the
/// words that it looked at and found.
#[derive(Drop)]
pub struct RouteSeat {
    pub(crate) words: Arc<Words, Global>,
    pub(crate) seat: Seat,
    pub(crate) route: u8,
    // the newest number requested, or 0
    pub(crate) last: u32,
    // of each mailbox, the number that was last requested there, or 0
    pub(crate) tops: [u32; 3],
    // how many requests it made, and how many of them it aborted
    pub(crate) requested: u32,
    pub(crate) aborted: u32,
}

impl Model for RouteSeat {
    ghost use Rattle.bx_shared.specs.Seats.{RoutePlace};

    ghost Value = { RoutePlace };

    ghost use Rattle.bx_shared.specs.SeatParts.{route_view, IsRouteSeat};

    ghost view = { route_view };

    ghost invariant = { IsRouteSeat };
}

impl RouteSeat {
    /// The newest number that was requested, or 0: the test for the condition of `request`.
    pub fn last(&self) -> u32
        ensures { result ≡ last_number self.now.part.requested }
    {
        self.last
    }

    /// One try to request a frame under a number above the route's last one: a look at the control word, a claim of
    /// its lowest empty mailbox, two stores, a look, the request. No other seat is ever waited for. `Taken` with that
    /// mailbox; `NoRoom` only where the word looked at has no empty mailbox; `Contended` where an exchange found
    /// another word than the one looked at. After both of these the seat has no mailbox, and nothing was requested.
    /// `NumberTooLarge` comes above 16,777,215, before any step: nothing changed, and the gate wasn't passed. The gate
    /// passes each step's point just before it. Takes no memory.
    pub fn request<G: Gate>(
        &mut self,
        number: u32,
        frame: Frame,
        gate: &mut G,
    ) -> Result<RequestAnswer, NumberTooLarge>
        requires { last_number self.old.part.requested < number }
        ensures table { self.new.table ≡ self.old.table }
        ensures limit { IsErr result ↔ (greatest_number < number) }
        ensures unchanged { OnErr result (self.new ≡ self.old) }
        ensures unheard { OnErr result (gate.new ≡ gate.old) }
        ensures answer { IfOk result (Answers self.old.part self.new.part number frame) }
        ensures hears { IfOk result (λ answer. Hears G.may_have_heard self.old.part self.new.part answer gate.old
            gate.new) }
    {
        if number > 16_777_215 {
            return Err(NumberTooLarge);
        }
        let entry = Entry { number, frame };
        let answer = attempt(&self.words, &mut self.seat, self.route, entry, gate);
        if let RequestAnswer::Taken(mailbox) = answer {
            self.last = number;
            self.tops[usize::from(mailbox)] = number;
            self.requested += 1;
        }
        Ok(answer)
    }

    /// One try to abort a request under a number of this route's, 1 to its last one (RM0008, bxCAN, "Abort"): a look,
    /// and at most one exchange. `Aborted` where it was pending or scheduled, and its mailbox is empty now. `Asked`
    /// where it is transmitting, or was asked to end before: it ends sent, or without another try. `Gone` where the
    /// number is in no mailbox: it was sent, aborted or reaped, or never requested. `Contended` where the exchange
    /// found another word than the one looked at: nothing changed. No other request is touched. Takes no memory.
    pub fn abort<G: Gate>(&mut self, number: u32, gate: &mut G) -> AbortOutcome
        requires some { 1 ≤ number }
        requires most { number ≤ last_number self.old.part.requested }
        ensures table { self.new.table ≡ self.old.table }
        ensures stays { Stays self.old.part self.new.part }
        ensures answer { Answered self.old.part self.new.part number result }
        ensures hears { HearsAbort G.may_have_heard self.old.part self.new.part result gate.old gate.new }
    {
        let outcome = end(
            &self.words,
            &mut self.seat,
            self.route,
            number,
            &self.tops,
            gate,
        );
        if outcome == AbortOutcome::Aborted {
            self.aborted += 1;
        }
        outcome
    }
}

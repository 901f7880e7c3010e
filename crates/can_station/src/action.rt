//! What a node did at a bit.

ghost use Rattle.std.specs.Prelude.{◌≡◌, true};
ghost use Rattle.can_station.specs.Actions.{IsUneventful, no_action};

use crate::event::Label;
use crate::transmission::Transmission;
use can_node::Outcome;

/// What a node did at the last bit that it sampled. `sent` is up to date only where something is reported.
#[derive(Clone, Copy)]
pub struct Action {
    /// It began to send.
    pub began: bool,
    /// What it sent, or began to send, at that bit.
    pub sent: Option<Transmission>,
    /// What the bit brought to an end.
    pub outcome: Outcome,
    /// The request whose transmission failed at this bit, after its abort had been requested (ABRQ): its mailbox is
    /// empty, and it is not sent again.
    pub reaped: Option<Label>,
}

impl Action {
    /// Returns what a node did that was never on: nothing.
    pub(crate) fn none() -> Action
        ensures { result ≡ no_action }
    {
        Action {
            began: false,
            sent: None,
            outcome: Outcome::Nothing,
            reaped: None,
        }
    }

    /// Returns whether nothing is reported of it.
    pub(crate) fn is_uneventful(&self) -> bool
        ensures uneventful { result ≡ true → IsUneventful self.now }
        ensures reported { IsUneventful self.now → result ≡ true }
    {
        if self.began || self.reaped.is_some() {
            return false;
        }
        matches!(self.outcome, Outcome::Nothing)
    }
}

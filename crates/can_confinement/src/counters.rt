//! The two error counters of a node.

ghost use Rattle.std.specs.Prelude.{◌≡◌, ◌<◌, ◌∷◌, ◌++◌, [], List};
ghost use Rattle.can_confinement.specs.Confinement.{
  counts_after,
  state_after,
  state_of,
  raised,
  effect,
  is_off,
};
ghost use Rattle.can_confinement.specs.Counters.{StandsAfter, counts_of};

use crate::confinement::{ErrorEvent, ErrorState, Role};

/// The transmit error count (TEC) and the receive error count (REC) of a node (Bosch CAN Specification
/// 2.0, part B, 8 FAULT CONFINEMENT). They keep no list of the events so far: each contract speaks of
/// every list after which they may stand.
#[derive(Clone, Copy, Debug, PartialEq, Eq)]
pub struct Counters {
    tec: u16,
    rec: u8,
}

impl Counters {
    /// Counters after no event: both are 0.
    pub fn new() -> Counters
        ensures { StandsAfter result [] }
    {
        Counters { tec: 0, rec: 0 }
    }

    /// Counts one event.
    pub fn apply(&mut self, event: ErrorEvent)
        ensures { (events : List ErrorEvent) → StandsAfter self.old events
            → StandsAfter self.new (events ++ event ∷ []) }
    {
        if event == ErrorEvent::Recovered {
            *self = Counters::new();
        } else if !self.is_off() {
            self.count(event);
        }
    }

    /// Whether a node with these counts is in bus off: TEC is 256 or more (Bosch CAN Specification 2.0, part B,
    /// 8 FAULT CONFINEMENT). It is so just where `state` is `Off`.
    pub fn is_off(&self) -> bool
        ensures shown { result ≡ is_off (counts_of self.now) }
        ensures counted { (events : List ErrorEvent) → StandsAfter self.now events
            → result ≡ is_off (counts_after events) }
    {
        self.tec >= 256
    }

    /// Counts an event of a node that is not in bus off.
    fn count(&mut self, event: ErrorEvent)
        requires { self.old.tec < 256 }
        ensures { counts_of self.new ≡ effect (counts_of self.old) event }
    {
        match event {
            ErrorEvent::ReceiverError => self.raise(Role::Receiver, 1),
            ErrorEvent::ReceiverDominant => self.raise(Role::Receiver, 8),
            ErrorEvent::SenderError => self.raise(Role::Sender, 8),
            ErrorEvent::FlagBit(role) => self.raise(role, 8),
            ErrorEvent::DominantRun(role) => self.raise(role, 8),
            ErrorEvent::Sent => self.tec = self.tec.saturating_sub(1),
            ErrorEvent::Received if self.rec > 127 => self.rec = 120,
            ErrorEvent::Received => self.rec = self.rec.saturating_sub(1),
            ErrorEvent::Recovered => *self = Counters::new(),
        }
    }

    /// Raises the count of a role.
    fn raise(&mut self, role: Role, by: u8)
        requires { self.old.tec < 256 }
        ensures { counts_of self.new ≡ raised (counts_of self.old) role by }
    {
        match role {
            Role::Sender => self.tec += u16::from(by),
            Role::Receiver => self.rec = self.rec.saturating_add(by),
        }
    }

    /// The transmit error count, 0 to 263: it is not limited when a node goes off.
    pub fn tec(&self) -> u16
        ensures shown { result ≡ (counts_of self.now).tec }
        ensures counted { (events : List ErrorEvent) → StandsAfter self.now events
            → result ≡ (counts_after events).tec }
    {
        self.tec
    }

    /// The receive error count, 0 to 255.
    pub fn rec(&self) -> u8
        ensures shown { result ≡ (counts_of self.now).rec }
        ensures counted { (events : List ErrorEvent) → StandsAfter self.now events
            → result ≡ (counts_after events).rec }
    {
        self.rec
    }

    /// The state that the counts make.
    pub fn state(&self) -> ErrorState
        ensures shown { result ≡ state_of (counts_of self.now) }
        ensures counted { (events : List ErrorEvent) → StandsAfter self.now events
            → result ≡ state_after events }
    {
        if self.is_off() {
            return ErrorState::Off;
        }
        if self.tec >= 128 || self.rec >= 128 {
            return ErrorState::Passive;
        }
        ErrorState::Active
    }
}

//! What a turn came to.
ghost use Rattle.std.specs.Prelude.{◌≡◌};
ghost use Rattle.gw_route.specs.Burst.{ends_burst};

/// What a turn came to.
#[derive(Clone, Copy, Debug, PartialEq, Eq)]
pub enum TurnAnswer {
    /// No frame was in the hand, and the FIFO released none.
    Idle,
    /// The frame in the hand was requested, and the hand is empty.
    Requested,
    /// The first abort was answered `Ended`, `Asked` or `Gone`, and is off the list.
    AbortDone,
    /// The frame in the hand was refused, or the first abort wasn't done. Either is tried again.
    Waiting,
}

impl TurnAnswer {
    /// Whether a burst of turns ends with this one: it was idle or waits.
    pub fn ends_burst(self) -> bool
        ensures { result ≡ ends_burst self }
    {
        matches!(self, TurnAnswer::Idle | TurnAnswer::Waiting)
    }
}

//! How far the request in a mailbox has come.
ghost use Rattle.std.specs.Prelude.{◌≡◌};
ghost use Rattle.bx_core.specs.States.{is_pending, is_scheduled, is_transmitting};

/// The state of a mailbox that holds a request (RM0008, bxCAN, "Transmission handling").
#[derive(Clone, Copy, Debug, Default, PartialEq, Eq)]
pub enum Status {
    /// Requested, and not yet the one to be sent next.
    #[default]
    Pending,
    /// The next to be sent, once the bus is idle.
    Scheduled,
    /// On the bus.
    Transmitting,
}

impl Status {
    pub(crate) fn is_pending(self) -> bool
        ensures { result ≡ is_pending self }
    {
        matches!(self, Status::Pending)
    }

    pub(crate) fn is_scheduled(self) -> bool
        ensures { result ≡ is_scheduled self }
    {
        matches!(self, Status::Scheduled)
    }

    pub(crate) fn is_transmitting(self) -> bool
        ensures { result ≡ is_transmitting self }
    {
        matches!(self, Status::Transmitting)
    }
}

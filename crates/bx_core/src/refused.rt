//! Why an event is refused.
use thiserror::Error;

/// Why an event was refused. A refused event changes nothing.
#[derive(Clone, Copy, Debug, PartialEq, Eq, Error)]
pub enum Refused {
    /// At a claim: the mailbox is claimed, or holds a request.
    #[error("C1")]
    NotEmpty,
    /// At a request or a withdrawal: the route doesn't fill this mailbox.
    /// At an abort: the mailbox is empty, or another route's.
    #[error("C2")]
    NotOwner,
    /// At a schedule, with TXFP set: another request is older. With TXFP clear: another goes first by
    /// its key and mailbox, or is scheduled or transmitting.
    #[error("C3")]
    NotOldest,
    /// The mailbox isn't in a state that the event begins from.
    #[error("C4")]
    WrongState,
    /// At a request: the number isn't above the route's last one, or is above 16,777,215.
    #[error("C5")]
    NumberOrder,
    /// At a request that nothing else refuses: memory was wanted and refused.
    #[error("C6")]
    Memory,
}

//! How one try to abort a request ended.

/// How one try of a route's seat to abort a request ended (RM0008, bxCAN, "Abort").
#[derive(Clone, Copy, Debug, PartialEq, Eq)]
pub enum AbortOutcome {
    /// The mailbox is empty now: the request will not be sent.
    Aborted,
    /// It is transmitting, or was asked to end before: it ends sent, or without another try.
    Asked,
    /// The number is in no mailbox.
    Gone,
    /// Another seat was faster: an exchange found this word in the place of the one looked at.
    Contended(u64),
}

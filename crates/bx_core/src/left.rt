//! A request that waits when its mailboxes are closed.
use can_frame::Frame;

/// A request that was neither sent, aborted nor reaped when its mailboxes were closed.
#[derive(Clone, Copy, Debug, PartialEq, Eq)]
pub struct Left {
    /// The route that requested it.
    pub route: u8,
    /// The number that the route gave it, from 1 to 16,777,215.
    pub number: u32,
    /// What was put into the mailbox.
    pub frame: Frame,
}

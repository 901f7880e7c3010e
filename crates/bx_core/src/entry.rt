//! A request as its route's lists keep it.
use can_frame::Frame;

/// A request: a frame, and the number that its route gave it.
#[derive(Clone, Copy, Debug, PartialEq, Eq)]
pub struct Entry {
    /// From 1 to 16,777,215. It is never sent: it tells requests of equal frames apart.
    pub number: u32,
    /// What was put into the mailbox.
    pub frame: Frame,
}

//! How one try to request a frame ended.

/// The answer of a route's seat to one try to request a frame.
#[derive(Clone, Copy, Debug, PartialEq, Eq)]
pub enum RequestAnswer {
    /// The frame is requested in this mailbox, 0 to 2.
    Taken(u8),
    /// The word looked at had no empty mailbox.
    NoRoom,
    /// Another seat was faster: an exchange found this word in the place of the one looked at.
    Contended(u64),
}

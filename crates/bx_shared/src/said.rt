//! What a step says beside its words.
use bx_core::Entry;

/// What an exchange of the control word is about.
#[derive(Clone, Copy)]
pub enum Said {
    /// This mailbox, 0 to 2.
    Mailbox(u8),
    /// This request.
    Request(Entry),
}

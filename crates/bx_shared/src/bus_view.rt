//! What the bus's seat knows.
use can_frame::Frame;
use std::collections::LinkedList;

/// What the bus's seat knows of the mailboxes. Only contracts see it: no value of this type is made.
pub struct BusView {
    /// Their priority: true is the order of requests (TXFP is set), false is by identifier.
    pub txfp: bool,
    /// Route, number and frame of each transmission that it started, in order.
    pub started: LinkedList<(u8, u32, Frame)>,
    /// Those that were sent, in order.
    pub done: LinkedList<(u8, u32, Frame)>,
    /// Those that failed after their abort was asked, in order.
    pub reaped: LinkedList<(u8, u32, Frame)>,
    /// What it transmits.
    pub sends: Option<(u8, u32, Frame)>,
    /// What failed after its abort was asked, and is to be reaped.
    pub reaps: Option<(u8, u32, Frame)>,
    /// The mailbox, 0 to 2, of what it transmits, or is to reap.
    pub mailbox: u8,
    /// How often it looked at the control word, and how many exchanges it made there.
    pub looks: u64,
    pub exchanges: u64,
    /// The last word that it looked at, the last that an exchange found, and the last that one was to write.
    pub seen: u64,
    pub found: u64,
    pub written: u64,
    /// Of each mailbox, the head that it read since its last look.
    pub heads: LinkedList<Option<u64>>,
}

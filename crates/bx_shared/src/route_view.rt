//! What a route's seat knows.
use bx_core::Entry;
use std::collections::LinkedList;

/// What a route's seat knows of the mailboxes. Only contracts see it: no value of this type is made.
pub struct RouteView {
    /// Its route, 0 to 7.
    pub route: u8,
    /// What it requested, in order.
    pub requested: LinkedList<Entry>,
    /// The numbers whose mailbox it emptied by an abort, in order.
    pub aborted: LinkedList<u32>,
    /// The numbers of which it asked the abort while they were transmitting, in order.
    pub asked: LinkedList<u32>,
    /// The numbers that its last look found in no mailbox.
    pub ended: LinkedList<u32>,
    /// Whether it fills a mailbox.
    pub claims: bool,
    /// The mailbox that it fills, 0 to 2.
    pub mailbox: u8,
    /// How many of that mailbox's two payload words it has stored, and what it stored there.
    pub stored: u8,
    pub head: u64,
    pub bytes: u64,
    /// Of each mailbox, the number that it last requested there, or 0.
    pub last: LinkedList<u32>,
    /// How often it looked at the control word.
    pub looks: u64,
    /// The last word but one that it looked at, the last one, and the last that an exchange found in the place of the
    /// one looked at.
    pub before: u64,
    pub seen: u64,
    pub found: u64,
}

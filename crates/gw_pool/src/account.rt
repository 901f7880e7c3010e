//! What a seat at a pool did.
use std::collections::LinkedList;

/// What a seat at a pool put and took, and its parts of the right to know the whole. Contracts alone see it: no value
/// of it is made.
pub struct Account {
    /// Its parts.
    pub parts: u64,
    /// The places of the batons that it put, the first one first.
    pub put: LinkedList<u64>,
    /// The places of the batons that it took, the first one first.
    pub taken: LinkedList<u64>,
}

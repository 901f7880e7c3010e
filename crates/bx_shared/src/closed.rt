//! What closing the mailboxes gives.
use bx_core::Left;

/// How many requests a route made, and how many of them ended in which way. The others are left.
#[derive(Clone, Copy, Debug, Default, PartialEq, Eq)]
pub struct RouteCounts {
    /// The number of requests that the route made, 16,777,215 at most.
    pub requested: u32,
    /// The number of requests that were taken out of a mailbox before they were transmitting.
    pub aborted: u32,
    /// The number of requests that were sent.
    pub done: u32,
    /// The number of requests that failed after their abort was asked.
    pub reaped: u32,
}

/// What became of the requests at mailboxes that are closed.
#[derive(Drop)]
pub struct Closed {
    /// Of each route, in order.
    pub routes: Vec<RouteCounts>,
    /// What waits, the oldest first: three at most.
    pub left: Vec<Left>,
}

//! An abort that a route is to do.

/// An abort that a route is to do, once it is due.
#[derive(Clone, Copy, Debug, Default, PartialEq, Eq)]
pub struct RouteAbort {
    /// The number of the frame, from 1. The abort isn't due before it was requested.
    pub number: u32,
    /// The count of turns, from 1, before which it isn't due.
    pub turn: u32,
}

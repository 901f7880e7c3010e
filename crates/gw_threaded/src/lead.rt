//! What of a route stays at home.

use gw_opening::{Lane, Place};

/// What of a route stays at home while its hand is in a thread: where it comes from, and where it leads to.
#[derive(Clone, Copy, Debug, PartialEq, Eq)]
pub struct Lead {
    /// The controller that it takes from.
    pub source: Place,
    /// Which of that controller's FIFOs: 0 or 1.
    pub fifo: u8,
    /// The controller that it leads into.
    pub target: Place,
    /// Its number there: its place, from 0, among the routes into that controller.
    pub number: u8,
}

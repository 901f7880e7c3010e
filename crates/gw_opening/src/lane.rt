//! A route of a run.

use crate::place::Place;
use gw_route::RouteHand;

/// A route of a run: its hand, the FIFO that it takes from, and the controller that it leads into, whose mailboxes know
/// it by this number.
#[derive(Drop)]
pub struct Lane {
    /// What it has in hand, and what it did.
    pub hand: RouteHand,
    /// The controller that it takes from.
    pub source: Place,
    /// Which of that controller's FIFOs: 0 or 1.
    pub fifo: u8,
    /// The controller that it leads into.
    pub target: Place,
    /// Its number there: its place, from 0, among the routes into that controller.
    pub number: u8,
}

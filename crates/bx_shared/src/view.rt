//! What a seat knows.
use crate::bus_view::BusView;
use crate::route_view::RouteView;
use bx_core::Waiting;
use std::collections::LinkedList;

/// The places that a seat holds: at most that of the bus, and those of routes. Only contracts see it: no value of this
/// type is made.
pub struct View {
    pub buses: LinkedList<BusView>,
    pub routes: LinkedList<RouteView>,
    /// A seat that holds all places may seal the mailboxes: it then knows which requests wait, the oldest first.
    pub sealed: Option<LinkedList<Waiting>>,
}

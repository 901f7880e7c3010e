//! What closed mailboxes left.

use bx_controller::Port;
use bx_core::Left;
use gw_site::Site;

/// The mailboxes of a controller once they are closed: which requests wait in them, of each route the oldest first.
#[derive(Drop)]
pub struct Closed {
    /// Those that were neither sent, aborted nor reaped.
    pub left: Vec<Left>,
}

/// A controller whose mailboxes are closed.
pub type ClosedPort = Port<Closed>;

/// A segment with such controllers.
pub type ClosedSite = Site<ClosedPort>;

//! Transmit mailboxes of one bxCAN controller for threads: over a queue of posts, or in words that all of them share.
#![tactic(auto)]

mod boxes;
mod closed;
mod closing;
mod log;
mod opening;
mod post;
mod post_bus;
mod post_route;
mod posting;
mod rule;

pub use crate::closed::PostClosed;
pub use crate::post::Post;
pub use crate::post_bus::PostBus;
pub use crate::post_route::PostRoute;
pub use crate::posting::{Asks, Posting};
pub use bx_shared::{AbortOutcome, BusSeat, Closed, Mail, RequestAnswer, RouteCounts, RouteSeat};

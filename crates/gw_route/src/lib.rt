//! A route's turns, from a receive FIFO to the transmit mailboxes.
#![tactic(auto)]

mod burst;
mod log;
mod route_abort;
mod route_hand;
mod turn_answer;

pub use crate::burst::{Burst, make_burst};
pub use crate::log::Log;
pub use crate::route_abort::RouteAbort;
pub use crate::route_hand::RouteHand;
pub use crate::turn_answer::TurnAnswer;

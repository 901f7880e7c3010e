//! The three transmit mailboxes of a bxCAN controller in seven words that threads share by atomic steps.
#![tactic(auto)]

mod abort_outcome;
mod attempt;
mod bus_calls;
mod bus_seat;
mod bus_side;
mod bus_steps;
mod bus_view;
mod closed;
mod closing;
mod dealing;
mod ending;
pub mod laws;
mod mail;
mod mail_set;
mod plays;
mod request_answer;
mod route_seat;
mod route_side;
mod route_steps;
mod route_view;
mod said;
mod tally;
mod view;

pub use crate::abort_outcome::AbortOutcome;
pub use crate::bus_seat::BusSeat;
pub use crate::closed::{Closed, RouteCounts};
pub use crate::mail::Mail;
pub use crate::request_answer::RequestAnswer;
pub use crate::route_seat::RouteSeat;
pub use crate::tally::Tally;

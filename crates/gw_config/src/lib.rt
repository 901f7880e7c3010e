//! A script: the segments, talkers, controllers, routes, faults and aborts of a run, and how it is read from JSON.
#![tactic(auto)]

mod bank_list;
mod controller;
mod filter;
mod format;
mod message;
mod node_place;
mod object;
mod pace;
mod planned_abort;
mod planned_fault;
mod rewrites;
mod route;
mod script;
mod script_places;
mod segment;
mod talker;
mod version;

pub use crate::controller::Controller;
pub use crate::message::Message;
pub use crate::node_place::NodePlace;
pub use crate::pace::Pace;
pub use crate::planned_abort::PlannedAbort;
pub use crate::planned_fault::PlannedFault;
pub use crate::route::Route;
pub use crate::script::{Script, read};
pub use crate::segment::Segment;
pub use crate::talker::Talker;

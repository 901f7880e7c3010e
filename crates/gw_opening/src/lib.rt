//! A run before its first bit: the segments, controllers and routes of a script, whatever the mailboxes are.
#![tactic(auto)]

mod growing;
mod lane;
mod opening;
mod place;
mod places;
mod plan;
mod queue;
mod route_start;
mod slots;

pub use crate::growing::{push_one, push_some};
pub use crate::lane::Lane;
pub use crate::opening::{port_of, routes_at, site_of};
pub use crate::place::Place;
pub use crate::places::{controller_count, controller_there};
pub use crate::route_start::lanes_of;
pub use crate::slots::take;

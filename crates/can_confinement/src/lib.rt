//! Fault confinement: the error counters of a node, by the events that they count, and what is known of them.
#![tactic(auto)]

mod confinement;
mod counters;
mod known_counts;

pub use crate::confinement::{ErrorEvent, ErrorState, Role};
pub use crate::counters::Counters;
pub use crate::known_counts::KnownCounts;

//! Runs of a script: its segments bit by bit, and its routes turn by turn.
#![tactic(auto)]

mod closing;
mod inline;
mod lane;
mod opening;
mod port;
mod run_fault;
mod schedule;
mod site;
mod stretch;
mod threaded;
mod world;

pub use crate::inline::run_inline;
pub use crate::run_fault::RunFault;
pub use crate::threaded::run_threads;

//! The command line of the program: what its words ask for.
#![tactic(auto)]

mod command;
mod order;
mod task;

pub use crate::command::task_of;
pub use crate::order::Order;
pub use crate::task::Task;

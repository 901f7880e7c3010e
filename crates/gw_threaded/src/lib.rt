//! A run of a script in threads, over any mailboxes whose sides may stand in threads of their own.
#![tactic(auto)]

mod lead;
mod parting;
mod running;
mod starting;

pub use crate::lead::Lead;
pub use crate::running::run_over;

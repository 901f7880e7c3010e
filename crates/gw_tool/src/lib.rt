//! The commands of the program, over any reader and writers.
#![tactic(auto)]

mod core_command;
mod failure;
mod program;
mod run_command;
mod run_report;
mod threads_command;

pub use crate::program::{refused_arguments, tool, tool_with_files};
pub use gw_streams::Files;

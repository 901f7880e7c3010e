//! A gateway between CAN segments: the program.
#![tactic(auto)]

mod host_files;

use crate::host_files::HostFiles;
pub use gw_tool::tool;
use gw_tool::{refused_arguments, tool_with_files};
use std::io;
use std::process::ExitCode;

fn words_of(rt: &HostRuntime) -> io::Result<Vec<String>> {
    let words = std::env::args(rt)?.collect(rt.alloc())?;
    Ok(words)
}

fn main(rt: HostRuntime) -> ExitCode {
    let mut faults = rt.stderr();
    let status = match words_of(&rt) {
        Ok(words) => tool_with_files(
            &rt,
            rt.alloc(),
            words.as_slice(),
            &HostFiles(&rt),
            &mut rt.stdin(),
            &mut rt.stdout(),
            &mut faults,
        ),
        Err(error) => refused_arguments(&error, &mut faults),
    };
    ExitCode::from(status)
}

//! Inputs that are too long, reads and writes that fail, and what is reported of them.

use crate::event_lists::SENDS_ONE_FRAME;
use crate::run::run_on;
use crate::runs::ONE_FRAME;
use crate::streams::{Blanks, Closed, Failing};
use gw_run::RunFault;
use gw_tool::{refused_arguments, tool};
use std::io::{Error, ErrorKind};
use std::test::Fail;

#[test]
fn refuses_what_is_too_long(rt: HostRuntime) {
    for (command, count, fault) in [
        ("core", 16_777_216, "bxgate: J1 NotJson\n"),
        ("core", 16_777_217, "bxgate: J8 TooMany input\n"),
        ("run", 16_777_216, "bxgate: J1 NotJson\n"),
        ("run", 16_777_217, "bxgate: J8 TooMany input\n"),
    ] {
        let mut input = Blanks { left: count };
        let run = run_on(&rt, ["bxgate", command].as_slice(), &mut input);
        assert_eq!(rt; run.status, 2);
        assert_eq!(rt; run.output.len(), 0);
        assert_eq!(rt; run.faults.as_slice(), fault.as_bytes());
    }
}

#[test]
fn tells_of_a_read_fault(rt: HostRuntime) {
    for command in ["core", "run"] {
        let mut input = Failing { calls: 0 };
        let run = run_on(&rt, ["bxgate", command].as_slice(), &mut input);
        assert_eq!(rt; run.status, 74);
        assert_eq!(rt; run.output.len(), 0);
        assert_eq!(rt; run.faults.as_slice(), b"bxgate: read fault\n".as_slice());
    }
}

#[test]
fn tells_of_a_write_fault(rt: HostRuntime) {
    let alloc = rt.alloc();
    for (words, script) in [
        (["bxgate", "core"].as_slice(), SENDS_ONE_FRAME),
        (["bxgate", "run"].as_slice(), ONE_FRAME),
        (["bxgate", "run", "--threads", "2"].as_slice(), ONE_FRAME),
    ] {
        let mut faults = Vec::new(alloc);
        let mut input = script.as_bytes();
        let status = tool(&rt, alloc, words, &mut input, &mut Closed, &mut faults);
        assert_eq!(rt; status, 74);
        assert_eq!(rt; faults.as_slice(), b"bxgate: write fault\n".as_slice());
    }
}

#[test]
fn tells_of_arguments_that_are_not_there(rt: HostRuntime) {
    for (kind, status, line) in [
        (ErrorKind::OutOfMemory, 3u8, "bxgate: G1 Memory\n"),
        (
            ErrorKind::InvalidData,
            64,
            "bxgate: an argument is not UTF-8\n",
        ),
    ] {
        let mut faults = Vec::new(rt.alloc());
        assert_eq!(rt; refused_arguments(&Error::from(kind), &mut faults), status);
        assert_eq!(rt; faults.as_slice(), line.as_bytes());
    }
}

#[test]
fn shows_why_a_run_has_no_report(rt: HostRuntime) -> Result<(), Fail> {
    for (fault, text) in [
        (RunFault::Memory, "G1 Memory"),
        (RunFault::Spawn, "G2 Spawn"),
    ] {
        let shown = format!(in rt.alloc(); "{fault}")?;
        assert_eq!(rt; shown.as_str(), text);
    }
    Ok(())
}

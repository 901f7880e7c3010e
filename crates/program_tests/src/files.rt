//! The commands on files, and the version.

ghost use Rattle.std.specs.Prelude.{None, Some, if◌then◌else◌};
ghost use Rattle.std.specs.Str.{bytes_eq};

use crate::event_lists::SENDS_ONE_FRAME;
use crate::run::{Run, run_of};
use crate::runs::{ONE_FRAME, THREE_FRAMES, THREE_FRAMES_REPORT};
use crate::streams::Failing;
use gw_tool::{Files, tool_with_files};
use std::io;
use std::io::{Error, ErrorKind};
use std::sync::Wait;
use std::thread::Threads;

/// A place with one file.
#[derive(Drop)]
struct OneFile<'a> {
    name: &'a str,
    bytes: &'a [u8],
}

impl<'a> Files for OneFile<'a> {
    ghost contents = { λ files name. if bytes_eq files.name.now name then Some files.bytes.now else None };

    type File = &'a [u8];

    fn open(&self, path: &str) -> io::Result<&'a [u8]> {
        if self.name == path {
            Ok(self.bytes)
        } else {
            Err(Error::from(ErrorKind::NotFound))
        }
    }
}

/// A place where each file fails at its second read.
struct Broken;

impl Files for Broken {
    ghost contents = { λ _ _. None };

    type File = Failing;

    fn open(&self, _path: &str) -> io::Result<Failing> {
        Ok(Failing { calls: 0 })
    }
}

fn run_with<H: Threads + Wait + AllocGlobal + Copy + Send + Sync + 'static, F: Files>(
    rt: &H,
    words: &[&str],
    files: &F,
    mut input: &[u8],
) -> Run {
    let alloc = rt.alloc();
    let mut output = Vec::new(alloc);
    let mut faults = Vec::new(alloc);
    let status = tool_with_files(
        rt,
        alloc,
        words,
        files,
        &mut input,
        &mut output,
        &mut faults,
    );
    Run {
        status,
        output,
        faults,
    }
}

#[test]
fn reads_the_file_that_is_named(rt: HostRuntime) {
    let files = OneFile {
        name: "three-frames.json",
        bytes: THREE_FRAMES.as_bytes(),
    };
    for words in [
        ["bxgate", "run", "three-frames.json"].as_slice(),
        ["bxgate", "run", "--", "three-frames.json"].as_slice(),
        ["bxgate", "run", "--turn", "1", "three-frames.json"].as_slice(),
        ["bxgate", "run", "three-frames.json", "--turn=1"].as_slice(),
    ] {
        let run = run_with(&rt, words, &files, ONE_FRAME.as_bytes());
        assert_eq!(rt; run.status, 0);
        assert_eq!(rt; run.output.as_slice(), THREE_FRAMES_REPORT.as_bytes());
        assert!(rt; run.faults.is_empty());
    }
    let files = OneFile {
        name: "",
        bytes: SENDS_ONE_FRAME.as_bytes(),
    };
    let run = run_with(&rt, ["bxgate", "core", ""].as_slice(), &files, b"{}");
    assert_eq!(rt; run.status, 0);
    assert_eq!(rt;
        run.output.as_slice(),
        b"event 2 refused C4\n\
          done 0 1 000 data - 00000100000100000100000100000100000100001111111111\n\
          route 0 requested 1 done 1 aborted 0 reaped 0 waiting 0\n\
          route 1 requested 0 done 0 aborted 0 reaped 0 waiting 0\n"
            .as_slice()
    );
}

#[test]
fn reads_standard_input_for_a_hyphen(rt: HostRuntime) {
    let files = OneFile {
        name: "-",
        bytes: ONE_FRAME.as_bytes(),
    };
    for words in [
        ["bxgate", "run", "-"].as_slice(),
        ["bxgate", "run", "-", "--turn", "1"].as_slice(),
        ["bxgate", "run"].as_slice(),
    ] {
        let run = run_with(&rt, words, &files, THREE_FRAMES.as_bytes());
        assert_eq!(rt; run.status, 0);
        assert_eq!(rt; run.output.as_slice(), THREE_FRAMES_REPORT.as_bytes());
    }
    let run = run_with(&rt, ["bxgate", "core", "-"].as_slice(), &files, b"{}");
    assert_eq!(rt; run.status, 2);
}

/// Whether a run ends with a read fault, and with nothing on its output.
fn is_read_fault(run: &Run) -> bool {
    run.status == 74
        && run.output.is_empty()
        && run.faults.as_slice() == b"bxgate: read fault\n".as_slice()
}

#[test]
fn tells_of_a_file_that_fails(rt: HostRuntime) {
    let files = OneFile {
        name: "one-frame.json",
        bytes: ONE_FRAME.as_bytes(),
    };
    for words in [
        ["bxgate", "run", "one-frame"].as_slice(),
        ["bxgate", "core", "one-frame"].as_slice(),
        ["bxgate", "run", "--threads", "2", "one-frame"].as_slice(),
    ] {
        assert!(rt; is_read_fault(&run_with(&rt, words, &files, b"{}")));
        assert!(rt; is_read_fault(&run_with(&rt, words, &Broken, b"{}")));
        assert!(rt; is_read_fault(&run_of(&rt, words, b"{}")));
    }
}

#[test]
fn takes_one_file(rt: HostRuntime) {
    for words in [
        ["bxgate", "run", "a", "b"].as_slice(),
        ["bxgate", "core", "a", "b"].as_slice(),
        ["bxgate", "a"].as_slice(),
        ["bxgate", "run", "-a"].as_slice(),
        // the words come before the file
        ["bxgate", "run", "--turn", "0", "a"].as_slice(),
    ] {
        let run = run_with(&rt, words, &Broken, ONE_FRAME.as_bytes());
        assert_eq!(rt; run.status, 64);
        assert!(rt; run.output.is_empty());
        assert!(rt; !run.faults.is_empty());
    }
}

#[test]
fn tells_its_version(rt: HostRuntime) {
    for word in ["--version", "-V"] {
        let run = run_of(&rt, ["bxgate", word].as_slice(), b"");
        assert_eq!(rt; run.status, 0);
        assert_eq!(rt; run.output.as_slice(), b"bxgate 0.5.0\n".as_slice());
        assert!(rt; run.faults.is_empty());
    }
}

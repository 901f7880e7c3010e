//! Scripts that differ from another one in some places, and the reports on them that were worked out by hand.

use crate::runs::{changed, is_reported};
use std::alloc::{AllocError, Global};
use std::sync::Wait;
use std::test::Fail;
use std::thread::Threads;

/// A part of a script, and what stands in its place.
#[derive(Clone, Copy)]
pub(crate) struct Change {
    pub(crate) old: &'static str,
    pub(crate) new: &'static str,
}

/// A script, which another one becomes by some changes, the words after the program's name, and the report.
#[derive(Clone, Copy)]
pub(crate) struct Worked {
    pub(crate) words: &'static [&'static str],
    pub(crate) changes: &'static [Change],
    pub(crate) report: &'static str,
}

/// The text after all of these changes.
pub(crate) fn changed_by(
    alloc: Global,
    text: &str,
    changes: &[Change],
) -> Result<String, AllocError> {
    let mut all = String::from_str(alloc, text)?;
    for change in changes {
        all = changed(alloc, all.as_str(), change.old, change.new)?;
    }
    Ok(all)
}

/// Runs the program on each of the scripts that this one becomes. Its output must be the report, and nothing else.
pub(crate) fn are_reported<H: Threads + Wait + AllocGlobal + Copy + Send + Sync + 'static>(
    rt: &H,
    script: &str,
    cases: &[Worked],
) -> Result<bool, Fail> {
    for case in cases {
        let script = changed_by(rt.alloc(), script, case.changes)?;
        if !is_reported(rt, case.words, script.as_str(), case.report) {
            return Ok(false);
        }
    }
    Ok(true)
}

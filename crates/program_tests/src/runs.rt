//! `run` on scripts; more of them stand in examples/, with their reports.

use crate::run::run_of;
use std::alloc::{AllocError, Global};
use std::sync::Wait;
use std::test::Fail;
use std::thread::Threads;

/// A talker with one frame, and a listener.
pub(crate) const ONE_FRAME: &str =
    r#"{"version":1,"bits":64,"segments":[{"name":"a","talkers":[{"name":"t","on":0,"frames":[{"id":0,"ext":false,"data":[]}]},{"name":"l","on":0,"frames":[]}]}],"controllers":[],"routes":[]}"#;

/// A gateway with one route between two segments, and three frames that go over it.
pub(crate) const THREE_FRAMES: &str =
    r#"{"version":1,"bits":300,"segments":[{"name":"a","talkers":[{"name":"t","on":0,"frames":[{"id":0,"ext":false,"data":[]},{"id":0,"ext":false,"data":[]},{"id":0,"ext":false,"data":[]}]}]},{"name":"b","talkers":[{"name":"l","on":0,"frames":[]}]}],"controllers":[{"name":"c","segment":"a","on":0,"banks":[{"bank":0,"scale":32,"mode":"mask","fifo":0,"active":true,"r1":0,"r2":0}]},{"name":"d","segment":"b","on":0,"banks":[]}],"routes":[{"name":"r","from":"c","fifo":0,"to":"d"}]}"#;

/// The text with the first of these places changed; as it was where there is none.
pub(crate) fn changed(
    alloc: Global,
    text: &str,
    old: &str,
    new: &str,
) -> Result<String, AllocError> {
    match text.split_once(old) {
        Some((front, back)) => format!(in alloc; "{front}{new}{back}"),
        None => String::from_str(alloc, text),
    }
}

const ONE_FRAME_REPORT: &str = "a 11 t started 000 data -\n\
     a 59 l took 11 000 data -\n\
     a 60 t completed 11 000 data -\n\
     a node t tec 0 rec 0 active\n\
     a node l tec 0 rec 0 active\n\
     a end 64\n";

pub(crate) const THREE_FRAMES_REPORT: &str = "a 11 t started 000 data -\n\
     a 59 c took 11 000 data -\n\
     a 60 t completed 11 000 data -\n\
     a 64 t started 000 data -\n\
     a 112 c took 64 000 data -\n\
     a 113 t completed 64 000 data -\n\
     a 117 t started 000 data -\n\
     a 165 c took 117 000 data -\n\
     a 166 t completed 117 000 data -\n\
     a node t tec 0 rec 0 active\n\
     a node c tec 0 rec 0 active\n\
     a end 300\n\
     b 60 d started 000 data - r 1\n\
     b 108 l took 60 000 data -\n\
     b 109 d completed 60 000 data - r 1\n\
     b 113 d started 000 data - r 2\n\
     b 161 l took 113 000 data -\n\
     b 162 d completed 113 000 data - r 2\n\
     b 166 d started 000 data - r 3\n\
     b 214 l took 166 000 data -\n\
     b 215 d completed 166 000 data - r 3\n\
     b node l tec 0 rec 0 active\n\
     b node d tec 0 rec 0 active\n\
     b end 300\n\
     route r accepted 3 overrun 0 released 3 completed 3 aborted 0 held 0\n";

pub(crate) fn is_reported<H: Threads + Wait + AllocGlobal + Copy + Send + Sync + 'static>(
    rt: &H,
    words: &[&str],
    script: &str,
    report: &str,
) -> bool {
    let run = run_of(rt, words, script.as_bytes());
    run.status == 0 && run.output.as_slice() == report.as_bytes() && run.faults.is_empty()
}

#[test]
fn reports_on_a_gateway(rt: HostRuntime) -> Result<(), Fail> {
    let words = ["bxgate", "run"];
    assert!(rt; is_reported(&rt, words.as_slice(), THREE_FRAMES, THREE_FRAMES_REPORT));
    // a turn after every bit is what is done without the option
    let words = ["bxgate", "run", "--turn", "1"];
    assert!(rt; is_reported(&rt, words.as_slice(), THREE_FRAMES, THREE_FRAMES_REPORT));
    Ok(())
}

/// Accepts the report or the refusal of memory, and nothing else: for runs in which an allocation fails.
#[test]
fn reports_or_wants_memory(rt: HostRuntime) {
    let run = run_of(&rt, ["bxgate", "run"].as_slice(), ONE_FRAME.as_bytes());
    if run.status == 0 {
        assert_eq!(rt; run.output.as_slice(), ONE_FRAME_REPORT.as_bytes());
    } else {
        assert_eq!(rt; run.status, 3);
        assert!(rt; run.output.is_empty());
    }
}

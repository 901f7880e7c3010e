//! `core` on event lists; more of them, right and wrong, stand in examples/.

use crate::run::{is_refused, run_of};
use gw_tool::tool;
use std::test::Fail;

pub(crate) const SENDS_ONE_FRAME: &str =
    r#"{"routes":2,"events":[{"event":"claim","route":0,"mailbox":0},{"event":"request","route":0,"mailbox":0,"number":1,"frame":{"id":0,"ext":false,"data":[]}},{"event":"start","mailbox":0},{"event":"schedule","mailbox":0},{"event":"start","mailbox":0},{"event":"complete","mailbox":0}]}"#;

#[test]
fn reports_on_an_event_list(rt: HostRuntime) {
    let run = run_of(
        &rt,
        ["bxgate", "core"].as_slice(),
        SENDS_ONE_FRAME.as_bytes(),
    );
    assert_eq!(rt; run.status, 0);
    let report = "event 2 refused C4\n\
        done 0 1 000 data - 00000100000100000100000100000100000100001111111111\n\
        route 0 requested 1 done 1 aborted 0 reaped 0 waiting 0\n\
        route 1 requested 0 done 0 aborted 0 reaped 0 waiting 0\n";
    assert_eq!(rt; run.output.as_slice(), report.as_bytes());
    assert_eq!(rt; run.faults.len(), 0);
}

#[test]
fn tells_of_too_many_events(rt: HostRuntime) -> Result<(), Fail> {
    let alloc = rt.alloc();
    let mut events = String::new(alloc);
    for _ in 0..100_000u32 {
        events.push_str("0,")?;
    }
    let script = format!(in alloc; "{{\"routes\":1,\"events\":[{events}0]}}")?;
    assert!(rt; is_refused(&rt, "core", script.as_str().as_bytes(), "J8 TooMany events")?);
    Ok(())
}

/// Accepts the report or the refusal of memory, and nothing else: for runs in which an allocation fails.
#[test]
fn answers_or_wants_memory(rt: HostRuntime) {
    let alloc = rt.alloc();
    let Ok(mut output) = Vec::with_capacity(alloc, 4096) else {
        return;
    };
    let Ok(mut faults) = Vec::with_capacity(alloc, 4096) else {
        return;
    };
    let words = ["bxgate", "core"];
    let mut input = SENDS_ONE_FRAME.as_bytes();
    let status = tool(
        &rt,
        alloc,
        words.as_slice(),
        &mut input,
        &mut output,
        &mut faults,
    );
    if status == 0 {
        assert!(rt;
            output
                .as_slice()
                .starts_with(b"event 2 refused C4\ndone 0 1 000 data - ".as_slice())
        );
        assert!(rt; faults.is_empty());
    } else {
        assert_eq!(rt; status, 3);
        assert!(rt; output.is_empty());
        assert!(rt;
            faults.as_slice() == b"bxgate: G1 Memory\n".as_slice()
                || faults.as_slice() == b"bxgate: J10 Memory\n".as_slice()
        );
    }
}

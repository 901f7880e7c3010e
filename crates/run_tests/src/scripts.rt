//! What is read, and the first fault of what is not.

mod limits;

use bx_rx::{Bank, Banks, Mode, Scale};
use can_frame::Frame;
use gw_script::{NodePlace, PlannedFault, ScriptFault, read};
use std::alloc::{AllocError, Global};
use std::test::Fail;

/// One route between two segments, and three frames to go over it.
const THREE_FRAMES: &str = r#"{"version":1,"bits":300,
"segments":[
{"name":"a","talkers":[{"name":"t","on":0,"frames":[
{"id":0,"ext":false,"data":[]},{"id":0,"ext":false,"data":[]},
{"id":0,"ext":false,"data":[]}]}]},
{"name":"b","talkers":[{"name":"l","on":0,"frames":[]}]}],
"controllers":[
{"name":"c","segment":"a","on":0,"banks":[{"bank":0,"scale":32,
"mode":"mask","fifo":0,"active":true,"r1":0,"r2":0}]},
{"name":"d","segment":"b","on":0,"banks":[]}],
"routes":[{"name":"r","from":"c","fifo":0,"to":"d"}]}"#;

const HEAD: &str = r#""version":1,"bits":300"#;

const SEGMENTS: &str =
    r#"{"name":"a","talkers":[{"name":"t","on":0,"frames":[]}]},{"name":"b","talkers":[]}"#;

const CONTROLLERS: &str =
    r#"{"name":"c","segment":"a","on":0,"banks":[]},{"name":"d","segment":"b","on":0,"banks":[]}"#;

const ROUTE: &str = r#"{"name":"r","from":"c","fifo":0,"to":"d"}"#;

/// A script of these parts; `more` begins with a comma or is empty.
fn script_with(
    alloc: Global,
    head: &str,
    segments: &str,
    controllers: &str,
    routes: &str,
    more: &str,
) -> Result<String, AllocError> {
    format!(in alloc;
        "{{{head},\"segments\":[{segments}],\"controllers\":[{controllers}],\"routes\":[{routes}]{more}}}"
    )
}

/// Elements of a list of this many, each with its own number after its name.
fn numbered(alloc: Global, count: u32, name: &str, rest: &str) -> Result<String, AllocError> {
    let mut list = String::new(alloc);
    for number in 0..count {
        if number > 0 {
            list.push_str(",")?;
        }
        write!(list, "{{\"name\":\"{name}{number}\",{rest}}}")?;
    }
    Ok(list)
}

fn kinds_of(alloc: Global, bytes: &[u8]) -> Option<ScriptFault> {
    match read(alloc, bytes) {
        Ok(_) => None,
        Err(fault) => Some(fault),
    }
}

fn fault_of(alloc: Global, text: &str) -> Option<ScriptFault> {
    kinds_of(alloc, text.as_bytes())
}

#[test]
fn reads_the_parts_of_a_script(rt: HostRuntime) -> Result<(), Fail> {
    let alloc = rt.alloc();
    let Ok(script) = read(alloc, THREE_FRAMES.as_bytes()) else {
        assert!(rt; false);
        return Ok(());
    };
    assert_eq!(rt; script.bits(), 300);
    let segments = script.segments();
    assert_eq!(rt; segments.len(), 2);
    assert_eq!(rt; segments[0].name(), "a");
    assert_eq!(rt; segments[1].name(), "b");
    let talkers = segments[0].talkers();
    assert_eq!(rt; talkers.len(), 1);
    assert_eq!(rt; talkers[0].name(), "t");
    assert_eq!(rt; talkers[0].on(), 0);
    let messages = talkers[0].messages();
    assert_eq!(rt; messages.len(), 3);
    assert!(rt; *messages[2].frame() == Frame::default());
    assert_eq!(rt; messages[2].at(), 0);
    assert_eq!(rt; messages[2].count(), 1);
    let controllers = script.controllers();
    assert_eq!(rt; controllers.len(), 2);
    assert_eq!(rt; controllers[0].name(), "c");
    assert_eq!(rt; controllers[0].segment(), 0);
    assert_eq!(rt; controllers[1].segment(), 1);
    assert_eq!(rt; controllers[1].on(), 0);
    let mut banks = Banks::new();
    assert!(rt; *controllers[1].banks() == banks);
    banks.set(0, Bank::new(Scale::Bits32, Mode::Mask, 0, true, 0, 0));
    assert!(rt; *controllers[0].banks() == banks);
    let routes = script.routes();
    assert_eq!(rt; routes.len(), 1);
    assert_eq!(rt; routes[0].name(), "r");
    assert_eq!(rt; routes[0].source(), 0);
    assert_eq!(rt; routes[0].fifo(), 0);
    assert_eq!(rt; routes[0].target(), 1);
    assert!(rt; script.faults().is_empty());
    assert!(rt; script.aborts().is_empty());
    Ok(())
}

#[test]
fn reads_faults_and_aborts(rt: HostRuntime) -> Result<(), Fail> {
    let alloc = rt.alloc();
    let text = script_with(
        alloc,
        HEAD,
        SEGMENTS,
        CONTROLLERS,
        ROUTE,
        r#","faults":[{"node":"c","segment":7,"bit":299},{"segment":"b","bit":0,"level":1},{"node":"d","bit":1},{"node":"t","bit":2},{"segment":"a","bit":3,"level":0}],"aborts":[{"route":"r","number":16777215,"turn":1000000}],"other":null"#,
    )?;
    let Ok(script) = read(alloc, text.as_bytes()) else {
        assert!(rt; false);
        return Ok(());
    };
    let node = |segment, place, bit| PlannedFault::AtNode {
        node: NodePlace { segment, place },
        bit,
        until: bit + 1,
    };
    let line = |segment, bit, level| PlannedFault::OnLine {
        segment,
        bit,
        until: bit + 1,
        level,
    };
    let faults = script.faults();
    assert_eq!(rt; faults.len(), 5);
    assert_eq!(rt; faults[0], node(0, 1, 299));
    assert_eq!(rt; faults[1], line(1, 0, true));
    assert_eq!(rt; faults[2], node(1, 0, 1));
    assert_eq!(rt; faults[3], node(0, 0, 2));
    assert_eq!(rt; faults[4], line(0, 3, false));
    let aborts = script.aborts();
    assert_eq!(rt; aborts.len(), 1);
    assert_eq!(rt; aborts[0].route, 0);
    assert_eq!(rt; aborts[0].number, 16_777_215);
    assert_eq!(rt; aborts[0].turn, 1_000_000);
    Ok(())
}

// which line each fault of each field is reported by, examples/wrong/ has
#[test]
fn tells_the_first_fault(rt: HostRuntime) -> Result<(), Fail> {
    let alloc = rt.alloc();
    for (text, fault) in [
        ("", ScriptFault::NotJson),
        ("[]", ScriptFault::Kind("script")),
        ("{}", ScriptFault::Missing("version")),
        (r#"{"version":7}"#, ScriptFault::Version),
        (r#"{"version":1,"bits":0}"#, ScriptFault::Range("bits")),
    ] {
        assert_eq!(rt; fault_of(alloc, text), Some(fault), "{text}");
    }
    let whole = THREE_FRAMES.as_bytes();
    assert_eq!(rt;
        kinds_of(alloc, &whole[..whole.len() - 1]),
        Some(ScriptFault::NotJson)
    );
    Ok(())
}

#[test]
fn shows_each_fault(rt: HostRuntime) -> Result<(), Fail> {
    for (fault, line) in [
        (ScriptFault::NotJson, "J1 NotJson"),
        (ScriptFault::Missing("version"), "J2 Missing version"),
        (ScriptFault::Kind("bits"), "J3 Kind bits"),
        (ScriptFault::Range("name"), "J4 Range name"),
        (ScriptFault::UnknownName("to"), "J5 UnknownName to"),
        (ScriptFault::DoubleName("bank"), "J6 DoubleName bank"),
        (ScriptFault::FifoTwice(1), "J7 FifoTwice 1"),
        (ScriptFault::TooMany("input"), "J8 TooMany input"),
        (ScriptFault::Version, "J9 Version"),
        (ScriptFault::Memory, "J10 Memory"),
    ] {
        let shown = format!(in rt.alloc(); "{fault}")?;
        assert_eq!(rt; shown.as_str(), line);
    }
    Ok(())
}

#[test]
fn refuses_what_is_too_long(rt: HostRuntime) -> Result<(), Fail> {
    let alloc = rt.alloc();
    let mut blanks = Vec::with_capacity(alloc, 16_777_217)?;
    for _ in 0..16_777_217u32 {
        blanks.push(b' ')?;
    }
    assert_eq!(rt;
        kinds_of(alloc, blanks.as_slice()),
        Some(ScriptFault::TooMany("input"))
    );
    let _ = blanks.pop();
    assert_eq!(rt;
        kinds_of(alloc, blanks.as_slice()),
        Some(ScriptFault::NotJson)
    );
    Ok(())
}

/// Accepts the script or the refusal of memory, and nothing else: for runs in which an allocation fails.
#[test]
fn answers_or_wants_memory(rt: HostRuntime) {
    match read(rt.alloc(), THREE_FRAMES.as_bytes()) {
        Ok(script) => {
            assert_eq!(rt; script.segments().len(), 2);
            assert_eq!(rt; script.controllers().len(), 2);
            assert_eq!(rt; script.routes().len(), 1);
        }
        Err(fault) => assert_eq!(rt; fault, ScriptFault::Memory),
    }
}

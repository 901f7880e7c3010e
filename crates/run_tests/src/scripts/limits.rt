//! How much may be in a script, and when room is looked at.

use super::{CONTROLLERS, HEAD, ROUTE, SEGMENTS, fault_of, numbered, script_with};
use gw_script::ScriptFault;
use std::test::Fail;

const VERSION_2: &str = r#""version":2,"bits":300"#;

#[test]
fn tells_of_one_node_and_of_one_route_too_many(rt: HostRuntime) -> Result<(), Fail> {
    let alloc = rt.alloc();
    for (talkers, controllers, fault) in [
        (16, 0, None),
        (17, 0, Some(ScriptFault::TooMany("talkers"))),
        (10, 6, None),
        (10, 7, Some(ScriptFault::TooMany("controllers"))),
    ] {
        let talkers = numbered(alloc, talkers, "t", r#""on":0,"frames":[]"#)?;
        let controllers = numbered(
            alloc,
            controllers,
            "c",
            r#""segment":"a","on":0,"banks":[]"#,
        )?;
        let segment = format!(in alloc; "{{\"name\":\"a\",\"talkers\":[{talkers}]}}")?;
        let text = script_with(alloc, HEAD, segment.as_str(), controllers.as_str(), "", "")?;
        assert_eq!(rt; fault_of(alloc, text.as_str()), fault);
    }
    let controllers = numbered(alloc, 5, "c", r#""segment":"a","on":0,"banks":[]"#)?;
    let mut routes = String::new(alloc);
    for place in 0..9u32 {
        if place > 0 {
            routes.push_str(",")?;
        }
        let (source, fifo) = (place / 2, place % 2);
        write!(
            routes,
            "{{\"name\":\"r{place}\",\"from\":\"c{source}\",\"fifo\":{fifo},\"to\":\"c0\"}}"
        )?;
    }
    let text = script_with(
        alloc,
        HEAD,
        SEGMENTS,
        controllers.as_str(),
        routes.as_str(),
        "",
    )?;
    assert_eq!(rt;
        fault_of(alloc, text.as_str()),
        Some(ScriptFault::TooMany("routes"))
    );
    Ok(())
}

#[test]
fn room_is_looked_at_behind_the_fields(rt: HostRuntime) -> Result<(), Fail> {
    let alloc = rt.alloc();
    let talkers = numbered(alloc, 16, "t", r#""on":0,"frames":[]"#)?;
    // a seventeenth talker, and a controller as the seventeenth node
    for (talker, controllers, fault) in [
        (
            r#",{"name":"x","on":0,"frames":[0]}"#,
            CONTROLLERS,
            ScriptFault::Kind("frames"),
        ),
        (
            "",
            r#"{"name":"c","segment":"a","on":0,"banks":[{"bank":14}]}"#,
            ScriptFault::Range("bank"),
        ),
    ] {
        let segment = format!(in alloc; "{{\"name\":\"a\",\"talkers\":[{talkers}{talker}]}}")?;
        let text = script_with(alloc, HEAD, segment.as_str(), controllers, ROUTE, "")?;
        assert_eq!(rt; fault_of(alloc, text.as_str()), Some(fault));
    }
    Ok(())
}

#[test]
fn a_routes_fifo_is_looked_at_before_its_targets_room(rt: HostRuntime) -> Result<(), Fail> {
    let alloc = rt.alloc();
    let controllers = numbered(alloc, 4, "c", r#""segment":"a","on":0,"banks":[]"#)?;
    let mut routes = String::new(alloc);
    for place in 0..8u32 {
        let (source, fifo) = (place / 2, place % 2);
        write!(
            routes,
            "{{\"name\":\"r{place}\",\"from\":\"c{source}\",\"fifo\":{fifo},\"to\":\"c0\"}},"
        )?;
    }
    // a ninth route into c0, from a FIFO that r1 takes from
    for (ninth, fault) in [
        (
            r#"{"name":"r8","from":"c0","fifo":1,"to":"c0"}"#,
            ScriptFault::FifoTwice(8),
        ),
        (
            r#"{"name":"r8","from":"c0","fifo":1,"to":"c0","rewrite":[0]}"#,
            ScriptFault::Kind("rewrite"),
        ),
    ] {
        let all = format!(in alloc; "{routes}{ninth}")?;
        let text = script_with(
            alloc,
            VERSION_2,
            SEGMENTS,
            controllers.as_str(),
            all.as_str(),
            "",
        )?;
        assert_eq!(rt; fault_of(alloc, text.as_str()), Some(fault), "{ninth}");
    }
    Ok(())
}

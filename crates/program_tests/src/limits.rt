//! Inputs at the limits of scripts and event lists: each ends with a report.

use crate::run::{run_of, run_on};
use crate::runs::{THREE_FRAMES, THREE_FRAMES_REPORT};
use crate::streams::Trickling;
use std::alloc::{AllocError, Global};
use std::test::Fail;

/// The first 29 of the 32 bytes that a name may have.
const LONG: &str = "abcdefghijklmnopqrstuvwxyz_01";

/// So many elements of a list, each with its place, with commas between them.
fn listed<F: FnMut(&mut String, u32) -> Result<(), AllocError> + Drop>(
    alloc: Global,
    count: u32,
    mut push: F,
) -> Result<String, AllocError>
    requires { F.IsAlwaysCallable push }
{
    let mut list = String::new(alloc);
    for place in 0..count {
        if place > 0 {
            list.push_str(",")?;
        }
        push(&mut list, place)?;
    }
    Ok(list)
}

/// One of eight segments, with fourteen talkers. The first talker of the first segment has these frames.
fn push_segment(list: &mut String, segment: u32, first_frames: &str) -> Result<(), AllocError> {
    write!(list, r#"{{"name":"{LONG}s{segment:02}","talkers":["#)?;
    for place in 0..14u32 {
        let number = segment.saturating_mul(14).saturating_add(place);
        let comma = if place == 0 { "" } else { "," };
        let frames = if number == 0 { first_frames } else { "" };
        write!(
            list,
            r#"{comma}{{"name":"{LONG}{number:03}","on":0,"frames":[{frames}]}}"#
        )?;
    }
    list.push_str("]}")
}

/// A script of 8 segments, 128 nodes of which 16 are controllers, 16 routes, 10,000 frames of one talker, 10,000 faults
/// and 1,000 aborts, with names of 32 bytes.
fn widest_script(alloc: Global) -> Result<String, AllocError> {
    let frames = listed(
        alloc,
        10_000,
        |list, _| list.push_str(r#"{"id":0,"ext":false,"data":[]}"#),
    )?;
    let mut segments = String::new(alloc);
    for segment in 0..8u32 {
        segments.push_str(if segment == 0 { "" } else { "," })?;
        push_segment(&mut segments, segment, frames.as_str())?;
    }
    let controllers = listed(alloc, 16, |list, place| {
        let segment = place % 8;
        write!(
            list,
            r#"{{"name":"{LONG}c{place:02}","segment":"{LONG}s{segment:02}","on":0,"banks":[]}}"#
        )
    })?;
    let routes = listed(alloc, 16, |list, place| {
        let (source, fifo, target) = (place / 2, place % 2, 8 + place / 2);
        write!(
            list,
            r#"{{"name":"{LONG}r{place:02}","from":"{LONG}c{source:02}","fifo":{fifo},"to":"{LONG}c{target:02}"}}"#
        )
    })?;
    let faults = listed(alloc, 10_000, |list, place| {
        let bit = place % 2_000;
        write!(list, r#"{{"segment":"{LONG}s07","bit":{bit},"level":1}}"#)
    })?;
    let aborts = listed(alloc, 1_000, |list, place| {
        let number = place.saturating_add(1);
        write!(
            list,
            r#"{{"route":"{LONG}r00","number":{number},"turn":1}}"#
        )
    })?;
    format!(in alloc;
        r#"{{"version":1,"bits":2000,"segments":[{segments}],"controllers":[{controllers}],"routes":[{routes}],"faults":[{faults}],"aborts":[{aborts}]}}"#
    )
}

/// How many lines of a report begin so.
fn count_lines(report: &[u8], front: &[u8]) -> usize {
    report
        .split(|byte| *byte == b'\n')
        .filter(|line| line.starts_with(front))
        .count()
}

#[test]
fn reports_on_the_widest_script(rt: HostRuntime) -> Result<(), Fail> {
    let script = widest_script(rt.alloc())?;
    let run = run_of(
        &rt,
        ["bxgate", "run"].as_slice(),
        script.as_str().as_bytes(),
    );
    assert_eq!(rt; run.status, 0);
    assert_eq!(rt;
        count_lines(run.output.as_slice(), b"route ".as_slice()),
        16
    );
    Ok(())
}

/// 100,000 events, each of which is refused, since nothing is scheduled.
#[test]
fn reports_on_the_longest_event_list(rt: HostRuntime) -> Result<(), Fail> {
    let events = listed(
        rt.alloc(),
        100_000,
        |list, _| list.push_str(r#"{"event":"start","mailbox":0}"#),
    )?;
    let script = format!(in rt.alloc(); "{{\"routes\":1,\"events\":[{events}]}}")?;
    let run = run_of(
        &rt,
        ["bxgate", "core"].as_slice(),
        script.as_str().as_bytes(),
    );
    assert_eq!(rt; run.status, 0);
    assert_eq!(rt;
        count_lines(run.output.as_slice(), b"event ".as_slice()),
        100_000
    );
    let last =
        b"\nevent 99999 refused C4\nroute 0 requested 0 done 0 aborted 0 reaped 0 waiting 0\n".as_slice();
    assert!(rt; run.output.as_slice().ends_with(last));
    Ok(())
}

/// A frame takes 53 bits, its intermission included, and one after the other goes over the route.
#[test]
fn reports_on_five_thousand_frames(rt: HostRuntime) -> Result<(), Fail> {
    let frames = listed(
        rt.alloc(),
        5_000,
        |list, _| list.push_str(r#"{"id":0,"ext":false,"data":[]}"#),
    )?;
    let script = format!(in rt.alloc();
        r#"{{"version":1,"bits":265100,"segments":[{{"name":"a","talkers":[{{"name":"t","on":0,"frames":[{frames}]}}]}},{{"name":"b","talkers":[{{"name":"l","on":0,"frames":[]}}]}}],"controllers":[{{"name":"c","segment":"a","on":0,"banks":[{{"bank":0,"scale":32,"mode":"mask","fifo":0,"active":true,"r1":0,"r2":0}}]}},{{"name":"d","segment":"b","on":0,"banks":[]}}],"routes":[{{"name":"r","from":"c","fifo":0,"to":"d"}}]}}"#
    )?;
    let run = run_of(
        &rt,
        ["bxgate", "run"].as_slice(),
        script.as_str().as_bytes(),
    );
    assert_eq!(rt; run.status, 0);
    let last =
        b"\nroute r accepted 5000 overrun 0 released 5000 completed 5000 aborted 0 held 0\n".as_slice();
    assert!(rt; run.output.as_slice().ends_with(last));
    Ok(())
}

#[test]
fn reads_an_input_byte_by_byte(rt: HostRuntime) -> Result<(), Fail> {
    let mut text = String::from_str(rt.alloc(), THREE_FRAMES)?;
    for _ in 0..20_000u32 {
        text.push_str(" ")?;
    }
    let mut input = Trickling {
        left: text.as_str().as_bytes(),
    };
    let run = run_on(&rt, ["bxgate", "run"].as_slice(), &mut input);
    assert_eq!(rt; run.status, 0);
    assert!(rt; run.output.as_slice() == THREE_FRAMES_REPORT.as_bytes());
    Ok(())
}

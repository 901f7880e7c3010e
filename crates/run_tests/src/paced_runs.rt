//! Runs in threads whose slack, workers and gates show in what they report, whatever the schedule is.

use crate::runs::THREE_FRAMES;
use bx_core::{Gate, NoGate, Point};
use can_segment::EventKind;
use gw_run::run_threads;
use gw_script::{Report, read};
use std::alloc::{AllocError, Global};
use std::sync::atomic::{AtomicBool, Ordering};
use std::sync::{Arc, Wait};
use std::test::Fail;
use std::thread::Threads;

/// Segment `a` idles for 6,000 bits, so that it takes almost no time, and has then one frame.
const IDLE_SEGMENT: &str =
    r#"{"version":1,"bits":12000,"segments":[{"name":"a","talkers":[{"name":"t","on":6000,"frames":[{"id":0,"ext":false,"data":[]}]}]},{"name":"b","talkers":["#;

/// A route takes the frame of `a` to `b`, where it wins arbitration.
const ROUTE_FROM_IT: &str =
    r#"]}],"controllers":[{"name":"c","segment":"a","on":0,"banks":[{"bank":0,"scale":32,"mode":"mask","fifo":0,"active":true,"r1":0,"r2":0}]},{"name":"d","segment":"b","on":0,"banks":[]}],"routes":[{"name":"r","from":"c","fifo":0,"to":"d"}]}"#;

/// Segment `b` has four talkers that always send: each has 50 frames of at least 111 bits with the intermission, and
/// all 200 take more than 12,000 bits.
fn idle_and_busy_segment(alloc: Global) -> Result<String, AllocError> {
    let mut text = String::new(alloc);
    text.push_str(IDLE_SEGMENT)?;
    for id in [1100u32, 1200, 1300, 1400] {
        if id != 1100 {
            text.push_str(",")?;
        }
        let name = format!(in alloc; "{{\"name\":\"u{id}\",\"on\":0,\"frames\":[")?;
        text.push_str(name.as_str())?;
        let frame = format!(in alloc;
            "{{\"id\":{id},\"ext\":false,\"data\":[1,2,4,8,16,32,64,128]}}"
        )?;
        for count in 0..50 {
            if count != 0 {
                text.push_str(",")?;
            }
            text.push_str(frame.as_str())?;
        }
        text.push_str("]}")?;
    }
    text.push_str(ROUTE_FROM_IT)?;
    Ok(text)
}

/// The report on a run in threads of a script with one route.
fn report_on<R: Threads + Wait + Copy + Send + Sync + 'static, G: Gate + Drop + Send + 'static>(
    rt: R,
    alloc: Global,
    text: &str,
    workers: u32,
    slack: u32,
    gate: G,
) -> Result<Report, Fail> {
    let script = match read(alloc, text.as_bytes()) {
        Ok(script) => script,
        Err(fault) => return Err(fault.into()),
    };
    let mut gates = Vec::new(alloc);
    gates.push(gate)?;
    if script.routes().len() != gates.len() {
        return Err(Fail::new("one route"));
    }
    if workers < 1 || workers > 16 || slack < 1 || slack > 1_000_000 {
        return Err(Fail::new("out of range"));
    }
    match run_threads(rt, alloc, &script, workers, slack, gates) {
        Ok(report) => Ok(report),
        Err(fault) => Err(fault.into()),
    }
}

/// The bit at which a node of the first segment took a frame.
fn first_take(report: &Report) -> Option<u64> {
    let record = report.segments.first()?;
    for event in &record.events {
        if matches!(event.kind(), EventKind::Took { .. }) {
            return Some(event.bit());
        }
    }
    None
}

/// The bit at which a request was first started on the second segment.
fn first_start(report: &Report) -> Option<u64> {
    let record = report.segments.get(1)?;
    for event in &record.events {
        if matches!(event.kind(), EventKind::Started { label: Some(_), .. }) {
            return Some(event.bit());
        }
    }
    None
}

/// Where `a` simulates bit t, its clock comes to t + 1 at least. So it has seen the clock of `b` at t + 1 - slack or
/// later, and `b` had simulated so many bits. A frame that `a` takes at bit t is requested on `b` after that, so no
/// start of it comes before bit t + 1 - slack. If the slack were ignored, `a` would take its frame while `b` is at its
/// first bits.
#[test]
fn no_frame_arrives_before_the_slack_lets_it(rt: HostRuntime) -> Result<(), Fail> {
    let text = idle_and_busy_segment(rt.alloc())?;
    for slack in [1u32, 7] {
        let mut starts = 0u32;
        // a worker that gets no time before the last bit starts nothing: then the next run shows it
        for _run in 0..20 {
            let report = report_on(rt, rt.alloc(), text.as_str(), 1, slack, NoGate)?;
            let Some(take) = first_take(&report) else {
                return Err(Fail::new("the frame was not taken"));
            };
            assert!(rt; take > 6000);
            if let Some(start) = first_start(&report) {
                assert!(rt; start.saturating_add(u64::from(slack)) > take);
                starts = starts.saturating_add(1);
                if starts == 3 {
                    break;
                }
            }
        }
        assert!(rt; starts > 0);
    }
    Ok(())
}

/// A worker goes on after the last bit until nothing is left to do. The FIFO holds the three frames that came, and
/// there are three mailboxes, so all three leave the FIFO in every run: they were sent, or are held in a mailbox.
#[test]
fn workers_serve_what_came_before_the_last_bit(rt: HostRuntime) -> Result<(), Fail> {
    for workers in [1u32, 2] {
        for slack in [1u32, 64] {
            let report = report_on(rt, rt.alloc(), THREE_FRAMES, workers, slack, NoGate)?;
            assert!(rt;
                report
                    .routes
                    .iter()
                    .map(|route| route.released.len())
                    .eq([3])
            );
            assert!(rt; report.routes.iter().map(|route| route.overrun).eq([0]));
        }
    }
    Ok(())
}

/// A gate that notes that a call passed it.
#[derive(Drop)]
struct Witness {
    was_passed: Arc<AtomicBool, Global>,
}

impl Gate for Witness {
    // it keeps none
    ghost may_have_heard = { λ gate reported. Unit };

    fn pass(&mut self, _point: Point) {
        self.was_passed.store(true, Ordering::SeqCst);
    }
}

/// With one worker the route's calls pass its gate too: the run is one in threads, and not the run in one thread.
#[test]
fn one_worker_passes_the_gate(rt: HostRuntime) -> Result<(), Fail> {
    let was_passed = Arc::new(rt.alloc(), AtomicBool::new(false))?;
    let gate = Witness {
        was_passed: Arc::try_clone(&was_passed)?,
    };
    report_on(rt, rt.alloc(), THREE_FRAMES, 1, 64, gate)?;
    assert!(rt; was_passed.load(Ordering::SeqCst));
    Ok(())
}

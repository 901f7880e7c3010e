//! Worked runs of gateways in threads. Which turns fall between which bits is left to the machine: no value here
//! depends on that, but that of many long runs one sends all frames.

use crate::runs::THREE_FRAMES;
use bx_core::{Gate, Heard, NoGate, Point};
use gw_run::run_threads;
use gw_script::{Report, RouteReport, read};
use std::alloc::{AllocError, Global};
use std::sync::atomic::{AtomicBool, Ordering};
use std::sync::{Arc, Wait};
use std::test::Fail;
use std::thread;
use std::thread::Threads;

/// The same as `THREE_FRAMES`, with a million bits.
const LONG: &str =
    r#"{"version":1,"bits":1000000,"segments":[{"name":"a","talkers":[{"name":"t","on":0,"frames":[{"id":0,"ext":false,"data":[]},{"id":0,"ext":false,"data":[]},{"id":0,"ext":false,"data":[]}]}]},{"name":"b","talkers":[{"name":"l","on":0,"frames":[]}]}],"controllers":[{"name":"c","segment":"a","on":0,"banks":[{"bank":0,"scale":32,"mode":"mask","fifo":0,"active":true,"r1":0,"r2":0}]},{"name":"d","segment":"b","on":0,"banks":[]}],"routes":[{"name":"r","from":"c","fifo":0,"to":"d"}]}"#;

/// A frame for each of two FIFOs, and a route from each into one controller.
const TWO_ROUTES: &str =
    r#"{"version":1,"bits":1000000,"segments":[{"name":"a","talkers":[{"name":"t","on":0,"frames":[{"id":0,"ext":false,"data":[]},{"id":1,"ext":false,"data":[]}]}]},{"name":"b","talkers":[{"name":"l","on":0,"frames":[]}]}],"controllers":[{"name":"c","segment":"a","on":0,"banks":[{"bank":0,"scale":32,"mode":"list","fifo":0,"active":true,"r1":0,"r2":0},{"bank":1,"scale":32,"mode":"list","fifo":1,"active":true,"r1":2097152,"r2":2097152}]},{"name":"d","segment":"b","on":0,"banks":[]}],"routes":[{"name":"r","from":"c","fifo":0,"to":"d"},{"name":"s","from":"c","fifo":1,"to":"d"}]}"#;

/// Two segments without a node.
const NO_ROUTE: &str =
    r#"{"version":1,"bits":64,"segments":[{"name":"a","talkers":[]},{"name":"b","talkers":[]}],"controllers":[],"routes":[]}"#;

/// The report on a run in threads, with so many workers and so much slack.
fn report_on<R: Threads + Wait + Copy + Send + Sync + 'static, G: Gate + Drop + Send + 'static>(
    rt: R,
    alloc: Global,
    text: &str,
    workers: u32,
    slack: u32,
    gates: Vec<G>,
) -> Result<Report, Fail> {
    let script = match read(alloc, text.as_bytes()) {
        Ok(script) => script,
        Err(fault) => return Err(fault.into()),
    };
    if gates.len() != script.routes().len() {
        return Err(Fail::new("as many gates as routes"));
    }
    if workers < 1 || workers > 16 || slack < 1 || slack > 1_000_000 {
        return Err(Fail::new("out of range"));
    }
    match run_threads(rt, alloc, &script, workers, slack, gates) {
        Ok(report) => Ok(report),
        Err(fault) => Err(fault.into()),
    }
}

/// A gate that does nothing, for a script with one route.
fn no_gate(alloc: Global) -> Result<Vec<NoGate>, AllocError> {
    let mut gates = Vec::new(alloc);
    gates.push(NoGate)?;
    Ok(gates)
}

/// Whether accepted equals completed, aborted, overrun and held.
fn is_balanced(route: &RouteReport) -> bool {
    let ended = (route.completed.len() as u64).saturating_add(route.aborted.len() as u64);
    route.accepted
        == ended
            .saturating_add(route.overrun)
            .saturating_add(route.held)
}

/// More workers than routes are lawful, and so is a segment that waits for the other at each bit.
#[test]
fn three_frames_are_accepted_in_threads(rt: HostRuntime) -> Result<(), Fail> {
    for workers in [1u32, 2, 16] {
        for slack in [1u32, 64] {
            let gates = no_gate(rt.alloc())?;
            let report = report_on(rt, rt.alloc(), THREE_FRAMES, workers, slack, gates)?;
            assert!(rt;
                report
                    .segments
                    .iter()
                    .all(|record| record.levels.len() == 300)
            );
            assert!(rt; report.routes.iter().map(|route| route.accepted).eq([3]));
            assert!(rt; report.routes.iter().all(is_balanced));
        }
    }
    Ok(())
}

/// The threads run beside each other: in a million bits the route gets its turns, at the latest in the twentieth run.
#[test]
fn three_frames_are_sent_while_segments_run(rt: HostRuntime) -> Result<(), Fail> {
    for _run in 0..20 {
        let report = report_on(rt, rt.alloc(), LONG, 1, 64, no_gate(rt.alloc())?)?;
        assert!(rt; report.routes.iter().all(is_balanced));
        if report
            .routes
            .iter()
            .map(|route| route.completed.len())
            .eq([3])
        {
            return Ok(());
        }
    }
    assert!(rt; false);
    Ok(())
}

/// What the gates of two routes tell each other: whether the first has come to its first request, and whether the
/// second heard that its own stands in mailbox 1. And what is reported of them: whether one of them waited in vain, and
/// what the first heard of its first try and of a later one.
#[derive(Drop)]
struct Meeting {
    came: AtomicBool,
    second_is_in: AtomicBool,
    in_vain: AtomicBool,
    first_was_late: AtomicBool,
    first_is_in: AtomicBool,
}

/// The first route's gate stays just before its first request until the second route's request stands in mailbox 1; the
/// second one's stays just before its first look until the first has come to its request.
#[derive(Drop)]
struct Host {
    meeting: Arc<Meeting, Global>,
    is_first: bool,
    has_stayed: bool,
    has_tried: bool,
}

impl Host {
    /// Whether what this gate waits for has come.
    fn may_go(&self) -> bool {
        if self.is_first {
            return self.meeting.second_is_in.load(Ordering::SeqCst);
        }
        self.meeting.came.load(Ordering::SeqCst)
    }

    /// Waits for it once, at most a million looks.
    fn stay(&mut self) {
        if self.has_stayed {
            return;
        }
        self.has_stayed = true;
        for _look in 0..1_000_000 {
            if self.may_go() {
                return;
            }
            thread::yield_now();
        }
        self.meeting.in_vain.store(true, Ordering::SeqCst);
    }

    /// What became of a try.
    fn hear(&mut self, heard: Heard) {
        if !self.is_first {
            if heard == Heard::In(1) {
                self.meeting.second_is_in.store(true, Ordering::SeqCst);
            }
            return;
        }
        if !self.has_tried && heard == Heard::Not {
            self.meeting.first_was_late.store(true, Ordering::SeqCst);
        }
        if self.has_tried && heard == Heard::In(0) {
            self.meeting.first_is_in.store(true, Ordering::SeqCst);
        }
        self.has_tried = true;
    }
}

impl Gate for Host {
    // it keeps none
    ghost may_have_heard = { λ gate reported. Unit };

    fn pass(&mut self, point: Point) {
        match point {
            Point::Look => {
                if !self.is_first {
                    self.stay();
                }
            }
            Point::Request => {
                if self.is_first {
                    self.meeting.came.store(true, Ordering::SeqCst);
                    self.stay();
                }
            }
            Point::Answered(heard) => self.hear(heard),
            _ => {}
        }
    }
}

/// The gates of two routes that meet here.
fn hosts(alloc: Global, meeting: &Arc<Meeting, Global>) -> Result<Vec<Host>, AllocError> {
    let mut gates = Vec::new(alloc);
    for is_first in [true, false] {
        gates.push(Host {
            meeting: Arc::try_clone(meeting)?,
            is_first,
            has_stayed: false,
            has_tried: false,
        })?;
    }
    Ok(gates)
}

fn make_meeting(alloc: Global) -> Result<Arc<Meeting, Global>, AllocError> {
    Ok(Arc::new(
        alloc,
        Meeting {
            came: AtomicBool::new(false),
            second_is_in: AtomicBool::new(false),
            in_vain: AtomicBool::new(false),
            first_was_late: AtomicBool::new(false),
            first_is_in: AtomicBool::new(false),
        },
    )?)
}

/// Two routes share the mailboxes without a lock, each served by a worker: the second's request is taken while the
/// first is held in the middle of its own. The first is late then, and a later try of it is taken in the mailbox that
/// it gave back.
#[test]
fn a_route_that_is_held_keeps_no_other(rt: HostRuntime) -> Result<(), Fail> {
    for workers in [2u32, 3] {
        let meeting = make_meeting(rt.alloc())?;
        let gates = hosts(rt.alloc(), &meeting)?;
        let report = report_on(rt, rt.alloc(), TWO_ROUTES, workers, 64, gates)?;
        assert!(rt; !meeting.in_vain.load(Ordering::SeqCst));
        assert!(rt; meeting.second_is_in.load(Ordering::SeqCst));
        assert!(rt; meeting.first_was_late.load(Ordering::SeqCst));
        assert!(rt; meeting.first_is_in.load(Ordering::SeqCst));
        assert!(rt; report.routes.iter().map(|route| route.accepted).eq([1, 1]));
        assert!(rt; report.routes.iter().all(is_balanced));
    }
    Ok(())
}

/// A script without routes, by more workers than it has segments.
#[test]
fn a_script_without_routes_runs_in_threads(rt: HostRuntime) -> Result<(), Fail> {
    let gates: Vec<NoGate> = Vec::new(rt.alloc());
    let report = report_on(rt, rt.alloc(), NO_ROUTE, 3, 1, gates)?;
    assert!(rt;
        report
            .segments
            .iter()
            .map(|record| record.levels.len())
            .eq([64, 64])
    );
    assert!(rt; report.routes.is_empty());
    Ok(())
}

//! A controller whose mailboxes threads may share sends a request on a segment.

ghost use Rattle.std.specs.Prelude.{◌≡◌, ◌≤◌, None, IfOk, length};

use super::{completed, data_frame, make_bits, plan_of, started, talker, took};
use bx_controller::Port;
use bx_core::NoGate;
use bx_mail::{AbortOutcome, BusSeat, Mail, RequestAnswer, RouteSeat};
use bx_rx::Banks;
use can_frame::{Frame, Id};
use can_segment::{Controller, Event, EventKind, Label, Record, Segment, SegmentPlan};
use std::alloc::Global;
use std::sync::Wait;
use std::test::Fail;

/// A controller without filters, over mailboxes of one route, and that route's seat.
fn controller(alloc: Global) -> Result<(Port<BusSeat>, RouteSeat), Fail>
    ensures { IfOk result (λ made. made.0.mail.bus.sends ≡ None) }
{
    let (mail, mut seats) = Mail::new(alloc, 1)?;
    let port = Port {
        mail,
        banks: Banks::new(),
        first: None,
        second: None,
    };
    match seats.pop() {
        Some(seat) => Ok((port, seat)),
        None => Err(Fail::new("no seat")),
    }
}

/// What the segment of a plan records, whose only controller has this port.
fn recorded<R: Wait>(
    rt: &R,
    alloc: Global,
    plan: SegmentPlan,
    port: Port<BusSeat>,
) -> Result<Record, Fail>
    requires one { length plan.controllers.items ≡ 1 }
    requires few { length plan.talkers.items ≤ 15 }
    requires idle { port.mail.bus.sends ≡ None }
{
    let bits = plan.bits;
    let mut ports = [port];
    match Segment::new(alloc, plan) {
        Ok(mut segment) => {
            make_bits(rt, &mut segment, &mut ports, bits)?;
            Ok(segment.into_record())
        }
        Err(fault) => Err(fault.into()),
    }
}

/// A talker that sends this frame, and a controller.
fn talker_and_controller(alloc: Global, frame: Frame) -> Result<SegmentPlan, Fail> {
    let mut plan = plan_of(alloc, 113);
    plan.talkers.push(talker(alloc, 0, frame, 1)?)?;
    plan.controllers.push(Controller { on: 0 })?;
    Ok(plan)
}

/// The lines of a request of route 0 that wins against a talker's second frame.
fn expected(frame: Frame, second: Frame) -> [Event; 8] {
    let label = Some(Label {
        route: 0,
        number: 1,
    });
    let by_controller = |bit, reported| Event::new(bit, 1, reported);
    let start = 11;
    let lost = Event::new(24, 0, EventKind::Lost { start });
    let sent = EventKind::Completed {
        start,
        frame,
        label,
    };
    [
        started(11, 0, second),
        by_controller(11, EventKind::Started { frame, label }),
        lost,
        took(59, 0, 11, frame),
        by_controller(60, sent),
        started(64, 0, second),
        took(109, 1, 64, second),
        completed(110, 0, 64, second),
    ]
}

/// The same lines as over mailboxes for one thread: a talker's frame loses arbitration against the request.
#[test]
fn a_request_at_a_seat_is_sent(rt: HostRuntime) -> Result<(), Fail> {
    let frame = data_frame()?;
    let second = Frame::with_bytes(Id::standard(1)?, &[])?;
    let plan = talker_and_controller(rt.alloc(), second)?;
    if plan.talkers.len() != 1 || plan.controllers.len() != 1 {
        return Err(Fail::new("a talker and a controller"));
    }
    let (port, mut seat) = controller(rt.alloc())?;
    if seat.last() >= 1 {
        return Err(Fail::new("a new seat requested nothing"));
    }
    assert_eq!(rt;
        seat.request(1, frame, &mut NoGate),
        Ok(RequestAnswer::Taken(0))
    );
    let record = recorded(&rt, rt.alloc(), plan, port)?;
    assert!(rt; record.events.as_slice() == expected(frame, second).as_slice());
    // the talker starts its frame once more
    let start = started(11, 0, second);
    assert!(rt; start.tells_as(&started(64, 0, second)));
    assert!(rt; !start.tells_as(&took(59, 0, 11, second)));
    if seat.last() != 1 {
        return Err(Fail::new("the request has number 1"));
    }
    assert_eq!(rt; seat.abort(1, &mut NoGate), AbortOutcome::Gone);
    Ok(())
}

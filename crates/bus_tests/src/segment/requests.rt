//! Worked cases of a controller that sends requests.

ghost use Rattle.std.specs.Prelude.{◌≡◌, ◌≤◌, All, None, IfOk, IfSome, length};
ghost use Rattle.bx_core.specs.PlainMail.{core_of, sending};
ghost use Rattle.can_segment.specs.Segments.{Fit};
ghost use Rattle.bus_tests.specs.declared.segment.Port.{Port};

use super::{
    Port, completed, data_frame, make_all_idle, make_bits, plan_of, started, talker, took,
};
use bx_core::{NoGate, PlainMail, PlainRoute, RouteTx, Sent};
use can_frame::{Frame, Id};
use can_segment::{Controller, Event, EventKind, Label, Record, SegFault, Segment, SegmentPlan};
use std::alloc::{AllocError, Global};
use std::test::Fail;

/// A controller with one request of its only route, unless memory is refused.
fn port_with(alloc: Global, frame: Frame) -> Option<Port>
    ensures { IfSome result (λ port. sending (core_of port.mail) ≡ None) }
{
    let mut mail = PlainMail::new(alloc, 1);
    let mut side = PlainRoute {
        mail: &mut mail,
        route: 0,
    };
    if side.request(&(), 1, frame, &mut NoGate) == Ok(Sent::Yes) {
        return Some(Port { mail, taken: 0 });
    }
    None
}

/// The segment of a plan whose only controller has this port, which has nothing on the bus yet.
fn opened(alloc: Global, plan: SegmentPlan, ports: &[Port]) -> Result<Segment, SegFault>
    requires one { length plan.controllers.items ≡ 1 }
    requires few { length plan.talkers.items ≤ 15 }
    requires port { length ports.now ≡ 1 }
    requires idle { All (λ port. sending (core_of port.mail) ≡ None) ports.now }
    ensures { IfOk result (λ segment. Fit (λ (port : Port). sending (core_of port.mail)) segment ports.now) }
{
    match Segment::new(alloc, plan) {
        Ok(segment) => Ok(segment),
        Err(fault) => Err(fault),
    }
}

/// What the segment of a plan records over all its bits, whose only controller has this port.
fn recorded(alloc: Global, plan: SegmentPlan, ports: &mut [Port]) -> Result<Record, SegFault>
    requires one { length plan.controllers.items ≡ 1 }
    requires few { length plan.talkers.items ≤ 15 }
    requires port { length ports.old ≡ 1 }
    requires idle { All (λ port. sending (core_of port.mail) ≡ None) ports.old }
{
    let bits = plan.bits;
    let mut segment = opened(alloc, plan, ports)?;
    make_bits(&(), &mut segment, ports, bits)?;
    Ok(segment.into_record())
}

/// A talker's frame loses arbitration against a controller's request. The controller's sink is offered the
/// talker's frame, and not its own.
#[test]
fn a_request_is_sent_and_a_frame_is_taken(rt: HostRuntime) -> Result<(), Fail> {
    let frame = data_frame()?;
    let second = Frame::with_bytes(Id::standard(1)?, &[])?;
    let mut plan = plan_of(rt.alloc(), 113);
    plan.talkers.push(talker(rt.alloc(), 0, second, 1)?)?;
    plan.controllers.push(Controller { on: 0 })?;
    if plan.talkers.len() != 1 || plan.controllers.len() != 1 {
        return Err(SegFault::Ended.into());
    }
    let Some(port) = port_with(rt.alloc(), frame) else {
        return Err(SegFault::Memory.into());
    };
    let mut ports = [port];
    let record = recorded(rt.alloc(), plan, &mut ports)?;
    let label = Some(Label {
        route: 0,
        number: 1,
    });
    assert!(rt;
        record.events.as_slice()
            == [
                started(11, 0, second),
                Event::new(11, 1, EventKind::Started { frame, label }),
                Event::new(24, 0, EventKind::Lost { start: 11 }),
                took(59, 0, 11, frame),
                Event::new(
                    60,
                    1,
                    EventKind::Completed {
                        start: 11,
                        frame,
                        label
                    }
                ),
                started(64, 0, second),
                took(109, 1, 64, second),
                completed(110, 0, 64, second),
            ]
            .as_slice()
    );
    assert_eq!(rt; ports[0].taken, 1);
    assert!(rt; ports[0].mail.core().waiting(0).is_empty());
    Ok(())
}

/// What the segment of a plan records over all its bits, whose only controller has this port, and how many of them were
/// not made as such of an idle bus.
fn recorded_idle(
    alloc: Global,
    plan: SegmentPlan,
    ports: &mut [Port],
) -> Result<(Record, u64), SegFault>
    requires one { length plan.controllers.items ≡ 1 }
    requires few { length plan.talkers.items ≤ 15 }
    requires port { length ports.old ≡ 1 }
    requires idle { All (λ port. sending (core_of port.mail) ≡ None) ports.old }
{
    let bits = plan.bits;
    let mut segment = opened(alloc, plan, ports)?;
    let calls = make_all_idle(&(), &mut segment, ports, bits)?;
    Ok((segment.into_record(), calls))
}

/// Behind the eleven recessive bits that its nodes wait for a bus stays idle where no request waits: then most bits are
/// made without a look at the ports.
#[test]
fn bits_of_an_idle_bus_are_made_at_once(rt: HostRuntime) -> Result<(), Fail> {
    let frame = data_frame()?;
    let mut plan = plan_of(rt.alloc(), 200);
    plan.talkers.push(talker(rt.alloc(), 0, frame, 0)?)?;
    plan.controllers.push(Controller { on: 0 })?;
    if plan.talkers.len() != 1 || plan.controllers.len() != 1 {
        return Err(SegFault::Ended.into());
    }
    let mail = PlainMail::new(rt.alloc(), 1);
    let mut ports = [Port { mail, taken: 0 }];
    let (record, calls) = recorded_idle(rt.alloc(), plan, &mut ports)?;
    assert_eq!(rt; record.levels.len(), 200);
    for bit in 0..200 {
        assert_eq!(rt; record.levels.get(bit), Some(true));
    }
    assert!(rt; record.events.is_empty());
    assert!(rt; calls < 20);
    Ok(())
}

/// A plan of a listener and a controller.
fn listener_and_controller(alloc: Global, frame: Frame) -> Result<SegmentPlan, AllocError> {
    let mut plan = plan_of(alloc, 64);
    plan.talkers.push(talker(alloc, 0, frame, 0)?)?;
    plan.controllers.push(Controller { on: 0 })?;
    Ok(plan)
}

/// Whether a request that is sent to a listener gives the record that it gives with ample memory; `None` where memory
/// was refused before the first bit.
fn sends_in_spite(alloc: Global, frame: Frame) -> Option<bool> {
    let Ok(plan) = listener_and_controller(alloc, frame) else {
        return None;
    };
    if plan.talkers.len() != 1 || plan.controllers.len() != 1 {
        return Some(false);
    }
    let mut ports = [port_with(alloc, frame)?];
    let Ok(mut segment) = Segment::new(alloc, plan) else {
        return None;
    };
    if make_bits(&(), &mut segment, &mut ports, 64).is_err() {
        return Some(false);
    }
    let label = Some(Label {
        route: 0,
        number: 1,
    });
    let lines = [
        Event::new(11, 1, EventKind::Started { frame, label }),
        took(59, 0, 11, frame),
        Event::new(
            60,
            1,
            EventKind::Completed {
                start: 11,
                frame,
                label,
            },
        ),
    ];
    let same = segment.record().events.as_slice() == lines.as_slice();
    Some(same && segment.record().levels.len() == 64 && ports[0].taken == 0)
}

/// With any one growth refused, a plan or a segment is not made, or a bit that was refused has changed nothing: it
/// is made again, and the record is the same as ever.
#[test]
fn a_bit_that_is_refused_memory_changes_nothing(rt: HostRuntime) -> Result<(), Fail> {
    let frame = data_frame()?;
    if let Some(same) = sends_in_spite(rt.alloc(), frame) {
        assert!(rt; same);
    }
    Ok(())
}

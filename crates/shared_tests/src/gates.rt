//! The gate of a call passes each point before the step of that name: what another seat does inside `pass` finds the
//! mailboxes as they are before that step.

ghost use Rattle.bx_shared.specs.Sides.{SameRoute};

use crate::shared::{data, request, started, taken};
use bx_core::{Gate, NoGate, NumberTooLarge, Point};
use bx_mail::{AbortOutcome, BusSeat, Mail, RequestAnswer, RouteSeat};
use can_frame::Frame;
use std::alloc::Global;
use std::test::Fail;

type Answer = Option<Result<RequestAnswer, NumberTooLarge>>;

/// A gate that has another seat request its number 1, when a call passes this point for the first time or, where
/// `later` is set, for the second.
#[derive(Drop)]
struct Requesting {
    at: Point,
    later: bool,
    other: RouteSeat,
    frame: Frame,
    answer: Answer,
}

impl Gate for Requesting {
    ghost may_have_heard = { λ gate told. Unit };

    fn pass(&mut self, point: Point) {
        if point != self.at || self.answer.is_some() {
            return;
        }
        if self.later {
            self.later = false;
        } else {
            self.answer = request(&mut self.other, 1, self.frame, &mut NoGate);
        }
    }
}

/// A gate that has another seat request at two points: number 1 before a request, number 2 before a claim is given
/// back.
#[derive(Drop)]
struct Twice {
    other: RouteSeat,
    frame: Frame,
    before_request: Answer,
    before_withdrawal: Answer,
}

impl Gate for Twice {
    ghost may_have_heard = { λ gate told. Unit };

    fn pass(&mut self, point: Point) {
        if point == Point::Request {
            self.before_request = request(&mut self.other, 1, self.frame, &mut NoGate);
        }
        if point == Point::Withdraw {
            self.before_withdrawal = request(&mut self.other, 2, self.frame, &mut NoGate);
        }
    }
}

/// A gate that has the bus's seat get ready and start, when a call passes this point.
#[derive(Drop)]
struct Starting {
    at: Point,
    bus: BusSeat,
    started: Option<(u8, u32, Frame)>,
}

impl Gate for Starting {
    ghost may_have_heard = { λ gate told. Unit };

    fn pass(&mut self, point: Point) {
        if point == self.at {
            self.started = started(&mut self.bus);
        }
    }
}

/// A gate by which the transmission fails before an abort: whether it failed, and what was reaped.
#[derive(Drop)]
struct Failing {
    bus: BusSeat,
    failed: bool,
    reaped: Option<(u8, u32)>,
}

impl Gate for Failing {
    ghost may_have_heard = { λ gate told. Unit };

    fn pass(&mut self, point: Point) {
        if point == Point::Abort && self.bus.is_transmitting() {
            self.failed = true;
            self.reaped = self.bus.fail();
        }
    }
}

/// The bus's seat, and those of the routes 0 and 1.
fn two_routes(alloc: Global) -> Result<(BusSeat, RouteSeat, RouteSeat), Fail> {
    let (bus, mut seats) = Mail::new(alloc, 2)?;
    let second = seats.pop().ok_or("no seat")?;
    let first = seats.pop().ok_or("no seat")?;
    Ok((bus, first, second))
}

/// Aborts a request under a number of the route's, past a gate.
fn abort_past<G: Gate>(seat: &mut RouteSeat, number: u32, gate: &mut G) -> Option<AbortOutcome>
    ensures { SameRoute seat.old seat.new }
{
    if number < 1 || seat.last() < number {
        return None;
    }
    Some(seat.abort(number, gate))
}

// Before the first look route 1 takes mailbox 0, and route 0 sees it and takes mailbox 1. Before the claim route 1
// takes mailbox 0, which route 0 saw empty, so that its claim loses. Before either store mailbox 0 is claimed and not
// yet requested. Before the second look route 0 sees the other request, and before the request it loses.
#[test]
fn a_request_passes_each_point_before_its_step(rt: HostRuntime) -> Result<(), Fail> {
    for (at, later, inner, outer) in [
        (
            Point::Look,
            false,
            RequestAnswer::Taken(0),
            RequestAnswer::Taken(1),
        ),
        (
            Point::Claim,
            false,
            RequestAnswer::Taken(0),
            RequestAnswer::Contended(0x0300_0023),
        ),
        (
            Point::Fill,
            false,
            RequestAnswer::Taken(1),
            RequestAnswer::Taken(0),
        ),
        (
            Point::Fill,
            true,
            RequestAnswer::Taken(1),
            RequestAnswer::Taken(0),
        ),
        (
            Point::Look,
            true,
            RequestAnswer::Taken(1),
            RequestAnswer::Taken(0),
        ),
        (
            Point::Request,
            false,
            RequestAnswer::Taken(1),
            RequestAnswer::Contended(0x0400_2301),
        ),
    ] {
        let (_bus, mut first, other) = two_routes(rt.alloc())?;
        let mut gate = Requesting {
            at,
            later,
            other,
            frame: data(2)?,
            answer: None,
        };
        let answer = request(&mut first, 1, data(1)?, &mut gate);
        assert_eq!(rt; gate.answer, Some(Ok(inner)));
        assert_eq!(rt; answer, Some(Ok(outer)));
    }
    Ok(())
}

// Mailbox 0 is still claimed when the withdrawal is passed, so route 1's second request takes mailbox 2.
#[test]
fn a_withdrawal_is_passed_before_it_is_made(rt: HostRuntime) -> Result<(), Fail> {
    let (_bus, mut first, other) = two_routes(rt.alloc())?;
    let mut gate = Twice {
        other,
        frame: data(2)?,
        before_request: None,
        before_withdrawal: None,
    };
    let answer = request(&mut first, 1, data(1)?, &mut gate);
    assert_eq!(rt; answer, Some(Ok(RequestAnswer::Contended(0x0400_2301))));
    assert_eq!(rt; gate.before_request, Some(Ok(RequestAnswer::Taken(1))));
    assert_eq!(rt; gate.before_withdrawal, Some(Ok(RequestAnswer::Taken(2))));
    assert_eq!(rt; taken(&mut first, 1, 1)?, 0);
    Ok(())
}

// Before the look the bus starts the request, and the abort asks for its end. Before the abort it starts the request,
// which was pending by the word looked at, so that the abort loses.
#[test]
fn an_abort_passes_each_point_before_its_step(rt: HostRuntime) -> Result<(), Fail> {
    for (at, wanted) in [
        (Point::Look, AbortOutcome::Asked),
        (Point::Abort, AbortOutcome::Contended(0x0300_000F)),
    ] {
        let (bus, mut first, _second) = two_routes(rt.alloc())?;
        assert_eq!(rt; taken(&mut first, 1, 1)?, 0);
        let mut gate = Starting {
            at,
            bus,
            started: None,
        };
        assert_eq!(rt; abort_past(&mut first, 1, &mut gate), Some(wanted));
        assert_eq!(rt; gate.started, Some((0, 1, data(1)?)));
    }
    Ok(())
}

// The transmission fails before the abort asks for its end: it is not reaped, and the abort loses.
#[test]
fn an_abort_of_a_transmission_is_passed_before_it_asks(rt: HostRuntime) -> Result<(), Fail> {
    let (mut bus, mut first, _second) = two_routes(rt.alloc())?;
    assert_eq!(rt; taken(&mut first, 1, 1)?, 0);
    assert_eq!(rt; started(&mut bus), Some((0, 1, data(1)?)));
    let mut gate = Failing {
        bus,
        failed: false,
        reaped: None,
    };
    let wanted = AbortOutcome::Contended(0x0300_0007);
    assert_eq!(rt; abort_past(&mut first, 1, &mut gate), Some(wanted));
    assert!(rt; gate.failed);
    assert_eq!(rt; gate.reaped, None);
    Ok(())
}

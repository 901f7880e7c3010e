//! Mailboxes in words that threads share: requests by hand, with a gate that makes another seat's request in between.

ghost use Rattle.bx_shared.specs.Sides.{SameRoute};
ghost use Rattle.bx_shared.specs.Calls.{SameMailboxes};

use bx_core::{AbortAnswer, Gate, NoGate, NumberTooLarge, Point, RouteTx, Sent, TxBus};
use bx_mail::{AbortOutcome, BusSeat, Mail, RequestAnswer, RouteSeat};
use can_frame::{Frame, Id};
use std::alloc::Global;
use std::test::Fail;

/// A standard data frame with no bytes.
pub(crate) fn data(number: u16) -> Result<Frame, Fail> {
    Ok(Frame::with_bytes(Id::standard(number)?, &[])?)
}

/// Requests a frame under a number above the last one, as the gate is told.
pub(crate) fn request<G: Gate>(
    seat: &mut RouteSeat,
    number: u32,
    frame: Frame,
    gate: &mut G,
) -> Option<Result<RequestAnswer, NumberTooLarge>>
    ensures { SameRoute seat.old seat.new }
{
    if number <= seat.last() {
        return None;
    }
    Some(seat.request(number, frame, gate))
}

/// The mailbox in which the frame of this identifier is requested.
pub(crate) fn taken(seat: &mut RouteSeat, number: u32, id: u16) -> Result<u8, Fail>
    ensures { SameRoute seat.old seat.new }
{
    match request(seat, number, data(id)?, &mut NoGate) {
        Some(Ok(RequestAnswer::Taken(mailbox))) => Ok(mailbox),
        _ => Err(Fail::new("the request isn't taken")),
    }
}

/// Aborts a request under a number of the route's.
pub(crate) fn abort(seat: &mut RouteSeat, number: u32) -> Option<AbortOutcome>
    ensures { SameRoute seat.old seat.new }
{
    if number < 1 || seat.last() < number {
        return None;
    }
    Some(seat.abort(number, &mut NoGate))
}

/// What the bus starts, where it is ready.
pub(crate) fn started(bus: &mut BusSeat) -> Option<(u8, u32, Frame)>
    ensures { SameMailboxes bus.old bus.new }
{
    if bus.ready() { bus.start() } else { None }
}

/// What is transmitting was sent.
pub(crate) fn complete(bus: &mut BusSeat) -> Result<(), Fail>
    ensures { SameMailboxes bus.old bus.new }
{
    if !bus.is_transmitting() {
        return Err(Fail::new("nothing is transmitting"));
    }
    bus.complete();
    Ok(())
}

/// What is transmitting failed.
pub(crate) fn fail(bus: &mut BusSeat) -> Result<Option<(u8, u32)>, Fail>
    ensures { SameMailboxes bus.old bus.new }
{
    if !bus.is_transmitting() {
        return Err(Fail::new("nothing is transmitting"));
    }
    Ok(bus.fail())
}

/// The bus's seat, and those of the routes 0 and 1.
fn two_routes(alloc: Global) -> Result<(BusSeat, RouteSeat, RouteSeat), Fail> {
    let (bus, mut seats) = Mail::new(alloc, 2)?;
    let second = seats.pop().ok_or("no seat")?;
    let first = seats.pop().ok_or("no seat")?;
    Ok((bus, first, second))
}

/// A gate that has another seat request its number 1, the first time that a call passes this point.
#[derive(Drop)]
struct Between {
    at: Point,
    other: RouteSeat,
    frame: Frame,
    answer: Option<Result<RequestAnswer, NumberTooLarge>>,
}

impl Gate for Between {
    ghost may_have_heard = { λ gate told. Unit };

    fn pass(&mut self, point: Point) {
        if point == self.at && self.answer.is_none() {
            self.answer = request(&mut self.other, 1, self.frame, &mut NoGate);
        }
    }
}

#[test]
fn three_mailboxes_are_taken_in_turn(rt: HostRuntime) -> Result<(), Fail> {
    let (_bus, mut seats) = Mail::new(rt.alloc(), 1)?;
    let mut seat = seats.pop().ok_or("no seat")?;
    assert_eq!(rt; seat.last(), 0);
    for (number, answer) in [
        (1, RequestAnswer::Taken(0)),
        (2, RequestAnswer::Taken(1)),
        (3, RequestAnswer::Taken(2)),
        (4, RequestAnswer::NoRoom),
    ] {
        assert_eq!(rt;
            request(&mut seat, number, data(1)?, &mut NoGate),
            Some(Ok(answer))
        );
    }
    assert_eq!(rt; seat.last(), 3);
    Ok(())
}

// Route 1's request comes between route 0's look and its claim, or between its second look and its request. The word
// that route 0 finds is route 1's: it requests in the mailbox that was still empty.
#[test]
fn a_faster_seat_is_told(rt: HostRuntime) -> Result<(), Fail> {
    for (at, inner, word) in [
        (Point::Claim, RequestAnswer::Taken(0), 0x0300_0023),
        (Point::Request, RequestAnswer::Taken(1), 0x0400_2301),
    ] {
        let (_bus, mut seats) = Mail::new(rt.alloc(), 2)?;
        let other = seats.pop().ok_or("no seat")?;
        let mut seat = seats.pop().ok_or("no seat")?;
        let mut between = Between {
            at,
            other,
            frame: data(2)?,
            answer: None,
        };
        let outer = request(&mut seat, 1, data(1)?, &mut between);
        assert_eq!(rt; outer, Some(Ok(RequestAnswer::Contended(word))));
        assert_eq!(rt; between.answer, Some(Ok(inner)));
        if at == Point::Request {
            let again = request(&mut seat, 1, data(1)?, &mut NoGate);
            assert_eq!(rt; again, Some(Ok(RequestAnswer::Taken(0))));
        }
    }
    Ok(())
}

#[test]
fn the_greatest_number_is_taken(rt: HostRuntime) -> Result<(), Fail> {
    let (_bus, mut seats) = Mail::new(rt.alloc(), 1)?;
    let mut seat = seats.pop().ok_or("no seat")?;
    let greatest = request(&mut seat, 16_777_215, data(1)?, &mut NoGate);
    assert_eq!(rt; greatest, Some(Ok(RequestAnswer::Taken(0))));
    let above = request(&mut seat, 16_777_216, data(1)?, &mut NoGate);
    assert_eq!(rt; above, Some(Err(NumberTooLarge)));
    Ok(())
}

// By identifier the words begin with a count of 0 above bit 27, and each request adds one.
#[test]
fn requests_are_counted_by_identifier(rt: HostRuntime) -> Result<(), Fail> {
    let (_bus, mut seats) = Mail::with_txfp(rt.alloc(), 6, false)?;
    let mut fifth = seats.pop().ok_or("no seat")?;
    let mut between = Between {
        at: Point::Claim,
        other: seats.pop().ok_or("no seat")?,
        frame: data(2)?,
        answer: None,
    };
    let lost = request(&mut fifth, 1, data(1)?, &mut between);
    assert_eq!(rt; between.answer, Some(Ok(RequestAnswer::Taken(0))));
    assert_eq!(rt; lost, Some(Ok(RequestAnswer::Contended(0x1B00_0083))));
    Ok(())
}

#[test]
fn a_request_that_rests_is_aborted(rt: HostRuntime) -> Result<(), Fail> {
    let (mut bus, mut first, _second) = two_routes(rt.alloc())?;
    assert_eq!(rt; taken(&mut first, 1, 0x101)?, 0);
    assert_eq!(rt; abort(&mut first, 1), Some(AbortOutcome::Aborted));
    assert_eq!(rt; started(&mut bus), None);
    Ok(())
}

// What is transmitting is asked to end: it ends sent, or by its failure, which tells of it.
#[test]
fn a_transmission_is_asked_to_end(rt: HostRuntime) -> Result<(), Fail> {
    for fails in [false, true] {
        let (mut bus, mut first, _second) = two_routes(rt.alloc())?;
        assert_eq!(rt; taken(&mut first, 1, 0x101)?, 0);
        assert_eq!(rt; started(&mut bus), Some((0, 1, data(0x101)?)));
        assert_eq!(rt; abort(&mut first, 1), Some(AbortOutcome::Asked));
        if fails {
            assert_eq!(rt; fail(&mut bus)?, Some((0, 1)));
        } else {
            complete(&mut bus)?;
        }
        assert_eq!(rt; abort(&mut first, 1), Some(AbortOutcome::Gone));
    }
    Ok(())
}

// Route 1's request stands in the mailbox from which route 0's was sent, under the same number.
#[test]
fn an_abort_leaves_the_request_of_another_route(rt: HostRuntime) -> Result<(), Fail> {
    let (mut bus, mut first, mut second) = two_routes(rt.alloc())?;
    assert_eq!(rt; taken(&mut first, 1, 0x101)?, 0);
    assert_eq!(rt; started(&mut bus), Some((0, 1, data(0x101)?)));
    complete(&mut bus)?;
    assert_eq!(rt; taken(&mut second, 1, 0x201)?, 0);
    assert_eq!(rt; abort(&mut first, 1), Some(AbortOutcome::Gone));
    assert_eq!(rt; started(&mut bus), Some((1, 1, data(0x201)?)));
    Ok(())
}

// The fourth request is in the lowest mailbox, and is the youngest.
#[test]
fn the_oldest_goes_first(rt: HostRuntime) -> Result<(), Fail> {
    let (mut bus, mut seats) = Mail::new(rt.alloc(), 1)?;
    let mut seat = seats.pop().ok_or("no seat")?;
    assert_eq!(rt; taken(&mut seat, 1, 0x101)?, 0);
    assert_eq!(rt; taken(&mut seat, 2, 0x102)?, 1);
    assert_eq!(rt; taken(&mut seat, 3, 0x103)?, 2);
    assert_eq!(rt; started(&mut bus), Some((0, 1, data(0x101)?)));
    complete(&mut bus)?;
    assert_eq!(rt; taken(&mut seat, 4, 0x104)?, 0);
    assert_eq!(rt; started(&mut bus), Some((0, 2, data(0x102)?)));
    Ok(())
}

// Route 1 takes mailbox 1 while route 0 fills mailbox 0, so route 0 loses its request, and gives mailbox 0 back.
#[test]
fn a_try_that_lost_leaves_no_claim(rt: HostRuntime) -> Result<(), Fail> {
    let (_bus, mut first, other) = two_routes(rt.alloc())?;
    let mut between = Between {
        at: Point::Request,
        other,
        frame: data(0x201)?,
        answer: None,
    };
    let outer = request(&mut first, 1, data(0x101)?, &mut between);
    assert!(rt; matches!(outer, Some(Ok(RequestAnswer::Contended(_)))));
    assert_eq!(rt; between.answer, Some(Ok(RequestAnswer::Taken(1))));
    assert_eq!(rt; taken(&mut between.other, 2, 0x202)?, 0);
    assert_eq!(rt; taken(&mut first, 1, 0x101)?, 2);
    assert_eq!(rt; abort(&mut first, 1), Some(AbortOutcome::Aborted));
    Ok(())
}

// A transmission that failed is tried again, since its identifier is still the least.
#[test]
fn by_identifier_the_least_goes_first(rt: HostRuntime) -> Result<(), Fail> {
    let (mut bus, mut seats) = Mail::with_txfp(rt.alloc(), 1, false)?;
    let mut seat = seats.pop().ok_or("no seat")?;
    assert_eq!(rt; taken(&mut seat, 1, 5)?, 0);
    assert_eq!(rt; taken(&mut seat, 2, 3)?, 1);
    assert_eq!(rt; taken(&mut seat, 3, 7)?, 2);
    assert_eq!(rt; started(&mut bus), Some((0, 2, data(3)?)));
    assert_eq!(rt; fail(&mut bus)?, None);
    assert_eq!(rt; started(&mut bus), Some((0, 2, data(3)?)));
    complete(&mut bus)?;
    assert_eq!(rt; started(&mut bus), Some((0, 1, data(5)?)));
    Ok(())
}

/// A request through the trait, under a number above the last one.
fn send<R>(rt: &R, seat: &mut RouteSeat, number: u32, id: u16) -> Result<Sent, Fail> {
    if number <= seat.last() {
        return Err(Fail::new("the number isn't above the last one"));
    }
    Ok(RouteTx::request(seat, rt, number, data(id)?, &mut NoGate)?)
}

/// An abort through the trait, under a number of the route's.
fn end<R>(rt: &R, seat: &mut RouteSeat, number: u32) -> Option<AbortAnswer> {
    if number < 1 || seat.last() < number {
        return None;
    }
    Some(RouteTx::abort(seat, rt, number, &mut NoGate))
}

#[test]
fn the_seats_are_the_sides_of_mailboxes(rt: HostRuntime) -> Result<(), Fail> {
    let (mut bus, mut first, _second) = two_routes(rt.alloc())?;
    assert_eq!(rt; send(&rt, &mut first, 1, 0x101)?, Sent::Yes);
    assert_eq!(rt; end(&rt, &mut first, 1), Some(AbortAnswer::Ended));
    assert_eq!(rt; end(&rt, &mut first, 1), Some(AbortAnswer::Gone));
    assert_eq!(rt; send(&rt, &mut first, 2, 0x102)?, Sent::Yes);
    assert!(rt; TxBus::ready(&mut bus, &rt));
    assert_eq!(rt; TxBus::start(&mut bus, &rt), Some((0, 2, data(0x102)?)));
    assert_eq!(rt; end(&rt, &mut first, 2), Some(AbortAnswer::Asked));
    assert!(rt; bus.is_transmitting());
    if bus.is_transmitting() {
        assert_eq!(rt; TxBus::fail(&mut bus, &rt), Some((0, 2)));
    }
    Ok(())
}

ghost use Rattle.std.specs.Prelude.{◌≡◌, ◌<◌, IsSome};
ghost use Rattle.bx_core.specs.TxBus.{BusPast, after_complete, after_fail};
ghost use Rattle.bx_core.specs.RouteTx.{RoutePast, after_request};
ghost use Rattle.bx_core.specs.PlainMail.{core_of};
ghost use Rattle.bx_core.specs.Stands.{BusStands};

use bx_core::{
    AbortAnswer, Core, Entry, Event, Gate, Heard, NoGate, NumberTooLarge, PlainMail, PlainRoute,
    Point, Refused, RouteTx, Sent, TxBus,
};
use can_frame::{Frame, Id};
use std::test::Fail;

/// A standard data frame of identifier 0, with no bytes.
fn empty_frame() -> Result<Frame, Fail> {
    Ok(Frame::with_bytes(Id::standard(0)?, &[])?)
}

pub(crate) fn claim(mailbox: u8) -> Event {
    Event::Claim { route: 0, mailbox }
}

pub(crate) fn request(mailbox: u8, number: u32, frame: Frame) -> Event {
    Event::Request {
        route: 0,
        mailbox,
        number,
        frame,
    }
}

fn withdraw(mailbox: u8) -> Event {
    Event::Withdraw { route: 0, mailbox }
}

pub(crate) fn schedule(mailbox: u8) -> Event {
    Event::Schedule { mailbox }
}

pub(crate) fn start(mailbox: u8) -> Event {
    Event::Start { mailbox }
}

pub(crate) fn complete(mailbox: u8) -> Event {
    Event::Complete { mailbox }
}

fn fail(mailbox: u8) -> Event {
    Event::Fail { mailbox }
}

fn abort(mailbox: u8) -> Event {
    Event::Abort { route: 0, mailbox }
}

/// The code's number of what an event answers, 0 where it is taken, and 99 out of range.
pub(crate) fn answer(core: &mut Core, event: Event) -> u8 {
    if !core.is_in_range(&event) {
        return 99;
    }
    match core.apply(event) {
        Ok(()) => 0,
        Err(Refused::NotEmpty) => 1,
        Err(Refused::NotOwner) => 2,
        Err(Refused::NotOldest) => 3,
        Err(Refused::WrongState) => 4,
        Err(Refused::NumberOrder) => 5,
        Err(Refused::Memory) => 6,
    }
}

#[test]
fn sends_one_frame(rt: HostRuntime) -> Result<(), Fail> {
    let mut core = Core::new(rt.alloc(), 2);
    let frame = empty_frame()?;
    for (event, want) in [
        (claim(0), 0),
        (request(0, 1, frame), 0),
        (start(0), 4),
        (schedule(0), 0),
        (start(0), 0),
        (complete(0), 0),
    ] {
        assert_eq!(rt; answer(&mut core, event), want);
    }
    assert!(rt; core.routes() == 2);
    let sent = Entry { number: 1, frame };
    assert!(rt; core.requested(0) == [sent].as_slice());
    assert!(rt; core.done(0) == [sent].as_slice());
    assert!(rt; core.aborted(0).is_empty() && core.reaped(0).is_empty());
    assert!(rt; core.waiting(0).is_empty());
    assert_eq!(rt; core.last_number(0), 1);
    assert!(rt; core.requested(1).is_empty() && core.done(1).is_empty());
    assert!(rt; core.aborted(1).is_empty() && core.reaped(1).is_empty());
    assert!(rt; core.waiting(1).is_empty());
    assert_eq!(rt; core.last_number(1), 0);
    Ok(())
}

/// A request that is refused memory leaves all as before, its claim too, and the next one is taken: where one
/// allocation is refused, at most one request is.
#[test]
fn goes_on_where_memory_is_refused(rt: HostRuntime) -> Result<(), Fail> {
    let mut core = Core::new(rt.alloc(), 1);
    let frame = empty_frame()?;
    let mut last = 0;
    let mut refused = 0u32;
    for number in 1..=6 {
        assert_eq!(rt; answer(&mut core, claim(0)), 0);
        let answered = answer(&mut core, request(0, number, frame));
        assert!(rt; answered == 0 || answered == 6);
        if answered == 0 {
            last = number;
        } else {
            refused = refused.saturating_add(1);
        }
        assert!(rt; core.routes() == 1);
        assert_eq!(rt; core.last_number(0), last);
        assert_eq!(rt; core.waiting(0).is_empty(), answered == 6);
        let (bus, route) = if answered == 0 { (0, 2) } else { (4, 0) };
        assert_eq!(rt; answer(&mut core, schedule(0)), bus);
        assert_eq!(rt; answer(&mut core, start(0)), bus);
        assert_eq!(rt; answer(&mut core, complete(0)), bus);
        assert_eq!(rt; answer(&mut core, withdraw(0)), route);
        assert!(rt; core.routes() == 1);
        assert!(rt; core.done(0) == core.requested(0));
        assert!(rt; core.aborted(0).is_empty() && core.reaped(0).is_empty());
    }
    assert!(rt; refused <= 1);
    Ok(())
}

#[test]
fn prints_its_code(rt: HostRuntime) -> Result<(), Fail> {
    for (refused, want) in [
        (Refused::NotEmpty, "C1"),
        (Refused::NotOwner, "C2"),
        (Refused::NotOldest, "C3"),
        (Refused::WrongState, "C4"),
        (Refused::NumberOrder, "C5"),
        (Refused::Memory, "C6"),
    ] {
        let text = format!(in rt.alloc(); "{refused}")?;
        assert_eq!(rt; text.as_str(), want);
    }
    Ok(())
}

/// Keeps how many points it was told of, and the last one.
#[derive(Drop)]
struct Ears {
    told: u32,
    last: Option<Point>,
}

impl Gate for Ears {
    ghost may_have_heard = { λ gate told. Unit };

    fn pass(&mut self, point: Point) {
        self.told = self.told.saturating_add(1);
        self.last = Some(point);
    }
}

/// A request of any route.
fn ask<R, T: RouteTx<R>, G: Gate>(
    rt: &R,
    tx: &mut T,
    number: u32,
    frame: Frame,
    gate: &mut G,
) -> Result<Sent, NumberTooLarge>
    requires { T.last tx.old < number }
    ensures past { (past : RoutePast) → T.route_after tx.old past
        → T.route_after tx.new (after_request past number frame result) }
    ensures stays { T.stays tx.old tx.new }
{
    tx.request(rt, number, frame, gate)
}

/// A request of a route, where it may be made: what the bus side may have done stays.
pub(crate) fn asks<G: Gate>(
    rt: &HostRuntime,
    mail: &mut PlainMail,
    route: u8,
    number: u32,
    frame: Frame,
    gate: &mut G,
) -> Option<Result<Sent, NumberTooLarge>>
    ensures { (past : BusPast) → BusStands (core_of mail.old) past → BusStands (core_of mail.new) past }
{
    if route >= mail.core().routes() {
        return None;
    }
    if number <= mail.core().last_number(route) {
        return None;
    }
    let mut side = PlainRoute { mail, route };
    Some(ask(rt, &mut side, number, frame, gate))
}

/// An abort of a route, where it may be made.
pub(crate) fn aborts(
    rt: &HostRuntime,
    mail: &mut PlainMail,
    route: u8,
    number: u32,
) -> Option<AbortAnswer> {
    if route >= mail.core().routes() {
        return None;
    }
    if number == 0 {
        return None;
    }
    if number > mail.core().last_number(route) {
        return None;
    }
    let mut side = PlainRoute { mail, route };
    Some(side.abort(rt, number, &mut NoGate))
}

/// A failure, where a request is transmitting.
pub(crate) fn fails<R, B: TxBus<R>>(rt: &R, bus: &mut B) -> Option<(u8, u32)>
    requires { IsSome (B.transmitting bus.old) }
    ensures past { (past : BusPast) → B.bus_after bus.old past
        → B.bus_after bus.new (after_fail past result) }
{
    bus.fail(rt)
}

#[test]
fn serves_two_routes(rt: HostRuntime) -> Result<(), Fail> {
    let mut mail = PlainMail::new(rt.alloc(), 2);
    let frame = empty_frame()?;
    let mut ears = Ears {
        told: 0,
        last: None,
    };
    for (route, number, told, heard) in [
        (0, 1, 1, Heard::In(0)),
        (0, 2, 2, Heard::In(1)),
        (1, 1, 3, Heard::In(2)),
        (0, 3, 4, Heard::Not),
    ] {
        let sent = if told < 4 { Sent::Yes } else { Sent::NotNow };
        assert_eq!(rt;
            asks(&rt, &mut mail, route, number, frame, &mut ears),
            Some(Ok(sent))
        );
        assert_eq!(rt; ears.told, told);
        assert_eq!(rt; ears.last, Some(Point::Answered(heard)));
    }
    assert!(rt; mail.ready(&rt));
    assert_eq!(rt; mail.start(&rt), Some((0, 1, frame)));
    assert_eq!(rt; aborts(&rt, &mut mail, 0, 1), Some(AbortAnswer::Asked));
    assert_eq!(rt; aborts(&rt, &mut mail, 0, 2), Some(AbortAnswer::Ended));
    assert!(rt; mail.is_transmitting());
    assert_eq!(rt; fails(&rt, &mut mail), Some((0, 1)));
    assert_eq!(rt; aborts(&rt, &mut mail, 0, 1), Some(AbortAnswer::Gone));
    assert!(rt; mail.ready(&rt));
    assert_eq!(rt; mail.start(&rt), Some((1, 1, frame)));
    assert!(rt; !mail.short());
    Ok(())
}

/// A completion, where a request is transmitting.
pub(crate) fn completes<R, B: TxBus<R>>(rt: &R, bus: &mut B)
    requires { IsSome (B.transmitting bus.old) }
    ensures past { (past : BusPast) → B.bus_after bus.old past
        → B.bus_after bus.new (after_complete past (B.transmitting bus.old)) }
{
    bus.complete(rt);
}

#[test]
fn sends_in_order_of_requests(rt: HostRuntime) -> Result<(), Fail> {
    let mut mail = PlainMail::new(rt.alloc(), 2);
    let frame = empty_frame()?;
    assert_eq!(rt;
        asks(&rt, &mut mail, 1, 7, frame, &mut NoGate),
        Some(Ok(Sent::Yes))
    );
    assert_eq!(rt;
        asks(&rt, &mut mail, 0, 16_777_215, frame, &mut NoGate),
        Some(Ok(Sent::Yes))
    );
    let too_large = asks(&rt, &mut mail, 1, 16_777_216, frame, &mut NoGate);
    assert_eq!(rt; too_large, Some(Err(NumberTooLarge)));
    assert!(rt; mail.start(&rt).is_none());
    assert!(rt; mail.ready(&rt));
    assert_eq!(rt; mail.start(&rt), Some((1, 7, frame)));
    assert!(rt; !mail.ready(&rt));
    assert!(rt; mail.start(&rt).is_none());
    assert!(rt; mail.is_transmitting());
    completes(&rt, &mut mail);
    assert!(rt; mail.ready(&rt));
    assert_eq!(rt; mail.start(&rt), Some((0, 16_777_215, frame)));
    assert!(rt; mail.is_transmitting());
    assert!(rt; mail.fail(&rt).is_none());
    assert!(rt; mail.ready(&rt));
    assert!(rt; mail.core().routes() == 2);
    assert!(rt; mail.core().done(1) == [Entry { number: 7, frame }].as_slice());
    assert!(rt; mail.core().waiting(0).as_slice() == [16_777_215].as_slice());
    assert_eq!(rt;
        mail.core().first().map(|first| first.number),
        Some(16_777_215)
    );
    let text = format!(in rt.alloc(); "{NumberTooLarge}")?;
    assert_eq!(rt; text.as_str(), "M1");
    Ok(())
}

/// A request that is refused memory is answered `NotNow`; the mail is short from then on, and else as before,
/// so the next request is sent.
#[test]
fn is_short_where_memory_is_refused(rt: HostRuntime) -> Result<(), Fail> {
    let mut mail = PlainMail::new(rt.alloc(), 1);
    let frame = empty_frame()?;
    let mut refused = 0u32;
    for number in 1..=6 {
        let short = mail.short();
        let answer = asks(&rt, &mut mail, 0, number, frame, &mut NoGate);
        let sent = answer == Some(Ok(Sent::Yes));
        assert!(rt; sent || answer == Some(Ok(Sent::NotNow)));
        if !sent {
            refused = refused.saturating_add(1);
        }
        assert!(rt; mail.short() == (short || !sent));
        assert!(rt; mail.ready(&rt) == sent);
        let started = if sent { Some((0, number, frame)) } else { None };
        assert!(rt; mail.start(&rt) == started);
        assert!(rt; mail.is_transmitting() == sent);
        if mail.is_transmitting() {
            mail.complete(&rt);
        }
        assert!(rt; mail.core().waiting(0).is_empty());
    }
    assert!(rt; refused <= 1);
    assert!(rt; mail.core().routes() == 1);
    assert!(rt; mail.core().done(0) == mail.core().requested(0));
    Ok(())
}

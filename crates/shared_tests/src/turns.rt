ghost use Rattle.std.specs.Prelude.{◌≡◌, ◌<◌, ◌≤◌, IfOk, length};
ghost use Rattle.bx_core.specs.PlainMail.{core_of};
ghost use Rattle.bx_core.specs.RouteTx.{no_route_past};
ghost use Rattle.bx_core.specs.Stands.{RouteStands};
ghost use Rattle.bx_shared.specs.Sides.{RouteAfter};
ghost use Rattle.gw_route.specs.RouteHand.{hand_value, IsLinked};

use crate::shared::{complete, started};
use arrayvec::ArrayVec;
use bx_core::{Entry, NoGate, PlainMail, PlainRoute, TxBus};
use bx_mail::{BusSeat, Mail, RouteSeat};
use bx_rx::{Memory, RxFifo, RxFrame};
use can_frame::{Frame, Id, Rewrite};
use gw_route::{RouteAbort, RouteHand, TurnAnswer};
use std::alloc::Global;
use std::sync::Wait;
use std::test::Fail;

/// A data frame of this identifier, with no bytes.
fn data(number: u16) -> Result<Frame, Fail> {
    Ok(Frame::with_bytes(Id::standard(number)?, &[])?)
}

fn received(frame: Frame) -> RxFrame {
    RxFrame {
        frame,
        filter_number: 0,
    }
}

/// A turn of a hand into route 0 of a mail.
fn turns<R: Wait>(rt: &R, hand: &mut RouteHand, mail: &mut PlainMail) -> Result<TurnAnswer, Memory>
    requires route { 0 < length (core_of mail.old).routes }
    requires linked { IsLinked (RouteStands (core_of mail.old) 0) (hand_value hand.old) }
    ensures route { 0 < length (core_of mail.new).routes }
    ensures linked { IsLinked (RouteStands (core_of mail.new) 0) (hand_value hand.new) }
{
    let mut side = PlainRoute { mail, route: 0 };
    hand.turn(rt, &mut side, &mut NoGate)
}

/// Fills the queue of a hand into route 0 of a mail.
fn fill<R: Wait>(rt: &R, hand: &mut RouteHand, mail: &PlainMail) -> Result<(), Memory>
    requires linked { IsLinked (RouteStands (core_of mail.now) 0) (hand_value hand.old) }
    ensures linked { IsLinked (RouteStands (core_of mail.now) 0) (hand_value hand.new) }
{
    let _ = mail;
    hand.fill(rt)
}

/// So many idle turns of a hand that waits for a frame and made none yet.
fn idle(hand: &mut RouteHand, mail: &PlainMail, more: u64)
    requires linked { IsLinked (RouteStands (core_of mail.now) 0) (hand_value hand.old) }
    ensures linked { IsLinked (RouteStands (core_of mail.now) 0) (hand_value hand.new) }
{
    let _ = mail;
    if !hand.waits_for_frame() || hand.turns != 0 {
        return;
    }
    hand.idle(more);
}

#[test]
fn a_frame_is_released_and_requested(rt: HostRuntime) -> Result<(), Fail> {
    let (mut rxin, rxout) = RxFifo::pair(rt.alloc())?;
    let mut mail = PlainMail::new(rt.alloc(), 1);
    let mut hand = RouteHand::new(rt.alloc(), rxout, Vec::new(rt.alloc()), ArrayVec::new());
    let frame = data(5)?;
    rxin.offer(&rt, received(frame));
    assert_eq!(rt; turns(&rt, &mut hand, &mut mail), Ok(TurnAnswer::Requested));
    assert!(rt; hand.hand.is_none());
    assert_eq!(rt; turns(&rt, &mut hand, &mut mail), Ok(TurnAnswer::Idle));
    assert_eq!(rt; (hand.tickets, hand.turns), (1, 2));
    Ok(())
}

#[test]
fn a_refused_frame_waits_until_an_abort(rt: HostRuntime) -> Result<(), Fail> {
    let (mut rxin, rxout) = RxFifo::pair(rt.alloc())?;
    let mut mail = PlainMail::new(rt.alloc(), 1);
    let mut aborts = Vec::new(rt.alloc());
    aborts.push(RouteAbort { number: 2, turn: 5 })?;
    aborts.push(RouteAbort { number: 2, turn: 1 })?;
    let mut hand = RouteHand::new(rt.alloc(), rxout, aborts, ArrayVec::new());
    let frame = data(5)?;
    rxin.offer(&rt, received(frame));
    rxin.offer(&rt, received(frame));
    rxin.offer(&rt, received(frame));
    assert_eq!(rt; turns(&rt, &mut hand, &mut mail), Ok(TurnAnswer::Requested));
    assert_eq!(rt; turns(&rt, &mut hand, &mut mail), Ok(TurnAnswer::Requested));
    assert_eq!(rt; turns(&rt, &mut hand, &mut mail), Ok(TurnAnswer::Requested));
    rxin.offer(&rt, received(frame));
    assert_eq!(rt; turns(&rt, &mut hand, &mut mail), Ok(TurnAnswer::Waiting));
    assert!(rt; hand.hand == Some(Entry { number: 4, frame }));
    // turn 5 ends number 2, and in turn 6 that number is gone
    assert_eq!(rt; turns(&rt, &mut hand, &mut mail), Ok(TurnAnswer::AbortDone));
    assert_eq!(rt; turns(&rt, &mut hand, &mut mail), Ok(TurnAnswer::AbortDone));
    assert!(rt; hand.log.aborted.as_slice() == [2].as_slice());
    assert_eq!(rt; turns(&rt, &mut hand, &mut mail), Ok(TurnAnswer::Requested));
    assert!(rt; mail.core().waiting(0).as_slice() == [1, 3, 4].as_slice());
    Ok(())
}

/// Before its number is given out an abort doesn't come due, so that a hand waits for a frame, and idle turns may be
/// counted at once; from then on it may.
#[test]
fn idle_turns_are_counted_at_once(rt: HostRuntime) -> Result<(), Fail> {
    let (mut rxin, rxout) = RxFifo::pair(rt.alloc())?;
    let mut mail = PlainMail::new(rt.alloc(), 1);
    let mut aborts = Vec::new(rt.alloc());
    aborts.push(RouteAbort { number: 1, turn: 9 })?;
    let mut hand = RouteHand::new(rt.alloc(), rxout, aborts, ArrayVec::new());
    assert!(rt; hand.waits_for_frame());
    idle(&mut hand, &mail, 5);
    assert_eq!(rt; hand.turns, 5);
    let frame = data(5)?;
    rxin.offer(&rt, received(frame));
    assert_eq!(rt; turns(&rt, &mut hand, &mut mail), Ok(TurnAnswer::Requested));
    assert!(rt; !hand.waits_for_frame());
    assert_eq!(rt; turns(&rt, &mut hand, &mut mail), Ok(TurnAnswer::Idle));
    assert_eq!(rt; turns(&rt, &mut hand, &mut mail), Ok(TurnAnswer::Idle));
    assert_eq!(rt; turns(&rt, &mut hand, &mut mail), Ok(TurnAnswer::AbortDone));
    assert!(rt; hand.log.aborted.as_slice() == [1].as_slice());
    Ok(())
}

/// The first entry for an identifier counts, and once: 5 becomes 6, and not 7.
#[test]
fn a_frame_is_requested_under_its_new_identifier(rt: HostRuntime) -> Result<(), Fail> {
    let (mut rxin, rxout) = RxFifo::pair(rt.alloc())?;
    let mut mail = PlainMail::new(rt.alloc(), 1);
    let mut rewrites = ArrayVec::new();
    for (from, to) in [(5u16, 6u16), (5, 8), (6, 7)] {
        if !rewrites.is_full() {
            let from = Id::standard(from)?;
            let to = Id::standard(to)?;
            rewrites.push(Rewrite { from, to });
        }
    }
    let mut hand = RouteHand::new(rt.alloc(), rxout, Vec::new(rt.alloc()), rewrites);
    let frame = data(5)?;
    rxin.offer(&rt, received(frame));
    assert_eq!(rt; turns(&rt, &mut hand, &mut mail), Ok(TurnAnswer::Requested));
    let sent = data(6)?;
    assert!(rt; mail.ready(&rt));
    assert!(rt; mail.start(&rt) == Some((0, 1, sent)));
    assert!(rt; hand.log.released.as_slice() == [frame].as_slice());
    Ok(())
}

/// A queue of two is filled up to two frames, which are numbered as they come, and turns request the older one.
#[test]
fn a_queue_is_filled_and_requested_in_order(rt: HostRuntime) -> Result<(), Fail> {
    let (mut rxin, rxout) = RxFifo::pair(rt.alloc())?;
    let mut mail = PlainMail::new(rt.alloc(), 1);
    let aborts = Vec::new(rt.alloc());
    let mut hand = RouteHand::with_queue(rt.alloc(), rxout, Some(2), aborts, ArrayVec::new());
    let frames = [data(5)?, data(6)?, data(7)?];
    for frame in frames {
        rxin.offer(&rt, received(frame));
    }
    // a turn takes nothing out of the FIFO
    assert_eq!(rt; turns(&rt, &mut hand, &mut mail), Ok(TurnAnswer::Idle));
    assert_eq!(rt; (hand.held(), hand.tickets), (0, 0));
    fill(&rt, &mut hand, &mail)?;
    assert_eq!(rt; (hand.held(), hand.tickets), (2, 2));
    fill(&rt, &mut hand, &mail)?;
    assert_eq!(rt; (hand.held(), hand.tickets), (2, 2));
    assert_eq!(rt; turns(&rt, &mut hand, &mut mail), Ok(TurnAnswer::Requested));
    assert_eq!(rt; hand.held(), 1);
    fill(&rt, &mut hand, &mail)?;
    assert_eq!(rt; (hand.held(), hand.tickets), (2, 3));
    assert!(rt; !hand.waits_for_frame());
    assert_eq!(rt; turns(&rt, &mut hand, &mut mail), Ok(TurnAnswer::Requested));
    assert_eq!(rt; turns(&rt, &mut hand, &mut mail), Ok(TurnAnswer::Requested));
    fill(&rt, &mut hand, &mail)?;
    assert_eq!(rt; turns(&rt, &mut hand, &mut mail), Ok(TurnAnswer::Idle));
    assert!(rt; hand.waits_for_frame());
    assert!(rt; hand.log.released.as_slice() == frames.as_slice());
    let waiting: [(u32, Frame); 3] = [(1, frames[0]), (2, frames[1]), (3, frames[2])];
    for (number, frame) in waiting {
        assert!(rt; mail.ready(&rt));
        assert!(rt; mail.start(&rt) == Some((0, number, frame)));
        if mail.is_transmitting() {
            mail.complete(&rt);
        }
    }
    Ok(())
}

/// Without a queue nothing is filled.
#[test]
fn a_hand_without_a_queue_is_not_filled(rt: HostRuntime) -> Result<(), Fail> {
    let (mut rxin, rxout) = RxFifo::pair(rt.alloc())?;
    let mut mail = PlainMail::new(rt.alloc(), 1);
    let mut hand = RouteHand::new(rt.alloc(), rxout, Vec::new(rt.alloc()), ArrayVec::new());
    rxin.offer(&rt, received(data(5)?));
    fill(&rt, &mut hand, &mail)?;
    assert_eq!(rt; (hand.held(), hand.tickets), (0, 0));
    assert_eq!(rt; turns(&rt, &mut hand, &mut mail), Ok(TurnAnswer::Requested));
    Ok(())
}

/// What the FIFO has is released by the first turn that memory isn't refused to.
#[test]
fn a_turn_that_is_refused_memory_changes_nothing(rt: HostRuntime) -> Result<(), Fail> {
    let Ok((mut rxin, rxout)) = RxFifo::pair(rt.alloc()) else {
        return Ok(());
    };
    let mut mail = PlainMail::new(rt.alloc(), 1);
    let mut hand = RouteHand::new(rt.alloc(), rxout, Vec::new(rt.alloc()), ArrayVec::new());
    let frame = data(5)?;
    rxin.offer(&rt, received(frame));
    let first = turns(&rt, &mut hand, &mut mail);
    if first == Err(Memory) {
        assert!(rt; hand.hand.is_none() && hand.log.released.is_empty());
        assert_eq!(rt; (hand.tickets, hand.turns), (0, 0));
    }
    let second = turns(&rt, &mut hand, &mut mail);
    if first == Ok(TurnAnswer::Requested) {
        assert_eq!(rt; second, Ok(TurnAnswer::Idle));
        return Ok(());
    }
    if first == Ok(TurnAnswer::Waiting) {
        assert!(rt; mail.short());
    } else {
        assert_eq!(rt; first, Err(Memory));
    }
    assert_eq!(rt; second, Ok(TurnAnswer::Requested));
    assert!(rt; hand.log.released.as_slice() == [frame].as_slice());
    assert_eq!(rt; hand.tickets, 1);
    Ok(())
}

/// The seats at new mailboxes that threads may share, for one route.
fn seats(alloc: Global) -> Result<(BusSeat, RouteSeat), Fail>
    ensures { IfOk result (λ made. RouteAfter made.1 no_route_past) }
{
    let (bus, mut seats) = Mail::new(alloc, 1)?;
    match seats.pop() {
        Some(seat) => Ok((bus, seat)),
        None => Err(Fail::new("no seat")),
    }
}

/// A turn of a hand into the mailboxes of this seat.
fn turns_at<R: Wait>(
    rt: &R,
    hand: &mut RouteHand,
    seat: &mut RouteSeat,
) -> Result<TurnAnswer, Memory>
    requires { IsLinked (RouteAfter seat.old) (hand_value hand.old) }
    ensures { IsLinked (RouteAfter seat.new) (hand_value hand.new) }
{
    hand.turn(rt, seat, &mut NoGate)
}

/// The fourth frame waits in the hand until the first was sent, and then has its mailbox.
#[test]
fn a_refused_frame_waits_until_a_shared_mailbox_is_empty(rt: HostRuntime) -> Result<(), Fail> {
    let (mut rxin, rxout) = RxFifo::pair(rt.alloc())?;
    let (mut bus, mut seat) = seats(rt.alloc())?;
    let mut hand = RouteHand::new(rt.alloc(), rxout, Vec::new(rt.alloc()), ArrayVec::new());
    let frame = data(5)?;
    for _ in 0..3 {
        rxin.offer(&rt, received(frame));
    }
    assert_eq!(rt;
        turns_at(&rt, &mut hand, &mut seat),
        Ok(TurnAnswer::Requested)
    );
    assert_eq!(rt;
        turns_at(&rt, &mut hand, &mut seat),
        Ok(TurnAnswer::Requested)
    );
    assert_eq!(rt;
        turns_at(&rt, &mut hand, &mut seat),
        Ok(TurnAnswer::Requested)
    );
    assert_eq!(rt; turns_at(&rt, &mut hand, &mut seat), Ok(TurnAnswer::Idle));
    rxin.offer(&rt, received(frame));
    assert_eq!(rt;
        turns_at(&rt, &mut hand, &mut seat),
        Ok(TurnAnswer::Waiting)
    );
    assert!(rt; hand.hand == Some(Entry { number: 4, frame }));
    assert_eq!(rt; started(&mut bus), Some((0, 1, frame)));
    assert_eq!(rt;
        turns_at(&rt, &mut hand, &mut seat),
        Ok(TurnAnswer::Waiting)
    );
    complete(&mut bus)?;
    assert_eq!(rt;
        turns_at(&rt, &mut hand, &mut seat),
        Ok(TurnAnswer::Requested)
    );
    assert_eq!(rt; started(&mut bus), Some((0, 2, frame)));
    Ok(())
}

use crate::mailboxes::{
    aborts, answer, asks, claim, complete, completes, fails, request, schedule, start,
};
use bx_core::{AbortAnswer, Core, Entry, NoGate, PlainMail, Sent, TxBus};
use can_frame::{Frame, Id};
use std::test::Fail;

/// A standard data frame with no bytes.
fn frame_of(number: u16) -> Result<Frame, Fail> {
    Ok(Frame::with_bytes(Id::standard(number)?, &[])?)
}

/// Of equal identifiers the lower mailbox goes, also where the other is older. What is scheduled stays
/// so, and no other is scheduled beside it, though its identifier is lower.
#[test]
fn schedules_one_of_equal_identifiers(rt: HostRuntime) -> Result<(), Fail> {
    let mut core = Core::with_txfp(rt.alloc(), 1, false);
    let high = frame_of(1)?;
    let low = frame_of(0)?;
    for (event, want) in [
        (claim(1), 0),
        (request(1, 1, high), 0),
        (claim(0), 0),
        (request(0, 2, high), 0),
        (schedule(1), 3),
        (schedule(0), 0),
        (claim(2), 0),
        (request(2, 3, low), 0),
        (schedule(2), 3),
        (schedule(0), 4),
        (start(0), 0),
        (schedule(2), 3),
        (complete(0), 0),
        (schedule(1), 3),
        (schedule(2), 0),
    ] {
        assert_eq!(rt; answer(&mut core, event), want);
    }
    assert_eq!(rt; core.on_bus(), None);
    let scheduled = core.in_turn().map(|waiting| waiting.number);
    assert_eq!(rt; scheduled, Some(3));
    Ok(())
}

/// What failed is tried again before a lower identifier that came meanwhile, unless its abort was asked.
#[test]
fn tries_again_what_failed(rt: HostRuntime) -> Result<(), Fail> {
    let mut mail = PlainMail::with_txfp(rt.alloc(), 1, false);
    let high = frame_of(1)?;
    let low = frame_of(0)?;
    for (number, frame) in [(1, high), (2, low)] {
        let sent = asks(&rt, &mut mail, 0, number, frame, &mut NoGate);
        assert_eq!(rt; sent, Some(Ok(Sent::Yes)));
        assert!(rt; mail.ready(&rt));
    }
    for _ in 0..2 {
        assert_eq!(rt; mail.start(&rt), Some((0, 1, high)));
        assert!(rt; !mail.ready(&rt));
        assert!(rt; mail.is_transmitting());
        assert_eq!(rt; fails(&rt, &mut mail), None);
        assert!(rt; mail.ready(&rt));
    }
    assert_eq!(rt; mail.start(&rt), Some((0, 1, high)));
    assert_eq!(rt; aborts(&rt, &mut mail, 0, 1), Some(AbortAnswer::Asked));
    assert!(rt; mail.is_transmitting());
    assert_eq!(rt; fails(&rt, &mut mail), Some((0, 1)));
    assert!(rt; mail.ready(&rt));
    assert_eq!(rt; mail.start(&rt), Some((0, 2, low)));
    assert!(rt; mail.is_transmitting());
    completes(&rt, &mut mail);
    assert!(rt; !mail.ready(&rt));
    Ok(())
}

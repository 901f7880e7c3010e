//! Mailboxes over a post, by hand.

use bx_core::{AbortAnswer, Gate, Heard, NoGate, Point, Sent, TxBus};
use bx_mail::{Post, PostRoute, RouteCounts};
use can_frame::{Frame, Id, Memory};
use std::sync::Wait;
use std::test::Fail;

/// A standard data frame with no bytes.
fn data(number: u16) -> Result<Frame, Fail> {
    Ok(Frame::with_bytes(Id::standard(number)?, &[])?)
}

/// Requests the frame of this identifier.
fn request<R: Wait>(rt: &R, side: &mut PostRoute, number: u32, id: u16) -> Result<Sent, Fail> {
    if number <= side.last() {
        return Err(Fail::new("the number isn't above the last one"));
    }
    Ok(side.request(rt, number, data(id)?, &mut NoGate)?)
}

// Route 0 requests 1, 2 and 4, route 1 requests 1, and route 0 takes its 2 back: so 1 of route 0, 1 of route 1 and 4 of
// route 0 are sent, in this order. The first fails once, and is tried again before all others.
#[test]
fn requests_are_sent_in_the_order_of_posts(rt: HostRuntime) -> Result<(), Fail> {
    let (mut bus, mut sides) = Post::new(rt.alloc(), 2)?;
    let mut second = sides.pop().ok_or("no side")?;
    let mut first = sides.pop().ok_or("no side")?;
    assert!(rt; !bus.ready(&rt));
    assert_eq!(rt; request(&rt, &mut first, 1, 0x101)?, Sent::Yes);
    assert_eq!(rt; request(&rt, &mut first, 2, 0x102)?, Sent::Yes);
    assert_eq!(rt; request(&rt, &mut second, 1, 0x201)?, Sent::Yes);
    assert_eq!(rt; request(&rt, &mut first, 4, 0x104)?, Sent::Yes);
    assert!(rt; bus.ready(&rt));
    assert_eq!(rt; bus.start(&rt), Some((0, 1, data(0x101)?)));
    if bus.is_transmitting() {
        assert_eq!(rt; bus.fail(&rt), None);
    }
    assert!(rt; bus.ready(&rt));
    assert_eq!(rt; bus.start(&rt), Some((0, 1, data(0x101)?)));
    if bus.is_transmitting() {
        bus.complete(&rt);
    }
    if first.last() >= 2 {
        assert_eq!(rt; first.abort(&rt, 2, &mut NoGate), AbortAnswer::Asked);
    }
    for want in [(1, 1, data(0x201)?), (0, 4, data(0x104)?)] {
        assert!(rt; bus.ready(&rt));
        assert_eq!(rt; bus.start(&rt), Some(want));
        if bus.is_transmitting() {
            bus.complete(&rt);
        }
    }
    assert!(rt; !bus.ready(&rt));
    assert_eq!(rt; bus.start(&rt), None);
    Ok(())
}

// With ample memory there is a post for each route, and without there is `Memory`.
#[test]
fn a_post_is_made_or_memory_is_refused(rt: HostRuntime) -> Result<(), Fail> {
    match Post::new(rt.alloc(), 2) {
        Ok((_bus, sides)) => assert_eq!(rt; sides.len(), 2),
        Err(refused) => assert_eq!(rt; refused, Memory),
    }
    Ok(())
}

// The queue has eight places.
#[test]
fn the_ninth_post_is_not_taken(rt: HostRuntime) -> Result<(), Fail> {
    let (mut bus, mut sides) = Post::new(rt.alloc(), 1)?;
    let mut side = sides.pop().ok_or("no side")?;
    for number in 1..=8u32 {
        assert_eq!(rt; request(&rt, &mut side, number, 0x100)?, Sent::Yes);
    }
    assert_eq!(rt; request(&rt, &mut side, 9, 0x100)?, Sent::NotNow);
    assert_eq!(rt; side.last(), 8);
    assert!(rt; bus.ready(&rt));
    assert_eq!(rt; request(&rt, &mut side, 9, 0x100)?, Sent::Yes);
    Ok(())
}

/// A gate that counts, and keeps the last two points.
#[derive(Drop)]
struct Ears {
    last: Option<Point>,
    before: Option<Point>,
}

impl Gate for Ears {
    ghost may_have_heard = { λ gate told. Unit };

    fn pass(&mut self, point: Point) {
        self.before = self.last;
        self.last = Some(point);
    }
}

#[test]
fn a_number_of_25_bits_is_refused(rt: HostRuntime) -> Result<(), Fail> {
    let (_bus, mut sides) = Post::new(rt.alloc(), 1)?;
    let mut side = sides.pop().ok_or("no side")?;
    let mut ears = Ears {
        last: None,
        before: None,
    };
    if side.last() < 1 {
        assert!(rt; side.request(&rt, 16_777_216, data(1)?, &mut ears).is_err());
        assert!(rt; ears.last.is_none());
    }
    if side.last() < 1 {
        assert!(rt; side.request(&rt, 16_777_215, data(1)?, &mut ears).is_ok());
        assert_eq!(rt; ears.before, Some(Point::Post));
        assert_eq!(rt; ears.last, Some(Point::Answered(Heard::Posted)));
    }
    Ok(())
}

// With ample memory there is a set that leaves nothing, and without there is `Memory`.
#[test]
fn a_set_is_made_and_closed(rt: HostRuntime) -> Result<(), Fail> {
    let (bus, sides) = Post::new(rt.alloc(), 3)?;
    let closed = Post::close(&rt, bus, sides);
    assert_eq!(rt; closed.left.len(), 0);
    assert_eq!(rt;
        closed.routes.as_slice(),
        [RouteCounts::default(); 3].as_slice()
    );
    Ok(())
}

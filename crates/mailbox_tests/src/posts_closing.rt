//! Closing mailboxes over a post, by hand: the counts of each route, and what is left.

ghost use Rattle.std.specs.Prelude.{◌≡◌, ◌≤◌, length};
ghost use Rattle.bx_core.specs.Ties.{AreSides};
ghost use Rattle.bx_mail.specs.Sides.{BusKeeps, RouteKeeps, IsSideOf};

use bx_core::{AbortAnswer, NoGate, RouteTx, Sent, TxBus};
use bx_mail::{Post, PostBus, PostClosed, PostRoute, RouteCounts};
use can_frame::{Frame, Id, Memory};
use std::alloc::Global;
use std::sync::Wait;
use std::test::Fail;

/// A standard data frame with no bytes.
fn data(number: u16) -> Result<Frame, Fail> {
    Ok(Frame::with_bytes(Id::standard(number)?, &[])?)
}

/// Posts the request of the frame of this identifier.
fn request<R: Wait>(rt: &R, side: &mut PostRoute, number: u32, id: u16) -> Result<Sent, Fail>
    ensures { RouteKeeps side.old side.new }
{
    if number <= side.last() {
        return Err(Fail::new("the number isn't above the last one"));
    }
    let frame = data(id)?;
    Ok(RouteTx::request(side, rt, number, frame, &mut NoGate)?)
}

/// Posts the abort of a number of the route's.
fn abort<R: Wait>(rt: &R, side: &mut PostRoute, number: u32) -> Option<AbortAnswer>
    ensures { RouteKeeps side.old side.new }
{
    if number < 1 || side.last() < number {
        return None;
    }
    Some(RouteTx::abort(side, rt, number, &mut NoGate))
}

/// What is transmitting was sent.
fn complete<R: Wait>(rt: &R, bus: &mut PostBus) -> Result<(), Fail>
    ensures { BusKeeps bus.old bus.new }
{
    if !bus.is_transmitting() {
        return Err(Fail::new("nothing is transmitting"));
    }
    bus.complete(rt);
    Ok(())
}

/// What is transmitting failed.
fn fail<R: Wait>(rt: &R, bus: &mut PostBus) -> Result<Option<(u8, u32)>, Fail>
    ensures { BusKeeps bus.old bus.new }
{
    if !bus.is_transmitting() {
        return Err(Fail::new("nothing is transmitting"));
    }
    Ok(bus.fail(rt))
}

/// The bus side, and the sides of all its routes, in order.
#[derive(Drop)]
struct Sides {
    bus: PostBus,
    routes: Vec<PostRoute>,
    ghost all: { length routes.items ≡ bus.routes },
    ghost sides: { AreSides IsSideOf bus routes.items },
}

impl Sides {
    fn new(alloc: Global, routes: u8) -> Result<Sides, Memory>
        requires some { 1 ≤ routes }
        requires few { routes ≤ 8 }
    {
        let (bus, routes) = Post::new(alloc, routes)?;
        Ok(Sides { bus, routes })
    }

    fn request<R: Wait>(
        &mut self,
        rt: &R,
        route: usize,
        number: u32,
        id: u16,
    ) -> Result<Sent, Fail> {
        if route >= self.routes.len() {
            return Err(Fail::new("no side"));
        }
        request(rt, &mut self.routes[route], number, id)
    }

    fn abort<R: Wait>(&mut self, rt: &R, route: usize, number: u32) -> Option<AbortAnswer> {
        if route >= self.routes.len() {
            return None;
        }
        abort(rt, &mut self.routes[route], number)
    }

    fn ready<R: Wait>(&mut self, rt: &R) -> bool {
        self.bus.ready(rt)
    }

    fn start<R: Wait>(&mut self, rt: &R) -> Option<(u8, u32, Frame)> {
        self.bus.start(rt)
    }

    fn complete<R: Wait>(&mut self, rt: &R) -> Result<(), Fail> {
        complete(rt, &mut self.bus)
    }

    fn fail<R: Wait>(&mut self, rt: &R) -> Result<Option<(u8, u32)>, Fail> {
        fail(rt, &mut self.bus)
    }

    fn close<R: Wait>(self, rt: &R) -> PostClosed {
        Post::close(rt, self.bus, self.routes)
    }
}

// Of route 0, request 1 is sent, 2 is aborted before it starts, and 3 waits in a mailbox. Of route 1, request 1 fails
// after its abort was taken, and 2 waits in the post.
#[test]
fn closing_counts_each_route_and_leaves_what_waits(rt: HostRuntime) -> Result<(), Fail> {
    let mut sides = Sides::new(rt.alloc(), 2)?;
    assert_eq!(rt; sides.request(&rt, 0, 1, 0x101)?, Sent::Yes);
    assert!(rt; sides.ready(&rt));
    assert_eq!(rt; sides.start(&rt), Some((0, 1, data(0x101)?)));
    sides.complete(&rt)?;
    assert_eq!(rt; sides.request(&rt, 1, 1, 0x201)?, Sent::Yes);
    assert!(rt; sides.ready(&rt));
    assert_eq!(rt; sides.start(&rt), Some((1, 1, data(0x201)?)));
    assert_eq!(rt; sides.abort(&rt, 1, 1), Some(AbortAnswer::Asked));
    assert!(rt; !sides.ready(&rt));
    assert_eq!(rt; sides.fail(&rt)?, Some((1, 1)));
    assert_eq!(rt; sides.request(&rt, 0, 2, 0x102)?, Sent::Yes);
    assert_eq!(rt; sides.abort(&rt, 0, 2), Some(AbortAnswer::Asked));
    assert!(rt; !sides.ready(&rt));
    assert_eq!(rt; sides.request(&rt, 0, 3, 0x103)?, Sent::Yes);
    assert!(rt; sides.ready(&rt));
    assert_eq!(rt; sides.request(&rt, 1, 2, 0x202)?, Sent::Yes);
    let closed = sides.close(&rt);
    let counts = |requested, aborted, done, reaped| RouteCounts {
        requested,
        aborted,
        done,
        reaped,
    };
    assert_eq!(rt;
        closed.routes.as_slice(),
        [counts(3, 1, 1, 0), counts(2, 0, 0, 1)].as_slice()
    );
    assert_eq!(rt;
        closed.left.as_slice(),
        [(0, 3, data(0x103)?), (1, 2, data(0x202)?)].as_slice()
    );
    Ok(())
}

//! Mailboxes over a post, as a set of sides.
ghost use Rattle.std.specs.Prelude.{◌≡◌, ◌≤◌, true, IfOk, length, map};
ghost use Rattle.bx_core.specs.Ties.{AreSides, AllTied, NothingBeyond};
ghost use Rattle.bx_mail.specs.Postings.{item_left};
ghost use Rattle.bx_mail.specs.Sides.{Runs, RouteRuns, IsNewBus, AreNewSides, IsSideOf, IsClosed, AreCounted};

use crate::closed::PostClosed;
use crate::post_bus::PostBus;
use crate::post_route::PostRoute;
use crate::{closing, opening};
use bx_core::{Left, Mailboxes};
use can_frame::{Frame, Memory};
use std::alloc::{AllocError, Global};
use std::sync::Wait;

/// The three transmit mailboxes of a bxCAN controller (RM0008, bxCAN, "Transmission handling") over one queue of
/// eight posts, by which the routes ask the bus side. They send by order of requests (TXFP is set).
pub struct Post;

impl Post {
    /// Makes the bus side and the sides of `routes` routes (1 to 8), in order, of which nothing was asked yet. Returns
    /// `Memory` where an allocation failed, and refuses nothing else. No other call of `Post` takes memory, but for the
    /// `close` of the trait `Mailboxes`, which returns a `Vec`.
    pub fn new(alloc: Global, routes: u8) -> Result<(PostBus, Vec<PostRoute>), Memory>
        requires some { 1 ≤ routes }
        requires few { routes ≤ 8 }
        ensures bus { IfOk result (λ made. IsNewBus routes made.0) }
        ensures size { IfOk result (λ made. length made.1.items ≡ routes) }
        ensures sides { IfOk result (λ made. AreNewSides made.0.queue made.1.items) }
    {
        Ok(opening::open(alloc, routes)?)
    }

    /// Ends the mailboxes, given their bus side and the sides of all their routes, in order. Returns how many requests
    /// each route made and how many of them ended in which way, and the requests that wait: those in the mailboxes, the
    /// oldest first, the one aside, and those in posts, front to back, twelve at most. An abort that is still in a post
    /// had no effect. Takes no memory.
    pub fn close<R: Wait>(rt: &R, bus: PostBus, sides: Vec<PostRoute>) -> PostClosed
        requires all { length sides.items ≡ bus.routes }
        requires sides { AreSides IsSideOf bus sides.items }
        ensures size { length result.routes.items ≡ length sides.items }
        ensures counted { AreCounted bus sides.items (map item_left result.left.items) result.routes.items }
        ensures closed { IsClosed bus sides.items (map item_left result.left.items) }
        ensures tied { AllTied Runs RouteRuns true bus sides.items (map item_left result.left.items) }
        ensures beyond { NothingBeyond Runs bus.routes bus (map item_left result.left.items) }
        ensures few { length result.left.items ≤ 12 }
    {
        bus.facts();
        closing::close(rt, bus, sides)
    }
}

/// Returns the same requests as `Left`s. `AllocError` where an allocation failed.
fn lefts(alloc: Global, items: &[(u8, u32, Frame)]) -> Result<Vec<Left>, AllocError>
    ensures { IfOk result (λ left. left.items ≡ map item_left items.now) }
{
    items
        .iter()
        .map(|item| Left {
            route: item.0,
            number: item.1,
            frame: item.2,
        })
        .collect(alloc)
}

impl<R: Wait> Mailboxes<R, PostBus, PostRoute> for Post {
    ghost use Rattle.std.specs.Prelude.{◌≡◌, ◌≤◌, ℕ, Bool, true, None, [], IfOk, length};
    ghost use Rattle.std.proofs.Common.{lit≤};
    ghost use Rattle.bx_core.specs.TxBus.{no_bus_past};
    ghost use Rattle.bx_core.specs.Ties.{AreSides, AreNew, AllTied, NothingBeyond};
    ghost use Rattle.bx_mail.specs.Boxes.{on_bus_now};
    ghost use Rattle.bx_mail.specs.Sides.{BusSide, RouteSide, HasRun, RouteRuns, IsSideOf};
    ghost use Rattle.bx_mail.specs.SideLaws.{side-stays, side-moves, routes-stay, txfp-stays};

    ghost side_of = { IsSideOf };

    ghost routes_of = { λ b. b.routes };

    ghost txfp_of = { λ b. true };

    ghost can_send_by = { λ txfp. txfp ≡ true };

    ghost room = { 12 };

    fn open(
        _rt: &R,
        alloc: Global,
        routes: u8,
        _txfp: bool,
    ) -> Result<(PostBus, Vec<PostRoute>), Memory>
        requires some { 1 ≤ routes }
        requires few { routes ≤ 8 }
        requires priority { _txfp ≡ true }
        ensures bus { IfOk result (λ made. HasRun made.0 no_bus_past) }
        ensures asked { IfOk result (λ made. Unit) }
        ensures idle { IfOk result (λ made. on_bus_now made.0.boxes ≡ None) }
        ensures routes { IfOk result (λ made. made.0.routes ≡ routes) }
        ensures priority { IfOk result (λ made. true ≡ _txfp) }
        ensures size { IfOk result (λ made. length made.1.items ≡ routes) }
        ensures sides { IfOk result (λ made. AreSides IsSideOf made.0 made.1.items) }
        ensures new { IfOk result (λ made. AreNew RouteRuns made.1.items) }
    {
        Post::new(alloc, routes)
    }

    fn close(
        _rt: &R,
        alloc: Global,
        bus: PostBus,
        sides: Vec<PostRoute>,
    ) -> Result<Vec<Left>, Memory>
        requires all { length sides.items ≡ bus.routes }
        requires sides { AreSides IsSideOf bus sides.items }
        ensures tied { IfOk result (λ left. AllTied HasRun RouteRuns true bus sides.items left.items) }
        ensures beyond { IfOk result (λ left. NothingBeyond HasRun bus.routes bus left.items) }
        ensures few { IfOk result (λ left. length left.items ≤ 12) }
    {
        let closed = Post::close(_rt, bus, sides);
        Ok(lefts(alloc, closed.left.as_slice())?)
    }

    ghost side_stays = { side-stays };

    ghost side_moves = { side-moves };

    ghost routes_stay = { routes-stay };

    ghost txfp_stays = { txfp-stays };

    ghost few_room = { lit≤ tt };
}

//! The end of the mailboxes over a post: the sides are taken in, and the posts that are left are taken out.
ghost use Rattle.std.specs.Prelude.{◌≡◌, ℕ, ◌+◌, ◌-◌, ◌≤◌, ◌<◌, ◌==◌, ◌++◌, [], Some, List, ◌∷◌};
ghost use Rattle.std.specs.Prelude.{length, map, count_by, slice_get, option_to_list};
ghost use Rattle.crossbeam_queue.specs.Passes.{view, IsPassOf};
ghost use Rattle.bx_core.specs.PlainMail.{item_of};
ghost use Rattle.bx_core.specs.Ties.{AreSides};
ghost use Rattle.bx_core.specs.TxBus.{Item};
ghost use Rattle.bx_mail.specs.Postings.{item_by, items_in, item_left};
ghost use Rattle.bx_mail.specs.Rule.{bus_log, TotalFact};
ghost use Rattle.bx_mail.specs.Sides.{RouteSide, IsSideOf, IsRunning, IsClosed, AreCounted, AreKept, AreFilled};

use crate::closed::PostClosed;
use crate::log::Log;
use crate::post_bus::PostBus;
use crate::post_route::PostRoute;
use crate::posting::{Asks, Posting};
use crate::rule::{Line, Sides, Takes};
use arrayvec::ArrayVec;
use bx_core::Waiting;
use bx_shared::RouteCounts;
use can_frame::Frame;
use crossbeam_queue::Pass;
use std::sync::Wait;

/// The requests that are left, each as its route, its number and its frame.
type Leavings = ArrayVec<(u8, u32, Frame), 12>;

/// Takes in the side of a route.
fn join(line: &Line, pass: &mut Pass<Posting, Log>, side: PostRoute)
    requires pass { IsPassOf line.now pass.old }
    requires bus { view pass.old ≡ bus_log (view pass.old).got (view pass.old).made (view pass.old).known }
    requires queue { side.queue ≡ pass.old.table_id }
    requires route { side.route ≡ length (view pass.old).known }
    ensures pass { IsPassOf line.now pass.new }
    ensures table { pass.new.table_id ≡ pass.old.table_id }
    ensures view { view pass.new ≡ bus_log (view pass.old).got (view pass.old).made
        ((view pass.old).known ++ side.sent ∷ []) }
{
    let PostRoute {
        line: _,
        pass: posting,
        route: _,
        last: _,
        requested: _,
    } = side;
    line.absorb::<Sides>(pass, posting);
}

/// Takes in the sides of all routes, in order.
fn join_all(line: &Line, pass: &mut Pass<Posting, Log>, sides: Vec<PostRoute>)
    requires pass { IsPassOf line.now pass.old }
    requires bus { view pass.old ≡ bus_log (view pass.old).got (view pass.old).made [] }
    requires sides { (route : ℕ) (s : RouteSide) → slice_get sides.items route ≡ Some s
        → (s.queue ≡ pass.old.table_id) × (s.route ≡ route) }
    ensures pass { IsPassOf line.now pass.new }
    ensures view { view pass.new ≡ bus_log (view pass.old).got (view pass.old).made
        (map (λ (s : RouteSide). s.sent) sides.items) }
{
    for side in sides {
        join(line, pass, side);
    }
}

/// Takes out the posts that are left, eight at most.
fn drain<R: Wait>(rt: &R, line: &Line, pass: &mut Pass<Posting, Log>) -> ArrayVec<Posting, 8>
    requires pass { IsPassOf line.now pass.old }
    requires bus { view pass.old ≡ bus_log (view pass.old).got (view pass.old).made (view pass.old).known }
    requires all { length (view pass.old).known ≡ (view pass.old).made }
    ensures { TotalFact (bus_log ((view pass.old).got ++ result.items) (view pass.old).made (view pass.old).known) [] }
{
    let mut posts = ArrayVec::new();
    line.learn_as::<Takes>(pass);
    for _ in 0..8usize {
        let Some(posting) = line.pop_as::<Takes, R>(rt, pass) else {
            return posts;
        };
        posts.push(posting);
    }
    line.learn_as::<Takes>(pass);
    posts
}

/// Returns what is left: the requests in the mailboxes, the one aside, and those in the posts.
fn leave(boxes: &[Waiting], aside: &Option<Posting>, posts: &[Posting]) -> Leavings
    requires boxes { length boxes.now ≤ 3 }
    requires posts { length posts.now ≤ 8 }
    ensures { result.items ≡ (map item_of boxes.now ++ items_in (option_to_list aside.now)) ++ items_in posts.now }
{
    let mut left = leave_boxes(boxes);
    if let Some(posting) = aside {
        add_left(&mut left, posting);
    }
    for posting in posts {
        add_left(&mut left, posting);
    }
    left
}

/// Returns the requests in the mailboxes.
fn leave_boxes(boxes: &[Waiting]) -> Leavings
    requires { length boxes.now ≤ 3 }
    ensures { result.items ≡ map item_of boxes.now }
{
    let mut left = ArrayVec::new();
    for waiting in boxes {
        left.push((waiting.route, waiting.number, waiting.frame));
    }
    left
}

/// Adds the request of a post, if it is one.
fn add_left(left: &mut Leavings, posting: &Posting)
    requires { length left.old.items < 12 }
    ensures items { left.new.items ≡ left.old.items ++ item_by posting.now.route posting.now.number posting.now.what }
    ensures few { length left.new.items ≤ length left.old.items + 1 }
{
    if let Asks::Transmit(frame) = posting.what {
        left.push((posting.route, posting.number, frame));
    }
}

/// Returns how many requests each route made, and how many of them were sent and reaped. What was aborted is still 0.
fn counts_of(bus: &PostBus, sides: &[PostRoute]) -> ArrayVec<RouteCounts, 8>
    requires { length sides.now ≤ 8 }
    ensures size { length result.items ≡ length sides.now }
    ensures kept { AreKept bus.now.tally sides.now result.items }
{
    let mut counts = ArrayVec::new();
    for route in 0..sides.len() {
        let side = &sides[route];
        counts.push(RouteCounts {
            requested: side.requested,
            aborted: 0,
            done: bus.tally.done[route],
            reaped: bus.tally.reaped[route],
        });
    }
    counts
}

/// Returns how many of these requests are of a route.
fn waits(left: &[(u8, u32, Frame)], route: usize) -> usize
    ensures { result ≡ count_by (λ (x : Item). x.0 == route) left.now }
{
    left.iter().filter(|x| usize::from(x.0) == route).count()
}

/// Returns the same counts with what was aborted: the requests that were neither sent nor reaped, and are not left.
fn fill(kept: &[RouteCounts], left: &[(u8, u32, Frame)]) -> ArrayVec<RouteCounts, 8>
    requires { length kept.now ≤ 8 }
    ensures size { length result.items ≡ length kept.now }
    ensures filled { AreFilled (map item_left left.now) kept.now result.items }
{
    let mut counts = ArrayVec::new();
    for route in 0..kept.len() {
        counts.push(with_aborted(kept[route], waits(left, route)));
    }
    counts
}

/// Returns the counts of a route with what was aborted, given how many of its requests are left.
fn with_aborted(kept: RouteCounts, waits: usize) -> RouteCounts
    ensures requested { result.requested ≡ kept.requested }
    ensures done { result.done ≡ kept.done }
    ensures reaped { result.reaped ≡ kept.reaped }
    ensures aborted { result.aborted ≡ kept.requested - kept.done - kept.reaped - waits }
{
    let aborted = (kept.requested as usize)
        .saturating_sub(kept.done as usize)
        .saturating_sub(kept.reaped as usize)
        .saturating_sub(waits);
    RouteCounts {
        requested: kept.requested,
        aborted: aborted as u32,
        done: kept.done,
        reaped: kept.reaped,
    }
}

/// Takes in all sides. Returns what waits in the mailboxes, aside and in posts.
fn end<R: Wait>(rt: &R, bus: PostBus, sides: Vec<PostRoute>) -> Leavings
    requires all { length sides.items ≡ bus.routes }
    requires sides { AreSides IsSideOf bus sides.items }
    ensures { IsClosed bus sides.items (map item_left result.items) }
{
    let PostBus {
        line,
        mut pass,
        boxes,
        aside,
        tally: _,
    } = bus;
    join_all(&line, &mut pass, sides);
    let posts = drain(rt, &line, &mut pass);
    leave(boxes.as_slice(), &aside, posts.as_slice())
}

/// Ends the mailboxes. Returns how many requests of each route ended in which way, and what waits.
pub(crate) fn close<R: Wait>(rt: &R, bus: PostBus, sides: Vec<PostRoute>) -> PostClosed
    requires runs { IsRunning bus }
    requires few { length sides.items ≤ 8 }
    requires all { length sides.items ≡ bus.routes }
    requires sides { AreSides IsSideOf bus sides.items }
    ensures closed { IsClosed bus sides.items (map item_left result.left.items) }
    ensures size { length result.routes.items ≡ length sides.items }
    ensures counted { AreCounted bus sides.items (map item_left result.left.items) result.routes.items }
{
    let kept = counts_of(&bus, &sides);
    let left = end(rt, bus, sides);
    let routes = fill(kept.as_slice(), left.as_slice());
    PostClosed { routes, left }
}

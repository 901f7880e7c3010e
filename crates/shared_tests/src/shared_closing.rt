//! Closing mailboxes that threads share: by hand, and with each seat in a thread of its own.

ghost use Rattle.std.specs.Prelude.{◌≡◌, ◌<◌, ◌≤◌, ℕ, IfOk, length, slice_index_or};
ghost use Rattle.bx_core.specs.Ties.{AreSides};
ghost use Rattle.bx_shared.specs.Seats.{RoutePlace};
ghost use Rattle.bx_shared.specs.Sides.{SameRoute};
ghost use Rattle.bx_shared.specs.Calls.{SameMailboxes};
ghost use Rattle.bx_shared.specs.Closing.{IsSideOf, routes_of};

use crate::shared::{abort, complete, data, fail, request, started, taken};
use bx_core::{Left, NoGate, NumberTooLarge};
use bx_mail::{AbortOutcome, BusSeat, Closed, Mail, RequestAnswer, RouteCounts, RouteSeat};
use can_frame::{Frame, Memory};
use std::alloc::{AllocError, Global};
use std::sync::Wait;
use std::sync::atomic::{AtomicBool, Ordering};
use std::test::Fail;
use std::thread;
use std::thread::Threads;

/// The bus's seat, and those of all its routes, in order.
#[derive(Drop)]
struct Seats {
    bus: BusSeat,
    routes: Vec<RouteSeat>,
    ghost all: { length routes.items ≡ routes_of bus },
    ghost sides: { AreSides IsSideOf bus routes.items },
}

impl Seats {
    /// New seats for so many routes.
    fn new(alloc: Global, routes: u8) -> Result<Seats, Memory>
        requires some { 1 ≤ routes }
        requires few { routes ≤ 8 }
    {
        let (bus, routes) = Mail::new(alloc, routes)?;
        Ok(Seats { bus, routes })
    }

    /// A request that is taken: its mailbox.
    fn taken(&mut self, route: usize, number: u32, id: u16) -> Result<u8, Fail> {
        if route >= self.routes.len() {
            return Err(Fail::new("no seat"));
        }
        taken(&mut self.routes[route], number, id)
    }

    /// The route's first request.
    fn request(&mut self, route: usize) -> Option<Result<RequestAnswer, NumberTooLarge>> {
        if route >= self.routes.len() {
            return None;
        }
        request(&mut self.routes[route], 1, Frame::default(), &mut NoGate)
    }

    fn abort(&mut self, route: usize, number: u32) -> Option<AbortOutcome> {
        if route >= self.routes.len() {
            return None;
        }
        abort(&mut self.routes[route], number)
    }

    fn started(&mut self) -> Option<(u8, u32, Frame)> {
        started(&mut self.bus)
    }

    fn complete(&mut self) -> Result<(), Fail> {
        complete(&mut self.bus)
    }

    fn fail(&mut self) -> Result<Option<(u8, u32)>, Fail> {
        fail(&mut self.bus)
    }

    fn close(self, alloc: Global) -> Result<Closed, Memory> {
        Mail::close(alloc, self.bus, self.routes)
    }
}

#[test]
fn closing_leaves_what_waits(rt: HostRuntime) -> Result<(), Fail> {
    let mut seats = Seats::new(rt.alloc(), 1)?;
    for (number, id, mailbox) in [(1, 0x101, 0), (2, 0x102, 1), (3, 0x103, 2)] {
        assert_eq!(rt; seats.taken(0, number, id)?, mailbox);
    }
    assert_eq!(rt; seats.started(), Some((0, 1, data(0x101)?)));
    seats.complete()?;
    assert_eq!(rt; seats.taken(0, 4, 0x104)?, 0);
    assert_eq!(rt; seats.started(), Some((0, 2, data(0x102)?)));
    let closed = seats.close(rt.alloc())?;
    let counts = RouteCounts {
        requested: 4,
        aborted: 0,
        done: 1,
        reaped: 0,
    };
    assert_eq!(rt; closed.routes.as_slice(), [counts].as_slice());
    assert_eq!(rt;
        closed.left.as_slice(),
        [
            Left {
                route: 0,
                number: 2,
                frame: data(0x102)?
            },
            Left {
                route: 0,
                number: 3,
                frame: data(0x103)?
            },
            Left {
                route: 0,
                number: 4,
                frame: data(0x104)?
            },
        ]
        .as_slice()
    );
    Ok(())
}

#[test]
fn closing_counts_what_was_ended(rt: HostRuntime) -> Result<(), Fail> {
    let mut seats = Seats::new(rt.alloc(), 2)?;
    assert_eq!(rt; seats.taken(0, 1, 0x101)?, 0);
    assert_eq!(rt; seats.started(), Some((0, 1, data(0x101)?)));
    assert_eq!(rt; seats.abort(0, 1), Some(AbortOutcome::Asked));
    assert_eq!(rt; seats.fail()?, Some((0, 1)));
    assert_eq!(rt; seats.taken(1, 1, 0x201)?, 0);
    assert_eq!(rt; seats.abort(1, 1), Some(AbortOutcome::Aborted));
    let closed = seats.close(rt.alloc())?;
    let counts = |aborted, reaped| RouteCounts {
        requested: 1,
        aborted,
        done: 0,
        reaped,
    };
    assert_eq!(rt;
        closed.routes.as_slice(),
        [counts(0, 1), counts(1, 0)].as_slice()
    );
    assert!(rt; closed.left.is_empty());
    Ok(())
}

// What is transmitting was asked to end, and was sent all the same: it is done, and neither aborted nor reaped.
#[test]
fn what_is_sent_is_done_though_it_was_asked_to_end(rt: HostRuntime) -> Result<(), Fail> {
    let mut seats = Seats::new(rt.alloc(), 2)?;
    assert_eq!(rt; seats.taken(0, 1, 0x101)?, 0);
    assert_eq!(rt; seats.started(), Some((0, 1, data(0x101)?)));
    assert_eq!(rt; seats.abort(0, 1), Some(AbortOutcome::Asked));
    seats.complete()?;
    assert_eq!(rt; seats.abort(0, 1), Some(AbortOutcome::Gone));
    let closed = seats.close(rt.alloc())?;
    let counts = |requested, done| RouteCounts {
        requested,
        aborted: 0,
        done,
        reaped: 0,
    };
    assert_eq!(rt;
        closed.routes.as_slice(),
        [counts(1, 1), counts(0, 0)].as_slice()
    );
    assert!(rt; closed.left.is_empty());
    Ok(())
}

// What is transmitting waits also where its abort was asked. Of all routes the oldest is first: mailbox 0 was used
// again by the youngest request.
#[test]
fn closing_leaves_all_routes_requests_in_order(rt: HostRuntime) -> Result<(), Fail> {
    let mut seats = Seats::new(rt.alloc(), 2)?;
    assert_eq!(rt; seats.taken(0, 1, 0x101)?, 0);
    assert_eq!(rt; seats.taken(1, 1, 0x201)?, 1);
    assert_eq!(rt; seats.taken(0, 2, 0x102)?, 2);
    assert_eq!(rt; seats.started(), Some((0, 1, data(0x101)?)));
    seats.complete()?;
    assert_eq!(rt; seats.taken(1, 2, 0x202)?, 0);
    assert_eq!(rt; seats.started(), Some((1, 1, data(0x201)?)));
    assert_eq!(rt; seats.abort(1, 1), Some(AbortOutcome::Asked));
    let closed = seats.close(rt.alloc())?;
    assert!(rt;
        closed
            .left
            .iter()
            .map(|left| (left.route, left.number))
            .eq([(1, 1), (0, 2), (1, 2)])
    );
    Ok(())
}

/// Accepts the ample answer or the refusal of memory, and nothing else: for runs in which an allocation fails.
#[test]
fn closes_or_wants_memory(rt: HostRuntime) {
    let Ok(mut seats) = Seats::new(rt.alloc(), 2) else {
        return;
    };
    for (route, mailbox) in [(0, 0), (1, 1)] {
        assert_eq!(rt;
            seats.request(route),
            Some(Ok(RequestAnswer::Taken(mailbox)))
        );
    }
    let Ok(closed) = seats.close(rt.alloc()) else {
        return;
    };
    let counts = RouteCounts {
        requested: 1,
        aborted: 0,
        done: 0,
        reaped: 0,
    };
    assert_eq!(rt; closed.routes.as_slice(), [counts, counts].as_slice());
    assert!(rt;
        closed
            .left
            .iter()
            .map(|left| (left.route, left.number))
            .eq([(0, 1), (1, 1)])
    );
}

/// A thousand tries of a route to request, and an abort after each tenth.
fn try_all(mut seat: RouteSeat) -> RouteSeat
    ensures { SameRoute seat result }
{
    for turn in 0..1000u32 {
        let number = seat.last().saturating_add(1);
        let _ = request(&mut seat, number, Frame::default(), &mut NoGate);
        if turn % 10 == 9 {
            let last = seat.last();
            let _ = abort(&mut seat, last);
        }
    }
    seat
}

/// The bus sends until all routes have ended; every second transmission fails.
fn send_all<R: Wait>(rt: &R, mut bus: BusSeat, ended: &AtomicBool) -> BusSeat
    ensures { SameMailboxes bus result }
{
    let mut fails = false;
    for _ in rt.forever() {
        if ended.load(Ordering::SeqCst) {
            break;
        }
        let _ = started(&mut bus);
        if !bus.is_transmitting() {
            thread::yield_now();
            continue;
        }
        if fails {
            let _ = bus.fail();
        } else {
            bus.complete();
        }
        fails = !fails;
    }
    bus
}

/// Each route tries in a thread of its own.
fn try_each<R: Threads + Sync>(rt: &R, routes: Vec<RouteSeat>) -> Result<Vec<RouteSeat>, AllocError>
    ensures size { IfOk result (λ tried. length tried.items ≡ length routes.items) }
    ensures same { IfOk result (λ tried. (k : ℕ) (s : RoutePlace) → k < length routes.items →
        SameRoute (slice_index_or routes.items k s) (slice_index_or tried.items k s)) }
{
    thread::map_vec(rt, routes, &|seat| try_all(seat))
}

/// Each route tries in a thread of its own, and the bus sends in another.
fn run_both<R: Threads + Wait + Sync>(
    rt: &R,
    bus: BusSeat,
    routes: Vec<RouteSeat>,
) -> Result<(BusSeat, Vec<RouteSeat>), AllocError>
    ensures bus { IfOk result (λ run. SameMailboxes bus run.0) }
    ensures size { IfOk result (λ run. length run.1.items ≡ length routes.items) }
    ensures same { IfOk result (λ run. (k : ℕ) (s : RoutePlace) → k < length routes.items →
        SameRoute (slice_index_or routes.items k s) (slice_index_or run.1.items k s)) }
{
    let ended = AtomicBool::new(false);
    let (bus, routes) = thread::join(
        rt,
        || send_all(rt, bus, &ended),
        || {
            let tried = try_each(rt, routes);
            ended.store(true, Ordering::SeqCst);
            tried
        },
    );
    Ok((bus, routes?))
}

/// The seats after that.
#[tactic(auto, using(crate::proofs::Seating::sides_after, crate::proofs::Seating::all_after))]
fn run_all<R: Threads + Wait + Sync>(rt: &R, seats: Seats) -> Result<Seats, AllocError> {
    let Seats { bus, routes } = seats;
    let (bus, routes) = run_both(rt, bus, routes)?;
    Ok(Seats { bus, routes })
}

#[test]
fn seats_in_threads_of_their_own_are_closed(rt: HostRuntime) -> Result<(), Fail> {
    let seats = run_all(&rt, Seats::new(rt.alloc(), 8)?)?;
    let closed = seats.close(rt.alloc())?;
    assert_eq!(rt; closed.routes.len(), 8);
    for (route, counts) in closed.routes.iter().enumerate() {
        let left = closed
            .left
            .iter()
            .filter(|left| usize::from(left.route) == route)
            .count();
        let ends = [counts.aborted, counts.done, counts.reaped]
            .iter()
            .fold(left as u64, |sum, one| {
                sum.saturating_add(u64::from(*one))
            });
        assert_eq!(rt; u64::from(counts.requested), ends);
    }
    Ok(())
}

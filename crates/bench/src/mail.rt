//! A request and its abort at transmit mailboxes: by a seat at words that threads share, and under a lock around the
//! mailboxes for one thread; alone, and by eight routes at once, each in a thread of its own.

use crate::rate::millions;
use bx_core::{NoGate, PlainMail, PlainRoute, RouteTx, Sent};
use bx_shared::{AbortOutcome, Mail, RequestAnswer, RouteSeat};
use can_frame::Frame;
use std::alloc::Global;
use std::rt::Clock;
use std::sync::{Mutex, Wait};
use std::thread::Threads;
use std::time::Instant;
use std::{io, thread};

/// How many requests each route tries.
const TRIES: u32 = 200_000;

/// How many routes try at once.
const ROUTES: u8 = 8;

/// Aborts the newest request, however often others are faster.
fn abort_newest(seat: &mut RouteSeat) {
    for _try in 0..1_000_000 {
        let number = seat.last();
        if number == 0 || !matches!(seat.abort(number, &mut NoGate), AbortOutcome::Contended(_)) {
            return;
        }
    }
}

/// Tries to request, and aborts what was taken; how many requests were.
fn try_at_seat(mut seat: RouteSeat) -> u64 {
    let mut taken = 0u64;
    for _try in 0..TRIES {
        let number = seat.last().saturating_add(1);
        if seat.last() < number
            && matches!(
                seat.request(number, Frame::default(), &mut NoGate),
                Ok(RequestAnswer::Taken(_))
            )
        {
            taken = taken.wrapping_add(1);
            abort_newest(&mut seat);
        }
    }
    taken
}

/// A request under the number behind the route's last one; whether it was taken.
fn is_requested(mail: &mut PlainMail, route: u8) -> bool {
    if route >= mail.core().routes() {
        return false;
    }
    let last = mail.core().last_number(route);
    let number = last.saturating_add(1);
    if number <= last {
        return false;
    }
    let mut side = PlainRoute { mail, route };
    side.request(&(), number, Frame::default(), &mut NoGate) == Ok(Sent::Yes)
}

/// An abort of the route's newest request.
fn abort_last(mail: &mut PlainMail, route: u8) {
    if route >= mail.core().routes() {
        return;
    }
    let number = mail.core().last_number(route);
    if number == 0 {
        return;
    }
    let mut side = PlainRoute { mail, route };
    side.abort(&(), number, &mut NoGate);
}

/// The same as `try_at_seat`, where each call takes the lock.
fn try_under_lock<R: Wait>(rt: &R, mail: &Mutex<PlainMail>, route: u8) -> u64 {
    let mut taken = 0u64;
    for _try in 0..TRIES {
        if is_requested(&mut mail.lock(rt), route) {
            taken = taken.wrapping_add(1);
            abort_last(&mut mail.lock(rt), route);
        }
    }
    taken
}

/// The sum of what the routes took.
fn sum(taken: &[u64]) -> u64 {
    taken
        .iter()
        .fold(0u64, |sum, count| sum.wrapping_add(*count))
}

/// Requests that so many routes took at once, each at its seat.
fn take_at_seats<H: Threads + Sync>(rt: &H, alloc: Global, routes: u8) -> Option<u64> {
    if routes < 1 || routes > ROUTES {
        return None;
    }
    let Ok((_bus, seats)) = Mail::new(alloc, routes) else {
        return None;
    };
    match thread::map_vec(rt, seats, &|seat| try_at_seat(seat)) {
        Ok(taken) => Some(sum(taken.as_slice())),
        Err(_) => None,
    }
}

/// Requests that so many routes took at once, all under one lock.
fn take_under_lock<H: Threads + Wait + Sync>(rt: &H, alloc: Global, routes: u8) -> Option<u64> {
    if routes < 1 || routes > ROUTES {
        return None;
    }
    let mail = Mutex::new(PlainMail::new(alloc, routes));
    let Ok(numbers) = (0..routes).collect::<Vec<u8>>(alloc) else {
        return None;
    };
    match thread::map_vec(rt, numbers, &|route| try_under_lock(rt, &mail, route)) {
        Ok(taken) => Some(sum(taken.as_slice())),
        Err(_) => None,
    }
}

/// Prints both rates for one route and for eight.
pub(crate) fn measure<H: Print + Clock + AllocGlobal + Threads + Wait + Sync>(
    rt: &H,
) -> io::Result<()> {
    for routes in [1u8, ROUTES] {
        let start = Instant::now(rt)?;
        let at_seats = take_at_seats(rt, rt.alloc(), routes).unwrap_or(0);
        let rate = millions(rt.alloc(), at_seats, start.elapsed(rt)?)?;
        println!(rt;
            "{routes} routes, shared words: {rate} requests a second, each aborted, of {TRIES} tries {at_seats}"
        )?;
        let start = Instant::now(rt)?;
        let locked = take_under_lock(rt, rt.alloc(), routes).unwrap_or(0);
        let rate = millions(rt.alloc(), locked, start.elapsed(rt)?)?;
        println!(rt;
            "{routes} routes, under a lock: {rate} requests a second, each aborted, of {TRIES} tries {locked}"
        )?;
    }
    Ok(())
}

//! The queue of waiting requests, the oldest first.
ghost use Rattle.std.specs.Prelude.{◌≡◌, ◌<◌, ◌≤◌, length, map, slice_set, IfOk, IfSome, option_map};
ghost use Rattle.std.specs.List.{find};
ghost use Rattle.bx_core.specs.States.{at_mailbox, place_of, waits_of, of_number, is_scheduled, is_transmitting};
ghost use Rattle.bx_core.specs.Priority.{goes_before, goes_first};
ghost use Rattle.bx_core.specs.Ties.{as_left};

use crate::left::Left;
use crate::waiting::Waiting;
use arrayvec::ArrayVec;
use std::alloc::{AllocError, Global};

/// The request in a mailbox, and its place in the queue.
pub(crate) fn find(queue: &[Waiting], mailbox: u8) -> Option<(usize, Waiting)>
    ensures place { IfSome result (λ found. found.0 ≡ place_of mailbox queue.now) }
    ensures within { IfSome result (λ found. found.0 < length queue.now) }
    ensures waiting { option_map (λ found. found.1) result ≡ at_mailbox mailbox queue.now }
{
    for (place, waiting) in queue.iter().enumerate() {
        if waiting.mailbox == mailbox {
            return Some((place, *waiting));
        }
    }
    None
}

/// Changes the request at a place.
pub(crate) fn set_waiting(queue: &mut ArrayVec<Waiting, 3>, place: usize, waiting: Waiting)
    requires { place < length queue.old.items }
    ensures { queue.new.items ≡ slice_set queue.old.items place waiting }
{
    queue[place] = waiting;
}

/// The numbers of a route's requests among these, in order.
pub(crate) fn waits(queue: &[Waiting], route: u8) -> ArrayVec<u32, 3>
    requires { length queue.now ≤ 3 }
    ensures { result.items ≡ waits_of route queue.now }
{
    let mut numbers = ArrayVec::new();
    for waiting in queue {
        if waiting.route == route {
            numbers.push(waiting.number);
        }
    }
    numbers
}

/// These requests as closing leaves them, in order.
pub(crate) fn left(alloc: Global, queue: &[Waiting]) -> Result<Vec<Left>, AllocError>
    ensures { IfOk result (λ left. left.items ≡ map as_left queue.now) }
{
    let mut left = Vec::with_capacity(alloc, queue.len())?;
    for waiting in queue {
        left.push(waiting.as_left())?;
    }
    Ok(left)
}

/// The request of a route's number among these.
pub(crate) fn of_number(queue: &[Waiting], route: u8, number: u32) -> Option<Waiting>
    ensures { result ≡ of_number route number queue.now }
{
    for waiting in queue {
        if waiting.route == route && waiting.number == number {
            return Some(*waiting);
        }
    }
    None
}

/// The request that is transmitting.
pub(crate) fn on_bus(queue: &[Waiting]) -> Option<Waiting>
    ensures { result ≡ find (λ w. is_transmitting w.status) queue.now }
{
    queue
        .iter()
        .copied()
        .find(|waiting| waiting.status.is_transmitting())
}

/// The request that is scheduled.
pub(crate) fn in_turn(queue: &[Waiting]) -> Option<Waiting>
    ensures { result ≡ find (λ w. is_scheduled w.status) queue.now }
{
    queue
        .iter()
        .copied()
        .find(|waiting| waiting.status.is_scheduled())
}

/// The least of these by key and mailbox, where all are pending.
pub(crate) fn least(queue: &[Waiting]) -> Option<Waiting>
    ensures { result ≡ find (λ w. goes_first w queue.now) queue.now }
{
    queue
        .iter()
        .copied()
        .find(|waiting| goes_first(waiting, queue))
}

/// Whether all of these are pending, and this one is the least of them.
pub(crate) fn goes_first(waiting: &Waiting, queue: &[Waiting]) -> bool
    ensures { result ≡ goes_first waiting.now queue.now }
{
    queue.iter().all(|other| other.status.is_pending() && goes_before(waiting, other))
}

/// Whether one goes before the other: by its key, and where these are equal by its mailbox.
fn goes_before(waiting: &Waiting, other: &Waiting) -> bool
    ensures { result ≡ goes_before waiting.now other.now }
{
    let key = waiting.frame.arbitration_key();
    let other_key = other.frame.arbitration_key();
    key < other_key || (key == other_key && waiting.mailbox <= other.mailbox)
}

//! Where the sides of all mailboxes of a run are kept while they are together: a place for each route in the order of
//! the script, and behind these one for each controller, whose mailboxes have a side that nobody uses where no route
//! leads into it.

ghost use Rattle.std.specs.Prelude.{◌≡◌, ◌≢◌, ◌<◌, ◌≤◌, ◌+◌, ℕ, Some, IfOk, OnOk, length, slice_get};
ghost use Rattle.gw_config.specs.SoundScripts.{IsSound};
ghost use Rattle.gw_opening.specs.Openings.{routes_at};
ghost use Rattle.gw_sides.specs.Seats.{seat_of, HasSeats, Leaves, HoldsAll};

use gw_opening::push_one;
use gw_script::Script;
use std::alloc::{AllocError, Global};

/// The place of the side of this number at a controller.
fn seat_of(script: &Script, controller: usize, number: usize) -> usize
    requires sound { IsSound script.now }
    requires there { controller < length script.now.controllers }
    ensures value { result ≡ seat_of script.now controller number }
    ensures range { result < length script.now.routes + length script.now.controllers }
{
    match script.route_at(controller, number) {
        Some(route) => route,
        None => script.routes().len() + controller,
    }
}

/// An empty place for each side of a run.
pub(crate) fn seats_for<S: Drop>(
    alloc: Global,
    script: &Script,
) -> Result<Vec<Option<S>>, AllocError>
    requires { IsSound script.now }
    ensures { IfOk result (λ seats. HasSeats script.now seats.items) }
{
    let count = script.routes().len() + script.controllers().len();
    let mut seats = Vec::with_capacity(alloc, count)?;
    for _place in 0..count {
        push_one(&mut seats, None)?;
    }
    Ok(seats)
}

/// A side comes to its place.
pub fn put<S: Drop>(seats: &mut [Option<S>], place: usize, side: S)
    requires within { place < length seats.old }
    ensures there { slice_get seats.new place ≡ Some (Some side) }
    ensures others { (k : ℕ) → k ≢ place → slice_get seats.new k ≡ slice_get seats.old k }
    ensures size { length seats.new ≡ length seats.old }
{
    seats[place] = Some(side);
}

/// A side is taken from its place.
pub fn take<S: Drop>(seats: &mut [Option<S>], place: usize) -> S
    requires within { place < length seats.old }
    requires full { (side : S) × (slice_get seats.old place ≡ Some (Some side)) }
    ensures was { slice_get seats.old place ≡ Some (Some result) }
    ensures others { (k : ℕ) → k ≢ place → slice_get seats.new k ≡ slice_get seats.old k }
    ensures size { length seats.new ≡ length seats.old }
{
    match seats[place].take() {
        Some(side) => side,
        None => unreachable!(),
    }
}

/// The sides of a controller's mailboxes, in order, come to their places.
pub(crate) fn put_all<S: Drop>(
    script: &Script,
    controller: usize,
    sides: Vec<S>,
    seats: &mut [Option<S>],
)
    requires sound { IsSound script.now }
    requires there { controller < length script.now.controllers }
    requires seats { HasSeats script.now seats.old }
    requires few { length sides.items ≤ routes_at script.now controller }
    ensures holds { HoldsAll script.now controller sides.items seats.new }
    ensures leaves { Leaves script.now controller seats.old seats.new }
{
    let mut number = 0usize;
    for side in sides {
        put(seats, seat_of(script, controller, number), side);
        number += 1;
    }
}

/// So many sides of a controller's mailboxes, in order, are taken from their places.
pub(crate) fn take_all<S: Drop>(
    alloc: Global,
    script: &Script,
    controller: usize,
    count: usize,
    seats: &mut [Option<S>],
) -> Result<Vec<S>, AllocError>
    requires sound { IsSound script.now }
    requires there { controller < length script.now.controllers }
    requires seats { HasSeats script.now seats.old }
    requires few { count ≤ routes_at script.now controller }
    requires full { (number : ℕ) → number < count
        → (side : S) × (slice_get seats.old (seat_of script.now controller number) ≡ Some (Some side)) }
    ensures holds { IfOk result (λ sides. HoldsAll script.now controller sides.items seats.old) }
    ensures size { IfOk result (λ sides. length sides.items ≡ count) }
    ensures leaves { OnOk result (Leaves script.now controller seats.old seats.new) }
{
    let mut sides = Vec::with_capacity(alloc, count)?;
    for number in 0..count {
        let side = take(seats, seat_of(script, controller, number));
        push_one(&mut sides, side)?;
    }
    Ok(sides)
}

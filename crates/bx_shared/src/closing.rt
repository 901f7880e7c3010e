//! The end of the mailboxes: all places are taken back, and what waits is told.
ghost use Rattle.std.specs.Prelude.{◌≡◌, ℕ, ◌/◌, ◌<◌, ◌≤◌, ◌++◌, ◌∷◌, [], List};
ghost use Rattle.std.specs.Prelude.{Some, false, slice_get, map, length, IfOk};
ghost use Rattle.bx_core.specs.Lists.{Each, Has};
ghost use Rattle.bx_core.specs.Ties.{AreSides, AllTied, NothingBeyond, as_left};
ghost use Rattle.bx_core.specs.declared.waiting.Waiting.{Waiting};
ghost use Rattle.bx_words.specs.Lanes.{lane_of};
ghost use Rattle.bx_shared.specs.Steps.{bus_seat, bus_of};
ghost use Rattle.bx_shared.specs.Seats.{IsAt, RoutePlace};
ghost use Rattle.bx_shared.specs.Sides.{BusAfter, RouteAfter};
ghost use Rattle.bx_shared.specs.Closing.{AreAllIdle, Ends, IsLast, IsInMailbox, Remains, IsSideOf};
ghost use Rattle.bx_shared.specs.Closing.{AreAccounted, AreCounted, HasEnded, routes_of, sealed_seat, waiting_in};

use crate::bus_seat::BusSeat;
use crate::closed::RouteCounts;
use crate::plays::{Paste, ReadLast, Seal};
use crate::route_seat::RouteSeat;
use crate::route_steps::{Seat, Words};
use bx_core::Left;
use bx_words::{lane, lane_mask, oldest, unpack};
use std::alloc::{AllocError, Global};

/// Takes a route's place back.
fn join(words: &Words, seat: &mut Seat, side: RouteSeat)
    requires table { IsAt words.now.shared.table_id seat.old.table_id }
    requires bus { seat.old.me ≡ bus_seat (bus_of seat.old.me) seat.old.me.0.routes }
    requires side { side.table ≡ seat.old.table_id }
    ensures table { seat.new.table_id ≡ seat.old.table_id }
    ensures joined { seat.new.me ≡ bus_seat (bus_of seat.old.me) (seat.old.me.0.routes ++ side.part ∷ []) }
    ensures idle { side.part.claims ≡ false }
{
    let RouteSeat {
        words: _,
        seat: theirs,
        route: _,
        last: _,
        tops: _,
        requested: _,
        aborted: _,
    } = side;
    words.shared.join_seat::<Paste>(seat, theirs);
}

/// Takes all places back.
fn join_all(words: &Words, seat: &mut Seat, sides: Vec<RouteSeat>)
    requires table { IsAt words.now.shared.table_id seat.old.table_id }
    requires bus { seat.old.me ≡ bus_seat (bus_of seat.old.me) seat.old.me.0.routes }
    requires sides { (k : ℕ) (s : RoutePlace) → slice_get sides.items k ≡ Some s → s.table ≡ seat.old.table_id }
    ensures table { seat.new.table_id ≡ seat.old.table_id }
    ensures joined { seat.new.me ≡ bus_seat (bus_of seat.old.me)
        (seat.old.me.0.routes ++ map (λ (s : RoutePlace). s.part) sides.items) }
    ensures idle { Each (λ (s : RoutePlace). s.part.claims ≡ false) sides.items }
{
    for side in sides {
        join(words, seat, side);
    }
}

/// The last look at the control word, by the seat that holds every place.
fn seal(words: &Words, seat: &mut Seat) -> u64
    requires table { IsAt words.now.shared.table_id seat.old.table_id }
    requires bus { seat.old.me ≡ bus_seat (bus_of seat.old.me) seat.old.me.0.routes }
    requires all { AreAllIdle seat.old.me.0.routes }
    ensures table { seat.new.table_id ≡ seat.old.table_id }
    ensures sealed { seat.new.me ≡ sealed_seat (bus_of seat.old.me) seat.old.me.0.routes (waiting_in seat.new.me) }
    ensures ends { Ends (bus_of seat.old.me) seat.old.me.0.routes (waiting_in seat.new.me) result }
{
    words.shared.load::<Seal>(seat, 0)
}

/// A payload word of sealed mailboxes.
fn read_last(words: &Words, seat: &mut Seat, place: usize) -> u64
    requires table { IsAt words.now.shared.table_id seat.old.table_id }
    requires sealed { (seat.old.me.0.sealed ≡ Some (waiting_in seat.old.me)) × (seat.old.me.1 ≡ []) }
    requires place { place < 7 }
    ensures table { seat.new.table_id ≡ seat.old.table_id }
    ensures same { seat.new.me ≡ seat.old.me }
    ensures read { IsLast (waiting_in seat.old.me) place result }
{
    words.shared.load::<ReadLast>(seat, place)
}

/// What waits in a mailbox of sealed mailboxes.
fn told(words: &Words, seat: &mut Seat, word: u64, mailbox: u8) -> Left
    requires table { IsAt words.now.shared.table_id seat.old.table_id }
    requires sealed { (seat.old.me.0.sealed ≡ Some (waiting_in seat.old.me)) × (seat.old.me.1 ≡ []) }
    requires mailbox { mailbox < 3 }
    requires waits { IsInMailbox (waiting_in seat.old.me) word mailbox }
    ensures table { seat.new.table_id ≡ seat.old.table_id }
    ensures same { seat.new.me ≡ seat.old.me }
    ensures told { (w : Waiting) → Has (waiting_in seat.old.me) w → w.mailbox ≡ mailbox → lane_of word mailbox / 32
        ≡ w.route → result ≡ as_left w }
{
    let head = read_last(words, seat, 2 * usize::from(mailbox) + 1);
    let bytes = read_last(words, seat, 2 * usize::from(mailbox) + 2);
    let (frame, number) = unpack(head, bytes);
    Left {
        route: (lane(word, mailbox) / 32) as u8,
        number,
        frame,
    }
}

/// What waits, the oldest first.
fn leave(words: &Words, seat: &mut Seat, alloc: Global, word: u64) -> Result<Vec<Left>, AllocError>
    requires table { IsAt words.now.shared.table_id seat.old.table_id }
    requires sealed { (seat.old.me.0.sealed ≡ Some (waiting_in seat.old.me)) × (seat.old.me.1 ≡ []) }
    requires remains { Remains word (waiting_in seat.old.me) [] }
    requires few { length (waiting_in seat.old.me) ≤ 3 }
    ensures told { IfOk result (λ left. left.items ≡ map as_left (waiting_in seat.old.me)) }
    ensures few { IfOk result (λ left. length left.items ≤ 3) }
{
    let mut left = Vec::with_capacity(alloc, 3)?;
    let mut word = word;
    for _ in 0..3usize {
        let Some(mailbox) = oldest(word) else {
            return Ok(left);
        };
        left.push(told(words, seat, word, mailbox))?;
        word &= lane_mask(mailbox);
    }
    Ok(left)
}

/// Ends the mailboxes: what their sides did is tied together, and what waits is told, the oldest first.
pub(crate) fn end(
    alloc: Global,
    bus: BusSeat,
    sides: Vec<RouteSeat>,
) -> Result<Vec<Left>, AllocError>
    requires all { length sides.items ≡ routes_of bus }
    requires sides { AreSides IsSideOf bus sides.items }
    ensures tied { IfOk result (λ left. AllTied BusAfter RouteAfter bus.txfp bus sides.items left.items) }
    ensures beyond { IfOk result (λ left. NothingBeyond BusAfter (routes_of bus) bus left.items) }
    ensures few { IfOk result (λ left. length left.items ≤ 3) }
    ensures accounted { IfOk result (λ left. AreAccounted bus sides.items left.items) }
    ensures ended { IfOk result (λ left. HasEnded bus sides.items left.items) }
{
    let BusSeat {
        words,
        mut seat,
        mailbox: _,
        sends: _,
        tally: _,
    } = bus;
    join_all(&words, &mut seat, sides);
    let word = seal(&words, &mut seat);
    leave(&words, &mut seat, alloc, word)
}

/// Of each route, how many of its requests there were and how many ended how.
pub(crate) fn counts_of(
    alloc: Global,
    bus: &BusSeat,
    sides: &[RouteSeat],
) -> Result<Vec<RouteCounts>, AllocError>
    requires { length sides.now ≤ 8 }
    ensures size { IfOk result (λ counts. length counts.items ≡ length sides.now) }
    ensures counted { IfOk result (λ counts. AreCounted bus.now sides.now counts.items) }
{
    let mut counts = Vec::with_capacity(alloc, sides.len())?;
    for route in 0..sides.len() {
        let side = &sides[route];
        counts.push(RouteCounts {
            requested: side.requested,
            aborted: side.aborted,
            done: bus.tally.done[route],
            reaped: bus.tally.reaped[route],
        })?;
    }
    Ok(counts)
}

//! How the bus's seat gets ready, and starts.
ghost use Rattle.std.specs.Prelude.{◌≡◌, ℕ, ◌%◌, ◌<◌, None, true, false};
ghost use Rattle.std.specs.Prelude.{length, MatchOption, MatchBool, IfSome, IfNone};
ghost use Rattle.bx_words.specs.Lanes.{mark_of, rest_of, IsRequested};
ghost use Rattle.bx_shared.specs.declared.bus_view.BusView.{BusView};
ghost use Rattle.bx_shared.specs.Steps.{bus_seat, bus_of};
ghost use Rattle.bx_shared.specs.BusSteps.{HasKey, GoesNext};
ghost use Rattle.bx_shared.specs.Seats.{IsAt};
ghost use Rattle.bx_shared.specs.Calls.{IsScheduled, NoneScheduled, MayBeScheduled};
ghost use Rattle.bx_shared.specs.Calls.{NoneToSchedule, HasReadHeads, Readied, Began, NotBegan};

use crate::bus_steps::{look, read_bytes, read_head, schedule, start};
use crate::route_steps::{Seat, Words};
use bx_words::{key, lane, least, oldest, unpack, with_schedule, with_start};
use can_frame::Frame;

/// The low five bits of a lane whose request is pending, and of one whose request is scheduled.
const PENDING: u64 = 3;

const SCHEDULED: u64 = 7;

/// A mailbox whose request is scheduled and was not asked to end.
fn scheduled(word: u64) -> Option<u8>
    ensures { MatchOption result (NoneScheduled word) (IsScheduled word) }
{
    if lane(word, 0) % 32 == SCHEDULED {
        return Some(0);
    }
    if lane(word, 1) % 32 == SCHEDULED {
        return Some(1);
    }
    if lane(word, 2) % 32 == SCHEDULED {
        return Some(2);
    }
    None
}

/// Whether a mailbox holds a request that is scheduled or transmitting.
fn is_busy(word: u64, mailbox: u8) -> bool
    requires { mailbox < 3 }
    ensures { MatchBool result (IsRequested word mailbox × ¬ (mark_of word mailbox ≡ 3))
        (IsRequested word mailbox → mark_of word mailbox ≡ 3) }
{
    lane(word, mailbox) % 32 > PENDING
}

/// By order of requests: the mailbox of the oldest request, where that is pending.
fn next_by_order(word: u64) -> Option<u8>
    requires { rest_of word % 2 ≡ 0 }
    ensures { MatchOption result (NoneToSchedule word) (MayBeScheduled word) }
{
    let mailbox = oldest(word)?;
    if lane(word, mailbox) % 32 == PENDING {
        Some(mailbox)
    } else {
        None
    }
}

/// The arbitration key of the request in a mailbox, by its head, which is read; 0 where the mailbox holds none.
fn read_key(words: &Words, seat: &mut Seat, word: u64, mailbox: u8) -> u32
    requires table { IsAt words.now.shared.table_id seat.old.table_id }
    requires bus { seat.old.me ≡ bus_seat (bus_of seat.old.me) seat.old.me.0.routes }
    requires mailbox { mailbox < 3 }
    requires three { length (bus_of seat.old.me).heads ≡ 3 }
    ensures table { seat.new.table_id ≡ seat.old.table_id }
    ensures bus { seat.new.me ≡ bus_seat (bus_of seat.new.me) seat.old.me.0.routes }
    ensures read { HasReadHeads (bus_of seat.old.me) (bus_of seat.new.me) }
    ensures key { IsRequested word mailbox → HasKey (bus_of seat.new.me) mailbox result }
    ensures others { (j key : ℕ) → ¬ (j ≡ mailbox) → HasKey (bus_of seat.old.me) j key
        → HasKey (bus_of seat.new.me) j key }
{
    if lane(word, mailbox) % 32 < PENDING {
        return 0;
    }
    key(read_head(words, seat, mailbox))
}

/// By identifier: the mailbox of the request with the least (key, mailbox), where none is scheduled or transmitting.
fn next_by_identifier(words: &Words, seat: &mut Seat, word: u64) -> Option<u8>
    requires table { IsAt words.now.shared.table_id seat.old.table_id }
    requires bus { seat.old.me ≡ bus_seat (bus_of seat.old.me) seat.old.me.0.routes }
    requires three { length (bus_of seat.old.me).heads ≡ 3 }
    requires seen { (bus_of seat.old.me).seen ≡ word }
    requires counts { rest_of word % 2 ≡ 1 }
    ensures table { seat.new.table_id ≡ seat.old.table_id }
    ensures bus { seat.new.me ≡ bus_seat (bus_of seat.new.me) seat.old.me.0.routes }
    ensures read { HasReadHeads (bus_of seat.old.me) (bus_of seat.new.me) }
    ensures none { IfNone result (NoneToSchedule word) }
    ensures next { IfSome result (λ mailbox. (mailbox < 3) × GoesNext (bus_of seat.new.me) word mailbox) }
{
    if is_busy(word, 0) || is_busy(word, 1) || is_busy(word, 2) {
        return None;
    }
    let first = read_key(words, seat, word, 0);
    let second = read_key(words, seat, word, 1);
    let third = read_key(words, seat, word, 2);
    least(word, [first, second, third])
}

/// The mailbox of the request that is to be scheduled by this word, the last one looked at.
fn next(words: &Words, seat: &mut Seat, word: u64) -> Option<u8>
    requires table { IsAt words.now.shared.table_id seat.old.table_id }
    requires bus { seat.old.me ≡ bus_seat (bus_of seat.old.me) seat.old.me.0.routes }
    requires three { length (bus_of seat.old.me).heads ≡ 3 }
    requires seen { (bus_of seat.old.me).seen ≡ word }
    ensures table { seat.new.table_id ≡ seat.old.table_id }
    ensures bus { seat.new.me ≡ bus_seat (bus_of seat.new.me) seat.old.me.0.routes }
    ensures read { HasReadHeads (bus_of seat.old.me) (bus_of seat.new.me) }
    ensures none { IfNone result (NoneToSchedule word) }
    ensures next { IfSome result (λ mailbox. (mailbox < 3) × GoesNext (bus_of seat.new.me) word mailbox) }
{
    // bit 27 says whether requests are counted, which they are where priority is by identifier
    if (word >> 27) % 2 == 1 {
        next_by_identifier(words, seat, word)
    } else {
        next_by_order(word)
    }
}

/// Schedules the next request, where none is scheduled. Whether one is scheduled that may start.
pub(crate) fn ready(words: &Words, seat: &mut Seat) -> bool
    requires table { IsAt words.now.shared.table_id seat.old.table_id }
    requires bus { seat.old.me ≡ bus_seat (bus_of seat.old.me) seat.old.me.0.routes }
    requires due { (bus_of seat.old.me).reaps ≡ None }
    ensures table { seat.new.table_id ≡ seat.old.table_id }
    ensures bus { seat.new.me ≡ bus_seat (bus_of seat.new.me) seat.old.me.0.routes }
    ensures ready { Readied (bus_of seat.old.me) (bus_of seat.new.me) result }
{
    let word = look(words, seat);
    if scheduled(word).is_some() {
        return true;
    }
    let Some(mailbox) = next(words, seat, word) else {
        return false;
    };
    let new = with_schedule(word, mailbox);
    schedule(words, seat, mailbox, word, new) == word
}

/// Starts what is scheduled: its mailbox, and its route, its number and its frame.
pub(crate) fn begin(words: &Words, seat: &mut Seat) -> Option<(u8, (u8, u32, Frame))>
    requires table { IsAt words.now.shared.table_id seat.old.table_id }
    requires bus { seat.old.me ≡ bus_seat (bus_of seat.old.me) seat.old.me.0.routes }
    requires due { (bus_of seat.old.me).reaps ≡ None }
    ensures table { seat.new.table_id ≡ seat.old.table_id }
    ensures bus { seat.new.me ≡ bus_seat (bus_of seat.new.me) seat.old.me.0.routes }
    ensures mailbox { IfSome result (λ r. (r.0 < 3) × ((bus_of seat.new.me).mailbox ≡ r.0)) }
    ensures began { IfSome result (λ r. Began (bus_of seat.old.me) (bus_of seat.new.me) r.1) }
    ensures none { IfNone result (NotBegan (bus_of seat.old.me) (bus_of seat.new.me)) }
{
    let word = look(words, seat);
    let mailbox = scheduled(word)?;
    let route = (lane(word, mailbox) / 32) as u8;
    if start(words, seat, mailbox, word, with_start(word, mailbox)) != word {
        return None;
    }
    let head = read_head(words, seat, mailbox);
    let (frame, number) = unpack(head, read_bytes(words, seat, mailbox));
    Some((mailbox, (route, number, frame)))
}

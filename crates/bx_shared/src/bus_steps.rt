//! The atomic steps of the bus's seat on the words.
ghost use Rattle.std.specs.Prelude.{◌≡◌, ◌≢◌, ℕ, ◌+◌, ◌-◌, ◌<◌, ◌^◌, None, IsSome, bit_and};
ghost use Rattle.bx_words.specs.Lanes.{lane_of, mark_of, IsTransmitting, LaneSet};
ghost use Rattle.bx_words.specs.Payloads.{IsHead};
ghost use Rattle.bx_shared.specs.Steps.{bus_seat, bus_of};
ghost use Rattle.bx_shared.specs.BusSteps.{bus_looked, bus_tried, head_read, bus_completed, bus_failed};
ghost use Rattle.bx_shared.specs.BusSteps.{bus_reaped, GoesNext, IsStarted, IsHeadSent, AreBytesSent, AreFew};
ghost use Rattle.bx_shared.specs.Seats.{IsAt};

use crate::plays::{BusLook, Complete, Fail, ReadBytes, ReadHead, Reap, Schedule, Start};
use crate::route_steps::{Seat, Words};
use crate::said::Said;

/// One look at the control word.
pub(crate) fn look(words: &Words, seat: &mut Seat) -> u64
    requires table { IsAt words.now.shared.table_id seat.old.table_id }
    requires bus { seat.old.me ≡ bus_seat (bus_of seat.old.me) seat.old.me.0.routes }
    ensures table { seat.new.table_id ≡ seat.old.table_id }
    ensures looked { seat.new.me ≡ bus_seat (bus_looked (bus_of seat.old.me) result) seat.old.me.0.routes }
{
    words.shared.load::<BusLook>(seat, 0)
}

/// One try to schedule the next request. Gives the word found: the request is scheduled where that is `old`.
pub(crate) fn schedule(words: &Words, seat: &mut Seat, mailbox: u8, old: u64, new: u64) -> u64
    requires table { IsAt words.now.shared.table_id seat.old.table_id }
    requires bus { seat.old.me ≡ bus_seat (bus_of seat.old.me) seat.old.me.0.routes }
    requires due { (bus_of seat.old.me).reaps ≡ None }
    requires mailbox { mailbox < 3 }
    requires next { GoesNext (bus_of seat.old.me) old mailbox }
    requires schedule { LaneSet old mailbox (lane_of old mailbox + 4) new }
    ensures table { seat.new.table_id ≡ seat.old.table_id }
    ensures tried { seat.new.me ≡ bus_seat (bus_tried (bus_of seat.old.me) result new) seat.old.me.0.routes }
{
    words
        .shared
        .compare_exchange_with::<Schedule>(seat, 0, old, new, &Said::Mailbox(mailbox))
}

/// One try to start the scheduled request. Gives the word found: it is transmitting where that is `old`.
pub(crate) fn start(words: &Words, seat: &mut Seat, mailbox: u8, old: u64, new: u64) -> u64
    requires table { IsAt words.now.shared.table_id seat.old.table_id }
    requires bus { seat.old.me ≡ bus_seat (bus_of seat.old.me) seat.old.me.0.routes }
    requires due { (bus_of seat.old.me).reaps ≡ None }
    requires mailbox { mailbox < 3 }
    requires scheduled { mark_of old mailbox ≡ 7 }
    requires start { LaneSet old mailbox (lane_of old mailbox + 8) new }
    ensures table { seat.new.table_id ≡ seat.old.table_id }
    ensures bus { seat.new.me ≡ bus_seat (bus_of seat.new.me) seat.old.me.0.routes }
    ensures started { result ≡ old → IsStarted (bus_of seat.old.me) (bus_of seat.new.me) mailbox old new }
    ensures missed { result ≢ old → bus_of seat.new.me ≡ bus_tried (bus_of seat.old.me) result new }
{
    words
        .shared
        .compare_exchange_with::<Start>(seat, 0, old, new, &Said::Mailbox(mailbox))
}

/// The head of a mailbox.
pub(crate) fn read_head(words: &Words, seat: &mut Seat, mailbox: u8) -> u64
    requires table { IsAt words.now.shared.table_id seat.old.table_id }
    requires bus { seat.old.me ≡ bus_seat (bus_of seat.old.me) seat.old.me.0.routes }
    requires mailbox { mailbox < 3 }
    ensures table { seat.new.table_id ≡ seat.old.table_id }
    ensures read { seat.new.me ≡ bus_seat (head_read (bus_of seat.old.me) mailbox result) seat.old.me.0.routes }
    ensures head { IsHead result }
    ensures sent { IsHeadSent (bus_of seat.old.me) mailbox result }
{
    words
        .shared
        .load::<ReadHead>(seat, 2 * usize::from(mailbox) + 1)
}

/// The bytes of a mailbox.
pub(crate) fn read_bytes(words: &Words, seat: &mut Seat, mailbox: u8) -> u64
    requires table { IsAt words.now.shared.table_id seat.old.table_id }
    requires bus { seat.old.me ≡ bus_seat (bus_of seat.old.me) seat.old.me.0.routes }
    requires mailbox { mailbox < 3 }
    ensures table { seat.new.table_id ≡ seat.old.table_id }
    ensures same { seat.new.me ≡ seat.old.me }
    ensures sent { AreBytesSent (bus_of seat.old.me) mailbox result }
{
    words
        .shared
        .load::<ReadBytes>(seat, 2 * usize::from(mailbox) + 2)
}

/// Empties the mailbox of what was transmitted and is sent.
pub(crate) fn complete(words: &Words, seat: &mut Seat, mask: u64)
    requires table { IsAt words.now.shared.table_id seat.old.table_id }
    requires bus { seat.old.me ≡ bus_seat (bus_of seat.old.me) seat.old.me.0.routes }
    requires due { (bus_of seat.old.me).reaps ≡ None }
    requires sends { IsSome (bus_of seat.old.me).sends }
    requires mask { (word : ℕ) → word < 2 ^ 64 → LaneSet word (bus_of seat.old.me).mailbox 0 (bit_and word mask) }
    ensures table { seat.new.table_id ≡ seat.old.table_id }
    ensures completed { seat.new.me ≡ bus_seat (bus_completed (bus_of seat.old.me)) seat.old.me.0.routes }
    ensures few { AreFew (bus_of seat.old.me) }
{
    words.shared.fetch_and::<Complete>(seat, 0, mask);
}

/// What was transmitted failed and is scheduled again. Gives the word found, which says whether its abort was asked.
pub(crate) fn fail(words: &Words, seat: &mut Seat, mask: u64) -> u64
    requires table { IsAt words.now.shared.table_id seat.old.table_id }
    requires bus { seat.old.me ≡ bus_seat (bus_of seat.old.me) seat.old.me.0.routes }
    requires sends { IsSome (bus_of seat.old.me).sends }
    requires mask { (word : ℕ) → word < 2 ^ 64 → IsTransmitting word (bus_of seat.old.me).mailbox
        → LaneSet word (bus_of seat.old.me).mailbox (lane_of word (bus_of seat.old.me).mailbox - 8)
        (bit_and word mask) }
    ensures table { seat.new.table_id ≡ seat.old.table_id }
    ensures failed { seat.new.me ≡ bus_seat (bus_failed (bus_of seat.old.me) result) seat.old.me.0.routes }
    ensures found { IsTransmitting result (bus_of seat.old.me).mailbox }
{
    words.shared.fetch_and::<Fail>(seat, 0, mask)
}

/// Empties the mailbox of what failed with its abort asked.
pub(crate) fn reap(words: &Words, seat: &mut Seat, mask: u64)
    requires table { IsAt words.now.shared.table_id seat.old.table_id }
    requires bus { seat.old.me ≡ bus_seat (bus_of seat.old.me) seat.old.me.0.routes }
    requires due { IsSome (bus_of seat.old.me).reaps }
    requires mask { (word : ℕ) → word < 2 ^ 64 → LaneSet word (bus_of seat.old.me).mailbox 0 (bit_and word mask) }
    ensures table { seat.new.table_id ≡ seat.old.table_id }
    ensures reaped { seat.new.me ≡ bus_seat (bus_reaped (bus_of seat.old.me)) seat.old.me.0.routes }
    ensures few { AreFew (bus_of seat.old.me) }
{
    words.shared.fetch_and::<Reap>(seat, 0, mask);
}

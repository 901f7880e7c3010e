//! The atomic steps of a route's seat on the words.
ghost use Rattle.std.specs.Prelude.{◌≡◌, ◌≢◌, ◌⊎◌, ℕ, ◌+◌, ◌/◌, ◌<◌, ◌^◌, true, false, bit_and};
ghost use Rattle.bx_core.specs.Steps.{last_number};
ghost use Rattle.bx_words.specs.Lanes.{lane_of, mark_of, filling, LaneSet, LaneRequested};
ghost use Rattle.bx_words.specs.Payloads.{IsHead, ArePacked};
ghost use Rattle.bx_shared.specs.Steps.{seat_of, part_of, looked, missed, claimed, head_stored};
ghost use Rattle.bx_shared.specs.Steps.{bytes_stored, requested, withdrawn, aborted_at, asked_at, IsOwn};
ghost use Rattle.bx_shared.specs.Seats.{IsAt};

use crate::plays::{Abort, Ask, Claim, Look, Request, ShowsCore, StoreBytes, StoreHead, Withdraw};
use crate::said::Said;
use crate::view::View;
use atomic_table::Table;
use bx_core::Entry;
use std::alloc::Global;

/// The control word, and of each mailbox its head and its bytes. The key is the priority: true is TXFP set.
pub(crate) type Words = Table<Said, View, bool, ShowsCore, Global>;

/// A seat at the words.
pub(crate) type Seat = atomic_table::Seat<Said, View>;

/// One look at the control word.
pub(crate) fn look(words: &Words, seat: &mut Seat) -> u64
    requires table { IsAt words.now.shared.table_id seat.old.table_id }
    requires route { seat.old.me ≡ seat_of (part_of seat.old.me) }
    ensures table { seat.new.table_id ≡ seat.old.table_id }
    ensures looked { seat.new.me ≡ seat_of (looked (part_of seat.old.me) result) }
    ensures own { IsOwn (part_of seat.old.me) result }
{
    words.shared.load::<Look>(seat, 0)
}

/// One try to claim an empty mailbox. Gives the word found: the claim stands where that is `old`.
pub(crate) fn claim(words: &Words, seat: &mut Seat, mailbox: u8, old: u64, new: u64) -> u64
    requires table { IsAt words.now.shared.table_id seat.old.table_id }
    requires route { seat.old.me ≡ seat_of (part_of seat.old.me) }
    requires small { (part_of seat.old.me).route < 8 }
    requires idle { (part_of seat.old.me).claims ≡ false }
    requires mailbox { mailbox < 3 }
    requires empty { lane_of old mailbox ≡ 0 }
    requires claim { LaneSet old mailbox (filling (part_of seat.old.me).route) new }
    ensures table { seat.new.table_id ≡ seat.old.table_id }
    ensures claimed { result ≡ old → seat.new.me ≡ seat_of (claimed (part_of seat.old.me) mailbox) }
    ensures missed { result ≢ old → (seat.new.me ≡ seat_of (missed (part_of seat.old.me) result))
        × IsOwn (part_of seat.old.me) result }
{
    words
        .shared
        .compare_exchange_with::<Claim>(seat, 0, old, new, &Said::Mailbox(mailbox))
}

/// Stores the head of what is to be requested in the mailbox that the seat fills.
pub(crate) fn store_head(words: &Words, seat: &mut Seat, mailbox: u8, head: u64)
    requires table { IsAt words.now.shared.table_id seat.old.table_id }
    requires route { seat.old.me ≡ seat_of (part_of seat.old.me) }
    requires fills { (mailbox < 3) × ((part_of seat.old.me).claims ≡ true) × ((part_of seat.old.me).mailbox ≡ mailbox) }
    requires head { IsHead head }
    ensures table { seat.new.table_id ≡ seat.old.table_id }
    ensures stored { seat.new.me ≡ seat_of (head_stored (part_of seat.old.me) head) }
{
    words
        .shared
        .store::<StoreHead>(seat, 2 * usize::from(mailbox) + 1, head);
}

/// Stores its bytes there, behind the head.
pub(crate) fn store_bytes(words: &Words, seat: &mut Seat, mailbox: u8, bytes: u64)
    requires table { IsAt words.now.shared.table_id seat.old.table_id }
    requires route { seat.old.me ≡ seat_of (part_of seat.old.me) }
    requires fills { (mailbox < 3) × ((part_of seat.old.me).claims ≡ true) × ((part_of seat.old.me).mailbox ≡ mailbox) }
    requires head { (part_of seat.old.me).stored ≡ 1 }
    ensures table { seat.new.table_id ≡ seat.old.table_id }
    ensures stored { seat.new.me ≡ seat_of (bytes_stored (part_of seat.old.me) bytes) }
{
    words
        .shared
        .store::<StoreBytes>(seat, 2 * usize::from(mailbox) + 2, bytes);
}

/// One try to request what was stored. Gives the word found: the request stands where that is `old`.
pub(crate) fn request(words: &Words, seat: &mut Seat, entry: Entry, old: u64, new: u64) -> u64
    requires table { IsAt words.now.shared.table_id seat.old.table_id }
    requires route { seat.old.me ≡ seat_of (part_of seat.old.me) }
    requires filled { ((part_of seat.old.me).claims ≡ true) × ((part_of seat.old.me).stored ≡ 2) }
    requires packed { ArePacked entry.frame entry.number (part_of seat.old.me).head (part_of seat.old.me).bytes }
    requires number { last_number (part_of seat.old.me).requested < entry.number }
    requires request { LaneRequested old (part_of seat.old.me).mailbox (filling (part_of seat.old.me).route + 2) new }
    ensures table { seat.new.table_id ≡ seat.old.table_id }
    ensures requested { result ≡ old → seat.new.me ≡ seat_of (requested (part_of seat.old.me) entry) }
    ensures missed { result ≢ old → (seat.new.me ≡ seat_of (missed (part_of seat.old.me) result))
        × IsOwn (part_of seat.old.me) result }
{
    words
        .shared
        .compare_exchange_with::<Request>(seat, 0, old, new, &Said::Request(entry))
}

/// Gives the claim back.
pub(crate) fn withdraw(words: &Words, seat: &mut Seat, mask: u64)
    requires table { IsAt words.now.shared.table_id seat.old.table_id }
    requires route { seat.old.me ≡ seat_of (part_of seat.old.me) }
    requires claims { (part_of seat.old.me).claims ≡ true }
    requires mask { (word : ℕ) → word < 2 ^ 64 → LaneSet word (part_of seat.old.me).mailbox 0 (bit_and word mask) }
    ensures table { seat.new.table_id ≡ seat.old.table_id }
    ensures withdrawn { seat.new.me ≡ seat_of (withdrawn (part_of seat.old.me)) }
{
    words.shared.fetch_and::<Withdraw>(seat, 0, mask);
}

/// One try to take a request out that isn't transmitting. Gives the word found: the mailbox is empty where that is
/// `old`.
pub(crate) fn abort(words: &Words, seat: &mut Seat, mailbox: u8, old: u64, new: u64) -> u64
    requires table { IsAt words.now.shared.table_id seat.old.table_id }
    requires route { seat.old.me ≡ seat_of (part_of seat.old.me) }
    requires small { (part_of seat.old.me).route < 8 }
    requires idle { (part_of seat.old.me).claims ≡ false }
    requires mailbox { mailbox < 3 }
    requires rests { (mark_of old mailbox ≡ 3) ⊎ (mark_of old mailbox ≡ 7) }
    requires own { lane_of old mailbox / 32 ≡ (part_of seat.old.me).route }
    requires abort { LaneSet old mailbox 0 new }
    ensures table { seat.new.table_id ≡ seat.old.table_id }
    ensures aborted { result ≡ old → seat.new.me ≡ seat_of (aborted_at (part_of seat.old.me) mailbox) }
    ensures missed { result ≢ old → (seat.new.me ≡ seat_of (missed (part_of seat.old.me) result))
        × IsOwn (part_of seat.old.me) result }
{
    words
        .shared
        .compare_exchange_with::<Abort>(seat, 0, old, new, &Said::Mailbox(mailbox))
}

/// One try to ask for the end of what is transmitting. Gives the word found: the abort is asked where that is `old`.
pub(crate) fn ask(words: &Words, seat: &mut Seat, mailbox: u8, old: u64, new: u64) -> u64
    requires table { IsAt words.now.shared.table_id seat.old.table_id }
    requires route { seat.old.me ≡ seat_of (part_of seat.old.me) }
    requires small { (part_of seat.old.me).route < 8 }
    requires idle { (part_of seat.old.me).claims ≡ false }
    requires mailbox { mailbox < 3 }
    requires sends { mark_of old mailbox ≡ 15 }
    requires own { lane_of old mailbox / 32 ≡ (part_of seat.old.me).route }
    requires ask { LaneSet old mailbox (lane_of old mailbox + 16) new }
    ensures table { seat.new.table_id ≡ seat.old.table_id }
    ensures asked { result ≡ old → seat.new.me ≡ seat_of (asked_at (part_of seat.old.me) mailbox) }
    ensures missed { result ≢ old → (seat.new.me ≡ seat_of (missed (part_of seat.old.me) result))
        × IsOwn (part_of seat.old.me) result }
{
    words
        .shared
        .compare_exchange_with::<Ask>(seat, 0, old, new, &Said::Mailbox(mailbox))
}

//! One try of a route's seat to request a frame.
ghost use Rattle.std.specs.Prelude.{◌≡◌, ◌<◌, ◌^◌, true, false, MatchOption};
ghost use Rattle.std.specs.Prelude.{IfSome, IfNone, IfOk, IfErr, OnOk, OnSome, [], ◌∷◌};
ghost use Rattle.bx_core.specs.declared.point.Point.TheVariants.{Look, Fill, Request, Withdraw};
ghost use Rattle.bx_core.specs.Gate.{Passes};
ghost use Rattle.bx_core.specs.Steps.{last_number};
ghost use Rattle.bx_words.specs.Payloads.{IsHead, ArePacked};
ghost use Rattle.bx_shared.specs.Steps.{seat_of, part_of, head_stored, bytes_stored};
ghost use Rattle.bx_shared.specs.Seats.{IsAt, IsFull, IsLowest, IsClaimed, IsUnclaimed};
ghost use Rattle.bx_shared.specs.Seats.{IsRequested, IsLost, Answers, HearsUnclaimed, Hears, to_claim};

use crate::request_answer::RequestAnswer;
use crate::route_steps::{Seat, Words, claim, look, request, store_bytes, store_head, withdraw};
use bx_core::{Entry, Gate, Point};
use bx_words::{lane, lane_mask, pack, with_claim, with_request};

/// The lowest empty mailbox of a control word.
fn lowest_empty(word: u64) -> Option<u8>
    ensures { MatchOption result (IsFull word) (IsLowest word) }
{
    if lane(word, 0) == 0 {
        return Some(0);
    }
    if lane(word, 1) == 0 {
        return Some(1);
    }
    if lane(word, 2) == 0 {
        return Some(2);
    }
    None
}

/// Looks, and claims the lowest empty mailbox. No mailbox is claimed where this gives the answer to the request.
fn claim_lowest<G: Gate>(
    words: &Words,
    seat: &mut Seat,
    route: u8,
    gate: &mut G,
) -> Result<u8, RequestAnswer>
    requires table { IsAt words.now.shared.table_id seat.old.table_id }
    requires route { (seat.old.me ≡ seat_of (part_of seat.old.me)) × ((part_of seat.old.me).route ≡ route)
        × (route < 8) }
    requires idle { (part_of seat.old.me).claims ≡ false }
    ensures table { seat.new.table_id ≡ seat.old.table_id }
    ensures route { seat.new.me ≡ seat_of (part_of seat.new.me) }
    ensures claimed { IfOk result (IsClaimed (part_of seat.old.me) (part_of seat.new.me)) }
    ensures refused { IfErr result (IsUnclaimed (part_of seat.old.me) (part_of seat.new.me)) }
    ensures hears { OnOk result (Passes G.may_have_heard to_claim gate.old gate.new) }
    ensures hears_none { IfErr result (λ answer. HearsUnclaimed G.may_have_heard answer gate.old gate.new) }
{
    gate.pass(Point::Look);
    let seen = look(words, seat);
    let Some(mailbox) = lowest_empty(seen) else {
        return Err(RequestAnswer::NoRoom);
    };
    gate.pass(Point::Claim);
    let found = claim(words, seat, mailbox, seen, with_claim(seen, mailbox, route));
    if found != seen {
        return Err(RequestAnswer::Contended(found));
    }
    Ok(mailbox)
}

/// Stores both payload words of the mailbox that the seat fills.
fn fill<G: Gate>(words: &Words, seat: &mut Seat, mailbox: u8, head: u64, bytes: u64, gate: &mut G)
    requires table { IsAt words.now.shared.table_id seat.old.table_id }
    requires route { seat.old.me ≡ seat_of (part_of seat.old.me) }
    requires fills { (mailbox < 3) × ((part_of seat.old.me).claims ≡ true) × ((part_of seat.old.me).mailbox ≡ mailbox) }
    requires head { IsHead head }
    ensures table { seat.new.table_id ≡ seat.old.table_id }
    ensures filled { seat.new.me ≡ seat_of (bytes_stored (head_stored (part_of seat.old.me) head) bytes) }
    ensures hears { Passes G.may_have_heard (Fill ∷ Fill ∷ []) gate.old gate.new }
{
    gate.pass(Point::Fill);
    store_head(words, seat, mailbox, head);
    gate.pass(Point::Fill);
    store_bytes(words, seat, mailbox, bytes);
}

/// Looks, and requests what the seat stored in the mailbox that it fills. Where another seat was faster the claim is
/// given back, and this gives the word found.
fn request_filled<G: Gate>(
    words: &Words,
    seat: &mut Seat,
    mailbox: u8,
    route: u8,
    entry: Entry,
    gate: &mut G,
) -> Option<u64>
    requires table { IsAt words.now.shared.table_id seat.old.table_id }
    requires route { (seat.old.me ≡ seat_of (part_of seat.old.me)) × ((part_of seat.old.me).route ≡ route)
        × (route < 8) }
    requires fills { (mailbox < 3) × ((part_of seat.old.me).claims ≡ true) × ((part_of seat.old.me).mailbox ≡ mailbox) }
    requires stored { (part_of seat.old.me).stored ≡ 2 }
    requires packed { ArePacked entry.frame entry.number (part_of seat.old.me).head (part_of seat.old.me).bytes }
    requires above { last_number (part_of seat.old.me).requested < entry.number }
    ensures table { seat.new.table_id ≡ seat.old.table_id }
    ensures route { seat.new.me ≡ seat_of (part_of seat.new.me) }
    ensures requested { IfNone result (IsRequested (part_of seat.old.me) (part_of seat.new.me) entry) }
    ensures lost { IfSome result (IsLost (part_of seat.old.me) (part_of seat.new.me)) }
    ensures hears { IfNone result (Passes G.may_have_heard (Look ∷ Request ∷ []) gate.old gate.new) }
    ensures hears_lost { OnSome result (Passes G.may_have_heard (Look ∷ Request ∷ Withdraw ∷ []) gate.old gate.new) }
{
    gate.pass(Point::Look);
    let seen = look(words, seat);
    gate.pass(Point::Request);
    let found = request(words, seat, entry, seen, with_request(seen, mailbox, route));
    if found == seen {
        return None;
    }
    gate.pass(Point::Withdraw);
    withdraw(words, seat, lane_mask(mailbox));
    Some(found)
}

/// Looks, claims the lowest empty mailbox, stores both payload words, looks again and requests. Each exchange is tried
/// once; a claim whose request lost is given back.
pub(crate) fn attempt<G: Gate>(
    words: &Words,
    seat: &mut Seat,
    route: u8,
    entry: Entry,
    gate: &mut G,
) -> RequestAnswer
    requires table { IsAt words.now.shared.table_id seat.old.table_id }
    requires route { (seat.old.me ≡ seat_of (part_of seat.old.me)) × ((part_of seat.old.me).route ≡ route)
        × (route < 8) }
    requires idle { (part_of seat.old.me).claims ≡ false }
    requires above { last_number (part_of seat.old.me).requested < entry.number }
    requires small { entry.number < 2 ^ 24 }
    ensures table { seat.new.table_id ≡ seat.old.table_id }
    ensures route { seat.new.me ≡ seat_of (part_of seat.new.me) }
    ensures answer { Answers (part_of seat.old.me) (part_of seat.new.me) entry.number entry.frame result }
    ensures hears { Hears G.may_have_heard (part_of seat.old.me) (part_of seat.new.me) result gate.old gate.new }
{
    let mailbox = match claim_lowest(words, seat, route, gate) {
        Ok(mailbox) => mailbox,
        Err(answer) => return answer,
    };
    let (head, bytes) = pack(&entry.frame, entry.number);
    fill(words, seat, mailbox, head, bytes, gate);
    match request_filled(words, seat, mailbox, route, entry, gate) {
        None => RequestAnswer::Taken(mailbox),
        Some(word) => RequestAnswer::Contended(word),
    }
}

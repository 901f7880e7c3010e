//! One try of a route's seat to abort a request.
ghost use Rattle.std.specs.Prelude.{◌≡◌, ◌⊎◌, ◌/◌, ◌≤◌, ◌<◌, true, false, length, IfSome, IfNone, [], ◌∷◌};
ghost use Rattle.bx_core.specs.declared.point.Point.TheVariants.{Look, Abort};
ghost use Rattle.bx_core.specs.Gate.{Passes};
ghost use Rattle.bx_core.specs.Steps.{last_number, greatest_number};
ghost use Rattle.bx_words.specs.Lanes.{lane_of, mark_of};
ghost use Rattle.bx_shared.specs.Ended.{is_in, stays_in};
ghost use Rattle.bx_shared.specs.Steps.{seat_of, part_of, IsOwn};
ghost use Rattle.bx_shared.specs.Seats.{IsAt};
ghost use Rattle.bx_shared.specs.Calls.{Stays, Answered, TakesOut, AsksNow, HearsAbort};

use crate::abort_outcome::AbortOutcome;
use crate::route_steps::{Seat, Words, abort, ask, look};
use bx_core::{Gate, Point};
use bx_words::{lane, lane_mask, with_abort};

/// The mark of a request that is transmitting; with its abort asked it is greater, and so is that of one that failed
/// then.
const TRANSMITTING: u64 = 15;

/// Whether a mailbox holds this number of the route, which last requested `tops` there.
fn holds(word: u64, route: u8, number: u32, tops: &[u32; 3], mailbox: u8) -> bool
    requires { mailbox < 3 }
    ensures { result ≡ is_in tops.now route word number mailbox }
{
    let lane = lane(word, mailbox);
    lane / 32 == u64::from(route) && 2 < lane % 32 && tops[usize::from(mailbox)] == number
}

/// The mailbox that holds it.
fn place(word: u64, route: u8, number: u32, tops: &[u32; 3]) -> Option<u8>
    ensures none { IfNone result (stays_in tops.now route word number ≡ false) }
    ensures some { IfSome result (λ mailbox. (mailbox < 3) × (is_in tops.now route word number mailbox ≡ true)) }
{
    if holds(word, route, number, tops, 0) {
        return Some(0);
    }
    if holds(word, route, number, tops, 1) {
        return Some(1);
    }
    if holds(word, route, number, tops, 2) {
        return Some(2);
    }
    None
}

/// Takes a request out that is pending or scheduled by the word looked at.
fn take_out<G: Gate>(
    words: &Words,
    seat: &mut Seat,
    seen: u64,
    mailbox: u8,
    gate: &mut G,
) -> AbortOutcome
    requires table { IsAt words.now.shared.table_id seat.old.table_id }
    requires route { seat.old.me ≡ seat_of (part_of seat.old.me) }
    requires idle { ((part_of seat.old.me).route < 8) × ((part_of seat.old.me).claims ≡ false) }
    requires seen { ((part_of seat.old.me).seen ≡ seen) × IsOwn (part_of seat.old.me) seen }
    requires mailbox { mailbox < 3 }
    requires rests { (mark_of seen mailbox ≡ 3) ⊎ (mark_of seen mailbox ≡ 7) }
    requires own { lane_of seen mailbox / 32 ≡ (part_of seat.old.me).route }
    ensures table { seat.new.table_id ≡ seat.old.table_id }
    ensures route { seat.new.me ≡ seat_of (part_of seat.new.me) }
    ensures answer { TakesOut (part_of seat.old.me) (part_of seat.new.me) mailbox result }
    ensures hears { Passes G.may_have_heard (Abort ∷ []) gate.old gate.new }
{
    gate.pass(Point::Abort);
    let found = abort(words, seat, mailbox, seen, seen & lane_mask(mailbox));
    if found == seen {
        AbortOutcome::Aborted
    } else {
        AbortOutcome::Contended(found)
    }
}

/// Asks for the end of a request that is transmitting by the word looked at.
fn ask_end<G: Gate>(
    words: &Words,
    seat: &mut Seat,
    seen: u64,
    mailbox: u8,
    gate: &mut G,
) -> AbortOutcome
    requires table { IsAt words.now.shared.table_id seat.old.table_id }
    requires route { seat.old.me ≡ seat_of (part_of seat.old.me) }
    requires idle { ((part_of seat.old.me).route < 8) × ((part_of seat.old.me).claims ≡ false) }
    requires seen { ((part_of seat.old.me).seen ≡ seen) × IsOwn (part_of seat.old.me) seen }
    requires mailbox { mailbox < 3 }
    requires sends { mark_of seen mailbox ≡ 15 }
    requires own { lane_of seen mailbox / 32 ≡ (part_of seat.old.me).route }
    ensures table { seat.new.table_id ≡ seat.old.table_id }
    ensures route { seat.new.me ≡ seat_of (part_of seat.new.me) }
    ensures answer { AsksNow (part_of seat.old.me) (part_of seat.new.me) mailbox result }
    ensures hears { Passes G.may_have_heard (Abort ∷ []) gate.old gate.new }
{
    gate.pass(Point::Abort);
    let found = ask(words, seat, mailbox, seen, with_abort(seen, mailbox));
    if found == seen {
        AbortOutcome::Asked
    } else {
        AbortOutcome::Contended(found)
    }
}

/// Looks, and takes the request out, or asks for its end where it is transmitting. One exchange at most is tried.
pub(crate) fn end<G: Gate>(
    words: &Words,
    seat: &mut Seat,
    route: u8,
    number: u32,
    tops: &[u32; 3],
    gate: &mut G,
) -> AbortOutcome
    requires table { IsAt words.now.shared.table_id seat.old.table_id }
    requires route { (seat.old.me ≡ seat_of (part_of seat.old.me)) × ((part_of seat.old.me).route ≡ route)
        × (route < 8) }
    requires idle { (part_of seat.old.me).claims ≡ false }
    requires tops { (part_of seat.old.me).last ≡ tops.now }
    requires number { (1 ≤ number) × (number ≤ last_number (part_of seat.old.me).requested) }
    ensures table { seat.new.table_id ≡ seat.old.table_id }
    ensures route { seat.new.me ≡ seat_of (part_of seat.new.me) }
    ensures stays { Stays (part_of seat.old.me) (part_of seat.new.me) }
    ensures answer { Answered (part_of seat.old.me) (part_of seat.new.me) number result }
    ensures hears { HearsAbort G.may_have_heard (part_of seat.old.me) (part_of seat.new.me) result gate.old gate.new }
    ensures few { length (part_of seat.old.me).aborted ≤ greatest_number }
{
    gate.pass(Point::Look);
    let seen = look(words, seat);
    let Some(mailbox) = place(seen, route, number, tops) else {
        return AbortOutcome::Gone;
    };
    let mark = lane(seen, mailbox) % 32;
    if mark > TRANSMITTING {
        return AbortOutcome::Asked;
    }
    if mark == TRANSMITTING {
        ask_end(words, seat, seen, mailbox, gate)
    } else {
        take_out(words, seat, seen, mailbox, gate)
    }
}

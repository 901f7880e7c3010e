//! The requests in the three mailboxes, the oldest first.
ghost use Rattle.std.specs.Prelude.{◌≡◌, ◌<◌, ◌++◌, ◌∷◌, [], ℕ, None, length, slice_get};
ghost use Rattle.std.specs.Prelude.{slice_set, IsTrue, ◌↔◌, IsSome, IfSome, IfNone, option_map};
ghost use Rattle.bx_core.specs.States.{at_mailbox, place_of, of_number, is_pending};
ghost use Rattle.bx_core.specs.Steps.{may_start};
ghost use Rattle.bx_mail.specs.Boxes.{IsLowestFree, NoneIsFree, on_bus_now, scheduled_first, may_start_first};
ghost use Rattle.bx_mail.specs.Boxes.{started_first, starting, left_first, leaving, failed_first, reaping};
ghost use Rattle.bx_mail.specs.Boxes.{aborted_of, IsSeated};
ghost use Rattle.bx_mail.specs.declared.posting.Asks.TheVariants.{Transmit};

use crate::posting::{Asks, Posting};
use arrayvec::ArrayVec;
use bx_core::{Status, Waiting};
use can_frame::Frame;

/// Three mailboxes at most hold a request.
pub(crate) type Boxes = ArrayVec<Waiting, 3>;

/// The lowest empty mailbox.
pub(crate) fn lowest_free(boxes: &[Waiting]) -> Option<u8>
    ensures some { IfSome result (IsLowestFree boxes.now) }
    ensures none { IfNone result (NoneIsFree boxes.now) }
{
    for mailbox in 0..3u8 {
        if find(boxes, mailbox).is_none() {
            return Some(mailbox);
        }
    }
    None
}

/// The request in a mailbox, and its place among these.
fn find(boxes: &[Waiting], mailbox: u8) -> Option<(usize, Waiting)>
    ensures place { IfSome result (λ found. found.0 ≡ place_of mailbox boxes.now) }
    ensures within { IfSome result (λ found. found.0 < length boxes.now) }
    ensures waiting { option_map (λ found. found.1) result ≡ at_mailbox mailbox boxes.now }
{
    for (place, waiting) in boxes.iter().enumerate() {
        if waiting.mailbox == mailbox {
            return Some((place, *waiting));
        }
    }
    None
}

/// The request of a route's number.
fn of_number(boxes: &[Waiting], route: u8, number: u32) -> Option<Waiting>
    ensures { result ≡ of_number route number boxes.now }
{
    for waiting in boxes {
        if waiting.route == route && waiting.number == number {
            return Some(*waiting);
        }
    }
    None
}

/// The oldest request.
fn first(boxes: &[Waiting]) -> Option<Waiting>
    ensures { result ≡ slice_get boxes.now 0 }
{
    boxes.first().copied()
}

fn set_at(boxes: &mut Boxes, place: usize, waiting: Waiting)
    requires { place < length boxes.old.items }
    ensures { boxes.new.items ≡ slice_set boxes.old.items place waiting }
{
    boxes[place] = waiting;
}

/// Puts a request into the lowest empty mailbox, behind the others. Whether one was empty.
pub(crate) fn seat(boxes: &mut Boxes, posting: &Posting) -> bool
    requires { (m : ℕ) → m < 3 → at_mailbox m boxes.old.items ≡ None → length boxes.old.items < 3 }
    ensures { IsSeated boxes.old.items posting.now.route posting.now.number posting.now.what result boxes.new.items }
{
    match posting.what {
        Asks::Transmit(frame) => seat_frame(boxes, posting.route, posting.number, frame),
        Asks::Abort => false,
    }
}

fn seat_frame(boxes: &mut Boxes, route: u8, number: u32, frame: Frame) -> bool
    requires { (m : ℕ) → m < 3 → at_mailbox m boxes.old.items ≡ None → length boxes.old.items < 3 }
    ensures { IsSeated boxes.old.items route number (Transmit frame) result boxes.new.items }
{
    let Some(mailbox) = lowest_free(boxes.as_slice()) else {
        return false;
    };
    boxes.push(Waiting {
        route,
        number,
        frame,
        mailbox,
        status: Status::Pending,
        abort_asked: false,
    });
    true
}

/// Schedules the oldest request, where it is pending. Whether it may start.
pub(crate) fn schedule(boxes: &mut Boxes) -> bool
    ensures boxes { boxes.new.items ≡ scheduled_first boxes.old.items }
    ensures ready { result ≡ may_start_first boxes.new.items }
{
    let Some(mut waiting) = first(boxes.as_slice()) else {
        return false;
    };
    if is_pending(&waiting) {
        waiting.status = Status::Scheduled;
        set_at(boxes, 0, waiting);
        return may_start(&waiting);
    }
    may_start(&waiting)
}

fn is_pending(waiting: &Waiting) -> bool
    ensures { result ≡ is_pending waiting.now.status }
{
    matches!(waiting.status, Status::Pending)
}

fn may_start(waiting: &Waiting) -> bool
    ensures { result ≡ may_start waiting.now }
{
    matches!(waiting.status, Status::Scheduled) && !waiting.abort_asked
}

/// Starts the oldest request, where it may start.
pub(crate) fn start(boxes: &mut Boxes) -> Option<(u8, u32, Frame)>
    ensures boxes { boxes.new.items ≡ started_first boxes.old.items }
    ensures result { result ≡ starting boxes.old.items }
{
    let mut waiting = first(boxes.as_slice())?;
    if !may_start(&waiting) {
        return None;
    }
    waiting.status = Status::Transmitting;
    set_at(boxes, 0, waiting);
    Some((waiting.route, waiting.number, waiting.frame))
}

/// Takes the oldest request, which was sent, out of its mailbox. Returns its route, its number and its frame.
pub(crate) fn complete(boxes: &mut Boxes) -> Option<(u8, u32, Frame)>
    ensures boxes { boxes.new.items ≡ left_first boxes.old.items }
    ensures left { result ≡ leaving boxes.old.items }
{
    let waiting = first(boxes.as_slice())?;
    boxes.remove(0);
    Some((waiting.route, waiting.number, waiting.frame))
}

/// The oldest request failed: it leaves where its abort was asked, else it is scheduled again.
pub(crate) fn fail(boxes: &mut Boxes) -> Option<(u8, u32)>
    ensures boxes { boxes.new.items ≡ failed_first boxes.old.items }
    ensures result { result ≡ reaping boxes.old.items }
{
    let mut waiting = first(boxes.as_slice())?;
    if waiting.abort_asked {
        boxes.remove(0);
        return Some((waiting.route, waiting.number));
    }
    waiting.status = Status::Scheduled;
    set_at(boxes, 0, waiting);
    None
}

/// A route asks its request to end: it leaves, or is asked to where it is transmitting. Of a number that waits in no
/// mailbox nothing is done.
pub(crate) fn abort(boxes: &mut Boxes, route: u8, number: u32)
    ensures { boxes.new.items ≡ aborted_of route number boxes.old.items }
{
    let Some(mut waiting) = of_number(boxes.as_slice(), route, number) else {
        return;
    };
    let Some((at, _)) = find(boxes.as_slice(), waiting.mailbox) else {
        return;
    };
    if waiting.abort_asked {
        return;
    }
    if matches!(waiting.status, Status::Transmitting) {
        waiting.abort_asked = true;
        set_at(boxes, at, waiting);
    } else {
        boxes.remove(at);
    }
}

/// Whether one is on the bus.
pub(crate) fn is_transmitting(boxes: &[Waiting]) -> bool
    ensures { IsTrue result ↔ IsSome (on_bus_now boxes.now) }
{
    match first(boxes) {
        Some(waiting) => matches!(waiting.status, Status::Transmitting),
        None => false,
    }
}

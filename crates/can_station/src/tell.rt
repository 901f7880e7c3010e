//! Appends the events of a bit to the record: what the nodes did.

ghost use Rattle.std.specs.Prelude.{◌≡◌, ◌+◌, ◌*◌, ◌≤◌, ◌<◌, ◌++◌, ◌∷◌, [], length, vec_len, vec_capacity};
ghost use Rattle.can_station.specs.Lines.{lines, outcome_kinds, reaped_kinds};
ghost use Rattle.can_station.specs.Tellings.{start_of, rest_by, events_by};

use crate::action::Action;
use crate::event::{Event, EventKind, Label};
use crate::member::Member;
use crate::transmission::Transmission;
use can_node::Outcome;

/// Appends one event, for which there is room.
// inlined: the kind is known here, so that one arm of `Event::new` is left
#[inline(always)]
fn push(events: &mut Vec<Event>, bit: u64, node: u16, reported: EventKind)
    requires { vec_len events.old < vec_capacity events.old }
    ensures value { events.new.items ≡ events.old.items ++ lines bit node (reported ∷ []) }
    ensures len { vec_len events.new ≡ vec_len events.old + 1 }
    ensures capacity { vec_capacity events.old ≤ vec_capacity events.new }
{
    let _ = events.push(Event::new(bit, node, reported));
}

/// Appends the event that the node began to send a frame, if it did.
fn tell_start(events: &mut Vec<Event>, bit: u64, node: u16, action: &Action)
    requires { vec_len events.old < vec_capacity events.old }
    ensures value { events.new.items ≡ events.old.items ++ lines bit node (start_of action.now) }
    ensures len { vec_len events.new ≤ vec_len events.old + 1 }
    ensures capacity { vec_capacity events.old ≤ vec_capacity events.new }
{
    if action.began {
        if let Some(sent) = &action.sent {
            push(
                events,
                bit,
                node,
                EventKind::Started {
                    frame: sent.frame,
                    label: sent.label,
                },
            );
        }
    }
}

/// Appends the event of an outcome, if there is one.
fn tell_outcome(
    events: &mut Vec<Event>,
    bit: u64,
    node: u16,
    sent: &Option<Transmission>,
    outcome: &Outcome,
)
    requires { vec_len events.old < vec_capacity events.old }
    ensures value { events.new.items ≡ events.old.items ++ lines bit node (outcome_kinds sent.now outcome.now) }
    ensures len { vec_len events.new ≤ vec_len events.old + 1 }
    ensures capacity { vec_capacity events.old ≤ vec_capacity events.new }
{
    match outcome {
        Outcome::Nothing => {}
        Outcome::Took { start, frame } => push(
            events,
            bit,
            node,
            EventKind::Took {
                start: *start,
                frame: *frame,
            },
        ),
        Outcome::Completed => {
            if let Some(sent) = sent {
                push(
                    events,
                    bit,
                    node,
                    EventKind::Completed {
                        start: sent.start,
                        frame: sent.frame,
                        label: sent.label,
                    },
                );
            }
        }
        Outcome::Lost => {
            if let Some(sent) = sent {
                push(events, bit, node, EventKind::Lost { start: sent.start });
            }
        }
        Outcome::Errored(kind) => push(events, bit, node, EventKind::Error(*kind)),
        Outcome::WentOff => push(events, bit, node, EventKind::Off),
        Outcome::CameBack => push(events, bit, node, EventKind::Back),
    }
}

/// Appends the event that a request was reaped, if one was.
fn tell_reaped(events: &mut Vec<Event>, bit: u64, node: u16, reaped: Option<Label>)
    requires { vec_len events.old < vec_capacity events.old }
    ensures value { events.new.items ≡ events.old.items ++ lines bit node (reaped_kinds reaped) }
    ensures len { vec_len events.new ≤ vec_len events.old + 1 }
    ensures capacity { vec_capacity events.old ≤ vec_capacity events.new }
{
    if let Some(label) = reaped {
        push(events, bit, node, EventKind::Reaped(label));
    }
}

/// Appends what happened besides a start: the outcome and what was reaped.
fn tell_rest(events: &mut Vec<Event>, bit: u64, node: u16, action: &Action)
    requires { vec_len events.old + 2 ≤ vec_capacity events.old }
    ensures value { events.new.items ≡ events.old.items ++ lines bit node (rest_by action.now) }
    ensures len { vec_len events.new ≤ vec_len events.old + 2 }
    ensures capacity { vec_capacity events.old ≤ vec_capacity events.new }
{
    tell_outcome(events, bit, node, &action.sent, &action.outcome);
    tell_reaped(events, bit, node, action.reaped);
}

/// Appends the starts of these nodes at this bit, at most one for each node, in their order. The first node has the
/// number `first`. There is room for the events.
pub fn tell_starts(events: &mut Vec<Event>, bit: u64, first: u32, members: &[Member])
    requires room { vec_len events.old + length members.now ≤ vec_capacity events.old }
    requires few { first + length members.now ≤ 1000 }
    ensures value { events.new.items ≡ events.old.items ++ events_by start_of bit first members.now }
    ensures len { vec_len events.new ≤ vec_len events.old + length members.now }
    ensures capacity { vec_capacity events.old ≤ vec_capacity events.new }
{
    for place in 0..members.len() {
        let node = (first + place as u32) as u16;
        tell_start(events, bit, node, &members[place].action);
    }
}

/// Appends what else happened at these nodes at this bit, at most two events for each node, in their order. The first
/// node has the number `first`. There is room for the events.
pub fn tell_rests(events: &mut Vec<Event>, bit: u64, first: u32, members: &[Member])
    requires room { vec_len events.old + 2 * length members.now ≤ vec_capacity events.old }
    requires few { first + length members.now ≤ 1000 }
    ensures value { events.new.items ≡ events.old.items ++ events_by rest_by bit first members.now }
    ensures len { vec_len events.new ≤ vec_len events.old + 2 * length members.now }
    ensures capacity { vec_capacity events.old ≤ vec_capacity events.new }
{
    for place in 0..members.len() {
        let node = (first + place as u32) as u16;
        tell_rest(events, bit, node, &members[place].action);
    }
}

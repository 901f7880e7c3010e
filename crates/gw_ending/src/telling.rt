//! What the lines of a segment tell of a route, and which of its requests are left.

ghost use Rattle.std.specs.Prelude.{◌≡◌, ◌∷◌, [], IfOk, option_to_list};
ghost use Rattle.bx_core.specs.Stands.{entries_of};
ghost use Rattle.bx_core.specs.States.{numbers};
ghost use Rattle.bx_core.specs.Ties.{left_of};
ghost use Rattle.can_segment.specs.Brought.{all_in, sent_in, kinds_of};

use bx_core::{Entry, Left};
use can_segment::{Event, EventKind};
use gw_opening::push_some;
use std::alloc::{AllocError, Global};

/// The request of a route that a line tells to be sent.
fn sent_in(event: &Event, node: u32, route: u8) -> Option<Entry>
    ensures { option_to_list result ≡ entries_of route (all_in sent_in (kinds_of node (event.now ∷ []))) }
{
    if event.node() != node {
        return None;
    }
    let reported = event.kind();
    match &reported {
        EventKind::Completed {
            start: _,
            frame,
            label: Some(label),
        } => {
            if label.route == route {
                return Some(Entry {
                    number: label.number,
                    frame: *frame,
                });
            }
            None
        }
        _ => None,
    }
}

/// The requests of a route that a node completed, by the lines of its segment.
pub(crate) fn completed_of(
    alloc: Global,
    events: &[Event],
    node: u32,
    route: u8,
) -> Result<Vec<Entry>, AllocError>
    ensures { IfOk result (λ all. all.items ≡ entries_of route (all_in sent_in (kinds_of node events.now))) }
{
    let mut all = Vec::new(alloc);
    for event in events {
        push_some(&mut all, sent_in(event, node, route))?;
    }
    Ok(all)
}

/// The number of what is left, if it is of this route.
fn left_in(one: &Left, route: u8) -> Option<u32>
    ensures { option_to_list result ≡ numbers (left_of route (one.now ∷ [])) }
{
    if one.route == route {
        return Some(one.number);
    }
    None
}

/// The numbers of a route's requests among those left.
pub(crate) fn waiting_of(alloc: Global, left: &[Left], route: u8) -> Result<Vec<u32>, AllocError>
    ensures { IfOk result (λ all. all.items ≡ numbers (left_of route left.now)) }
{
    let mut all = Vec::new(alloc);
    for one in left {
        push_some(&mut all, left_in(one, route))?;
    }
    Ok(all)
}

//! The lines of a segment's events, one after another.

ghost use Rattle.std.specs.Prelude.{◌≡◌, ◌<◌, ◌≤◌, ◌+◌, ◌++◌, All, length, map, vec_len, vec_capacity};
ghost use Rattle.std.specs.Prelude.{IfOk, IfSome, IsOk, OnOk};
ghost use Rattle.std.specs.List.{flat_map};
ghost use Rattle.bx_core.specs.Lists.{Each};
ghost use Rattle.gw_script.specs.LineParts.{AreLines};
ghost use Rattle.gw_script.specs.NamedPlaces.{NamesEvent};
ghost use Rattle.gw_script.specs.ReportTexts.{event_line};
ghost use Rattle.gw_config.specs.Routes.{RouteValue};

use crate::event_text::{label_of, push_rest};
use crate::repeats::{Ends, Front};
use crate::report_names::{name_at, names_of_nodes, segment_name};
use can_segment::Event;
use gw_config::{Route, Script};
use std::alloc::{AllocError, Global};

/// Besides names, the line of an event takes as many bytes at most: 22 behind the segment's name, and behind the node's
/// 65 of what happened and 22 around the route's, of a request.
const BESIDE_NAMES: usize = 109;

/// What the lines of a segment's events are made of: its name, those of its nodes, and parts that stay the same in
/// lines in a row.
#[derive(Drop)]
pub(crate) struct EventLines<'s> {
    name: &'s str,
    names: Vec<&'s str>,
    front: Front,
    ends: Ends,
    // no line has more bytes
    pub(crate) longest: usize,
}

/// The greatest of the lengths of these names, in bytes.
fn longest_of(names: &[&str]) -> usize
    ensures { All (λ name. length name.now ≤ result) names.now }
{
    let mut longest = 0;
    for name in names {
        if longest < name.len() {
            longest = name.len();
        }
    }
    longest
}

/// The greatest of the lengths of the routes' names, in bytes.
fn longest_of_routes(routes: &[Route]) -> usize
    ensures { All (λ (route : RouteValue). length route.name ≤ result) routes.now }
{
    let mut longest = 0;
    for route in routes {
        let name = route.name();
        if longest < name.len() {
            longest = name.len();
        }
    }
    longest
}

/// A length that no line of an event has more than, in bytes, where the names of the segment, its nodes and the routes
/// have at most so many. `None` where there is no such number.
fn longest_line(segment: usize, nodes: usize, routes: usize) -> Option<usize>
    ensures { IfSome result (λ longest. segment + nodes + routes + 109 ≤ longest) }
{
    segment
        .checked_add(nodes)?
        .checked_add(routes)?
        .checked_add(BESIDE_NAMES)
}

impl<'s> EventLines<'s> {
    /// Those of the segment at this place.
    pub(crate) fn new(
        alloc: Global,
        script: &'s Script,
        segment: usize,
    ) -> Result<EventLines<'s>, AllocError>
        requires { segment < length script.now.segments }
        ensures { IfOk result (AreLines script.now segment) }
    {
        let name = segment_name(script, segment);
        let names = names_of_nodes(alloc, script, segment)?;
        let front = Front::new(alloc, name)?;
        let ends = Ends::new(alloc, names.len())?;
        let nodes = longest_of(names.as_slice());
        let Some(longest) = longest_line(name.len(), nodes, longest_of_routes(script.routes()))
        else {
            // there is no memory for such a line
            return Err(AllocError);
        };
        Ok(EventLines {
            name,
            names,
            front,
            ends,
            longest,
        })
    }

    /// Adds the line of an event. The beginning and the end are those of the line before, where they are the same.
    pub(crate) fn push(
        &mut self,
        text: &mut Vec<u8>,
        script: &Script,
        segment: usize,
        event: &Event,
    ) -> Result<(), AllocError>
        requires lines { AreLines script.now segment self.old }
        requires event { NamesEvent script.now segment event.now }
        ensures lines { OnOk result (AreLines script.now segment self.new) }
        ensures text { OnOk result
            (text.new.items ≡ text.old.items ++ event_line script.now segment event.now) }
        ensures room { vec_len text.old + self.old.longest ≤ vec_capacity text.old → IsOk result }
        ensures capacity { vec_capacity text.old ≤ vec_capacity text.new }
        ensures longest { self.new.longest ≡ self.old.longest }
    {
        self.front.push(text, self.name, event.bit())?;
        let node = event.node() as usize;
        text.extend_from_slice(name_at(self.names.as_slice(), node).as_bytes())?;
        if self.ends.ends_as_last(event) {
            return self.ends.push_last(text);
        }
        match label_of(&event.kind()) {
            None => self.ends.push(text, event),
            Some(_) => push_rest(text, script, segment, event),
        }
    }
}

/// Adds the lines of events.
pub(crate) fn push_events(
    alloc: Global,
    text: &mut Vec<u8>,
    script: &Script,
    segment: usize,
    events: &[Event],
) -> Result<(), AllocError>
    requires segment { segment < length script.now.segments }
    requires events { Each (NamesEvent script.now segment) events.now }
    ensures { OnOk result
        (text.new.items ≡ text.old.items ++ flat_map (event_line script.now segment) events.now) }
{
    let mut lines = EventLines::new(alloc, script, segment)?;
    for event in events {
        lines.push(text, script, segment, event)?;
    }
    Ok(())
}

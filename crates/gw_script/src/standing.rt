//! Whether what a report names by place stands in a script.

ghost use Rattle.std.specs.Prelude.{◌≡◌, ◌↔◌, ℕ, slice_get, Some, IsTrue};
ghost use Rattle.bx_core.specs.Lists.{Each};
ghost use Rattle.can_segment.specs.declared.record.Record.{Record};
ghost use Rattle.gw_script.specs.NamedPlaces.{NamesRequest, NamesEvent, NamesNodes, Names};

use crate::event_text::label_of;
use crate::report::Report;
use can_segment::{Event, Label, Record};
use gw_config::Script;

fn request_stands(script: &Script, segment: usize, node: usize, label: Label) -> bool
    ensures { IsTrue result ↔ NamesRequest script.now segment node label }
{
    match script.controller_at(segment, node) {
        Some(controller) => script.route_at(controller, label.route as usize).is_some(),
        None => false,
    }
}

fn event_stands(script: &Script, segment: usize, event: &Event) -> bool
    ensures { IsTrue result ↔ NamesEvent script.now segment event.now }
{
    let node = event.node() as usize;
    if node >= script.node_count(segment) {
        return false;
    }
    match label_of(&event.kind()) {
        Some(label) => request_stands(script, segment, node, label),
        None => true,
    }
}

fn events_stand(script: &Script, segment: usize, events: &[Event]) -> bool
    ensures { IsTrue result ↔ Each (NamesEvent script.now segment) events.now }
{
    for event in events {
        if !event_stands(script, segment, event) {
            return false;
        }
    }
    true
}

fn record_stands(script: &Script, segment: usize, kept: &Record) -> bool
    ensures { IsTrue result ↔ NamesNodes script.now segment kept.now }
{
    if kept.counters.len() != script.node_count(segment) {
        return false;
    }
    events_stand(script, segment, kept.events.as_slice())
}

fn records_stand(script: &Script, records: &[Record]) -> bool
    ensures { IsTrue result
        ↔ ((place : ℕ) (of : Record) → slice_get records.now place ≡ Some of → NamesNodes script.now place of) }
{
    for (segment, kept) in records.iter().enumerate() {
        if !record_stands(script, segment, kept) {
            return false;
        }
    }
    true
}

/// Whether each segment, node and route that the report names by its place stands in the script, as
/// [`print`](crate::print) wants it.
pub fn names_stand(script: &Script, report: &Report) -> bool
    ensures { IsTrue result ↔ Names script.now report.now }
{
    let records = report.segments.as_slice();
    let routes = report.routes.as_slice();
    if records.len() != script.segments().len() {
        return false;
    }
    if routes.len() != script.routes().len() {
        return false;
    }
    records_stand(script, records)
}

//! The lines of a report.

ghost use Rattle.std.specs.Prelude.{◌≡◌, ◌<◌, ◌≤◌, [], ◌∷◌, ◌++◌, length, vec_len, codes, IfOk, OnOk};
ghost use Rattle.std.specs.Fmt.{decimal};
ghost use Rattle.bx_core.specs.Lists.{Each};
ghost use Rattle.can_confinement.specs.Confinement.{state_of};
ghost use Rattle.can_confinement.specs.Counters.{counts_of};
ghost use Rattle.gw_script.specs.Lines.{line, lines_from};
ghost use Rattle.gw_config.specs.Nodes.{names_of_nodes};
ghost use Rattle.gw_script.specs.NamedPlaces.{NamesNodes, Names};
ghost use Rattle.gw_script.specs.ReportTexts.{segment_name, state_text, node_line};
ghost use Rattle.gw_script.specs.ReportTexts.{segment_end, segment_text, route_line, report_text};

use crate::digits::push_decimal;
use crate::event_lines::push_events;
use crate::report::Report;
use crate::report_names::{node_name, route_name, segment_name};
use crate::route_report::RouteReport;
use can_node::{Counters, ErrorState};
use can_segment::Record;
use gw_config::Script;
use std::alloc::{AllocError, Global};

fn state_text(state: ErrorState) -> &'static str
    ensures { result.now ≡ state_text state }
{
    match state {
        ErrorState::Active => "active",
        ErrorState::Passive => "passive",
        ErrorState::Off => "off",
    }
}

/// Adds a word and a number.
fn push_count(text: &mut Vec<u8>, word: &[u8], count: u64) -> Result<(), AllocError>
    ensures { OnOk result (text.new.items ≡ text.old.items ++ (word.now ++ decimal count)) }
{
    text.extend_from_slice(word)?;
    push_decimal(text, count)
}

/// Adds the end of a node's line: its counters and its state.
fn push_counters(text: &mut Vec<u8>, counters: &Counters) -> Result<(), AllocError>
    ensures { OnOk result (text.new.items ≡ text.old.items ++ (let counts = counts_of counters.now in
        line (codes " tec " ∷ decimal counts.tec ∷ codes " rec " ∷ decimal counts.rec
        ∷ codes " " ∷ state_text (state_of counts) ∷ []))) }
{
    push_count(text, b" tec ", u64::from(counters.tec()))?;
    push_count(text, b" rec ", u64::from(counters.rec()))?;
    text.extend_from_slice(b" ")?;
    text.extend_from_slice(state_text(counters.state()).as_bytes())?;
    text.extend_from_slice(b"\n")
}

/// Adds the line of a node.
fn push_node(
    text: &mut Vec<u8>,
    script: &Script,
    segment: usize,
    node: usize,
    counters: &Counters,
) -> Result<(), AllocError>
    requires segment { segment < length script.now.segments }
    requires node { node < length (names_of_nodes script.now segment) }
    ensures { OnOk result
        (text.new.items ≡ text.old.items ++ node_line script.now segment node (counts_of counters.now)) }
{
    text.extend_from_slice(segment_name(script, segment).as_bytes())?;
    text.extend_from_slice(b" node ")?;
    text.extend_from_slice(node_name(script, segment, node).as_bytes())?;
    push_counters(text, counters)
}

/// Adds the lines of a segment's nodes.
fn push_nodes(
    text: &mut Vec<u8>,
    script: &Script,
    segment: usize,
    counters: &[Counters],
) -> Result<(), AllocError>
    requires segment { segment < length script.now.segments }
    requires nodes { length counters.now ≤ length (names_of_nodes script.now segment) }
    ensures { OnOk result
        (text.new.items ≡ text.old.items
        ++ lines_from (λ node one. node_line script.now segment node (counts_of one)) 0 counters.now) }
{
    for (node, one) in counters.iter().enumerate() {
        push_node(text, script, segment, node, one)?;
    }
    Ok(())
}

/// Adds the line of a segment's end.
fn push_end(text: &mut Vec<u8>, script: &Script, segment: usize) -> Result<(), AllocError>
    requires { segment < length script.now.segments }
    ensures { OnOk result (text.new.items ≡ text.old.items
        ++ line (segment_name script.now segment ∷ codes " end " ∷ decimal script.now.bits ∷ [])) }
{
    text.extend_from_slice(segment_name(script, segment).as_bytes())?;
    push_count(text, b" end ", u64::from(script.bits()))?;
    text.extend_from_slice(b"\n")
}

/// Adds what is reported of a segment behind its events.
pub(crate) fn push_segment_end(
    text: &mut Vec<u8>,
    script: &Script,
    segment: usize,
    counters: &[Counters],
) -> Result<(), AllocError>
    requires segment { segment < length script.now.segments }
    requires nodes { length counters.now ≤ length (names_of_nodes script.now segment) }
    ensures { OnOk result (text.new.items ≡ text.old.items ++ segment_end script.now segment counters.now) }
{
    push_nodes(text, script, segment, counters)?;
    push_end(text, script, segment)
}

/// Adds what is reported of a segment.
pub fn push_segment(
    alloc: Global,
    text: &mut Vec<u8>,
    script: &Script,
    segment: usize,
    kept: &Record,
) -> Result<(), AllocError>
    requires segment { segment < length script.now.segments }
    requires nodes { NamesNodes script.now segment kept.now }
    ensures { OnOk result
        (text.new.items ≡ text.old.items ++ segment_text script.now segment kept.now) }
{
    push_events(alloc, text, script, segment, kept.events.as_slice())?;
    push_segment_end(text, script, segment, kept.counters.as_slice())
}

/// Adds what is reported of the segments.
fn push_segments(
    alloc: Global,
    text: &mut Vec<u8>,
    script: &Script,
    report: &Report,
) -> Result<(), AllocError>
    requires { Names script.now report.now }
    ensures { OnOk result
        (text.new.items ≡ text.old.items ++ lines_from (segment_text script.now) 0 report.now.segments.items) }
{
    for (segment, kept) in report.segments.iter().enumerate() {
        push_segment(alloc, text, script, segment, kept)?;
    }
    Ok(())
}

/// Adds what came to a route's FIFO and what left it.
fn push_taken(text: &mut Vec<u8>, report: &RouteReport) -> Result<(), AllocError>
    ensures { OnOk result (text.new.items ≡ text.old.items ++ (codes " accepted " ++ (decimal report.now.accepted
        ++ (codes " overrun " ++ (decimal report.now.overrun
        ++ (codes " released " ++ decimal (vec_len report.now.released))))))) }
{
    push_count(text, b" accepted ", report.accepted)?;
    push_count(text, b" overrun ", report.overrun)?;
    push_count(text, b" released ", report.released.len() as u64)
}

/// Adds the end of a route's line: what became of its requests.
fn push_sent(text: &mut Vec<u8>, report: &RouteReport) -> Result<(), AllocError>
    ensures { OnOk result (text.new.items ≡ text.old.items
        ++ line (codes " completed " ∷ decimal (vec_len report.now.completed)
        ∷ codes " aborted " ∷ decimal (vec_len report.now.aborted)
        ∷ codes " held " ∷ decimal report.now.held ∷ [])) }
{
    push_count(text, b" completed ", report.completed.len() as u64)?;
    push_count(text, b" aborted ", report.aborted.len() as u64)?;
    push_count(text, b" held ", report.held)?;
    text.extend_from_slice(b"\n")
}

/// Adds the line of a route.
fn push_route(
    text: &mut Vec<u8>,
    script: &Script,
    route: usize,
    report: &RouteReport,
) -> Result<(), AllocError>
    requires { route < length script.now.routes }
    ensures { OnOk result
        (text.new.items ≡ text.old.items ++ route_line script.now route report.now) }
{
    text.extend_from_slice(b"route ")?;
    text.extend_from_slice(route_name(script, route).as_bytes())?;
    push_taken(text, report)?;
    push_sent(text, report)
}

/// Adds the lines of the routes.
pub fn push_routes(
    text: &mut Vec<u8>,
    script: &Script,
    routes: &[RouteReport],
) -> Result<(), AllocError>
    requires { length routes.now ≤ length script.now.routes }
    ensures { OnOk result
        (text.new.items ≡ text.old.items ++ lines_from (route_line script.now) 0 routes.now) }
{
    for (route, report) in routes.iter().enumerate() {
        push_route(text, script, route, report)?;
    }
    Ok(())
}

/// The whole text.
pub fn text_of(alloc: Global, script: &Script, report: &Report) -> Result<Vec<u8>, AllocError>
    requires { Names script.now report.now }
    ensures { IfOk result (λ text. text.items ≡ report_text script.now report.now) }
{
    let mut text = Vec::new(alloc);
    push_segments(alloc, &mut text, script, report)?;
    push_routes(&mut text, script, report.routes.as_slice())?;
    Ok(text)
}

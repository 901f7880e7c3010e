//! The report on a run, written while its text is made.

ghost use Rattle.std.specs.Prelude.{◌≡◌, ◌+◌, ◌≤◌, ℕ, Option, List, [], All, take, vec_capacity, vec_len, OnOk, OnErr};
ghost use Rattle.std.specs.Io.KnownBytes.{Appends};
ghost use Rattle.std.specs.List.{flat_map};
ghost use Rattle.bx_core.specs.Lists.{Each};
ghost use Rattle.gw_script.specs.Gathering.{IsGathered};
ghost use Rattle.gw_script.specs.LineParts.{AreLines};
ghost use Rattle.gw_script.specs.Lines.{lines_from};
ghost use Rattle.gw_script.specs.NamedPlaces.{NamesEvent, NamesNodes, Names};
ghost use Rattle.gw_script.specs.ReportTexts.{event_line, segment_text, route_line, report_text};
ghost use Rattle.gw_script.specs.SegmentLines.{IsReady, AreReady};

use crate::event_lines::EventLines;
use crate::report::Report;
use crate::segment_lines::SegmentLines;
use can_segment::{Event, Record};
use gw_config::Script;
use gw_streams::{WriteFault, write_output};
use std::io::Write;

/// Writes what was gathered, and begins anew.
fn hand_over<W: Write>(output: &mut W, text: &mut Vec<u8>) -> Result<(), WriteFault>
    ensures whole { OnOk result (Appends (W.contents output.old) (W.contents output.new) text.old.items) }
    ensures front { OnErr result ((n : ℕ) × Appends (W.contents output.old) (W.contents output.new)
        (take n text.old.items)) }
    ensures empty { OnOk result (text.new.items ≡ []) }
    ensures capacity { vec_capacity text.new ≡ vec_capacity text.old }
{
    write_output(output, text.as_slice())?;
    text.clear();
    Ok(())
}

/// Writes what was gathered where there may be no room for a line more: `longest` bytes.
fn make_room<W: Write>(output: &mut W, text: &mut Vec<u8>, longest: usize) -> Result<(), WriteFault>
    requires { longest ≤ vec_capacity text.old }
    ensures gathered { OnOk result ((old : Option (List ℕ)) (rest whole : List ℕ)
        → IsGathered old (W.contents output.old) text.old.items rest whole
        → IsGathered old (W.contents output.new) text.new.items rest whole) }
    ensures front { OnErr result ((n : ℕ) × Appends (W.contents output.old) (W.contents output.new)
        (take n text.old.items)) }
    ensures room { OnOk result (vec_len text.new + longest ≤ vec_capacity text.new) }
    ensures capacity { vec_capacity text.new ≡ vec_capacity text.old }
{
    if text.capacity() - text.len() < longest {
        return hand_over(output, text);
    }
    Ok(())
}

/// Writes the lines of events. They are gathered in `text`, which is empty before and after it.
fn write_events<W: Write>(
    output: &mut W,
    text: &mut Vec<u8>,
    lines: &mut EventLines<'_>,
    script: &Script,
    segment: usize,
    events: &[Event],
) -> Result<(), WriteFault>
    requires lines { AreLines script.now segment lines.old }
    requires events { Each (NamesEvent script.now segment) events.now }
    requires empty { text.old.items ≡ [] }
    requires room { lines.old.longest ≤ vec_capacity text.old }
    ensures whole { OnOk result (Appends (W.contents output.old) (W.contents output.new)
        (flat_map (event_line script.now segment) events.now)) }
    ensures front { OnErr result ((n : ℕ) × Appends (W.contents output.old) (W.contents output.new)
        (take n (flat_map (event_line script.now segment) events.now))) }
    ensures empty { OnOk result (text.new.items ≡ []) }
    ensures capacity { vec_capacity text.old ≤ vec_capacity text.new }
{
    for event in events {
        make_room(output, text, lines.longest)?;
        let Ok(()) = lines.push(text, script, segment, event) else {
            unreachable!()
        };
    }
    hand_over(output, text)
}

/// Writes what is reported of a segment, likewise.
fn write_segment<W: Write>(
    output: &mut W,
    text: &mut Vec<u8>,
    lines: &mut SegmentLines<'_>,
    script: &Script,
    segment: usize,
    kept: &Record,
) -> Result<(), WriteFault>
    requires ready { IsReady script.now segment kept.now lines.old }
    requires names { NamesNodes script.now segment kept.now }
    requires empty { text.old.items ≡ [] }
    requires room { lines.old.events.longest ≤ vec_capacity text.old }
    ensures whole { OnOk result (Appends (W.contents output.old) (W.contents output.new)
        (segment_text script.now segment kept.now)) }
    ensures front { OnErr result ((n : ℕ) × Appends (W.contents output.old) (W.contents output.new)
        (take n (segment_text script.now segment kept.now))) }
    ensures empty { OnOk result (text.new.items ≡ []) }
    ensures capacity { vec_capacity text.old ≤ vec_capacity text.new }
{
    let events = kept.events.as_slice();
    write_events(output, text, &mut lines.events, script, segment, events)?;
    write_output(output, lines.end.as_slice())
}

/// Writes what is reported of all segments, likewise.
fn write_segments<W: Write>(
    output: &mut W,
    text: &mut Vec<u8>,
    all: &mut [SegmentLines<'_>],
    script: &Script,
    report: &Report,
) -> Result<(), WriteFault>
    requires names { Names script.now report.now }
    requires ready { AreReady script.now report.now.segments.items all.old }
    requires empty { text.old.items ≡ [] }
    requires room { All (λ lines. lines.events.longest ≤ vec_capacity text.old) all.old }
    ensures whole { OnOk result (Appends (W.contents output.old) (W.contents output.new)
        (lines_from (segment_text script.now) 0 report.now.segments.items)) }
    ensures front { OnErr result ((n : ℕ) × Appends (W.contents output.old) (W.contents output.new)
        (take n (lines_from (segment_text script.now) 0 report.now.segments.items))) }
{
    for (segment, kept) in report.segments.iter().enumerate() {
        write_segment(output, text, &mut all[segment], script, segment, kept)?;
    }
    Ok(())
}

/// Writes a report of which all is ready: what is reported of the segments, gathered in `text`, and then the lines of the
/// routes.
pub(crate) fn write_report<W: Write>(
    output: &mut W,
    text: &mut Vec<u8>,
    all: &mut [SegmentLines<'_>],
    routes: &[u8],
    script: &Script,
    report: &Report,
) -> Result<(), WriteFault>
    requires names { Names script.now report.now }
    requires ready { AreReady script.now report.now.segments.items all.old }
    requires routes { routes.now ≡ lines_from (route_line script.now) 0 report.now.routes.items }
    requires empty { text.old.items ≡ [] }
    requires room { All (λ lines. lines.events.longest ≤ vec_capacity text.old) all.old }
    ensures whole { OnOk result (Appends (W.contents output.old) (W.contents output.new)
        (report_text script.now report.now)) }
    ensures front { OnErr result ((n : ℕ) × Appends (W.contents output.old) (W.contents output.new)
        (take n (report_text script.now report.now))) }
{
    write_segments(output, text, all, script, report)?;
    write_output(output, routes)
}

//! What is needed to write what is reported of a segment, got before anything is written.

ghost use Rattle.std.specs.Prelude.{◌<◌, ◌≤◌, All, length, IfOk};
ghost use Rattle.gw_script.specs.NamedPlaces.{NamesNodes, Names};
ghost use Rattle.gw_script.specs.SegmentLines.{IsReady, AreReady};

use crate::event_lines::EventLines;
use crate::report::Report;
use crate::report_text::push_segment_end;
use can_segment::Record;
use gw_config::Script;
use std::alloc::{AllocError, Global};

/// What the lines of its events are made of, and all lines behind them.
#[derive(Drop)]
pub(crate) struct SegmentLines<'s> {
    pub(crate) events: EventLines<'s>,
    pub(crate) end: Vec<u8>,
}

impl<'s> SegmentLines<'s> {
    /// That of the segment at this place, of which this is kept.
    fn new(
        alloc: Global,
        script: &'s Script,
        segment: usize,
        kept: &Record,
    ) -> Result<SegmentLines<'s>, AllocError>
        requires segment { segment < length script.now.segments }
        requires nodes { NamesNodes script.now segment kept.now }
        ensures { IfOk result (IsReady script.now segment kept.now) }
    {
        let events = EventLines::new(alloc, script, segment)?;
        let mut end = Vec::new(alloc);
        push_segment_end(&mut end, script, segment, kept.counters.as_slice())?;
        Ok(SegmentLines { events, end })
    }
}

/// That of all segments of a report.
pub(crate) fn lines_of_all<'s>(
    alloc: Global,
    script: &'s Script,
    report: &Report,
) -> Result<Vec<SegmentLines<'s>>, AllocError>
    requires { Names script.now report.now }
    ensures { IfOk result (λ all. AreReady script.now report.now.segments.items all.items) }
{
    let mut all = Vec::new(alloc);
    for (segment, kept) in report.segments.iter().enumerate() {
        all.push(SegmentLines::new(alloc, script, segment, kept)?)?;
    }
    Ok(all)
}

/// A number that no line of an event has more bytes than.
pub(crate) fn longest_of_all(all: &[SegmentLines<'_>]) -> usize
    ensures { All (λ lines. lines.events.longest ≤ result) all.now }
{
    let mut longest = 0;
    for lines in all {
        if longest < lines.events.longest {
            longest = lines.events.longest;
        }
    }
    longest
}

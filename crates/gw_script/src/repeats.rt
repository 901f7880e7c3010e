//! Parts of lines that stay the same in lines in a row.

ghost use Rattle.std.specs.Prelude.{◌≡◌, ◌≢◌, ◌<◌, ◌≤◌, ◌+◌, ◌++◌, true, false, None, length, vec_len, vec_capacity};
ghost use Rattle.std.specs.Prelude.{IfOk, IsOk, OnOk};
ghost use Rattle.gw_script.specs.LineParts.{front_text, end_text, IsFront, IsEnd, AreEnds};
ghost use Rattle.gw_script.specs.NamedPlaces.{label_of};

use crate::digits::push_decimal_and_space;
use crate::event_text::push_reported;
use can_segment::{Event, EventKind};
use std::alloc::{AllocError, Global};

/// Of the beginning of a line what stands behind the segment's name takes as many bytes at most: a space, 20 digits and
/// a space.
const BEHIND_NAME: usize = 22;

/// So many the end of a line that names no request: that it completed a frame, at a bit of 20 digits, which takes 32.
const LONGEST_END: usize = 65;

/// The beginning of the lines at a bit: the segment's name and the bit, with a space behind each.
#[derive(Drop)]
pub(crate) struct Front {
    bit: u64,
    text: Vec<u8>,
}

/// Writes the beginning of the lines at a bit in place of what is there.
fn write_front(text: &mut Vec<u8>, name: &str, bit: u64) -> Result<(), AllocError>
    ensures text { OnOk result (text.new.items ≡ front_text name.now bit) }
    ensures room { length name.now + 22 ≤ vec_capacity text.old → IsOk result }
    ensures len { vec_len text.new ≤ length name.now + 22 }
    ensures capacity { vec_capacity text.old ≤ vec_capacity text.new }
{
    text.clear();
    text.extend_from_slice(name.as_bytes())?;
    text.extend_from_slice(b" ")?;
    push_decimal_and_space(text, bit)
}

impl Front {
    /// That of bit 0 of the segment with this name.
    pub(crate) fn new(alloc: Global, name: &str) -> Result<Front, AllocError>
        ensures { IfOk result (IsFront name.now) }
    {
        let mut text = Vec::with_capacity(alloc, name.len().saturating_add(BEHIND_NAME))?;
        write_front(&mut text, name, 0)?;
        Ok(Front { bit: 0, text })
    }

    /// Adds that of this bit. It is written anew only where the bit is another one than before.
    pub(crate) fn push(
        &mut self,
        text: &mut Vec<u8>,
        name: &str,
        bit: u64,
    ) -> Result<(), AllocError>
        requires { IsFront name.now self.old }
        ensures front { OnOk result (IsFront name.now self.new) }
        ensures text { OnOk result (text.new.items ≡ text.old.items ++ front_text name.now bit) }
        ensures room { vec_len text.old + (length name.now + 22) ≤ vec_capacity text.old → IsOk result }
        ensures len { vec_len text.new ≤ vec_len text.old + (length name.now + 22) }
        ensures capacity { vec_capacity text.old ≤ vec_capacity text.new }
    {
        if self.bit != bit {
            write_front(&mut self.text, name, bit)?;
            self.bit = bit;
        }
        text.extend_from_slice(self.text.as_slice())
    }
}

/// The end of a line that names no request: what happened, behind a space, and a line feed.
#[derive(Drop)]
pub(crate) struct End {
    // that of such a line
    event: Event,
    text: Vec<u8>,
}

/// Writes the end of a line in place of what is there.
fn write_end(text: &mut Vec<u8>, reported: &EventKind) -> Result<(), AllocError>
    ensures text { OnOk result (text.new.items ≡ end_text reported.now) }
    ensures room { 65 ≤ vec_capacity text.old → IsOk result }
    ensures len { vec_len text.new ≤ 65 }
    ensures capacity { vec_capacity text.old ≤ vec_capacity text.new }
{
    text.clear();
    push_reported(text, reported)?;
    text.extend_from_slice(b"\n")
}

impl End {
    /// That of a line which tells that a node is back.
    pub(crate) fn new(alloc: Global) -> Result<End, AllocError>
        ensures { IfOk result IsEnd }
    {
        let reported = EventKind::Back;
        let mut text = Vec::with_capacity(alloc, LONGEST_END)?;
        write_end(&mut text, &reported)?;
        Ok(End {
            event: Event::new(0, 0, reported),
            text,
        })
    }

    /// Adds that of the line of this event, which names no request. It is written anew only where another thing was
    /// reported before.
    pub(crate) fn push(&mut self, text: &mut Vec<u8>, event: &Event) -> Result<(), AllocError>
        requires end { IsEnd self.old }
        requires names_none { label_of event.now.kind ≡ None }
        ensures end { OnOk result (IsEnd self.new) }
        ensures text { OnOk result (text.new.items ≡ text.old.items ++ end_text event.now.kind) }
        ensures room { vec_len text.old + 65 ≤ vec_capacity text.old → IsOk result }
        ensures len { vec_len text.new ≤ vec_len text.old + 65 }
        ensures capacity { vec_capacity text.old ≤ vec_capacity text.new }
    {
        if !event.tells_as(&self.event) {
            write_end(&mut self.text, &event.kind())?;
            self.event = *event;
        }
        text.extend_from_slice(self.text.as_slice())
    }
}

/// The ends of lines that may come again: of each node that of a frame which it started, since who loses arbitration
/// starts the same frame once more; and the last one of all others.
#[derive(Drop)]
pub(crate) struct Ends {
    started: Vec<End>,
    last: End,
}

impl Ends {
    /// Those of so many nodes.
    pub(crate) fn new(alloc: Global, nodes: usize) -> Result<Ends, AllocError>
        ensures { IfOk result (AreEnds nodes) }
    {
        let mut started = Vec::new(alloc);
        for _node in 0..nodes {
            started.push(End::new(alloc)?)?;
        }
        let last = End::new(alloc)?;
        Ok(Ends { started, last })
    }

    /// Whether the line of this event ends as the last one that reported of no start.
    #[inline(always)]
    pub(crate) fn ends_as_last(&self, event: &Event) -> bool
        ensures same { result ≡ true → event.now.kind ≡ self.now.last.event.kind }
        ensures another { result ≡ false → event.now.kind ≢ self.now.last.event.kind }
    {
        event.tells_as(&self.last.event)
    }

    /// Adds that one once more.
    #[inline(always)]
    pub(crate) fn push_last(&self, text: &mut Vec<u8>) -> Result<(), AllocError>
        requires { IsEnd self.now.last }
        ensures text { OnOk result (text.new.items ≡ text.old.items ++ end_text self.now.last.event.kind) }
        ensures room { vec_len text.old + 65 ≤ vec_capacity text.old → IsOk result }
        ensures len { vec_len text.new ≤ vec_len text.old + 65 }
        ensures capacity { vec_capacity text.old ≤ vec_capacity text.new }
    {
        text.extend_from_slice(self.last.text.as_slice())
    }

    /// Adds that of the line of this event, which names no request.
    pub(crate) fn push(&mut self, text: &mut Vec<u8>, event: &Event) -> Result<(), AllocError>
        requires ends { AreEnds (vec_len self.old.started) self.old }
        requires node { event.now.node < vec_len self.old.started }
        requires names_none { label_of event.now.kind ≡ None }
        ensures ends { OnOk result (AreEnds (vec_len self.old.started) self.new) }
        ensures text { OnOk result (text.new.items ≡ text.old.items ++ end_text event.now.kind) }
        ensures room { vec_len text.old + 65 ≤ vec_capacity text.old → IsOk result }
        ensures len { vec_len text.new ≤ vec_len text.old + 65 }
        ensures capacity { vec_capacity text.old ≤ vec_capacity text.new }
    {
        match event.kind() {
            EventKind::Started { .. } => self.started[event.node() as usize].push(text, event),
            _ => self.last.push(text, event),
        }
    }
}

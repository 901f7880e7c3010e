//! What the line of an event tells.

ghost use Rattle.std.specs.Prelude.{◌≡◌, ◌+◌, ◌≤◌, ◌++◌, ℕ, length, vec_len, vec_capacity, codes, IfSome, IsOk, OnOk};
ghost use Rattle.std.specs.Fmt.{decimal};
ghost use Rattle.gw_script.specs.FrameTexts.{frame_text};
ghost use Rattle.gw_script.specs.LineParts.{rest_text, AreRoutesWithin};
ghost use Rattle.gw_script.specs.NamedPlaces.{label_of, NamesRequest, NamesEvent};
ghost use Rattle.gw_script.specs.ReportTexts.{kind_text, reported_text, label_text};

use crate::digits::{push_decimal, push_decimal_and_space};
use crate::frame_text::{FrameText, write_frame};
use crate::report_names::{route_name, route_of};
use can_frame::Frame;
use can_node::ErrorKind;
use can_segment::{Event, EventKind, Label};
use gw_config::Script;
use std::alloc::{AllocError, Global};

fn kind_text(kind: ErrorKind) -> &'static str
    ensures text { result.now ≡ kind_text kind }
    ensures few { length result.now ≤ 5 }
{
    match kind {
        ErrorKind::Bit => "bit",
        ErrorKind::Stuff => "stuff",
        ErrorKind::Form => "form",
        ErrorKind::Ack => "ack",
        ErrorKind::Crc => "crc",
    }
}

/// Adds a frame.
fn push_frame(text: &mut Vec<u8>, frame: &Frame) -> Result<(), AllocError>
    ensures text { OnOk result (text.new.items ≡ text.old.items ++ frame_text frame.now) }
    ensures room { vec_len text.old + 32 ≤ vec_capacity text.old → IsOk result }
    ensures len { vec_len text.new ≤ vec_len text.old + 32 }
    ensures capacity { vec_capacity text.old ≤ vec_capacity text.new }
{
    let mut bytes = FrameText::new();
    write_frame(&mut bytes, frame);
    text.extend_from_slice(bytes.as_slice())
}

/// Adds a space and what happened at a node.
pub(crate) fn push_reported(text: &mut Vec<u8>, reported: &EventKind) -> Result<(), AllocError>
    ensures text { OnOk result (text.new.items ≡ text.old.items ++ (codes " " ++ reported_text reported.now)) }
    ensures room { vec_len text.old + 64 ≤ vec_capacity text.old → IsOk result }
    ensures len { vec_len text.new ≤ vec_len text.old + 64 }
    ensures capacity { vec_capacity text.old ≤ vec_capacity text.new }
{
    let frame = match reported {
        EventKind::Started { frame, .. } => {
            text.extend_from_slice(b" started ")?;
            frame
        }
        EventKind::Took { start, frame } => {
            text.extend_from_slice(b" took ")?;
            push_decimal_and_space(text, *start)?;
            frame
        }
        EventKind::Completed { start, frame, .. } => {
            text.extend_from_slice(b" completed ")?;
            push_decimal_and_space(text, *start)?;
            frame
        }
        EventKind::Lost { start } => {
            text.extend_from_slice(b" lost ")?;
            return push_decimal(text, *start);
        }
        EventKind::Error(kind) => {
            text.extend_from_slice(b" error ")?;
            return text.extend_from_slice(kind_text(*kind).as_bytes());
        }
        EventKind::Off => return text.extend_from_slice(b" off"),
        EventKind::Back => return text.extend_from_slice(b" back"),
        EventKind::Reaped(_) => return text.extend_from_slice(b" reaped"),
    };
    push_frame(text, frame)
}

/// The request that a line names.
pub fn label_of(reported: &EventKind) -> Option<Label>
    ensures { result ≡ label_of reported.now }
{
    match reported {
        EventKind::Started { label, .. } => *label,
        EventKind::Completed { label, .. } => *label,
        EventKind::Reaped(label) => Some(*label),
        EventKind::Took { .. }
        | EventKind::Lost { .. }
        | EventKind::Error(_)
        | EventKind::Off
        | EventKind::Back => None,
    }
}

/// Adds the request that a line names, if it names one.
fn push_label(
    text: &mut Vec<u8>,
    script: &Script,
    segment: usize,
    node: usize,
    label: Option<Label>,
) -> Result<(), AllocError>
    requires { IfSome label (NamesRequest script.now segment node) }
    ensures text { OnOk result
        (text.new.items ≡ text.old.items ++ label_text script.now segment node label) }
    ensures room { (longest : ℕ) → AreRoutesWithin longest script.now
        → vec_len text.old + (longest + 22) ≤ vec_capacity text.old → IsOk result }
    ensures len { (longest : ℕ) → AreRoutesWithin longest script.now
        → vec_len text.new ≤ vec_len text.old + (longest + 22) }
    ensures capacity { vec_capacity text.old ≤ vec_capacity text.new }
{
    match label {
        None => Ok(()),
        Some(label) => {
            let route = route_of(script, segment, node, label);
            text.extend_from_slice(b" ")?;
            text.extend_from_slice(route_name(script, route).as_bytes())?;
            text.extend_from_slice(b" ")?;
            push_decimal(text, u64::from(label.number))
        }
    }
}

/// Adds the rest of a line behind the node's name: what happened, the request that it names, if any, and a line feed.
pub(crate) fn push_rest(
    text: &mut Vec<u8>,
    script: &Script,
    segment: usize,
    event: &Event,
) -> Result<(), AllocError>
    requires { NamesEvent script.now segment event.now }
    ensures text { OnOk result
        (text.new.items ≡ text.old.items ++ rest_text script.now segment event.now) }
    ensures room { (longest : ℕ) → AreRoutesWithin longest script.now
        → vec_len text.old + (longest + 87) ≤ vec_capacity text.old → IsOk result }
    ensures len { (longest : ℕ) → AreRoutesWithin longest script.now
        → vec_len text.new ≤ vec_len text.old + (longest + 87) }
    ensures capacity { vec_capacity text.old ≤ vec_capacity text.new }
{
    let reported = event.kind();
    push_reported(text, &reported)?;
    push_label(
        text,
        script,
        segment,
        event.node() as usize,
        label_of(&reported),
    )?;
    text.extend_from_slice(b"\n")
}

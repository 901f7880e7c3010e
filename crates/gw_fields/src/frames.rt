//! A frame as a JSON object.

ghost use Rattle.std.specs.Prelude.{◌≡◌, ◌≤◌, ◌<◌, ◌^◌, codes, length, MatchOption};
ghost use Rattle.serde_json.specs.View.{view, items_view};
ghost use Rattle.can_frame.specs.Frames.{standard, extended};
ghost use Rattle.gw_fields.specs.Faults.{Reads};
ghost use Rattle.gw_fields.specs.Fields.{whole_of, each};
ghost use Rattle.gw_fields.specs.Frames.{identifier_with, identifier_of, data_frame, remote_frame, frame_of};

use crate::fields::{list_of, natural, truth, whole_of};
use crate::script_fault::ScriptFault;
use arrayvec::ArrayVec;
use can_frame::{Frame, Id};
use serde_json::Value;

fn extended_id(number: u64) -> Option<Id>
    ensures { MatchOption result (2 ^ 29 ≤ number) (λ id. (number < 2 ^ 29) × (id ≡ extended number)) }
{
    match u32::try_from(number) {
        Ok(number) => Id::extended(number).ok(),
        Err(_) => None,
    }
}

fn standard_id(number: u64) -> Option<Id>
    ensures { MatchOption result (2 ^ 11 ≤ number) (λ id. (number < 2 ^ 11) × (id ≡ standard number)) }
{
    match u16::try_from(number) {
        Ok(number) => Id::standard(number).ok(),
        Err(_) => None,
    }
}

/// A number as an identifier of 29 bits, or of 11.
pub fn identifier_with(
    is_extended: bool,
    number: u64,
    name: &'static str,
) -> Result<Id, ScriptFault>
    ensures { Reads (λ id. id) result (identifier_with name.entry.now is_extended number) }
{
    let id = if is_extended {
        extended_id(number)
    } else {
        standard_id(number)
    };
    match id {
        Some(id) => Ok(id),
        None => Err(ScriptFault::Range(name)),
    }
}

/// The identifier of a frame: `id`, then `ext`, then the range.
#[tactic(auto, unfolding(crate::specs::Frames::identifier_of))]
fn identifier_of(from: &Value) -> Result<Id, ScriptFault>
    ensures { Reads (λ id. id) result (identifier_of (view from.now)) }
{
    let number = natural(from, "id")?;
    let is_extended = truth(from, "ext")?;
    identifier_with(is_extended, number, "id")
}

/// The bytes in a list of at most eight.
fn bytes_of(items: &[Value]) -> Result<ArrayVec<u8, 8>, ScriptFault>
    requires { length items.now ≤ 8 }
    ensures { Reads (λ bytes. bytes.items) result
        (each (whole_of (codes "data") 0 255) (items_view items.now)) }
{
    let mut bytes = ArrayVec::new();
    for item in items {
        let byte = match whole_of(item, "data", 0, 255) {
            Ok(byte) => byte,
            Err(fault) => return Err(fault),
        };
        bytes.push(byte as u8);
    }
    Ok(bytes)
}

/// A data frame of at most eight bytes.
#[tactic(auto, unfolding(crate::specs::Frames::data_frame))]
fn data_frame(id: Id, value: &Value) -> Result<Frame, ScriptFault>
    ensures { Reads (λ frame. frame) result (data_frame id (view value.now)) }
{
    let items = list_of(value, "data", 8)?;
    let bytes = bytes_of(items)?;
    match Frame::with_bytes(id, bytes.as_slice()) {
        Ok(frame) => Ok(frame),
        Err(_) => Err(ScriptFault::TooMany("data")),
    }
}

/// A remote frame with its data length code.
#[tactic(auto, unfolding(crate::specs::Frames::remote_frame))]
fn remote_frame(id: Id, value: &Value) -> Result<Frame, ScriptFault>
    ensures { Reads (λ frame. frame) result (remote_frame id (view value.now)) }
{
    let code = whole_of(value, "remote", 0, 8)?;
    match Frame::remote(id, code as u8) {
        Ok(frame) => Ok(frame),
        Err(_) => Err(ScriptFault::Range("remote")),
    }
}

/// A frame: its identifier, then `data` where it is given, else `remote`.
#[tactic(auto, unfolding(crate::specs::Frames::frame_of))]
pub fn frame_of(from: &Value) -> Result<Frame, ScriptFault>
    ensures { Reads (λ frame. frame) result (frame_of (view from.now)) }
{
    let id = match identifier_of(from) {
        Ok(id) => id,
        Err(fault) => return Err(fault),
    };
    if let Some(value) = from.get("data") {
        return data_frame(id, value);
    }
    match from.get("remote") {
        Some(value) => remote_frame(id, value),
        None => Err(ScriptFault::Missing("data")),
    }
}

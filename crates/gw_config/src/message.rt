//! A message of a talker.

ghost use Rattle.std.specs.Prelude.{◌≡◌, ◌≤◌, ◌<◌, codes, IfOk, IfSome};
ghost use Rattle.serde_json.specs.Find.{get, as_str};
ghost use Rattle.serde_json.specs.View.{view};
ghost use Rattle.gw_fields.specs.Faults.{Reads};
ghost use Rattle.gw_fields.specs.Known.{known_fields};
ghost use Rattle.gw_config.specs.Messages.{once, repeated, message_with, frame_with, message_fields};
ghost use Rattle.gw_config.specs.Messages.{object_message, timed_message, plain_message, message_of, next_message};
ghost use Rattle.gw_config.specs.SoundScripts.{IsMessageIn};

use crate::format::Format;
use crate::version::Version;
use can_frame::Frame;
use gw_fields::{
    ScriptFault, frame_of, frame_text, known_fields, object_of, optional_duration, optional_whole,
    text_of,
};
use serde_json::Value;
use std::marker::Model;

/// The greatest number of bits from one instance of a message to the next one.
const MOST_EVERY: u64 = 100_000_000;

/// The greatest number of instances of a message that a script may ask for.
const MOST_TIMES: u64 = 1_000_000;

/// A frame that a talker sends once or several times. Each time is an instance of the message: instance k is due at bit
/// `at + k * every`, for each k from 0 on and below `count`. Contracts see a message as a `MessageValue`.
#[derive(Clone, Copy, Debug, PartialEq, Eq)]
pub struct Message {
    frame: Frame,
    at: u32,
    every: u32,
    count: u32,
}

impl Model for Message {
    ghost use Rattle.gw_config.specs.Messages.{MessageValue};

    ghost Value = { MessageValue };

    ghost use Rattle.gw_config.specs.MessageParts.{message_view, message_parts};

    ghost view = { message_view };

    ghost inverse = { message_parts };
}

impl Message {
    /// Returns the frame that is sent.
    pub fn frame(&self) -> &Frame
        ensures { result.now ≡ self.now.frame }
    {
        &self.frame
    }

    /// Returns the bit at which the first instance is due.
    pub fn at(&self) -> u32
        ensures { result ≡ self.now.at }
    {
        self.at
    }

    /// Returns the number of bits between the due bits of two instances in a row, and 0 where the script has no
    /// `every`.
    pub fn every(&self) -> u32
        ensures { result ≡ self.now.every }
    {
        self.every
    }

    /// Returns the number of instances, at least 1.
    pub fn count(&self) -> u32
        ensures { result ≡ self.now.count }
    {
        self.count
    }

    /// Returns the message whose only instance is due at this bit.
    fn once(frame: Frame, at: u32) -> Message
        ensures { result ≡ once frame at }
    {
        Message {
            frame,
            at,
            every: 0,
            count: 1,
        }
    }

    /// Returns the message whose instances are due at this bit and then after every `every` bits, as long as the run
    /// lasts. Where `times` is given there are at most `times` instances.
    fn repeated(bits: u32, frame: Frame, at: u32, every: u32, times: Option<u32>) -> Message
        requires within { at < bits }
        requires some { 1 ≤ every }
        requires few { every ≤ 100000000 }
        requires once { IfSome times (λ n. 1 ≤ n) }
        ensures value { result ≡ repeated bits frame at every times }
        ensures range { IsMessageIn bits result }
    {
        let within = (bits - at - 1) / every + 1;
        let count = match times {
            Some(times) => times.min(within),
            None => within,
        };
        Message {
            frame,
            at,
            every,
            count,
        }
    }
}

/// Returns the message with this frame, by the fields `at`, `every` and `times` of its object.
///
/// `Kind` or `Range` of the first of these fields that is not a duration (`times`: a whole number), or is out of its
/// range.
#[tactic(auto, unfolding(crate::specs::Messages::message_with))]
fn message_with(format: &Format, frame: Frame, from: &Value) -> Result<Message, ScriptFault>
    requires { 1 ≤ format.now.bits }
    ensures value { Reads (λ m. m) result (message_with format.now frame (view from.now)) }
    ensures range { IfOk result (IsMessageIn format.now.bits) }
{
    let last = u64::from(format.bits - 1);
    let at = match optional_duration(from, "at", 0, last, format.rate)? {
        Some(at) => at as u32,
        None => 0,
    };
    let every = optional_duration(from, "every", 1, MOST_EVERY, format.rate)?;
    let times = optional_whole(from, "times", 1, MOST_TIMES)?;
    match every {
        Some(every) => {
            let times = times.map(|times| times as u32);
            Ok(Message::repeated(format.bits, frame, at, every as u32, times))
        }
        None => Ok(Message::once(frame, at)),
    }
}

/// Returns the frame of an object: the text in the field `frame` where the object has this field, else the frame that
/// the fields `id`, `ext`, `data` and `remote` describe.
///
/// `Kind("frame")` where `frame` is not a text, `Range("frame")` where the text is badly formed; without `frame` the
/// faults of `frame_of`.
fn frame_with(from: &Value) -> Result<Frame, ScriptFault>
    ensures { Reads (λ f. f) result (frame_with (view from.now) (get (codes "frame") (view from.now))) }
{
    let Some(value) = from.get("frame") else {
        return frame_of(from);
    };
    let text = text_of(value, "frame")?;
    frame_text(text)
}

/// Returns `Ok` where the object of a frame has no unknown fields. With `frame` the fields `id`, `ext`, `data` and
/// `remote` are unknown, and without `every` the field `times` is.
///
/// `Unknown("frames")` where the object has an unknown field.
fn known_message(from: &Value) -> Result<(), ScriptFault>
    ensures { Reads (λ u. u) result (known_fields (codes "frames")
        (message_fields (get (codes "frame") (view from.now)) (get (codes "every") (view from.now))) (view from.now)) }
{
    match (from.get("frame"), from.get("every")) {
        (Some(_), Some(_)) => known_fields(from, "frames", &["frame", "at", "every", "times"]),
        (Some(_), None) => known_fields(from, "frames", &["frame", "at", "every"]),
        (None, Some(_)) => known_fields(
            from,
            "frames",
            &["id", "ext", "data", "remote", "at", "every", "times"],
        ),
        (None, None) => known_fields(
            from,
            "frames",
            &["id", "ext", "data", "remote", "at", "every"],
        ),
    }
}

/// Returns the message that an object describes in version 3.
///
/// `Kind("frames")` where the value is not an object, `Unknown("frames")` where the object has an unknown field, then
/// the faults of the frame, then those of `at`, `every` and `times`.
#[tactic(auto, unfolding(crate::specs::Messages::object_message))]
fn object_message(format: &Format, value: &Value) -> Result<Message, ScriptFault>
    requires { 1 ≤ format.now.bits }
    ensures value { Reads (λ m. m) result (object_message format.now (view value.now)) }
    ensures range { IfOk result (IsMessageIn format.now.bits) }
{
    let from = object_of(value, "frames")?;
    known_message(from)?;
    let frame = match frame_with(from) {
        Ok(frame) => frame,
        Err(fault) => return Err(fault),
    };
    message_with(format, frame, from)
}

/// Returns the message that an element describes in version 3. A text describes a frame that is due once, at bit 0.
///
/// `Range("frame")` for a text that is badly formed; for any other value the faults of `object_message`.
fn timed_message(format: &Format, value: &Value) -> Result<Message, ScriptFault>
    requires { 1 ≤ format.now.bits }
    ensures value { Reads (λ m. m) result
        (timed_message format.now (view value.now) (as_str (view value.now))) }
    ensures range { IfOk result (IsMessageIn format.now.bits) }
{
    let Some(text) = value.as_str() else {
        return object_message(format, value);
    };
    match frame_text(text) {
        Ok(frame) => Ok(Message::once(frame, 0)),
        Err(fault) => Err(fault),
    }
}

/// Returns the message that an element describes in versions 1 and 2. Its frame is due once, at bit 0.
///
/// `Kind("frames")` where the value is not an object, then the faults of `frame_of`.
#[tactic(auto, unfolding(crate::specs::Messages::plain_message))]
fn plain_message(value: &Value) -> Result<Message, ScriptFault>
    ensures value { Reads (λ m. m) result (plain_message (view value.now)) }
    ensures range { IfOk result (λ m. (m.at ≡ 0) × (m.every ≡ 0) × (m.count ≡ 1)) }
{
    let from = object_of(value, "frames")?;
    match frame_of(from) {
        Ok(frame) => Ok(Message::once(frame, 0)),
        Err(fault) => Err(fault),
    }
}

/// Returns the message that an element of a talker's list of frames describes.
///
/// `Kind("frames")` where the element is not an object or, in version 3, a text; then the faults of its fields.
fn message_of(format: &Format, value: &Value) -> Result<Message, ScriptFault>
    requires { 1 ≤ format.now.bits }
    ensures value { Reads (λ m. m) result (message_of format.now.version format.now (view value.now)) }
    ensures range { IfOk result (IsMessageIn format.now.bits) }
{
    match format.version {
        Version::One | Version::Two => plain_message(value),
        Version::Three => timed_message(format, value),
    }
}

/// Returns the message that an element of a talker's list of frames describes. In version 3 the message has at most
/// `left` instances.
///
/// The faults of `message_of`, then `TooMany("instances")` where a message of version 3 has more instances.
#[tactic(auto, unfolding(crate::specs::Messages::next_message))]
pub fn next_message(format: &Format, left: u32, value: &Value) -> Result<Message, ScriptFault>
    requires { 1 ≤ format.now.bits }
    ensures value { Reads (λ m. m) result (next_message format.now left (view value.now)) }
    ensures range { IfOk result (IsMessageIn format.now.bits) }
{
    let message = match message_of(format, value) {
        Ok(message) => message,
        Err(fault) => return Err(fault),
    };
    if format.version == Version::Three && left < message.count() {
        return Err(ScriptFault::TooMany("instances"));
    }
    Ok(message)
}

//! Reading of the fields of an unstuffed text, by their places from SOF on. Past the end of the text
//! levels count as dominant, so that each function has a value for every text.

ghost use Rattle.std.specs.Prelude.{◌≡◌, ◌≤◌, ◌<◌, ◌+◌, ◌^◌, true, false, length, get_or};
ghost use Rattle.can_frame.specs.Frames.{remote_code, data_bytes};
ghost use Rattle.can_frame.specs.Reading.{Judges};
ghost use Rattle.can_frame.specs.FieldReading.{
  digit,
  number_at,
  bytes_at,
  fields_length,
  frame_at,
  id_at,
  at_most_eight,
};

use crate::crc::crc15;
use crate::frame::Frame;
use crate::identifier::Id;
use arrayvec::ArrayVec;

/// The level at a place; dominant past the end.
fn level_at(text: &[bool], place: usize) -> bool
    ensures { result ≡ get_or text.now place false }
{
    if place < text.len() {
        text[place]
    } else {
        false
    }
}

/// 1 for a recessive level, 0 for a dominant one.
fn digit_of(level: bool) -> u32
    ensures value { result ≡ digit level }
    ensures few { result ≤ 1 }
{
    if level { 1 } else { 0 }
}

/// The number that these levels write, the most significant first.
fn number_in(field: &[bool]) -> u32
    requires { length field.now ≤ 18 }
    ensures value { result ≡ number_at field.now 0 (length field.now) }
    ensures range { result < 2 ^ length field.now }
{
    let mut number = 0u32;
    for level in field {
        number = number * 2 + digit_of(*level);
    }
    number
}

/// The number at a place, the most significant level first.
fn number_of(text: &[bool], start: usize, width: usize) -> u32
    requires start { start ≤ 200 }
    requires width { width ≤ 18 }
    ensures value { result ≡ number_at text.now start width }
    ensures range { result < 2 ^ width }
{
    if let Some(field) = text.get(start..start + width) {
        return number_in(field);
    }
    let mut number = 0u32;
    for place in 0..width {
        number = number * 2 + digit_of(level_at(text, start + place));
    }
    number
}

/// How many bytes a DLC field stands for: 9 to 15 count as 8.
fn amount_of(code: u32) -> u8
    ensures value { result ≡ at_most_eight code }
    ensures few { result ≤ 8 }
{
    if code >= 8 { 8 } else { code as u8 }
}

/// How many levels the fields have, SOF to the last data bit, of a text that begins so.
fn fields_len(text: &[bool]) -> usize
    ensures value { result ≡ fields_length text.now }
    ensures few { result ≤ 103 }
{
    if level_at(text, 13) {
        let amount = amount_of(number_of(text, 35, 4));
        if level_at(text, 32) {
            39
        } else {
            39 + 8 * usize::from(amount)
        }
    } else {
        let amount = amount_of(number_of(text, 15, 4));
        if level_at(text, 12) {
            19
        } else {
            19 + 8 * usize::from(amount)
        }
    }
}

/// The identifier, in the format that IDE tells.
fn id_of(text: &[bool], extended: bool) -> Id
    ensures { result ≡ id_at extended text.now }
{
    if extended {
        let number = number_of(text, 1, 11) * 0x4_0000 + number_of(text, 14, 18);
        match Id::extended(number) {
            Ok(id) => id,
            Err(_) => Id::default(),
        }
    } else {
        let number = number_of(text, 1, 11);
        match Id::standard(number as u16) {
            Ok(id) => id,
            Err(_) => Id::default(),
        }
    }
}

/// The bytes from a place on.
fn bytes_of_text(text: &[bool], start: usize, amount: u8) -> ArrayVec<u8, 8>
    requires start { start ≤ 39 }
    requires few { amount ≤ 8 }
    ensures { result.items ≡ bytes_at text.now start amount }
{
    let mut bytes = ArrayVec::new();
    for k in 0..amount {
        bytes.push(number_of(text, start + 8 * usize::from(k), 8) as u8);
    }
    bytes
}

/// The frame that the fields stand for.
pub fn frame_of(text: &[bool]) -> Frame
    ensures { result ≡ frame_at text.now }
{
    let extended = level_at(text, 13);
    let id = id_of(text, extended);
    if extended {
        let amount = amount_of(number_of(text, 35, 4));
        if level_at(text, 32) {
            remote_of(id, amount)
        } else {
            data_of(id, &bytes_of_text(text, 39, amount))
        }
    } else {
        let amount = amount_of(number_of(text, 15, 4));
        if level_at(text, 12) {
            remote_of(id, amount)
        } else {
            data_of(id, &bytes_of_text(text, 19, amount))
        }
    }
}

/// A remote frame, whose code is known to fit.
fn remote_of(id: Id, code: u8) -> Frame
    requires { code ≤ 8 }
    ensures { result ≡ record { id = id; content = remote_code code } }
{
    match Frame::remote(id, code) {
        Ok(frame) => frame,
        Err(_) => Frame::default(),
    }
}

/// A data frame, whose bytes are known to be few.
fn data_of(id: Id, bytes: &ArrayVec<u8, 8>) -> Frame
    ensures { result ≡ record { id = id; content = data_bytes bytes.now.items } }
{
    match Frame::with_bytes(id, bytes.as_slice()) {
        Ok(frame) => frame,
        Err(_) => Frame::default(),
    }
}

/// Whether the fields and the fifteen levels of the CRC stand there.
pub fn is_complete(text: &[bool]) -> bool
    ensures whole { result ≡ true → length text.now ≡ fields_length text.now + 15 }
    ensures part { result ≡ false → length text.now ≡ fields_length text.now + 15 → ⊥ }
{
    // the fields are nineteen levels or thirty-nine, and whole bytes
    if text.len() < 34 {
        return false;
    }
    if text.len() % 4 != 2 {
        return false;
    }
    text.len() == fields_len(text) + 15
}

/// Whether they stand there with one more level.
pub fn is_complete_next(text: &[bool]) -> bool
    ensures whole { result ≡ true → length text.now + 1 ≡ fields_length text.now + 15 }
    ensures part { result ≡ false → length text.now + 1 ≡ fields_length text.now + 15 → ⊥ }
{
    if text.len() < 33 {
        return false;
    }
    if text.len() % 4 != 1 {
        return false;
    }
    text.len() == fields_len(text) + 14
}

/// Whether the last fifteen levels of a whole text are the CRC.
pub fn is_right(text: &[bool]) -> bool
    ensures { length text.now ≡ fields_length text.now + 15 → Judges result text.now }
{
    let end = fields_len(text);
    if end > text.len() {
        return false;
    }
    u32::from(crc15(&text[..end])) == number_of(text, end, 15)
}

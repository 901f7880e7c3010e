//! A frame as a line shows it.

ghost use Rattle.std.specs.Prelude.{◌≡◌, ◌+◌, ◌*◌, ◌<◌, ◌≤◌, [], ◌++◌, length, false, OnOk, string_bytes};
ghost use Rattle.std.specs.Fmt.{digit_glyph};
ghost use Rattle.arrayvec.specs.ArrayVec.{array_vec_len};
ghost use Rattle.gw_script.specs.FrameTexts.{hexadecimal, identifier_text, bytes_text, frame_text};

use arrayvec::ArrayVec;
use can_frame::{Frame, Id};
use std::alloc::AllocError;

/// Room for the longest text of a frame: eight digits, a word of eight bytes at most, and two digits a byte.
const LONGEST: usize = 32;

/// The text of a frame, or the beginning of it.
pub type FrameText = ArrayVec<u8, LONGEST>;

/// The digits of 0 to 255, two a number.
static PAIRS: [u8; 512] = *b"\
    000102030405060708090a0b0c0d0e0f\
    101112131415161718191a1b1c1d1e1f\
    202122232425262728292a2b2c2d2e2f\
    303132333435363738393a3b3c3d3e3f\
    404142434445464748494a4b4c4d4e4f\
    505152535455565758595a5b5c5d5e5f\
    606162636465666768696a6b6c6d6e6f\
    707172737475767778797a7b7c7d7e7f\
    808182838485868788898a8b8c8d8e8f\
    909192939495969798999a9b9c9d9e9f\
    a0a1a2a3a4a5a6a7a8a9aaabacadaeaf\
    b0b1b2b3b4b5b6b7b8b9babbbcbdbebf\
    c0c1c2c3c4c5c6c7c8c9cacbcccdcecf\
    d0d1d2d3d4d5d6d7d8d9dadbdcdddedf\
    e0e1e2e3e4e5e6e7e8e9eaebecedeeef\
    f0f1f2f3f4f5f6f7f8f9fafbfcfdfeff";

fn push_word(text: &mut FrameText, word: &[u8])
    requires { array_vec_len text.old + length word.now ≤ 32 }
    ensures { text.new.items ≡ text.old.items ++ word.now }
{
    if text.try_extend_from_slice(word).is_err() {
        unreachable!()
    }
}

/// Adds a byte's two digits.
fn push_byte(text: &mut FrameText, byte: u8)
    requires { array_vec_len text.old + 2 ≤ 32 }
    ensures items { text.new.items ≡ text.old.items ++ hexadecimal 2 byte }
    ensures room { array_vec_len text.new ≡ array_vec_len text.old + 2 }
{
    let from = byte as usize * 2;
    text.push(PAIRS[from]);
    text.push(PAIRS[from + 1]);
}

/// Adds three digits of a standard identifier, eight of an extended one.
fn push_identifier(text: &mut FrameText, id: Id)
    requires { array_vec_len text.old + 8 ≤ 32 }
    ensures items { text.new.items ≡ text.old.items ++ identifier_text id }
    ensures room { array_vec_len text.new ≤ array_vec_len text.old + 8 }
{
    id.facts();
    let number = id.number();
    if id.is_extended() {
        push_byte(text, (number / 0x100_0000) as u8);
        push_byte(text, (number / 0x1_0000 % 256) as u8);
        push_byte(text, (number / 256 % 256) as u8);
        push_byte(text, (number % 256) as u8);
    } else {
        // of the upper byte, only the second digit
        text.push(PAIRS[number as usize / 256 * 2 + 1]);
        push_byte(text, (number % 256) as u8);
    }
}

/// Adds two digits a byte, or a dash where there is none.
fn push_bytes(text: &mut FrameText, bytes: &[u8])
    requires { array_vec_len text.old + 2 * length bytes.now + 1 ≤ 32 }
    ensures { text.new.items ≡ text.old.items ++ bytes_text bytes.now }
{
    if bytes.is_empty() {
        text.push(b'-');
        return;
    }
    for byte in bytes {
        push_byte(text, *byte);
    }
}

/// Writes a frame into an empty text: the identifier in lower-case hexadecimal, of three digits (standard)
/// or eight (extended), then `data` and the bytes, or `remote` and the data length code.
pub fn write_frame(text: &mut FrameText, frame: &Frame)
    requires { text.old.items ≡ [] }
    ensures { text.new.items ≡ frame_text frame.now }
{
    push_identifier(text, frame.id());
    if frame.is_remote() {
        push_word(text, b" remote ");
        text.push(b'0' + frame.dlc());
    } else {
        push_word(text, b" data ");
        push_bytes(text, frame.bytes());
    }
}

/// Adds a frame: the identifier in lower-case hexadecimal, of three digits (standard) or eight
/// (extended), then `data` and the bytes, or `remote` and the data length code.
pub fn push_frame(text: &mut String, frame: &Frame) -> Result<(), AllocError>
    ensures { OnOk result (string_bytes text.new ≡ string_bytes text.old ++ frame_text frame.now) }
{
    let mut bytes = FrameText::new();
    write_frame(&mut bytes, frame);
    match std::str::from_utf8(bytes.as_slice()) {
        Ok(shown) => text.push_str(shown),
        Err(_) => unreachable!(),
    }
}

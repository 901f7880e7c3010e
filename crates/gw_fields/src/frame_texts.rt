//! A frame as a text.

ghost use Rattle.std.specs.Prelude.{◌≡◌};
ghost use Rattle.gw_fields.specs.Faults.{Reads};
ghost use Rattle.gw_fields.specs.FrameTexts.{data_text, code_text, remote_text, content_text, frame_text};

use crate::identifier_texts::identifier_text;
use crate::script_fault::ScriptFault;
use can_frame::{Frame, Id};

/// Returns the data frame whose bytes are written in two hexadecimal digits each, with nothing between.
///
/// `Range("frame")` where a byte of the text is no hexadecimal digit, the number of digits is odd, or there are more
/// than 16 of them.
#[tactic(auto, using(crate::proofs::FrameLaws::too_many_bytes))]
fn data_text(id: Id, digits: &[u8]) -> Result<Frame, ScriptFault>
    ensures { Reads (λ frame. frame) result (data_text id digits.now) }
{
    let count = digits.len() / 2;
    if count > 8 {
        return Err(ScriptFault::Range("frame"));
    }
    let mut bytes = [0u8; 8];
    if hex::decode_to_slice(digits, &mut bytes[..count]).is_err() {
        return Err(ScriptFault::Range("frame"));
    }
    match Frame::with_bytes(id, &bytes[..count]) {
        Ok(frame) => Ok(frame),
        Err(_) => Err(ScriptFault::Range("frame")),
    }
}

/// Returns the data length code of a remote frame: one digit from 0 to 8, or 0 where there is no digit.
///
/// `None` for any other text.
fn code_text(text: &[u8]) -> Option<u8>
    ensures { result ≡ code_text text.now }
{
    match text {
        [] => Some(0),
        [digit] => {
            if b'0' <= *digit && *digit <= b'8' {
                Some(*digit - b'0')
            } else {
                None
            }
        }
        _ => None,
    }
}

/// Returns the remote frame with a data length code as a text: one digit from 0 to 8, or nothing for 0.
///
/// `Range("frame")` for any other text.
fn remote_text(id: Id, text: &[u8]) -> Result<Frame, ScriptFault>
    ensures { Reads (λ frame. frame) result (remote_text id text.now) }
{
    let Some(code) = code_text(text) else {
        return Err(ScriptFault::Range("frame"));
    };
    match Frame::remote(id, code) {
        Ok(frame) => Ok(frame),
        Err(_) => Err(ScriptFault::Range("frame")),
    }
}

/// Returns the frame with this identifier and a content as a text: `R` and a data length code for a remote frame, else
/// the bytes of a data frame.
///
/// `Range("frame")` for any other text.
fn content_text(id: Id, content: &[u8]) -> Result<Frame, ScriptFault>
    ensures { Reads (λ frame. frame) result (content_text id content.now) }
{
    match content {
        [b'R', code @ ..] => remote_text(id, code),
        _ => data_text(id, content),
    }
}

/// Returns the frame that a text describes: an identifier of 3 hexadecimal digits (standard, to 7FF) or 8 (extended, to
/// 1FFFFFFF), `#`, and the bytes of a data frame, 0 to 8 of them in two hexadecimal digits each with nothing between;
/// or, of a remote frame, `R` and at most one digit from 0 to 8, its data length code, which is 0 where there is no
/// digit. Hexadecimal digits may be of either case.
///
/// `Range("frame")` for any other text.
#[tactic(auto, unfolding(crate::specs::FrameTexts::frame_text), using(crate::proofs::Numerals::no_parts))]
pub fn frame_text(text: &str) -> Result<Frame, ScriptFault>
    ensures { Reads (λ frame. frame) result (frame_text text.now) }
{
    let Some((identifier, content)) = text.split_once('#') else {
        return Err(ScriptFault::Range("frame"));
    };
    match identifier_text(identifier, "frame") {
        Ok(id) => content_text(id, content.as_bytes()),
        Err(fault) => Err(fault),
    }
}

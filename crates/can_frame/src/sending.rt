//! The levels of a frame from SOF to the last bit of EOF, as a sender drives them.

ghost use Rattle.std.specs.Prelude.{◌≡◌, ◌≤◌, ◌+◌, ◌++◌, true, length, if◌then◌else◌};
ghost use Rattle.can_frame.specs.Frames.{is_extended_id};
ghost use Rattle.can_frame.specs.Levels.{levels};
ghost use Rattle.can_frame.specs.Fields.{senders_choice, fields, head_levels, is_remote};
ghost use Rattle.can_frame.specs.Spelling.{Spells, tail_levels};
ghost use Rattle.arrayvec.specs.ArrayVec.{array_vec_len};

use crate::crc::crc15;
use crate::frame::Frame;
use crate::stuffing::stuff;
use arrayvec::ArrayVec;

/// The lowest `width` bits of a number, the most significant first.
fn push_levels<const N: usize>(out: &mut ArrayVec<bool, N>, width: u8, number: u32)
    requires wide { width ≤ 32 }
    requires room { array_vec_len out.old + width ≤ N }
    ensures value { out.new.items ≡ out.old.items ++ levels width number }
    ensures len { array_vec_len out.new ≡ array_vec_len out.old + width }
{
    for place in (0..width).rev() {
        out.push((number >> place) & 1 == 1);
    }
}

/// The levels of a frame in the order of the bus, from SOF to the last bit of EOF, one a bit time,
/// true being recessive (Bosch CAN Specification 2.0, part B, 3.2.1 DATA FRAME, 3.2.2 REMOTE FRAME and
/// 6 CODING). They are as its sender drives them: SRR recessive, r1 and r0 dominant, the ACK slot
/// recessive.
///
/// The contract names the one text that spells this frame so (`laws::spellings_are_unique`), and how long
/// it may be, stuff bits included.
pub fn wire(frame: &Frame) -> ArrayVec<bool, 160>
    ensures spells { Spells frame.now senders_choice true result.items }
    ensures few { length result.items ≤ (if is_extended_id frame.now.id then 157 else 132) }
{
    let mut text = fields_of(frame);
    let check = crc15(text.as_slice());
    push_levels(&mut text, 15, u32::from(check));
    let mut out = stuff(text.as_slice());
    push_tail(&mut out);
    out
}

/// CRC delimiter, ACK slot, ACK delimiter and EOF, which a sender drives recessive.
fn push_tail(out: &mut ArrayVec<bool, 160>)
    requires { array_vec_len out.old ≤ 150 }
    ensures { out.new.items ≡ out.old.items ++ tail_levels true }
{
    for _ in 0..10u8 {
        out.push(true);
    }
}

/// The fields of a frame from SOF to its last byte.
fn fields_of(frame: &Frame) -> ArrayVec<bool, 120>
    ensures value { result.items ≡ fields frame.now senders_choice }
    ensures few { length result.items ≤ (if is_extended_id frame.now.id then 103 else 83) }
{
    let mut out = ArrayVec::new();
    out.push(false);
    push_head(&mut out, frame);
    push_levels(&mut out, 4, u32::from(frame.dlc()));
    for byte in frame.bytes() {
        push_levels(&mut out, 8, u32::from(*byte));
    }
    out
}

/// Identifier, RTR, IDE and the reserved bits.
fn push_head(out: &mut ArrayVec<bool, 120>, frame: &Frame)
    requires { array_vec_len out.old ≤ 1 }
    ensures value { out.new.items ≡ out.old.items
        ++ head_levels frame.now.id (is_remote frame.now.content) senders_choice }
    ensures few { array_vec_len out.new
        ≤ array_vec_len out.old + (if is_extended_id frame.now.id then 34 else 14) }
{
    let id = frame.id();
    let remote = frame.is_remote();
    if id.is_extended() {
        push_levels(out, 11, id.number() >> 18);
        out.push(true);
        out.push(true);
        push_levels(out, 18, id.number());
        out.push(remote);
        out.push(false);
        out.push(false);
    } else {
        push_levels(out, 11, id.number());
        out.push(remote);
        out.push(false);
        out.push(false);
    }
}

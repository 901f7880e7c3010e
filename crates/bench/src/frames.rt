//! `wire` and `Reader::push`: bits a second over the wires of all kinds of frame.

use crate::rate::millions;
use can_frame::{Frame, Id, Reader, Step, wire};
use std::io;
use std::rt::Clock;
use std::time::Instant;

const ROUNDS: u32 = 20_000;

/// How many kinds of frame `frame_of` gives.
const KINDS: u8 = 36;

/// Data frames of 0 to 8 bytes and remote frames, in both formats.
fn frame_of(kind: u8) -> Frame {
    let id = if kind % 2 == 0 {
        Id::standard(0x2A5)
    } else {
        Id::extended(0x1A5_5A0F)
    };
    let Ok(id) = id else {
        return Frame::default();
    };
    let length = (kind / 4).min(8);
    let bytes = [0xFF, 0x00, 0x5A, 0x81, 0x3C, 0xFF, 0x00, 0xA7];
    let frame = if kind % 4 < 2 {
        Frame::with_bytes(id, &bytes[..usize::from(length)])
    } else {
        Frame::remote(id, length)
    };
    frame.unwrap_or_default()
}

fn wire_bits() -> u64 {
    let mut bits = 0u64;
    for _ in 0..ROUNDS {
        for kind in 0..KINDS {
            bits = bits.wrapping_add(wire(&frame_of(kind)).len() as u64);
        }
    }
    bits
}

/// Pushes a frame's levels, the ACK slot dominant, and answers whether one of them led to a frame.
fn is_taken(levels: &[bool]) -> bool {
    let mut reader = Reader::new();
    let mut taken = false;
    for (place, level) in levels.iter().enumerate() {
        // the slot stands before its delimiter and the seven bits of EOF
        let is_slot = levels.len() - place == 9;
        if let Step::Taken(_) = reader.push(*level && !is_slot) {
            taken = true;
        }
    }
    taken
}

/// How many bits were pushed, and how many frames were taken.
fn push_bits() -> (u64, u64) {
    let mut bits = 0u64;
    let mut taken = 0u64;
    for kind in 0..KINDS {
        let levels = wire(&frame_of(kind));
        for _ in 0..ROUNDS {
            taken = taken.wrapping_add(u64::from(is_taken(levels.as_slice())));
            bits = bits.wrapping_add(levels.len() as u64);
        }
    }
    (bits, taken)
}

/// Prints the rates of both.
pub(crate) fn measure<H: Print + Clock + AllocGlobal>(rt: &H) -> io::Result<()> {
    let start = Instant::now(rt)?;
    let bits = wire_bits();
    let rate = millions(rt.alloc(), bits, start.elapsed(rt)?)?;
    println!(rt; "wire: {rate} bits a second")?;
    let start = Instant::now(rt)?;
    let (bits, taken) = push_bits();
    let rate = millions(rt.alloc(), bits, start.elapsed(rt)?)?;
    println!(rt; "push: {rate} bits a second, {taken} frames taken")
}

//! `Banks::find` over a full set of banks (14 of four filters each), and one `offer` with its `release`.

use crate::rate::millions;
use bx_rx::{Bank, Banks, Mode, Offered, RxFifo, RxFrame, Scale};
use can_frame::{Frame, Id};
use std::io;
use std::rt::Clock;
use std::sync::Wait;
use std::time::Instant;

const ROUNDS: u32 = 2_000_000;

/// How many banks are set.
const BANKS: u8 = 14;

fn frame_of(number: u16) -> Frame {
    match Id::standard(number % 2048) {
        Ok(id) => Frame::remote(id, 0).unwrap_or_default(),
        Err(_) => Frame::default(),
    }
}

/// Two registers of 16 bits each, that match the remote frames of these two identifiers.
fn register(low: u32, high: u32) -> u32 {
    (high % 2048) * 0x20_0000 + (low % 2048) * 32 + 16
}

fn full() -> Banks {
    let mut banks = Banks::new();
    for bank in 0..BANKS {
        let first = 1024 + u32::from(bank) * 4;
        let r1 = register(first, first + 1);
        let r2 = register(first + 2, first + 3);
        banks.set(
            bank,
            Bank::new(Scale::Bits16, Mode::List, bank % 2, true, r1, r2),
        );
    }
    banks
}

/// Looks for frames, of which these many follow each other; how many were found.
fn find_frames(banks: &Banks, first: u16, many: u16) -> u64 {
    let mut found = 0u64;
    for round in 0..ROUNDS {
        let frame = frame_of(first.wrapping_add((round % u32::from(many.max(1))) as u16));
        found = found.wrapping_add(u64::from(banks.find(&frame).is_some()));
    }
    found
}

fn offer_and_release<H: Print + Clock + AllocGlobal + Wait>(rt: &H) -> io::Result<()> {
    let Ok((mut rxin, mut rxout)) = RxFifo::pair(rt.alloc()) else {
        return println!(rt; "no memory");
    };
    let mut stored = 0u64;
    let mut released = 0u64;
    let frame = RxFrame {
        frame: frame_of(5),
        filter_number: 3,
    };
    let start = Instant::now(rt)?;
    for _ in 0..ROUNDS {
        if rxin.offer(rt, frame) == Offered::Stored {
            stored = stored.wrapping_add(1);
        }
        if rxout.release(rt).is_some() {
            released = released.wrapping_add(1);
        }
    }
    let rate = millions(rt.alloc(), u64::from(ROUNDS), start.elapsed(rt)?)?;
    println!(rt; "offer and release: {rate} a second, {stored} stored, {released} released")
}

/// Prints the rates of both.
pub(crate) fn measure<H: Print + Clock + AllocGlobal + Wait>(rt: &H) -> io::Result<()> {
    let banks = full();
    // identifiers up to 511 match nowhere; the last bank has those from 1024 + 4 * 13 on
    for (name, first, many) in [
        ("no match", 0u16, 512u16),
        ("match in the last bank", 1078, 1),
    ] {
        let start = Instant::now(rt)?;
        let found = find_frames(&banks, first, many);
        let rate = millions(rt.alloc(), u64::from(ROUNDS), start.elapsed(rt)?)?;
        println!(rt; "find, {name}: {rate} a second, {found} found")?;
    }
    offer_and_release(rt)
}

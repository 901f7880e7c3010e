ghost use Rattle.std.specs.Prelude.{◌≡◌, IfOk};

use bx_rx::{Bank, Banks, Memory, Mode, Offered, RxFifo, RxFrame, RxIn, RxOut, Scale, laws};
use can_frame::{Frame, Id};
use std::alloc::{AllocError, Global};
use std::sync::Wait;
use std::sync::atomic::{AtomicBool, Ordering};
use std::test::Fail;
use std::thread;

/// A standard data frame with no bytes.
fn data(number: u16) -> Result<Frame, Fail> {
    Ok(Frame::with_bytes(Id::standard(number)?, &[])?)
}

// Of these six frames the images are, worked out from the manual's layout:
//   standard data 0x123      0x24600000  0x2460
//   standard remote 0x123    0x24600002  0x2470
//   extended data 0x1ABCDEF0 0xD5E6F784  0xD5E9
//   extended remote          0xD5E6F786  0xD5F9
//   standard data 0x124      0x24800000  0x2480
//   extended data 0x1ABCDEF1 0xD5E6F78C  0xD5E9
fn six_frames() -> Result<[Frame; 6], Fail> {
    let standard = Id::standard(0x123)?;
    let extended = Id::extended(0x1ABC_DEF0)?;
    Ok([
        Frame::with_bytes(standard, &[1, 2])?,
        Frame::remote(standard, 2)?,
        Frame::with_bytes(extended, &[3])?,
        Frame::remote(extended, 1)?,
        data(0x124)?,
        Frame::with_bytes(Id::extended(0x1ABC_DEF1)?, &[])?,
    ])
}

/// A scale, a mode, both registers, and the places that match the six frames.
type Row = (Scale, Mode, u32, u32, [Option<u8>; 6]);

#[test]
fn a_bank_matches_by_its_scale_and_mode(rt: HostRuntime) -> Result<(), Fail> {
    let rows: [Row; 10] = [
        (
            Scale::Bits32,
            Mode::List,
            0x2460_0000,
            0xD5E6_F786,
            [Some(0), None, None, Some(1), None, None],
        ),
        (
            Scale::Bits32,
            Mode::List,
            0xD5E6_F784,
            0x2460_0002,
            [None, Some(1), Some(0), None, None, None],
        ),
        // STID, IDE and RTR
        (
            Scale::Bits32,
            Mode::Mask,
            0x2460_0000,
            0xFFE0_0006,
            [Some(0), None, None, None, None, None],
        ),
        // all but RTR
        (
            Scale::Bits32,
            Mode::Mask,
            0xD5E6_F784,
            0xFFFF_FFFC,
            [None, None, Some(0), Some(0), None, None],
        ),
        // RTR alone
        (
            Scale::Bits32,
            Mode::Mask,
            0x0000_0002,
            0x0000_0002,
            [None, Some(0), None, Some(0), None, None],
        ),
        // EXID all zero, as a standard frame has it
        (
            Scale::Bits32,
            Mode::Mask,
            0x0000_0000,
            0x001F_FFF8,
            [Some(0), Some(0), None, None, Some(0), None],
        ),
        (
            Scale::Bits16,
            Mode::List,
            0x2460_2470,
            0xD5E9_D5F9,
            [Some(1), Some(0), Some(3), Some(2), None, Some(3)],
        ),
        // one identifier twice: the lower place
        (
            Scale::Bits16,
            Mode::List,
            0xD5E9_2480,
            0x2460_2460,
            [Some(2), None, Some(1), None, Some(0), Some(1)],
        ),
        // IDE and EXID[17:15], then STID
        (
            Scale::Bits16,
            Mode::Mask,
            0x000F_D5E9,
            0xFFE0_2460,
            [Some(1), Some(1), Some(0), Some(0), None, Some(0)],
        ),
        // RTR, then nothing at all
        (
            Scale::Bits16,
            Mode::Mask,
            0x0010_0010,
            0x0000_0000,
            [Some(1), Some(0), Some(1), Some(0), Some(1), Some(1)],
        ),
    ];
    let frames = six_frames()?;
    for (row, (scale, mode, r1, r2, places)) in rows.iter().enumerate() {
        let bank = Bank::new(*scale, *mode, 0, true, *r1, *r2);
        for (column, (frame, place)) in frames.iter().zip(places.iter()).enumerate() {
            assert_eq!(rt; bank.matches(frame), *place, "row {row}, frame {column}");
        }
    }
    Ok(())
}

#[test]
fn a_wide_mask_wins_over_a_lower_narrow_list(rt: HostRuntime) -> Result<(), Fail> {
    let frame = data(0x123)?;
    let mut banks = Banks::new();
    assert_eq!(rt; banks.find(&frame), None);
    banks.set(
        0,
        Bank::new(Scale::Bits16, Mode::List, 0, true, 0x0000_2460, 0),
    );
    assert_eq!(rt; banks.find(&frame), Some((0, 0)));
    banks.set(
        5,
        Bank::new(Scale::Bits32, Mode::Mask, 0, true, 0x2460_0000, 0xFFE0_0006),
    );
    // bank 0 has the numbers 0 to 3, and the four inactive banks have 4 to 11
    assert_eq!(rt; banks.find(&frame), Some((0, 12)));
    // at one scale a list wins over a mask, whatever the FIFO
    banks.set(
        9,
        Bank::new(Scale::Bits32, Mode::List, 1, true, 0, 0x2460_0000),
    );
    assert_eq!(rt; banks.find(&frame), Some((1, 1)));
    // and of two lists the lower bank
    banks.set(
        7,
        Bank::new(Scale::Bits32, Mode::List, 0, true, 0x2460_0000, 0),
    );
    assert_eq!(rt; banks.find(&frame), Some((0, 15)));
    laws::one_filter_is_chosen();
    Ok(())
}

/// A bank's number, scale, mode, FIFO and activation, and the number of its first filter.
type Numbered = (u8, Scale, Mode, u8, bool, u8);

// The banks of the manual's "Example of filter numbering" (RM0008, bxCAN, "Filter match index").
#[test]
fn filters_are_numbered_as_in_the_manual(rt: HostRuntime) -> Result<(), Fail> {
    let rows: [Numbered; 14] = [
        (0, Scale::Bits32, Mode::List, 0, true, 0),
        (1, Scale::Bits32, Mode::Mask, 0, true, 2),
        (2, Scale::Bits16, Mode::Mask, 1, true, 0),
        (3, Scale::Bits16, Mode::List, 0, true, 3),
        (4, Scale::Bits32, Mode::List, 1, true, 2),
        (5, Scale::Bits32, Mode::List, 0, false, 7),
        (6, Scale::Bits16, Mode::Mask, 0, true, 9),
        (7, Scale::Bits16, Mode::Mask, 1, false, 4),
        (8, Scale::Bits16, Mode::Mask, 1, true, 6),
        (9, Scale::Bits32, Mode::List, 0, true, 11),
        (10, Scale::Bits16, Mode::List, 1, false, 8),
        (11, Scale::Bits32, Mode::List, 1, true, 12),
        (12, Scale::Bits32, Mode::Mask, 1, true, 14),
        (13, Scale::Bits32, Mode::Mask, 0, true, 13),
    ];
    let mut banks = Banks::new();
    for (bank, scale, mode, fifo, active, _) in rows {
        assert!(rt; bank < 14);
        assert!(rt; fifo <= 1);
        // the filter at place p of the bank asks for the standard data frame 4 * bank + p
        let first = u32::from(bank) * 4;
        let (r1, r2) = match (scale, mode) {
            (Scale::Bits32, Mode::Mask) => (first << 21, 0xFFFF_FFFF),
            (Scale::Bits32, Mode::List) => (first << 21, (first + 1) << 21),
            (Scale::Bits16, Mode::Mask) => {
                (0xFFFF_0000 + (first << 5), 0xFFFF_0000 + ((first + 1) << 5))
            }
            (Scale::Bits16, Mode::List) => (
                ((first + 1) << 21) + (first << 5),
                ((first + 3) << 21) + ((first + 2) << 5),
            ),
        };
        banks.set(bank, Bank::new(scale, mode, fifo, active, r1, r2));
    }
    for (bank, scale, mode, fifo, active, number) in rows {
        assert!(rt; bank < 14);
        assert!(rt; number < 16);
        let places = match (scale, mode) {
            (Scale::Bits32, Mode::Mask) => 1,
            (Scale::Bits32, Mode::List) | (Scale::Bits16, Mode::Mask) => 2,
            (Scale::Bits16, Mode::List) => 4,
        };
        for place in 0..4u8 {
            let frame = data(u16::from(bank) * 4 + u16::from(place))?;
            let want = if active && place < places {
                Some((fifo, number + place))
            } else {
                None
            };
            assert_eq!(rt; banks.find(&frame), want, "bank {bank}, place {place}");
        }
    }
    Ok(())
}

/// A received frame with this identifier.
// the 27 unlisted banks below are 16 bit masks of FIFO 0, of two filters each
#[test]
fn the_last_bank_counts_all_below(rt: HostRuntime) -> Result<(), Fail> {
    let mut banks = Banks::new();
    let last = Bank::new(Scale::Bits32, Mode::List, 0, true, 0x2460_0000, 0);
    banks.set(27, last);
    let frame = data(0x123)?;
    assert_eq!(rt; banks.find(&frame), Some((0, 54)));
    Ok(())
}

fn received(number: u32, filter_number: u8) -> Result<RxFrame, Fail> {
    Ok(RxFrame {
        frame: Frame::with_bytes(Id::extended(number)?, &[])?,
        filter_number,
    })
}

#[test]
fn the_fourth_frame_is_overrun(rt: HostRuntime) -> Result<(), Fail> {
    let (mut rxin, mut rxout) = RxFifo::pair(rt.alloc())?;
    let first = received(10, 0)?;
    let second = received(11, 1)?;
    let third = received(12, 2)?;
    let fifth = received(14, 4)?;
    assert_eq!(rt; rxin.offer(&rt, first), Offered::Stored);
    assert_eq!(rt; rxin.offer(&rt, second), Offered::Stored);
    assert_eq!(rt; rxin.offer(&rt, third), Offered::Stored);
    assert_eq!(rt; rxin.offer(&rt, received(13, 3)?), Offered::Overrun);
    assert_eq!(rt; rxout.release(&rt), Some(first));
    assert_eq!(rt; rxout.release(&rt), Some(second));
    assert_eq!(rt; rxout.release(&rt), Some(third));
    assert_eq!(rt; rxout.release(&rt), None);
    assert_eq!(rt; rxin.offer(&rt, fifth), Offered::Stored);
    let kept = RxFifo::close(&rt, rxin, rxout);
    assert_eq!(rt; kept.as_slice(), [fifth].as_slice());
    Ok(())
}

#[test]
fn a_full_fifo_is_closed_in_order(rt: HostRuntime) -> Result<(), Fail> {
    let (mut rxin, mut rxout) = RxFifo::pair(rt.alloc())?;
    let frames = [received(1, 0)?, received(2, 0)?, received(3, 0)?];
    assert_eq!(rt; rxout.release(&rt), None);
    rxin.offer(&rt, received(0, 0)?);
    rxin.offer(&rt, frames[0]);
    rxin.offer(&rt, frames[1]);
    assert_eq!(rt; rxout.release(&rt), Some(received(0, 0)?));
    assert_eq!(rt; rxin.offer(&rt, frames[2]), Offered::Stored);
    let kept = RxFifo::close(&rt, rxin, rxout);
    assert_eq!(rt; kept.as_slice(), frames.as_slice());
    Ok(())
}

// With ample memory there is a pair, and without there is `Memory`.
#[test]
fn a_pair_is_made_or_memory_is_refused(rt: HostRuntime) -> Result<(), Fail> {
    match RxFifo::pair(rt.alloc()) {
        Ok((rxin, rxout)) => {
            let kept = RxFifo::close(&rt, rxin, rxout);
            assert_eq!(rt; kept.len(), 0);
        }
        Err(refused) => assert_eq!(rt; refused, Memory),
    }
    Ok(())
}

#[test]
fn prints_that_memory_was_refused(rt: HostRuntime) -> Result<(), Fail> {
    let text = format!(in rt.alloc(); "{Memory}")?;
    assert_eq!(rt; text.as_str(), "memory was refused");
    Ok(())
}

const OFFERS: u16 = 10_000;

/// The frame with this number as its identifier.
fn numbered(number: u16) -> RxFrame {
    let frame = match Id::extended(u32::from(number)) {
        Ok(id) => Frame::remote(id, 0).unwrap_or_default(),
        Err(_) => Frame::default(),
    };
    RxFrame {
        frame,
        filter_number: (number % 256) as u8,
    }
}

/// Offers the frames numbered from 0 on, and lists those that were stored.
fn offer_all<R: Wait>(
    rt: &R,
    alloc: Global,
    mut rxin: RxIn,
) -> Result<(RxIn, Vec<RxFrame>), AllocError>
    ensures { IfOk result (λ all. all.0.queue ≡ rxin.queue) }
{
    let mut stored = Vec::new(alloc);
    for number in 0..OFFERS {
        match rxin.offer(rt, numbered(number)) {
            Offered::Stored => stored.push(numbered(number))?,
            Offered::Overrun => thread::yield_now(),
        }
    }
    Ok((rxin, stored))
}

/// Releases frames until all were offered, and lists them.
fn release_all<R: Wait>(
    rt: &R,
    alloc: Global,
    mut rxout: RxOut,
    ended: &AtomicBool,
) -> Result<(RxOut, Vec<RxFrame>), AllocError>
    ensures { IfOk result (λ all. all.0.queue ≡ rxout.queue) }
{
    let mut released = Vec::new(alloc);
    for _ in rt.forever() {
        if ended.load(Ordering::SeqCst) {
            break;
        }
        match rxout.release(rt) {
            Some(frame) => released.push(frame)?,
            None => thread::yield_now(),
        }
    }
    Ok((rxout, released))
}

#[test]
fn two_threads_keep_the_order(rt: HostRuntime) -> Result<(), Fail> {
    let alloc = rt.alloc();
    let (rxin, rxout) = RxFifo::pair(alloc)?;
    let ended = AtomicBool::new(false);
    let (releasing, (offering, ())) = thread::join(
        &rt,
        || release_all(&rt, alloc, rxout, &ended),
        || {
            thread::join(
                &rt,
                || {
                    let all = offer_all(&rt, alloc, rxin);
                    ended.store(true, Ordering::SeqCst);
                    all
                },
                || (),
            )
        },
    );
    let (rxin, stored) = offering?;
    let (rxout, mut released) = releasing?;
    let kept = RxFifo::close(&rt, rxin, rxout);
    for frame in kept.as_slice() {
        released.push(*frame)?;
    }
    assert_eq!(rt; stored.as_slice(), released.as_slice());
    assert!(rt; stored.len() >= 3);
    Ok(())
}

use arrayvec::ArrayVec;
use can_frame::{FaultKind, Frame, FrameError, Id, Reader, Step, crc15, wire};
use std::alloc::{AllocError, Global};
use std::test::Fail;

fn data(number: u16, bytes: &[u8]) -> Result<Frame, FrameError> {
    Frame::with_bytes(Id::standard(number)?, bytes)
}

fn long_data(number: u32, bytes: &[u8]) -> Result<Frame, FrameError> {
    Frame::with_bytes(Id::extended(number)?, bytes)
}

/// A frame's levels as its sender drives them, as digits.
fn text_of(alloc: Global, frame: &Frame) -> Result<String, AllocError> {
    let mut text = String::new(alloc);
    for level in wire(frame).as_slice() {
        text.push(if *level { '1' } else { '0' })?;
    }
    Ok(text)
}

#[test]
fn spells_the_worked_frames(rt: HostRuntime) -> Result<(), Fail> {
    for (frame, want) in [
        (
            data(0, &[])?,
            "00000100000100000100000100000100000100001111111111",
        ),
        (
            data(1, &[])?,
            "00000100000101000001000100010000100111111111111",
        ),
        // the CRC ends in five equal levels, so a stuff bit follows it
        (
            data(9, &[])?,
            "0000010001001000001001111100000110000011111111111",
        ),
    ] {
        assert_eq!(rt; text_of(rt.alloc(), &frame)?.as_str(), want);
    }
    let id = Id::standard(0)?;
    for (frame, bits) in [
        (Frame::remote(id, 0)?, 47usize),
        (Frame::remote(id, 1)?, 47),
        (data(0, &[1])?, 58),
        (long_data(0, &[])?, 71),
    ] {
        assert_eq!(rt; wire(&frame).len(), bits);
    }
    Ok(())
}

/// The CRC of a text of digits of at most 40 levels.
fn check_of(text: &str) -> u16 {
    let mut levels: ArrayVec<bool, 40> = ArrayVec::new();
    for byte in text.as_bytes() {
        if !levels.is_full() {
            levels.push(*byte == b'1');
        }
    }
    crc15(levels.as_slice())
}

#[test]
fn checks_the_worked_fields(rt: HostRuntime) {
    for (fields, want) in [
        ("0000000000000000000", 0u16),
        // remote frames with a data length code of 0 and of 1
        ("0000000000001000000", 0x73C5),
        ("0000000000001000001", 0x365C),
        ("0000000000010000000", 0x2213),
        ("0000000010010000000", 0x7C20),
        ("000000000000000000100000001", 0x01BF),
        ("000000000000110000000000000000000000000", 0x4610),
    ] {
        assert_eq!(rt; check_of(fields), want, "of {fields}");
    }
}

#[test]
fn refuses_what_does_not_fit(rt: HostRuntime) -> Result<(), Fail> {
    assert!(rt; matches!(Id::standard(0x800), Err(FrameError::IdRange)));
    assert!(rt; Id::extended(0x1FFF_FFFF).is_ok());
    assert!(rt; matches!(Id::extended(0x2000_0000), Err(FrameError::IdRange)));
    let id = Id::standard(1)?;
    assert!(rt; matches!(Frame::with_bytes(id, &[0; 9]), Err(FrameError::TooLong)));
    assert!(rt; matches!(Frame::remote(id, 9), Err(FrameError::Dlc)));
    for (error, want) in [
        (FrameError::IdRange, "F1 IdRange"),
        (FrameError::TooLong, "F2 TooLong"),
        (FrameError::Dlc, "F3 Dlc"),
    ] {
        assert_eq!(rt; format!(in rt.alloc(); "{error}")?.as_str(), want);
    }
    Ok(())
}

#[test]
fn shows_its_parts(rt: HostRuntime) -> Result<(), Fail> {
    let frame = long_data(0x1234_5678, &[7, 9])?;
    frame.facts();
    frame.id().facts();
    assert!(rt; frame.id().is_extended());
    assert_eq!(rt; frame.id().number(), 0x1234_5678);
    assert!(rt; !frame.is_remote());
    assert_eq!(rt; frame.dlc(), 2);
    assert!(rt; frame.bytes() == &[7u8, 9][..]);
    let remote = Frame::remote(Id::standard(5)?, 3)?;
    assert!(rt; remote.is_remote() && remote.dlc() == 3 && remote.bytes().is_empty());
    assert!(rt; remote != Frame::with_bytes(Id::standard(5)?, &[0; 3])?);
    Ok(())
}

fn letter_of_fault(kind: FaultKind) -> char {
    match kind {
        FaultKind::Stuff => 'S',
        FaultKind::Form => 'F',
        FaultKind::Ack => 'A',
        FaultKind::Crc => 'C',
    }
}

/// One letter for an answer; capitals are last answers. A frame other than this one is a question mark.
fn letter_of(step: Step, frame: Frame) -> char {
    if step == Step::Body(frame, true) {
        return 'b';
    }
    if step == Step::Body(frame, false) {
        return 'w';
    }
    if step == Step::Taken(frame) {
        return 'T';
    }
    match step {
        Step::More => '.',
        Step::StuffBit => 's',
        Step::Tail => 't',
        Step::Fault(kind) => letter_of_fault(kind),
        Step::Body(_, _) | Step::Taken(_) => '?',
    }
}

/// A reader's answers to a text of digits.
fn answers_to(alloc: Global, text: &str, frame: &Frame) -> Result<String, AllocError> {
    let mut reader = Reader::new();
    let mut answers = String::new(alloc);
    for byte in text.as_bytes() {
        answers.push(letter_of(reader.push(*byte == b'1'), *frame))?;
    }
    Ok(answers)
}

#[test]
fn answers_each_level(rt: HostRuntime) -> Result<(), Fail> {
    for (frame, text, want) in [
        // a dominant ACK slot, and a recessive one
        (
            data(0, &[])?,
            "00000100000100000100000100000100000100001011111111",
            ".....s.....s.....s.....s.....s.....s...bttttttttTT",
        ),
        (
            data(0, &[])?,
            "00000100000100000100000100000100000100001111111111",
            ".....s.....s.....s.....s.....s.....s...btAAAAAAAAA",
        ),
        // the stuff bit behind the CRC, and a dominant level in its place
        (
            data(9, &[])?,
            "0000010001001000001001111100000110000011011111111",
            ".....s............s.......s....s......bttttttttTT",
        ),
        (
            data(9, &[])?,
            "0000010001001000001001111100000110000001011111111",
            ".....s............s.......s....s......SSSSSSSSSSS",
        ),
        // a wrong CRC: either ACK slot and either ACK delimiter
        (
            data(1, &[])?,
            "00000100000101000001000100010000100101011111111",
            ".....s.....s.......s................wttCCCCCCCC",
        ),
        (
            data(1, &[])?,
            "00000100000101000001000100010000100101111111111",
            ".....s.....s.......s................wttCCCCCCCC",
        ),
        (
            data(1, &[])?,
            "00000100000101000001000100010000100101001111111",
            ".....s.....s.......s................wttFFFFFFFF",
        ),
        (
            data(1, &[])?,
            "00000100000101000001000100010000100101101111111",
            ".....s.....s.......s................wttFFFFFFFF",
        ),
        // a recessive SOF, and a dominant sixth bit of EOF
        (data(1, &[])?, "100", "FFF"),
        (
            data(1, &[])?,
            "00000100000101000001000100010000100111011111101",
            ".....s.....s.......s................bttttttttFF",
        ),
    ] {
        assert_eq!(rt;
            answers_to(rt.alloc(), text, &frame)?.as_str(),
            want,
            "to {text}"
        );
    }
    Ok(())
}

/// A reader's answers to the levels of a text behind its first ones, which it has read anew.
fn answers_behind(
    alloc: Global,
    text: &str,
    first: usize,
    frame: &Frame,
) -> Result<String, AllocError> {
    let mut front = Vec::new(alloc);
    for byte in text.as_bytes().iter().take(first) {
        front.push(*byte == b'1')?;
    }
    let mut reader = Reader::new();
    // before, it had ended with a fault
    let _fault = reader.push(true);
    reader.read_anew(front.as_slice());
    let mut answers = String::new(alloc);
    for byte in text.as_bytes().iter().skip(first) {
        answers.push(letter_of(reader.push(*byte == b'1'), *frame))?;
    }
    Ok(answers)
}

#[test]
fn reads_on_behind_what_it_read_anew(rt: HostRuntime) -> Result<(), Fail> {
    let frame = data(0, &[])?;
    let text = "00000100000100000100000100000100000100001011111111";
    // SOF alone, five equal levels, a stuff bit behind them, and more
    for (first, want) in [
        (1, "....s.....s.....s.....s.....s.....s...bttttttttTT"),
        (5, "s.....s.....s.....s.....s.....s...bttttttttTT"),
        (6, ".....s.....s.....s.....s.....s...bttttttttTT"),
        (20, "...s.....s.....s...bttttttttTT"),
    ] {
        assert_eq!(rt;
            answers_behind(rt.alloc(), text, first, &frame)?.as_str(),
            want,
            "behind {first}"
        );
    }
    Ok(())
}

#[test]
fn does_not_check_what_is_reserved(rt: HostRuntime) -> Result<(), Fail> {
    for (frame, text, want) in [
        // SRR dominant, r1 and r0 recessive, a data length code of 15
        (
            long_data(0x1234_5678, &[1, 2, 3, 4, 5, 6, 7, 8])?,
            "0100100011010100010101100111100001111101000001001000001010000010011000001100000100101000001110000010111000010000111100111011001011111111",
            "......................................s......s........s.......s.........s......s..........s.......s..........................bttttttttTT",
        ),
        // a remote frame with r0 recessive and a data length code of 9
        (
            Frame::remote(Id::standard(0x2A5)?, 8)?,
            "001010100101101100110110100111110001011111111",
            "................................s.bttttttttTT",
        ),
    ] {
        assert_eq!(rt;
            answers_to(rt.alloc(), text, &frame)?.as_str(),
            want,
            "to {text}"
        );
    }
    Ok(())
}

/// A reader's last two answers to a frame's levels, the ACK slot dominant.
fn last_answers(frame: &Frame) -> (Step, Step) {
    let levels = wire(frame);
    let mut reader = Reader::new();
    let mut last = (Step::More, Step::More);
    for (place, level) in levels.as_slice().iter().enumerate() {
        // behind the ACK slot come the ACK delimiter and EOF
        let is_slot = levels.len() - place == 9;
        last = (last.1, reader.push(*level && !is_slot));
    }
    last
}

#[test]
fn takes_what_it_sends(rt: HostRuntime) -> Result<(), Fail> {
    let short = Id::standard(0x555)?;
    let long = Id::extended(0x1FFF_FFFF)?;
    for frame in [
        data(0, &[])?,
        data(0x7FF, &[0xFF; 8])?,
        Frame::remote(short, 8)?,
        long_data(0, &[0; 8])?,
        long_data(0x0ABC_DEF0, &[1, 2, 3])?,
        Frame::remote(long, 0)?,
    ] {
        let (sixth, seventh) = last_answers(&frame);
        assert_eq!(rt; sixth, Step::Taken(frame));
        assert_eq!(rt; seventh, Step::Taken(frame));
    }
    Ok(())
}

#[test]
fn keys_are_arbitration_fields(rt: HostRuntime) -> Result<(), Fail> {
    let short = Id::standard(0x123)?;
    let last = Id::extended(0x1FFF_FFFF)?;
    for (frame, want) in [
        (data(0, &[])?, 0),
        (data(0x123, &[])?, 0x2460_0000),
        (Frame::remote(short, 0)?, 0x2470_0000),
        (long_data(0x1ABC_DEF0, &[])?, 0xD5F9_BDE0),
        (Frame::remote(last, 8)?, 0xFFFF_FFFF),
    ] {
        assert_eq!(rt; frame.arbitration_key(), want);
    }
    Ok(())
}

//! Levels across the ends of words of 64.

use can_segment::Levels;
use std::alloc::{AllocError, Global};
use std::process::Abort;
use std::test::Fail;

/// Appends a level, and makes room for it first.
fn append(levels: &mut Levels, level: bool) -> Result<(), AllocError> {
    levels.reserve(1)?;
    levels.push(level);
    Ok(())
}

/// Appends these levels, and makes room for them first.
fn append_slice(levels: &mut Levels, more: &[bool]) -> Result<(), AllocError> {
    levels.reserve(more.len())?;
    levels.extend_from_slice(more);
    Ok(())
}

/// Appends recessive levels, and makes room for them first.
fn append_recessive(levels: &mut Levels, count: usize) -> Result<(), AllocError> {
    levels.reserve(count)?;
    levels.extend_recessive(count);
    Ok(())
}

/// Returns the levels of a text of zeros and ones.
fn levels_of(alloc: Global, text: &str) -> Result<Levels, AllocError> {
    let mut levels = Levels::new(alloc);
    for byte in text.as_bytes() {
        append(&mut levels, *byte == b'1')?;
    }
    Ok(levels)
}

/// Returns the levels as a text of zeros and ones.
fn text_of(alloc: Global, levels: &Levels) -> Result<String, AllocError> {
    let mut text = String::new(alloc);
    for bit in 0..levels.len() {
        text.push(if levels.get(bit) == Some(true) {
            '1'
        } else {
            '0'
        })?;
    }
    Ok(text)
}

/// 63 levels.
const MOST: &str = "011000111100000111111000000011111111000000000111111111100000000";

/// 64 levels.
const WORD: &str = "1010011000111000011110000011111000000111111000000011111110000000";

/// Asserts that these levels are those of the text, and that there are no more.
fn assert_levels(rt: &(impl Abort + AllocGlobal), levels: &Levels, text: &str) -> Result<(), Fail> {
    let found = text_of(rt.alloc(), levels)?;
    assert_eq!(rt; found.as_str(), text);
    assert_eq!(rt; levels.len(), text.len());
    assert_eq!(rt; levels.get(text.len()), None);
    assert_eq!(rt; levels.is_empty(), text.is_empty());
    Ok(())
}

#[test]
fn there_is_none_at_first(rt: HostRuntime) -> Result<(), Fail> {
    let levels = Levels::new(rt.alloc());
    assert_levels(&rt, &levels, "")?;
    assert_eq!(rt; levels.capacity(), 0);
    assert_eq!(rt; levels.get(usize::MAX), None);
    Ok(())
}

#[test]
fn pushes_across_the_ends_of_words(rt: HostRuntime) -> Result<(), Fail> {
    for more in ["", "0", "1", "00", "01", "10", "11"] {
        let text = format!(in rt.alloc(); "{MOST}{more}")?;
        assert_levels(&rt, &levels_of(rt.alloc(), text.as_str())?, text.as_str())?;
        let text = format!(in rt.alloc(); "{WORD}{MOST}{more}")?;
        assert_levels(&rt, &levels_of(rt.alloc(), text.as_str())?, text.as_str())?;
    }
    Ok(())
}

#[test]
fn gets_within_and_behind_the_end(rt: HostRuntime) -> Result<(), Fail> {
    let levels = levels_of(
        rt.alloc(),
        format!(in rt.alloc(); "{WORD}{WORD}011")?.as_str(),
    )?;
    let places = [
        (0, Some(true)),
        (1, Some(false)),
        (56, Some(true)),
        (57, Some(false)),
        (63, Some(false)),
        (64, Some(true)),
        (127, Some(false)),
        (128, Some(false)),
        (129, Some(true)),
        (130, Some(true)),
        (131, None),
        (191, None),
        (192, None),
        (usize::MAX, None),
    ];
    for (index, level) in places {
        assert_eq!(rt; levels.get(index), level, "at {index}");
    }
    Ok(())
}

#[test]
fn extends_with_recessive_levels(rt: HostRuntime) -> Result<(), Fail> {
    let ones = "1111111111111111111111111111111111111111111111111111111111111111";
    let cases = [
        ("", 0, ""),
        ("010", 0, ""),
        ("010", 2, "11"),
        (MOST, 1, "1"),
        (MOST, 2, "11"),
        (WORD, 3, "111"),
        ("", 64, ones),
    ];
    for (before, count, after) in cases {
        let mut levels = levels_of(rt.alloc(), before)?;
        append_recessive(&mut levels, count)?;
        // a dominant level behind them
        append(&mut levels, false)?;
        assert_levels(
            &rt,
            &levels,
            format!(in rt.alloc(); "{before}{after}0")?.as_str(),
        )?;
    }
    // the 63 levels that a word lacks, two words, and 4 levels
    let mut levels = levels_of(rt.alloc(), MOST)?;
    append_slice(&mut levels, &[false, true])?;
    append_recessive(&mut levels, 63 + 64 + 64 + 4)?;
    append(&mut levels, false)?;
    let text = format!(in rt.alloc(); "{MOST}01{}{ones}{ones}11110", &ones[1..])?;
    assert_levels(&rt, &levels, text.as_str())
}

#[test]
fn extends_from_slices(rt: HostRuntime) -> Result<(), Fail> {
    let piece = [
        true, false, true, true, false, false, true, true, true, false, false, false, true,
    ];
    let mut levels = Levels::new(rt.alloc());
    let mut text = String::new(rt.alloc());
    append_slice(&mut levels, &[])?;
    // pieces of 13 levels from 5 on: from 57 to 70 levels, and from 122 to 135
    append_slice(&mut levels, &piece[..5])?;
    text.push_str("10110")?;
    for _ in 0..10u8 {
        append_slice(&mut levels, &piece)?;
        text.push_str("1011001110001")?;
        assert_levels(&rt, &levels, text.as_str())?;
    }
    // from a full word on
    let mut levels = levels_of(rt.alloc(), WORD)?;
    append_slice(&mut levels, &piece)?;
    assert_levels(
        &rt,
        &levels,
        format!(in rt.alloc(); "{WORD}1011001110001")?.as_str(),
    )
}

#[test]
fn makes_room_for_whole_words(rt: HostRuntime) -> Result<(), Fail> {
    let mut levels = levels_of(rt.alloc(), "01")?;
    let room = levels.capacity();
    assert!(rt; room >= 64 && room % 64 == 0);
    levels.reserve(room - 2)?;
    assert_eq!(rt; levels.capacity(), room);
    levels.reserve(room - 1)?;
    assert!(rt; levels.capacity() / 2 >= room);
    assert!(rt; levels.reserve(usize::MAX).is_err());
    assert!(rt; levels.reserve(usize::MAX - 2).is_err());
    assert_levels(&rt, &levels, "01")
}

//! One that follows a line in place of nodes that listen, a node that sends to them or goes on, and the reader's short
//! ways.

use can_frame::{Frame, Reader, Step};
use can_node::{Counters, ErrorKind, KnownCounts, Node, Outcome, SharedReceiver};

/// A data frame of identifier 0 without bytes as all sample it, its ACK slot, the level at place 41, dominant.
const FRAME: &str = "00000100000100000100000100000100000100001011111111";

/// The node samples a level, if it has a bit left.
fn sample(node: &mut Node, level: bool) -> Option<Outcome> {
    if node.bit() == u64::MAX {
        return None;
    }
    Some(node.sample(level))
}

/// The node samples a level with which it goes on, if it has a bit left.
fn go_on(node: &mut Node, level: bool) -> Option<Outcome> {
    if node.bit() == u64::MAX || !node.goes_on(level) {
        return None;
    }
    node.go_on(level);
    Some(Outcome::Nothing)
}

/// What a node tells that samples this level as all do that this one stands for, if they read a frame, and whether it
/// has come as far then as one that has caught up and samples it by itself.
fn heard(shared_receiver: &SharedReceiver, bit: u64, level: bool) -> Option<(Outcome, bool)> {
    let heard = shared_receiver.hears(level)?;
    if bit == u64::MAX {
        return None;
    }
    let mut together = synchronized();
    let outcome = together.hear(&heard, bit, level);
    let mut alone = synchronized();
    alone.materialize(shared_receiver, bit);
    sample(&mut alone, level)?;
    Some((outcome, together.matches(&alone.shared_receiver())))
}

/// The node goes on with these levels, one after another, if they are the next that it drives in a frame, and it has
/// the bits left.
fn send_on(node: &mut Node, levels: &[bool]) -> bool {
    if levels.is_empty() || levels.len() > 100 || node.bit() > 1000 {
        return false;
    }
    if node.ahead(levels.len()) == levels {
        node.go_on_by(levels);
        return true;
    }
    false
}

/// The node goes ahead by this many of the levels that it drives next in a frame, if there are so many, and it has the
/// bits left.
fn go_ahead(node: &mut Node, count: usize) -> bool {
    if count == 0 || count > 100 || node.bit() > 1000 {
        return false;
    }
    if node.ahead(count).len() == count {
        node.go_ahead_by(count);
        return true;
    }
    false
}

/// The node goes on without sending with as many of these levels as it can, if it has the bits left: how many.
fn stay_out(node: &mut Node, levels: &[bool]) -> usize {
    let count = node.stays_out(levels);
    if count == 0 || count > 100 || node.bit() > 10_000 {
        return 0;
    }
    node.go_on_by(&levels[..count]);
    count
}

/// The reader is pushed a level with which the stuffed region goes on.
fn read_on(reader: &mut Reader, level: bool) -> bool {
    if !reader.would_read_on(level) {
        return false;
    }
    reader.read_on(level);
    true
}

/// A node that came to an idle bus at bit 11.
fn synchronized() -> Node {
    let mut node = Node::new(0);
    for _ in 0..11u8 {
        sample(&mut node, true);
    }
    node
}

/// A node that begins the frame at bit 11.
fn sender() -> Node {
    let mut node = synchronized();
    if node.wants_start() {
        node.begin(Frame::default());
    }
    node
}

#[test]
fn one_follows_for_those_that_listen(rt: HostRuntime) {
    let mut sender = sender();
    let mut receiver = synchronized();
    let mut shared_receiver = receiver.shared_receiver();
    assert!(rt; shared_receiver.wants_start());
    assert!(rt; shared_receiver.hears(true).is_none());
    assert!(rt; !sender.is_listening());
    for (place, byte) in FRAME.as_bytes().iter().enumerate() {
        let level = *byte == b'1';
        match place {
            0 | 1 => {
                assert_eq!(rt; sample(&mut sender, level), Some(Outcome::Nothing));
                assert_eq!(rt; sample(&mut receiver, level), Some(Outcome::Nothing));
                assert!(rt; receiver.is_listening());
                shared_receiver = receiver.shared_receiver();
                assert!(rt; receiver.matches(&shared_receiver));
                assert!(rt; !shared_receiver.wants_start());
            }
            // the last bit of the CRC, at which the frame is read, and the ACK slot, at which a receiver answers
            39 | 41 => {
                assert_eq!(rt; shared_receiver.drive(), place != 41);
                assert_eq!(rt; shared_receiver.reads_along_by(&[level]), 0);
                // a CRC that is wrong is told behind the ACK slot; that one's own dominant level is missing is a bit
                // error
                let wrong = if place == 41 {
                    Outcome::Errored(ErrorKind::Bit)
                } else {
                    Outcome::Nothing
                };
                let bit = sender.bit();
                assert_eq!(rt;
                    heard(&shared_receiver, bit, level),
                    Some((Outcome::Nothing, true))
                );
                assert_eq!(rt; heard(&shared_receiver, bit, !level), Some((wrong, true)));
                assert_eq!(rt; sample(&mut sender, level), Some(Outcome::Nothing));
                assert!(rt; shared_receiver.follow(bit, level, receiver.known_counts()));
            }
            // the sixth bit of EOF, at which a receiver takes the frame
            48 => {
                assert_eq!(rt; shared_receiver.reads_along_by(&[level]), 0);
                assert!(rt; !shared_receiver.follow(sender.bit(), level, KnownCounts::Zero));
                assert!(rt; !receiver.matches(&shared_receiver));
                assert!(rt; shared_receiver.takes(false).is_none());
                let Some(taken) = shared_receiver.takes(level) else {
                    panic!(rt; "it is taken");
                };
                assert_eq!(rt; (taken.start, taken.frame), (11, Frame::default()));
                receiver.materialize(&shared_receiver, sender.bit());
                assert_eq!(rt; sample(&mut sender, level), Some(Outcome::Nothing));
                assert_eq!(rt;
                    sample(&mut receiver, level),
                    Some(Outcome::Took {
                        start: 11,
                        frame: Frame::default(),
                    })
                );
            }
            49 => assert_eq!(rt; sample(&mut sender, level), Some(Outcome::Completed)),
            _ => {
                assert!(rt; shared_receiver.drive());
                assert_eq!(rt; sender.drive(), level);
                assert_eq!(rt; sample(&mut sender, level), Some(Outcome::Nothing));
                assert_eq!(rt; shared_receiver.reads_along_by(&[level]), 1);
            }
        }
    }
    assert_eq!(rt; sender.bit(), 61);
    assert_eq!(rt; receiver.bit(), 60);
    // one that took the frame together with others has come as far as one that took it by itself
    let mut other = synchronized();
    other.take_up(59);
    assert_eq!(rt; other.bit(), 60);
    assert!(rt; other.matches(&receiver.shared_receiver()));
    assert_eq!(rt;
        KnownCounts::Zero.and(sender.known_counts()),
        KnownCounts::Zero
    );
}

#[test]
fn one_goes_on_through_flags_and_in_bus_off(rt: HostRuntime) {
    let mut node = synchronized();
    let mut bits = 0u16;
    // each SOF that it drives is sampled recessive, which adds 8 to its transmit error count, and 32 of them end it
    for _ in 0..1000u16 {
        let starts = node.wants_start();
        if starts {
            node.begin(Frame::default());
        }
        let level = starts || node.drive();
        if go_on(&mut node, level).is_some() {
            bits = bits.saturating_add(1);
            continue;
        }
        if sample(&mut node, level) == Some(Outcome::WentOff) {
            break;
        }
    }
    assert_eq!(rt; node.counters().tec(), 256);
    // each of its 31 flags has six bits, a delimiter of eight and an intermission of three; behind it are eight bits
    // more while it is error passive, which is from the 16th flag on
    assert_eq!(rt; bits, 31 * (6 + 8 + 3) + 16 * 8);
    let start = node.bit();
    // a run that a dominant bit breaks does not count
    for level in [true, true, true, false] {
        assert_eq!(rt; go_on(&mut node, level), Some(Outcome::Nothing));
    }
    assert_eq!(rt; stay_out(&mut node, &[true, true, true, true, false]), 5);
    for run in 1..=128u8 {
        assert_eq!(rt; stay_out(&mut node, &[true; 7]), 7);
        if run < 128 {
            // the end of a run that is not the last one tells nothing
            assert_eq!(rt; stay_out(&mut node, &[true; 3]), 3);
            assert_eq!(rt; go_on(&mut node, true), Some(Outcome::Nothing));
            continue;
        }
        assert_eq!(rt; stay_out(&mut node, &[true; 7]), 3);
        assert_eq!(rt; stay_out(&mut node, &[true, false]), 0);
        assert_eq!(rt; go_on(&mut node, true), None);
        assert_eq!(rt; sample(&mut node, true), Some(Outcome::CameBack));
    }
    assert_eq!(rt; node.bit().checked_sub(start), Some(9 + 128 * 11));
    assert_eq!(rt; node.counters(), Counters::new());
}

#[test]
fn a_passive_flag_waits_for_six_equal_levels(rt: HostRuntime) {
    let mut node = synchronized();
    // each SOF that it drives is sampled recessive, which adds 8 to its transmit error count: the 17th is met when that
    // is 128, and its flag is passive
    let mut errors = 0u8;
    for _ in 0..1000u16 {
        let starts = node.wants_start();
        if starts {
            node.begin(Frame::default());
        }
        let level = starts || node.drive();
        if sample(&mut node, level) == Some(Outcome::Errored(ErrorKind::Bit)) {
            errors = errors.saturating_add(1);
        }
        if errors == 17 {
            break;
        }
    }
    assert_eq!(rt; node.counters().tec(), 136);
    // the sixth equal level is the last one
    assert_eq!(rt; node.stays_out(&[true; 8]), 5);
    assert_eq!(rt; node.stays_out(&[false; 8]), 5);
    let others = [true, true, false, true, true, true, true, true, true, true];
    assert_eq!(rt; stay_out(&mut node, &others), 8);
    assert_eq!(rt; go_on(&mut node, true), Some(Outcome::Nothing));
    // the delimiter begins with the first recessive level behind it, and a dominant one would be an error there
    assert_eq!(rt; node.stays_out(&others), 2);
}

#[test]
fn most_levels_are_read_in_a_short_way(rt: HostRuntime) {
    let mut reader = Reader::new();
    for (place, byte) in FRAME.as_bytes().iter().enumerate() {
        let level = *byte == b'1';
        let before = reader.copy();
        let mut other = reader.copy();
        assert_eq!(rt; before.reads_as(&reader), place < 49);
        assert_eq!(rt; read_on(&mut other, level), place <= 38);
        assert_eq!(rt; reader.reads_on(level), 1 <= place && place <= 38);
        assert_eq!(rt; reader.reads_tail(level), 40 <= place && place <= 47);
        match place {
            0 => assert_eq!(rt; reader.push(level), Step::More),
            39 => assert_eq!(rt; reader.push(level), Step::Body(Frame::default(), true)),
            48 | 49 => assert_eq!(rt; reader.push(level), Step::Taken(Frame::default())),
            _ => {}
        }
        assert!(rt; !before.reads_as(&reader));
        assert_eq!(rt; other.reads_as(&reader), place <= 38);
    }
}

#[test]
fn a_receiver_goes_on_in_the_stuffed_region(rt: HostRuntime) {
    let mut receiver = synchronized();
    for (place, byte) in FRAME.as_bytes().iter().enumerate() {
        let level = *byte == b'1';
        if place <= 38 && level {
            // a sixth dominant level is a stuff error
            assert_eq!(rt; go_on(&mut receiver, false), None);
        }
        if 1 <= place && place <= 38 {
            assert_eq!(rt; go_on(&mut receiver, level), Some(Outcome::Nothing));
            continue;
        }
        assert_eq!(rt; go_on(&mut receiver, level), None);
        let taken = Outcome::Took {
            start: 11,
            frame: Frame::default(),
        };
        let outcome = if place == 48 { taken } else { Outcome::Nothing };
        assert_eq!(rt; sample(&mut receiver, level), Some(outcome));
    }
    assert_eq!(rt; receiver.bit(), 61);
}

#[test]
fn a_sender_makes_many_bits_at_once(rt: HostRuntime) {
    let mut sender = sender();
    let mut receiver = synchronized();
    for _ in 0..2u8 {
        sample(&mut sender, false);
        sample(&mut receiver, false);
    }
    let mut levels = [false; 39];
    for (level, byte) in levels.iter_mut().zip(FRAME.as_bytes().iter().skip(2)) {
        *level = *byte == b'1';
    }
    assert!(rt; receiver.ahead(64).is_empty());
    // all before the ACK slot
    assert!(rt; sender.ahead(64) == levels.as_slice());
    // up to the last bit of the CRC, at which the frame is read
    let mut shared_receiver = receiver.shared_receiver();
    assert_eq!(rt; shared_receiver.reads_along_by(&levels), 37);
    assert_eq!(rt; shared_receiver.reads_along_by(&levels), 0);
    // the receiver reads as many by itself, and three more dominant ones before a stuff bit is due
    assert_eq!(rt; receiver.stays_out(&[false; 8]), 3);
    assert_eq!(rt; stay_out(&mut receiver, &levels), 37);
    assert_eq!(rt; receiver.stays_out(&levels[37..]), 0);
    assert_eq!(rt; receiver.bit(), 50);
    assert!(rt; !send_on(&mut sender, &levels[1..20]));
    assert!(rt; send_on(&mut sender, &levels[..37]));
    assert_eq!(rt; sender.bit(), 50);
    assert!(rt; sender.ahead(64) == &levels[37..]);
}

#[test]
fn a_sender_goes_ahead_as_it_does_bit_by_bit(rt: HostRuntime) {
    let mut single = sender();
    for (place, byte) in FRAME.as_bytes().iter().enumerate().take(41) {
        let level = *byte == b'1';
        let mut sender = sender();
        assert_eq!(rt; go_ahead(&mut sender, place), place > 0);
        assert_eq!(rt; sender.drive(), level);
        assert_eq!(rt; sender.bit(), single.bit());
        assert!(rt; sender.ahead(64) == single.ahead(64));
        assert_eq!(rt; go_on(&mut single, level), Some(Outcome::Nothing));
    }
    // no further than up to the ACK slot, and behind that up to the last bit of EOF
    let mut sender = sender();
    assert!(rt; !go_ahead(&mut sender, 42));
    assert!(rt; go_ahead(&mut sender, 41));
    assert_eq!(rt; go_on(&mut sender, false), Some(Outcome::Nothing));
    assert!(rt; !go_ahead(&mut sender, 8));
    assert!(rt; go_ahead(&mut sender, 7));
    assert_eq!(rt; sample(&mut sender, true), Some(Outcome::Completed));
    assert_eq!(rt; sender.bit(), 61);
}

#[test]
fn a_sender_goes_on_where_it_is_acknowledged(rt: HostRuntime) {
    let mut sender = sender();
    for (place, byte) in FRAME.as_bytes().iter().enumerate() {
        let level = *byte == b'1';
        // another level than it drives, in the ACK slot the one that it drives, ends the frame
        assert_eq!(rt; go_on(&mut sender, !level), None);
        if place < 49 {
            assert_eq!(rt; go_on(&mut sender, level), Some(Outcome::Nothing));
            continue;
        }
        assert_eq!(rt; go_on(&mut sender, level), None);
        assert_eq!(rt; sample(&mut sender, level), Some(Outcome::Completed));
    }
    assert_eq!(rt; sender.bit(), 61);
}

#[test]
fn the_flags_of_others_are_waited_for(rt: HostRuntime) {
    let mut sender = sender();
    assert_eq!(rt;
        sample(&mut sender, true),
        Some(Outcome::Errored(ErrorKind::Bit))
    );
    assert_eq!(rt; sender.counters().tec(), 8);
    // 8 more are counted at the 14th dominant level from the start of its flag on, and at each eighth behind that
    for place in 1..=30u8 {
        let counted = place == 14 || place == 22 || place == 30;
        assert_eq!(rt; go_on(&mut sender, false).is_none(), counted);
        if counted {
            assert_eq!(rt; sample(&mut sender, false), Some(Outcome::Nothing));
        }
    }
    assert_eq!(rt; sender.counters().tec(), 32);
    assert_eq!(rt; go_on(&mut sender, true), Some(Outcome::Nothing));
}

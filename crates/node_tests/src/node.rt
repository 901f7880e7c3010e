use can_frame::{Frame, FrameError, Id};
use can_node::{Counters, ErrorEvent, ErrorKind, ErrorState, Node, Outcome, Role};
use std::alloc::{AllocError, Global};
use std::test::Fail;

/// A data frame of identifier 1 without bytes, as its sender drives it, '0' being dominant.
const FRAME: &str = "00000100000101000001000100010000100111111111111";
/// The same with a wrong third bit of its CRC.
const WRONG_FRAME: &str = "00000100000101000001000110010000100111111111111";

/// The counters after the same event so many times.
fn after(mut counters: Counters, event: ErrorEvent, times: u8) -> Counters {
    for _ in 0..times {
        counters.apply(event);
    }
    counters
}

#[test]
fn sender_errors_lead_to_bus_off_and_back(rt: HostRuntime) -> Result<(), Fail> {
    let new = Counters::new();
    assert_eq!(rt; new.state(), ErrorState::Active);
    for (times, tec, state) in [
        (15u8, 120u16, ErrorState::Active),
        (16, 128, ErrorState::Passive),
        (31, 248, ErrorState::Passive),
        (32, 256, ErrorState::Off),
    ] {
        let counters = after(new, ErrorEvent::SenderError, times);
        assert_eq!(rt; counters.tec(), tec);
        assert_eq!(rt; counters.rec(), 0);
        assert_eq!(rt; counters.state(), state);
    }
    let mut off = after(new, ErrorEvent::FlagBit(Role::Sender), 32);
    off.apply(ErrorEvent::ReceiverError);
    off.apply(ErrorEvent::Sent);
    assert_eq!(rt; off.tec(), 256);
    assert_eq!(rt; off.rec(), 0);
    off.apply(ErrorEvent::Recovered);
    assert_eq!(rt; off, new);
    Ok(())
}

#[test]
fn receiver_errors_lead_to_passive_and_back(rt: HostRuntime) -> Result<(), Fail> {
    let new = Counters::new();
    let mut counters = after(new, ErrorEvent::ReceiverDominant, 16);
    assert_eq!(rt; counters.rec(), 128);
    assert_eq!(rt; counters.state(), ErrorState::Passive);
    counters.apply(ErrorEvent::Received);
    assert_eq!(rt; counters.rec(), 120);
    assert_eq!(rt; counters.state(), ErrorState::Active);
    let full = after(new, ErrorEvent::DominantRun(Role::Receiver), 200);
    assert_eq!(rt; full.rec(), 255);
    assert_eq!(rt; full.tec(), 0);
    Ok(())
}

/// What a node does on a bus: the levels that it drives, '0' being dominant, and what its last bit told.
#[derive(Drop)]
struct Heard {
    driven: String,
    outcome: Outcome,
}

/// A node on a bus, on which others drive these levels, up to the first bit that it tells something of.
fn hear(alloc: Global, node: &mut Node, others: &str) -> Result<Heard, AllocError> {
    let mut driven = String::new(alloc);
    let mut outcome = Outcome::Nothing;
    for other in others.chars() {
        let own = node.drive();
        if outcome == Outcome::Nothing && node.bit() < u64::MAX {
            driven.push(if own { '1' } else { '0' })?;
            outcome = node.sample(own && other == '1');
        }
    }
    Ok(Heard { driven, outcome })
}

fn frame() -> Result<Frame, FrameError> {
    Frame::with_bytes(Id::standard(1)?, &[])
}

/// An idle node, whose first bit is that of number 100 and whose next one that of number 111.
fn idle_node(alloc: Global) -> Result<Node, AllocError> {
    let mut node = Node::new(100);
    let _synced = hear(alloc, &mut node, "11111111111")?;
    Ok(node)
}

#[test]
fn takes_part_after_eleven_recessive_levels(rt: HostRuntime) -> Result<(), Fail> {
    let mut node = Node::new(100);
    let broken = hear(rt.alloc(), &mut node, "111111111101111111111")?;
    assert_eq!(rt; broken.driven.as_str(), "111111111111111111111");
    assert_eq!(rt; node.wants_start(), false);
    let last = hear(rt.alloc(), &mut node, "1")?;
    assert_eq!(rt; last.outcome, Outcome::Nothing);
    assert_eq!(rt; node.wants_start(), true);
    assert_eq!(rt; node.bit(), 122);
    Ok(())
}

#[test]
fn takes_frames_and_rests_between_them(rt: HostRuntime) -> Result<(), Fail> {
    let mut node = idle_node(rt.alloc())?;
    let idle = hear(rt.alloc(), &mut node, "11")?;
    assert_eq!(rt; idle.outcome, Outcome::Nothing);
    let took = hear(rt.alloc(), &mut node, FRAME)?;
    assert_eq!(rt;
        took.outcome,
        Outcome::Took {
            start: 113,
            frame: frame()?
        }
    );
    // it drives its ACK slot dominant, and takes the frame at the last but one bit
    assert_eq!(rt;
        took.driven.as_str(),
        "1111111111111111111111111111111111111101111111"
    );
    let ended = hear(rt.alloc(), &mut node, "111")?;
    assert_eq!(rt; ended.outcome, Outcome::Nothing);
    assert_eq!(rt; node.wants_start(), false);
    // the third bit of the intermission is SOF, and the node may send from the next bit on, or read
    assert_eq!(rt; node.bit(), 162);
    let start = hear(rt.alloc(), &mut node, "0")?;
    assert_eq!(rt; start.outcome, Outcome::Nothing);
    assert_eq!(rt; node.wants_start(), true);
    let next = hear(rt.alloc(), &mut node, &FRAME[1..])?;
    assert_eq!(rt;
        next.outcome,
        Outcome::Took {
            start: 162,
            frame: frame()?
        }
    );
    // a dominant last bit asks for an overload flag; then delimiter and intermission
    let asked = hear(rt.alloc(), &mut node, "0111111111111111111")?;
    assert_eq!(rt; asked.driven.as_str(), "1000000111111111111");
    assert_eq!(rt; node.wants_start(), true);
    assert_eq!(rt; node.counters(), Counters::new());
    Ok(())
}

#[test]
fn tells_errors_by_flags(rt: HostRuntime) -> Result<(), Fail> {
    let mut node = idle_node(rt.alloc())?;
    let stuffed = hear(rt.alloc(), &mut node, "0000001")?;
    assert_eq!(rt; stuffed.outcome, Outcome::Errored(ErrorKind::Stuff));
    assert_eq!(rt; stuffed.driven.as_str(), "111111");
    assert_eq!(rt; node.counters().rec(), 1);
    // six dominant bits, a delimiter that is cut short, and the next flag
    let cut = hear(rt.alloc(), &mut node, "111111110")?;
    assert_eq!(rt; cut.outcome, Outcome::Errored(ErrorKind::Form));
    assert_eq!(rt; cut.driven.as_str(), "000000111");
    assert_eq!(rt; node.counters().rec(), 2);
    let ended = hear(rt.alloc(), &mut node, "11111111111111111")?;
    assert_eq!(rt; ended.driven.as_str(), "00000011111111111");
    assert_eq!(rt; node.wants_start(), true);
    // after a wrong CRC it drives no ACK slot, and tells the error at the ACK delimiter
    let wrong = hear(rt.alloc(), &mut node, WRONG_FRAME)?;
    assert_eq!(rt; wrong.outcome, Outcome::Errored(ErrorKind::Crc));
    assert_eq!(rt;
        wrong.driven.as_str(),
        "1111111111111111111111111111111111111111"
    );
    assert_eq!(rt; node.counters().rec(), 3);
    // a frame that is acknowledged counts one back
    let behind = hear(rt.alloc(), &mut node, "11111111111111111")?;
    assert_eq!(rt; behind.outcome, Outcome::Nothing);
    let took = hear(rt.alloc(), &mut node, FRAME)?;
    assert_eq!(rt;
        took.outcome,
        Outcome::Took {
            start: 200,
            frame: frame()?
        }
    );
    assert_eq!(rt; node.counters().rec(), 2);
    Ok(())
}

#[test]
fn a_stuck_bus_makes_it_passive(rt: HostRuntime) -> Result<(), Fail> {
    let mut node = idle_node(rt.alloc())?;
    let stuffed = hear(rt.alloc(), &mut node, "000000")?;
    assert_eq!(rt; stuffed.outcome, Outcome::Errored(ErrorKind::Stuff));
    // six of its flag, the first behind it, and then the 14th, the 22nd and so on to the 118th in a row
    for _ in 0..125u8 {
        let stuck = hear(rt.alloc(), &mut node, "0")?;
        assert_eq!(rt; stuck.outcome, Outcome::Nothing);
    }
    assert_eq!(rt; node.counters().rec(), 121);
    assert_eq!(rt; node.counters().state(), ErrorState::Active);
    // the 126th
    let passive = hear(rt.alloc(), &mut node, "0")?;
    assert_eq!(rt; passive.outcome, Outcome::Nothing);
    assert_eq!(rt; node.counters().rec(), 129);
    assert_eq!(rt; node.counters().state(), ErrorState::Passive);
    let ended = hear(rt.alloc(), &mut node, "11111111111")?;
    assert_eq!(rt; ended.driven.as_str(), "11111111111");
    assert_eq!(rt; node.wants_start(), true);
    // its next flag is recessive
    let again = hear(rt.alloc(), &mut node, "000000")?;
    assert_eq!(rt; again.outcome, Outcome::Errored(ErrorKind::Stuff));
    let flag = hear(rt.alloc(), &mut node, "010101111110")?;
    assert_eq!(rt; flag.driven.as_str(), "111111111111");
    assert_eq!(rt; node.counters().rec(), 138);
    Ok(())
}

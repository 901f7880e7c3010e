//! Nodes that are left alone at the ACK slot of a frame that they acknowledge.

use can_node::{KnownCounts, Node, Outcome};

/// A data frame of identifier 0 without bytes up to its ACK slot.
const BEFORE_SLOT: &str = "00000100000100000100000100000100000100001";

/// The node samples a level, if it has a bit left.
fn sample(node: &mut Node, level: bool) -> Option<Outcome> {
    if node.bit() == u64::MAX {
        return None;
    }
    Some(node.sample(level))
}

/// A node on an idle bus that has counted one error of a receiver: it sampled a sixth dominant level in a row, and sent
/// its flag.
fn erring() -> Node {
    let mut node = Node::new(0);
    for _ in 0..11u8 {
        sample(&mut node, true);
    }
    for _ in 0..12u8 {
        sample(&mut node, false);
    }
    for _ in 0..11u8 {
        sample(&mut node, true);
    }
    node
}

#[test]
fn those_that_are_left_alone_count_what_they_acknowledge(rt: HostRuntime) {
    let mut alone = erring();
    let mut resting = erring();
    // a receiver that detects an error adds one to its receive error count
    assert_eq!(rt; resting.counters().rec(), 1);
    let mut shared_receiver = resting.shared_receiver();
    for byte in BEFORE_SLOT.as_bytes() {
        let level = *byte == b'1';
        assert!(rt; !shared_receiver.acknowledge(level));
        assert!(rt; shared_receiver.follow(alone.bit(), level, KnownCounts::Any));
        assert_eq!(rt; sample(&mut alone, level), Some(Outcome::Nothing));
    }
    // that it received a frame takes one off, so the shared receiver does not follow the slot for whatever counts there
    // are
    let slot = alone.bit();
    assert!(rt; !shared_receiver.follow(slot, false, KnownCounts::Any));
    // and its own dominant level is missing in a slot that is recessive
    assert!(rt; !shared_receiver.acknowledge(true));
    assert!(rt; shared_receiver.acknowledge(false));
    resting.receive();
    assert_eq!(rt; sample(&mut alone, false), Some(Outcome::Nothing));
    resting.materialize(&shared_receiver, alone.bit());
    assert!(rt; alone.matches(&resting.shared_receiver()));
    assert_eq!(rt; (alone.counters().rec(), resting.counters().rec()), (0, 0));
    assert!(rt; !shared_receiver.acknowledge(false));
}

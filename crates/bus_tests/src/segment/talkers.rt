//! Worked cases of talkers on a line, with its faults.

use super::{
    Port, completed, data_frame, errored, make_all, make_bits, make_uneventful_bits, plan_of,
    record_of, segment_of, sender_and_listener, started, talker, took,
};
use can_frame::{Frame, Id};
use can_node::{ErrorKind, ErrorState};
use can_segment::{Event, EventKind, LineFault, NodeFault, SegFault};
use std::test::Fail;

#[test]
fn a_frame_goes_from_one_node_to_another(rt: HostRuntime) -> Result<(), Fail> {
    let frame = data_frame()?;
    let record = record_of(rt.alloc(), sender_and_listener(rt.alloc(), 64, 1)?)?;
    assert!(rt;
        record.events.as_slice()
            == [
                started(11, 0, frame),
                took(59, 1, 11, frame),
                completed(60, 0, 11, frame),
            ]
            .as_slice()
    );
    // eleven recessive bits, the frame with its ACK slot dominant, and the intermission
    let wire = "00000100000100000100000100000100000100001011111111";
    assert_eq!(rt; record.levels.len(), 64);
    for place in 0..record.levels.len() {
        let want = if place < 11 || place >= 61 {
            true
        } else {
            wire.as_bytes().get(place - 11) == Some(&b'1')
        };
        assert_eq!(rt; record.levels.get(place), Some(want));
    }
    assert_eq!(rt; record.counters.len(), 2);
    for counters in record.counters.iter() {
        assert_eq!(rt;
            (counters.tec(), counters.rec(), counters.state()),
            (0, 0, ErrorState::Active)
        );
    }
    Ok(())
}

#[test]
fn uneventful_bits_are_simulated_at_once(rt: HostRuntime) -> Result<(), Fail> {
    let frame = data_frame()?;
    match segment_of(rt.alloc(), sender_and_listener(rt.alloc(), 64, 1)?) {
        Ok(mut segment) => {
            let mut none: [Port; 0] = [];
            make_bits(&(), &mut segment, &mut none, 1)?;
            make_uneventful_bits(&(), &mut segment, &none, 7);
            assert!(rt; segment.record().levels.len() <= 7);
            let calls = make_all(&(), &mut segment, &mut none, 64)?;
            // eleven bits of rest and most of a frame that one node sends are such
            assert!(rt; calls < 40);
            assert_eq!(rt; segment.record().levels.len(), 64);
            assert!(rt;
                segment.record().events.as_slice()
                    == [
                        started(11, 0, frame),
                        took(59, 1, 11, frame),
                        completed(60, 0, 11, frame),
                    ]
                    .as_slice()
            );
            Ok(())
        }
        Err(fail) => Err(fail),
    }
}

#[test]
fn in_one_bit_lines_stand_in_the_order_of_nodes(rt: HostRuntime) -> Result<(), Fail> {
    let frame = data_frame()?;
    let mut plan = sender_and_listener(rt.alloc(), 131, 1)?;
    plan.node_faults.push(NodeFault {
        node: 0,
        bit: 59,
        until: 60,
    })?;
    let record = record_of(rt.alloc(), plan)?;
    assert!(rt;
        record.events.as_slice()
            == [
                started(11, 0, frame),
                errored(59, 0, ErrorKind::Bit),
                took(59, 1, 11, frame),
                started(78, 0, frame),
                took(126, 1, 78, frame),
                completed(127, 0, 78, frame),
            ]
            .as_slice()
    );
    let mut counts = record
        .counters
        .iter()
        .map(|counters| (counters.tec(), counters.rec()));
    assert!(rt; counts.next() == Some((7, 0)));
    Ok(())
}

#[test]
fn no_bit_comes_behind_the_last(rt: HostRuntime) -> Result<(), Fail> {
    let mut plan = plan_of(rt.alloc(), 3);
    plan.talkers.push(talker(rt.alloc(), 0, data_frame()?, 1)?)?;
    match segment_of(rt.alloc(), plan) {
        Ok(mut segment) => {
            let mut none: [Port; 0] = [];
            make_bits(&(), &mut segment, &mut none, 3)?;
            assert_eq!(rt; segment.record().levels.len(), 3);
            assert_eq!(rt;
                make_bits(&(), &mut segment, &mut none, 1),
                Err(SegFault::Ended)
            );
            assert_eq!(rt; segment.record().levels.len(), 3);
            assert!(rt; segment.record().events.is_empty());
            Ok(())
        }
        Err(fail) => Err(fail),
    }
}

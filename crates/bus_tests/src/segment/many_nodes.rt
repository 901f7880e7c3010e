//! Segments of 64 nodes, the most that one has.

use super::{Port, data_frame, make_all, plan_of, record_of, segment_of, started, talker, took};
use can_frame::{Frame, Id};
use can_segment::EventKind;
use std::test::Fail;

#[test]
fn all_of_64_nodes_receive_a_frame(rt: HostRuntime) -> Result<(), Fail> {
    let frame = data_frame()?;
    let mut plan = plan_of(rt.alloc(), 64);
    for place in 0..64u32 {
        let times = if place == 0 { 1 } else { 0 };
        plan.talkers.push(talker(rt.alloc(), 0, frame, times)?)?;
    }
    match segment_of(rt.alloc(), plan) {
        Ok(mut segment) => {
            let mut none: [Port; 0] = [];
            make_all(&(), &mut segment, &mut none, 64)?;
            let events = segment.record().events.as_slice();
            // one starts, 63 receive, and the one completes
            assert_eq!(rt; events.len(), 65);
            assert_eq!(rt; events.first(), Some(&started(11, 0, frame)));
            for node in 1..64u16 {
                assert_eq!(rt;
                    events.get(usize::from(node)),
                    Some(&took(59, node, 11, frame))
                );
            }
            Ok(())
        }
        Err(fail) => Err(fail),
    }
}

// node k sends the identifier 63 - k, so the last node wins first
#[test]
fn of_64_contenders_the_lowest_identifier_goes_first(rt: HostRuntime) -> Result<(), Fail> {
    let mut plan = plan_of(rt.alloc(), 5_000);
    for place in 0..64u16 {
        let frame = Frame::with_bytes(Id::standard(63 - place)?, &[])?;
        plan.talkers.push(talker(rt.alloc(), 0, frame, 1)?)?;
    }
    let record = record_of(rt.alloc(), plan)?;
    let mut winner = 64u16;
    for event in record.events.iter() {
        if let EventKind::Completed { .. } = event.kind() {
            winner = winner.saturating_sub(1);
            assert_eq!(rt; event.node(), u32::from(winner));
        }
    }
    assert_eq!(rt; winner, 0);
    Ok(())
}

//! Frames that are due at a bit, and faults that stand at a range of bits.

use super::{
    completed, data_frame, plan_of, record_of, sender_and_listener, started, talker, took,
};
use can_frame::Frame;
use can_segment::{DueFrame, Event, LineFault, NodeFault, SegmentPlan, Talker};
use std::alloc::{AllocError, Global};
use std::test::Fail;

/// A node that sends this frame at each of these due bits, and one that listens.
fn due_at(alloc: Global, frame: Frame, bits: u64, due: &[u64]) -> Result<SegmentPlan, AllocError> {
    let mut queue = Vec::new(alloc);
    for due in due {
        queue.push(DueFrame { due: *due, frame })?;
    }
    let mut plan = plan_of(alloc, bits);
    plan.talkers.push(Talker { on: 0, queue })?;
    plan.talkers.push(talker(alloc, 0, frame, 0)?)?;
    Ok(plan)
}

/// The first event of a run of one frame with these faults of the line.
fn first_with(alloc: Global, faults: &[LineFault]) -> Result<Option<Event>, Fail> {
    let mut plan = sender_and_listener(alloc, 100, 1)?;
    for fault in faults {
        plan.line_faults.push(*fault)?;
    }
    let record = record_of(alloc, plan)?;
    Ok(record.events.first().copied())
}

#[test]
fn a_frame_starts_when_it_is_due_and_the_bus_is_free(rt: HostRuntime) -> Result<(), Fail> {
    let frame = data_frame()?;
    // on an idle bus; in the intermission; at the first bit after it; on an idle bus again
    let record = record_of(
        rt.alloc(),
        due_at(rt.alloc(), frame, 260, &[20, 71, 126, 200])?,
    )?;
    assert!(rt;
        record.events.as_slice()
            == [
                started(20, 0, frame),
                took(68, 1, 20, frame),
                completed(69, 0, 20, frame),
                started(73, 0, frame),
                took(121, 1, 73, frame),
                completed(122, 0, 73, frame),
                started(126, 0, frame),
                took(174, 1, 126, frame),
                completed(175, 0, 126, frame),
                started(200, 0, frame),
                took(248, 1, 200, frame),
                completed(249, 0, 200, frame),
            ]
            .as_slice()
    );
    Ok(())
}

#[test]
fn frames_that_are_due_before_the_node_is_ready_wait(rt: HostRuntime) -> Result<(), Fail> {
    let frame = data_frame()?;
    // the node is ready after eleven recessive bits; the second frame is due during the first one
    let record = record_of(rt.alloc(), due_at(rt.alloc(), frame, 130, &[3, 40])?)?;
    assert!(rt;
        record.events.as_slice()
            == [
                started(11, 0, frame),
                took(59, 1, 11, frame),
                completed(60, 0, 11, frame),
                started(64, 0, frame),
                took(112, 1, 64, frame),
                completed(113, 0, 64, frame),
            ]
            .as_slice()
    );
    Ok(())
}

#[test]
fn a_fault_stands_up_to_its_last_bit(rt: HostRuntime) -> Result<(), Fail> {
    let frame = data_frame()?;
    // the nodes are ready eleven recessive bits after bit 9
    let fault = LineFault {
        bit: 5,
        until: 10,
        level: false,
    };
    assert!(rt; first_with(rt.alloc(), &[fault])? == Some(started(21, 0, frame)));
    // so is the sender where it alone samples the opposite
    let mut plan = sender_and_listener(rt.alloc(), 100, 1)?;
    plan.node_faults.push(NodeFault {
        node: 0,
        bit: 5,
        until: 10,
    })?;
    let record = record_of(rt.alloc(), plan)?;
    assert!(rt; record.events.first() == Some(&started(21, 0, frame)));
    Ok(())
}

#[test]
fn of_two_faults_of_the_line_the_later_in_the_list_counts(rt: HostRuntime) -> Result<(), Fail> {
    let frame = data_frame()?;
    let dominant = LineFault {
        bit: 3,
        until: 12,
        level: false,
    };
    let recessive = LineFault {
        bit: 5,
        until: 12,
        level: true,
    };
    // dominant at bits 3 and 4 alone
    let first = first_with(rt.alloc(), &[dominant, recessive])?;
    assert!(rt; first == Some(started(16, 0, frame)));
    // dominant up to bit 11
    let first = first_with(rt.alloc(), &[recessive, dominant])?;
    assert!(rt; first == Some(started(23, 0, frame)));
    Ok(())
}

//! Worked records of talkers: arbitration between formats, an error at the last bit of EOF, and a talker that nobody
//! acknowledges.

use super::{
    completed, data_frame, errored, plan_of, record_of, sender_and_listener, started, talker, took,
};
use can_frame::{Frame, Id};
use can_node::{ErrorKind, ErrorState};
use can_segment::{Event, EventKind, NodeFault, Record};
use std::test::Fail;

/// Whether the counters at the end are these, node by node.
fn counts_are(record: &Record, counts: &[(u16, u8, ErrorState)]) -> bool {
    let all = record.counters.iter().map(|counters| (
        counters.tec(),
        counters.rec(),
        counters.state(),
    ));
    all.eq(counts.iter().copied())
}

/// A standard remote frame and an extended data frame of the identifier 0 begin at once. The standard one wins at the
/// IDE bit, and the extended one is sent after it.
#[test]
fn a_standard_frame_wins_over_an_extended_one(rt: HostRuntime) -> Result<(), Fail> {
    let alloc = rt.alloc();
    let standard = Frame::remote(Id::standard(0)?, 0)?;
    let extended = Frame::with_bytes(Id::extended(0)?, &[])?;
    let mut plan = plan_of(alloc, 132);
    plan.talkers.push(talker(alloc, 0, standard, 1)?)?;
    plan.talkers.push(talker(alloc, 0, extended, 1)?)?;
    let record = record_of(alloc, plan)?;
    assert!(rt;
        record.events.as_slice()
            == [
                started(11, 0, standard),
                started(11, 1, extended),
                Event::new(26, 1, EventKind::Lost { start: 11 }),
                took(56, 1, 11, standard),
                completed(57, 0, 11, standard),
                started(61, 1, extended),
                took(130, 0, 61, extended),
                completed(131, 1, 61, extended),
            ]
            .as_slice()
    );
    let none = (0, 0, ErrorState::Active);
    assert!(rt; counts_are(&record, &[none, none]));
    Ok(())
}

/// The sender's sample is inverted at the last bit of EOF. The receiver has taken the frame, and takes it once more.
#[test]
fn an_error_at_the_last_bit_doubles_a_frame(rt: HostRuntime) -> Result<(), Fail> {
    let frame = data_frame()?;
    let mut plan = sender_and_listener(rt.alloc(), 132, 1)?;
    plan.node_faults.push(NodeFault {
        node: 0,
        bit: 60,
        until: 61,
    })?;
    let record = record_of(rt.alloc(), plan)?;
    assert!(rt;
        record.events.as_slice()
            == [
                started(11, 0, frame),
                took(59, 1, 11, frame),
                errored(60, 0, ErrorKind::Bit),
                started(79, 0, frame),
                took(127, 1, 79, frame),
                completed(128, 0, 79, frame),
            ]
            .as_slice()
    );
    assert!(rt;
        counts_are(
            &record,
            &[(7, 0, ErrorState::Active), (0, 0, ErrorState::Active)]
        )
    );
    Ok(())
}

/// Sixteen attempts bring the TEC to 128. From then on the talker is error passive, its ACK errors count no more, and
/// it waits eight bits more before each attempt.
#[test]
fn a_talker_alone_never_goes_off(rt: HostRuntime) -> Result<(), Fail> {
    let alloc = rt.alloc();
    let frame = data_frame()?;
    let mut plan = plan_of(alloc, 2_000);
    plan.talkers.push(talker(alloc, 0, frame, 1)?)?;
    let record = record_of(alloc, plan)?;
    let mut events = record.events.iter().copied();
    for k in 0..32u64 {
        let start = if k < 16 {
            11 + 59 * k
        } else {
            963 + 67 * (k - 16)
        };
        assert!(rt; events.next() == Some(started(start, 0, frame)));
        if k < 31 {
            assert!(rt; events.next() == Some(errored(start + 41, 0, ErrorKind::Ack)));
        }
    }
    assert!(rt; events.next().is_none());
    assert!(rt; counts_are(&record, &[(128, 0, ErrorState::Passive)]));
    Ok(())
}

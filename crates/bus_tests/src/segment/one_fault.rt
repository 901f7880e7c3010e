//! One wrong level at each bit of a transmission: what the receiver may get of it, by a plain loop over the record.

use super::{record_of, sender_and_listener};
use can_frame::Frame;
use can_segment::{Event, EventKind, LineFault, NodeFault, Record, SegmentPlan};
use std::alloc::Global;
use std::process::Abort;
use std::test::Fail;

const SENDER: u32 = 0;

const RECEIVER: u32 = 1;

/// Where the level is turned: in what the sender samples, in what the receiver samples, or on the line.
#[derive(Clone, Copy, Debug, PartialEq, Eq)]
enum Place {
    Sender,
    Receiver,
    Line,
}

#[derive(Clone, Copy, Debug)]
struct Turned {
    place: Place,
    bit: u64,
}

impl Turned {
    /// The receiver is falsified at one of the bits behind this one, up to that one.
    fn touches_receiver(&self, behind: u64, last: u64) -> bool {
        self.place != Place::Sender && self.bit > behind && self.bit <= last
    }

    /// A node is falsified from this bit to the one before that.
    fn touches_any(&self, first: u64, end: u64) -> bool {
        self.bit >= first && self.bit < end
    }
}

/// A sender with one frame and a listener on a line with this fault; without a fault, how the line goes.
fn record_with(alloc: Global, turned: Option<Turned>, level: bool) -> Result<Record, Fail> {
    let mut plan: SegmentPlan = sender_and_listener(alloc, 200, 1)?;
    if let Some(Turned { place, bit }) = turned {
        let until = bit.saturating_add(1);
        match place {
            Place::Sender => plan.node_faults.push(NodeFault {
                node: SENDER,
                bit,
                until,
            })?,
            Place::Receiver => plan.node_faults.push(NodeFault {
                node: RECEIVER,
                bit,
                until,
            })?,
            Place::Line => plan.line_faults.push(LineFault { bit, until, level })?,
        }
    }
    record_of(alloc, plan)
}

/// The receiver took this frame of this start at this bit.
fn is_taken(events: &[Event], bit: u64, start: u64, frame: Frame) -> bool {
    let took = EventKind::Took { start, frame };
    events.iter().any(|event| event.node() == RECEIVER
        && event.bit() == bit
        && event.kind() == took)
}

/// The sender, which is error active throughout, met an error: an attempt that began at the first of these bits ended
/// at the other. A receiver that is not falsified behind it took nothing of the attempt any more.
fn look_behind_an_error(rt: &impl Abort, events: &[Event], turned: Turned, first: u64, end: u64) {
    for event in events {
        if event.node() == RECEIVER && event.bit() > end {
            let reported = event.kind();
            if let EventKind::Took { start, .. } = &reported {
                // the start is the first bit that the sender drives, or the bit before, where it joined
                if *start == first || start.saturating_add(1) == first {
                    assert!(rt; turned.touches_receiver(end, event.bit()), "{turned:?}");
                }
            }
        }
    }
}

/// What the record of one frame with one fault must show, whatever the fault.
fn look_through(rt: &impl Abort, events: &[Event], turned: Turned) -> u64 {
    let mut begun: Option<u64> = None;
    let mut sent: u64 = 0;
    for event in events.iter().filter(|event| event.node() == SENDER) {
        let reported = event.kind();
        match &reported {
            EventKind::Started { .. } => {
                // what was completed is not begun again
                assert!(rt; sent == 0, "{turned:?}");
                begun = Some(event.bit());
            }
            EventKind::Error(_) => {
                if let Some(first) = begun {
                    look_behind_an_error(rt, events, turned, first, event.bit());
                }
                begun = None;
            }
            EventKind::Completed { start, frame, .. } => {
                let taken = is_taken(events, event.bit().saturating_sub(1), *start, *frame);
                assert!(rt;
                    taken || turned.touches_any(*start, event.bit()),
                    "{turned:?}"
                );
                begun = None;
                sent = sent.saturating_add(1);
            }
            _ => {}
        }
    }
    sent
}

#[test]
fn one_wrong_level_makes_no_copy_that_the_standard_forbids(rt: HostRuntime) -> Result<(), Fail> {
    let alloc = rt.alloc();
    let calm = record_with(alloc, None, true)?;
    for bit in 11..91u64 {
        let index = usize::try_from(bit)?;
        for place in [Place::Sender, Place::Receiver, Place::Line] {
            let level = calm.levels.get(index) == Some(false);
            let turned = Turned { place, bit };
            let record = record_with(alloc, Some(turned), level)?;
            assert_eq!(rt; record.levels.len(), 200);
            // there is time for a second attempt, which succeeds
            assert_eq!(rt;
                look_through(&rt, record.events.as_slice(), turned),
                1,
                "{turned:?}"
            );
        }
    }
    Ok(())
}

//! A segment: nodes on one line, bit by bit, and what they did.
#![tactic(auto)]

mod active;
mod all_nodes;
mod counts_shown;
mod deferred;
mod grow;
mod idle_burst;
mod levels;
mod make_bit;
mod opening;
mod receiver_choice;
mod record;
mod regroup;
mod seg_fault;
mod segment;
mod shared_ack;
mod shared_sample;
mod single_bit;
mod step_outcome;
mod transmit_burst;

pub use crate::levels::Levels;
pub use crate::record::Record;
pub use crate::seg_fault::SegFault;
pub use crate::segment::Segment;
pub use can_station::{
    Controller, DueFrame, Event, EventKind, Label, LineFault, NodeFault, RxSink, SegmentPlan,
    Talker,
};

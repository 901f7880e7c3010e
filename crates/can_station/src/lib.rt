//! A node of a segment, bit by bit: what it sends, what its port learns, and what is reported of it; and what a segment
//! is made of.
#![tactic(auto)]

mod action;
mod current_faults;
mod due_frame;
mod event;
mod fault_window;
mod faults;
mod going;
mod member;
mod members;
mod place_set;
mod plan;
mod port;
mod resume;
mod runs;
mod rx_sink;
mod station;
mod tag;
mod tell;
mod transmission;

pub use crate::action::Action;
pub use crate::current_faults::CurrentFaults;
pub use crate::due_frame::DueFrame;
pub use crate::event::{Event, EventKind, Label};
pub use crate::going::{all_go_on, all_stay_out, go_ahead_by, go_on, go_on_by};
pub use crate::member::Member;
pub use crate::members::{
    driven_by_all, sample_controllers, sample_nodes, start_controllers, start_talkers,
};
pub use crate::place_set::PlaceSet;
pub use crate::plan::{Controller, LineFault, NodeFault, SegmentPlan, Talker};
pub use crate::resume::{
    clear_actions, receive_all, resume_each, resume_each_due, resume_each_faulted, share_all,
};
pub use crate::rx_sink::RxSink;
pub use crate::station::Station;
pub use crate::tell::{tell_rests, tell_starts};
pub use crate::transmission::Transmission;

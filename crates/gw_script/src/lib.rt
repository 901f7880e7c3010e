//! What the program reads and prints: scripts, lists of mailbox events, and the text of reports.
#![tactic(auto)]

mod digits;
mod event_lines;
mod event_list;
mod event_text;
mod frame_text;
mod print_fault;
mod printer;
mod repeats;
mod report;
mod report_names;
mod report_text;
mod report_writer;
mod route_report;
mod segment_lines;
mod standing;

pub use crate::event_list::{EventList, read_core};
pub use crate::frame_text::push_frame;
pub use crate::print_fault::PrintFault;
pub use crate::printer::{print, print_to};
pub use crate::report::Report;
pub use crate::route_report::RouteReport;
pub use crate::standing::names_stand;
pub use can_frame::Memory;
pub use gw_config::{
    Controller, Message, NodePlace, PlannedAbort, PlannedFault, Route, Script, Segment, Talker,
    read,
};
pub use gw_fields::{LIMIT, ScriptFault};

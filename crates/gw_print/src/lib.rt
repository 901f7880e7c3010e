//! The report on an event list, as a text, beside the reports on runs that gw_script prints.
#![tactic(auto)]

mod core_report;

pub use crate::core_report::report_on_events;

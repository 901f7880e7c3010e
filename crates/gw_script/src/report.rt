//! What a run of a script did.

use crate::route_report::RouteReport;
use can_segment::Record;

/// What the segments and the routes of a script did in a run, each list in the order of the script.
#[derive(Drop)]
pub struct Report {
    /// What each segment did.
    pub segments: Vec<Record>,
    /// What became of the frames of each route.
    pub routes: Vec<RouteReport>,
}

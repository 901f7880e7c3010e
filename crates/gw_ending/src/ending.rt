//! The report on a run behind its last bit.

ghost use Rattle.std.specs.Prelude.{◌≡◌, ℕ, IfOk};
ghost use Rattle.gw_config.specs.SoundScripts.{IsSound};
ghost use Rattle.gw_script.specs.NamedPlaces.{Names};
ghost use Rattle.gw_ending.specs.Finals.{IsOver, WaitAtMost, turns_made, turns_reported};
ghost use Rattle.gw_ending.specs.Reports.{RunsSegments, RunsRoutes};

use crate::closed::ClosedSite;
use crate::closing::{end_lanes, records_of};
use can_frame::Memory;
use gw_opening::Lane;
use gw_script::{Report, Script};
use std::alloc::Global;
use std::sync::Wait;

/// The report on a run of a script, given its segments with their controllers, whose mailboxes are closed, and its
/// routes. `Memory` where a growth was refused: then there is no report.
pub fn end_run<R: Wait>(
    rt: &R,
    alloc: Global,
    script: &Script,
    sites: Vec<ClosedSite>,
    lanes: Vec<Lane>,
) -> Result<Report, Memory>
    requires sound { IsSound script.now }
    requires over { IsOver script.now sites.items lanes.items }
    requires few { WaitAtMost 12 sites.items }
    ensures segments { IfOk result (RunsSegments script.now) }
    ensures routes { IfOk result (λ report. (room : ℕ) → WaitAtMost room sites.items
        → RunsRoutes room script.now report) }
    ensures names { IfOk result (Names script.now) }
    ensures turns { IfOk result (λ report. turns_reported report.routes.items ≡ turns_made lanes.items) }
{
    let mut sites = sites;
    let routes = end_lanes(rt, alloc, script, sites.as_mut_slice(), lanes)?;
    let segments = records_of(alloc, sites)?;
    Ok(Report { segments, routes })
}

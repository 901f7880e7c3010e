//! An abort that a script plans.

ghost use Rattle.std.specs.Prelude.{IfOk, length, ◌≤◌};
ghost use Rattle.bx_core.specs.Lists.{Each};
ghost use Rattle.serde_json.specs.View.{view};
ghost use Rattle.gw_fields.specs.Faults.{ReadsUnlessMemory};
ghost use Rattle.gw_config.specs.PlannedAborts.{planned_aborts_of};
ghost use Rattle.gw_config.specs.SoundScripts.{IsAbortIn};

use crate::object::element_of;
use crate::route::Route;
use crate::version::Version;
use gw_fields::{ReadsElement, ScriptFault, optional_list, place_named, read_each, whole};
use serde_json::Value;
use std::alloc::Global;

/// The greatest number of aborts of a script.
const MOST_ABORTS: usize = 1_000;

/// The fields that an abort of version 3 may have.
const FIELDS: [&'static str; 3] = ["route", "number", "turn"];

/// The request of a route, by the route's place in the script, that is to be aborted at the first turn,
/// counted from 1, that is not below `turn`. The number is 1 to 16,777,215, the turn 1 to 1,000,000.
#[derive(Clone, Copy, Debug, PartialEq, Eq)]
pub struct PlannedAbort {
    pub route: usize,
    pub number: u32,
    pub turn: u32,
}

/// Reads the aborts of requests of these routes.
#[derive(Drop)]
struct AbortReader<'a> {
    version: Version,
    routes: &'a [Route],
}

impl<'a> ReadsElement for AbortReader<'a> {
    ghost use Rattle.gw_config.specs.PlannedAborts.{planned_abort_of};
    ghost use Rattle.gw_config.specs.SoundScripts.{IsAbortIn};

    type Element = PlannedAbort;

    ghost reading = { λ s front. planned_abort_of s.version s.routes.now };

    ghost keeps = { λ s. IsAbortIn s.routes.now };

    /// Returns the abort that an element describes.
    #[tactic(auto, unfolding(crate::specs::PlannedAborts::planned_abort_of))]
    fn read(
        &self,
        _alloc: Global,
        value: &Value,
        _front: &[PlannedAbort],
    ) -> Result<PlannedAbort, ScriptFault> {
        let from = element_of(self.version, "aborts", &FIELDS, value)?;
        let route = place_named(from, "route", self.routes)?;
        let number = whole(from, "number", 1, 16_777_215)? as u32;
        let turn = whole(from, "turn", 1, 1_000_000)? as u32;
        Ok(PlannedAbort {
            route,
            number,
            turn,
        })
    }
}

/// Returns the aborts of a script, at most 1,000; none where the field `aborts` is absent.
///
/// `Kind` or `TooMany` of `aborts`, then the fault of the first element that is refused. `Memory` where an allocation
/// failed.
#[tactic(auto, unfolding(crate::specs::PlannedAborts::planned_aborts_of), using(crate::proofs::Lists::each_from_all))]
pub fn planned_aborts_of(
    alloc: Global,
    from: &Value,
    version: Version,
    routes: &[Route],
) -> Result<Vec<PlannedAbort>, ScriptFault>
    ensures value { ReadsUnlessMemory (λ v. v.items) result (planned_aborts_of version routes.now (view from.now)) }
    ensures range { IfOk result (λ v. Each (IsAbortIn routes.now) v.items) }
    ensures few { IfOk result (λ v. length v.items ≤ 1000) }
{
    let items = optional_list(from, "aborts", MOST_ABORTS)?;
    read_each(alloc, items, &AbortReader { version, routes })
}

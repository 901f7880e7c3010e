//! A fault that a script plans.

ghost use Rattle.std.specs.Prelude.{◌≡◌, ◌≤◌, ◌<◌, IfOk, length};
ghost use Rattle.bx_core.specs.Lists.{Each};
ghost use Rattle.serde_json.specs.View.{view};
ghost use Rattle.gw_fields.specs.Faults.{Reads, ReadsUnlessMemory};
ghost use Rattle.gw_config.specs.PlannedFaults.{listed_until, until_of, node_fault, line_fault, planned_faults_of};
ghost use Rattle.gw_config.specs.SoundScripts.{LastsIn, IsFaultIn};

use crate::controller::Controller;
use crate::format::Format;
use crate::node_place::{NodePlace, find_node};
use crate::object::element_of;
use crate::segment::Segment;
use crate::version::Version;
use gw_fields::{
    ReadsElement, ScriptFault, optional_duration, optional_list, place_named, read_each, text_of,
    whole,
};
use serde_json::Value;
use std::alloc::Global;

/// The greatest number of faults of a script.
const MOST_FAULTS: usize = 10_000;

/// The fields that a fault of version 3 may have.
const FIELDS: [&'static str; 5] = ["node", "segment", "bit", "until", "level"];

/// A fault at each bit of a run from `bit` on and before `until`, at one or more bits. `until` is at most the script's
/// bits.
#[derive(Clone, Copy, Debug, PartialEq, Eq)]
pub enum PlannedFault {
    /// The samples of one node are inverted.
    AtNode {
        node: NodePlace,
        bit: u32,
        until: u32,
    },
    /// The level of a segment, by its place in the script, is this one: `true` is recessive.
    OnLine {
        segment: usize,
        bit: u32,
        until: u32,
        level: bool,
    },
}

/// Returns the field `until`, the bit before which a fault ends that begins at `bit`; `bit + 1` where the field is
/// absent.
///
/// `Kind("until")` where it is not a duration, `Range("until")` where it is not above `bit`, or above the run's number
/// of bits.
#[tactic(auto, unfolding(crate::specs::PlannedFaults::listed_until))]
fn listed_until(format: &Format, bit: u32, from: &Value) -> Result<u32, ScriptFault>
    requires { bit < format.now.bits }
    ensures value { Reads (λ n. n) result (listed_until format.now bit (view from.now)) }
    ensures range { IfOk result (LastsIn format.now.bits bit) }
{
    let bits = format.bits;
    let low = u64::from(bit) + 1;
    match optional_duration(from, "until", low, u64::from(bits), format.rate)? {
        Some(until) => Ok(until as u32),
        None => Ok(bit + 1),
    }
}

/// Returns the bit before which a fault ends that begins at `bit`: `bit + 1` in versions 1 and 2, the field `until` in
/// version 3.
///
/// The faults of `listed_until` in version 3.
fn until_of(format: &Format, bit: u32, from: &Value) -> Result<u32, ScriptFault>
    requires { bit < format.now.bits }
    ensures value { Reads (λ n. n) result (until_of format.now.version format.now bit (view from.now)) }
    ensures range { IfOk result (LastsIn format.now.bits bit) }
{
    let _bits = format.bits;
    match format.version {
        Version::One | Version::Two => Ok(bit + 1),
        Version::Three => listed_until(format, bit, from),
    }
}

/// Returns the fault at the node that the field `node` names.
///
/// `Kind("node")` where `node` is not a text, `UnknownName("node")` where no node has this name; then the faults of
/// `bit`, then those of `until`.
#[tactic(auto, unfolding(crate::specs::PlannedFaults::node_fault))]
fn node_fault(
    value: &Value,
    from: &Value,
    format: &Format,
    segments: &[Segment],
    controllers: &[Controller],
) -> Result<PlannedFault, ScriptFault>
    requires { 1 ≤ format.now.bits }
    ensures value { Reads (λ f. f) result
        (node_fault format.now segments.now controllers.now (view value.now) (view from.now)) }
    ensures range { IfOk result (IsFaultIn format.now.bits segments.now) }
{
    let name = text_of(value, "node")?;
    let node = match find_node(segments, controllers, name) {
        Some(node) => node,
        None => return Err(ScriptFault::UnknownName("node")),
    };
    let bit = format.bit_of(from, "bit")?;
    let until = until_of(format, bit, from)?;
    Ok(PlannedFault::AtNode { node, bit, until })
}

/// Returns the fault on the line of the segment that the field `segment` names.
///
/// The first fault of `segment`, `bit`, `until` and `level`.
#[tactic(auto, unfolding(crate::specs::PlannedFaults::line_fault))]
fn line_fault(
    from: &Value,
    format: &Format,
    segments: &[Segment],
) -> Result<PlannedFault, ScriptFault>
    requires { 1 ≤ format.now.bits }
    ensures value { Reads (λ f. f) result (line_fault format.now segments.now (view from.now)) }
    ensures range { IfOk result (IsFaultIn format.now.bits segments.now) }
{
    let segment = place_named(from, "segment", segments)?;
    let bit = format.bit_of(from, "bit")?;
    let until = until_of(format, bit, from)?;
    let level = whole(from, "level", 0, 1)?;
    Ok(PlannedFault::OnLine {
        segment,
        bit,
        until,
        level: level == 1,
    })
}

/// Reads the faults on these segments and at their nodes.
#[derive(Drop)]
struct FaultReader<'a> {
    format: Format,
    segments: &'a [Segment],
    controllers: &'a [Controller],
    ghost some: { 1 ≤ format.bits },
}

impl<'a> ReadsElement for FaultReader<'a> {
    ghost use Rattle.gw_config.specs.PlannedFaults.{planned_fault_of};
    ghost use Rattle.gw_config.specs.SoundScripts.{IsFaultIn};

    type Element = PlannedFault;

    ghost reading = { λ s front. planned_fault_of s.format s.segments.now s.controllers.now };

    ghost keeps = { λ s. IsFaultIn s.format.bits s.segments.now };

    /// Returns the fault that an element describes: at a node where the field `node` is given, else on the line.
    #[tactic(auto, unfolding(crate::specs::PlannedFaults::planned_fault_of))]
    fn read(
        &self,
        _alloc: Global,
        value: &Value,
        _front: &[PlannedFault],
    ) -> Result<PlannedFault, ScriptFault> {
        let format = &self.format;
        let from = element_of(format.version, "faults", &FIELDS, value)?;
        match from.get("node") {
            Some(value) => node_fault(value, from, format, self.segments, self.controllers),
            None => line_fault(from, format, self.segments),
        }
    }
}

/// Returns the faults of a script, at most 10,000; none where the field `faults` is absent.
///
/// `Kind` or `TooMany` of `faults`, then the fault of the first element that is refused. `Memory` where an allocation
/// failed.
#[tactic(auto, unfolding(crate::specs::PlannedFaults::planned_faults_of), using(crate::proofs::Lists::each_from_all))]
pub fn planned_faults_of(
    alloc: Global,
    from: &Value,
    format: Format,
    segments: &[Segment],
    controllers: &[Controller],
) -> Result<Vec<PlannedFault>, ScriptFault>
    requires { 1 ≤ format.bits }
    ensures value { ReadsUnlessMemory (λ v. v.items) result
        (planned_faults_of format segments.now controllers.now (view from.now)) }
    ensures range { IfOk result (λ v. Each (IsFaultIn format.bits segments.now) v.items) }
    ensures few { IfOk result (λ v. length v.items ≤ 10000) }
{
    let items = optional_list(from, "faults", MOST_FAULTS)?;
    let reader = FaultReader {
        format,
        segments,
        controllers,
    };
    read_each(alloc, items, &reader)
}

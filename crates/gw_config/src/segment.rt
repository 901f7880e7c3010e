//! A segment of a script.

ghost use Rattle.std.specs.Prelude.{◌≡◌, ◌≤◌, ◌++◌, ◌-◌, map, IfOk, length};
ghost use Rattle.bx_core.specs.Lists.{Each};
ghost use Rattle.serde_json.specs.View.{view};
ghost use Rattle.gw_fields.specs.Faults.{Reads, ReadsUnlessMemory};
ghost use Rattle.gw_fields.specs.Names.{is_among, new_name};
ghost use Rattle.gw_config.specs.Segments.{all_talker_names, instances_left, segments_of};
ghost use Rattle.gw_config.specs.SoundScripts.{IsSegmentIn};

use crate::format::Format;
use crate::object::element_of;
use crate::talker::{Talker, left_after, talkers_of};
use gw_fields::{
    Named, ReadsElement, ScriptFault, filled_list, formed_name, is_among, new_name, owned,
    read_each, some_list,
};
use serde_json::Value;
use std::alloc::Global;
use std::marker::Model;

/// The greatest number of segments of a script.
const MOST_SEGMENTS: usize = 8;

/// The greatest number of instances of all messages of a script of version 3.
const MOST_INSTANCES: u32 = 1_000_000;

/// A CAN network: talkers, and the controllers that name the segment. Contracts see its name and its talkers.
#[derive(Drop)]
pub struct Segment {
    name: String,
    talkers: Vec<Talker>,
}

impl Model for Segment {
    ghost use Rattle.gw_config.specs.Segments.{SegmentValue};

    ghost Value = { SegmentValue };

    ghost use Rattle.gw_config.specs.SegmentParts.{segment_view};

    ghost view = { segment_view };
}

impl Segment {
    /// Returns its name.
    pub fn name(&self) -> &str
        ensures { result.now ≡ self.now.name }
    {
        self.name.as_str()
    }

    /// Returns its talkers, in the order of the script.
    pub fn talkers(&self) -> &[Talker]
        ensures { result.now ≡ self.now.talkers }
    {
        self.talkers.as_slice()
    }
}

impl Named for Segment {
    ghost name_of = { λ s. s.name };

    fn name(&self) -> &str {
        Segment::name(self)
    }
}

/// Returns whether a talker of one of the segments has this name.
pub fn is_talker(segments: &[Segment], name: &str) -> bool
    ensures { result ≡ is_among name.now (all_talker_names segments.now) }
{
    for segment in segments {
        if is_among(segment.talkers(), name) {
            return true;
        }
    }
    false
}

/// Returns whether a talker of the segments or one of these nodes has this name.
fn is_node<T: Named>(segments: &[Segment], nodes: &[T], name: &str) -> bool
    ensures { result ≡ is_among name.now (all_talker_names segments.now ++ map T.name_of nodes.now) }
{
    if is_talker(segments, name) {
        return true;
    }
    is_among(nodes, name)
}

/// Returns the field `name` of a node.
///
/// `Missing`, `Kind` or `Range` of `name`; `DoubleName(list)` where a talker of the segments, or a node in front of
/// this one, has the same name.
#[tactic(auto, unfolding(gw_fields::specs::Names::new_name))]
pub fn node_name<'v, T: Named>(
    object: &'v Value,
    list: &'static str,
    segments: &[Segment],
    front: &[T],
) -> Result<&'v str, ScriptFault>
    ensures { Reads (λ t. t.now) result
        (new_name list.entry.now (all_talker_names segments.now ++ map T.name_of front.now) (view object.now)) }
{
    let name = formed_name(object)?;
    if is_node(segments, front, name) {
        Err(ScriptFault::DoubleName(list))
    } else {
        Ok(name)
    }
}

/// Returns how many instances of messages these segments leave to the segments behind them.
pub fn instances_left(segments: &[Segment]) -> u32
    ensures value { result ≡ instances_left segments.now }
    ensures few { result ≤ 1000000 }
{
    let mut left = MOST_INSTANCES;
    for segment in segments {
        left = left_after(left, segment.talkers());
    }
    left
}

/// Reads the segments of a script.
#[derive(Drop)]
struct SegmentReader {
    format: Format,
    ghost some: { 1 ≤ format.bits },
}

impl ReadsElement for SegmentReader {
    ghost use Rattle.gw_config.specs.Segments.{segment_of};
    ghost use Rattle.gw_config.specs.SoundScripts.{IsSegmentIn};

    type Element = Segment;

    ghost reading = { λ s. segment_of s.format };

    ghost keeps = { λ s. IsSegmentIn s.format.bits };

    /// Returns the segment that an element describes, behind those in front of it.
    #[tactic(auto, unfolding(crate::specs::Segments::segment_of))]
    fn read(
        &self,
        alloc: Global,
        value: &Value,
        front: &[Segment],
    ) -> Result<Segment, ScriptFault> {
        let version = self.format.version;
        let from = element_of(version, "segments", &["name", "talkers"], value)?;
        let name = new_name(from, "segments", front)?;
        let items = some_list(from, "talkers")?;
        let talkers = talkers_of(alloc, items, self.format, front)?;
        let name = owned(alloc, name)?;
        Ok(Segment { name, talkers })
    }
}

/// Returns the segments of a script, 1 to 8.
///
/// `Missing`, `Kind`, `TooMany` or `Range` of `segments`, the last where the list is empty; then the fault of the first
/// element that is refused. `Memory` where an allocation failed.
#[tactic(auto, unfolding(crate::specs::Segments::segments_of), using(crate::proofs::Lists::each_from_all))]
pub fn segments_of(alloc: Global, from: &Value, format: Format) -> Result<Vec<Segment>, ScriptFault>
    requires { 1 ≤ format.bits }
    ensures value { ReadsUnlessMemory (λ v. v.items) result (segments_of format (view from.now)) }
    ensures range { IfOk result (λ v. Each (IsSegmentIn format.bits) v.items) }
    ensures count { IfOk result (λ v. (1 ≤ length v.items) × (length v.items ≤ 8)) }
{
    let items = filled_list(from, "segments", MOST_SEGMENTS)?;
    read_each(alloc, items, &SegmentReader { format })
}

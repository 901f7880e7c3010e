//! A script: what a run of the gateway is made of.

ghost use Rattle.std.specs.Prelude.{◌≡◌, ◌<◌, ◌≤◌, length, slice_get, option_and_then, IfOk, IfErr, IfSome};
ghost use Rattle.std.specs.Option.{option_map};
ghost use Rattle.serde_json.specs.View.{view};
ghost use Rattle.gw_fields.specs.Faults.{Reads, ReadsUnlessMemory, UnlessMemory};
ghost use Rattle.gw_fields.specs.Documents.{IsTextOf, FirstFault};
ghost use Rattle.gw_config.specs.Controllers.{controllers_on};
ghost use Rattle.gw_config.specs.Scripts.{lists_of, rate_of, known_script, format_of, script_of};
ghost use Rattle.gw_config.specs.SoundScripts.{IsSound};
ghost use Rattle.gw_config.specs.Nodes.{controller_places, controller_at, names_of_nodes, route_at, talkers_on};

use crate::controller::{Controller, controllers_of, count_on};
use crate::format::Format;
use crate::object::known;
use crate::planned_abort::{PlannedAbort, planned_aborts_of};
use crate::planned_fault::{PlannedFault, planned_faults_of};
use crate::route::{Route, routes_of};
use crate::script_places::{nth_into, nth_on};
use crate::segment::{Segment, segments_of};
use crate::talker::Talker;
use crate::version::{Version, version_of};
use gw_fields::{ScriptFault, duration, object_of, optional_whole, read_document};
use serde_json::Value;
use std::alloc::Global;
use std::marker::Model;

/// The fields that a script of version 3 may have.
const FIELDS: [&'static str; 9] = [
    "$schema",
    "version",
    "bitrate",
    "bits",
    "segments",
    "controllers",
    "routes",
    "faults",
    "aborts",
];

/// Segments with their talkers, controllers on them, routes between controllers, and the faults and
/// aborts that are planned. Contracts see it as a `ScriptValue`.
#[derive(Drop)]
pub struct Script {
    bitrate: Option<u32>,
    bits: u32,
    segments: Vec<Segment>,
    controllers: Vec<Controller>,
    routes: Vec<Route>,
    faults: Vec<PlannedFault>,
    aborts: Vec<PlannedAbort>,
}

impl Model for Script {
    ghost use Rattle.gw_config.specs.Scripts.{ScriptValue};

    ghost Value = { ScriptValue };

    ghost use Rattle.gw_config.specs.ScriptParts.{script_view};

    ghost view = { script_view };
}

impl Script {
    /// Returns its bit rate in bits a second, 1,000 to 1,000,000, and `None` where it has none.
    pub fn bitrate(&self) -> Option<u32>
        ensures { result ≡ self.now.rate }
    {
        self.bitrate
    }

    /// Returns the number of bits that it runs, 1 to 100,000,000; at most 1,000,000 in versions 1 and 2.
    pub fn bits(&self) -> u32
        ensures { result ≡ self.now.bits }
    {
        self.bits
    }

    /// Its segments, 1 to 8.
    pub fn segments(&self) -> &[Segment]
        ensures { result.now ≡ self.now.segments }
    {
        self.segments.as_slice()
    }

    /// Its controllers, at most 16.
    pub fn controllers(&self) -> &[Controller]
        ensures { result.now ≡ self.now.controllers }
    {
        self.controllers.as_slice()
    }

    /// Its routes, at most 16.
    pub fn routes(&self) -> &[Route]
        ensures { result.now ≡ self.now.routes }
    {
        self.routes.as_slice()
    }

    /// A controller by its place among those on a segment, in the order of the script: its place in the
    /// script, or `None` behind the last.
    pub fn controller_on(&self, segment: usize, nth: usize) -> Option<usize>
        ensures value { result ≡ slice_get (controller_places self.now segment) nth }
        ensures controller { option_and_then (λ place. slice_get self.now.controllers place) result
            ≡ slice_get (controllers_on segment self.now.controllers) nth }
        ensures range { IfSome result (λ place. place < length self.now.controllers) }
    {
        nth_on(self.controllers.as_slice(), segment, nth)
    }

    /// The controller that is a node of a segment: its place in the script. `None` for a talker, and where
    /// the segment has no such node.
    pub fn controller_at(&self, segment: usize, node: usize) -> Option<usize>
        ensures value { result ≡ controller_at self.now segment node }
        ensures range { IfSome result (λ place. place < length self.now.controllers) }
    {
        let talkers = self.talkers_on(segment).len();
        if node < talkers {
            return None;
        }
        self.controller_on(segment, node - talkers)
    }

    /// How many nodes a segment has: its talkers and the controllers on it.
    pub fn node_count(&self, segment: usize) -> usize
        ensures { result ≡ length (names_of_nodes self.now segment) }
    {
        let talkers = self.talkers_on(segment).len();
        talkers + count_on(self.controllers.as_slice(), segment)
    }

    /// The name of a node of a segment, by its place among the segment's talkers and, behind them, the
    /// controllers on it. `None` where the segment has no such node.
    pub fn node_name(&self, segment: usize, node: usize) -> Option<&str>
        ensures { option_map (λ name. name.now) result ≡ slice_get (names_of_nodes self.now segment) node }
    {
        let talkers = self.talkers_on(segment);
        if node < talkers.len() {
            return Some(talkers[node].name());
        }
        match self.controller_on(segment, node - talkers.len()) {
            Some(place) => Some(self.controllers[place].name()),
            None => None,
        }
    }

    /// A route by its number at the controller that it leads into: its place in the script. `None` where
    /// fewer routes lead there.
    pub fn route_at(&self, controller: usize, number: usize) -> Option<usize>
        ensures value { result ≡ route_at self.now controller number }
        ensures range { IfSome result (λ place. place < length self.now.routes) }
    {
        nth_into(self.routes.as_slice(), controller, number)
    }

    /// The talkers on a segment; none where there is no such segment.
    fn talkers_on(&self, segment: usize) -> &[Talker]
        ensures { result.now ≡ talkers_on (slice_get self.now.segments segment) }
    {
        match self.segments.get(segment) {
            Some(segment) => segment.talkers(),
            None => &[],
        }
    }

    /// Its faults, in the order of its list.
    pub fn faults(&self) -> &[PlannedFault]
        ensures { result.now ≡ self.now.faults }
    {
        self.faults.as_slice()
    }

    /// Its aborts, in the order of its list.
    pub fn aborts(&self) -> &[PlannedAbort]
        ensures { result.now ≡ self.now.aborts }
    {
        self.aborts.as_slice()
    }
}

/// Returns the script whose fields are read by this format.
///
/// The first fault of `segments`, `controllers`, `routes`, `faults` and `aborts`. `Memory` where an allocation failed.
#[tactic(auto, unfolding(crate::specs::Scripts::lists_of))]
fn lists_of(alloc: Global, from: &Value, format: Format) -> Result<Script, ScriptFault>
    requires some { 1 ≤ format.bits }
    requires few { format.bits ≤ 100000000 }
    ensures value { ReadsUnlessMemory (λ s. s) result (lists_of format (view from.now)) }
    ensures sound { IfOk result IsSound }
{
    let segments = segments_of(alloc, from, format)?;
    let controllers = controllers_of(alloc, from, format, segments.as_slice())?;
    let routes = routes_of(alloc, from, format, controllers.as_slice())?;
    let faults = planned_faults_of(
        alloc,
        from,
        format,
        segments.as_slice(),
        controllers.as_slice(),
    )?;
    let aborts = planned_aborts_of(alloc, from, format.version, routes.as_slice())?;
    Ok(Script {
        bitrate: format.rate,
        bits: format.bits,
        segments,
        controllers,
        routes,
        faults,
        aborts,
    })
}

/// Returns the bit rate of a script in bits a second, 1,000 to 1,000,000; `None` in versions 1 and 2, and where the
/// field `bitrate` is absent.
///
/// `Kind("bitrate")` where the field of version 3 is not a whole number, `Range("bitrate")` where it is out of its
/// range.
fn rate_of(from: &Value, version: Version) -> Result<Option<u32>, ScriptFault>
    ensures { Reads (λ rate. rate) result (rate_of version (view from.now)) }
{
    match version {
        Version::One | Version::Two => Ok(None),
        Version::Three => match optional_whole(from, "bitrate", 1_000, 1_000_000) {
            Ok(rate) => Ok(rate.map(|rate| rate as u32)),
            Err(fault) => Err(fault),
        },
    }
}

/// Returns `Ok` for a script of versions 1 and 2, and for a script of version 3 without unknown fields.
///
/// `Unknown("script")` where a script of version 3 has an unknown field.
#[tactic(auto, unfolding(crate::specs::Scripts::known_script))]
fn known_script(from: &Value, version: Version) -> Result<(), ScriptFault>
    ensures { Reads (λ u. u) result (known_script version (view from.now)) }
{
    known(version, "script", &FIELDS, from)
}

/// Returns what the lists of a script are read by: its version, its bit rate and its bits.
///
/// The faults of `version`; `Unknown("script")` where a script of version 3 has an unknown field; the faults of
/// `bitrate`; `Missing("bits")`, `Kind("bits")` where it is not a duration, `Range("bits")` where the run has no bit or
/// more bits than the version allows.
#[tactic(auto, unfolding(crate::specs::Scripts::format_of))]
fn format_of(from: &Value) -> Result<Format, ScriptFault>
    ensures value { Reads (λ format. format) result (format_of (view from.now)) }
    ensures range { IfOk result (λ format. (1 ≤ format.bits) × (format.bits ≤ 100000000)) }
{
    let version = version_of(from)?;
    known_script(from, version)?;
    let rate = rate_of(from, version)?;
    let most = u64::from(version.most_bits());
    let bits = duration(from, "bits", 1, most, rate)? as u32;
    Ok(Format {
        version,
        rate,
        bits,
    })
}

/// Returns the script that a JSON value describes.
///
/// `Kind("script")` where the value is not an object; the faults of `format_of`, then those of `lists_of`.
#[tactic(auto, unfolding(crate::specs::Scripts::script_of))]
fn script_of(alloc: Global, value: &Value) -> Result<Script, ScriptFault>
    ensures value { ReadsUnlessMemory (λ s. s) result (script_of (view value.now)) }
    ensures sound { IfOk result IsSound }
{
    let from = object_of(value, "script")?;
    let format = format_of(from)?;
    lists_of(alloc, from, format)
}

/// Reads a script of at most `LIMIT` bytes.
///
/// The faults of `read_document`; then the first fault of the script, in the order of the definition `script_of`.
/// `Memory` where an allocation failed.
pub fn read(alloc: Global, bytes: &[u8]) -> Result<Script, ScriptFault>
    ensures ok { IfOk result (IsTextOf script_of bytes.now) }
    ensures err { IfErr result (λ e. UnlessMemory e (FirstFault script_of bytes.now)) }
    ensures sound { IfOk result IsSound }
{
    let value = read_document(alloc, bytes)?;
    script_of(alloc, &value)
}

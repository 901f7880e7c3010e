//! A controller of a script.

ghost use Rattle.std.specs.Prelude.{◌≡◌, ◌+◌, ◌<◌, ◌≤◌, ◌==◌, length, count_by, nat_lt, slice_get, IfOk};
ghost use Rattle.bx_core.specs.Lists.{Each};
ghost use Rattle.serde_json.specs.View.{view};
ghost use Rattle.gw_fields.specs.Faults.{ReadsUnlessMemory};
ghost use Rattle.gw_config.specs.Versions.{most_nodes};
ghost use Rattle.gw_config.specs.Controllers.{node_count, controller_with, controllers_of};
ghost use Rattle.gw_config.specs.SoundScripts.{IsControllerIn};

use crate::bank_list::banks_of;
use crate::format::Format;
use crate::object::element_of;
use crate::segment::{Segment, node_name};
use crate::version::Version;
use bx_rx::Banks;
use gw_fields::{
    Named, ReadsElement, ScriptFault, list, optional_truth, owned, place_named, read_each,
};
use serde_json::Value;
use std::alloc::Global;
use std::marker::Model;

/// The greatest number of controllers of a script.
const MOST_CONTROLLERS: usize = 16;

/// The fields that a controller of version 3 may have.
const FIELDS: [&'static str; 6] = ["name", "segment", "on", "txfp", "filters", "banks"];

/// A node that routes send and receive through. Contracts see its name, the place of its segment, the bit at which it
/// is switched on, its transmit priority, and its filter banks.
#[derive(Drop)]
pub struct Controller {
    name: String,
    segment: usize,
    on: u32,
    txfp: bool,
    banks: Banks,
}

impl Model for Controller {
    ghost use Rattle.gw_config.specs.Controllers.{ControllerValue};

    ghost Value = { ControllerValue };

    ghost use Rattle.gw_config.specs.ControllerParts.{controller_view};

    ghost view = { controller_view };
}

impl Controller {
    /// Returns its name.
    pub fn name(&self) -> &str
        ensures { result.now ≡ self.now.name }
    {
        self.name.as_str()
    }

    /// Returns the place of its segment in the script, from 0.
    pub fn segment(&self) -> usize
        ensures { result ≡ self.now.segment }
    {
        self.segment
    }

    /// Returns the bit at which it is switched on, below the script's bits.
    pub fn on(&self) -> u32
        ensures { result ≡ self.now.on }
    {
        self.on
    }

    /// Returns whether it sends in the order of requests (TXFP set), and not by identifier.
    pub fn txfp(&self) -> bool
        ensures { result ≡ self.now.txfp }
    {
        self.txfp
    }

    /// Returns its filter banks, also those that the script doesn't set.
    pub fn banks(&self) -> &Banks
        ensures { result.now ≡ self.now.banks }
    {
        &self.banks
    }
}

impl Named for Controller {
    ghost name_of = { λ c. c.name };

    fn name(&self) -> &str {
        Controller::name(self)
    }
}

/// Returns how many of these controllers are on a segment.
pub fn count_on(controllers: &[Controller], place: usize) -> usize
    ensures value { result ≡ count_by (λ c. c.segment == place) controllers.now }
    ensures few { result ≤ length controllers.now }
{
    controllers
        .iter()
        .filter(|controller| controller.segment() == place)
        .count()
}

/// Returns whether the segment at this place has room for another node. Its nodes are its talkers, and those of the
/// controllers that are on it.
fn has_room(
    version: Version,
    segments: &[Segment],
    place: usize,
    controllers: &[Controller],
) -> bool
    requires { place < length segments.now }
    ensures { result
        ≡ nat_lt (node_count controllers.now place (slice_get segments.now place)) (most_nodes version) }
{
    let talkers = segments[place].talkers().len();
    let on_it = count_on(controllers, place);
    talkers + on_it < version.most_nodes()
}

/// Reads the controllers on these segments.
#[derive(Drop)]
struct ControllerReader<'a> {
    format: Format,
    segments: &'a [Segment],
    ghost some: { 1 ≤ format.bits },
}

impl<'a> ControllerReader<'a> {
    /// Returns the controller with this name and segment, behind those in front of it.
    ///
    /// The faults of `on`, `txfp`, `filters` and `banks`, in this order; `TooMany("controllers")` where its segment has
    /// no room for another node. `Memory` where an allocation failed.
    #[tactic(auto, unfolding(crate::specs::Controllers::controller_with))]
    fn controller_with(
        &self,
        alloc: Global,
        from: &Value,
        front: &[Controller],
        name: &str,
        segment: usize,
    ) -> Result<Controller, ScriptFault>
        requires { segment < length self.now.segments.now }
        ensures value { ReadsUnlessMemory (λ c. c) result
            (controller_with self.now.format self.now.segments.now
            front.now name.now segment (view from.now)) }
        ensures range { IfOk result (IsControllerIn self.now.format.bits self.now.segments.now) }
    {
        let on = self.format.bit_of(from, "on")?;
        let txfp = optional_truth(from, "txfp", true)?;
        let banks = match banks_of(alloc, from, self.format.version) {
            Ok(banks) => banks,
            Err(fault) => return Err(fault),
        };
        if has_room(self.format.version, self.segments, segment, front) {
            let name = owned(alloc, name)?;
            Ok(Controller {
                name,
                segment,
                on,
                txfp,
                banks,
            })
        } else {
            Err(ScriptFault::TooMany("controllers"))
        }
    }
}

impl<'a> ReadsElement for ControllerReader<'a> {
    ghost use Rattle.gw_config.specs.Controllers.{controller_of};
    ghost use Rattle.gw_config.specs.SoundScripts.{IsControllerIn};

    type Element = Controller;

    ghost reading = { λ s. controller_of s.format s.segments.now };

    ghost keeps = { λ s. IsControllerIn s.format.bits s.segments.now };

    /// Returns the controller that an element describes, behind those in front of it.
    #[tactic(auto, unfolding(crate::specs::Controllers::controller_of, crate::specs::Objects::element_of, gw_fields::specs::Fields::object_of, gw_fields::specs::Names::new_name))]
    fn read(
        &self,
        alloc: Global,
        value: &Value,
        front: &[Controller],
    ) -> Result<Controller, ScriptFault> {
        let from = element_of(self.format.version, "controllers", &FIELDS, value)?;
        let name = node_name(from, "controllers", self.segments, front)?;
        let segment = place_named(from, "segment", self.segments)?;
        self.controller_with(alloc, from, front, name, segment)
    }
}

/// Returns the controllers of a script, at most 16.
///
/// `Missing`, `Kind` or `TooMany` of `controllers`, then the fault of the first element that is refused. `Memory` where
/// an allocation failed.
#[tactic(auto, unfolding(crate::specs::Controllers::controllers_of, gw_fields::specs::Fields::list, gw_fields::specs::Fields::field, gw_fields::specs::Fields::list_of), using(crate::proofs::Lists::each_from_all))]
pub fn controllers_of(
    alloc: Global,
    from: &Value,
    format: Format,
    segments: &[Segment],
) -> Result<Vec<Controller>, ScriptFault>
    requires { 1 ≤ format.bits }
    ensures value { ReadsUnlessMemory (λ v. v.items) result (controllers_of format segments.now (view from.now)) }
    ensures range { IfOk result (λ v. Each (IsControllerIn format.bits segments.now) v.items) }
    ensures few { IfOk result (λ v. length v.items ≤ 16) }
{
    let items = list(from, "controllers", MOST_CONTROLLERS)?;
    read_each(alloc, items, &ControllerReader { format, segments })
}

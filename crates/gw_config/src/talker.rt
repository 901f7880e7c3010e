//! A talker of a script.

ghost use Rattle.std.specs.Prelude.{◌≡◌, ◌≤◌, ◌-◌, [], IfOk, length, string_bytes};
ghost use Rattle.bx_core.specs.Lists.{Each};
ghost use Rattle.serde_json.specs.View.{items_view};
ghost use Rattle.gw_fields.specs.Faults.{ReadsUnlessMemory};
ghost use Rattle.gw_fields.specs.Fields.{each_after};
ghost use Rattle.gw_config.specs.Messages.{instances_of, messages_of};
ghost use Rattle.gw_config.specs.Segments.{all_talker_names, instances_left};
ghost use Rattle.gw_config.specs.Talkers.{talker_instances, talker_of};
ghost use Rattle.gw_config.specs.SoundScripts.{IsMessageIn, IsTalkerIn};

use crate::format::Format;
use crate::message::{Message, next_message};
use crate::object::element_of;
use crate::segment::{Segment, instances_left, node_name};
use gw_fields::{Named, ReadsElement, ScriptFault, list, owned, read_each};
use serde_json::Value;
use std::alloc::Global;
use std::marker::Model;

/// The greatest length of a talker's list of frames.
const MOST_MESSAGES: usize = 10_000;

/// A node that sends frames of its own, one after the other. Contracts see its name, the bit at which it is switched
/// on, and its messages.
#[derive(Drop)]
pub struct Talker {
    name: String,
    on: u32,
    messages: Vec<Message>,
    // the number of instances of all messages, so that nobody counts them again for each talker behind this one
    instances: u32,
}

impl Model for Talker {
    ghost use Rattle.gw_config.specs.Talkers.{TalkerValue};

    ghost Value = { TalkerValue };

    ghost use Rattle.gw_config.specs.TalkerParts.{talker_view, IsTalker};

    ghost view = { talker_view };

    ghost invariant = { IsTalker };
}

impl Talker {
    fn new(name: String, on: u32, messages: Vec<Message>) -> Talker
        requires { instances_of messages.items ≤ 1000000 }
        ensures { result ≡ record { name = string_bytes name; on = on; messages = messages.items } }
    {
        let instances = messages.iter().map(|message| message.count()).sum();
        Talker {
            name,
            on,
            messages,
            instances,
        }
    }

    /// Returns its name.
    pub fn name(&self) -> &str
        ensures { result.now ≡ self.now.name }
    {
        self.name.as_str()
    }

    /// Returns the bit at which it is switched on, below the script's bits.
    pub fn on(&self) -> u32
        ensures { result ≡ self.now.on }
    {
        self.on
    }

    /// Returns its messages, in the order of the script.
    pub fn messages(&self) -> &[Message]
        ensures { result.now ≡ self.now.messages }
    {
        self.messages.as_slice()
    }

    /// Returns the number of instances of all its messages, at most 1,000,000.
    pub fn instances(&self) -> u32
        ensures value { result ≡ instances_of self.now.messages }
        ensures few { result ≤ 1000000 }
    {
        self.instances
    }
}

impl Named for Talker {
    ghost name_of = { λ t. t.name };

    fn name(&self) -> &str {
        Talker::name(self)
    }
}

/// Returns the messages that a list of frames describes, in the order of the list. In version 3 they have at most
/// `left` instances in all.
///
/// The fault of the first element that is refused. An element of version 3 with which there are more than `left`
/// instances is refused with `TooMany("instances")`, after its own faults. `Memory` where an allocation failed.
fn messages_of(
    alloc: Global,
    items: &[Value],
    format: &Format,
    left: u32,
) -> Result<Vec<Message>, ScriptFault>
    requires some { 1 ≤ format.now.bits }
    requires few_items { length items.now ≤ 10000 }
    requires few_left { left ≤ 1000000 }
    ensures value { ReadsUnlessMemory (λ v. v.items) result
        (messages_of format.now left (items_view items.now)) }
    ensures range { IfOk result (λ v. Each (IsMessageIn format.now.bits) v.items) }
    ensures few { IfOk result (λ v. instances_of v.items ≤ 1000000) }
{
    let mut messages = Vec::new(alloc);
    let mut left = left;
    for item in items {
        let message = match next_message(format, left, item) {
            Ok(message) => message,
            Err(fault) => return Err(fault),
        };
        left = left.saturating_sub(message.count());
        if messages.push(message).is_err() {
            return Err(ScriptFault::Memory);
        }
    }
    Ok(messages)
}

/// Returns what is left of `left` instances after the messages of these talkers, and 0 where they have more.
pub fn left_after(left: u32, talkers: &[Talker]) -> u32
    ensures { result ≡ left - talker_instances talkers.now }
{
    let mut left = left;
    for talker in talkers {
        left = left.saturating_sub(talker.instances());
    }
    left
}

/// Reads the talkers of a segment. `segments` are the segments before it.
#[derive(Drop)]
struct TalkerReader<'a> {
    format: Format,
    segments: &'a [Segment],
    ghost some: { 1 ≤ format.bits },
}

impl<'a> ReadsElement for TalkerReader<'a> {
    ghost use Rattle.gw_config.specs.Segments.{all_talker_names, instances_left};
    ghost use Rattle.gw_config.specs.Talkers.{talker_of};
    ghost use Rattle.gw_config.specs.SoundScripts.{IsTalkerIn};

    type Element = Talker;

    ghost reading = { λ s. talker_of s.format (all_talker_names s.segments.now) (instances_left s.segments.now) };

    ghost keeps = { λ s. IsTalkerIn s.format.bits };

    /// Returns the talker that an element describes, behind those in front of it.
    #[tactic(auto, unfolding(crate::specs::Talkers::talker_of))]
    fn read(&self, alloc: Global, value: &Value, front: &[Talker]) -> Result<Talker, ScriptFault> {
        let format = &self.format;
        let from = element_of(format.version, "talkers", &["name", "on", "frames"], value)?;
        let name = node_name(from, "talkers", self.segments, front)?;
        let on = format.bit_of(from, "on")?;
        let items = list(from, "frames", MOST_MESSAGES)?;
        let left = left_after(instances_left(self.segments), front);
        let messages = messages_of(alloc, items, format, left)?;
        if front.len() >= format.version.most_nodes() {
            return Err(ScriptFault::TooMany("talkers"));
        }
        let name = owned(alloc, name)?;
        Ok(Talker::new(name, on, messages))
    }
}

/// Returns the talkers that a segment's list describes, in the order of the list. `segments` are the segments before
/// it.
///
/// The fault of the first element that is refused; `Memory` where an allocation failed.
#[tactic(auto, using(crate::proofs::Lists::each_from_all))]
pub fn talkers_of(
    alloc: Global,
    items: &[Value],
    format: Format,
    segments: &[Segment],
) -> Result<Vec<Talker>, ScriptFault>
    requires { 1 ≤ format.bits }
    ensures value { ReadsUnlessMemory (λ v. v.items) result
        (each_after (talker_of format (all_talker_names segments.now) (instances_left segments.now)) []
        (items_view items.now)) }
    ensures range { IfOk result (λ v. Each (IsTalkerIn format.bits) v.items) }
{
    read_each(alloc, items, &TalkerReader { format, segments })
}

//! The record of a segment: levels, events and error counters.

ghost use Rattle.std.specs.Prelude.{◌≡◌, ◌+◌, ◌*◌, ◌<◌, ◌≤◌, length, vec_len, vec_capacity, OnOk};

use crate::levels::Levels;
use can_node::Counters;
use can_station::Event;
use std::alloc::AllocError;

/// The levels, the events and the error counters of a segment, up to some bit.
#[derive(Drop)]
pub struct Record {
    /// The level of the line at each bit, true being recessive.
    pub levels: Levels,
    /// What happened, by bit; at one bit first what started, then the rest, each in the order of nodes.
    pub events: Vec<Event>,
    /// The error counters after the last bit, in the order of nodes.
    pub counters: Vec<Counters>,
}

/// Reserves room for one level and for three events of each node.
pub(crate) fn make_room(made: &mut Record, nodes: usize) -> Result<(), AllocError>
    requires { nodes ≤ 64 }
    ensures levels { made.new.levels.items ≡ made.old.levels.items }
    ensures events { made.new.events.items ≡ made.old.events.items }
    ensures counters { made.new.counters ≡ made.old.counters }
    ensures capacity { made.old.levels.capacity ≤ made.new.levels.capacity }
    ensures level_room { OnOk result (length made.new.levels.items < made.new.levels.capacity) }
    ensures event_room { OnOk result (vec_len made.new.events + 3 * nodes ≤ vec_capacity made.new.events) }
{
    made.levels.reserve(1)?;
    made.events.reserve(3 * nodes)
}

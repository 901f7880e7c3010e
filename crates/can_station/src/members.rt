//! The nodes of a segment, one after another.

ghost use Rattle.std.specs.Prelude.{◌≡◌, false, ◌+◌, ◌≤◌, ◌&&◌, ℕ, Some, length, slice_get, if◌then◌else◌};
ghost use Rattle.std.specs.List.{list_all};
ghost use Rattle.can_station.specs.Faults.{sampled_level};
ghost use Rattle.can_station.specs.Ports.{item_of};
ghost use Rattle.can_station.specs.Places.{AtPlaces, AtBoth};
ghost use Rattle.can_station.specs.DeferredNodes.{ActiveAreUneventful, ActiveWithin, HasRoom, IfActive, IfActiveBoth};
ghost use Rattle.can_station.specs.Members.{
  TalkerStarts,
  NodeSamples,
  PortStarts,
  IsUnsettled,
  PortSettled,
  PortSettles,
  drives_at,
};
ghost use Rattle.can_station.specs.declared.member.Member.{Member};

use crate::faults::sampled_level;
use crate::member::Member;
use crate::place_set::PlaceSet;
use crate::plan::{NodeFault, Talker};
use crate::rx_sink::RxSink;

/// Lets the active talkers begin the next frames of their queues that are due at this bit, at its start. Each talker is
/// at the index of its plan. All
/// nodes but those of the set are deferred, and are left as they are.
pub fn start_talkers(members: &mut [Member], talkers: &[Talker], bit: u64, active: PlaceSet)
    requires talkers { length talkers.now ≡ length members.old }
    requires active { ActiveWithin active members.old }
    ensures { AtPlaces (λ k. IfActive (TalkerStarts bit talkers.now k)) members.old members.new }
{
    let mut left = active;
    while let Some(place) = left.take_first() {
        members[place].start_talking(bit, talkers[place].queue.as_slice());
    }
}

/// Lets the active controllers take their next requests at the start of this bit, each from the port at its index,
/// which transmits what the node sends. All nodes but those of the set are deferred: they and their ports are left as
/// they are.
pub fn start_controllers<R, P: RxSink<R>>(
    rt: &R,
    members: &mut [Member],
    ports: &mut [P],
    bit: u64,
    active: PlaceSet,
)
    requires size { length ports.old ≡ length members.old }
    requires active { ActiveWithin active members.old }
    requires port { (k : ℕ) (m : Member) (p : P) → slice_get members.old k ≡ Some m
        → slice_get ports.old k ≡ Some p → P.transmitting p ≡ item_of m.station.sending }
    ensures { AtBoth (λ k. IfActiveBoth (PortStarts P.bus_after P.bus_asked P.transmitting P.bus_stays bit))
        members.old members.new ports.old ports.new }
{
    let mut left = active;
    while let Some(place) = left.take_first() {
        members[place].start_request(rt, bit, &mut ports[place]);
    }
}

/// Returns whether each of these nodes drives recessive, where the deferred ones drive `deferred_level`.
#[inline]
fn all_recessive(members: &[Member], bit: u64, deferred_level: bool, active: PlaceSet) -> bool
    requires { ActiveWithin active members.now }
    ensures { result ≡ list_all (λ m. if m.is_deferred then deferred_level else drives_at bit m) members.now }
{
    if !deferred_level {
        return members
            .iter()
            .all(|member| member.drives_beside(bit, deferred_level));
    }
    // the other nodes are deferred
    let mut left = active;
    while let Some(place) = left.take_first() {
        if !members[place].drives_beside(bit, deferred_level) {
            return false;
        }
    }
    true
}

/// Returns the AND of what talkers and controllers drive at this bit, true being recessive, where the deferred ones
/// drive `deferred_level`. All nodes but those of the sets are deferred.
pub fn driven_by_all(
    talkers: &[Member],
    controllers: &[Member],
    bit: u64,
    deferred_level: bool,
    active_talkers: PlaceSet,
    active_controllers: PlaceSet,
) -> bool
    requires talkers { ActiveWithin active_talkers talkers.now }
    requires controllers { ActiveWithin active_controllers controllers.now }
    ensures { result ≡ (list_all (λ m. if m.is_deferred then deferred_level else drives_at bit m) talkers.now
        && list_all (λ m. if m.is_deferred then deferred_level else drives_at bit m) controllers.now) }
{
    if all_recessive(talkers, bit, deferred_level, active_talkers) {
        return all_recessive(controllers, bit, deferred_level, active_controllers);
    }
    false
}

/// Lets the active nodes sample the line, which has this level, each with its own faults. The first of them has the
/// number `first`, and all numbers are below 1000. Returns whether something may be reported of one of them; where it
/// returns false, nothing is reported of those that are active and on.
// one copy, into whose loop the sample of a node is inlined
#[inline(never)]
pub fn sample_nodes(
    members: &mut [Member],
    faults: &[NodeFault],
    first: u32,
    bit: u64,
    level: bool,
    active: PlaceSet,
) -> bool
    requires room { HasRoom u64.MAX bit members.old }
    requires few { first + length members.old ≤ 1000 }
    requires active { ActiveWithin active members.old }
    ensures samples { AtPlaces (λ k. IfActive (NodeSamples first bit level faults.now k)) members.old members.new }
    ensures uneventful { result ≡ false → ActiveAreUneventful bit members.new }
{
    let mut reported = false;
    let mut left = active;
    while let Some(place) = left.take_first() {
        let own = sampled_level(faults, first + place as u32, bit, level);
        reported |= members[place].sample(bit, own);
    }
    reported
}

/// Tells the ports of controllers, which have sampled the line, what became of it.
fn settle_ports<R, P: RxSink<R>>(
    rt: &R,
    members: &mut [Member],
    ports: &mut [P],
    bit: u64,
    active: PlaceSet,
)
    requires size { length ports.old ≡ length members.old }
    requires active { ActiveWithin active members.old }
    requires unsettled { (k : ℕ) (m : Member) (p : P) → slice_get members.old k ≡ Some m
        → slice_get ports.old k ≡ Some p → m.is_deferred ≡ false → IsUnsettled (P.transmitting p) bit m }
    ensures { AtBoth (λ k. IfActiveBoth (PortSettled P.bus_after P.bus_asked P.transmitting P.sink_after P.port_stays
        bit))
        members.old members.new ports.old ports.new }
{
    let mut left = active;
    while let Some(place) = left.take_first() {
        members[place].settle(rt, bit, &mut ports[place]);
    }
}

/// Lets the active controllers sample the line, each with its own faults. The ports at their indices learn what became
/// of it: the sink is offered a frame that was received, the bus side a request that was sent or failed. The first of
/// them has the number `first`, and all numbers are below 1000. Returns whether something may be reported of one of
/// them.
pub fn sample_controllers<R, P: RxSink<R>>(
    rt: &R,
    members: &mut [Member],
    ports: &mut [P],
    faults: &[NodeFault],
    first: u32,
    bit: u64,
    level: bool,
    active: PlaceSet,
) -> bool
    requires size { length ports.old ≡ length members.old }
    requires active { ActiveWithin active members.old }
    requires room { HasRoom u64.MAX bit members.old }
    requires few { first + length members.old ≤ 1000 }
    requires port { (k : ℕ) (m : Member) (p : P) → slice_get members.old k ≡ Some m
        → slice_get ports.old k ≡ Some p → P.transmitting p ≡ item_of m.station.sending }
    ensures settles { AtBoth (λ k. IfActiveBoth (PortSettles P.bus_after P.bus_asked P.transmitting P.sink_after
        P.port_stays bit (sampled_level faults.now (first + k) bit level)))
        members.old members.new ports.old ports.new }
    ensures uneventful { result ≡ false → ActiveAreUneventful bit members.new }
{
    // as on most segments: there is none, or all are deferred
    if active.is_empty() {
        return false;
    }
    let reported = sample_nodes(members, faults, first, bit, level, active);
    settle_ports(rt, members, ports, bit, active);
    reported
}

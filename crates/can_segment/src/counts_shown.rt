//! The error counters of a segment's nodes, in its record.

ghost use Rattle.std.specs.Prelude.{◌≡◌, ◌+◌, ◌<◌, ◌≤◌, ℕ, false, length, slice_get};
ghost use Rattle.can_station.specs.DeferredNodes.{ActiveWithin};
ghost use Rattle.can_segment.specs.Segments.{AreFrom, AreFromDeferred};

use crate::deferred::Deferred;
use can_node::Counters;
use can_station::{Member, PlaceSet};

/// Copies the counters of the active nodes to the places from `first` on. Those of the deferred nodes are there
/// already.
fn show(counters: &mut Vec<Counters>, first: usize, members: &[Member], active: PlaceSet)
    requires room { first + length members.now ≤ length counters.old.items }
    requires active { ActiveWithin active members.now }
    requires any_deferred { AreFromDeferred first members.now counters.old.items }
    ensures shown { AreFrom first members.now counters.new.items }
    ensures before { (k : ℕ) → k < first → slice_get counters.new.items k ≡ slice_get counters.old.items k }
    ensures behind { (k : ℕ) → first + length members.now ≤ k
        → slice_get counters.new.items k ≡ slice_get counters.old.items k }
    ensures size { length counters.new.items ≡ length counters.old.items }
{
    let mut left = active;
    while let Some(place) = left.take_first() {
        members[place].show(&mut counters[first + place]);
    }
}

/// Copies the counters of all these nodes to the places from `first` on.
fn show_each(counters: &mut Vec<Counters>, first: usize, members: &[Member])
    requires room { first + length members.now ≤ length counters.old.items }
    ensures shown { AreFrom first members.now counters.new.items }
    ensures before { (k : ℕ) → k < first → slice_get counters.new.items k ≡ slice_get counters.old.items k }
    ensures behind { (k : ℕ) → first + length members.now ≤ k
        → slice_get counters.new.items k ≡ slice_get counters.old.items k }
    ensures size { length counters.new.items ≡ length counters.old.items }
{
    for place in 0..members.len() {
        counters[first + place] = members[place].station.node.counters();
    }
}

/// Copies the counters of all nodes to the record. Those of deferred nodes are there already, unless `deferred_too`
/// says that they changed.
pub(crate) fn show_all(
    counters: &mut Vec<Counters>,
    talkers: &[Member],
    controllers: &[Member],
    deferred: &Deferred,
    deferred_too: bool,
)
    requires active_talkers { ActiveWithin deferred.now.talkers talkers.now }
    requires active_controllers { ActiveWithin deferred.now.controllers controllers.now }
    requires size { length counters.old.items ≡ length talkers.now + length controllers.now }
    requires talkers { deferred_too ≡ false → AreFromDeferred 0 talkers.now counters.old.items }
    requires controllers { deferred_too ≡ false
        → AreFromDeferred (length talkers.now) controllers.now counters.old.items }
    ensures talkers { AreFrom 0 talkers.now counters.new.items }
    ensures controllers { AreFrom (length talkers.now) controllers.now counters.new.items }
    ensures size { length counters.new.items ≡ length talkers.now + length controllers.now }
{
    if deferred_too {
        show_each(counters, 0, talkers);
        show_each(counters, talkers.len(), controllers);
        return;
    }
    show(counters, 0, talkers, deferred.talkers);
    show(counters, talkers.len(), controllers, deferred.controllers);
}

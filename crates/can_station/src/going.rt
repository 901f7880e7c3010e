//! Lists of nodes at uneventful bits.

ghost use Rattle.std.specs.Prelude.{◌≡◌, ◌≢◌, ◌≤◌, ◌<◌, ◌+◌, ℕ, Bool, List, true, false, Some, length, slice_get, take};
ghost use Rattle.can_node.specs.Node.{bit_of};
ghost use Rattle.can_station.specs.Places.{AtPlaces};
ghost use Rattle.can_station.specs.DeferredNodes.{AllGo, ActiveWithin, GoesAsItMay, HasRoom, IfActive, MayAllGo};
ghost use Rattle.can_station.specs.DeferredNodes.{MayGoBy};
ghost use Rattle.can_station.specs.DeferredNodes.{OthersStayOut};
ghost use Rattle.can_station.specs.declared.member.Member.{Member};

use crate::member::Member;
use crate::place_set::PlaceSet;

/// Returns whether the active nodes of these continue with this bit, if it has this level. All nodes but those of the
/// set are deferred.
#[inline(always)]
pub fn all_go_on(members: &[Member], bit: u64, level: bool, active: PlaceSet) -> bool
    requires { ActiveWithin active members.now }
    ensures { result ≡ true → MayAllGo bit level members.now }
{
    let mut left = active;
    while let Some(place) = left.take_first() {
        if members[place].holds_up(bit, level) {
            return false;
        }
    }
    true
}

/// Lets the active nodes of these continue with this bit, at which they sample this level. All nodes but those of the
/// set are deferred.
#[inline(always)]
pub fn go_on(members: &mut [Member], bit: u64, level: bool, active: PlaceSet)
    requires active { ActiveWithin active members.old }
    requires goes { MayAllGo bit level members.old }
    requires room { HasRoom u64.MAX bit members.old }
    ensures { AllGo bit level members.old members.new }
{
    let mut left = active;
    while let Some(place) = left.take_first() {
        members[place].go_on(bit, level);
    }
}

/// Returns with how many of these levels, one after another from this bit on, each active node of these but the one at
/// this index continues without sending (`Node::stays_out`). All nodes but those of the set are deferred.
pub fn all_stay_out(
    members: &[Member],
    bit: u64,
    levels: &[bool],
    active: PlaceSet,
    but: usize,
) -> usize
    requires { ActiveWithin active members.now }
    ensures few { result ≤ length levels.now }
    ensures off { 0 < result → OthersStayOut but bit (take result levels.now) members.now }
{
    let mut count = levels.len();
    let mut left = active;
    while let Some(place) = left.take_first() {
        if place != but {
            count = members[place].stays_out(bit, &levels[..count]);
        }
        // as where another one sends
        if count == 0 {
            return 0;
        }
    }
    count
}

/// Lets the active nodes of these continue with these levels, one after another. All nodes but those of the set are
/// deferred.
pub fn go_on_by(members: &mut [Member], levels: &[bool], active: PlaceSet)
    requires active { ActiveWithin active members.old }
    requires goes { (k : ℕ) (m : Member) → slice_get members.old k ≡ Some m → m.is_deferred ≡ false
        → (is_sender : Bool) × (bit : ℕ) × MayGoBy is_sender bit levels.now m }
    requires room { (k : ℕ) (m : Member) → slice_get members.old k ≡ Some m → m.is_deferred ≡ false
        → bit_of m.station.node + length levels.now ≤ u64.MAX }
    ensures { AtPlaces (λ k. IfActive (GoesAsItMay levels.now)) members.old members.new }
{
    let mut left = active;
    while let Some(place) = left.take_first() {
        members[place].go_on_by(levels);
    }
}

/// Lets the sender at this place continue with this many of the levels that it drives next in its frame. All other
/// nodes are deferred.
pub fn go_ahead_by(members: &mut [Member], place: usize, count: usize)
    requires there { place < length members.old }
    requires deferred { (k : ℕ) (m : Member) → slice_get members.old k ≡ Some m → k ≢ place → m.is_deferred ≡ true }
    requires goes { (m : Member) → slice_get members.old place ≡ Some m
        → (levels : List Bool) × (bit : ℕ) × MayGoBy true bit levels m × (length levels ≡ count) }
    requires room { (m : Member) → slice_get members.old place ≡ Some m
        → bit_of m.station.node + count ≤ u64.MAX }
    ensures { (levels : List Bool) → length levels ≡ count
        → AtPlaces (λ k. IfActive (GoesAsItMay levels)) members.old members.new }
{
    members[place].go_ahead_by(count);
}

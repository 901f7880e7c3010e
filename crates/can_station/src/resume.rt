//! Lists of nodes: resuming deferred ones, and what deferred ones do together.

ghost use Rattle.std.specs.Prelude.{◌≡◌, ◌+◌, ◌<◌, ◌≤◌, ℕ, true, false, Some, length, slice_get};
ghost use Rattle.can_station.specs.Places.{AtPlaces};
ghost use Rattle.can_station.specs.DeferredNodes.{ActiveWithin, CountsReceived, ClearsAction, IfActive, KnowsDeferred};
ghost use Rattle.can_station.specs.DeferredNodes.{Shares, TellsNone};
ghost use Rattle.can_station.specs.DeferredNodes.{ResumesFaulted, ResumesDue, resumed};
ghost use Rattle.can_station.specs.declared.member.Member.{Member as MemberValue};

use crate::faults::is_inverted;
use crate::member::Member;
use crate::place_set::PlaceSet;
use crate::plan::{NodeFault, Talker};
use can_node::{KnownCounts, SharedReceiver, SharedSample};

/// Clears what the active nodes did at the last bit, if something was reported. All nodes but those of the set are
/// deferred.
pub fn clear_actions(members: &mut [Member], reported: bool, active: PlaceSet)
    requires { ActiveWithin active members.old }
    ensures { AtPlaces (λ k. IfActive (ClearsAction reported)) members.old members.new }
{
    if !reported {
        return;
    }
    let mut left = active;
    while let Some(place) = left.take_first() {
        members[place].clear_actions();
    }
}

/// Resumes before this bit each of these nodes that is deferred.
pub fn resume_each(members: &mut [Member], shared_receiver: &SharedReceiver, bit: u64)
    ensures { AtPlaces (λ k a b. b ≡ resumed shared_receiver.now bit a) members.old members.new }
{
    for place in 0..members.len() {
        members[place].resume(shared_receiver, bit);
    }
}

/// Lets all deferred nodes of these sample this level as each does that their shared receiver stands for, and makes
/// them active. Returns whether something may be reported of one of them.
pub fn share_all(members: &mut [Member], shared: &SharedSample, bit: u64, level: bool) -> bool
    requires bit { bit < u64.MAX }
    requires room { (k : ℕ) (m : MemberValue) → slice_get members.old k ≡ Some m → m.is_deferred ≡ true
        → m.station.completed < u64.MAX }
    ensures shares { AtPlaces (λ k. Shares shared.now bit level) members.old members.new }
    ensures uneventful { result ≡ false → AtPlaces (λ k. TellsNone) members.old members.new }
{
    let mut reported = false;
    for place in 0..members.len() {
        reported |= members[place].share(shared, bit, level);
    }
    reported
}

/// Lets all deferred nodes of these count that they received a frame; they stay deferred. Returns what is known of the
/// counters of each of them then.
pub fn receive_all(members: &mut [Member]) -> KnownCounts
    ensures counts { AtPlaces (λ k. CountsReceived) members.old members.new }
    ensures known { AtPlaces (λ k. KnowsDeferred result) members.old members.new }
{
    let mut known = KnownCounts::Zero;
    for place in 0..members.len() {
        known = known.and(members[place].receive());
    }
    known
}

/// Resumes before this bit the deferred talkers of which a frame is due at it. Each talker is at the index of its plan.
/// Returns a bit after this one: no talker that stays deferred has a frame due before the returned bit. It is
/// `u64::MAX` where none of them has a frame left.
pub fn resume_each_due(
    members: &mut [Member],
    plan: &[Talker],
    shared_receiver: &SharedReceiver,
    bit: u64,
) -> u64
    requires plan { length plan.now ≡ length members.old }
    requires bit { bit < u64.MAX }
    ensures resumes { AtPlaces (ResumesDue shared_receiver.now bit result plan.now) members.old members.new }
    ensures later { bit < result }
{
    let mut next_due = u64::MAX;
    for place in 0..members.len() {
        let queue = plan[place].queue.as_slice();
        next_due = next_due.min(members[place].resume_due(queue, shared_receiver, bit));
    }
    next_due
}

/// Resumes before this bit the deferred nodes that have a fault of their own at it. The first of these nodes has the
/// number `first`, and all numbers are below 1000.
pub fn resume_each_faulted(
    members: &mut [Member],
    faults: &[NodeFault],
    first: u32,
    shared_receiver: &SharedReceiver,
    bit: u64,
)
    requires { first + length members.old ≤ 1000 }
    ensures { AtPlaces (ResumesFaulted shared_receiver.now bit faults.now first) members.old members.new }
{
    for place in 0..members.len() {
        let unfaulted = !is_inverted(faults, first + place as u32, bit);
        members[place].resume_unless(unfaulted, shared_receiver, bit);
    }
}

//! Bits of an idle bus on which all nodes are deferred, many at once.

ghost use Rattle.std.specs.Prelude.{◌≡◌, ◌≤◌, ◌<◌, ◌+◌, ◌++◌, true, Bool, List, length};
ghost use Rattle.can_station.specs.DeferredNodes.{ActiveWithin};
ghost use Rattle.can_segment.specs.DeferredState.{AreIdle, AreNoneDueBefore, AreNotDue, AreUneventfulBits};
ghost use Rattle.can_segment.specs.IdleUntil.{IdlesUntil};

use crate::deferred::Deferred;
use crate::levels::Levels;
use crate::record::Record;
use can_station::{CurrentFaults, Member, SegmentPlan, Talker};

/// Simulates bits of an idle bus where all nodes are deferred, before the bit at which one may have something to start:
/// up to `most`; none where that is not so. Appends their levels, for which there is room. On a segment that has a
/// controller it simulates none, since a deferred controller may always have something to start: see
/// `Segment::idle_bits`.
pub(crate) fn idle_burst(
    levels: &mut Levels,
    talkers: &[Member],
    controllers: &[Member],
    deferred: &Deferred,
    most: usize,
)
    requires talkers_within { ActiveWithin deferred.now.talkers talkers.now }
    requires controllers_within { ActiveWithin deferred.now.controllers controllers.now }
    requires level_room { length levels.old.items + most ≤ levels.old.capacity }
    ensures { (sent : List Bool) × (length sent ≤ most) × (levels.new.items ≡ levels.old.items ++ sent)
        × AreUneventfulBits (length levels.old.items) sent deferred.now deferred.now talkers.now talkers.now
        controllers.now controllers.now }
{
    if !deferred.shared_receiver.is_idle() {
        return;
    }
    if !deferred.talkers.is_empty() || !deferred.controllers.is_empty() {
        return;
    }
    let until_start = deferred.next_start.saturating_sub(levels.len() as u64) as usize;
    levels.extend_recessive(most.min(until_start));
}

/// Returns a bit before which none of these talkers has a frame that is due; `u64::MAX` where none has a frame left.
fn next_due(plan: &[Talker], talkers: &[Member]) -> u64
    requires { length plan.now ≡ length talkers.now }
    ensures { AreNoneDueBefore result plan.now talkers.now }
{
    let mut first = u64::MAX;
    for place in 0..talkers.len() {
        first = first.min(talkers[place].next_due(plan[place].queue.as_slice()));
    }
    first
}

/// Returns a bit before which no talker has a frame that is due, where all nodes are deferred on an idle bus; 0 where
/// that is not so.
fn next_start(
    plan: &[Talker],
    deferred: &Deferred,
    talkers: &[Member],
    controllers: &[Member],
) -> u64
    requires plan { length plan.now ≡ length talkers.now }
    requires talkers_within { ActiveWithin deferred.now.talkers talkers.now }
    requires controllers_within { ActiveWithin deferred.now.controllers controllers.now }
    requires not_due { AreNotDue deferred.now plan.now talkers.now }
    ensures { 0 < result → AreIdle deferred.now result plan.now talkers.now controllers.now }
{
    let all_deferred = deferred.talkers.is_empty() && deferred.controllers.is_empty();
    if !all_deferred || !deferred.shared_receiver.is_idle() {
        return 0;
    }
    // where a controller is deferred, it is 0 and says nothing of the talkers
    if deferred.next_start > 0 {
        return deferred.next_start;
    }
    next_due(plan, talkers)
}

/// Returns a bit until which the bus idles as long as no controller is given a request; 0 where none is known.
pub(crate) fn idle_until(
    plan: &SegmentPlan,
    made: &Record,
    faults: &CurrentFaults,
    deferred: &Deferred,
    talkers: &[Member],
    controllers: &[Member],
) -> u64
    requires plan { length plan.now.talkers.items ≡ length talkers.now }
    requires talkers_within { ActiveWithin deferred.now.talkers talkers.now }
    requires controllers_within { ActiveWithin deferred.now.controllers controllers.now }
    requires not_due { AreNotDue deferred.now plan.now.talkers.items talkers.now }
    ensures { 0 < result → IdlesUntil result plan.now made.now faults.now deferred.now talkers.now controllers.now }
{
    let start = next_start(plan.talkers.as_slice(), deferred, talkers, controllers);
    let room = made.levels.capacity() as u64;
    faults.faultless_until(plan.bits.min(start).min(room))
}

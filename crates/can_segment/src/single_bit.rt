//! One uneventful bit: nothing begins, nothing is reported of any node, and no counter changes. Most bits of a bus are
//! such, and a burst simulates many of them; what is left here are the last bit of a CRC, the ACK slot, contenders that
//! still drive the same level, flags, and nodes that wait for the flags of others to end. No port is asked at such a
//! bit, since no controller may start.

ghost use Rattle.std.specs.Prelude.{◌≡◌, ◌<◌, ◌-◌, true, false, length, IfSome, IfNone};
ghost use Rattle.can_station.specs.CurrentFaults.{IsFaultless, IsCurrent};
ghost use Rattle.can_station.specs.declared.plan.SegmentPlan.{SegmentPlan};
ghost use Rattle.can_segment.specs.UneventfulBits.{GrowsUneventfully};
ghost use Rattle.can_segment.specs.DeferredState.{IsUneventfulBit};
ghost use Rattle.can_station.specs.DeferredNodes.{ActiveWithin, HasRoom};

use crate::active::asks_at_each_bit;
use crate::deferred::Deferred;
use crate::record::Record;
use can_station::{CurrentFaults, Member, all_go_on, driven_by_all, go_on};

/// Simulates one bit at which no fault stands and no node starts, if all nodes continue with the AND of what they
/// drive: the deferred ones through the shared receiver, the active ones each by itself. We check that every node can
/// continue before any node changes. Returns the level of the line; `None` where it is no such bit, and then nothing is
/// changed.
#[inline(always)]
fn uneventful_level(
    talkers: &mut [Member],
    controllers: &mut [Member],
    deferred: &mut Deferred,
    bit: u64,
    faults: &CurrentFaults,
) -> Option<bool>
    requires bit { bit < u64.MAX }
    requires talkers_within { ActiveWithin deferred.old.talkers talkers.old }
    requires controllers_within { ActiveWithin deferred.old.controllers controllers.old }
    requires talker_room { HasRoom u64.MAX bit talkers.old }
    requires room { HasRoom u64.MAX bit controllers.old }
    ensures uneventful { IfSome result (λ level. IsUneventfulBit bit level deferred.old deferred.new
        talkers.old talkers.new controllers.old controllers.new) }
    ensures faultless { IfSome result (λ level. (plan : SegmentPlan) → IsCurrent plan bit faults.now
        → IsFaultless plan bit) }
    ensures none { IfNone result ((deferred.new ≡ deferred.old) × (talkers.new ≡ talkers.old)
        × (controllers.new ≡ controllers.old)) }
{
    if asks_at_each_bit(controllers.first())
        || !deferred.any_deferred
        || !deferred.starts_none(bit)
    {
        return None;
    }
    if !faults.are_none() {
        return None;
    }
    let active = deferred.talkers;
    let active_too = deferred.controllers;
    let deferred_level = deferred.drive();
    let level = driven_by_all(
        talkers,
        controllers,
        bit,
        deferred_level,
        active,
        active_too,
    );
    if !all_go_on(talkers, bit, level, active) || !all_go_on(controllers, bit, level, active_too) {
        return None;
    }
    if !deferred.follows(bit, level) {
        return None;
    }
    go_on(talkers, bit, level, active);
    go_on(controllers, bit, level, active_too);
    Some(level)
}

/// Simulates one uneventful bit and appends its level to the record, which has room for it. Returns whether it did;
/// otherwise nothing is changed.
#[inline(always)]
pub(crate) fn grow_uneventfully(
    made: &mut Record,
    talkers: &mut [Member],
    controllers: &mut [Member],
    deferred: &mut Deferred,
    faults: &CurrentFaults,
) -> bool
    requires bit { length made.old.levels.items < u64.MAX }
    requires talkers_within { ActiveWithin deferred.old.talkers talkers.old }
    requires controllers_within { ActiveWithin deferred.old.controllers controllers.old }
    requires talker_room { HasRoom u64.MAX (length made.old.levels.items) talkers.old }
    requires room { HasRoom u64.MAX (length made.old.levels.items) controllers.old }
    requires level_room { length made.old.levels.items < made.old.levels.capacity }
    ensures uneventful { result ≡ true → GrowsUneventfully faults.now made.old made.new deferred.old deferred.new
        talkers.old talkers.new controllers.old controllers.new }
    ensures none { result ≡ false → (made.new ≡ made.old) × (deferred.new ≡ deferred.old)
        × (talkers.new ≡ talkers.old) × (controllers.new ≡ controllers.old) }
{
    let bit = made.levels.len() as u64;
    let Some(level) = uneventful_level(talkers, controllers, deferred, bit, faults) else {
        return false;
    };
    made.levels.push(level);
    true
}

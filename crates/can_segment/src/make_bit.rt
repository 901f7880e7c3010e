//! One bit of a segment at which any node may have something to do.

ghost use Rattle.std.specs.Prelude.{◌≡◌, false, ◌+◌, ◌*◌, ◌<◌, ◌≤◌, ◌++◌, ◌∷◌, [], ℕ, Bool, Some};
ghost use Rattle.std.specs.Prelude.{length, slice_get, vec_len, vec_capacity};
ghost use Rattle.can_station.specs.CurrentFaults.{IsCurrent};
ghost use Rattle.can_station.specs.DeferredNodes.{LeavesDeferred, TransmitsAll};
ghost use Rattle.can_segment.specs.DeferredState.{DeferredHolds, materialized};
ghost use Rattle.can_station.specs.Members.{wants_at};
ghost use Rattle.can_segment.specs.Moves.{PortMoves};
ghost use Rattle.can_segment.specs.Kept.{SegmentKept};
ghost use Rattle.can_station.specs.Tellings.{bit_lines};
ghost use Rattle.can_station.specs.declared.member.Member.{Member};

use crate::all_nodes::{Moved, Sampled, move_nodes};
use crate::deferred::Deferred;
use crate::levels::Levels;
use can_station::{CurrentFaults, Event, Member, RxSink, SegmentPlan, tell_rests, tell_starts};

/// Appends the events of a bit: what starts, then the rest, each in the order of nodes. With `reported` false, as at most
/// bits, nothing is reported.
fn tell(
    events: &mut Vec<Event>,
    bit: u64,
    talkers: &[Member],
    controllers: &[Member],
    reported: bool,
)
    requires uneventful { reported ≡ false → bit_lines bit talkers.now controllers.now ≡ [] }
    requires few { length talkers.now + length controllers.now ≤ 1000 }
    requires room { vec_len events.old + 3 * (length talkers.now + length controllers.now) ≤ vec_capacity events.old }
    ensures { events.new.items ≡ events.old.items ++ bit_lines bit talkers.now controllers.now }
{
    if !reported {
        return;
    }
    let first = talkers.len() as u32;
    tell_starts(events, bit, 0, talkers);
    tell_starts(events, bit, first, controllers);
    tell_rests(events, bit, 0, talkers);
    tell_rests(events, bit, first, controllers);
}

/// Simulates one bit of all nodes, and appends its level and its events to the record.
pub(crate) fn make_bit<R, P: RxSink<R>>(
    rt: &R,
    plan: &SegmentPlan,
    talkers: &mut [Member],
    controllers: &mut [Member],
    ports: &mut [P],
    deferred: &mut Deferred,
    levels: &mut Levels,
    events: &mut Vec<Event>,
    faults: &CurrentFaults,
) -> Sampled
    requires faults { IsCurrent plan.now (length levels.old.items) faults.now }
    requires kept { SegmentKept plan.now levels.old.items events.old.items
        (materialized deferred.old (length levels.old.items) talkers.old)
        (materialized deferred.old (length levels.old.items) controllers.old) }
    requires still { length levels.old.items < plan.now.bits }
    requires ports { length ports.old ≡ length controllers.old }
    requires few { length talkers.old + length controllers.old ≤ 1000 }
    requires port { TransmitsAll P.transmitting
        (materialized deferred.old (length levels.old.items) controllers.old) ports.old }
    requires is_deferred { DeferredHolds deferred.old (length levels.old.items) plan.now.talkers.items talkers.old
        controllers.old }
    requires bit { length levels.old.items < u64.MAX }
    requires level_room { length levels.old.items < levels.old.capacity }
    requires event_room { vec_len events.old + 3 * (length talkers.old + length controllers.old)
        ≤ vec_capacity events.old }
    ensures kept { SegmentKept plan.now levels.new.items events.new.items
        (materialized deferred.new (length levels.old.items + 1) talkers.new)
        (materialized deferred.new (length levels.old.items + 1) controllers.new) }
    ensures level { (level : Bool) × (levels.new.items ≡ levels.old.items ++ level ∷ []) }
    ensures events { events.new.items ≡ events.old.items
        ++ bit_lines (length levels.old.items) (materialized deferred.new (length levels.old.items + 1) talkers.new)
        (materialized deferred.new (length levels.old.items + 1) controllers.new) }
    ensures port { (k : ℕ) (a m : Member) (p q : P)
        → slice_get (materialized deferred.old (length levels.old.items) controllers.old) k ≡ Some a
        → slice_get (materialized deferred.new (length levels.old.items + 1) controllers.new) k ≡ Some m
        → slice_get ports.old k ≡ Some p → slice_get ports.new k ≡ Some q
        → PortMoves P.bus_after P.bus_asked P.transmitting P.sink_after P.port_stays (length levels.old.items)
        (wants_at (length levels.old.items) a) m p q }
    ensures is_deferred { DeferredHolds deferred.new (length levels.old.items + 1) plan.now.talkers.items
        talkers.new controllers.new }
    ensures left { result.counted ≡ false
        → LeavesDeferred talkers.old talkers.new × LeavesDeferred controllers.old controllers.new }
    ensures size { length ports.new ≡ length ports.old }
{
    let bit = levels.len() as u64;
    let Moved { level, sampled } = move_nodes(
        rt,
        plan,
        talkers,
        controllers,
        ports,
        deferred,
        bit,
        faults,
    );
    tell(events, bit, talkers, controllers, sampled.reported);
    levels.push(level);
    sampled
}

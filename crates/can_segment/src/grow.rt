//! One more bit of a segment and its record.

ghost use Rattle.std.specs.Prelude.{◌≡◌, ◌+◌, ◌*◌, ◌<◌, ◌≤◌, length, vec_len, vec_capacity};
ghost use Rattle.can_station.specs.CurrentFaults.{IsCurrent};
ghost use Rattle.can_station.specs.DeferredNodes.{TransmitsAll};
ghost use Rattle.can_segment.specs.DeferredState.{DeferredHolds, materialized};
ghost use Rattle.can_segment.specs.Segments.{SegmentHolds, Grows};

use crate::counts_shown::show_all;
use crate::deferred::Deferred;
use crate::make_bit::make_bit;
use crate::record::Record;
use can_station::{CurrentFaults, Member, RxSink, SegmentPlan};

/// Simulates one bit at which any node may have something to do: each active node is simulated by itself. Before the
/// next bit nodes may be deferred; with `idles` also controllers that want to start.
// out of line: uneventful bits keep their values in registers
#[inline(never)]
pub(crate) fn grow<R, P: RxSink<R>>(
    rt: &R,
    plan: &SegmentPlan,
    made: &mut Record,
    talkers: &mut [Member],
    controllers: &mut [Member],
    ports: &mut [P],
    deferred: &mut Deferred,
    faults: &CurrentFaults,
    idles: bool,
)
    requires faults { IsCurrent plan.now (length made.old.levels.items) faults.now }
    requires holds { SegmentHolds plan.now made.old
        (materialized deferred.old (length made.old.levels.items) talkers.old)
        (materialized deferred.old (length made.old.levels.items) controllers.old) }
    requires is_deferred { DeferredHolds deferred.old (length made.old.levels.items) plan.now.talkers.items
        talkers.old controllers.old }
    requires still { length made.old.levels.items < plan.now.bits }
    requires ports { length ports.old ≡ length controllers.old }
    requires transmits { TransmitsAll P.transmitting
        (materialized deferred.old (length made.old.levels.items) controllers.old) ports.old }
    requires bit { length made.old.levels.items < u64.MAX }
    requires level_room { length made.old.levels.items < made.old.levels.capacity }
    requires event_room { vec_len made.old.events + 3 * (length talkers.old + length controllers.old)
        ≤ vec_capacity made.old.events }
    ensures holds { SegmentHolds plan.now made.new
        (materialized deferred.new (length made.new.levels.items) talkers.new)
        (materialized deferred.new (length made.new.levels.items) controllers.new) }
    ensures is_deferred { DeferredHolds deferred.new (length made.new.levels.items) plan.now.talkers.items
        talkers.new controllers.new }
    ensures bit { Grows P.bus_after P.bus_asked P.transmitting P.sink_after P.port_stays plan.now made.old made.new
        (materialized deferred.old (length made.old.levels.items) controllers.old)
        (materialized deferred.new (length made.new.levels.items) controllers.new) ports.old ports.new }
{
    let sampled = make_bit(
        rt,
        plan,
        talkers,
        controllers,
        ports,
        deferred,
        &mut made.levels,
        &mut made.events,
        faults,
    );
    show_all(
        &mut made.counters,
        talkers,
        controllers,
        deferred,
        sampled.counted,
    );
    deferred.regroup(
        plan.talkers.as_slice(),
        talkers,
        controllers,
        made.levels.len() as u64,
        sampled.reported,
        idles,
    );
}

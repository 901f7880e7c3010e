//! What all nodes of a segment do at a bit, the deferred ones among them.

ghost use Rattle.std.specs.Prelude.{◌≡◌, ◌≤◌, ◌<◌, ◌+◌, ◌&&◌, ℕ, false, Some, length, slice_get};
ghost use Rattle.std.specs.List.{list_all};
ghost use Rattle.can_station.specs.CurrentFaults.{IsCurrent};
ghost use Rattle.can_station.specs.Faults.{sampled_level};
ghost use Rattle.can_station.specs.Actions.{AreUneventful};
ghost use Rattle.can_station.specs.Members.{NodeSamples, PortSettles, PortStarts, TalkerStarts, drives_at, wants_at};
ghost use Rattle.can_segment.specs.Moves.{NodesMove, PortMoves};
ghost use Rattle.can_station.specs.Places.{AtBoth, AtPlaces};
ghost use Rattle.can_station.specs.DeferredNodes.{ActiveAreUneventful, ActiveWithin, HasRoom, IfActive, IfActiveBoth};
ghost use Rattle.can_station.specs.DeferredNodes.{LeavesDeferred, TransmitsAll};
ghost use Rattle.can_segment.specs.DeferredState.{DeferredHolds, materialized};
ghost use Rattle.can_station.specs.declared.member.Member.{Member};

use crate::deferred::Deferred;
use crate::shared_sample::sample_together;
use crate::step_outcome::StepOutcome;
use can_station::{
    CurrentFaults, Member, NodeFault, RxSink, SegmentPlan, Talker, driven_by_all,
    sample_controllers, sample_nodes, start_controllers, start_talkers,
};

/// Lets all nodes start, after the deferred nodes that may have something to start were resumed. Returns the AND of the
/// levels that all nodes drive.
fn start_all<R, P: RxSink<R>>(
    rt: &R,
    plan: &[Talker],
    talkers: &mut [Member],
    controllers: &mut [Member],
    ports: &mut [P],
    deferred: &mut Deferred,
    bit: u64,
) -> bool
    requires talkers { length plan.now ≡ length talkers.old }
    requires bit { bit < u64.MAX }
    requires ports { length ports.old ≡ length controllers.old }
    requires port { TransmitsAll P.transmitting (materialized deferred.old bit controllers.old) ports.old }
    requires is_deferred { DeferredHolds deferred.old bit plan.now talkers.old controllers.old }
    ensures talkers { AtPlaces (TalkerStarts bit plan.now)
        (materialized deferred.old bit talkers.old) (materialized deferred.new bit talkers.new) }
    ensures controllers { AtBoth (λ k. PortStarts P.bus_after P.bus_asked P.transmitting P.bus_stays bit)
        (materialized deferred.old bit controllers.old) (materialized deferred.new bit controllers.new) ports.old
        ports.new }
    ensures driven { result ≡ (list_all (drives_at bit) (materialized deferred.new bit talkers.new)
        && list_all (drives_at bit) (materialized deferred.new bit controllers.new)) }
    ensures is_deferred { DeferredHolds deferred.new bit plan.now talkers.new controllers.new }
    ensures left { LeavesDeferred talkers.old talkers.new × LeavesDeferred controllers.old controllers.new }
{
    deferred.resume_starters(plan, talkers, controllers, bit);
    start_talkers(talkers, plan, bit, deferred.talkers);
    start_controllers(rt, controllers, ports, bit, deferred.controllers);
    driven_by_all(
        talkers,
        controllers,
        bit,
        deferred.drive(),
        deferred.talkers,
        deferred.controllers,
    )
}

/// What has to be looked at after a bit.
#[derive(Clone, Copy)]
pub(crate) struct Sampled {
    /// Something may have been reported of a node.
    pub(crate) reported: bool,
    /// Deferred nodes counted a frame.
    pub(crate) counted: bool,
}

/// Lets the active nodes sample the line, each with its own faults. Returns whether something may have been reported of
/// one of them.
fn sample_active<R, P: RxSink<R>>(
    rt: &R,
    faults: &[NodeFault],
    talkers: &mut [Member],
    controllers: &mut [Member],
    ports: &mut [P],
    deferred: &Deferred,
    bit: u64,
    level: bool,
) -> bool
    requires ports { length ports.old ≡ length controllers.old }
    requires few { length talkers.old + length controllers.old ≤ 1000 }
    requires talkers_within { ActiveWithin deferred.now.talkers talkers.old }
    requires controllers_within { ActiveWithin deferred.now.controllers controllers.old }
    requires talker_room { HasRoom u64.MAX bit talkers.old }
    requires room { HasRoom u64.MAX bit controllers.old }
    requires port { TransmitsAll P.transmitting controllers.old ports.old }
    ensures talkers { AtPlaces (λ k. IfActive (NodeSamples 0 bit level faults.now k)) talkers.old talkers.new }
    ensures controllers { AtBoth (λ k. IfActiveBoth (PortSettles P.bus_after P.bus_asked P.transmitting P.sink_after
        P.port_stays bit (sampled_level faults.now (length talkers.old + k) bit level)))
        controllers.old controllers.new ports.old ports.new }
    ensures uneventful { result ≡ false
        → ActiveAreUneventful bit talkers.new × ActiveAreUneventful bit controllers.new }
{
    let first = talkers.len() as u32;
    let talkers_reported = sample_nodes(talkers, faults, 0, bit, level, deferred.talkers);
    let controllers_reported = sample_controllers(
        rt,
        controllers,
        ports,
        faults,
        first,
        bit,
        level,
        deferred.controllers,
    );
    talkers_reported | controllers_reported
}

/// Lets all nodes sample the line, each with its own faults. The deferred nodes are taken through the bit by the shared
/// receiver, count a frame that they acknowledge, sample the level together, or are resumed.
fn sample_all<R, P: RxSink<R>>(
    rt: &R,
    faults: &[NodeFault],
    talkers: &mut [Member],
    controllers: &mut [Member],
    ports: &mut [P],
    deferred: &mut Deferred,
    plan: &[Talker],
    bit: u64,
    level: bool,
) -> Sampled
    requires ports { length ports.old ≡ length controllers.old }
    requires few { length talkers.old + length controllers.old ≤ 1000 }
    requires talker_room { HasRoom u64.MAX bit (materialized deferred.old bit talkers.old) }
    requires room { HasRoom u64.MAX bit (materialized deferred.old bit controllers.old) }
    requires port { TransmitsAll P.transmitting (materialized deferred.old bit controllers.old) ports.old }
    requires is_deferred { DeferredHolds deferred.old bit plan.now talkers.old controllers.old }
    ensures talkers { AtPlaces (NodeSamples 0 bit level faults.now)
        (materialized deferred.old bit talkers.old) (materialized deferred.new (bit + 1) talkers.new) }
    ensures controllers { AtBoth (λ k. PortSettles P.bus_after P.bus_asked P.transmitting P.sink_after P.port_stays bit
        (sampled_level faults.now (length talkers.old + k) bit level))
        (materialized deferred.old bit controllers.old) (materialized deferred.new (bit + 1) controllers.new)
        ports.old ports.new }
    ensures uneventful { result.reported ≡ false → AreUneventful bit (materialized deferred.new (bit + 1) talkers.new)
        × AreUneventful bit (materialized deferred.new (bit + 1) controllers.new) }
    ensures is_deferred { DeferredHolds deferred.new (bit + 1) plan.now talkers.new controllers.new }
    ensures left { result.counted ≡ false
        → LeavesDeferred talkers.old talkers.new × LeavesDeferred controllers.old controllers.new }
{
    deferred.resume_faulted(faults, plan, talkers, controllers, bit);
    match deferred.step_deferred(plan, talkers, controllers, bit, level) {
        StepOutcome::Through => {
            let reported = sample_active(
                rt,
                faults,
                talkers,
                controllers,
                ports,
                deferred,
                bit,
                level,
            );
            Sampled {
                reported,
                counted: false,
            }
        }
        StepOutcome::Acknowledged => {
            let reported = sample_active(
                rt,
                faults,
                talkers,
                controllers,
                ports,
                deferred,
                bit,
                level,
            );
            deferred.count_received(talkers, controllers);
            Sampled {
                reported,
                counted: true,
            }
        }
        StepOutcome::Shares(shared) => {
            let reported = sample_together(
                rt,
                faults,
                talkers,
                controllers,
                ports,
                deferred,
                bit,
                level,
                &shared,
            );
            Sampled {
                reported,
                counted: false,
            }
        }
    }
}

/// What the nodes make of a bit: the level of the line, and what has to be looked at after it.
pub(crate) struct Moved {
    pub(crate) level: bool,
    pub(crate) sampled: Sampled,
}

/// Lets all nodes start, and sample the line, whose level it returns.
pub(crate) fn move_nodes<R, P: RxSink<R>>(
    rt: &R,
    plan: &SegmentPlan,
    talkers: &mut [Member],
    controllers: &mut [Member],
    ports: &mut [P],
    deferred: &mut Deferred,
    bit: u64,
    faults: &CurrentFaults,
) -> Moved
    requires faults { IsCurrent plan.now bit faults.now }
    requires bit { bit < u64.MAX }
    requires talkers { length talkers.old ≡ length plan.now.talkers.items }
    requires ports { length ports.old ≡ length controllers.old }
    requires few { length talkers.old + length controllers.old ≤ 1000 }
    requires talker_clocks { HasRoom u64.MAX bit (materialized deferred.old bit talkers.old) }
    requires clocks { HasRoom u64.MAX bit (materialized deferred.old bit controllers.old) }
    requires port { TransmitsAll P.transmitting (materialized deferred.old bit controllers.old) ports.old }
    requires is_deferred { DeferredHolds deferred.old bit plan.now.talkers.items talkers.old controllers.old }
    ensures nodes { NodesMove plan.now bit result.level
        (materialized deferred.old bit talkers.old) (materialized deferred.new (bit + 1) talkers.new)
        (materialized deferred.old bit controllers.old) (materialized deferred.new (bit + 1) controllers.new) }
    ensures port { (k : ℕ) (a m : Member) (p q : P) → slice_get (materialized deferred.old bit controllers.old) k ≡ Some
        a
        → slice_get (materialized deferred.new (bit + 1) controllers.new) k ≡ Some m
        → slice_get ports.old k ≡ Some p → slice_get ports.new k ≡ Some q
        → PortMoves P.bus_after P.bus_asked P.transmitting P.sink_after P.port_stays bit (wants_at bit a) m p q }
    ensures size { length ports.new ≡ length ports.old }
    ensures uneventful { result.sampled.reported ≡ false → AreUneventful bit (materialized deferred.new (bit + 1)
        talkers.new)
        × AreUneventful bit (materialized deferred.new (bit + 1) controllers.new) }
    ensures is_deferred { DeferredHolds deferred.new (bit + 1) plan.now.talkers.items talkers.new controllers.new }
    ensures left { result.sampled.counted ≡ false
        → LeavesDeferred talkers.old talkers.new × LeavesDeferred controllers.old controllers.new }
{
    let talkers_plan = plan.talkers.as_slice();
    let driven = start_all(rt, talkers_plan, talkers, controllers, ports, deferred, bit);
    let level = faults.line_level(driven);
    let here = faults.inverting();
    let sampled = sample_all(
        rt,
        here,
        talkers,
        controllers,
        ports,
        deferred,
        talkers_plan,
        bit,
        level,
    );
    Moved { level, sampled }
}

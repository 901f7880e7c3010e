//! Bits that the shared receiver cannot follow, but that mean the same to all deferred nodes: they receive a frame,
//! count something, or detect an error. The shared receiver reads the bit once, each talker makes its own transition of
//! it, by its own counters, and all nodes are active after it.

ghost use Rattle.std.specs.Prelude.{◌≡◌, ◌≤◌, ◌<◌, ◌+◌, true, false, IfSome, length};
ghost use Rattle.can_node.specs.SharedReceiver.{AllHear, AllShare, AllTake};
ghost use Rattle.can_station.specs.Actions.{AreUneventful};
ghost use Rattle.can_station.specs.Faults.{sampled_level};
ghost use Rattle.can_station.specs.Members.{NodeSamples, PortSettles};
ghost use Rattle.can_station.specs.Places.{AtBoth, AtPlaces};
ghost use Rattle.can_station.specs.DeferredNodes.{ActiveWithin, HasRoom, NoneDeferred, TransmitsAll, Unfaulted};
ghost use Rattle.can_segment.specs.DeferredState.{AreDeferred, materialized};

use crate::deferred::Deferred;
use can_node::{HeardLevel, SharedSample, TakenFrame};
use can_station::{
    Member, NodeFault, PlaceSet, RxSink, resume_each, sample_controllers, sample_nodes, share_all,
};

impl Deferred {
    /// Returns whether nodes are deferred and this bit is not the last one that has a number.
    fn may_share(&self, bit: u64) -> bool
        ensures { result ≡ true → bit < u64.MAX }
    {
        self.any_deferred && bit < u64::MAX
    }

    /// Returns the frame that each deferred node receives at this bit if it samples this level.
    pub(crate) fn taken(&self, bit: u64, level: bool) -> Option<TakenFrame>
        ensures { IfSome result (λ taken. AllTake self.now.shared_receiver level taken × (bit < u64.MAX)) }
    {
        if !self.may_share(bit) {
            return None;
        }
        self.shared_receiver.takes(level)
    }

    /// Returns what this level means to each deferred node that samples it at this bit. `None` where they receive no
    /// frame.
    pub(crate) fn heard(&self, bit: u64, level: bool) -> Option<HeardLevel>
        ensures { IfSome result (λ heard. AllHear self.now.shared_receiver level heard × (bit < u64.MAX)) }
    {
        if !self.may_share(bit) {
            return None;
        }
        self.shared_receiver.hears(level)
    }

    /// Notes that no node is deferred any more.
    fn end(&mut self, talkers: &[Member], controllers: &[Member])
        requires few_talkers { length talkers.now ≤ 64 }
        requires few_controllers { length controllers.now ≤ 64 }
        ensures talkers { ActiveWithin self.new.talkers talkers.now }
        ensures controllers { ActiveWithin self.new.controllers controllers.now }
    {
        self.any_deferred = false;
        self.find_active(talkers, controllers);
    }
}

/// Lets all nodes sample the line, which has this level, each with its own faults. A deferred talker takes what the
/// level means to all of them; a deferred controller is resumed and samples by itself, for its port learns what became
/// of the bit. Returns whether something may have been reported of a node.
pub(crate) fn sample_together<R, P: RxSink<R>>(
    rt: &R,
    faults: &[NodeFault],
    talkers: &mut [Member],
    controllers: &mut [Member],
    ports: &mut [P],
    deferred: &mut Deferred,
    bit: u64,
    level: bool,
    shared: &SharedSample,
) -> bool
    requires bit { bit < u64.MAX }
    requires ports { length ports.old ≡ length controllers.old }
    requires few { length talkers.old + length controllers.old ≤ 1000 }
    requires shares { AllShare deferred.old.shared_receiver level shared.now }
    requires any_deferred { AreDeferred deferred.old bit talkers.old }
    requires unfaulted { Unfaulted faults.now 0 bit talkers.old }
    requires within { ActiveWithin deferred.old.talkers talkers.old }
    requires few_talkers { length talkers.old ≤ 64 }
    requires few_controllers { length controllers.old ≤ 64 }
    requires talker_room { HasRoom u64.MAX bit (materialized deferred.old bit talkers.old) }
    requires room { HasRoom u64.MAX bit (materialized deferred.old bit controllers.old) }
    requires port { TransmitsAll P.transmitting (materialized deferred.old bit controllers.old) ports.old }
    ensures talkers { AtPlaces (NodeSamples 0 bit level faults.now)
        (materialized deferred.old bit talkers.old) (materialized deferred.new (bit + 1) talkers.new) }
    ensures controllers { AtBoth (λ k. PortSettles P.bus_after P.bus_asked P.transmitting P.sink_after P.port_stays bit
        (sampled_level faults.now (length talkers.old + k) bit level))
        (materialized deferred.old bit controllers.old) (materialized deferred.new (bit + 1) controllers.new)
        ports.old ports.new }
    ensures uneventful { result ≡ false → AreUneventful bit (materialized deferred.new (bit + 1) talkers.new)
        × AreUneventful bit (materialized deferred.new (bit + 1) controllers.new) }
    ensures active { NoneDeferred talkers.new × NoneDeferred controllers.new }
    ensures within { ActiveWithin deferred.new.talkers talkers.new × ActiveWithin deferred.new.controllers
        controllers.new }
    ensures fit { (length talkers.new ≤ 64) × (length controllers.new ≤ 64) }
{
    let first = talkers.len() as u32;
    let active_reported = sample_nodes(talkers, faults, 0, bit, level, deferred.talkers);
    let deferred_reported = share_all(talkers, shared, bit, level);
    resume_each(controllers, &deferred.shared_receiver, bit);
    let all = PlaceSet::of_active(controllers);
    let controllers_reported = sample_controllers(
        rt,
        controllers,
        ports,
        faults,
        first,
        bit,
        level,
        all,
    );
    deferred.end(talkers, controllers);
    active_reported | deferred_reported | controllers_reported
}

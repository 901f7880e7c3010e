//! Deferred nodes: receivers that need not be simulated one by one.
//!
//! A node that receives and is in the same state as others on its bus need not be simulated. All such nodes are
//! *deferred*: one shared receiver (`can_node::SharedReceiver`) is simulated for them. A deferred node means the node
//! that one gets by copying the shared receiver's state into it. All contracts speak of that node (`materialized`,
//! specs/DeferredState.antt), so no caller can see which nodes are deferred. A segment that defers none meets every
//! contract, and takes more time.
//!
//! A deferred node keeps two things of its own: its error counters, and what it has to send. The rest of its own state
//! is stale. It is resumed, that is, the shared receiver is copied into it (`Node::materialize`), before a bit at which
//!
//! - it may start (`resume_starters`: each talker of which a frame is due, and each controller),
//! - it has a fault of its own (`resume_faulted`),
//! - the deferred nodes cannot come through the bit together (`step_deferred`, below); where they sample a level
//!   together, only controllers are resumed, since their ports learn the outcome, or
//! - more than twice as many listening nodes are active as are deferred (`settle`, regroup.rt): then another shared
//!   receiver may serve more nodes.
//!
//! What holds before each bit is `DeferredHolds` (specs/DeferredState.antt). If a node is deferred, then
//! `any_deferred` is true, the node is switched on, nothing of its last bit is left to report, its error counters are
//! within `known`, and the shared receiver transmits no frame. No deferred talker has a frame that is due before the bit
//! `next_start`, and no controller is deferred unless `next_start` is 0. `talkers` and `controllers` contain every
//! active node.
//!
//! These affect speed only: which nodes are deferred; from which node the shared receiver was taken
//! (receiver_choice.rt); `any_deferred` true where no node is deferred; a lower `next_start`; a wider `known`; a deferred
//! node in `talkers` or `controllers`; `Segment::idles`; `asks_at_each_bit`. The opposite errors would change the
//! simulated bits, and the prover refuses them: a deferred node that does not match, an active node missing in
//! `talkers` or `controllers`, a frame that is due before `next_start`, a `known` that is too narrow.
//!
//! The caller chooses among three calls, and each of them among ways to simulate bits:
//!
//! - `Segment::idle_bits`, where no request waits for a controller: `Segment::idle_burst`, repeated. It needs an idle
//!   bus, all nodes deferred, and no talker of which a frame is due.
//! - `Segment::uneventful_bits`, where no port is needed: `transmit_burst`, then one `uneventful_level`, and again,
//!   until `uneventful_level` refuses. Where the shared receiver wants to start, `transmit_burst` calls `idle_burst`
//!   of idle_burst.rt. That needs all nodes deferred, and ends before `next_start`, so it simulates no bit if there is a controller.
//! - `Segment::bit`, always: `make_bit`. It alone asks ports, reports events and makes room in the record.
//!
//! | Way | When | Bits at once | Busy | Idle |
//! |---|---|---|---|---|
//! | `idle_burst`, either one | as above | up to 256 | | 99.6 % |
//! | `transmit_burst` | one node transmits or none, each other active node continues | many | 90 % | |
//! | `uneventful_level` | no fault, none starts, each active node continues | 1 | 5.5 % | 0.4 % |
//! | `make_bit` | always | 1 | 4.3 % | 0.01 % |
//!
//! Busy is a bus of 16 talkers at 90 % load, idle one of 16 idle talkers, 200,000 bits each (bench/draw.py; calls
//! counted by callgrind on 2026-11-30); the 90 % are both bursts.
//!
//! Both bursts are proved to be a list of single uneventful bits (`AreUneventfulBits`), `uneventful_level` to be one
//! (`IsUneventfulBit`), and an uneventful bit to be what `make_bit` does with the materialized nodes (`NodesMove`): so
//! many bits at once equal as many single steps. In `make_bit` the deferred nodes come through the bit in one of four
//! ways (`step_deferred`): all receive a frame together, the shared receiver follows the bit, all acknowledge, or the
//! bit means the same to all of them. Otherwise all are resumed.

ghost use Rattle.std.specs.Prelude.{◌≡◌, ◌+◌, ◌<◌, ◌≤◌, true, false, ℕ, length};
ghost use Rattle.can_node.specs.SharedReceiver.{AllShare};
ghost use Rattle.can_station.specs.DeferredNodes.{ActiveWithin, LeavesDeferred, NoneDeferred, Unfaulted};
ghost use Rattle.can_segment.specs.StepOutcome.{IfAcknowledged, IfShares, IfThrough};
ghost use Rattle.can_segment.specs.DeferredState.{Drives, GoesThrough, IsSame, DeferredHolds, FollowsAck};
ghost use Rattle.can_segment.specs.DeferredState.{FollowsThrough, NoneStarts, materialized};

use crate::step_outcome::StepOutcome;
use can_node::{KnownCounts, Node, SharedReceiver, SharedSample};
use can_station::{
    Member, NodeFault, PlaceSet, Talker, resume_each, resume_each_due, resume_each_faulted,
};

/// What the deferred nodes have in common. Each node says itself whether it is deferred (`Member::is_deferred`).
#[derive(Drop)]
pub(crate) struct Deferred {
    /// The state and the reader that each deferred node would have.
    pub(crate) shared_receiver: SharedReceiver,
    /// Where it is false, no node is deferred, and `shared_receiver` means nothing.
    pub(crate) any_deferred: bool,
    /// What is known of the error counters of each deferred node.
    pub(crate) known: KnownCounts,
    /// The number of a bit: before it, no deferred node has anything to start. Each deferred talker's next frame is due
    /// at it or later, and no controller is deferred, unless it is 0.
    pub(crate) next_start: u64,
    /// The places of all active talkers, and maybe of some that are deferred.
    pub(crate) talkers: PlaceSet,
    /// The places of all active controllers, and maybe of some that are deferred.
    pub(crate) controllers: PlaceSet,
}

impl Deferred {
    /// Returns the state in which none of these nodes is deferred.
    pub(crate) fn none(talkers: &[Member], controllers: &[Member]) -> Deferred
        requires { length talkers.now + length controllers.now ≤ 64 }
        ensures any_deferred { result.any_deferred ≡ false }
        ensures talkers { ActiveWithin result.talkers talkers.now }
        ensures controllers { ActiveWithin result.controllers controllers.now }
    {
        Deferred {
            shared_receiver: Node::new(0).shared_receiver(),
            any_deferred: false,
            known: KnownCounts::Any,
            next_start: 0,
            talkers: PlaceSet::of_active(talkers),
            controllers: PlaceSet::of_active(controllers),
        }
    }

    /// Returns the level that each deferred node drives at the next bit, true being recessive.
    pub(crate) fn drive(&self) -> bool
        ensures { Drives self.now result }
    {
        self.shared_receiver.drive()
    }

    /// Returns whether no deferred node wants to start at this bit, the next one, or none has anything to send at it.
    pub(crate) fn starts_none(&self, bit: u64) -> bool
        ensures { result ≡ true → NoneStarts self.now bit }
    {
        if bit < self.next_start {
            return true;
        }
        !self.shared_receiver.wants_start()
    }

    /// Looks up again which nodes are active, since some were resumed.
    pub(crate) fn find_active(&mut self, talkers: &[Member], controllers: &[Member])
        requires few_talkers { length talkers.now ≤ 64 }
        requires few_controllers { length controllers.now ≤ 64 }
        ensures same { IsSame self.old self.new }
        ensures talkers { ActiveWithin self.new.talkers talkers.now }
        ensures controllers { ActiveWithin self.new.controllers controllers.now }
    {
        self.talkers = PlaceSet::of_active(talkers);
        self.controllers = PlaceSet::of_active(controllers);
    }

    /// Resumes before this bit the deferred nodes that may have something to start at it.
    #[inline(always)]
    pub(crate) fn resume_starters(
        &mut self,
        plan: &[Talker],
        talkers: &mut [Member],
        controllers: &mut [Member],
        bit: u64,
    )
        requires plan { length plan.now ≡ length talkers.old }
        requires bit { bit < u64.MAX }
        requires holds { DeferredHolds self.old bit plan.now talkers.old controllers.old }
        ensures talkers { materialized self.new bit talkers.new ≡ materialized self.old bit talkers.old }
        ensures controllers { materialized self.new bit controllers.new ≡ materialized self.old bit controllers.old }
        ensures left { LeavesDeferred talkers.old talkers.new × LeavesDeferred controllers.old controllers.new }
        ensures holds { DeferredHolds self.new bit plan.now talkers.new controllers.new }
        ensures none { NoneStarts self.new bit }
    {
        if self.starts_none(bit) {
            return;
        }
        self.next_start = resume_each_due(talkers, plan, &self.shared_receiver, bit);
        resume_each(controllers, &self.shared_receiver, bit);
        self.find_active(talkers, controllers);
    }

    /// Resumes before this bit the deferred nodes that have a fault of their own at it.
    #[inline(always)]
    pub(crate) fn resume_faulted(
        &mut self,
        faults: &[NodeFault],
        plan: &[Talker],
        talkers: &mut [Member],
        controllers: &mut [Member],
        bit: u64,
    )
        requires few { length talkers.old + length controllers.old ≤ 1000 }
        requires holds { DeferredHolds self.old bit plan.now talkers.old controllers.old }
        ensures talkers { materialized self.new bit talkers.new ≡ materialized self.old bit talkers.old }
        ensures controllers { materialized self.new bit controllers.new ≡ materialized self.old bit controllers.old }
        ensures left { LeavesDeferred talkers.old talkers.new × LeavesDeferred controllers.old controllers.new }
        ensures holds { DeferredHolds self.new bit plan.now talkers.new controllers.new }
        ensures talkers_unfaulted { Unfaulted faults.now 0 bit talkers.new }
        ensures unfaulted { Unfaulted faults.now (length talkers.old) bit controllers.new }
    {
        if faults.is_empty() {
            return;
        }
        let first = talkers.len() as u32;
        resume_each_faulted(talkers, faults, 0, &self.shared_receiver, bit);
        resume_each_faulted(controllers, faults, first, &self.shared_receiver, bit);
        self.find_active(talkers, controllers);
    }

    /// Resumes all deferred nodes before this bit.
    pub(crate) fn resume_all(
        &mut self,
        plan: &[Talker],
        talkers: &mut [Member],
        controllers: &mut [Member],
        bit: u64,
    )
        requires holds { DeferredHolds self.old bit plan.now talkers.old controllers.old }
        ensures talkers { materialized self.new bit talkers.new ≡ materialized self.old bit talkers.old }
        ensures controllers { materialized self.new bit controllers.new ≡ materialized self.old bit controllers.old }
        ensures shared_receiver { self.new.shared_receiver ≡ self.old.shared_receiver }
        ensures talkers_active { NoneDeferred talkers.new }
        ensures controllers_active { NoneDeferred controllers.new }
        ensures holds { (next : ℕ) → DeferredHolds self.new next plan.now talkers.new controllers.new }
    {
        if !self.any_deferred {
            return;
        }
        resume_each(talkers, &self.shared_receiver, bit);
        resume_each(controllers, &self.shared_receiver, bit);
        self.any_deferred = false;
        self.find_active(talkers, controllers);
    }

    /// Returns true only if `any_deferred` is set and the shared receiver has followed a bit at which the deferred
    /// nodes, if any is left, sample this level. Otherwise nothing is changed.
    #[inline(always)]
    pub(crate) fn follows(&mut self, bit: u64, level: bool) -> bool
        ensures through { result ≡ true → FollowsThrough bit level self.old self.new }
        ensures other { result ≡ false → self.new ≡ self.old }
    {
        if !self.any_deferred {
            return false;
        }
        self.shared_receiver.follow(bit, level, self.known)
    }

    /// Takes the deferred nodes through a bit at which they sample this level: the shared receiver follows it where it
    /// can; else, where the level means the same to all of them, they have still to sample it; else they are resumed
    /// before it. The result says which.
    #[inline(always)]
    pub(crate) fn step_deferred(
        &mut self,
        plan: &[Talker],
        talkers: &mut [Member],
        controllers: &mut [Member],
        bit: u64,
        level: bool,
    ) -> StepOutcome
        requires holds { DeferredHolds self.old bit plan.now talkers.old controllers.old }
        ensures shares { IfShares result (λ shared. AllShare self.old.shared_receiver level shared × (bit < u64.MAX)) }
        ensures same { IfShares result (λ shared. (self.new ≡ self.old) × (talkers.new ≡ talkers.old)
            × (controllers.new ≡ controllers.old)) }
        ensures acknowledges { IfAcknowledged result (FollowsAck level self.old self.new
            × (talkers.new ≡ talkers.old) × (controllers.new ≡ controllers.old)) }
        ensures talkers { IfThrough result (GoesThrough self.old self.new bit level talkers.old talkers.new) }
        ensures controllers { IfThrough result (GoesThrough self.old self.new bit level
            controllers.old controllers.new) }
        ensures holds { IfThrough result (DeferredHolds self.new (bit + 1) plan.now talkers.new controllers.new) }
    {
        if let Some(taken) = self.taken(bit, level) {
            return StepOutcome::Shares(SharedSample::Takes(taken));
        }
        if self.follows(bit, level) {
            return StepOutcome::Through;
        }
        if self.acknowledges(level) {
            return StepOutcome::Acknowledged;
        }
        if let Some(heard) = self.heard(bit, level) {
            return StepOutcome::Shares(SharedSample::Hears(heard));
        }
        self.resume_all(plan, talkers, controllers, bit);
        StepOutcome::Through
    }
}

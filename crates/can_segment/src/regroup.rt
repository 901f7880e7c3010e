//! Deferring nodes: before which bit which nodes are deferred.

ghost use Rattle.std.specs.Prelude.{◌≡◌, ◌<◌, true, length};
ghost use Rattle.can_station.specs.DeferredNodes.{ActiveWithin, MayDefer, NoneDeferred};
ghost use Rattle.can_segment.specs.DeferredState.{AreDeferred, AreNotDue, ChoosesReceiver, Regroups, IsLess, Defers};
ghost use Rattle.can_segment.specs.DeferredState.{DeferredHolds};
ghost use Rattle.can_segment.specs.DeferredState.{materialized};
ghost use Rattle.can_station.specs.Places.{AtPlaces};

use crate::active::{ActiveNodes, asks_at_each_bit};
use crate::deferred::Deferred;
use crate::receiver_choice::{first_listening, one_of_many};
use can_node::KnownCounts;
use can_station::{Member, Talker, clear_actions};

impl Deferred {
    /// Defers the active nodes that match the shared receiver before this bit, and clears what the others did at the
    /// bit before, if `reported` says that something may have been reported of them. With `idles` it also defers
    /// controllers that want to start: the caller knows that no request waits for them. Materialized nodes stay alike:
    /// only what they did is cleared.
    pub(crate) fn regroup(
        &mut self,
        plan: &[Talker],
        talkers: &mut [Member],
        controllers: &mut [Member],
        bit: u64,
        reported: bool,
        idles: bool,
    )
        requires plan { length plan.now ≡ length talkers.old }
        requires holds { DeferredHolds self.old bit plan.now talkers.old controllers.old }
        ensures { Regroups bit plan.now self.old self.new talkers.old talkers.new controllers.old controllers.new }
    {
        clear_actions(talkers, reported, self.talkers);
        clear_actions(controllers, reported, self.controllers);
        if !idles && asks_at_each_bit(controllers.first()) {
            return;
        }
        // where too few match the first shared receiver, more may match one chosen by votes
        if self.defer_matching(plan, talkers, controllers, bit, false, idles) {
            self.defer_matching(plan, talkers, controllers, bit, true, idles);
        }
    }

    /// Defers the active nodes that match the shared receiver before this bit. Where no node is deferred it takes the
    /// shared receiver from a node first: from the first that listens, or, with `by_votes`, from one that many match.
    /// Returns true where more than twice as many nodes listen as are deferred: then all are active again, and another
    /// shared receiver may serve more of them.
    fn defer_matching(
        &mut self,
        plan: &[Talker],
        talkers: &mut [Member],
        controllers: &mut [Member],
        bit: u64,
        by_votes: bool,
        idles: bool,
    ) -> bool
        requires plan { length plan.now ≡ length talkers.old }
        requires holds { DeferredHolds self.old bit plan.now talkers.old controllers.old }
        ensures { Regroups bit plan.now self.old self.new talkers.old talkers.new controllers.old controllers.new }
    {
        self.choose_receiver(talkers, controllers, bit, by_votes);
        if !self.any_deferred {
            return false;
        }
        let active = self.defer_talkers(plan, talkers, bit);
        let active_too = self.defer_controllers(controllers, bit, idles);
        self.settle(plan, talkers, controllers, bit, &active, &active_too)
    }

    /// Takes the shared receiver from an active node that listens, where no node is deferred: from the first, or, with
    /// `by_votes`, from one that many others match.
    fn choose_receiver(
        &mut self,
        talkers: &[Member],
        controllers: &[Member],
        bit: u64,
        by_votes: bool,
    )
        ensures { ChoosesReceiver self.old self.new }
    {
        if self.any_deferred {
            return;
        }
        let chosen = if by_votes {
            one_of_many(talkers, controllers, bit)
        } else {
            first_listening(talkers, controllers, bit)
        };
        let Some(member) = chosen else {
            return;
        };
        member.station.node.copy_to(&mut self.shared_receiver);
        self.any_deferred = true;
        self.known = KnownCounts::Zero;
        self.next_start = u64::MAX;
    }

    /// Defers this node before this bit if it listens and matches the shared receiver, and would not be resumed at
    /// once: its next frame is due at a later bit than this one (`next_due`), or nothing is given to it (`idles`), or it
    /// may not start at this bit.
    /// Returns whether it listens and stays active.
    // so that the loops over nodes make no call
    #[inline(always)]
    fn defer_matching_node(
        &mut self,
        member: &mut Member,
        next_due: u64,
        idles: bool,
        bit: u64,
    ) -> bool
        ensures { Defers bit next_due self.old self.new member.old member.new }
    {
        if !member.listens_at(bit) {
            return false;
        }
        if !self.any_deferred || !member.station.node.matches(&self.shared_receiver) {
            return true;
        }
        // it would be resumed at once
        if next_due <= bit && !idles && self.shared_receiver.wants_start() {
            return true;
        }
        self.known = self.known.and(member.known_counts());
        self.next_start = self.next_start.min(next_due);
        member.defer();
        false
    }

    /// Defers the active talkers that match the shared receiver before this bit. Returns which talkers stay active.
    fn defer_talkers(&mut self, plan: &[Talker], members: &mut [Member], bit: u64) -> ActiveNodes
        requires plan { length plan.now ≡ length members.old }
        requires within { ActiveWithin self.old.talkers members.old }
        requires is_deferred { AreDeferred self.old bit members.old }
        requires not_due { AreNotDue self.old plan.now members.old }
        ensures less { IsLess self.old self.new }
        ensures defer_some { AtPlaces (λ k. MayDefer self.old.shared_receiver bit) members.old members.new }
        ensures is_deferred { AreDeferred self.new bit members.new }
        ensures not_due { AreNotDue self.new plan.now members.new }
        ensures active { ActiveWithin result.places members.new }
    {
        let mut active = ActiveNodes::none(members.len());
        let mut left = self.talkers;
        while let Some(place) = left.take_first() {
            let next_due = members[place].next_due(plan[place].queue.as_slice());
            let listens = self.defer_matching_node(&mut members[place], next_due, false, bit);
            active.count(&members[place], place, listens);
        }
        active
    }

    /// Defers the active controllers that match the shared receiver before this bit; with `idles` also those that want
    /// to start. Returns which controllers stay active.
    fn defer_controllers(&mut self, members: &mut [Member], bit: u64, idles: bool) -> ActiveNodes
        requires within { ActiveWithin self.old.controllers members.old }
        requires is_deferred { AreDeferred self.old bit members.old }
        requires none { 0 < self.old.next_start → NoneDeferred members.old }
        ensures less { IsLess self.old self.new }
        ensures defer_some { AtPlaces (λ k. MayDefer self.old.shared_receiver bit) members.old members.new }
        ensures is_deferred { AreDeferred self.new bit members.new }
        ensures none { 0 < self.new.next_start → NoneDeferred members.new }
        ensures active { ActiveWithin result.places members.new }
    {
        let mut active = ActiveNodes::none(members.len());
        let mut left = self.controllers;
        while let Some(place) = left.take_first() {
            let listens = self.defer_matching_node(&mut members[place], 0, idles, bit);
            active.count(&members[place], place, listens);
        }
        active
    }

    /// Keeps the places of the active nodes. Where more than twice as many nodes listen and are active as are deferred,
    /// all are resumed. Returns whether they were.
    fn settle(
        &mut self,
        plan: &[Talker],
        talkers: &mut [Member],
        controllers: &mut [Member],
        bit: u64,
        active_talkers: &ActiveNodes,
        active_controllers: &ActiveNodes,
    ) -> bool
        requires talkers { ActiveWithin active_talkers.now.places talkers.old }
        requires controllers { ActiveWithin active_controllers.now.places controllers.old }
        requires holds { DeferredHolds self.old bit plan.now talkers.old controllers.old }
        ensures talkers { materialized self.new bit talkers.new ≡ materialized self.old bit talkers.old }
        ensures controllers { materialized self.new bit controllers.new ≡ materialized self.old bit controllers.old }
        ensures holds { DeferredHolds self.new bit plan.now talkers.new controllers.new }
    {
        if active_talkers.outnumber(active_controllers) {
            self.resume_all(plan, talkers, controllers, bit);
            return true;
        }
        self.talkers = active_talkers.places;
        self.controllers = active_controllers.places;
        false
    }
}

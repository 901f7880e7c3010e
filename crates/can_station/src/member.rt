//! A node of a segment, from the bit on at which it is switched on.

ghost use Rattle.std.specs.Prelude.{◌≡◌, ℕ, ◌<◌, ◌≤◌, ◌++◌, ◌&&◌, true, false, None, List, slice_get};
ghost use Rattle.std.specs.Prelude.{if◌then◌else◌, IfSome, IfNone, Bool, ◌+◌, length, take};
ghost use Rattle.can_frame.specs.Frames.{FrameValue};
ghost use Rattle.bx_core.specs.TxBus.{BusPast, BusCall};
ghost use Rattle.can_confinement.specs.KnownCounts.{Knows};
ghost use Rattle.can_node.specs.Node.{bit_of, counters_in};
ghost use Rattle.can_station.specs.Ports.{item_of, Undone, Asks, started, started_item};
ghost use Rattle.can_station.specs.Fresh.{IsFresh};
ghost use Rattle.can_station.specs.Queues.{IsNotDueBefore};
ghost use Rattle.can_station.specs.Actions.{IsUneventful, Names, no_action};
ghost use Rattle.can_station.specs.Outcomes.{sending_after, completed_by};
ghost use Rattle.can_station.specs.DeferredNodes.{GoesAsItMay, MayGo, MayGoBy, MayResume};
ghost use Rattle.can_station.specs.DeferredNodes.{CountsReceived, KnowsDeferred, MemberGoes, Shares};
ghost use Rattle.can_station.specs.DeferredNodes.{deferred_member, cleared, resumed};
ghost use Rattle.can_station.specs.Members.{
  AreOf,
  is_on,
  wants_at,
  StartsTalking,
  StartsRequest,
  Samples,
  IsUnsettled,
  Settles,
  settled_at,
  taken_at,
  drives_at,
};

use crate::action::Action;
use crate::due_frame::DueFrame;
use crate::port::settle;
use crate::rx_sink::RxSink;
use crate::station::Station;
use can_node::{Counters, KnownCounts, Outcome, SharedReceiver, SharedSample};

/// A node of a segment, from the bit on at which it is switched on.
#[derive(Drop)]
pub struct Member {
    /// The number of its first bit.
    pub on: u64,
    /// It is deferred: a shared receiver is simulated for it. A node that is not deferred is active.
    pub is_deferred: bool,
    /// The node, and what it sends. The node of a deferred one has the state in which it was deferred.
    pub station: Station,
    /// What it did at the last bit.
    pub action: Action,
}

impl Member {
    /// Returns a node that is switched on at this bit, and is active.
    pub fn new(on: u64) -> Member
        ensures { IsFresh on result }
    {
        Member {
            on,
            is_deferred: false,
            station: Station::new(on),
            action: Action::none(),
        }
    }

    /// Copies the node's error counters, if it is active. What is shown of a deferred node stays.
    pub fn show(&self, counters: &mut Counters)
        ensures is_deferred { self.now.is_deferred ≡ true → counters.new ≡ counters.old }
        ensures active { self.now.is_deferred ≡ false → AreOf self.now counters.new }
    {
        if self.is_deferred {
            return;
        }
        *counters = self.station.node.counters();
    }

    /// Returns what is known of its error counters.
    pub fn known_counts(&self) -> KnownCounts
        ensures { Knows result (counters_in self.now.station.node) }
    {
        self.station.node.known_counts()
    }

    /// Returns whether it is active and on, and a shared receiver may stand for it before this bit.
    #[inline(always)]
    pub fn listens_at(&self, bit: u64) -> bool
        ensures active { result ≡ true → self.now.is_deferred ≡ false }
        ensures on { result ≡ true → self.now.on ≤ bit }
        ensures bit { result ≡ true → bit_of self.now.station.node ≡ bit }
    {
        if self.is_deferred || bit < self.on || self.station.node.bit() != bit {
            return false;
        }
        self.station.node.is_listening()
    }

    /// Resumes the node before this bit, if it is deferred: the shared receiver is copied into it.
    pub(crate) fn resume(&mut self, shared_receiver: &SharedReceiver, bit: u64)
        ensures { self.new ≡ resumed shared_receiver.now bit self.old }
    {
        if !self.is_deferred {
            return;
        }
        self.is_deferred = false;
        self.station.node.materialize(shared_receiver, bit);
    }

    /// Resumes the node before this bit, if it is deferred and `stays_deferred` is false.
    pub(crate) fn resume_unless(
        &mut self,
        stays_deferred: bool,
        shared_receiver: &SharedReceiver,
        bit: u64,
    )
        ensures resumes { MayResume shared_receiver.now bit self.old self.new }
        ensures active { stays_deferred ≡ false → self.new.is_deferred ≡ false }
    {
        if stays_deferred {
            return;
        }
        self.resume(shared_receiver, bit);
    }

    /// Resumes a talker before this bit, if it is deferred and the next frame of its queue is due at this bit. Returns a
    /// bit after this one: if the talker stays deferred, no frame is due before the returned bit.
    pub(crate) fn resume_due(
        &mut self,
        queue: &[DueFrame],
        shared_receiver: &SharedReceiver,
        bit: u64,
    ) -> u64
        requires { bit < u64.MAX }
        ensures resumes { MayResume shared_receiver.now bit self.old self.new }
        ensures not_due { self.new.is_deferred ≡ true
            → IsNotDueBefore queue.now self.new.station.completed result }
        ensures later { bit < result }
    {
        if !self.is_deferred {
            return u64::MAX;
        }
        let due = self.next_due(queue);
        if due <= bit {
            self.resume(shared_receiver, bit);
            return u64::MAX;
        }
        due
    }

    /// If it is deferred, it samples this level as each node does that its shared receiver stands for (`Node::take_up`,
    /// `Node::hear`), and is active then. Returns whether something may be reported of it.
    pub(crate) fn share(&mut self, shared: &SharedSample, bit: u64, level: bool) -> bool
        requires bit { bit < u64.MAX }
        requires room { self.old.is_deferred ≡ true → self.old.station.completed < u64.MAX }
        ensures shares { Shares shared.now bit level self.old self.new }
        ensures uneventful { result ≡ false → self.old.is_deferred ≡ true → IsUneventful self.new.action }
    {
        if !self.is_deferred {
            return false;
        }
        self.is_deferred = false;
        match shared {
            SharedSample::Takes(taken) => {
                self.station.node.take_up(bit);
                self.action = Action {
                    began: false,
                    sent: self.station.sending,
                    outcome: Outcome::Took {
                        start: taken.start,
                        frame: taken.frame,
                    },
                    reaped: None,
                };
                true
            }
            SharedSample::Hears(heard) => {
                let outcome = self.station.node.hear(heard, bit, level);
                self.note(outcome)
            }
        }
    }

    /// If it is deferred, it counts that it received a frame (`Node::receive`), and stays deferred. Returns what is
    /// known of its counters then.
    pub(crate) fn receive(&mut self) -> KnownCounts
        ensures counts { CountsReceived self.old self.new }
        ensures known { KnowsDeferred result self.old self.new }
    {
        if !self.is_deferred {
            return KnownCounts::Zero;
        }
        self.station.node.receive();
        self.known_counts()
    }

    /// Defers the node, and clears what it did.
    pub fn defer(&mut self)
        ensures { self.new ≡ deferred_member self.old }
    {
        self.is_deferred = true;
        self.action = Action::none();
    }

    /// Clears what it did, if it is active.
    pub(crate) fn clear_actions(&mut self)
        ensures is_deferred { self.old.is_deferred ≡ true → self.new ≡ self.old }
        ensures active { self.new.is_deferred ≡ self.old.is_deferred }
        ensures is_cleared { self.old.is_deferred ≡ false → self.new ≡ cleared self.old }
    {
        if self.is_deferred {
            return;
        }
        self.action = Action::none();
    }

    /// Returns the bit at which the next frame of a talker's queue is due: no frame is due before it. `u64::MAX` where
    /// none is left.
    pub fn next_due(&self, queue: &[DueFrame]) -> u64
        ensures { IsNotDueBefore queue.now self.now.station.completed result }
    {
        self.station.next_due(queue)
    }

    /// Lets an active talker begin the next frame of its queue at the start of this bit, if it wants to start and the
    /// frame is due.
    pub(crate) fn start_talking(&mut self, bit: u64, queue: &[DueFrame])
        ensures is_deferred { self.old.is_deferred ≡ true → self.new ≡ self.old }
        ensures active { self.new.is_deferred ≡ self.old.is_deferred }
        ensures starts { self.old.is_deferred ≡ false → StartsTalking bit self.old self.new queue.now }
    {
        if self.is_deferred || bit < self.on {
            return;
        }
        self.action.began = self.station.talk(bit, queue);
    }

    /// Lets an active controller take its next request at the start of this bit.
    pub(crate) fn start_request<R, P: RxSink<R>>(&mut self, rt: &R, bit: u64, port: &mut P)
        requires { P.transmitting port.old ≡ item_of self.old.station.sending }
        ensures is_deferred { self.old.is_deferred ≡ true → (self.new ≡ self.old) × (port.new ≡ port.old) }
        ensures active { self.new.is_deferred ≡ self.old.is_deferred }
        ensures member { self.old.is_deferred ≡ false → StartsRequest bit self.old self.new }
        ensures bus { self.old.is_deferred ≡ false → (past : BusPast) → P.bus_after port.old past
            → P.bus_after port.new (started past
            (started_item (is_on bit self.new && self.new.action.began) self.new.station.sending)) }
        ensures undone { self.old.is_deferred ≡ false → (past : BusPast) → P.bus_after port.old past
            → Undone past (started_item (is_on bit self.new && self.new.action.began) self.new.station.sending) }
        ensures asks { self.old.is_deferred ≡ false → Asks P.bus_asked (wants_at bit self.old)
            (started_item (is_on bit self.new && self.new.action.began) self.new.station.sending) port.old port.new }
        ensures transmits { P.transmitting port.new ≡ item_of self.new.station.sending }
        ensures stays { P.bus_stays port.old port.new }
    {
        if self.is_deferred || bit < self.on {
            return;
        }
        self.action.began = self.station.request(rt, port);
    }

    /// Returns the level that it drives at this bit, where deferred nodes drive `deferred_level`; a node that is not on
    /// drives recessive.
    pub(crate) fn drives_beside(&self, bit: u64, deferred_level: bool) -> bool
        ensures { result ≡ (if self.now.is_deferred then deferred_level else drives_at bit self.now) }
    {
        if self.is_deferred {
            return deferred_level;
        }
        self.drives(bit)
    }

    /// Returns the level that it drives at this bit; a node that is not on drives recessive.
    fn drives(&self, bit: u64) -> bool
        ensures { result ≡ drives_at bit self.now }
    {
        if bit < self.on {
            return true;
        }
        self.station.node.drive()
    }

    /// Lets an active node sample this level at this bit. Returns whether something may be reported of it.
    pub(crate) fn sample(&mut self, bit: u64, level: bool) -> bool
        requires bit { self.old.is_deferred ≡ false → self.old.on ≤ bit → bit_of self.old.station.node < u64.MAX }
        requires room { self.old.is_deferred ≡ false → self.old.on ≤ bit → self.old.station.completed < u64.MAX }
        ensures is_deferred { self.old.is_deferred ≡ true → self.new ≡ self.old }
        ensures active { self.new.is_deferred ≡ self.old.is_deferred }
        ensures member { self.old.is_deferred ≡ false → Samples bit level self.old self.new }
        ensures uneventful { result ≡ false → self.new.is_deferred ≡ false → self.new.on ≤ bit → IsUneventful
            self.new.action }
    {
        if self.is_deferred || bit < self.on {
            return false;
        }
        let outcome = self.station.node.sample(level);
        self.note(outcome)
    }

    /// Notes what a bit that it has sampled brought to an end. Returns whether something may be reported of it.
    #[inline(always)]
    fn note(&mut self, outcome: Outcome) -> bool
        requires { self.old.station.completed < u64.MAX }
        ensures is_deferred { self.new.is_deferred ≡ self.old.is_deferred }
        ensures on { self.new.on ≡ self.old.on }
        ensures node { self.new.station.node ≡ self.old.station.node }
        ensures began { self.new.action.began ≡ self.old.action.began }
        ensures names { Names self.new.action self.old.station.sending }
        ensures outcome { self.new.action.outcome ≡ outcome }
        ensures sending { self.new.station.sending ≡ sending_after self.old.station.sending outcome }
        ensures completed { self.new.station.completed ≡ self.old.station.completed + completed_by outcome }
        ensures reaped { self.new.action.reaped ≡ None }
        ensures uneventful { result ≡ false → IsUneventful self.new.action }
    {
        // as at most bits: the action says so already, and `sent` need not be updated
        if matches!(outcome, Outcome::Nothing) && self.action.is_uneventful() {
            return false;
        }
        self.action.sent = self.station.sending;
        self.action.outcome = outcome;
        self.action.reaped = None;
        self.station.conclude(&self.action.outcome);
        true
    }

    /// Tells the port of an active controller, which has sampled this bit, what became of it.
    pub(crate) fn settle<R, P: RxSink<R>>(&mut self, rt: &R, bit: u64, port: &mut P)
        requires { self.old.is_deferred ≡ false → IsUnsettled (P.transmitting port.old) bit self.old }
        ensures is_deferred { self.old.is_deferred ≡ true → (self.new ≡ self.old) × (port.new ≡ port.old) }
        ensures active { self.new.is_deferred ≡ self.old.is_deferred }
        ensures member { self.old.is_deferred ≡ false → Settles bit self.old self.new }
        ensures bus { self.old.is_deferred ≡ false → (past : BusPast) → P.bus_after port.old past
            → P.bus_after port.new (settled_at (is_on bit self.old) past self.new.action) }
        ensures asked { (calls : List BusCall) → P.bus_asked port.old calls → P.bus_asked port.new calls }
        ensures transmits { self.old.is_deferred ≡ false → P.transmitting port.new ≡ item_of self.new.station.sending }
        ensures sink { self.old.is_deferred ≡ false → (past : List FrameValue) → P.sink_after port.old past
            → P.sink_after port.new (past ++ taken_at (is_on bit self.old) self.new.action) }
        ensures stays { P.port_stays port.old port.new }
    {
        if self.is_deferred || bit < self.on {
            return;
        }
        if self.action.outcome == Outcome::Nothing {
            return;
        }
        let outcome = self.action.outcome;
        let sent = self.action.sent;
        self.action.reaped = settle(rt, port, sent, outcome);
    }

    /// Returns whether it is active and on, and continues with this bit if the bit has this level (`Node::goes_on`), so
    /// that nothing is reported of it.
    #[inline(always)]
    fn goes_on(&self, bit: u64, level: bool) -> bool
        ensures { result ≡ true → MayGo bit level self.now }
    {
        if self.is_deferred || bit < self.on {
            return false;
        }
        self.action.is_uneventful() && self.station.node.goes_on(level)
    }

    /// Returns whether it is active and does not continue with this bit.
    #[inline(always)]
    pub(crate) fn holds_up(&self, bit: u64, level: bool) -> bool
        ensures { result ≡ false → self.now.is_deferred ≡ false → MayGo bit level self.now }
    {
        !self.is_deferred && !self.goes_on(bit, level)
    }

    /// Lets an active node continue with this bit, at which it samples this level (`Node::go_on`).
    #[inline(always)]
    pub(crate) fn go_on(&mut self, bit: u64, level: bool)
        requires goes { self.old.is_deferred ≡ false → MayGo bit level self.old }
        requires room { self.old.is_deferred ≡ false → self.old.on ≤ bit → bit_of self.old.station.node < u64.MAX }
        ensures is_deferred { self.old.is_deferred ≡ true → self.new ≡ self.old }
        ensures goes { self.old.is_deferred ≡ false → MemberGoes bit level self.old self.new }
    {
        if self.is_deferred {
            return;
        }
        self.station.node.go_on(level);
    }
}

//! A node of a segment, with what it sends.

ghost use Rattle.std.specs.Prelude.{◌≡◌, ℕ, ◌+◌, ◌<◌, Bool, true, Option, Some, None, IsSome, IfSome, IfNone, slice_get};
ghost use Rattle.std.specs.Option.{option_map};
ghost use Rattle.can_node.specs.Histories.{Past, no_past};
ghost use Rattle.can_node.specs.Node.{StandsAfter, IsSending, bit_of, may_begin, sends_from};
ghost use Rattle.bx_core.specs.TxBus.{BusPast};
ghost use Rattle.can_station.specs.Ports.{item_of, Undone, Asks, started, started_item};
ghost use Rattle.can_station.specs.Queues.{IsNotDueBefore, due_at};
ghost use Rattle.can_station.specs.Stations.{IsStart, IsTalk, IsRequest};
ghost use Rattle.can_station.specs.Outcomes.{ends_sending, sending_after, completed_by};

use crate::due_frame::DueFrame;
use crate::event::Label;
use crate::rx_sink::RxSink;
use crate::transmission::Transmission;
use can_frame::Frame;
use can_node::{Node, Outcome};

/// A node, and what it sends.
#[derive(Drop)]
pub struct Station {
    /// What it drives, samples and counts.
    pub node: Node,
    /// What it sends, from the start of its first bit until it is over.
    pub sending: Option<Transmission>,
    /// How many of its frames were completed.
    pub completed: u64,
}

/// Returns the number of the SOF bit of what the node sends.
fn sof_of(node: &Node) -> u64
    requires { IsSome (sends_from node.now) }
    ensures { (past : Past) → StandsAfter node.now past → IsSending past (Some result) }
{
    match node.sends_from() {
        Some(start) => start,
        // it sends
        None => 0,
    }
}

impl Station {
    /// Returns a node that is switched on at this bit.
    pub(crate) fn new(on: u64) -> Station
        ensures stands { StandsAfter result.node (no_past on) }
        ensures bit { bit_of result.node ≡ on }
        ensures idle { (result.sending ≡ None) × (result.completed ≡ 0) }
    {
        Station {
            node: Node::new(on),
            sending: None,
            completed: 0,
        }
    }

    /// Lets the node begin to send this frame.
    fn begin(&mut self, frame: Frame, label: Option<Label>)
        requires { may_begin self.old.node ≡ true }
        ensures { IsStart self.old self.new frame label }
    {
        self.node.begin(frame);
        let start = sof_of(&self.node);
        self.sending = Some(Transmission {
            start,
            frame,
            label,
        });
    }

    /// Returns the next frame of a talker's queue: the first one that was not completed.
    fn next_of<'q>(&self, queue: &'q [DueFrame]) -> Option<&'q DueFrame>
        ensures { option_map (λ next. next.now) result ≡ slice_get queue.now self.now.completed }
    {
        let Ok(next) = usize::try_from(self.completed) else {
            return None;
        };
        queue.get(next)
    }

    /// Returns the bit at which the next frame of a talker's queue is due; `u64::MAX` where none is left.
    pub(crate) fn next_due(&self, queue: &[DueFrame]) -> u64
        ensures { IsNotDueBefore queue.now self.now.completed result }
    {
        match self.next_of(queue) {
            Some(next) => next.due,
            None => u64::MAX,
        }
    }

    /// Lets a talker begin the next frame of its queue at this bit, if it wants to start and the frame is due. Returns
    /// whether it began.
    pub(crate) fn talk(&mut self, bit: u64, queue: &[DueFrame]) -> bool
        ensures { IsTalk self.old self.new (due_at queue.now self.old.completed bit) result }
    {
        if !self.node.wants_start() {
            return false;
        }
        let Some(next) = self.next_of(queue) else {
            return false;
        };
        if bit < next.due {
            return false;
        }
        self.begin(next.frame, None);
        true
    }

    /// Lets a controller take its next request, if it wants to start and its mailboxes have one that may. Returns
    /// whether it began.
    pub(crate) fn request<R, P: RxSink<R>>(&mut self, rt: &R, port: &mut P) -> bool
        requires { P.transmitting port.old ≡ item_of self.old.sending }
        ensures station { IsRequest self.old self.new result }
        ensures bus { (past : BusPast) → P.bus_after port.old past
            → P.bus_after port.new (started past (started_item result self.new.sending)) }
        ensures undone { (past : BusPast) → P.bus_after port.old past
            → Undone past (started_item result self.new.sending) }
        ensures asks { Asks P.bus_asked (may_begin self.old.node) (started_item result self.new.sending)
            port.old port.new }
        ensures transmits { P.transmitting port.new ≡ item_of self.new.sending }
        ensures stays { P.bus_stays port.old port.new }
    {
        if !self.node.wants_start() {
            return false;
        }
        if !port.ready(rt) {
            return false;
        }
        let Some((route, number, frame)) = port.start(rt) else {
            return false;
        };
        self.begin(frame, Some(Label { route, number }));
        true
    }

    /// Notes an outcome of the node: what it sends may be over, or completed.
    pub(crate) fn conclude(&mut self, outcome: &Outcome)
        requires { self.old.completed < u64.MAX }
        ensures node { self.new.node ≡ self.old.node }
        ensures sending { self.new.sending ≡ sending_after self.old.sending outcome.now }
        ensures completed { self.new.completed ≡ self.old.completed + completed_by outcome.now }
    {
        if ends_sending(outcome) {
            self.sending = None;
        }
        if *outcome == Outcome::Completed {
            self.completed += 1;
        }
    }
}

/// Returns whether a transmission is over with this outcome.
fn ends_sending(outcome: &Outcome) -> bool
    ensures { result ≡ ends_sending outcome.now }
{
    matches!(
        outcome,
        Outcome::Completed | Outcome::Lost | Outcome::Errored(_) | Outcome::WentOff
    )
}

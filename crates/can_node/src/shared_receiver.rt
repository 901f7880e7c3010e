//! The shared receiver: one state and one reader in place of many nodes that receive the same.

ghost use Rattle.std.specs.Prelude.{◌≡◌, ◌≤◌, ℕ, Bool, true, false, IfSome, IfNone, length, take};
ghost use Rattle.can_node.specs.declared.node.Node.{Node};
ghost use Rattle.can_node.specs.Machine.{GoesReading, is_sending, is_taking};
ghost use Rattle.can_node.specs.Node.{driven_by, may_begin};
ghost use Rattle.can_node.specs.SharedReceiver.{Acknowledges, AllHear, AllTake, IsListening, IsUnseen, Follows};
ghost use Rattle.can_node.specs.SharedReceiver.{ReadsAlong, ReadsAlongBy};
ghost use Rattle.can_node.specs.SharedReceiver.{Idles, materialized, may_follow_by};
ghost use Rattle.can_confinement.specs.declared.known_counts.KnownCounts.{KnownCounts as KnownCountsValue};
ghost use Rattle.can_confinement.specs.declared.confinement.ErrorState.{ErrorState as ErrorStateValue};

use crate::machine::{reader_after_sof, transition_of};
use crate::outcome::Outcome;
use crate::plain_bits::{count_on, waits_on};
use crate::shared_sample::HeardLevel;
use crate::state::{Stage, State, Transition};
use crate::stays::stay_by;
use crate::taken_frame::TakenFrame;
use crate::takes::{after_taking, behind_end};
use can_confinement::{ErrorEvent, ErrorState, KnownCounts};
use can_frame::{Reader, Step};

/// The state and the reader that several nodes have in common which listen to one line and have come equally far. It
/// follows the line for them, so that none of them has to be simulated. Copying it into a node (`Node::materialize`)
/// gives the node that would have sampled each bit by itself.
#[derive(Drop)]
pub struct SharedReceiver {
    pub(crate) state: State,
    // of the frame that is being received; otherwise it means nothing
    pub(crate) reader: Reader,
}

impl SharedReceiver {
    /// Returns the level that each of the nodes drives at the next bit, true being recessive.
    pub fn drive(&self) -> bool
        ensures { IsListening self.now → (node : Node) (bit : ℕ) → result ≡ driven_by (materialized node self.now bit) }
    {
        self.state.level()
    }

    /// Returns whether each of the nodes may begin to send at the next bit.
    pub fn wants_start(&self) -> bool
        ensures { (node : Node) (bit : ℕ) → result ≡ may_begin (materialized node self.now bit) }
    {
        self.state.may_start()
    }

    /// Returns true only if the nodes are in the state bus idle: then each recessive bit leaves them so.
    pub fn is_idle(&self) -> bool
        ensures { result ≡ true → Idles self.now }
    {
        is_idle(self.state)
    }

    /// Returns whether `reads_along_by` may follow many bits: the nodes receive within the stuffed region of a frame or
    /// behind the ACK slot, and need not choose any more between receiving and sending, or continue with a recessive
    /// level in a passive error flag, or in what they wait for behind a flag or a frame.
    #[inline(always)]
    pub fn may_follow_by(&self) -> bool
        ensures { result ≡ may_follow_by self.now.state }
    {
        match self.state {
            State::Receiving {
                may_begin,
                stage,
                ..
            } => { !may_begin && (stage == Stage::Region || stage == Stage::AfterSlot) }
            state => waits_on(state),
        }
    }

    /// Follows a bit at which all of the nodes sample this level. Returns true only if none of them reports anything
    /// at it and no error counter changes; it may return false there too. `known` holds of the counters of each node:
    /// with `Zero`, receiving a frame changes none. Where it returns false, nothing is changed, and the nodes have to
    /// sample the level themselves.
    #[inline(always)]
    pub fn follow(&mut self, bit: u64, level: bool, known: KnownCounts) -> bool
        ensures follows { result ≡ true → Follows known self.old bit level self.new }
        ensures listens { IsListening self.old → IsListening self.new }
        ensures other { result ≡ false → self.new ≡ self.old }
    {
        if level && is_idle(self.state) {
            return true;
        }
        if self.state.is_in_region() {
            if self.reader.reads_on(level) {
                return true;
            }
        }
        self.transition(bit, level, known)
    }

    /// Follows the ACK slot of a frame that all of the nodes have read and whose CRC is right, if they sample a
    /// dominant level at it. Returns whether it did: then none of them reports anything, and each has still to count
    /// the frame (`Node::receive`; Bosch CAN Specification 2.0, part B, 3.2.1 DATA FRAME, ACK FIELD). Otherwise nothing
    /// is changed.
    #[inline(always)]
    pub fn acknowledge(&mut self, level: bool) -> bool
        ensures acknowledges { result ≡ true → Acknowledges self.old level self.new }
        ensures listens { result ≡ true → IsListening self.new }
        ensures other { result ≡ false → self.new ≡ self.old }
    {
        let State::Receiving {
            start,
            may_begin: _may_begin,
            stage,
        } = self.state
        else {
            return false;
        };
        if !stage.is_own_slot() || !self.reader.reads_tail(level) {
            return false;
        }
        self.state = State::receiving(start, Stage::AfterSlot);
        true
    }

    /// Follows bits at which all of the nodes drive recessive, none may begin to send, and each samples the next of
    /// these levels. Returns how many of the levels it followed: at none of these bits a node reports or counts
    /// anything. The bits are all in the stuffed region of a frame, all behind it, or all in what the nodes wait for.
    #[inline(always)]
    pub fn reads_along_by(&mut self, levels: &[bool]) -> usize
        ensures few { result ≤ length levels.now }
        ensures along { ReadsAlongBy self.old (take result levels.now) self.new }
    {
        if self.state.is_in_region() {
            return self.reader.reads_on_by(levels);
        }
        if self.state.is_taking() {
            return self.reads_end_by(levels);
        }
        self.waits_by(levels)
    }

    /// Follows the first of these levels in what the nodes wait for. Returns how many.
    fn waits_by(&mut self, levels: &[bool]) -> usize
        ensures few { result ≤ length levels.now }
        ensures along { ReadsAlongBy self.old (take result levels.now) self.new }
    {
        stay_by(&mut self.state, levels)
    }

    /// Follows the first of these levels behind the stuffed region of a frame. Returns how many.
    fn reads_end_by(&mut self, levels: &[bool]) -> usize
        ensures few { result ≤ length levels.now }
        ensures along { ReadsAlongBy self.old (take result levels.now) self.new }
    {
        for (place, level) in levels.iter().enumerate() {
            if !self.reads_end(*level) {
                return place;
            }
        }
        levels.len()
    }

    /// Returns the frame that each of the nodes receives if it samples this level at the next bit, the last but one of
    /// EOF; the node is then at the last bit of EOF (`Node::take_up`). `None` where they receive none.
    #[inline(always)]
    pub fn takes(&self, level: bool) -> Option<TakenFrame>
        ensures { IfSome result (AllTake self.now level) }
    {
        let State::Receiving {
            start,
            stage: Stage::AfterSlot,
            ..
        } = self.state
        else {
            return None;
        };
        let frame = self.reader.takes(level)?;
        Some(TakenFrame { start, frame })
    }

    /// Returns what this level means to each of the nodes at the next bit, also where it is an error or is counted.
    /// `None` where they read no frame.
    #[inline(never)]
    pub fn hears(&self, level: bool) -> Option<HeardLevel>
        ensures some { IfSome result (AllHear self.now level) }
        ensures none { IfNone result (is_taking self.now.state ≡ false) }
    {
        let State::Receiving { start, stage, .. } = self.state else {
            return None;
        };
        Some(HeardLevel::of(start, stage, &self.reader, level))
    }

    /// Follows one bit behind the stuffed region of a frame, but not its ACK slot or the bit at which it is received.
    /// Returns whether it did.
    #[inline(never)]
    fn reads_end(&mut self, level: bool) -> bool
        ensures along { result ≡ true → ReadsAlong self.old level self.new }
        ensures other { result ≡ false → self.new ≡ self.old }
    {
        let Some(behind) = behind_end(self.state) else {
            return false;
        };
        if !self.reader.reads_tail(level) {
            return false;
        }
        self.state = behind;
        true
    }

    /// Follows one bit at which the state changes, where it can. Returns whether it did.
    #[inline(never)]
    fn transition(&mut self, bit: u64, level: bool, known: KnownCounts) -> bool
        ensures follows { result ≡ true → Follows known self.old bit level self.new }
        ensures listens { IsListening self.old → IsListening self.new }
        ensures other { result ≡ false → self.new ≡ self.old }
    {
        match self.state {
            State::Receiving { start, stage, .. } => {
                if self.reads_end(level) {
                    return true;
                }
                match stage {
                    Stage::Region => self.read_on(start, stage, level, known),
                    // in the ACK slot; elsewhere behind the region the frame ends with this level
                    _ => self.read_tail(start, stage, level, known),
                }
            }
            State::Transmitting { .. } => false,
            _ => {
                if self.counts_on(level) {
                    return true;
                }
                self.go_on(bit, level, known)
            }
        }
    }

    /// Follows one bit of the stuffed region of a frame. Returns whether it did.
    fn read_on(&mut self, start: u64, stage: Stage, level: bool, known: KnownCounts) -> bool
        ensures follows { result ≡ true → (bit : ℕ) (may : Bool) → self.old.state ≡ State.Receiving start may stage
            → Follows known self.old bit level self.new }
        ensures listens { IsListening self.old → IsListening self.new }
        ensures other { result ≡ false → self.new ≡ self.old }
    {
        let mut reader = self.reader.copy();
        let step = reader.push(level);
        let Some(transition) = reading_transition(start, stage, &step, level, known) else {
            return false;
        };
        self.state = transition.state;
        self.reader = reader;
        true
    }

    /// Follows one bit behind the stuffed region, where the reader need not be copied. Returns whether it did.
    fn read_tail(&mut self, start: u64, stage: Stage, level: bool, known: KnownCounts) -> bool
        ensures follows { result ≡ true → (bit : ℕ) (may : Bool) → self.old.state ≡ State.Receiving start may stage
            → Follows known self.old bit level self.new }
        ensures listens { IsListening self.old → IsListening self.new }
        ensures other { result ≡ false → self.new ≡ self.old }
    {
        let Some(transition) = reading_transition(start, stage, &Step::Tail, level, known) else {
            return false;
        };
        if !self.reader.reads_tail(level) {
            return false;
        }
        self.state = transition.state;
        true
    }

    /// Follows one bit of a flag, a delimiter or the intermission that only counts on, as most such bits do. Returns
    /// whether it did.
    #[inline(always)]
    fn counts_on(&mut self, level: bool) -> bool
        ensures follows { result ≡ true → is_sending self.old.state ≡ false → (known : KnownCountsValue) (bit : ℕ)
            → Follows known self.old bit level self.new }
        ensures listens { result ≡ true → IsListening self.new }
        ensures other { result ≡ false → self.new ≡ self.old }
    {
        count_on(&mut self.state, level)
    }

    /// Follows one bit of nodes that neither receive nor send a frame. Returns whether it did.
    fn go_on(&mut self, bit: u64, level: bool, known: KnownCounts) -> bool
        ensures follows { result ≡ true → is_taking self.old.state ≡ false → is_sending self.old.state ≡ false
            → Follows known self.old bit level self.new }
        ensures listens { IsListening self.old → IsListening self.new }
        ensures other { result ≡ false → self.new ≡ self.old }
    {
        if !self.state.steps_alike(level) {
            return false;
        }
        // any other error state would do
        let transition = transition_of(self.state, bit, ErrorState::Active, level);
        if !is_unseen(&transition, known) {
            return false;
        }
        if transition.state.is_taking() {
            self.reader = reader_after_sof();
        }
        self.state = transition.state;
        true
    }
}

/// Returns what this answer of the reader makes of each node that reads a frame. `None` where a node reports something
/// or changes a counter. The transition is the same in each error state.
fn reading_transition(
    start: u64,
    stage: Stage,
    step: &Step,
    level: bool,
    known: KnownCounts,
) -> Option<Transition>
    ensures unseen { IfSome result (λ transition. IsUnseen known transition) }
    ensures goes { IfSome result (λ transition. (errors : ErrorStateValue) (may : Bool)
        → GoesReading (State.Receiving start may stage) errors step.now level transition) }
{
    let transition = after_taking(start, stage, ErrorState::Active, step, level);
    if !is_unseen(&transition, known) {
        return None;
    }
    Some(transition)
}

fn is_idle(state: State) -> bool
    ensures { result ≡ true → state ≡ State.BusIdle }
{
    matches!(state, State::BusIdle)
}

/// Returns whether a transition reports nothing and changes no counter of a node of whose counters `known` is known.
fn is_unseen(transition: &Transition, known: KnownCounts) -> bool
    ensures { result ≡ true → IsUnseen known transition.now }
{
    if matches!(transition.state, State::Transmitting { .. }) {
        return false;
    }
    if !matches!(transition.outcome, Outcome::Nothing) {
        return false;
    }
    match transition.event {
        None => true,
        Some(ErrorEvent::Received) => known == KnownCounts::Zero,
        Some(_) => false,
    }
}

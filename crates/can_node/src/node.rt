//! A node of one segment.

ghost use Rattle.std.specs.Prelude.{◌≡◌, ℕ, ◌+◌, ◌<◌, ◌≤◌, true, false, Bool, IsSome, IfSome, IfNone};
ghost use Rattle.std.specs.Prelude.{List, length, min, take};
ghost use Rattle.can_confinement.specs.Counters.{StandsAfter as CountersStandAfter, counts_of};
ghost use Rattle.can_node.specs.Histories.{Past, no_past, IsHistory};
ghost use Rattle.can_node.specs.SharedReceiver.{AllHear, Receives, Matches};
ghost use Rattle.can_node.specs.Machine.{IsMade, is_taking};
ghost use Rattle.can_node.specs.SharedReceiver.{materialized, shared_receiver_of, listens_in, taken_up};
ghost use Rattle.can_node.specs.declared.shared_receiver.SharedReceiver.{SharedReceiver as SharedReceiverValue};
ghost use Rattle.can_confinement.specs.KnownCounts.{Knows, known_of};
ghost use Rattle.can_node.specs.PlainBits.{EndsOut, GoesOn, GoesOnBy, MayGoOn, MayGoOnBy, count_ahead};
ghost use Rattle.can_node.specs.Node.{StandsAfter, IsSample, IsWanting, IsSending, bit_of, counters_in};
ghost use Rattle.can_node.specs.Node.{driven_by, may_begin, sends_from, with_begin};

use crate::machine::{advance, begin, make};
use crate::outcome::Outcome;
use crate::plain_bits::{go_plainly, is_plain};
use crate::shared_receiver::SharedReceiver;
use crate::shared_sample::HeardLevel;
use crate::state::{State, Transition};
use crate::stays::{count_out, go_out};
use can_confinement::{Counters, ErrorEvent, KnownCounts};
use can_frame::{Frame, Reader, Spelled};

/// A node of classical CAN, bit by bit (Bosch CAN Specification 2.0, part B; ISO 11898-1). At each bit it
/// drives a level, and then samples one, which may be any.
///
/// It keeps no list of what it did: the contracts speak of every past after which it may stand, and
/// each of these is a history by the rules of docs/NODE.md.
#[derive(Drop)]
pub struct Node {
    state: State,
    // of the frame that is being received; otherwise it means nothing
    reader: Reader,
    // of the frame that is sent; else that of the last, which may be begun again
    spelling: Spelled,
    counters: Counters,
    // the number of the next bit
    clock: u64,
}

impl Node {
    /// Returns a node that is switched on: its first bit has this number.
    pub fn new(from_bit: u64) -> Node
        ensures stands { StandsAfter result (no_past from_bit) }
        ensures bit { bit_of result ≡ from_bit }
    {
        Node {
            state: State::Integrating { ones: 0 },
            reader: Reader::new(),
            spelling: Spelled::empty(),
            counters: Counters::new(),
            clock: from_bit,
        }
    }

    /// Returns the number of the next bit.
    pub fn bit(&self) -> u64
        ensures { result ≡ bit_of self.now }
    {
        self.clock
    }

    /// Returns the error counters.
    pub fn counters(&self) -> Counters
        ensures is { result ≡ counters_in self.now }
        ensures stand { (past : Past) → StandsAfter self.now past → CountersStandAfter result past.events }
    {
        self.counters
    }

    /// Returns whether the node may begin to send at the next bit: it is idle, or has just sampled a dominant third bit
    /// of the intermission and need not wait.
    pub fn wants_start(&self) -> bool
        ensures is { result ≡ may_begin self.now }
        ensures wants { (past : Past) → StandsAfter self.now past → IsWanting past result }
    {
        self.state.may_start()
    }

    /// Returns what is known of its error counters, as much as there is to be known.
    pub fn known_counts(&self) -> KnownCounts
        ensures known { Knows result (counters_in self.now) }
        ensures most { result ≡ known_of (counts_of (counters_in self.now)) }
    {
        KnownCounts::of(self.counters)
    }

    /// Returns whether a shared receiver may stand for the node. It may not while the node transmits, is in bus off or
    /// in suspend transmission, or is in a flag, a delimiter or the intermission with the role of sender.
    pub fn is_listening(&self) -> bool
        ensures { result ≡ listens_in self.now }
    {
        self.state.listens()
    }

    /// Returns a shared receiver with the state and the reader of this node.
    pub fn shared_receiver(&self) -> SharedReceiver
        ensures { result ≡ shared_receiver_of self.now }
    {
        SharedReceiver {
            state: self.state,
            reader: self.reader.copy(),
        }
    }

    /// Copies the state and the reader of this node into this shared receiver.
    pub fn copy_to(&self, shared_receiver: &mut SharedReceiver)
        ensures { shared_receiver.new ≡ shared_receiver_of self.now }
    {
        shared_receiver.state = self.state;
        shared_receiver.reader.copy_from(&self.reader);
    }

    /// Returns true only if the node has the state of this shared receiver and, in a frame that it receives, has read
    /// the same: then that may stand for it. Returns false for a node that transmits a frame.
    pub fn matches(&self, shared_receiver: &SharedReceiver) -> bool
        ensures { result ≡ true → Matches self.now shared_receiver.now }
    {
        if self.state != shared_receiver.state {
            return false;
        }
        match self.state {
            State::Transmitting { .. } => false,
            State::Receiving { .. } => self.reader.reads_as(&shared_receiver.reader),
            _ => true,
        }
    }

    /// Copies the state and the reader of the shared receiver into this deferred node, whose next bit is then `bit`.
    /// Its error counters and its spelled frame stay as they are.
    pub fn materialize(&mut self, shared_receiver: &SharedReceiver, bit: u64)
        ensures { self.new ≡ materialized self.old shared_receiver.now bit }
    {
        self.state = shared_receiver.state;
        self.reader.copy_from(&shared_receiver.reader);
        self.clock = bit;
    }

    /// Lets a node that was deferred up to this bit receive its frame at it (`SharedReceiver::takes`). Its next bit is
    /// then `bit + 1`, the last bit of EOF.
    pub fn take_up(&mut self, bit: u64)
        requires { bit < u64.MAX }
        ensures { self.new ≡ taken_up self.old bit }
    {
        self.state = State::LastEofBit;
        self.clock = bit + 1;
    }

    /// Lets a node that was deferred up to this bit sample this level of a frame that it receives
    /// (`SharedReceiver::hears`): `materialize` and `sample` in one step. Returns what this bit brings to an end.
    pub fn hear(&mut self, heard: &HeardLevel, bit: u64, level: bool) -> Outcome
        requires { bit < u64.MAX }
        ensures bit { bit_of self.new ≡ bit + 1 }
        ensures samples { (shared_receiver : SharedReceiverValue) → AllHear shared_receiver level heard.now
            → IsSample (materialized self.old shared_receiver bit) level result self.new }
        ensures history { (past : Past) → StandsAfter self.new past → IsHistory past }
    {
        self.clock = bit + 1;
        // by reference: a transition that is written field by field and read back whole stalls on store forwarding
        match &heard.transition {
            Some(transition) => self.apply_transition(transition, &heard.reader),
            None => {
                let transition = heard.transition_in(self.counters.state(), level);
                self.apply_transition(&transition, &heard.reader)
            }
        }
    }

    /// Counts that the node received a frame, and changes nothing else. Each deferred node does so at the ACK slot
    /// (`SharedReceiver::acknowledge`; Bosch CAN Specification 2.0, part B, 8 FAULT CONFINEMENT).
    #[inline(always)]
    pub fn receive(&mut self)
        ensures { Receives self.old self.new }
    {
        self.counters.apply(ErrorEvent::Received);
    }

    /// Makes this transition of a node that reads a frame, whose reader is then the same as this one.
    fn apply_transition(&mut self, transition: &Transition, reader: &Reader) -> Outcome
        ensures made { IsMade transition.now self.old.counters self.new.counters self.new.state result }
        ensures reader { is_taking transition.now.state ≡ true → self.new.reader ≡ reader.now }
        ensures spelling { self.new.spelling ≡ self.old.spelling }
        ensures clock { self.new.clock ≡ self.old.clock }
    {
        // otherwise the reader is not used any more
        if transition.state.is_taking() {
            self.reader.copy_from(reader);
        }
        make(transition, &mut self.state, &mut self.counters)
    }

    /// Begins to send this frame at the next bit: with its SOF where the bus is idle, and with its first identifier bit
    /// where the third bit of the intermission was dominant, which is SOF then (Bosch CAN Specification 2.0, part B,
    /// 3.2.5 INTERFRAME SPACING).
    pub fn begin(&mut self, frame: Frame)
        requires { may_begin self.old ≡ true }
        ensures bit { bit_of self.new ≡ bit_of self.old }
        ensures stands { (past : Past) → StandsAfter self.old past
            → StandsAfter self.new (with_begin past frame) }
        ensures sends { IsSome (sends_from self.new) }
        ensures history { (past : Past) → StandsAfter self.new past → IsHistory past }
    {
        self.spelling.spell(&frame);
        self.state = begin(self.state, self.clock);
    }

    /// Returns the number of the SOF of the frame that the node sends, also where another node drove that SOF; `None`
    /// while it sends none.
    pub fn sends_from(&self) -> Option<u64>
        ensures is { result ≡ sends_from self.now }
        ensures sends { (past : Past) → StandsAfter self.now past → IsSending past result }
    {
        self.state.sof()
    }

    /// Returns the level that the node drives at the next bit, true being recessive.
    pub fn drive(&self) -> bool
        ensures { result ≡ driven_by self.now }
    {
        self.state.level_in(self.spelling.spelling())
    }

    /// Samples this level; the node has driven the one of `drive`. Returns what this bit brings to an end.
    pub fn sample(&mut self, level: bool) -> Outcome
        requires { bit_of self.old < u64.MAX }
        ensures bit { bit_of self.new ≡ bit_of self.old + 1 }
        ensures stands { IsSample self.old level result self.new }
        ensures history { (past : Past) → StandsAfter self.new past → IsHistory past }
    {
        let now = self.clock;
        self.clock += 1;
        advance(
            &mut self.state,
            &mut self.counters,
            &mut self.reader,
            self.spelling.spelling(),
            now,
            level,
        )
    }

    /// Returns whether the node continues with its next bit, if the bit has this level: nothing begins then, and
    /// nothing is reported or counted. It does where it sends a frame, in the ACK slot with a dominant level and
    /// elsewhere with the level that it drives, but not at the last bit; where it receives a frame whose stuffed region
    /// continues with this level; in a flag, and behind it up to the end of the intermission and of suspend
    /// transmission, with the levels that belong there; and in bus off, but at the end of the last run of eleven
    /// recessive bits.
    #[inline(always)]
    pub fn goes_on(&self, level: bool) -> bool
        ensures may { result ≡ true → MayGoOn level self.now }
        ensures all { (past : Past) → StandsAfter self.now past → MayGoOn level self.now → result ≡ true }
    {
        match self.state {
            State::Transmitting { place, .. } => self.spelling.spelling().goes_on(place, level),
            state if state.is_in_region() => self.reader.would_read_on(level),
            state => is_plain(state, level),
        }
    }

    /// Simulates one bit with which the node continues, and at which it samples this level: what `sample` does there.
    #[inline(always)]
    pub fn go_on(&mut self, level: bool)
        requires goes { MayGoOn level self.old }
        requires room { bit_of self.old < u64.MAX }
        ensures { GoesOn self.old level self.new }
    {
        let bit = self.clock;
        self.clock = bit + 1;
        if let State::Transmitting {
            start: _start,
            place: sent,
        } = &mut self.state
        {
            *sent = sent.saturating_add(1);
            return;
        }
        if self.state.is_in_region() {
            self.reader.read_on(level);
            return;
        }
        go_plainly(&mut self.state, &self.counters, bit, level);
    }

    /// Returns the levels that the node drives next in a frame that it sends, up to the ACK slot or behind it up to the
    /// last bit of EOF, and at most `most`: it continues with them one after another. None where it sends no frame.
    pub fn ahead(&self, most: usize) -> &[bool]
        ensures few { length result.now ≤ most }
        ensures may { 0 < length result.now → MayGoOnBy true result.now self.now }
        ensures all { length result.now ≡ min most (count_ahead self.now) }
    {
        match self.state {
            State::Transmitting { place, .. } => self.spelling.spelling().ahead(place, most),
            _ => &[],
        }
    }

    /// Returns with how many of these levels, one after another, the node continues without sending: in bus off or in a
    /// passive error flag, up to the end of the last run of eleven recessive levels or of the flag, or a level that it
    /// counts; with recessive ones from the end of the flags of others through a delimiter, the intermission and
    /// suspend transmission up to an idle bus, or up to the end of the intermission behind a frame or a flag of its own
    /// as sender; in the stuffed region of a frame that it receives, up to the last level or a wrong stuff bit. 0 where
    /// it is in none of these.
    pub fn stays_out(&self, levels: &[bool]) -> usize
        ensures few { result ≤ length levels.now }
        ensures may { MayGoOnBy false (take result levels.now) self.now }
        ensures all { EndsOut self.now levels.now result }
    {
        if self.state.is_in_region() {
            return self.reader.would_read_on_by(levels);
        }
        count_out(&self.state, levels)
    }

    /// Simulates bits with which the node continues, one after another, in a frame that it sends or without sending
    /// (`stays_out`): what `go_on` does with each of these levels.
    pub fn go_on_by(&mut self, levels: &[bool])
        requires goes { (is_sender : Bool) × MayGoOnBy is_sender levels.now self.old }
        requires room { bit_of self.old + length levels.now ≤ u64.MAX }
        ensures { (is_sender : Bool) → MayGoOnBy is_sender levels.now self.old
            → GoesOnBy is_sender self.old levels.now self.new }
    {
        self.clock += levels.len() as u64;
        if let State::Transmitting {
            start: _start,
            place,
        } = &mut self.state
        {
            *place = place.saturating_add(levels.len() as u8);
            return;
        }
        if self.state.is_in_region() {
            let _ = self.reader.reads_on_by(levels);
            return;
        }
        go_out(&mut self.state, levels);
    }

    /// Simulates this many bits of a frame that the node sends, with the levels that it drives next (`ahead`): what
    /// `go_on_by` does with these levels.
    pub fn go_ahead_by(&mut self, count: usize)
        requires goes { (levels : List Bool) × MayGoOnBy true levels self.old × (length levels ≡ count) }
        requires room { bit_of self.old + count ≤ u64.MAX }
        ensures { (is_sender : Bool) (levels : List Bool) → length levels ≡ count → MayGoOnBy is_sender levels self.old
            → GoesOnBy is_sender self.old levels self.new }
    {
        self.clock += count as u64;
        if let State::Transmitting {
            start: _start,
            place,
        } = &mut self.state
        {
            *place = place.saturating_add(count as u8);
        }
    }
}

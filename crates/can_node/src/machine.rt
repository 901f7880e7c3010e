//! One bit of a node: what a level makes of its state, its reader and its counters.

ghost use Rattle.std.specs.Prelude.{◌≡◌, ℕ, Bool, List, true, false, ◌∷◌, ◌++◌, []};
ghost use Rattle.can_frame.specs.Reading.{StandsAfter, IsReading, IsPush};
ghost use Rattle.can_node.specs.Machine.{Goes, Begins, Counts, IsMade, StaysInRegion, Steps};
ghost use Rattle.can_node.specs.Machine.{is_sending, is_taking, steps_alike};
ghost use Rattle.can_node.specs.PlainBits.{IsPlain, steps_plainly};

use crate::outcome::Outcome;
use crate::plain_bits::count_on;
use crate::sends::{SendPosition, after_sending};
use crate::state::{Stage, State, Transition};
use crate::takes::after_taking;
use crate::transitions::{
    after_awaiting, after_bus_off, after_delimiting, after_flag, after_idle, after_intermission,
    after_last_bit, after_passive_flag, after_suspending, after_sync, plain,
};
use can_confinement::{Counters, ErrorEvent, ErrorState};
use can_frame::{Reader, Spelling, Step};

/// Returns what a level makes of a state that neither receives nor sends a frame.
pub(crate) fn transition_of(state: State, now: u64, errors: ErrorState, level: bool) -> Transition
    ensures goes { is_taking state ≡ false → is_sending state ≡ false
        → Goes state now errors level result }
    ensures alike { steps_alike level state ≡ true → (other : ErrorState) → Goes state now other level result }
    ensures plain { steps_plainly level state ≡ true → IsPlain result }
{
    match state {
        State::Integrating { ones } => after_sync(ones, level),
        State::BusIdle => after_idle(now, level),
        // for its reader to say, and for its spelling
        State::Receiving { .. } => plain(state),
        State::Transmitting { .. } => plain(state),
        State::LastEofBit => after_last_bit(level),
        State::DominantFlag {
            kind,
            role,
            sent,
            until,
        } => after_flag(kind, role, sent, until, level),
        State::PassiveErrorFlag {
            role,
            owes,
            ones,
            zeros,
        } => { after_passive_flag(role, owes, ones, zeros, level) }
        State::AwaitingDelimiter {
            kind,
            role,
            until,
            first,
        } => after_awaiting(kind, role, until, first, level),
        State::InDelimiter { role, ones } => after_delimiting(role, ones, errors, level),
        State::InIntermission { role, ones } => after_intermission(role, ones, now, errors, level),
        State::SuspendTransmission { ones } => after_suspending(ones, now, level),
        State::BusOffRecovery { runs, ones } => after_bus_off(runs, ones, level),
    }
}

/// Returns a reader of the frame whose SOF was just sampled.
#[inline(never)]
pub(crate) fn reader_after_sof() -> Reader
    ensures stands { StandsAfter result (false ∷ []) }
    ensures reading { IsReading result }
{
    let mut reader = Reader::new();
    let _more = reader.push(false);
    reader
}

/// Makes the reader that of the frame of which these levels were sampled, SOF first, and then this one.
#[inline(never)]
fn read_behind(reader: &mut Reader, text: &[bool], level: bool)
    ensures { StandsAfter reader.new (text.now ++ level ∷ []) }
{
    reader.read_anew(text);
    let _step = reader.push(level);
}

/// Returns whether a receiver stays in the stuffed region, as at most bits of a bus.
fn stays_in_region(may_begin: bool, stage: Stage, step: &Step) -> bool
    ensures { result ≡ true → StaysInRegion may_begin stage step.now }
{
    if may_begin {
        return false;
    }
    match stage {
        Stage::Region => match step {
            Step::More => true,
            Step::StuffBit => true,
            _ => false,
        },
        _ => false,
    }
}

/// Counts an event, if there is one. Returns whether it causes bus off.
fn count(counters: &mut Counters, event: Option<ErrorEvent>) -> bool
    ensures { (events : List ErrorEvent) → Counts counters.old counters.new event result events }
{
    match event {
        None => false,
        Some(event) => {
            counters.apply(event);
            counters.is_off()
        }
    }
}

/// Makes a transition. Returns its outcome, or `WentOff` if its event causes bus off.
pub(crate) fn make(transition: &Transition, state: &mut State, counters: &mut Counters) -> Outcome
    ensures { IsMade transition.now counters.old counters.new state.new result }
{
    let went_off = count(counters, transition.event);
    if went_off {
        *state = State::BusOffRecovery { runs: 0, ones: 0 };
        return Outcome::WentOff;
    }
    *state = transition.state;
    transition.outcome
}

/// Makes the transition of a node that receives a frame, by what its reader says of the level.
#[inline(never)]
fn transition_receiving(
    state: &mut State,
    counters: &mut Counters,
    start: u64,
    stage: Stage,
    step: Step,
    level: bool,
) -> Outcome
    ensures { (may_begin : Bool) (old new : Reader) (spelling : Spelling) (now : ℕ) → IsPush old level step new
        → Steps (State.Receiving start may_begin stage) counters.old old spelling now level
        result state.new counters.new new }
{
    let errors = counters.state();
    let transition = after_taking(start, stage, errors, &step, level);
    make(&transition, state, counters)
}

/// Makes the transition of a node that sends a frame. If it loses arbitration it reads on: what it drove so far is what
/// it has read.
#[inline(never)]
fn transition_sending(
    state: &mut State,
    counters: &mut Counters,
    reader: &mut Reader,
    spelling: &Spelling,
    position: SendPosition,
    level: bool,
) -> Outcome
    ensures { (now : ℕ) → Steps (State.Transmitting position.start position.place) counters.old reader.old spelling.now
        now level result state.new counters.new reader.new }
{
    let errors = counters.state();
    let transition = after_sending(position, spelling, errors, level);
    if transition.state.is_taking() {
        read_behind(reader, spelling.before(position.place), level);
        return make(&transition, state, counters);
    }
    make(&transition, state, counters)
}

/// Makes the transition of a node that neither receives nor sends a frame. Most only count on in a flag, a delimiter or
/// the intermission.
#[inline(never)]
fn transition_outside(
    state: &mut State,
    counters: &mut Counters,
    reader: &mut Reader,
    now: u64,
    level: bool,
) -> Outcome
    ensures { (spelling : Spelling) → is_taking state.old ≡ false → is_sending state.old ≡ false
        → Steps state.old counters.old reader.old spelling now level result state.new counters.new reader.new }
{
    if count_on(state, level) {
        return Outcome::Nothing;
    }
    let errors = counters.state();
    let transition = transition_of(*state, now, errors, level);
    if transition.state.is_taking() {
        *reader = reader_after_sof();
        return make(&transition, state, counters);
    }
    make(&transition, state, counters)
}

/// Simulates one bit of a node, at which it samples this level. Returns what the bit brings to an end. If a frame is
/// received, the level is pushed to its reader. A sender reads only once it has lost arbitration: up to there it
/// samples what it drives.
///
/// At most bits of a bus there is no `Transition`. They end here, and the calls for the others stay calls, so that
/// these bits do not pay for one.
#[inline(always)]
pub(crate) fn advance(
    state: &mut State,
    counters: &mut Counters,
    reader: &mut Reader,
    spelling: &Spelling,
    now: u64,
    level: bool,
) -> Outcome
    ensures { Steps state.old counters.old reader.old spelling.now now level result state.new counters.new reader.new }
{
    match *state {
        State::Receiving {
            start,
            may_begin,
            stage,
        } => {
            let step = reader.push(level);
            if stays_in_region(may_begin, stage, &step) {
                return Outcome::Nothing;
            }
            transition_receiving(state, counters, start, stage, step, level)
        }
        State::Transmitting { start, place } => {
            if spelling.is_echo(place, level) {
                *state = State::Transmitting {
                    start,
                    place: place.saturating_add(1),
                };
                return Outcome::Nothing;
            }
            let position = SendPosition { start, place };
            transition_sending(state, counters, reader, spelling, position, level)
        }
        State::BusIdle if level => Outcome::Nothing,
        State::BusOffRecovery { runs, .. } if !level => {
            *state = State::BusOffRecovery { runs, ones: 0 };
            Outcome::Nothing
        }
        State::BusOffRecovery { runs, ones } if ones < 10 => {
            *state = State::BusOffRecovery {
                runs,
                ones: ones + 1,
            };
            Outcome::Nothing
        }
        _ => transition_outside(state, counters, reader, now, level),
    }
}

/// Returns the state of a node that begins to send at this bit. If the third bit of the intermission was dominant, SOF
/// is on the bus already.
pub(crate) fn begin(state: State, now: u64) -> State
    ensures { Begins state now result }
{
    if let State::Receiving { start, .. } = state {
        return State::Transmitting { start, place: 1 };
    }
    State::Transmitting {
        start: now,
        place: 0,
    }
}

//! What one sampled level makes of a node that sends a frame.

ghost use Rattle.std.specs.Prelude.{◌≡◌, ◌+◌, ℕ, true, false, List, Bool, [], ◌∷◌, Some, length};
ghost use Rattle.can_node.specs.Phases.{flag_of};
ghost use Rattle.can_node.specs.Episodes.{ack_events};
ghost use Rattle.can_frame.specs.Sending.{IsBitAt, level_at};
ghost use Rattle.can_node.specs.Machine.{Agrees, GoesSending, LosesAt, Signals, is_taking, listed};
ghost use Rattle.can_confinement.specs.declared.confinement.Role.TheVariants.{Sender};
ghost use Rattle.can_confinement.specs.declared.confinement.ErrorEvent.TheVariants.{SenderError};
ghost use Rattle.can_frame.specs.declared.spelling.Spelling.{Spelling};

use crate::flag::FlagKind;
use crate::outcome::{ErrorKind, Outcome};
use crate::state::{Stage, State, Transition};
use crate::transitions::{error_flag, plain};
use can_confinement::{ErrorEvent, ErrorState, Role};
use can_frame::{SendBit, Spelling};

/// How far a node has transmitted a frame.
#[derive(Clone, Copy)]
pub(crate) struct SendPosition {
    /// The number of the frame's SOF bit.
    pub(crate) start: u64,
    /// The index of the next level in the frame's wire image.
    pub(crate) place: u8,
}

/// Nobody acknowledged the frame. An error-passive node counts the error only when it samples a dominant level in its
/// flag.
fn unacknowledged(errors: ErrorState) -> Transition
    ensures flags { (text : List Bool) (later : ℕ)
        → Agrees result.state text later (flag_of errors (SenderError ∷ []) Sender) [] [] }
    ensures event { listed result.event ≡ ack_events errors }
    ensures outcome { result.outcome ≡ Outcome.Errored ErrorKind.Ack }
    ensures reads_none { is_taking result.state ≡ false }
{
    let outcome = Outcome::Errored(ErrorKind::Ack);
    let owed = None;
    match errors {
        ErrorState::Active => Transition {
            state: State::dominant_flag(FlagKind::ActiveError, Role::Sender),
            event: Some(ErrorEvent::SenderError),
            outcome,
        },
        ErrorState::Passive => Transition {
            state: State::PassiveErrorFlag {
                role: Role::Sender,
                owes: true,
                ones: 0,
                zeros: 0,
            },
            event: owed,
            outcome,
        },
        ErrorState::Off => Transition {
            state: State::BusOffRecovery { runs: 0, ones: 0 },
            event: None,
            outcome,
        },
    }
}

/// The bit differs from the bus, and neither arbitration nor stuffing explains it.
fn bit_error(errors: ErrorState) -> Transition
    ensures { Signals result (flag_of errors [] Sender) (Some SenderError) ErrorKind.Bit }
{
    Transition {
        state: error_flag(Role::Sender, errors),
        event: Some(ErrorEvent::SenderError),
        outcome: Outcome::Errored(ErrorKind::Bit),
    }
}

/// A recessive bit is dominant on the bus.
fn overruled(start: u64, bit: SendBit, errors: ErrorState) -> Transition
    ensures goes { (place : ℕ) (spelling : Spelling) → IsBitAt bit spelling place → level_at spelling place ≡ true
        → (place + 9 ≡ length spelling.levels.items → ⊥) → GoesSending start place spelling errors false result }
    ensures lost { is_taking result.state ≡ true → bit ≡ SendBit.Arbitration }
{
    match bit {
        SendBit::Arbitration => Transition {
            state: State::receiving(start, Stage::Region),
            event: None,
            outcome: Outcome::Lost,
        },
        SendBit::ArbitrationStuffBit => Transition {
            state: error_flag(Role::Sender, errors),
            event: None,
            outcome: Outcome::Errored(ErrorKind::Stuff),
        },
        SendBit::Other => bit_error(errors),
    }
}

/// Returns what a level makes of a node that sends a frame: the level is the one that the node drives, but in the ACK
/// slot; the first other one ends the frame.
pub(crate) fn after_sending(
    position: SendPosition,
    spelling: &Spelling,
    errors: ErrorState,
    level: bool,
) -> Transition
    ensures goes { GoesSending position.start position.place spelling.now errors level result }
    ensures lost { is_taking result.state ≡ true → LosesAt position.place spelling.now }
{
    let SendPosition { start, place } = position;
    if spelling.is_slot(place) {
        if level {
            return unacknowledged(errors);
        }
        return plain(State::Transmitting {
            start,
            place: place.saturating_add(1),
        });
    }
    let driven = spelling.level(place);
    if level == driven {
        if spelling.is_last(place) {
            return Transition {
                state: State::InIntermission {
                    role: Role::Sender,
                    ones: 0,
                },
                event: Some(ErrorEvent::Sent),
                outcome: Outcome::Completed,
            };
        }
        return plain(State::Transmitting {
            start,
            place: place.saturating_add(1),
        });
    }
    if driven {
        return overruled(start, spelling.bit(place), errors);
    }
    bit_error(errors)
}

//! What the reader's answer makes of a node that receives a frame.

ghost use Rattle.std.specs.Prelude.{◌≡◌, Bool};
ghost use Rattle.can_frame.specs.declared.step.Step.TheVariants.{Tail};
ghost use Rattle.can_node.specs.Machine.{GoesReading, behind_end};
ghost use Rattle.can_node.specs.Takes.{name_of};

use crate::outcome::{ErrorKind, Outcome};
use crate::state::{Stage, State, Transition};
use crate::transitions::{counted, error_flag, plain};
use can_confinement::{ErrorEvent, ErrorState, Role};
use can_frame::{FaultKind, Step};

/// Returns what a receiver calls its error.
fn error_kind(kind: FaultKind) -> ErrorKind
    ensures { result ≡ name_of kind }
{
    match kind {
        FaultKind::Stuff => ErrorKind::Stuff,
        FaultKind::Form => ErrorKind::Form,
        // the node itself drives the ACK slot dominant, so a recessive level there is a bit error
        FaultKind::Ack => ErrorKind::Bit,
        FaultKind::Crc => ErrorKind::Crc,
    }
}

/// Returns the state after a level behind the stuffed region with which the frame continues. `None` in the ACK slot,
/// and where the node reads no end of a frame.
pub(crate) fn behind_end(state: State) -> Option<State>
    ensures { result ≡ behind_end state }
{
    match state {
        State::Receiving {
            start,
            may_begin: false,
            stage: Stage::AfterRegion(right),
        } => Some(State::receiving(start, Stage::Slot(right))),
        State::Receiving {
            may_begin: false,
            stage: Stage::AfterSlot,
            ..
        } => Some(state),
        _ => None,
    }
}

/// Returns the transition of a level behind the stuffed region with which the frame continues.
fn after_tail(start: u64, stage: Stage, level: bool) -> Transition
    ensures { (errors : ErrorState) (may_start : Bool)
        → GoesReading (State.Receiving start may_start stage) errors Tail level result }
{
    match stage {
        Stage::AfterRegion(right) => plain(State::receiving(start, Stage::Slot(right))),
        Stage::Slot(right) => {
            let next = State::receiving(start, Stage::AfterSlot);
            if right {
                return counted(next, ErrorEvent::Received);
            }
            plain(next)
        }
        Stage::AfterSlot => plain(State::receiving(start, Stage::AfterSlot)),
        // the reader answers otherwise within the region
        Stage::Region => plain(State::receiving(start, Stage::AfterSlot)),
    }
}

/// Returns what the reader's answer to a level makes of a node that receives a frame.
pub(crate) fn after_taking(
    start: u64,
    stage: Stage,
    errors: ErrorState,
    step: &Step,
    level: bool,
) -> Transition
    ensures goes { (may_start : Bool)
        → GoesReading (State.Receiving start may_start stage) errors step.now level result }
    ensures alike { result.outcome ≡ Outcome.Nothing → (other : ErrorState) (may_start : Bool)
        → GoesReading (State.Receiving start may_start stage) other step.now level result }
{
    match *step {
        Step::More => plain(State::receiving(start, Stage::Region)),
        Step::StuffBit => plain(State::receiving(start, Stage::Region)),
        Step::Body(_, right) => plain(State::receiving(start, Stage::AfterRegion(right))),
        Step::Tail => after_tail(start, stage, level),
        Step::Taken(frame) => Transition {
            state: State::LastEofBit,
            event: None,
            outcome: Outcome::Took { start, frame },
        },
        Step::Fault(kind) => Transition {
            state: error_flag(Role::Receiver, errors),
            event: Some(ErrorEvent::ReceiverError),
            outcome: Outcome::Errored(error_kind(kind)),
        },
    }
}

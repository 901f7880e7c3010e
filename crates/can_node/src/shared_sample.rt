//! What one level means to several nodes that have come equally far in a frame that they receive.

ghost use Rattle.std.specs.Prelude.{◌≡◌, Bool, IfSome};
ghost use Rattle.can_confinement.specs.declared.confinement.ErrorState.{ErrorState as ErrorStateValue};
ghost use Rattle.can_frame.specs.Reading.{IsPush};
ghost use Rattle.can_node.specs.SharedReceiver.{IsHeard};
ghost use Rattle.can_node.specs.Machine.{GoesReading};

use crate::outcome::Outcome;
use crate::state::{Stage, State, Transition};
use crate::taken_frame::TakenFrame;
use crate::takes::after_taking;
use can_confinement::ErrorState;
use can_frame::{Reader, Step};

/// What a level means to nodes that receive the same: each makes its own transition, by its own counters.
#[derive(Drop)]
pub struct HeardLevel {
    // the number of the frame's SOF bit
    pub(crate) start: u64,
    // where the level stands
    pub(crate) stage: Stage,
    // what each reader answers, and the reader behind it
    pub(crate) step: Step,
    pub(crate) reader: Reader,
    // the turn, where it is the same in each error state
    pub(crate) transition: Option<Transition>,
}

/// Returns the transition of this answer of the reader, if it is the same in each error state: where nothing is
/// reported.
fn transition_of_any(start: u64, stage: Stage, step: &Step, level: bool) -> Option<Transition>
    ensures { IfSome result (λ transition. (errors : ErrorStateValue) (may : Bool)
        → GoesReading (State.Receiving start may stage) errors step.now level transition) }
{
    let transition = after_taking(start, stage, ErrorState::Active, step, level);
    match &transition.outcome {
        Outcome::Nothing => Some(transition),
        _ => None,
    }
}

impl HeardLevel {
    /// Returns what this level means in a frame that stands at this stage and was read so far by this reader. `start`
    /// is the number of its SOF bit.
    #[inline(always)]
    pub(crate) fn of(start: u64, stage: Stage, read: &Reader, level: bool) -> HeardLevel
        ensures start { result.start ≡ start }
        ensures stage { result.stage ≡ stage }
        ensures push { IsPush read.now level result.step result.reader }
        ensures heard { IsHeard level result }
    {
        let mut heard = HeardLevel {
            start,
            stage,
            step: Step::More,
            reader: Reader::new(),
            transition: None,
        };
        heard.reader.copy_from(read);
        heard.step = heard.reader.push(level);
        heard.transition = transition_of_any(start, stage, &heard.step, level);
        heard
    }

    /// Returns what the level makes of a node in this error state.
    pub(crate) fn transition_in(&self, errors: ErrorState, level: bool) -> Transition
        ensures { (may : Bool) → GoesReading (State.Receiving self.now.start may self.now.stage) errors self.now.step
            level
            result }
    {
        after_taking(self.start, self.stage, errors, &self.step, level)
    }
}

/// What a level means to each node that a shared receiver stands for (`SharedReceiver::takes`,
/// `SharedReceiver::hears`), so that each of them samples it in one step (`Node::take_up`, `Node::hear`).
#[derive(Drop)]
pub enum SharedSample {
    /// The last level of a frame that each of them receives.
    Takes(TakenFrame),
    /// Any level of a frame that each of them reads.
    Hears(HeardLevel),
}

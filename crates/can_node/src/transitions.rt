//! What one sampled level makes of a node that neither receives nor sends a frame: one function for each state.

ghost use Rattle.std.specs.Prelude.{◌≡◌, ◌<◌, ◌≤◌, ℕ, List, Bool, true, false, [], Some, None};
ghost use Rattle.can_node.specs.Phases.{suspends, flag_of};
ghost use Rattle.can_node.specs.Flags.{behind_flag};
ghost use Rattle.can_node.specs.Machine.{Agrees, Goes, is_taking, listed, uneventful};
ghost use Rattle.can_node.specs.PlainBits.{IsPlain, steps_plainly};
ghost use Rattle.can_node.specs.Episodes.{error_of};

use crate::flag::FlagKind;
use crate::outcome::{ErrorKind, Outcome};
use crate::state::{Stage, State, Transition};
use can_confinement::{ErrorEvent, ErrorState, Role};

/// Returns the transition to this state that counts nothing and reports nothing.
pub(crate) fn plain(state: State) -> Transition
    ensures { result ≡ record { state = state; event = None; outcome = Outcome.Nothing } }
{
    Transition {
        state,
        event: None,
        outcome: Outcome::Nothing,
    }
}

/// Returns the transition to this state that counts an event and reports nothing.
pub(crate) fn counted(state: State, event: ErrorEvent) -> Transition
    ensures { result ≡ record { state = state; event = Some event; outcome = Outcome.Nothing } }
{
    Transition {
        state,
        event: Some(event),
        outcome: Outcome::Nothing,
    }
}

/// Integrating: the eleventh recessive level in a row makes the node idle.
pub(crate) fn after_sync(ones: u8, level: bool) -> Transition
    ensures { (now : ℕ) (errors : ErrorState) → Goes (State.Integrating ones) now errors level result }
{
    if !level {
        return plain(State::Integrating { ones: 0 });
    }
    if ones < 10 {
        return plain(State::Integrating { ones: ones + 1 });
    }
    plain(State::BusIdle)
}

/// Idle: a dominant level is SOF.
pub(crate) fn after_idle(now: u64, level: bool) -> Transition
    ensures { (errors : ErrorState) → Goes State.BusIdle now errors level result }
{
    if level {
        return plain(State::BusIdle);
    }
    plain(State::receiving(now, Stage::Region))
}

/// The last bit of EOF of a frame that was received.
pub(crate) fn after_last_bit(level: bool) -> Transition
    ensures { (now : ℕ) (errors : ErrorState) → Goes State.LastEofBit now errors level result }
{
    if level {
        return plain(State::InIntermission {
            role: Role::Receiver,
            ones: 0,
        });
    }
    plain(State::dominant_flag(FlagKind::Overload, Role::Receiver))
}

/// An active error flag or overload flag: a recessive level counts an error, and the sixth bit is the last one.
pub(crate) fn after_flag(kind: FlagKind, role: Role, sent: u8, until: u8, level: bool) -> Transition
    ensures goes { (now : ℕ) (errors : ErrorState)
        → Goes (State.DominantFlag kind role sent until) now errors level result }
    ensures plain { level ≡ false → IsPlain result }
{
    if level {
        if sent < 5 {
            return counted(
                State::DominantFlag {
                    kind,
                    role,
                    sent: sent + 1,
                    until: 14,
                },
                ErrorEvent::FlagBit(role),
            );
        }
        return counted(State::awaiting(kind, role, 14), ErrorEvent::FlagBit(role));
    }
    if sent < 5 {
        return plain(State::DominantFlag {
            kind,
            role,
            sent: sent + 1,
            until: until.saturating_sub(1),
        });
    }
    plain(State::awaiting(kind, role, until.saturating_sub(1)))
}

/// Returns whether this level is the first dominant one of a passive error flag that owes an error for it.
fn is_due(owes: bool, zeros: u8, level: bool) -> bool
    ensures due { result ≡ true → (owes ≡ true) × (level ≡ false) × (zeros < 5) }
    ensures not_due { result ≡ false → owes ≡ true → level ≡ false → 5 ≤ zeros }
{
    if !owes || level {
        return false;
    }
    zeros < 5
}

/// Returns the state after a level of a passive error flag for which the node counts nothing: the sixth equal level in
/// a row is the last one.
pub(crate) fn behind_passive_flag(role: Role, owes: bool, ones: u8, zeros: u8, level: bool) -> State
    ensures goes { (owes ≡ true → level ≡ false → 5 ≤ zeros) → (now : ℕ) (errors : ErrorState)
        → Goes (State.PassiveErrorFlag role owes ones zeros) now errors level (uneventful result) }
    ensures reads { is_taking result ≡ false }
{
    if level {
        if ones < 5 {
            return State::PassiveErrorFlag {
                role,
                owes,
                ones: ones + 1,
                zeros: 0,
            };
        }
        return State::awaiting(FlagKind::PassiveError, role, 8);
    }
    if zeros < 5 {
        return State::PassiveErrorFlag {
            role,
            owes: false,
            ones: 0,
            zeros: zeros + 1,
        };
    }
    State::awaiting(FlagKind::PassiveError, role, 8)
}

/// A passive error flag, whose first dominant level may count an error.
pub(crate) fn after_passive_flag(
    role: Role,
    owes: bool,
    ones: u8,
    zeros: u8,
    level: bool,
) -> Transition
    ensures { (now : ℕ) (errors : ErrorState)
        → Goes (State.PassiveErrorFlag role owes ones zeros) now errors level result }
{
    if is_due(owes, zeros, level) {
        return counted(
            State::PassiveErrorFlag {
                role,
                owes: false,
                ones: 0,
                zeros: zeros + 1,
            },
            ErrorEvent::SenderError,
        );
    }
    plain(behind_passive_flag(role, owes, ones, zeros, level))
}

/// Returns the state at the start of an error flag, by the error state before the error.
pub(crate) fn error_flag(role: Role, errors: ErrorState) -> State
    ensures { (text : List Bool) (later : ℕ) → Agrees result text later (flag_of errors [] role) [] [] }
{
    match errors {
        ErrorState::Active => State::dominant_flag(FlagKind::ActiveError, role),
        ErrorState::Passive => State::PassiveErrorFlag {
            role,
            owes: false,
            ones: 0,
            zeros: 0,
        },
        ErrorState::Off => State::BusOffRecovery { runs: 0, ones: 0 },
    }
}

/// Returns what a node of this role counts at an error.
fn error_event(role: Role) -> ErrorEvent
    ensures { result ≡ error_of role }
{
    match role {
        Role::Sender => ErrorEvent::SenderError,
        Role::Receiver => ErrorEvent::ReceiverError,
    }
}

/// An error delimiter or overload delimiter from its second recessive level on.
pub(crate) fn after_delimiting(role: Role, ones: u8, errors: ErrorState, level: bool) -> Transition
    ensures goes { (now : ℕ) → Goes (State.InDelimiter role ones) now errors level result }
    ensures alike { level ≡ true → (now : ℕ) (other : ErrorState)
        → Goes (State.InDelimiter role ones) now other level result }
    ensures plain { level ≡ true → IsPlain result }
{
    if level {
        if ones < 7 {
            return plain(State::InDelimiter {
                role,
                ones: ones + 1,
            });
        }
        return plain(State::InIntermission { role, ones: 0 });
    }
    if ones < 7 {
        return Transition {
            state: error_flag(role, errors),
            event: Some(error_event(role)),
            outcome: Outcome::Errored(ErrorKind::Form),
        };
    }
    plain(State::dominant_flag(FlagKind::Overload, role))
}

/// Returns what a dominant level right behind a flag counts.
fn behind(kind: FlagKind, role: Role) -> Option<ErrorEvent>
    ensures { listed result ≡ behind_flag kind role }
{
    match role {
        Role::Sender => None,
        Role::Receiver => match kind {
            FlagKind::ActiveError => Some(ErrorEvent::ReceiverDominant),
            FlagKind::PassiveError => Some(ErrorEvent::ReceiverDominant),
            FlagKind::Overload => None,
        },
    }
}

/// Behind a flag, before the first recessive level.
pub(crate) fn after_awaiting(
    kind: FlagKind,
    role: Role,
    until: u8,
    first: bool,
    level: bool,
) -> Transition
    ensures goes { (now : ℕ) (errors : ErrorState)
        → Goes (State.AwaitingDelimiter kind role until first) now errors level result }
    ensures plain { steps_plainly level (State.AwaitingDelimiter kind role until first) ≡ true → IsPlain result }
{
    if level {
        return plain(State::InDelimiter { role, ones: 1 });
    }
    if until <= 1 {
        return counted(
            State::AwaitingDelimiter {
                kind,
                role,
                until: 8,
                first: false,
            },
            ErrorEvent::DominantRun(role),
        );
    }
    if first {
        return Transition {
            state: State::AwaitingDelimiter {
                kind,
                role,
                until: until - 1,
                first: false,
            },
            event: behind(kind, role),
            outcome: Outcome::Nothing,
        };
    }
    plain(State::AwaitingDelimiter {
        kind,
        role,
        until: until - 1,
        first: false,
    })
}

/// Returns whether a node suspends transmission after the intermission.
fn is_suspended(role: Role, errors: ErrorState) -> bool
    ensures { result ≡ suspends role errors }
{
    match role {
        Role::Receiver => false,
        Role::Sender => matches!(errors, ErrorState::Passive),
    }
}

/// Intermission: its third bit decides what follows it.
pub(crate) fn after_intermission(
    role: Role,
    ones: u8,
    now: u64,
    errors: ErrorState,
    level: bool,
) -> Transition
    ensures goes { Goes (State.InIntermission role ones) now errors level result }
    ensures alike { role ≡ Role.Receiver → (other : ErrorState)
        → Goes (State.InIntermission role ones) now other level result }
    ensures plain { level ≡ true → IsPlain result }
{
    if ones < 2 {
        if level {
            return plain(State::InIntermission {
                role,
                ones: ones + 1,
            });
        }
        return plain(State::dominant_flag(FlagKind::Overload, role));
    }
    let waits = is_suspended(role, errors);
    if !level {
        return plain(State::Receiving {
            start: now,
            may_begin: !waits,
            stage: Stage::Region,
        });
    }
    if waits {
        return plain(State::SuspendTransmission { ones: 0 });
    }
    plain(State::BusIdle)
}

/// Suspend transmission: a dominant level is the SOF of a frame that is received.
pub(crate) fn after_suspending(ones: u8, now: u64, level: bool) -> Transition
    ensures goes { (errors : ErrorState) → Goes (State.SuspendTransmission ones) now errors level result }
    ensures plain { level ≡ true → IsPlain result }
{
    if !level {
        return plain(State::receiving(now, Stage::Region));
    }
    if ones < 7 {
        return plain(State::SuspendTransmission { ones: ones + 1 });
    }
    plain(State::BusIdle)
}

/// Bus off: the 128th run of eleven recessive levels brings the node back.
pub(crate) fn after_bus_off(runs: u8, ones: u8, level: bool) -> Transition
    ensures { (now : ℕ) (errors : ErrorState) → Goes (State.BusOffRecovery runs ones) now errors level result }
{
    if !level {
        return plain(State::BusOffRecovery { runs, ones: 0 });
    }
    if ones < 10 {
        return plain(State::BusOffRecovery {
            runs,
            ones: ones + 1,
        });
    }
    if runs < 127 {
        return plain(State::BusOffRecovery {
            runs: runs + 1,
            ones: 0,
        });
    }
    Transition {
        state: State::BusIdle,
        event: Some(ErrorEvent::Recovered),
        outcome: Outcome::CameBack,
    }
}

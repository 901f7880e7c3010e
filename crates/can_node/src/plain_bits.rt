//! Uneventful bits of a node that neither receives nor sends a frame: nothing begins, nothing is reported, nothing
//! counted.

ghost use Rattle.std.specs.Prelude.{◌≡◌, ℕ, Bool, true, false};
ghost use Rattle.can_confinement.specs.declared.confinement.Role.{Role as RoleValue};
ghost use Rattle.can_confinement.specs.declared.counters.Counters.{Counters as CountersValue};
ghost use Rattle.can_node.specs.PlainBits.{LeavesPlainly, is_plain, out_behind, overlooks, stays_out};
ghost use Rattle.can_node.specs.Machine.{is_sending};

use crate::machine::transition_of;
use crate::state::{State, is_receiver};
use crate::transitions::behind_passive_flag;
use can_confinement::{Counters, Role};

/// Returns whether a dominant sample behind a flag counts nothing: it is not the first one behind a receiver's flag,
/// nor the last of a run that is counted.
#[inline(always)]
fn overlooks(role: Role, until: u8, first: bool) -> bool
    ensures { result ≡ overlooks role until first }
{
    until >= 2 && !(first && is_receiver(role))
}

/// Returns whether nothing begins, is reported or is counted with this level in this state, in which no frame is
/// received or sent.
#[inline(always)]
pub(crate) fn is_plain(state: State, level: bool) -> bool
    ensures { result ≡ is_plain level state }
{
    match state {
        State::BusOffRecovery { runs, ones } => ones <= 9 || !level || runs <= 126,
        State::PassiveErrorFlag { owes, .. } => level || !owes,
        State::DominantFlag { .. } => !level,
        State::AwaitingDelimiter {
            role,
            until,
            first,
            ..
        } => level || overlooks(role, until, first),
        State::InDelimiter { .. } => level,
        State::InIntermission { .. } => level,
        State::SuspendTransmission { .. } => level,
        _ => false,
    }
}

/// Counts a dominant level of an active error flag or overload flag, or one behind it that counts no error and is not
/// the first. Returns whether it did; where the flag ends with this bit, and elsewhere, nothing is changed.
fn flag_on(state: &mut State) -> bool
    ensures counted { result ≡ true → (counters : CountersValue) (now : ℕ)
        → LeavesPlainly state.old counters now false state.new }
    ensures sends_none { result ≡ true → is_sending state.new ≡ false }
    ensures other { result ≡ false → state.new ≡ state.old }
{
    if let State::DominantFlag {
        kind: _kind,
        role: _role,
        sent,
        until,
    } = state
    {
        if *sent < 5 {
            *sent += 1;
            *until = until.saturating_sub(1);
            return true;
        }
        return false;
    }
    // where it waits for the flags of others to end
    if let State::AwaitingDelimiter {
        kind: _kind,
        role: _role,
        until,
        first,
    } = state
    {
        if !*first && *until >= 2 {
            *until -= 1;
            return true;
        }
    }
    false
}

/// Returns whether a node in this state continues to wait with a recessive level (`stay_on`).
#[inline(always)]
pub(crate) fn waits_on(state: State) -> bool
    ensures { result ≡ stays_out true state }
{
    match state {
        State::BusOffRecovery { runs, ones } => ones <= 9 || runs <= 126,
        State::PassiveErrorFlag { ones, .. } => ones <= 4,
        State::AwaitingDelimiter { .. } => true,
        State::InDelimiter { .. } => true,
        State::InIntermission { role, ones } => ones <= 1 || is_receiver(role),
        State::SuspendTransmission { .. } => true,
        _ => false,
    }
}

/// Counts this level in bus off. Returns whether it did: not where it ends the last of 128 runs of eleven recessive
/// levels.
#[inline(always)]
fn stay_off(runs: &mut u8, ones: &mut u8, level: bool) -> bool
    ensures stays { result ≡ true → (stays_out level (State.BusOffRecovery runs.old ones.old) ≡ true)
        × (State.BusOffRecovery runs.new ones.new ≡ out_behind (State.BusOffRecovery runs.old ones.old) level) }
    ensures ends { result ≡ false → stays_out level (State.BusOffRecovery runs.old ones.old) ≡ false }
    ensures other { result ≡ false → (runs.new ≡ runs.old) × (ones.new ≡ ones.old) }
{
    if !level {
        *ones = 0;
        return true;
    }
    if *ones <= 9 {
        *ones += 1;
        return true;
    }
    if *runs <= 126 {
        *runs += 1;
        *ones = 0;
        return true;
    }
    false
}

/// Continues in place with a recessive level, behind a flag, in a delimiter, in the intermission or in suspend
/// transmission (`out_behind`). Returns whether it did; elsewhere nothing is changed.
#[inline(always)]
fn wait_on(state: &mut State) -> bool
    requires not_off { (runs ones : ℕ) → state.old ≡ State.BusOffRecovery runs ones → ⊥ }
    requires no_flag { (role : RoleValue) (owes : Bool) (ones zeros : ℕ)
        → state.old ≡ State.PassiveErrorFlag role owes ones zeros → ⊥ }
    ensures stays { result ≡ true → (stays_out true state.old ≡ true) × (state.new ≡ out_behind state.old true) }
    ensures ends { result ≡ false → stays_out true state.old ≡ false }
    ensures other { result ≡ false → state.new ≡ state.old }
{
    if let State::InDelimiter { role, ones } = state {
        if *ones <= 6 {
            *ones += 1;
            return true;
        }
        *state = State::InIntermission {
            role: *role,
            ones: 0,
        };
        return true;
    }
    if let State::InIntermission { role, ones } = state {
        if *ones <= 1 {
            *ones += 1;
            return true;
        }
        if is_receiver(*role) {
            *state = State::BusIdle;
            return true;
        }
        return false;
    }
    if let State::AwaitingDelimiter {
        kind: _kind,
        role,
        until: _until,
        first: _first,
    } = state
    {
        *state = State::InDelimiter {
            role: *role,
            ones: 1,
        };
        return true;
    }
    if let State::SuspendTransmission { ones } = state {
        if *ones <= 6 {
            *ones += 1;
            return true;
        }
        *state = State::BusIdle;
        return true;
    }
    false
}

/// Continues in place with this level in such a state, or in bus off or a passive error flag (`out_behind`). Returns
/// whether it did; elsewhere nothing is changed.
#[inline(always)]
pub(crate) fn stay_on(state: &mut State, level: bool) -> bool
    ensures stays { result ≡ true → (stays_out level state.old ≡ true) × (state.new ≡ out_behind state.old level) }
    ensures ends { result ≡ false → stays_out level state.old ≡ false }
    ensures other { result ≡ false → state.new ≡ state.old }
{
    if let State::BusOffRecovery { runs, ones } = state {
        return stay_off(runs, ones, level);
    }
    if let State::PassiveErrorFlag {
        role: _role,
        owes,
        ones,
        zeros,
    } = state
    {
        if level && *ones <= 4 {
            *ones += 1;
            *zeros = 0;
            return true;
        }
        if !level && !*owes && *zeros <= 4 {
            *ones = 0;
            *zeros += 1;
            return true;
        }
        return false;
    }
    if !level {
        return false;
    }
    wait_on(state)
}

/// Continues with this level in bus off, in a passive error flag or in what the node waits for (`stay_on`), or counts a
/// dominant level of an active error flag or overload flag or behind it. Returns whether it did; elsewhere nothing is
/// changed.
pub(crate) fn count_on(state: &mut State, level: bool) -> bool
    ensures counted { result ≡ true → (counters : CountersValue) (now : ℕ)
        → LeavesPlainly state.old counters now level state.new }
    ensures sends_none { result ≡ true → is_sending state.new ≡ false }
    ensures ends { result ≡ false → stays_out level state.old ≡ false }
    ensures other { result ≡ false → state.new ≡ state.old }
{
    if stay_on(state, level) {
        return true;
    }
    if level {
        return false;
    }
    flag_on(state)
}

/// Simulates one uneventful bit of a node in such a state, at which it samples this level.
#[inline(always)]
pub(crate) fn go_plainly(state: &mut State, counters: &Counters, now: u64, level: bool)
    ensures { is_plain level state.old ≡ true → LeavesPlainly state.old counters.now now level state.new }
{
    if count_on(state, level) {
        return;
    }
    *state = match *state {
        State::PassiveErrorFlag {
            role,
            owes,
            ones,
            zeros,
        } => { behind_passive_flag(role, owes, ones, zeros, level) }
        other => transition_of(other, now, counters.state(), level).state,
    };
}

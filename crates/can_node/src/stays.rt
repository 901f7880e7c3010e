//! Many levels at once for a node that neither receives nor sends: how many it continues with, and its state after
//! them.

ghost use Rattle.std.specs.Prelude.{◌≡◌, ◌<◌, ◌≤◌, ◌+◌, ◌*◌, ℕ, true, false, length, not, take, if◌then◌else◌};
ghost use Rattle.can_confinement.specs.declared.confinement.Role.{Role as RoleValue};
ghost use Rattle.can_node.specs.PlainBits.{StaysBy, StaysNoLonger, StaysOut, out_behind_all, stays_out};

use crate::plain_bits::stay_on;
use crate::state::State;

/// With how many levels a passive error flag goes on, and how many recessive and how many dominant ones stand at its
/// end then.
#[derive(Clone, Copy)]
struct FlagStay {
    count: usize,
    ones: u8,
    zeros: u8,
}

/// A number of whole runs of eleven recessive levels, and a number of levels of the next run.
#[derive(Clone, Copy)]
struct Runs {
    whole: u8,
    ones: u8,
}

/// Returns a count of equal levels after one more level: one more if `is_such`, else 0.
#[inline(always)]
fn counted(count: u8, is_such: bool) -> u8
    requires { is_such ≡ true → count < 255 }
    ensures { result ≡ (if is_such then count + 1 else 0) }
{
    if is_such { count + 1 } else { 0 }
}

/// Returns true only if a node in bus off stays there with this many levels, whatever they are: the last of 128 runs of
/// eleven recessive levels is farther away.
#[inline(always)]
fn is_far(runs: u8, ones: u8, levels: usize) -> bool
    ensures { result ≡ true → 11 * runs + ones + levels ≤ 1407 }
{
    levels <= 1407 && 11 * usize::from(runs) + usize::from(ones) + levels <= 1407
}

/// Returns the state after these levels of a node in bus off that has seen this many whole runs, and this many levels
/// of the next.
fn off_behind_all(runs: u8, ones: u8, levels: &[bool]) -> Runs
    requires { 11 * runs + ones + length levels.now ≤ 1407 }
    ensures { State.BusOffRecovery result.whole result.ones
        ≡ out_behind_all (State.BusOffRecovery runs ones) levels.now }
{
    let mut whole = runs;
    let mut run = ones;
    for level in levels {
        // rare, so that no branch on a level is mispredicted
        if run > 9 && *level {
            whole += 1;
            run = 0;
        } else {
            run = counted(run, *level);
        }
    }
    Runs { whole, ones: run }
}

/// Returns whether this level ends a passive error flag, or is counted.
#[inline(always)]
fn ends_flag(owes: bool, ones: u8, zeros: u8, level: bool) -> bool
    ensures stays { (role : RoleValue)
        → result ≡ not (stays_out level (State.PassiveErrorFlag role owes ones zeros)) }
    ensures ones { result ≡ false → level ≡ true → ones ≤ 4 }
    ensures zeros { result ≡ false → level ≡ false → zeros ≤ 4 }
{
    // no branch on the level, which would be mispredicted
    (level & (ones > 4)) | (!level & (owes | (zeros > 4)))
}

/// Returns with how many of these levels a passive error flag continues, and how it ends then.
fn stay_flagging(owes: bool, ones: u8, zeros: u8, levels: &[bool]) -> FlagStay
    ensures by { (role : RoleValue) → StaysBy (State.PassiveErrorFlag role owes ones zeros) levels.now result.count
        (State.PassiveErrorFlag role owes result.ones result.zeros) }
    ensures ends { (role : RoleValue)
        → StaysNoLonger (State.PassiveErrorFlag role owes ones zeros) levels.now result.count }
{
    let mut recessive = ones;
    let mut dominant = zeros;
    for (place, level) in levels.iter().enumerate() {
        if ends_flag(owes, recessive, dominant, *level) {
            return FlagStay {
                count: place,
                ones: recessive,
                zeros: dominant,
            };
        }
        recessive = counted(recessive, *level);
        dominant = counted(dominant, !*level);
    }
    FlagStay {
        count: levels.len(),
        ones: recessive,
        zeros: dominant,
    }
}

/// Continues with the first of these levels, bit by bit, and updates the state. Returns how many.
fn stay_waiting(state: &mut State, levels: &[bool]) -> usize
    ensures by { StaysBy state.old levels.now result state.new }
    ensures ends { StaysNoLonger state.old levels.now result }
{
    for (place, level) in levels.iter().enumerate() {
        if !stay_on(state, *level) {
            return place;
        }
    }
    levels.len()
}

/// Continues with the first of these levels and updates the state; passive error flags, which last long, have a loop of
/// their own. Returns how many.
pub(crate) fn stay_by(state: &mut State, levels: &[bool]) -> usize
    ensures by { StaysBy state.old levels.now result state.new }
    ensures ends { StaysNoLonger state.old levels.now result }
{
    // in place: a state that is written field by field and read back whole stalls on store forwarding
    if let State::PassiveErrorFlag {
        role: _role,
        owes,
        ones,
        zeros,
    } = state
    {
        let stay = stay_flagging(*owes, *ones, *zeros, levels);
        *ones = stay.ones;
        *zeros = stay.zeros;
        return stay.count;
    }
    stay_waiting(state, levels)
}

/// Returns with how many of these levels a node in this state continues. Bus off lasts long, and mostly it is seen at
/// once that it continues with all.
pub(crate) fn count_out(state: &State, levels: &[bool]) -> usize
    ensures few { result ≤ length levels.now }
    ensures stays { StaysOut state.now (take result levels.now) }
    ensures ends { StaysNoLonger state.now levels.now result }
{
    match *state {
        State::BusOffRecovery { runs, ones } if is_far(runs, ones, levels.len()) => levels.len(),
        State::PassiveErrorFlag {
            owes,
            ones,
            zeros,
            ..
        } => { stay_flagging(owes, ones, zeros, levels).count }
        state => {
            let mut next = state;
            stay_waiting(&mut next, levels)
        }
    }
}

/// Continues with all of these levels, and updates the state.
pub(crate) fn go_out(state: &mut State, levels: &[bool])
    ensures { StaysOut state.old levels.now → state.new ≡ out_behind_all state.old levels.now }
{
    if let State::BusOffRecovery { runs, ones } = state {
        if is_far(*runs, *ones, levels.len()) {
            let behind = off_behind_all(*runs, *ones, levels);
            *runs = behind.whole;
            *ones = behind.ones;
            return;
        }
    }
    let _ = stay_by(state, levels);
}

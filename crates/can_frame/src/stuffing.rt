//! Bit stuffing of a text of levels (Bosch CAN Specification 2.0, part B, 6 CODING).

ghost use Rattle.std.specs.Prelude.{◌≤◌, ◌*◌, ◌+◌, ◌∷◌, ◌++◌, [], Bool, List, length};
ghost use Rattle.can_frame.specs.Stuffing.{Stuffs};
ghost use Rattle.can_frame.specs.StuffingSteps.{IsStuffing};

use crate::level_run::LevelRun;
use arrayvec::ArrayVec;

/// The text with a complementary level after each five equal ones, stuff bits counted.
pub fn stuff(text: &[bool]) -> ArrayVec<bool, 160>
    requires { length text.now ≤ 120 }
    ensures stuffs { Stuffs result.items text.now }
    ensures room { 4 * length result.items ≤ 5 * length text.now }
{
    let mut out = ArrayVec::new();
    // no field of what is written to, so that it stays in registers
    let mut run = LevelRun::new();
    for level in text {
        push_stuffed(&mut out, &mut run, *level);
    }
    out
}

/// Adds a level of the text to the stuffed text, which ends in this run, and its opposite where it is the fifth of a
/// kind.
#[inline(always)]
fn push_stuffed(out: &mut ArrayVec<bool, 160>, run: &mut LevelRun, level: bool)
    requires { length out.old.items + 2 ≤ 160 }
    ensures { (text : List Bool) → IsStuffing out.old.items run.old text
        → IsStuffing out.new.items run.new (text ++ level ∷ []) }
{
    out.push(level);
    run.push(level);
    if run.is_full() {
        out.push(!level);
        run.push(!level);
    }
}

//! What a reader would answer, without a push.

ghost use Rattle.std.specs.Prelude.{◌≡◌, ◌≤◌, Bool, true, false, IfSome, List, length, take};
ghost use Rattle.can_frame.specs.Reading.{GoesOnNoLonger, GoesOnWithAll, IsReading, MayReadOn, MayTake, StandsAfter};

use crate::frame::Frame;
use crate::reader::{Place, Reader};
use crate::step::Step;
use crate::tail::tail_step;

impl Reader {
    /// Whether the stuffed region goes on with this level: `push` would answer `More` or `StuffBit`.
    #[inline(never)]
    pub fn would_read_on(&self, level: bool) -> bool
        ensures on { result ≡ true → MayReadOn level self.now }
        ensures other { result ≡ false → (text : List Bool) → IsReading self.now → StandsAfter self.now text
            → MayReadOn level self.now → ⊥ }
    {
        if self.may_read_on(level) {
            return true;
        }
        match self.copy().push(level) {
            Step::More => true,
            Step::StuffBit => true,
            _ => false,
        }
    }

    /// So, seen without a copy, but for the first level and the last ones.
    fn may_read_on(&self, level: bool) -> bool
        ensures { result ≡ true → MayReadOn level self.now }
    {
        // how the text would end
        let mut run = self.run;
        run.push(level);
        self.wants_data() || self.wants_stuff_bit(level)
    }

    /// With how many of these levels, one after another, the stuffed region goes on: `reads_on_by` would read so many.
    pub fn would_read_on_by(&self, levels: &[bool]) -> usize
        ensures few { result ≤ length levels.now }
        ensures goes { GoesOnWithAll self.now (take result levels.now) }
        ensures ends { GoesOnNoLonger self.now levels.now result }
    {
        self.copy().reads_on_by(levels)
    }

    /// The frame that `push` would answer `Taken` with at this level. `None` where it would give another answer.
    pub fn takes(&self, level: bool) -> Option<Frame>
        ensures { IfSome result (λ frame. MayTake level frame self.now) }
    {
        let Place::AfterBody(frame, right, seen) = self.place else {
            return None;
        };
        match tail_step(frame, right, seen, level) {
            Step::Taken(taken) => Some(taken),
            _ => None,
        }
    }
}

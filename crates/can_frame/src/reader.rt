//! A receiver's reading of a frame, from SOF on.

ghost use Rattle.std.specs.Prelude.{◌≡◌, ◌<◌, ◌≤◌, ◌+◌, ◌∷◌, ◌++◌, [], Bool, true, false, List};
ghost use Rattle.std.specs.Prelude.{IfSome, length, reverse, take};
ghost use Rattle.can_frame.specs.Stuffing.{five_equal};
ghost use Rattle.can_frame.specs.FieldReading.{fields_length, frame_at};
ghost use Rattle.can_frame.specs.Reading.{
  InRegion,
  InTail,
  StandsAfter,
  IsReading,
  IsPush,
  GoesOnNoLonger,
  GoesOnWith,
  GoesOnWithAll,
  MayReadOn,
  MayTake,
  ReadsOn,
  ReadsOnBy,
  StandsAs,
  Next,
  Judges,
  WantsData,
  WantsStuffBit,
  kept,
  read_behind,
};

mod anew;
mod outlook;

use crate::frame::Frame;
use crate::level_run::LevelRun;
use crate::reading::{frame_of, is_complete, is_complete_next, is_right};
use crate::step::{FaultKind, Step};
use crate::tail::tail_step;
use arrayvec::ArrayVec;

/// How far a reader has come.
#[derive(Clone, Copy)]
enum Place {
    /// In the stuffed region.
    Region,
    /// Behind it: the frame, whether its CRC is right, and how many levels came since, at most eight.
    AfterBody(Frame, bool, u8),
    /// At its last answer.
    Ended(Step),
}

/// A receiver's reading of one frame, from SOF on (Bosch CAN Specification 2.0, part B, 3.2.1 DATA FRAME,
/// 5 MESSAGE VALIDATION, 6 CODING and 7.1 Error Detection). It is pushed the level of the bus once a bit
/// time and tells of each level what it is. It checks neither SRR nor r1 and r0, and takes a data length
/// code of 9 to 15 as 8.
#[derive(Drop)]
pub struct Reader {
    // how the text so far ends, within the stuffed region
    run: LevelRun,
    // the unstuffed levels so far: fields of at most 103 and fifteen of the CRC
    levels: ArrayVec<bool, 118>,
    place: Place,
    // the newest answer of `push_any`
    told: Step,
}

impl Reader {
    /// A reader that has read nothing: the first level that it is pushed is SOF.
    pub fn new() -> Reader
        ensures stands { StandsAfter result [] }
        ensures reading { IsReading result }
    {
        Reader {
            run: LevelRun::new(),
            levels: ArrayVec::new(),
            place: Place::Region,
            told: Step::More,
        }
    }

    /// What the next level of the bus is, true being recessive. `More`, `StuffBit`, `Body` and `Tail` say
    /// that frames go on with it; `Taken` and `Fault` are last answers, and each later push gives the same
    /// one again and looks at no level.
    ///
    /// The contract gives for each text so far, and each level, the one answer that fits
    /// (`laws::answers_are_exact`, `laws::faults_are_exact`).
    #[inline(always)]
    pub fn push(&mut self, level: bool) -> Step
        ensures { IsPush self.old level result self.new }
    {
        if self.push_more(level) {
            return Step::More;
        }
        if self.reads_tail(level) {
            return Step::Tail;
        }
        self.push_any(level);
        self.told
    }

    /// Whether the next level is data, whatever it is. It tells so neither of the first level nor of the last ones.
    #[inline(always)]
    fn wants_data(&self) -> bool
        ensures wants { result ≡ true → WantsData self.now }
        ensures other { result ≡ false → WantsData self.now → ⊥ }
    {
        if !self.is_in_region() || self.levels.is_empty() {
            return false;
        }
        !self.run.is_full() && !is_complete_next(self.levels.as_slice())
    }

    /// Whether this level is the stuff bit that comes next, and the region goes on behind it.
    #[inline(always)]
    fn wants_stuff_bit(&self, level: bool) -> bool
        ensures wants { result ≡ true → WantsStuffBit level self.now }
        ensures other { result ≡ false → WantsStuffBit level self.now → ⊥ }
    {
        if !self.is_in_region() || !self.run.is_full() {
            return false;
        }
        level != self.run.level() && !is_complete(self.levels.as_slice())
    }

    /// Pushes a level that is `More`, as most levels of a bus are, and tells whether it did. It leaves some such
    /// levels to `push_any`, and all others.
    #[inline(always)]
    fn push_more(&mut self, level: bool) -> bool
        ensures more { result ≡ true → IsPush self.old level Step.More self.new }
        ensures wants { result ≡ true → WantsData self.old × (self.new ≡ read_behind self.old level) }
        ensures unwanted { result ≡ false → WantsData self.old → ⊥ }
        ensures other { result ≡ false → self.new ≡ self.old }
    {
        if !self.wants_data() {
            return false;
        }
        self.run.push(level);
        keep(&mut self.levels, level);
        true
    }

    /// Whether both have read the same of a frame: then either may read on for the other. It tells so of none that has
    /// given its last answer.
    pub fn reads_as(&self, other: &Reader) -> bool
        ensures { result ≡ true → StandsAs self.now other.now }
    {
        let place = self.place;
        match place {
            Place::Region => self.reads_region_as(other),
            Place::AfterBody(frame, right, seen) => other.is_behind(&frame, right, seen),
            Place::Ended(_) => false,
        }
    }

    /// So within the stuffed region.
    fn reads_region_as(&self, other: &Reader) -> bool
        ensures { result ≡ true → StandsAs self.now other.now }
    {
        if !self.is_in_region() {
            return false;
        }
        if !other.is_in_region() {
            return false;
        }
        if self.run != other.run {
            return false;
        }
        self.levels.as_slice() == other.levels.as_slice()
    }

    /// Whether it stands behind this frame, with so many levels since.
    fn is_behind(&self, frame: &Frame, right: bool, seen: u8) -> bool
        ensures { result ≡ true → self.now.place ≡ Place.AfterBody frame.now right seen }
    {
        let place = self.place;
        match place {
            Place::AfterBody(own, own_right, own_seen) => {
                if !own.is_same(frame) {
                    return false;
                }
                own_right == right && own_seen == seen
            }
            _ => false,
        }
    }

    /// Pushes a level with which the stuffed region goes on, and tells whether it did: `push` would answer `More` or
    /// `StuffBit`. Else the reader is as it was.
    #[inline(always)]
    pub fn reads_on(&mut self, level: bool) -> bool
        ensures on { result ≡ true → ReadsOn self.old level self.new }
        ensures goes { result ≡ true → GoesOnWith level self.old × (self.new ≡ read_behind self.old level) }
        ensures ends { result ≡ false → GoesOnWith level self.old → ⊥ }
        ensures other { result ≡ false → self.new ≡ self.old }
    {
        if self.push_more(level) {
            return true;
        }
        self.push_stuff(level)
    }

    /// Pushes the first of these levels, one after another, up to one with which the stuffed region doesn't go on, and
    /// tells how many those are. A sender's levels are read so, many at once.
    pub fn reads_on_by(&mut self, levels: &[bool]) -> usize
        ensures few { result ≤ length levels.now }
        ensures on { ReadsOnBy self.old (take result levels.now) self.new }
        ensures goes { GoesOnWithAll self.old (take result levels.now) }
        ensures ends { GoesOnNoLonger self.old levels.now result }
    {
        for (place, level) in levels.iter().enumerate() {
            if !self.reads_on(*level) {
                return place;
            }
        }
        levels.len()
    }

    /// Pushes a level with which the stuffed region goes on.
    #[inline]
    pub fn read_on(&mut self, level: bool)
        requires { MayReadOn level self.old }
        ensures { ReadsOn self.old level self.new }
    {
        let _step = self.push(level);
    }

    /// Pushes a level that is `StuffBit`, and tells whether it did.
    #[inline(never)]
    fn push_stuff(&mut self, level: bool) -> bool
        ensures stuff { result ≡ true → IsPush self.old level Step.StuffBit self.new }
        ensures wants { result ≡ true → WantsStuffBit level self.old × (self.new ≡ read_behind self.old level) }
        ensures unwanted { result ≡ false → WantsStuffBit level self.old → ⊥ }
        ensures other { result ≡ false → self.new ≡ self.old }
    {
        if !self.wants_stuff_bit(level) {
            return false;
        }
        self.run.push(level);
        true
    }

    /// Pushes a level behind the stuffed region with which the frame goes on, and tells whether it did: `push` would
    /// answer `Tail`. Else the reader is as it was.
    #[inline]
    pub fn reads_tail(&mut self, level: bool) -> bool
        ensures on { result ≡ true → IsPush self.old level Step.Tail self.new }
        ensures other { result ≡ false → self.new ≡ self.old }
    {
        // in place, without a copy of the frame
        let Place::AfterBody(frame, right, seen) = &mut self.place else {
            return false;
        };
        if *seen >= 8 {
            return false;
        }
        match tail_step(*frame, *right, *seen, level) {
            Step::Tail => {
                *seen += 1;
                true
            }
            _ => false,
        }
    }

    /// Whether the next level is one of the stuffed region.
    fn is_in_region(&self) -> bool
        ensures region { result ≡ true → self.now.place ≡ Place.Region }
        ensures other { result ≡ false → self.now.place ≡ Place.Region → ⊥ }
    {
        matches!(self.place, Place::Region)
    }

    /// `push` of any level. Its answer is in `told`, so that those levels that `push_more` takes pay for no copy
    /// of a frame.
    #[inline(never)]
    fn push_any(&mut self, level: bool)
        ensures { IsPush self.old level self.new.told self.new }
    {
        self.told = self.answer(level);
    }

    /// What the next level is.
    fn answer(&mut self, level: bool) -> Step
        ensures { IsPush self.old level result self.new }
    {
        let place = self.place;
        match place {
            Place::Region => self.push_region(level),
            Place::AfterBody(frame, right, seen) => self.push_tail(frame, right, seen, level),
            Place::Ended(step) => step,
        }
    }

    /// The fault that a level of the stuffed region is.
    #[inline(never)]
    fn fail(&mut self, kind: FaultKind) -> Step
        ensures answer { result ≡ Step.Fault kind }
        ensures place { self.new.place ≡ Place.Ended (Step.Fault kind) }
    {
        self.place = Place::Ended(Step::Fault(kind));
        Step::Fault(kind)
    }

    /// A level of the stuffed region.
    fn push_region(&mut self, level: bool) -> Step
        ensures { (text : List Bool) → self.old.place ≡ Place.Region
            → InRegion self.old.run self.old.levels.items text
            → Next result self.new text level }
    {
        if level && self.levels.is_empty() {
            return self.fail(FaultKind::Form);
        }
        if self.run.is_full() {
            return self.push_behind_five(level);
        }
        self.run.push(level);
        keep(&mut self.levels, level);
        let complete = is_complete(self.levels.as_slice());
        // five equal levels want a stuff bit, also behind the last bit of the CRC
        let wants_stuff_bit = self.run.is_full();
        if complete && !wants_stuff_bit {
            return body(self.levels.as_slice(), &mut self.place);
        }
        Step::More
    }

    /// A level behind five equal ones: a stuff bit, if it is their opposite.
    fn push_behind_five(&mut self, level: bool) -> Step
        ensures { (text : List Bool) → self.old.place ≡ Place.Region → five_equal (reverse text) ≡ true
            → InRegion self.old.run self.old.levels.items text
            → Next result self.new text level }
    {
        if level == self.run.level() {
            return self.fail(FaultKind::Stuff);
        }
        self.run.push(level);
        if is_complete(self.levels.as_slice()) {
            return body(self.levels.as_slice(), &mut self.place);
        }
        Step::StuffBit
    }

    /// A level behind the stuffed region.
    #[inline(never)]
    fn push_tail(&mut self, frame: Frame, right: bool, seen: u8, level: bool) -> Step
        ensures { (text : List Bool) → InTail frame right seen text
            → Next result self.new text level }
    {
        let step = tail_step(frame, right, seen, level);
        self.place = match step {
            Step::Tail => Place::AfterBody(frame, right, if seen < 8 { seen + 1 } else { 8 }),
            _ => Place::Ended(step),
        };
        step
    }
}

/// The answer at the end of the stuffed region, where frame and CRC are read.
#[inline(never)]
fn body(text: &[bool], place: &mut Place) -> Step
    ensures { length text.now ≡ fields_length text.now + 15
        → (right : Bool) × Judges right text.now × (result ≡ Step.Body (frame_at text.now) right)
        × (place.new ≡ Place.AfterBody (frame_at text.now) right 0) }
{
    let frame = frame_of(text);
    let right = is_right(text);
    *place = Place::AfterBody(frame, right, 0);
    Step::Body(frame, right)
}

/// Keeps a level while there is room, which there is in every text that a reader stands after.
fn keep(levels: &mut ArrayVec<bool, 118>, level: bool)
    ensures grows { length levels.old.items < 118 → levels.new.items ≡ levels.old.items ++ level ∷ [] }
    ensures value { levels.new.items ≡ kept levels.old.items level }
{
    if levels.len() < 118 {
        levels.push(level);
    }
}

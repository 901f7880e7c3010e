//! How a text of levels ends, by which bit stuffing goes (Bosch CAN Specification 2.0, part B, 6 CODING).

ghost use Rattle.std.specs.Prelude.{◌≡◌, ◌∷◌, [], Bool, List};
ghost use Rattle.can_frame.specs.Stuffing.{five_equal, newest};
ghost use Rattle.can_frame.specs.LevelRuns.{EndsIn, is_full, level_of, run_behind};

/// In how many equal levels a text ends, five at most, and in which. It keeps no text: each contract speaks
/// of every text that may end so, given with its newest level first.
#[derive(Clone, Copy, PartialEq, Eq)]
pub struct LevelRun {
    count: u8,
    level: bool,
}

impl LevelRun {
    /// How a text of no levels ends; the bus was recessive before it.
    #[inline]
    pub fn new() -> LevelRun
        ensures { EndsIn [] result }
    {
        LevelRun {
            count: 0,
            level: true,
        }
    }

    /// Whether the text ends in five equal levels: then no data follows, but their opposite as a stuff bit, or a fault.
    #[inline]
    pub fn is_full(&self) -> bool
        ensures five { (text : List Bool) → EndsIn text self.now → result ≡ five_equal text }
        ensures value { result ≡ is_full self.now }
    {
        self.count >= 5
    }

    /// The newest level.
    #[inline]
    pub fn level(&self) -> bool
        ensures newest { (text : List Bool) → EndsIn text self.now → result ≡ newest text }
        ensures value { result ≡ level_of self.now }
    {
        self.level
    }

    /// The next level of the text.
    #[inline]
    pub fn push(&mut self, level: bool)
        ensures ends { (text : List Bool) → EndsIn text self.old → EndsIn (level ∷ text) self.new }
        ensures value { self.new ≡ run_behind self.old level }
    {
        // both are there to be chosen from: a branch here would be mispredicted at half of all levels
        let longer = self.count.min(4) + 1;
        self.count = if level == self.level { longer } else { 1 };
        self.level = level;
    }
}

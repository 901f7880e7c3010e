//! Laws of the definitions that the contracts cite. Each function does nothing; its contract is the law,
//! and a proof in a crate above calls it to learn that.

ghost use Rattle.can_frame.specs.FrontLaws.{
  NoFrontBeginsAnother,
  NoFrontHasSixDominant,
  NoFrontEndsDominant,
  OneCheck,
  OneStuffing,
  OneText,
  OneSpelling,
  OneFrame,
  SlotStandsAlone,
};
ghost use Rattle.can_frame.specs.ReaderLaws.{
  OneAnswer,
  FrontsAreTaken,
  TakenAreFronts,
  ReadingIsUndecided,
  FirstFaultsAreAnswered,
  AnsweredFaultsAreFirst,
};
ghost use Rattle.can_frame.specs.Runs.{SpellingsAreTaken};

/// No front begins another, has six dominant levels in a row, or ends in a dominant level. A front is
/// what a receiver has read of a frame when it takes it.
pub fn fronts_are_apart()
    ensures begins { NoFrontBeginsAnother }
    ensures six { NoFrontHasSixDominant }
    ensures ends { NoFrontEndsDominant }
{}

/// A text has one CRC and one stuffed text, and a stuffed text stands for one text. So a frame has one
/// spelling, and a spelling is of one frame.
pub fn spellings_are_unique()
    ensures check { OneCheck }
    ensures stuffed { OneStuffing }
    ensures text { OneText }
    ensures spelling { OneSpelling }
    ensures frame { OneFrame }
{}

/// At most one answer of a reader fits a text and a level. A reader has taken a frame exactly after a
/// front of it.
pub fn answers_are_exact()
    ensures one { OneAnswer }
    ensures taken { FrontsAreTaken }
    ensures front { TakenAreFronts }
{}

/// A reader that goes on reading stands after no front and no fault; one that stands after the first
/// fault of a text has answered with it; and one that has answered with a fault stands after the first.
pub fn faults_are_exact()
    ensures reading { ReadingIsUndecided }
    ensures answered { FirstFaultsAreAnswered }
    ensures first { AnsweredFaultsAreFirst }
{}

/// What a sender drives is what a receiver takes: a reader that is pushed the levels of a frame from SOF
/// on, the ACK slot dominant, takes that frame at the sixth bit of EOF, and has no fault before. The ACK
/// slot alone differs between what is driven and what is read.
pub fn spellings_are_taken()
    ensures taken { SpellingsAreTaken }
    ensures slot { SlotStandsAlone }
{}

//! Laws of the definitions that the contracts cite. Each function does nothing; its contract is the law, and a proof in
//! a crate above calls it to use the law.

ghost use Rattle.can_node.specs.Attempts.{
  AttemptsStandAlone,
  OpenAttemptsReportNothing,
  FramesBegunAreAttempts,
  StartsAreSofs,
};
ghost use Rattle.can_node.specs.Copies.{
  NoTakeAcrossActiveFlag,
  ActiveErrorsComeNotBefore,
  CompletedAreTaken,
  CompletedLeaveNoTakeOpen,
  CompletionsAreAttempts,
  FramesTakenAreTakes,
};
ghost use Rattle.can_node.specs.UniqueSplits.{OneSplit, OneEpisode, OneWanting, OneSending};

/// A sender and a receiver on one line. An error of a sender that is error active comes not before the bit at
/// which the receiver took the frame of that attempt, or any frame that it was reading then, if the
/// receiver is not falsified behind the error.
pub fn active_errors_come_late()
    ensures across { NoTakeAcrossActiveFlag }
    ensures attempt { ActiveErrorsComeNotBefore }
{}

/// A sender and a receiver on one line. Where a send was completed, each take with its start ended one bit
/// before it, with its frame, if neither node is falsified from the start to that bit.
pub fn completed_sends_are_taken()
    ensures taken { CompletedAreTaken }
    ensures none_open { CompletedLeaveNoTakeOpen }
{}

/// Each completion that a history reports is the end of an attempt, and each received frame the end of a take.
pub fn outcomes_have_episodes()
    ensures completed { CompletionsAreAttempts }
    ensures taken { FramesTakenAreTakes }
{}

/// Each frame that a node begins to send becomes an attempt, or is still being sent where the history ends. From the
/// first bit of an attempt to its last, nothing else is begun or reported. Nothing is reported of an attempt that goes
/// on.
pub fn attempts_stand_alone()
    ensures attempts { AttemptsStandAlone }
    ensures goes_on { OpenAttemptsReportNothing }
    ensures begun { FramesBegunAreAttempts }
{}

/// The start of an attempt is the SOF that its node reported when it began to send.
pub fn attempts_start_at_their_sof()
    ensures { StartsAreSofs }
{}

/// A past is split into episodes in one way only: it ends in one episode, and no bit belongs to two. The past alone
/// determines whether its node wants to start, and the SOF of the frame that it sends.
pub fn histories_are_split_in_one_way()
    ensures split { OneSplit }
    ensures episode { OneEpisode }
    ensures wanting { OneWanting }
    ensures sending { OneSending }
{}

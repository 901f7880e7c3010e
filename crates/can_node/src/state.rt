//! The state of a node's bit machine, and its transitions.

ghost use Rattle.std.specs.Prelude.{◌≡◌, true, false};
ghost use Rattle.can_node.specs.Machine.{is_in_region, is_own_slot, is_receiver, is_taking, level_in, level_of};
ghost use Rattle.can_node.specs.Machine.{listens, may_start, sof_of, steps_alike};

use crate::flag::FlagKind;
use crate::outcome::Outcome;
use can_confinement::{ErrorEvent, Role};
use can_frame::Spelling;

/// Where the next level stands in a frame that is received.
#[derive(Clone, Copy, PartialEq, Eq)]
pub(crate) enum Stage {
    /// In the stuffed region.
    Region,
    /// Behind the stuffed region, in the CRC delimiter: whether the CRC is right.
    AfterRegion(bool),
    /// In the ACK slot: whether the CRC is right.
    Slot(bool),
    /// Behind the ACK slot.
    AfterSlot,
}

impl Stage {
    /// Returns whether the next level is that of the ACK slot of a frame whose CRC is right, which a receiver drives
    /// dominant.
    pub(crate) fn is_own_slot(self) -> bool
        ensures { result ≡ is_own_slot self }
    {
        match self {
            Stage::Slot(right) => right,
            _ => false,
        }
    }
}

/// How far a node has come in the current episode of its history.
#[derive(Clone, Copy, PartialEq, Eq)]
pub(crate) enum State {
    /// Switched on, and waiting for eleven recessive levels in a row.
    Integrating {
        /// How many recessive levels in a row it has sampled, fewer than eleven.
        ones: u8,
    },
    /// The bus is idle.
    BusIdle,
    /// Receiving a frame.
    Receiving {
        /// The number of its SOF bit.
        start: u64,
        /// The node may begin to send instead.
        may_begin: bool,
        /// Where the next level stands.
        stage: Stage,
    },
    /// Transmitting a frame.
    Transmitting {
        /// The number of its SOF bit.
        start: u64,
        /// The index of the next level in its wire image.
        place: u8,
    },
    /// At the last bit of EOF of a frame that was received.
    LastEofBit,
    /// In an active error flag or an overload flag.
    DominantFlag {
        /// The kind of the flag: `ActiveError` or `Overload`.
        kind: FlagKind,
        /// The role that the node had when the flag began.
        role: Role,
        /// How many of its bits were sent, fewer than six.
        sent: u8,
        /// After how many more dominant samples in a row an error is counted.
        until: u8,
    },
    /// In a passive error flag.
    PassiveErrorFlag {
        /// The role that the node had when the flag began.
        role: Role,
        /// Its first dominant sample counts an error.
        owes: bool,
        /// How many recessive samples in a row came last.
        ones: u8,
        /// How many dominant samples in a row came last.
        zeros: u8,
    },
    /// Behind a flag, before the first recessive sample.
    AwaitingDelimiter {
        /// The kind of the flag.
        kind: FlagKind,
        /// The role that the node had when the flag began.
        role: Role,
        /// After how many more dominant samples an error is counted.
        until: u8,
        /// No sample came yet.
        first: bool,
    },
    /// In an error delimiter or an overload delimiter.
    InDelimiter {
        /// The role that the node had when the flag began.
        role: Role,
        /// How many recessive levels it has sampled, one to seven.
        ones: u8,
    },
    /// In the intermission.
    InIntermission {
        /// The role that the node had in the frame before it.
        role: Role,
        /// How many recessive levels it has sampled, fewer than three.
        ones: u8,
    },
    /// In suspend transmission.
    SuspendTransmission {
        /// How many recessive levels it has sampled, fewer than eight.
        ones: u8,
    },
    /// In bus off.
    BusOffRecovery {
        /// How many whole runs of eleven recessive samples it has seen, fewer than 128.
        runs: u8,
        /// How many recessive samples of the next run.
        ones: u8,
    },
}

impl State {
    /// Returns the state at this stage of a frame that the node receives and cannot replace by one of its own.
    #[inline(always)]
    pub(crate) fn receiving(start: u64, stage: Stage) -> State
        ensures { result ≡ State.Receiving start false stage }
    {
        State::Receiving {
            start,
            may_begin: false,
            stage,
        }
    }

    /// Returns the state at the first bit of an active error flag or an overload flag.
    #[inline(always)]
    pub(crate) fn dominant_flag(kind: FlagKind, role: Role) -> State
        ensures { result ≡ State.DominantFlag kind role 0 14 }
    {
        State::DominantFlag {
            kind,
            role,
            sent: 0,
            until: 14,
        }
    }

    /// Returns the state at the first bit after a flag. An error is counted after `until` dominant samples.
    #[inline(always)]
    pub(crate) fn awaiting(kind: FlagKind, role: Role, until: u8) -> State
        ensures { result ≡ State.AwaitingDelimiter kind role until true }
    {
        State::AwaitingDelimiter {
            kind,
            role,
            until,
            first: true,
        }
    }

    /// Returns the level that a node in this state drives, if it sends no frame.
    pub(crate) fn level(self) -> bool
        ensures { result ≡ level_of self }
    {
        match self {
            State::DominantFlag { .. } => false,
            State::Receiving { stage, .. } => !stage.is_own_slot(),
            _ => true,
        }
    }

    /// Returns the level that a node in this state drives, with this wire image if it sends a frame.
    pub(crate) fn level_in(self, spelling: &Spelling) -> bool
        ensures { result ≡ level_in self spelling.now }
    {
        match self {
            State::Transmitting { place, .. } => spelling.level(place),
            _ => self.level(),
        }
    }

    /// Returns whether a node in this state may begin to send at the next bit.
    pub(crate) fn may_start(self) -> bool
        ensures { result ≡ may_start self }
    {
        match self {
            State::BusIdle => true,
            State::Receiving { may_begin, .. } => may_begin,
            _ => false,
        }
    }

    /// Returns the number of the SOF of the frame that a node in this state sends.
    pub(crate) fn sof(self) -> Option<u64>
        ensures { result ≡ sof_of self }
    {
        match self {
            State::Transmitting { start, .. } => Some(start),
            _ => None,
        }
    }

    /// Returns whether a node in this state may be deferred: it sends no frame, and has nothing left to do for a frame
    /// that it sent.
    pub(crate) fn listens(self) -> bool
        ensures { result ≡ listens self }
    {
        match self {
            State::Transmitting { .. } => false,
            State::SuspendTransmission { .. } => false,
            State::BusOffRecovery { .. } => false,
            State::DominantFlag { role, .. } => is_receiver(role),
            State::PassiveErrorFlag { role, .. } => is_receiver(role),
            State::AwaitingDelimiter { role, .. } => is_receiver(role),
            State::InDelimiter { role, .. } => is_receiver(role),
            State::InIntermission { role, .. } => is_receiver(role),
            _ => true,
        }
    }

    /// Returns whether a node in this state receives in the stuffed region of a frame and cannot begin to send instead.
    #[inline]
    pub(crate) fn is_in_region(self) -> bool
        ensures { result ≡ is_in_region self }
    {
        match self {
            State::Receiving {
                may_begin,
                stage,
                ..
            } => !may_begin && stage == Stage::Region,
            _ => false,
        }
    }

    /// Returns whether a node in this state receives a frame.
    pub(crate) fn is_taking(self) -> bool
        ensures { result ≡ is_taking self }
    {
        matches!(self, State::Receiving { .. })
    }

    /// Returns whether a level makes the same of a state that neither receives nor sends a frame in each error state.
    /// Returns false for a dominant level in any delimiter, and for the intermission after a frame of its own.
    pub(crate) fn steps_alike(self, level: bool) -> bool
        ensures { result ≡ steps_alike level self }
    {
        match self {
            State::Receiving { .. } => false,
            State::Transmitting { .. } => false,
            State::InDelimiter { .. } => level,
            State::InIntermission { role, .. } => is_receiver(role),
            _ => true,
        }
    }
}

/// Returns whether this is the role of a receiver.
pub(crate) fn is_receiver(role: Role) -> bool
    ensures { result ≡ is_receiver role }
{
    match role {
        Role::Receiver => true,
        Role::Sender => false,
    }
}

/// What one sampled level makes of a node, unless the event causes bus off.
#[derive(Clone, Copy)]
pub(crate) struct Transition {
    pub(crate) state: State,
    pub(crate) event: Option<ErrorEvent>,
    pub(crate) outcome: Outcome,
}

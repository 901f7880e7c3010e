//! What the error counters count, and the states of fault confinement.

/// What a node is in the frame that it takes part in. Through an error frame or an overload frame it is
/// what it was when that frame began.
#[derive(Clone, Copy, Debug, PartialEq, Eq)]
pub enum Role {
    /// It drives the frame; its events change the transmit error count.
    Sender,
    /// It reads the frame; its events change the receive error count.
    Receiver,
}

/// What changes an error count (Bosch CAN Specification 2.0, part B, 8 FAULT CONFINEMENT). Which bit of
/// a node's history brings which event is said in docs/NODE.md; this table is this project's profile of
/// the counting rules. In bus off nothing but `Recovered` changes a count.
#[derive(Clone, Copy, Debug, PartialEq, Eq)]
pub enum ErrorEvent {
    /// A receiver detects an error, other than a bit error in a flag that it sends: REC + 1.
    ReceiverError,
    /// A receiver samples a dominant level right behind its error flag: REC + 8.
    ReceiverDominant,
    /// A sender detects an error for which it sends an error flag: TEC + 8.
    SenderError,
    /// A recessive sample in an active error flag or an overload flag: TEC or REC + 8.
    FlagBit(Role),
    /// Too many dominant samples in a row in and behind a flag: TEC or REC + 8.
    DominantRun(Role),
    /// A transmission has succeeded: TEC - 1, unless it is 0.
    Sent,
    /// A frame was read up to its ACK slot and acknowledged: REC - 1, unless it is 0; a REC above 127
    /// becomes 120.
    Received,
    /// 128 times eleven recessive levels in a row were seen in bus off: both counts are 0.
    Recovered,
}

/// How far a node may take part in the traffic (Bosch CAN Specification 2.0, part B, 8 FAULT
/// CONFINEMENT).
#[derive(Clone, Copy, Debug, PartialEq, Eq)]
pub enum ErrorState {
    /// Both counts are 127 or less: it sends active error flags.
    Active,
    /// A count is 128 or more: it sends passive error flags.
    Passive,
    /// TEC is 256 or more: it drives nothing.
    Off,
}

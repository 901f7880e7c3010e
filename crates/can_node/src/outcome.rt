//! What a bit brings to an end in the history of a node.

use can_frame::Frame;

/// Why a node signals an error (Bosch CAN Specification 2.0, part B, 7.1 Error Detection). Which of them
/// a bit is called is this project's choice where several fit; docs/NODE.md has the rules.
#[derive(Clone, Copy, Debug, PartialEq, Eq)]
pub enum ErrorKind {
    /// The level on the bus is not the one that the node drives.
    Bit,
    /// A stuff bit is wrong: for a receiver a sixth equal level, for a sender a recessive stuff bit
    /// before RTR that is dominant on the bus.
    Stuff,
    /// A level is wrong in a field of fixed form.
    Form,
    /// Nobody acknowledged the frame that the node sends.
    Ack,
    /// The CRC of the frame that the node receives is wrong.
    Crc,
}

/// What a sampled bit brings to an end.
#[derive(Clone, Copy, Debug, PartialEq, Eq)]
pub enum Outcome {
    /// Nothing that is reported.
    Nothing,
    /// A frame of another node is valid: its last but one bit of EOF was sampled (Bosch CAN
    /// Specification 2.0, part B, 5 MESSAGE VALIDATION).
    Took {
        /// The number of the bit that was its SOF.
        start: u64,
        /// The frame.
        frame: Frame,
    },
    /// The node's own frame is valid: its last bit of EOF was sampled.
    Completed,
    /// The node lost arbitration, and receives the frame that won.
    Lost,
    /// The node signals an error from the next bit on.
    Errored(ErrorKind),
    /// The transmit error count reached 256: bus off, in place of an error or by itself.
    WentOff,
    /// The node is back from bus off, and idle from the next bit on.
    CameBack,
}

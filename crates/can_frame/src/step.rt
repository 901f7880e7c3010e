//! What a reader answers.

use crate::frame::Frame;

/// Why a receiver takes no frame from what it has read (Bosch CAN Specification 2.0, part B, 7.1
/// Error Detection).
#[derive(Clone, Copy, Debug, PartialEq, Eq)]
pub enum FaultKind {
    /// A sixth equal level in the stuffed region, from SOF to the last bit of the CRC.
    Stuff,
    /// A wrong level where the form is fixed: SOF, a delimiter or EOF.
    Form,
    /// A recessive ACK slot after a right CRC: nobody answered, the receiver itself included.
    Ack,
    /// A recessive ACK delimiter after a wrong CRC, where that fault is signalled.
    Crc,
}

/// What one level of a frame is to its receiver.
#[derive(Clone, Copy, Debug, PartialEq, Eq)]
pub enum Step {
    /// A bit of the stuffed region, not its last one.
    More,
    /// A stuff bit, not the last bit of the stuffed region.
    StuffBit,
    /// The last bit of the stuffed region: the frame that it stands for, and whether its CRC is right.
    /// It is a stuff bit where the last five levels of the CRC on the bus are equal.
    Body(Frame, bool),
    /// A bit behind the stuffed region, before the sixth bit of EOF.
    Tail,
    /// The sixth bit of EOF, up to which the frame had no error: it is valid for its receiver.
    Taken(Frame),
    /// The first bit with which no frame goes on.
    Fault(FaultKind),
}

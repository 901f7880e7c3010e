//! The levels of a frame behind its stuffed region (Bosch CAN Specification 2.0, part B, 3.2.1 DATA FRAME).

ghost use Rattle.std.specs.Prelude.{Bool, List};
ghost use Rattle.can_frame.specs.Reading.{InTail, TailNext};

use crate::frame::Frame;
use crate::step::{FaultKind, Step};

/// What a level behind the region of this frame is, of which so many levels were seen since.
pub(crate) fn tail_step(frame: Frame, right: bool, seen: u8, level: bool) -> Step
    ensures { (text : List Bool) → InTail frame right seen text
        → TailNext result frame right seen text level }
{
    // the ACK slot; after a wrong CRC either level goes on, since that fault is signalled later
    if seen == 1 {
        if right && level {
            return Step::Fault(FaultKind::Ack);
        }
        return Step::Tail;
    }
    if !level {
        return Step::Fault(FaultKind::Form);
    }
    if seen == 2 && !right {
        return Step::Fault(FaultKind::Crc);
    }
    if seen == 8 {
        return Step::Taken(frame);
    }
    Step::Tail
}

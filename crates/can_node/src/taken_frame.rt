//! A frame that a node received.

use can_frame::Frame;

/// A frame that a node received.
#[derive(Clone, Copy)]
pub struct TakenFrame {
    /// The number of its SOF bit.
    pub start: u64,
    /// The frame.
    pub frame: Frame,
}

//! A frame of a talker's queue.

use can_frame::Frame;

/// A frame that a talker sends, and the bit from which it may begin it.
#[derive(Clone, Copy, Debug, PartialEq, Eq)]
pub struct DueFrame {
    /// The number of the first bit at which the talker may begin the frame.
    pub due: u64,
    /// The frame.
    pub frame: Frame,
}

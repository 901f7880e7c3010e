//! What a receive FIFO holds.
use can_frame::Frame;

/// A received frame, with the number of the filter that it was received by (RM0008, bxCAN, "Reception
/// handling" and "Filter match index").
#[derive(Clone, Copy, Debug, Default, PartialEq, Eq)]
pub struct RxFrame {
    /// The frame.
    pub frame: Frame,
    /// The number of the filter, counted for this FIFO.
    pub filter_number: u8,
}

//! A frame on its way from a node.

use crate::event::Label;
use can_frame::Frame;

/// What a node sends.
#[derive(Clone, Copy)]
pub struct Transmission {
    /// The number of the SOF bit, also where another node drove it.
    pub start: u64,
    /// The frame.
    pub frame: Frame,
    /// The request that it comes from; a talker's frames have none.
    pub label: Option<Label>,
}

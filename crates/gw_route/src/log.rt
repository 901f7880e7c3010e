//! What a route did.
use can_frame::Frame;

/// What a route did, each list in order.
#[derive(Drop)]
pub struct Log {
    /// The frames that the FIFO released. A frame's number is its place, from 1.
    pub released: Vec<Frame>,
    /// The numbers whose abort was answered `Ended` or `Asked`.
    pub aborted: Vec<u32>,
}

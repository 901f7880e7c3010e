//! What becomes of a frame that comes to a FIFO.

/// What an offer comes to (RM0008, bxCAN, "Reception handling", "Overrun"; the FIFO is locked: RFLM
/// set).
#[derive(Clone, Copy, Debug, PartialEq, Eq)]
pub enum Offered {
    /// The frame is the newest of the FIFO.
    Stored,
    /// The FIFO was full: the frame is discarded, and the three old ones stay.
    Overrun,
}

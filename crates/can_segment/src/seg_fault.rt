//! Why a segment simulates no bit.

use thiserror::Error;

/// Why a segment simulates no bit, or cannot be created.
#[derive(Clone, Copy, Debug, PartialEq, Eq, Error)]
pub enum SegFault {
    /// All bits of its plan are simulated.
    #[error("S1 Ended")]
    Ended,
    /// An allocation failed.
    #[error("S2 Memory")]
    Memory,
}

//! Why an identifier or a frame is refused.

use thiserror::Error;

/// Why an identifier or a frame is refused. Each refusal comes before any value is made.
#[derive(Clone, Copy, Debug, PartialEq, Eq, Error)]
pub enum FrameError {
    /// The number does not fit the identifier: above 0x7FF (11 bits) in the standard format, above
    /// 0x1FFF_FFFF (29 bits) in the extended one.
    #[error("F1 IdRange")]
    IdRange,
    /// More than the eight bytes of a data field.
    #[error("F2 TooLong")]
    TooLong,
    /// A data length code above 8.
    #[error("F3 Dlc")]
    Dlc,
}

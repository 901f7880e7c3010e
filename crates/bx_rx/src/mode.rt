//! The mode of a filter bank.

/// What the registers of a bank hold (RM0008, bxCAN, "Filter bank scale and mode configuration",
/// bit FBM).
#[derive(Clone, Copy, Debug, PartialEq, Eq)]
pub enum Mode {
    /// FBM clear: identifiers, each with a mask. A frame matches where it has the identifier's bit
    /// at each bit that is 1 in the mask.
    Mask,
    /// FBM set: identifiers. A frame matches where it equals one of them, bit for bit.
    List,
}

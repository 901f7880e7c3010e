//! The scale of a filter bank.

/// How wide the filters of a bank are (RM0008, bxCAN, "Filter bank scale and mode configuration",
/// bit FSC).
#[derive(Clone, Copy, Debug, PartialEq, Eq)]
pub enum Scale {
    /// FSC set: 32 bits, each register whole.
    Bits32,
    /// FSC clear: 16 bits, each register in two halves.
    Bits16,
}

//! Kinds of flags.

/// The flag that a delimiter follows (Bosch CAN Specification 2.0, part B, 3.2.3 ERROR FRAME and 3.2.4
/// OVERLOAD FRAME).
#[derive(Clone, Copy, PartialEq, Eq)]
pub(crate) enum FlagKind {
    /// Six dominant bits that signal an error.
    ActiveError,
    /// The recessive flag of an error-passive node.
    PassiveError,
    /// Six dominant bits that ask for a pause.
    Overload,
}

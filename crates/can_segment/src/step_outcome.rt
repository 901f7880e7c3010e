//! How deferred nodes come through a bit.

use can_node::SharedSample;

/// How deferred nodes come through a bit at which they sample the level of the line.
pub(crate) enum StepOutcome {
    /// The shared receiver followed the bit for them, or they were resumed before it.
    Through,
    /// The shared receiver followed the ACK slot of a frame that they acknowledge. They have still to count the frame.
    Acknowledged,
    /// They have still to sample the level, which means the same to each of them.
    Shares(SharedSample),
}

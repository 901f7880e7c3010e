//! What a segment is made of.

use crate::due_frame::DueFrame;

/// A node that sends the frames of its queue and receives: it has no mailboxes and no filters.
#[derive(Drop)]
pub struct Talker {
    /// The number of its first bit.
    pub on: u64,
    /// The frames that it sends, in this order: each until it is completed, and none before it is due.
    pub queue: Vec<DueFrame>,
}

/// A node with transmit mailboxes and receive FIFOs, which are its port.
#[derive(Clone, Copy)]
pub struct Controller {
    /// The number of its first bit.
    pub on: u64,
}

/// A fault at a node: from `bit` on and before `until` it samples the opposite of the level on the line. Two at one node
/// and bit count as one.
#[derive(Clone, Copy)]
pub struct NodeFault {
    /// The index of the node in the order of nodes.
    pub node: u32,
    /// The number of the first bit at which it stands.
    pub bit: u64,
    /// The number of the bit after the last one at which it stands.
    pub until: u64,
}

/// A fault on the line: from `bit` on and before `until` the line has this level, true being recessive, whatever the
/// nodes drive. Of two at one bit the later one in the list counts.
#[derive(Clone, Copy)]
pub struct LineFault {
    /// The number of the first bit at which it stands.
    pub bit: u64,
    /// The number of the bit after the last one at which it stands.
    pub until: u64,
    /// The level.
    pub level: bool,
}

/// The nodes of a segment in their order, first the talkers, then the controllers; its number of bits; and its faults.
/// `can_segment::Segment::new` takes at most 64 nodes, and a script has at most 16 on a segment. A line fault sets the
/// level of the line first; then a node with a fault samples the opposite of it.
#[derive(Drop)]
pub struct SegmentPlan {
    /// The number of bits of the segment, from bit 0 on.
    pub bits: u64,
    /// The first nodes.
    pub talkers: Vec<Talker>,
    /// The nodes after the talkers.
    pub controllers: Vec<Controller>,
    /// Faults at nodes.
    pub node_faults: Vec<NodeFault>,
    /// Faults on the line.
    pub line_faults: Vec<LineFault>,
}

//! `Node::drive` and `Node::sample`: node-bits a second of 2, 8 and 16 nodes on an idle bus, on one where the first
//! node always sends and the others read, and on one where all of them always send.

use crate::rate::millions;
use can_frame::{Frame, Id};
use can_node::{Node, Outcome};
use std::alloc::{AllocError, Global};
use std::io;
use std::rt::Clock;
use std::time::Instant;

const BITS: u64 = 1_000_000;

/// Eight bytes, so that most bits of the bus are data.
pub(crate) fn frame_of(id: u16) -> Frame {
    match Id::standard(id % 2048) {
        Ok(id) => Frame::with_bytes(
            id,
            &[0x12, 0x34, 0x56, 0x78, 0x9A, 0xBC, 0xDE, 0xF0],
        ).unwrap_or_default(),
        Err(_) => Frame::default(),
    }
}

/// Whether the node completed a frame of its own at this bit.
fn completes(node: &mut Node, level: bool) -> bool {
    // a node counts its bits, and none is left behind the greatest number
    node.bit() != u64::MAX && node.sample(level) == Outcome::Completed
}

/// One bit of the bus, of which the first nodes always want to send; how many frames it completed.
fn bit(nodes: &mut [Node], senders: usize) -> u64 {
    for (place, node) in nodes.iter_mut().enumerate() {
        if place < senders && node.wants_start() {
            node.begin(frame_of((place % 2048) as u16));
        }
    }
    let mut level = true;
    for node in nodes.iter() {
        level = level && node.drive();
    }
    let mut count = 0u64;
    for node in nodes.iter_mut() {
        count = count.wrapping_add(u64::from(completes(node, level)));
    }
    count
}

fn bus(alloc: Global, size: u64) -> Result<Vec<Node>, AllocError> {
    let mut nodes = Vec::new(alloc);
    for _ in 0..size {
        nodes.push(Node::new(0))?;
    }
    Ok(nodes)
}

/// Prints the rate of each bus.
pub(crate) fn measure<H: Print + Clock + AllocGlobal>(rt: &H) -> io::Result<()> {
    for size in [2u64, 8, 16] {
        for (name, senders) in [("idle", 0usize), ("one sends", 1), ("all send", 16)] {
            let mut nodes = bus(rt.alloc(), size)?;
            let start = Instant::now(rt)?;
            let mut frames = 0u64;
            for _ in 0..BITS {
                frames = frames.wrapping_add(bit(nodes.as_mut_slice(), senders));
            }
            let rate = millions(rt.alloc(), BITS * size, start.elapsed(rt)?)?;
            println!(rt; "{size} nodes, {name}: {rate} node-bits a second, {frames} frames")?;
        }
    }
    Ok(())
}

//! What a clock table is for, and what a seat at it knows.
use std::collections::LinkedList;

/// What a clock table is for: how many segments, how far a clock may be ahead of another, and how many bits each
/// segment makes.
#[derive(Clone, Copy)]
pub struct Pace {
    pub segments: usize,
    pub slack: u64,
    pub bits: u64,
}

/// A seat of the clock table: the clocks that it alone ticks, from `first` up to `end`, the number at which each of
/// them stands, and the number last seen of each clock; how many seats without a clock were made from it; and whether
/// it has set the stop word, and has seen it set. No value of it is made.
pub struct Pacer {
    pub first: u64,
    pub end: u64,
    pub made: u64,
    pub seen: LinkedList<u64>,
    pub lent: u64,
    pub stopped: bool,
    pub warned: bool,
}

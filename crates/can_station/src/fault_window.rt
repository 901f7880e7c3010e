//! Which faults of a list may stand at a bit.

ghost use Rattle.std.specs.Prelude.{◌≡◌, ◌≤◌, ◌<◌, ◌+◌, IfOk, length};
ghost use Rattle.can_station.specs.FaultWindows.{AreBehind, IsEarliest, IsWindow};

use std::alloc::{AllocError, Global};

/// The range of bits at which a fault stands.
#[derive(Clone, Copy)]
pub(crate) struct BitRange {
    /// The number of the first bit.
    pub(crate) bit: u64,
    /// The number of the bit after the last one.
    pub(crate) until: u64,
}

/// A part of a list of faults: those before it are over, and those after it begin later. Where the list is in the order
/// of the first bits, as most lists are, the part is small; what it has to spare costs time only.
#[derive(Drop)]
pub(crate) struct FaultWindow {
    ranges: Vec<BitRange>,
    // at each place the least first bit of the ranges from there on
    earliest: Vec<u64>,
    pub(crate) first: usize,
    pub(crate) next: usize,
}

/// Returns at each place the least first bit of these ranges from there on.
fn earliest_of(alloc: Global, ranges: &[BitRange]) -> Result<Vec<u64>, AllocError>
    ensures { IfOk result (λ earliest. IsEarliest ranges.now earliest.items) }
{
    let mut earliest = vec![in alloc; u64::MAX; ranges.len()]?;
    let mut least = u64::MAX;
    for place in (0..ranges.len()).rev() {
        least = least.min(ranges[place].bit);
        earliest[place] = least;
    }
    Ok(earliest)
}

impl FaultWindow {
    /// Returns the window of a list with these ranges before its first bit.
    pub(crate) fn new(alloc: Global, ranges: Vec<BitRange>) -> Result<FaultWindow, AllocError>
        ensures ranges { IfOk result (λ window. window.ranges.items ≡ ranges.items) }
        ensures window { IfOk result (IsWindow 0) }
    {
        let earliest = earliest_of(alloc, ranges.as_slice())?;
        Ok(FaultWindow {
            ranges,
            earliest,
            first: 0,
            next: 0,
        })
    }

    /// Moves to this bit. Returns a bit before which no fault after the window stands.
    pub(crate) fn advance(&mut self, bit: u64) -> u64
        requires { IsWindow bit self.old }
        ensures window { IsWindow bit self.new }
        ensures ranges { self.new.ranges ≡ self.old.ranges }
        ensures behind { AreBehind result self.new }
        ensures later { bit < u64.MAX → bit < result }
    {
        while self.next < self.ranges.len() && self.earliest[self.next] <= bit {
            self.next += 1;
        }
        while self.first < self.next && self.ranges[self.first].until <= bit {
            self.first += 1;
        }
        match self.earliest.get(self.next) {
            Some(earliest) => *earliest,
            None => u64::MAX,
        }
    }
}

//! The faults of a plan that stand at the current bit of a segment.
//!
//! A fault stands at a range of bits. What the faults do changes only where a range begins or ends, so it is looked up
//! there, over the faults of the plan that may stand then, and holds until the next change.

ghost use Rattle.std.specs.Prelude.{◌≡◌, ◌≤◌, ◌<◌, ◌+◌, ℕ, Bool, true, IfOk, length, map, vec_capacity};
ghost use Rattle.can_station.specs.CurrentFaults.{InvertsSame, IsCurrent, IsFaultless, IsReady, SetsLine, level_by, line_range};
ghost use Rattle.can_station.specs.CurrentFaults.{node_range};
ghost use Rattle.can_station.specs.Faults.{line_level, sampled_level, stands};
ghost use Rattle.can_station.specs.declared.plan.SegmentPlan.{SegmentPlan};

use crate::fault_window::{BitRange, FaultWindow};
use crate::faults::{is_inverted, stands};
use crate::plan::{LineFault, NodeFault, SegmentPlan};
use std::alloc::{AllocError, Global};

/// The faults of a plan, and what they do from the current bit on, up to the next bit at which a fault begins or ends.
#[derive(Drop)]
pub struct CurrentFaults {
    line: Vec<LineFault>,
    nodes: Vec<NodeFault>,
    line_window: FaultWindow,
    node_window: FaultWindow,
    // the level that the line has by a fault
    level: Option<bool>,
    // one fault of each node that has one
    here: Vec<NodeFault>,
    // `level` and `here` hold at the bits before this one
    until: u64,
}

/// Returns a bit after this one: at each bit before it a fault with this range stands exactly if it stands at this bit.
fn change_after(from: u64, until: u64, bit: u64) -> u64
    ensures later { bit < u64.MAX → bit < result }
    ensures same { (at : ℕ) → bit ≤ at → at < result → stands from until at ≡ stands from until bit }
{
    if bit < from {
        return from;
    }
    if bit < until {
        return until;
    }
    u64::MAX
}

/// A level that the line has by its faults, or none, at the bits before `until`.
#[derive(Clone, Copy)]
struct LineLevel {
    level: Option<bool>,
    until: u64,
}

/// Returns the level that the line has by these faults from this bit on, and until when.
fn line_from(faults: &[LineFault], bit: u64) -> LineLevel
    ensures level { SetsLine faults.now bit result.until result.level }
    ensures later { bit < u64.MAX → bit < result.until }
{
    let mut level = None;
    let mut until = u64::MAX;
    for fault in faults {
        if stands(fault.bit, fault.until, bit) {
            level = Some(fault.level);
        }
        until = until.min(change_after(fault.bit, fault.until, bit));
    }
    LineLevel { level, until }
}

/// Replaces `here`, which has room for them, by those of these faults that stand at this bit, one of each node. Returns
/// until when they are the ones that stand.
fn nodes_from(faults: &[NodeFault], bit: u64, here: &mut Vec<NodeFault>) -> u64
    requires { length faults.now ≤ vec_capacity here.old }
    ensures nodes { InvertsSame faults.now bit result here.new.items }
    ensures later { bit < u64.MAX → bit < result }
    ensures room { vec_capacity here.old ≤ vec_capacity here.new }
{
    here.clear();
    let mut until = u64::MAX;
    for fault in faults {
        if stands(fault.bit, fault.until, bit) && !is_inverted(here.as_slice(), fault.node, bit) {
            let _ = here.push(*fault);
        }
        until = until.min(change_after(fault.bit, fault.until, bit));
    }
    until
}

/// Returns the ranges of these faults of the line.
fn line_ranges(alloc: Global, faults: &[LineFault]) -> Result<Vec<BitRange>, AllocError>
    ensures { IfOk result (λ ranges. ranges.items ≡ map line_range faults.now) }
{
    let ranges = faults.iter().map(|fault| BitRange {
        bit: fault.bit,
        until: fault.until,
    });
    ranges.collect(alloc)
}

/// Returns the ranges of these faults of nodes.
fn node_ranges(alloc: Global, faults: &[NodeFault]) -> Result<Vec<BitRange>, AllocError>
    ensures { IfOk result (λ ranges. ranges.items ≡ map node_range faults.now) }
{
    let ranges = faults.iter().map(|fault| BitRange {
        bit: fault.bit,
        until: fault.until,
    });
    ranges.collect(alloc)
}

impl CurrentFaults {
    /// Returns the faults of a plan at bit 0; `AllocError` where an allocation failed.
    pub fn new(alloc: Global, plan: &SegmentPlan) -> Result<CurrentFaults, AllocError>
        ensures { IfOk result (IsCurrent plan.now 0) }
    {
        let line = Vec::from_slice(alloc, plan.line_faults.as_slice())?;
        let nodes = Vec::from_slice(alloc, plan.node_faults.as_slice())?;
        let line_window = FaultWindow::new(alloc, line_ranges(alloc, line.as_slice())?)?;
        let node_window = FaultWindow::new(alloc, node_ranges(alloc, nodes.as_slice())?)?;
        let here = Vec::with_capacity(alloc, nodes.len())?;
        let mut faults = CurrentFaults {
            line,
            nodes,
            line_window,
            node_window,
            level: None,
            here,
            until: 0,
        };
        faults.look_up(0);
        Ok(faults)
    }

    /// Looks up what the faults do from this bit on.
    #[inline(never)]
    fn look_up(&mut self, bit: u64)
        requires { IsReady bit self.old }
        ensures ready { IsReady bit self.new }
        ensures line { self.new.line ≡ self.old.line }
        ensures nodes { self.new.nodes ≡ self.old.nodes }
        ensures level { SetsLine self.new.line.items bit self.new.until self.new.level }
        ensures here { InvertsSame self.new.nodes.items bit self.new.until self.new.here.items }
        ensures later { bit < u64.MAX → bit < self.new.until }
    {
        let line_behind = self.line_window.advance(bit);
        let nodes_behind = self.node_window.advance(bit);
        let line = &self.line[self.line_window.first..self.line_window.next];
        let line = line_from(line, bit);
        let nodes = &self.nodes[self.node_window.first..self.node_window.next];
        let until = nodes_from(nodes, bit, &mut self.here);
        self.level = line.level;
        self.until = line.until.min(until).min(line_behind).min(nodes_behind);
    }

    /// Returns the level of the line, true being recessive, at the current bit: that of the last fault of the line in
    /// the plan's list that stands there, else `driven`, the AND of what the nodes drive.
    pub fn line_level(&self, driven: bool) -> bool
        ensures { (plan : SegmentPlan) (bit : ℕ) → bit < u64.MAX → IsCurrent plan bit self.now
            → result ≡ line_level plan.line_faults.items bit driven }
    {
        match self.level {
            Some(level) => level,
            None => driven,
        }
    }

    /// Returns faults of nodes at the current bit. Each node that is named there samples the opposite of the level of
    /// the line, and no other node does.
    pub fn inverting(&self) -> &[NodeFault]
        ensures { (plan : SegmentPlan) (bit : ℕ) → bit < u64.MAX → IsCurrent plan bit self.now
            → (node : ℕ) (level : Bool)
            → sampled_level result.now node bit level ≡ sampled_level plan.node_faults.items node bit level }
    {
        self.here.as_slice()
    }

    /// Returns whether no fault stands at the current bit.
    #[inline]
    pub fn are_none(&self) -> bool
        ensures { result ≡ true → (plan : SegmentPlan) (bit : ℕ) → bit < u64.MAX → IsCurrent plan bit self.now
            → IsFaultless plan bit }
    {
        self.level.is_none() && self.here.is_empty()
    }

    /// Returns a bit, at most `limit`. At each bit before it, from the current one on, no fault stands, and `pass` need
    /// not be called.
    #[inline]
    pub fn faultless_until(&self, limit: u64) -> u64
        ensures limit { result ≤ limit }
        ensures uneventful { (plan : SegmentPlan) (bit : ℕ) → bit < result → IsCurrent plan bit self.now
            → IsFaultless plan bit × IsCurrent plan (bit + 1) self.now }
    {
        if !self.are_none() {
            return 0;
        }
        // the next look-up is due at `until`
        limit.min(self.until.saturating_sub(1))
    }

    /// Moves from this bit, the current one, to the next one.
    #[inline]
    pub fn pass(&mut self, bit: u64)
        requires bit { bit < u64.MAX }
        requires ready { IsReady bit self.old }
        ensures ready { IsReady (bit + 1) self.new }
        ensures current { (plan : SegmentPlan) → IsCurrent plan bit self.old → IsCurrent plan (bit + 1) self.new }
    {
        if self.until <= bit + 1 {
            self.look_up(bit + 1);
        }
    }
}

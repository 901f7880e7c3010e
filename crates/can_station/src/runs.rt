//! Many uneventful bits of one node at once.

ghost use Rattle.std.specs.Prelude.{◌≡◌, ◌<◌, ◌≤◌, ◌+◌, ℕ, Bool, true, false, List, length, min, take};
ghost use Rattle.can_node.specs.Node.{bit_of};
ghost use Rattle.can_node.specs.PlainBits.{EndsOut, count_ahead};
ghost use Rattle.can_station.specs.DeferredNodes.{GoesAsItMay, MayGoBy};
ghost use Rattle.can_station.specs.ManyBits.{MayMakeMany};

use crate::member::Member;

impl Member {
    /// Returns the levels that it drives next in a frame that it sends, at most `most` (`Node::ahead`). None where it
    /// is deferred, is not on at this bit, or has something left to report.
    pub fn ahead(&self, bit: u64, most: usize) -> &[bool]
        ensures few { length result.now ≤ most }
        ensures may { 0 < length result.now → MayGoBy true bit result.now self.now }
        ensures all { MayMakeMany bit self.now → length result.now ≡ min most (count_ahead self.now.station.node) }
    {
        if self.is_deferred || bit < self.on {
            return &[];
        }
        if !self.action.is_uneventful() {
            return &[];
        }
        self.station.node.ahead(most)
    }

    /// Returns with how many of these levels, one after another from this bit on, it continues without sending, so that
    /// nothing is reported of it (`Node::stays_out`); with all where it is deferred.
    pub(crate) fn stays_out(&self, bit: u64, levels: &[bool]) -> usize
        ensures few { result ≤ length levels.now }
        ensures may { 0 < result → self.now.is_deferred ≡ false → MayGoBy false bit (take result levels.now) self.now }
        ensures all { MayMakeMany bit self.now → EndsOut self.now.station.node levels.now result }
    {
        if self.is_deferred {
            return levels.len();
        }
        if bit < self.on || !self.action.is_uneventful() {
            return 0;
        }
        self.station.node.stays_out(levels)
    }

    /// Lets an active node continue with these levels, one after another (`Node::go_on_by`).
    pub(crate) fn go_on_by(&mut self, levels: &[bool])
        requires goes { self.old.is_deferred ≡ false → (is_sender : Bool) × (bit : ℕ)
            × MayGoBy is_sender bit levels.now self.old }
        requires room { self.old.is_deferred ≡ false → bit_of self.old.station.node + length levels.now ≤ u64.MAX }
        ensures is_deferred { self.old.is_deferred ≡ true → self.new ≡ self.old }
        ensures active { self.new.is_deferred ≡ self.old.is_deferred }
        ensures goes { self.old.is_deferred ≡ false → GoesAsItMay levels.now self.old self.new }
    {
        if self.is_deferred {
            return;
        }
        self.station.node.go_on_by(levels);
    }

    /// Lets a node that sends a frame continue with this many of the levels that it drives next (`Node::go_ahead_by`).
    pub(crate) fn go_ahead_by(&mut self, count: usize)
        requires goes { (levels : List Bool) × (bit : ℕ) × MayGoBy true bit levels self.old
            × (length levels ≡ count) }
        requires room { bit_of self.old.station.node + count ≤ u64.MAX }
        ensures active { self.new.is_deferred ≡ self.old.is_deferred }
        ensures goes { (levels : List Bool) → length levels ≡ count → GoesAsItMay levels self.old self.new }
    {
        self.station.node.go_ahead_by(count);
    }
}

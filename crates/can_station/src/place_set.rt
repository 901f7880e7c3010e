//! Sets of indices.

ghost use Rattle.std.specs.Prelude.{◌≡◌, ◌≤◌, ◌<◌, ℕ, Some, IfNone, IfSome, true, false, length, slice_get};
ghost use Rattle.can_station.specs.PlaceSets.{HasPlace, IsEmpty, IsFirst, IsOnly, IsWith, IsWithout};
ghost use Rattle.can_station.specs.DeferredNodes.{ActiveWithin};

use crate::member::Member;

/// A set of indices below 64 into a list of nodes: a few of many nodes are visited without a look at the others.
#[derive(Clone, Copy)]
pub struct PlaceSet {
    /// Bit k is 1 where index k is in the set.
    pub bits: u64,
}

impl PlaceSet {
    /// Returns the empty set.
    pub fn none() -> PlaceSet
        ensures { IsEmpty result }
    {
        PlaceSet { bits: 0 }
    }

    /// Returns the indices of those of these nodes that are active. There are at most 64 nodes.
    pub fn of_active(members: &[Member]) -> PlaceSet
        requires { length members.now ≤ 64 }
        ensures within { ActiveWithin result members.now }
        ensures active { (k : ℕ) (m : Member) → HasPlace result k → slice_get members.now k ≡ Some m
            → m.is_deferred ≡ false }
    {
        let mut set = PlaceSet::none();
        for place in 0..members.len() {
            if !members[place].is_deferred {
                set.insert(place);
            }
        }
        set
    }

    /// Adds this index, which is below 64.
    #[inline(always)]
    pub fn insert(&mut self, place: usize)
        requires { place < 64 }
        ensures { IsWith place self.old self.new }
    {
        self.bits |= 1 << place;
    }

    /// Removes and returns the least index, if there is one.
    #[inline(always)]
    pub fn take_first(&mut self) -> Option<usize>
        ensures some { IfSome result (λ place. IsFirst place self.old × IsWithout place self.old self.new) }
        ensures none { IfNone result (IsEmpty self.old × (self.new ≡ self.old)) }
        ensures below { IfSome result (λ place. place < 64) }
        ensures fewer { IfSome result (λ place. self.new.bits < self.old.bits) }
    {
        if self.bits == 0 {
            return None;
        }
        let place = self.bits.trailing_zeros() as usize;
        self.bits &= !(1 << place);
        Some(place)
    }

    /// Returns the least index, and 64 where the set is empty.
    pub fn first(self) -> usize
        ensures some { result < 64 → IsFirst result self }
        ensures none { 64 ≤ result → IsEmpty self }
        ensures most { result ≤ 64 }
    {
        self.bits.trailing_zeros() as usize
    }

    /// Returns whether the set is empty.
    pub fn is_empty(self) -> bool
        ensures none { result ≡ true → IsEmpty self }
        ensures some { IsEmpty self → result ≡ true }
    {
        self.bits == 0
    }

    /// Returns whether this index is the only one of the set.
    pub fn is_only(self, place: usize) -> bool
        ensures only { result ≡ true → IsOnly place self }
        ensures all { IsOnly place self → result ≡ true }
    {
        let mut left = self;
        match left.take_first() {
            Some(first) => first == place && left.is_empty(),
            None => false,
        }
    }
}

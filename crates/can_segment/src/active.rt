//! The nodes that are active: not deferred, so that each of them is simulated by itself.

ghost use Rattle.std.specs.Prelude.{◌≡◌, ◌<◌, true, false};
ghost use Rattle.can_station.specs.PlaceSets.{IsEmpty, IsWith};

use can_station::{Member, PlaceSet};

/// What is counted of some nodes: how many there are, and which of them are active.
#[derive(Drop)]
pub(crate) struct ActiveNodes {
    // how many there are, how many of them are active, and how many of the active ones listen
    nodes: usize,
    active: usize,
    listening: usize,
    // of the active ones
    pub(crate) places: PlaceSet,
}

impl ActiveNodes {
    /// Counts none yet of this many nodes.
    pub(crate) fn none(nodes: usize) -> ActiveNodes
        ensures { IsEmpty result.places }
    {
        ActiveNodes {
            nodes,
            active: 0,
            listening: 0,
            places: PlaceSet::none(),
        }
    }

    /// Counts the node at this place if it is active. `listens` says whether it listens then.
    #[inline(always)]
    pub(crate) fn count(&mut self, member: &Member, place: usize, listens: bool)
        requires { place < 64 }
        ensures is_deferred { member.now.is_deferred ≡ true → self.new.places ≡ self.old.places }
        ensures active { member.now.is_deferred ≡ false → IsWith place self.old.places self.new.places }
    {
        if member.is_deferred {
            return;
        }
        self.active = self.active.saturating_add(1);
        if listens {
            self.listening = self.listening.saturating_add(1);
        }
        self.places.insert(place);
    }

    /// Returns how many nodes are deferred.
    pub(crate) fn deferred(&self) -> usize {
        self.nodes.saturating_sub(self.active)
    }

    /// Returns whether, in both counts together, more than twice as many nodes listen and are active as are deferred.
    pub(crate) fn outnumber(&self, other: &ActiveNodes) -> bool {
        let deferred = self.deferred().saturating_add(other.deferred());
        let listening = self.listening.saturating_add(other.listening);
        deferred.saturating_mul(2) < listening
    }
}

/// Returns whether this controller's own node wants to start; false where there is none. It affects speed only: where
/// it is true, `regroup` defers no node, unless `idles` is set, and no single uneventful bit is simulated. The caller
/// gives the first controller, or the first that is active. The own node of a deferred controller is stale.
pub(crate) fn asks_at_each_bit(first: Option<&Member>) -> bool {
    match first {
        Some(member) => member.station.node.wants_start(),
        None => false,
    }
}

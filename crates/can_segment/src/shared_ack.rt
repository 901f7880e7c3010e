//! The ACK slot of a frame that all deferred nodes acknowledge: each counts the frame, and stays deferred.

ghost use Rattle.std.specs.Prelude.{◌≡◌, true, false};
ghost use Rattle.can_segment.specs.DeferredState.{IsSameButCounts, FollowsAck};
ghost use Rattle.can_station.specs.Places.{AtPlaces};
ghost use Rattle.can_station.specs.DeferredNodes.{CountsReceived, KnowsDeferred};

use crate::deferred::Deferred;
use can_station::{Member, receive_all};

impl Deferred {
    /// Returns whether nodes are deferred and the shared receiver has followed, with this level, the ACK slot of a
    /// frame that they acknowledge. Each of them has still to count the frame. Otherwise nothing is changed.
    #[inline(always)]
    pub(crate) fn acknowledges(&mut self, level: bool) -> bool
        ensures acknowledges { result ≡ true → FollowsAck level self.old self.new }
        ensures other { result ≡ false → self.new ≡ self.old }
    {
        self.any_deferred && self.shared_receiver.acknowledge(level)
    }

    /// Counts in each deferred node the frame that it acknowledged.
    pub(crate) fn count_received(&mut self, talkers: &mut [Member], controllers: &mut [Member])
        ensures talkers { AtPlaces (λ k. CountsReceived) talkers.old talkers.new }
        ensures controllers { AtPlaces (λ k. CountsReceived) controllers.old controllers.new }
        ensures talkers_known { AtPlaces (λ k. KnowsDeferred self.new.known) talkers.old talkers.new }
        ensures controllers_known { AtPlaces (λ k. KnowsDeferred self.new.known) controllers.old controllers.new }
        ensures same { IsSameButCounts self.old self.new }
    {
        let talkers_known = receive_all(talkers);
        let controllers_known = receive_all(controllers);
        self.known = talkers_known.and(controllers_known);
    }
}

//! How many requests of each route the bus sent and reaped.
ghost use Rattle.std.specs.Prelude.{ℕ, ◌<◌, ◌≤◌, List, [], ◌∷◌, ◌++◌, slice_index};
ghost use Rattle.bx_core.specs.Steps.{greatest_number};
ghost use Rattle.bx_core.specs.TxBus.{Item};
ghost use Rattle.bx_shared.specs.Tallies.{IsTally};

use can_frame::Frame;

/// How many requests of each of eight routes the bus side of mailboxes sent, and how many it reaped.
#[derive(Drop)]
pub struct Tally {
    /// The number of requests that were sent, of each route 0 to 7.
    pub done: [u32; 8],
    /// The number of requests that failed after their abort was asked, of each route 0 to 7.
    pub reaped: [u32; 8],
}

impl Tally {
    /// Returns the counts before any request was sent or reaped: all are 0.
    pub fn new() -> Tally
        ensures { IsTally [] [] result }
    {
        Tally {
            done: [0; 8],
            reaped: [0; 8],
        }
    }

    /// Counts a request that was sent, given its route (0 to 7), its number and its frame. The count of its route is
    /// at most 16,777,215 before the call.
    pub fn add_done(&mut self, item: (u8, u32, Frame))
        requires route { item.0 < 8 }
        requires few { slice_index self.old.done item.0 ≤ greatest_number }
        ensures { (done : List Item) (reaped : List (ℕ × ℕ)) → IsTally done reaped self.old
            → IsTally (done ++ item ∷ []) reaped self.new }
    {
        self.done[usize::from(item.0)] += 1;
    }

    /// Counts a request that was reaped, given its route (0 to 7) and its number. The count of its route is at most
    /// 16,777,215 before the call.
    pub fn add_reaped(&mut self, label: (u8, u32))
        requires route { label.0 < 8 }
        requires few { slice_index self.old.reaped label.0 ≤ greatest_number }
        ensures { (done : List Item) (reaped : List (ℕ × ℕ)) → IsTally done reaped self.old
            → IsTally done (reaped ++ label ∷ []) self.new }
    {
        self.reaped[usize::from(label.0)] += 1;
    }
}

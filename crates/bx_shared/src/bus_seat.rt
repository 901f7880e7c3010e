//! The bus's seat at the mailboxes.
ghost use Rattle.std.specs.Prelude.{◌≡◌, Some, IsSome, IfSome, IfNone, is_some, option_map};
ghost use Rattle.bx_core.specs.TxBus.{label_of};
ghost use Rattle.bx_shared.specs.BusSteps.{bus_completed};
ghost use Rattle.bx_shared.specs.Calls.{SameMailboxes, Readied, Began, NotBegan, Failed, FailedAndReaped};

use crate::bus_calls::{begin, ready};
use crate::bus_steps::{complete, fail, reap};
use crate::route_steps::{Seat, Words};
use crate::tally::Tally;
use bx_words::{fail_mask, lane, lane_mask};
use can_frame::Frame;
use std::alloc::Global;
use std::marker::Model;
use std::sync::Arc;

/// The bus's seat at a controller's transmit mailboxes (RM0008, bxCAN, "Transmission handling"), which may be in a
/// thread of its own. Contracts see the mailboxes that it is at, their priority, and what it knows of them.
#[derive(Drop)]
pub struct BusSeat {
    pub(crate) words: Arc<Words, Global>,
    pub(crate) seat: Seat,
    // the mailbox of what it transmits, and that: its route, its number and its frame
    pub(crate) mailbox: u8,
    pub(crate) sends: Option<(u8, u32, Frame)>,
    pub(crate) tally: Tally,
}

impl Model for BusSeat {
    ghost use Rattle.bx_shared.specs.Seats.{BusPlace};

    ghost Value = { BusPlace };

    ghost use Rattle.bx_shared.specs.SeatParts.{bus_view, IsBusSeat};

    ghost view = { bus_view };

    ghost invariant = { IsBusSeat };
}

impl BusSeat {
    /// Whether a request is transmitting: the test for the condition of `complete` and `fail`.
    pub fn is_transmitting(&self) -> bool
        ensures { result ≡ is_some self.now.bus.sends }
    {
        self.sends.is_some()
    }

    /// Schedules the next request, where none is scheduled: by order of requests the oldest, by identifier that of the
    /// least arbitration key (RM0008, bxCAN, "Transmit priority"). Whether one is scheduled that may start. One look,
    /// and at most one exchange: `false` also comes where another seat was faster.
    pub fn ready(&mut self) -> bool
        ensures stays { SameMailboxes self.old self.new }
        ensures ready { Readied self.old.bus self.new.bus result }
    {
        ready(&self.words, &mut self.seat)
    }

    /// Starts the transmission of what is scheduled: its route, its number and its frame. `None` where nothing is
    /// scheduled that may start, or where another seat was faster; then nothing changed.
    pub fn start(&mut self) -> Option<(u8, u32, Frame)>
        ensures stays { SameMailboxes self.old self.new }
        ensures began { IfSome result (Began self.old.bus self.new.bus) }
        ensures none { IfNone result (NotBegan self.old.bus self.new.bus) }
    {
        let (mailbox, item) = begin(&self.words, &mut self.seat)?;
        self.mailbox = mailbox;
        self.sends = Some(item);
        self.sends
    }

    /// What is transmitting was sent, and its mailbox is empty: one step, which always takes effect.
    pub fn complete(&mut self)
        requires { IsSome self.old.bus.sends }
        ensures stays { SameMailboxes self.old self.new }
        ensures completed { self.new.bus ≡ bus_completed self.old.bus }
    {
        complete(&self.words, &mut self.seat, lane_mask(self.mailbox));
        if let Some(item) = self.sends.take() {
            self.tally.add_done(item);
        }
    }

    /// The transmission failed, by an error or by lost arbitration. It is scheduled again, in one step; or, where its
    /// abort was asked, a second step empties its mailbox, and this gives its route and its number. Both always take
    /// effect.
    pub fn fail(&mut self) -> Option<(u8, u32)>
        requires { IsSome self.old.bus.sends }
        ensures stays { SameMailboxes self.old self.new }
        ensures failed { IfNone result (Failed self.old.bus self.new.bus) }
        ensures reaped { IfSome result (λ x. FailedAndReaped self.old.bus self.new.bus) }
        ensures label { IfSome result (λ x. option_map label_of self.old.bus.sends ≡ Some x) }
    {
        let word = fail(&self.words, &mut self.seat, fail_mask(self.mailbox));
        let (route, number, _) = self.sends.take()?;
        // 15 is the mark of a transmission, 31 that of one whose abort was asked
        if lane(word, self.mailbox) % 32 == 15 {
            return None;
        }
        reap(&self.words, &mut self.seat, lane_mask(self.mailbox));
        self.tally.add_reaped((route, number));
        Some((route, number))
    }
}

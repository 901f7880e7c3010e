//! A request that waits in its mailbox.
ghost use Rattle.std.specs.Prelude.{◌≡◌};
ghost use Rattle.bx_core.specs.States.{entry_of};
ghost use Rattle.bx_core.specs.Steps.{may_start, may_reap};
ghost use Rattle.bx_core.specs.Ties.{as_left};

use crate::entry::Entry;
use crate::left::Left;
use crate::status::Status;
use can_frame::Frame;

/// A request in its mailbox, from the request until the mailbox is empty again.
#[derive(Clone, Copy, Debug, Default, PartialEq, Eq)]
pub struct Waiting {
    /// The route that requested it.
    pub route: u8,
    /// The number that the route gave it, from 1 to 16,777,215.
    pub number: u32,
    /// The frame to be sent.
    pub frame: Frame,
    /// The mailbox that holds it, from 0 to 2.
    pub mailbox: u8,
    /// How far it has come.
    pub status: Status,
    /// Whether its route asked for an abort while it was transmitting (RM0008, bxCAN, "Abort").
    pub abort_asked: bool,
}

impl Waiting {
    pub(crate) fn may_start(&self) -> bool
        ensures { result ≡ may_start self.now }
    {
        self.status.is_scheduled() && !self.abort_asked
    }

    pub(crate) fn may_reap(&self) -> bool
        ensures { result ≡ may_reap self.now }
    {
        self.status.is_scheduled() && self.abort_asked
    }

    pub(crate) fn as_left(&self) -> Left
        ensures { result ≡ as_left self.now }
    {
        let Entry { number, frame } = self.entry();
        Left {
            route: self.route,
            number,
            frame,
        }
    }

    pub(crate) fn entry(&self) -> Entry
        ensures { result ≡ entry_of self.now }
    {
        Entry {
            number: self.number,
            frame: self.frame,
        }
    }
}

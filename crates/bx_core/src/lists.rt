//! What became of a route's requests.
ghost use Rattle.std.specs.Prelude.{◌≡◌, ◌+◌, ◌++◌, ◌∷◌, [], ℕ, OnOk, OnErr};
ghost use Rattle.bx_core.specs.States.{no_lists};
ghost use Rattle.bx_core.specs.Steps.{last_number, requested_lists};
ghost use Rattle.bx_core.specs.Room.{lists_view, HasRoom};
ghost use Rattle.bx_core.specs.End.{ended_lists};

use crate::end::End;
use crate::entry::Entry;
use crate::waiting::Waiting;
use std::alloc::{AllocError, Global};

/// What became of a route's requests, each list in the order of its events.
#[derive(Drop)]
pub(crate) struct Lists {
    pub(crate) requested: Vec<Entry>,
    pub(crate) done: Vec<Entry>,
    pub(crate) aborted: Vec<u32>,
    pub(crate) reaped: Vec<u32>,
}

impl Lists {
    pub(crate) fn new(alloc: Global) -> Lists
        ensures { lists_view result ≡ no_lists }
    {
        Lists {
            requested: Vec::new(alloc),
            done: Vec::new(alloc),
            aborted: Vec::new(alloc),
            reaped: Vec::new(alloc),
        }
    }

    /// The newest number that was requested, or 0.
    pub(crate) fn last_number(&self) -> u32
        ensures { result ≡ last_number self.now.requested.items }
    {
        match self.requested.as_slice().last() {
            Some(entry) => entry.number,
            None => 0,
        }
    }

    /// Adds a request. At most three wait, one a mailbox, and each may end in any of three lists:
    /// so room for three more in each list is made here, and no end wants memory.
    pub(crate) fn add_requested(&mut self, entry: Entry) -> Result<(), AllocError>
        ensures ok { OnOk result (lists_view self.new ≡ requested_lists (lists_view self.old) entry) }
        ensures err { OnErr result (lists_view self.new ≡ lists_view self.old) }
        ensures room { OnOk result (HasRoom self.new 3) }
        ensures keeps { (more : ℕ) → HasRoom self.old more → HasRoom self.new more }
    {
        self.done.reserve(3)?;
        self.aborted.reserve(3)?;
        self.reaped.reserve(3)?;
        self.requested.push(entry)?;
        Ok(())
    }

    /// Adds a request that ended, in the room that was made for it.
    pub(crate) fn add_ended(&mut self, waiting: &Waiting, end: End)
        requires { HasRoom self.old 1 }
        ensures lists { lists_view self.new ≡ ended_lists (lists_view self.old) waiting.now end }
        ensures keeps { (more : ℕ) → HasRoom self.old (more + 1) → HasRoom self.new more }
    {
        match end {
            End::Done => self.add_done(waiting.entry()),
            End::Aborted => self.add_aborted(waiting.number),
            End::Reaped => self.add_reaped(waiting.number),
        }
    }

    fn add_done(&mut self, entry: Entry)
        requires { HasRoom self.old 1 }
        ensures lists { lists_view self.new ≡ record (lists_view self.old)
            { done = self.old.done.items ++ entry ∷ [] } }
        ensures keeps { (more : ℕ) → HasRoom self.old (more + 1) → HasRoom self.new more }
    {
        let _ = self.done.push(entry);
    }

    fn add_aborted(&mut self, number: u32)
        requires { HasRoom self.old 1 }
        ensures lists { lists_view self.new ≡ record (lists_view self.old)
            { aborted = self.old.aborted.items ++ number ∷ [] } }
        ensures keeps { (more : ℕ) → HasRoom self.old (more + 1) → HasRoom self.new more }
    {
        let _ = self.aborted.push(number);
    }

    fn add_reaped(&mut self, number: u32)
        requires { HasRoom self.old 1 }
        ensures lists { lists_view self.new ≡ record (lists_view self.old)
            { reaped = self.old.reaped.items ++ number ∷ [] } }
        ensures keeps { (more : ℕ) → HasRoom self.old (more + 1) → HasRoom self.new more }
    {
        let _ = self.reaped.push(number);
    }
}

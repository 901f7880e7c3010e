//! The side of a receive FIFO where frames come in.
ghost use Rattle.std.specs.Prelude.{◌≡◌};
ghost use Rattle.bx_rx.specs.RxIn.{none_put, IsOffered};

use crate::log::Log;
use crate::offered::Offered;
use crate::rule::{Line, Notes, Stores};
use crate::rx_frame::RxFrame;
use crossbeam_queue::Pass;
use std::alloc::Global;
use std::marker::Model;
use std::sync::{Arc, Wait};

/// The offering side of a receive FIFO. Contracts see which FIFO it belongs to, all the frames that it
/// stored, and what each of its calls stored, the first one first.
#[derive(Drop)]
pub struct RxIn {
    pub(crate) line: Arc<Line, Global>,
    pub(crate) pass: Pass<RxFrame, Log>,
}

impl Model for RxIn {
    ghost use Rattle.bx_rx.specs.RxIn.{Inlet};

    ghost Value = { Inlet };

    ghost use Rattle.bx_rx.specs.RxInParts.{in_view, IsIn};

    ghost view = { in_view };

    ghost invariant = { IsIn };
}

impl RxIn {
    /// Offers a frame to the FIFO, which stores it behind the others or, where it is full, discards it
    /// (RM0008, bxCAN, "Reception handling", "Overrun"; the FIFO is locked). Takes no memory. May wait
    /// while the other side is in the middle of a release.
    ///
    /// `Overrun` comes only where the FIFO held three frames at one moment of the call. Proved of that
    /// is what this side can know: three frames or more were stored before, and those three were the
    /// last of them. That later offers are stored wherever there is room is shown by tests alone.
    pub fn offer<R: Wait>(&mut self, rt: &R, frame: RxFrame) -> Offered
        ensures { IsOffered self.old frame result self.new }
    {
        match self.line.push_as::<Stores, R>(rt, &mut self.pass, frame) {
            Ok(()) => Offered::Stored,
            Err(_) => {
                self.note_none();
                Offered::Overrun
            }
        }
    }

    /// Does nothing but that contracts see one call more, which stored nothing.
    fn note_none(&mut self)
        ensures { self.new ≡ none_put self.old }
    {
        let aside = self.line.another::<Notes>(&mut self.pass);
        self.line.absorb::<Notes>(&mut self.pass, aside);
    }
}

//! The side of a receive FIFO where frames go out.
ghost use Rattle.std.specs.Prelude.{◌≡◌};
ghost use Rattle.bx_rx.specs.RxOut.{none_given, IsReleased};

use crate::log::Log;
use crate::rule::{Line, Notes, Releases};
use crate::rx_frame::RxFrame;
use crossbeam_queue::Pass;
use std::alloc::Global;
use std::marker::Model;
use std::sync::{Arc, Wait};

/// The releasing side of a receive FIFO. Contracts see which FIFO it belongs to, all the frames that it
/// released, and what each of its calls gave, the first one first.
#[derive(Drop)]
pub struct RxOut {
    pub(crate) line: Arc<Line, Global>,
    pub(crate) pass: Pass<RxFrame, Log>,
}

impl Model for RxOut {
    ghost use Rattle.bx_rx.specs.RxOut.{Outlet};

    ghost Value = { Outlet };

    ghost use Rattle.bx_rx.specs.RxOutParts.{out_view, IsOut};

    ghost view = { out_view };

    ghost invariant = { IsOut };
}

impl RxOut {
    /// Releases the oldest frame of the FIFO (RM0008, bxCAN, "Reception handling", "FIFO release").
    /// Takes no memory. May wait while the other side is in the middle of an offer.
    ///
    /// `None` comes only where the FIFO held no frame at one moment of the call, and then nothing is
    /// released. This side can't know what was stored, so that a frame which is held is released, and
    /// not `None`, is shown by tests alone; that none is lost or changed, `RxFifo::close` proves.
    pub fn release<R: Wait>(&mut self, rt: &R) -> Option<RxFrame>
        ensures { IsReleased self.old result self.new }
    {
        // mostly there is none, and two loads tell so
        if self.line.is_empty_as::<Releases>(&mut self.pass) {
            self.note_none();
            return None;
        }
        match self.line.pop_as::<Releases, R>(rt, &mut self.pass) {
            Some(frame) => Some(frame),
            None => {
                self.note_none();
                None
            }
        }
    }

    /// Does nothing but that contracts see one call more, which gave nothing.
    fn note_none(&mut self)
        ensures { self.new ≡ none_given self.old }
    {
        let aside = self.line.another::<Notes>(&mut self.pass);
        self.line.absorb::<Notes>(&mut self.pass, aside);
    }
}

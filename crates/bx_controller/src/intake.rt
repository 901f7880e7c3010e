//! Where frames come into a receive FIFO.

ghost use Rattle.std.specs.Prelude.{◌≡◌, ◌<◌, ◌++◌, ◌∷◌, [], List, length};
ghost use Rattle.can_frame.specs.Frames.{FrameValue};
ghost use Rattle.bx_controller.specs.Intakes.{IntakeStands, StoresAtMost};

use bx_rx::{Offered, RxFrame, RxIn};
use std::sync::Wait;

/// The offering side of a receive FIFO, with the counts of what it was offered and what it discarded.
#[derive(Drop)]
pub struct Intake {
    /// The offering side.
    pub rxin: RxIn,
    /// How many frames it was offered.
    pub accepted: u64,
    /// How many of them it discarded, since it was full.
    pub overrun: u64,
}

impl Intake {
    /// The offering side of a FIFO that was offered nothing yet.
    pub fn new(rxin: RxIn) -> Intake
        requires { (rxin.stored ≡ []) × (rxin.calls ≡ []) }
        ensures stands { IntakeStands result [] }
        ensures queue { result.rxin.queue ≡ rxin.queue }
    {
        Intake {
            rxin,
            accepted: 0,
            overrun: 0,
        }
    }

    /// Offers a frame to the FIFO, and counts it; where it is discarded, that too (RM0008, bxCAN, "Overrun"). May
    /// wait while the other side is in the middle of a release.
    pub fn offer<R: Wait>(&mut self, rt: &R, frame: RxFrame)
        ensures stands { (offered : List FrameValue) → length offered < u64.MAX → IntakeStands self.old offered
            → IntakeStands self.new (offered ++ frame.frame ∷ []) }
        ensures stores { StoresAtMost self.old self.new frame }
        ensures queue { self.new.rxin.queue ≡ self.old.rxin.queue }
    {
        self.accepted = self.accepted.saturating_add(1);
        match self.rxin.offer(rt, frame) {
            Offered::Stored => {}
            Offered::Overrun => self.overrun = self.overrun.saturating_add(1),
        }
    }
}

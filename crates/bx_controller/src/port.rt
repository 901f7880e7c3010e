//! A controller, as a port of its segment.

ghost use Rattle.std.specs.Prelude.{◌≡◌};
ghost use Rattle.bx_controller.specs.Slots.{SlotOffers, SameFifo};

use crate::intake::Intake;
use bx_core::TxBus;
use bx_rx::{Banks, RxFrame};
use can_frame::Frame;
use can_segment::RxSink;
use std::sync::Wait;

/// A controller on a segment (RM0008, bxCAN): the bus side of its mailboxes, whichever these are, its filter banks, and
/// where frames come into its two receive FIFOs. One that no route takes from is `None`: what comes to it is never
/// seen again.
#[derive(Drop)]
pub struct Port<B> {
    /// The bus side of its transmit mailboxes.
    pub mail: B,
    /// Its filter banks.
    pub banks: Banks,
    /// Where frames come into FIFO 0.
    pub first: Option<Intake>,
    /// Where frames come into FIFO 1.
    pub second: Option<Intake>,
}

/// Offers a frame to a FIFO, if a route takes from it.
fn offer_to<R: Wait>(rt: &R, slot: &mut Option<Intake>, frame: RxFrame)
    ensures stands { SlotOffers slot.old slot.new frame }
    ensures queue { SameFifo slot.old slot.new }
{
    match slot {
        Some(intake) => intake.offer(rt, frame),
        None => {}
    }
}

impl<R, B: TxBus<R>> TxBus<R> for Port<B> {
    ghost use Rattle.std.specs.Prelude.{◌≡◌};
    ghost use Rattle.bx_controller.specs.Ports.{BusLeaves, bus_leaves-self, bus_leaves-on};

    ghost bus_after = { λ p past. B.bus_after p.mail past };

    ghost bus_asked = { λ p calls. B.bus_asked p.mail calls };

    ghost transmitting = { λ p. B.transmitting p.mail };

    ghost bus_stays = { BusLeaves B.bus_stays };

    fn ready(&mut self, rt: &R) -> bool {
        self.mail.ready(rt)
    }

    fn start(&mut self, rt: &R) -> Option<(u8, u32, Frame)> {
        self.mail.start(rt)
    }

    fn complete(&mut self, rt: &R) {
        self.mail.complete(rt);
    }

    fn fail(&mut self, rt: &R) -> Option<(u8, u32)> {
        self.mail.fail(rt)
    }

    ghost bus_stays_self = { bus_leaves-self B.bus_stays B.bus_stays_self };

    ghost bus_stays_on = { bus_leaves-on B.bus_stays B.bus_stays_on };
}

impl<R: Wait, B: TxBus<R>> RxSink<R> for Port<B> {
    ghost use Rattle.std.specs.Prelude.{◌≡◌};
    ghost use Rattle.bx_controller.specs.Ports.{SinkStands, PortLeaves, sink_leaves, port_of_bus, port_leaves-on};

    ghost sink_after = { SinkStands };

    ghost port_stays = { PortLeaves B.bus_stays };

    /// The frame goes to the FIFO of the filter that it is received by, with that filter's number, and nowhere where
    /// none matches (RM0008, bxCAN, "Identifier filtering").
    fn offer(&mut self, rt: &R, frame: Frame) {
        match self.banks.find(&frame) {
            None => {}
            Some((fifo, filter_number)) => {
                let received = RxFrame {
                    frame,
                    filter_number,
                };
                if fifo == 0 {
                    offer_to(rt, &mut self.first, received);
                    return;
                }
                // no bank has a third FIFO
                if fifo == 1 {
                    offer_to(rt, &mut self.second, received);
                }
            }
        }
    }

    ghost sink_stays = { sink_leaves B.bus_stays };

    ghost port_of_bus = { port_of_bus B.bus_stays };

    ghost port_stays_on = { port_leaves-on B.bus_stays B.bus_stays_on };
}

//! Receive FIFOs are put into controllers, and taken out again.

ghost use Rattle.std.specs.Prelude.{◌≡◌, ◌<◌, Some, None, length};
ghost use Rattle.bx_controller.specs.declared.port.Port.{Port};
ghost use Rattle.bx_controller.specs.declared.intake.Intake.{Intake};
ghost use Rattle.gw_opening.specs.Places.{IsAt, PortChanges, slot_of};
ghost use Rattle.gw_opening.specs.Slots.{SetsSlot};

use crate::place::Place;
use bx_controller::{Intake, Port};
use gw_site::Site;
use std::mem::replace;

/// The FIFO of this number gets this in its place, and what was there comes out.
fn exchange<B>(port: &mut Port<B>, fifo: u8, slot: Option<Intake>) -> Option<Intake>
    ensures sets { SetsSlot fifo slot port.old port.new }
    ensures was { result ≡ slot_of port.old fifo }
{
    if fifo == 0 {
        return replace(&mut port.first, slot);
    }
    replace(&mut port.second, slot)
}

/// The same at a place of a run.
fn exchange_at<B>(
    sites: &mut [Site<Port<B>>],
    place: Place,
    fifo: u8,
    slot: Option<Intake>,
) -> Option<Intake>
    requires { (port : Port B) × IsAt sites.old place port }
    ensures sets { PortChanges (SetsSlot fifo slot) sites.old sites.new place }
    ensures was { (port : Port B) → IsAt sites.old place port → result ≡ slot_of port fifo }
{
    exchange(&mut sites[place.site].ports[place.port], fifo, slot)
}

/// Frames come into the FIFO of this number there.
pub(crate) fn put<B>(sites: &mut [Site<Port<B>>], place: Place, fifo: u8, intake: Intake)
    requires { (port : Port B) × IsAt sites.old place port }
    ensures { PortChanges (SetsSlot fifo (Some intake)) sites.old sites.new place }
{
    let _ = exchange_at(sites, place, fifo, Some(intake));
}

/// No more frames come into the FIFO of this number there: what its controller had of it comes out.
pub fn take<B>(sites: &mut [Site<Port<B>>], place: Place, fifo: u8) -> Intake
    requires { (port : Port B) × (intake : Intake) × IsAt sites.old place port × (slot_of port fifo ≡ Some intake) }
    ensures sets { PortChanges (SetsSlot fifo None) sites.old sites.new place }
    ensures was { (port : Port B) → IsAt sites.old place port → slot_of port fifo ≡ Some result }
{
    match exchange_at(sites, place, fifo, None) {
        Some(intake) => intake,
        None => unreachable!(),
    }
}

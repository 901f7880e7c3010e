//! Routes part before their run in threads, and are together again behind it.

ghost use Rattle.std.specs.Prelude.{◌≡◌, ◌<◌, ◌≤◌, IfOk, OnOk, Some, length, map, slice_get};
ghost use Rattle.gw_site.specs.Pairs.{Pairs};
ghost use Rattle.gw_threaded.specs.Parts.{lead_of, AreThere, HaveGates, HaveParted, IsLaneFrom, HaveCome, LeavesBehind};

use crate::lead::Lead;
use gw_opening::{Lane, push_one};
use gw_pool::Courier;
use gw_sides::{put, take};
use std::alloc::{AllocError, Global};

/// A place for each of these, where it stands.
pub(crate) fn placed<T: Drop>(alloc: Global, all: Vec<T>) -> Result<Vec<Option<T>>, AllocError>
    ensures { IfOk result (λ slots. slots.items ≡ map Some all.items) }
{
    let mut slots = Vec::with_capacity(alloc, all.len())?;
    for one in all {
        push_one(&mut slots, Some(one))?;
    }
    Ok(slots)
}

/// Each route parts: its hand goes to its thread with the side and the gate at its place.
pub(crate) fn part<S: Drop, G: Drop>(
    alloc: Global,
    lanes: Vec<Lane>,
    seats: &mut [Option<S>],
    gates: &mut [Option<G>],
) -> Result<(Vec<Lead>, Vec<Courier<S, G>>), AllocError>
    requires sides { AreThere (length lanes.items) seats.old }
    requires gates { AreThere (length lanes.items) gates.old }
    ensures parted { IfOk result (λ made. HaveParted seats.old gates.old lanes.items made.0.items made.1.items) }
    ensures leaves { OnOk result (LeavesBehind (length lanes.items) seats.old seats.new) }
{
    let mut leads = Vec::with_capacity(alloc, lanes.len())?;
    let mut couriers = Vec::with_capacity(alloc, lanes.len())?;
    let mut place = 0usize;
    for lane in lanes {
        let Lane {
            hand,
            source,
            fifo,
            target,
            number,
        } = lane;
        let side = take(seats, place);
        let gate = take(gates, place);
        push_one(
            &mut leads,
            Lead {
                source,
                fifo,
                target,
                number,
            },
        )?;
        push_one(&mut couriers, Courier { hand, side, gate })?;
        place += 1;
    }
    Ok((leads, couriers))
}

/// Each route parts: its hand goes to its thread with the side at its place, and the gate at its place in this list.
pub(crate) fn part_all<S: Drop, G: Drop>(
    alloc: Global,
    lanes: Vec<Lane>,
    seats: &mut [Option<S>],
    gates: Vec<G>,
) -> Result<(Vec<Lead>, Vec<Courier<S, G>>), AllocError>
    requires sides { AreThere (length lanes.items) seats.old }
    requires gates { length gates.items ≡ length lanes.items }
    ensures parted { IfOk result (λ made. HaveParted seats.old (map Some gates.items) lanes.items made.0.items
        made.1.items) }
    ensures gates { IfOk result (λ made. HaveGates gates.items made.1.items) }
    ensures leaves { OnOk result (LeavesBehind (length lanes.items) seats.old seats.new) }
{
    let mut gates = placed(alloc, gates)?;
    part(alloc, lanes, seats, gates.as_mut_slice())
}

/// The lead at a place.
fn lead_at(leads: &[Lead], place: usize) -> Lead
    requires { place < length leads.now }
    ensures { slice_get leads.now place ≡ Some result }
{
    leads[place]
}

/// Routes are together again: the hands of the couriers with what stayed at home, and each side at its place.
pub(crate) fn meet<S: Drop, G: Drop>(
    alloc: Global,
    leads: &[Lead],
    couriers: Vec<Courier<S, G>>,
    seats: &mut [Option<S>],
) -> Result<Vec<Lane>, AllocError>
    requires leads { length couriers.items ≤ length leads.now }
    requires seats { length couriers.items ≤ length seats.old }
    ensures lanes { IfOk result (λ lanes. Pairs (IsLaneFrom leads.now) couriers.items lanes.items) }
    ensures come { OnOk result (HaveCome couriers.items seats.old seats.new) }
{
    let mut lanes = Vec::with_capacity(alloc, couriers.len())?;
    let mut place = 0usize;
    for courier in couriers {
        let Courier {
            hand,
            side,
            gate: _,
        } = courier;
        let lead = lead_at(leads, place);
        put(seats, place, side);
        push_one(
            &mut lanes,
            Lane {
                hand,
                source: lead.source,
                fifo: lead.fifo,
                target: lead.target,
                number: lead.number,
            },
        )?;
        place += 1;
    }
    Ok(lanes)
}

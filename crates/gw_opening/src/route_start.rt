//! The routes of a script, before the first turn.

ghost use Rattle.std.specs.Prelude.{◌≡◌, ◌<◌, [], IfOk, OnOk, length, slice_get, Some};
ghost use Rattle.gw_config.specs.Routes.{RouteValue};
ghost use Rattle.gw_config.specs.SoundScripts.{IsSound};
ghost use Rattle.gw_opening.specs.declared.lane.Lane.{Lane};
ghost use Rattle.bx_controller.specs.Intakes.{IntakeStands};
ghost use Rattle.gw_opening.specs.Openings.{AreNewSites, IsNewLane, Takes, TakesApart, Opens, SameMails};
ghost use Rattle.gw_opening.specs.Plans.{abort_in, aborts_of};

use crate::growing::{push_one, push_some};
use crate::lane::Lane;
use crate::place::Place;
use crate::places::number_of;
use crate::slots::put;
use arrayvec::ArrayVec;
use bx_controller::{Intake, Port};
use bx_rx::{RxFifo, RxOut};
use can_frame::{Memory, Rewrite};
use gw_route::{RouteAbort, RouteHand};
use gw_script::{Route, Script};
use gw_site::Site;
use std::alloc::{AllocError, Global};

fn abort_in(route: usize, abort: &gw_script::PlannedAbort) -> Option<RouteAbort>
    ensures { result ≡ abort_in route abort.now }
{
    if abort.route == route {
        return Some(RouteAbort {
            number: abort.number,
            turn: abort.turn,
        });
    }
    None
}

/// The aborts of a route, in the order of the script.
fn aborts_of(alloc: Global, script: &Script, route: usize) -> Result<Vec<RouteAbort>, AllocError>
    ensures { IfOk result (λ aborts. aborts.items ≡ aborts_of script.now route) }
{
    let mut aborts = Vec::new(alloc);
    for abort in script.aborts() {
        push_some(&mut aborts, abort_in(route, abort))?;
    }
    Ok(aborts)
}

/// The new identifiers of a route.
fn rewrites_of(route: &Route) -> ArrayVec<Rewrite, 32>
    ensures { result.items ≡ route.now.rewrites }
{
    let mut rewrites = ArrayVec::new();
    // a route has no more than 32
    let _ = rewrites.try_extend_from_slice(route.rewrites());
    rewrites
}

/// The two sides of a FIFO that was offered nothing.
fn fifo_of(alloc: Global) -> Result<(Intake, RxOut), Memory>
    ensures stands { IfOk result (λ sides. IntakeStands sides.0 []) }
    ensures queue { IfOk result (λ sides. sides.0.rxin.queue ≡ sides.1.queue) }
    ensures released { IfOk result (λ sides. sides.1.released ≡ []) }
{
    match RxFifo::pair(alloc) {
        Ok((rxin, out)) => Ok((Intake::new(rxin), out)),
        Err(memory) => Err(memory),
    }
}

/// A route that takes its frames from here.
fn lane_of(alloc: Global, script: &Script, route: usize, out: RxOut) -> Result<Lane, AllocError>
    requires sound { IsSound script.now }
    requires there { route < length script.now.routes }
    requires released { out.released ≡ [] }
    ensures lane { IfOk result (λ lane. (value : RouteValue) → slice_get script.now.routes route ≡ Some value
        → IsNewLane script.now route value lane) }
    ensures queue { IfOk result (λ lane. lane.hand.out.queue ≡ out.queue) }
{
    let aborts = aborts_of(alloc, script, route)?;
    let said = &script.routes()[route];
    let source = Place::of(script, said.source());
    let target = Place::of(script, said.target());
    let number = number_of(script, route, said.target());
    Ok(Lane {
        hand: RouteHand::with_queue(alloc, out, said.queue(), aborts, rewrites_of(said)),
        source,
        fifo: said.fifo(),
        target,
        number,
    })
}

/// A route, whose FIFO is put into the controller that it takes from.
fn start_lane<B>(
    alloc: Global,
    script: &Script,
    route: usize,
    sites: &mut [Site<Port<B>>],
) -> Result<Lane, Memory>
    requires sound { IsSound script.now }
    requires there { route < length script.now.routes }
    requires sites { AreNewSites script.now sites.old }
    ensures sites { OnOk result (AreNewSites script.now sites.new) }
    ensures mails { OnOk result (SameMails sites.old sites.new) }
    ensures lane { IfOk result (λ lane. (value : RouteValue) → slice_get script.now.routes route ≡ Some value
        → IsNewLane script.now route value lane) }
    ensures takes { IfOk result (Takes sites.new) }
    ensures others { IfOk result (λ lane. (other : Lane) → TakesApart other lane → Takes sites.old other
        → Takes sites.new other) }
{
    let (intake, out) = match fifo_of(alloc) {
        Ok(sides) => sides,
        Err(memory) => return Err(memory),
    };
    let lane = lane_of(alloc, script, route, out)?;
    put(sites, lane.source, lane.fifo, intake);
    Ok(lane)
}

/// All routes of a script before their first turn, in its order. The FIFO of each is put into the controller that it
/// takes from. `Memory` where a growth was refused.
pub fn lanes_of<B>(
    alloc: Global,
    script: &Script,
    sites: &mut [Site<Port<B>>],
) -> Result<Vec<Lane>, Memory>
    requires sound { IsSound script.now }
    requires sites { AreNewSites script.now sites.old }
    ensures opens { IfOk result (λ lanes. Opens script.now sites.new lanes.items) }
    ensures mails { OnOk result (SameMails sites.old sites.new) }
{
    let mut lanes = Vec::new(alloc);
    for route in 0..script.routes().len() {
        let lane = start_lane(alloc, script, route, sites)?;
        push_one(&mut lanes, lane)?;
    }
    Ok(lanes)
}

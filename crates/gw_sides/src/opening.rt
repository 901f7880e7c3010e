//! The mailboxes of all controllers are opened.

ghost use Rattle.std.specs.Prelude.{◌≡◌, ◌<◌, Some, IfOk, OnOk, length, slice_get};
ghost use Rattle.gw_config.specs.Controllers.{ControllerValue};
ghost use Rattle.gw_config.specs.Nodes.{controller_places};
ghost use Rattle.gw_config.specs.SoundScripts.{IsSound};
ghost use Rattle.gw_opening.specs.Openings.{priority_of};
ghost use Rattle.gw_site.specs.Pairs.{Pairs};
ghost use Rattle.gw_sides.specs.Seats.{HasSeats, Leaves, LeavesOn};
ghost use Rattle.gw_sides.specs.Sets.{AllSendBy, IsNewSet, IsNewSide, OpensPort, OpensSite};

use crate::seats::{put_all, seats_for};
use bx_controller::Port;
use bx_core::{Mailboxes, RouteTx, TxBus};
use can_frame::Memory;
use gw_opening::{controller_count, controller_there, port_of, push_one, routes_at, site_of};
use gw_script::Script;
use gw_site::Site;
use std::alloc::Global;

/// Whether a controller sends by order of requests.
fn priority_at(script: &Script, controller: usize) -> bool
    requires { controller < length script.now.controllers }
    ensures { (value : ControllerValue) → slice_get script.now.controllers controller ≡ Some value → result
        ≡ priority_of value }
{
    script.controllers()[controller].txfp()
}

/// The port of a controller with mailboxes for the routes into it, whose sides come to their places.
fn open_port<R, B: TxBus<R> + Drop, S: RouteTx<R> + Drop, M: Mailboxes<R, B, S>>(
    rt: &R,
    alloc: Global,
    script: &Script,
    controller: usize,
    seats: &mut [Option<S>],
) -> Result<Port<B>, Memory>
    requires sound { IsSound script.now }
    requires there { controller < length script.now.controllers }
    requires priority { AllSendBy M.can_send_by script.now }
    requires seats { HasSeats script.now seats.old }
    ensures opens { IfOk result (OpensPort (IsNewSet B.bus_after B.bus_asked B.transmitting M.routes_of M.txfp_of)
        (IsNewSide M.side_of S.route_after) script.now seats.new controller) }
    ensures leaves { OnOk result (Leaves script.now controller seats.old seats.new) }
{
    let txfp = priority_at(script, controller);
    match M::open(rt, alloc, routes_at(script, controller), txfp) {
        Ok((mail, sides)) => {
            put_all(script, controller, sides, seats);
            Ok(port_of(script, controller, mail))
        }
        Err(memory) => Err(memory),
    }
}

/// The ports of the controllers on a segment, in the order of the script.
fn open_ports<R, B: TxBus<R> + Drop, S: RouteTx<R> + Drop, M: Mailboxes<R, B, S>>(
    rt: &R,
    alloc: Global,
    script: &Script,
    segment: usize,
    seats: &mut [Option<S>],
) -> Result<Vec<Port<B>>, Memory>
    requires sound { IsSound script.now }
    requires priority { AllSendBy M.can_send_by script.now }
    requires seats { HasSeats script.now seats.old }
    ensures opens { IfOk result (λ ports. Pairs (λ k. OpensPort
        (IsNewSet B.bus_after B.bus_asked B.transmitting M.routes_of M.txfp_of)
        (IsNewSide M.side_of S.route_after) script.now seats.new) (controller_places script.now segment) ports.items) }
    ensures leaves { OnOk result (LeavesOn script.now segment seats.old seats.new) }
{
    let mut ports = Vec::new(alloc);
    for nth in 0..controller_count(script, segment) {
        let controller = controller_there(script, segment, nth);
        let port = open_port::<R, B, S, M>(rt, alloc, script, controller, seats)?;
        push_one(&mut ports, port)?;
    }
    Ok(ports)
}

/// All segments of a script with their controllers before the first bit, whose mailboxes are opened as these sets; and
/// the sides of all mailboxes: first that of each route in the order of the script, then one for each controller that
/// no route leads into. `Memory` where a growth was refused.
pub fn open_all<R, B: TxBus<R> + Drop, S: RouteTx<R> + Drop, M: Mailboxes<R, B, S>>(
    rt: &R,
    alloc: Global,
    script: &Script,
) -> Result<(Vec<Site<Port<B>>>, Vec<Option<S>>), Memory>
    requires sound { IsSound script.now }
    requires priority { AllSendBy M.can_send_by script.now }
    ensures opens { IfOk result (λ made. Pairs (λ i said. OpensSite
        (IsNewSet B.bus_after B.bus_asked B.transmitting M.routes_of M.txfp_of)
        (IsNewSide M.side_of S.route_after) script.now made.1.items i) script.now.segments made.0.items) }
    ensures seats { IfOk result (λ made. HasSeats script.now made.1.items) }
{
    let mut seats = seats_for(alloc, script)?;
    let sites = open_sites::<R, B, S, M>(rt, alloc, script, seats.as_mut_slice())?;
    Ok((sites, seats))
}

/// All segments of a script, with their controllers.
fn open_sites<R, B: TxBus<R> + Drop, S: RouteTx<R> + Drop, M: Mailboxes<R, B, S>>(
    rt: &R,
    alloc: Global,
    script: &Script,
    seats: &mut [Option<S>],
) -> Result<Vec<Site<Port<B>>>, Memory>
    requires sound { IsSound script.now }
    requires priority { AllSendBy M.can_send_by script.now }
    requires seats { HasSeats script.now seats.old }
    ensures opens { IfOk result (λ sites. Pairs (λ i said. OpensSite
        (IsNewSet B.bus_after B.bus_asked B.transmitting M.routes_of M.txfp_of)
        (IsNewSide M.side_of S.route_after) script.now seats.new i) script.now.segments sites.items) }
    ensures seats { OnOk result (length seats.new ≡ length seats.old) }
{
    let mut sites = Vec::new(alloc);
    for segment in 0..script.segments().len() {
        let ports = open_ports::<R, B, S, M>(rt, alloc, script, segment, seats)?;
        let site = site_of(alloc, script, segment, ports)?;
        push_one(&mut sites, site)?;
    }
    Ok(sites)
}

//! The mailboxes of all controllers are closed.

ghost use Rattle.std.specs.Prelude.{◌≡◌, ◌<◌, ℕ, IfOk, OnOk, Some, length, slice_get};
ghost use Rattle.gw_config.specs.Nodes.{controller_places};
ghost use Rattle.gw_config.specs.SoundScripts.{IsSound};
ghost use Rattle.gw_site.specs.Pairs.{Pairs};
ghost use Rattle.gw_sides.specs.Seats.{HasSeats, Leaves, LeavesOn};
ghost use Rattle.gw_sides.specs.Sets.{MayClose, ClosesPort, ClosesNth, ClosesSite};

use crate::seats::take_all;
use bx_controller::Port;
use bx_core::{Mailboxes, RouteTx, TxBus};
use can_frame::Memory;
use gw_ending::{Closed, ClosedPort, ClosedSite};
use gw_opening::{controller_there, push_one, routes_at};
use gw_script::Script;
use gw_site::Site;
use std::alloc::Global;

/// Closes the mailboxes of a controller, whose sides are taken from their places.
fn close_port<R, B: TxBus<R> + Drop, S: RouteTx<R> + Drop, M: Mailboxes<R, B, S>>(
    rt: &R,
    alloc: Global,
    script: &Script,
    controller: usize,
    port: Port<B>,
    seats: &mut [Option<S>],
) -> Result<ClosedPort, Memory>
    requires sound { IsSound script.now }
    requires there { controller < length script.now.controllers }
    requires seats { HasSeats script.now seats.old }
    requires may_close { MayClose M.routes_of M.side_of script.now seats.old controller port }
    ensures closes { IfOk result (ClosesPort B.bus_after S.route_after M.txfp_of M.room script.now seats.old
        controller port) }
    ensures leaves { OnOk result (Leaves script.now controller seats.old seats.new) }
{
    let count = usize::from(routes_at(script, controller));
    let sides = take_all(alloc, script, controller, count, seats)?;
    let Port {
        mail,
        banks,
        first,
        second,
    } = port;
    match M::close(rt, alloc, mail, sides) {
        Ok(left) => Ok(ClosedPort {
            mail: Closed { left },
            banks,
            first,
            second,
        }),
        Err(memory) => Err(memory),
    }
}

/// Closes the mailboxes of the controllers on a segment, in the order of the script.
fn close_ports<R, B: TxBus<R> + Drop, S: RouteTx<R> + Drop, M: Mailboxes<R, B, S>>(
    rt: &R,
    alloc: Global,
    script: &Script,
    segment: usize,
    ports: Vec<Port<B>>,
    seats: &mut [Option<S>],
) -> Result<Vec<ClosedPort>, Memory>
    requires sound { IsSound script.now }
    requires seats { HasSeats script.now seats.old }
    requires may_close { Pairs (λ k. MayClose M.routes_of M.side_of script.now seats.old)
        (controller_places script.now segment) ports.items }
    ensures closes { IfOk result (λ closed. Pairs (ClosesNth B.bus_after S.route_after M.txfp_of M.room script.now
        seats.old segment) ports.items closed.items) }
    ensures leaves { OnOk result (LeavesOn script.now segment seats.old seats.new) }
{
    let mut closed = Vec::with_capacity(alloc, ports.len())?;
    let mut nth = 0usize;
    for port in ports {
        let controller = controller_there(script, segment, nth);
        let late = close_port::<R, B, S, M>(rt, alloc, script, controller, port, seats)?;
        push_one(&mut closed, late)?;
        nth += 1;
    }
    Ok(closed)
}

/// Closes the mailboxes of the controllers of these segments.
fn close_sites<R, B: TxBus<R> + Drop, S: RouteTx<R> + Drop, M: Mailboxes<R, B, S>>(
    rt: &R,
    alloc: Global,
    script: &Script,
    sites: Vec<Site<Port<B>>>,
    seats: &mut [Option<S>],
) -> Result<Vec<ClosedSite>, Memory>
    requires sound { IsSound script.now }
    requires seats { HasSeats script.now seats.old }
    requires may_close { (i : ℕ) (site : _) → slice_get sites.items i ≡ Some site
        → Pairs (λ k. MayClose M.routes_of M.side_of script.now seats.old) (controller_places script.now i)
        site.ports.items }
    ensures { IfOk result (λ closed. Pairs (ClosesSite B.bus_after S.route_after M.txfp_of M.room script.now
        seats.old) sites.items closed.items) }
{
    let mut closed = Vec::with_capacity(alloc, sites.len())?;
    let mut place = 0usize;
    for site in sites {
        let Site { segment, ports } = site;
        let ports = close_ports::<R, B, S, M>(rt, alloc, script, place, ports, seats)?;
        push_one(&mut closed, ClosedSite { segment, ports })?;
        place += 1;
    }
    Ok(closed)
}

/// Closes the mailboxes of all controllers of a run, given the sides of all of them, each at its place: that of each
/// route, in the order of the script, then one for each controller that no route leads into. `Memory` where a growth
/// was refused: then the mailboxes are gone.
pub fn close_all<R, B: TxBus<R> + Drop, S: RouteTx<R> + Drop, M: Mailboxes<R, B, S>>(
    rt: &R,
    alloc: Global,
    script: &Script,
    sites: Vec<Site<Port<B>>>,
    seats: Vec<Option<S>>,
) -> Result<Vec<ClosedSite>, Memory>
    requires sound { IsSound script.now }
    requires seats { HasSeats script.now seats.items }
    requires may_close { (i : ℕ) (site : _) → slice_get sites.items i ≡ Some site
        → Pairs (λ k. MayClose M.routes_of M.side_of script.now seats.items) (controller_places script.now i)
        site.ports.items }
    ensures { IfOk result (λ closed. Pairs (ClosesSite B.bus_after S.route_after M.txfp_of M.room script.now
        seats.items) sites.items closed.items) }
{
    let mut seats = seats;
    close_sites::<R, B, S, M>(rt, alloc, script, sites, seats.as_mut_slice())
}

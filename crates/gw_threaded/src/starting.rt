//! A run in threads before its first bit.

ghost use Rattle.std.specs.Prelude.{IfOk};
ghost use Rattle.gw_config.specs.SoundScripts.{IsSound};
ghost use Rattle.gw_sides.specs.Sets.{AllSendBy, IsNewSet, IsNewSide};
ghost use Rattle.gw_threaded.specs.Runs.{Starts};

use bx_controller::Port;
use bx_core::{Mailboxes, RouteTx, TxBus};
use can_frame::Memory;
use gw_opening::{Lane, lanes_of};
use gw_script::Script;
use gw_sides::open_all;
use gw_site::Site;
use std::alloc::Global;

/// What a run begins with: its segments, the sides of all mailboxes, and its routes.
pub(crate) type Start<B, S> = (Vec<Site<Port<B>>>, Vec<Option<S>>, Vec<Lane>);

/// All segments, sides of mailboxes and routes of a script before the first bit.
pub(crate) fn start<R, B: TxBus<R> + Drop, S: RouteTx<R> + Drop, M: Mailboxes<R, B, S>>(
    rt: &R,
    alloc: Global,
    script: &Script,
) -> Result<Start<B, S>, Memory>
    requires sound { IsSound script.now }
    requires priority { AllSendBy M.can_send_by script.now }
    ensures { IfOk result (λ made. Starts (IsNewSet B.bus_after B.bus_asked B.transmitting M.routes_of M.txfp_of)
        (IsNewSide M.side_of S.route_after) script.now made.0.items made.1.items made.2.items) }
{
    let (mut sites, seats) = match open_all::<R, B, S, M>(rt, alloc, script) {
        Ok(made) => made,
        Err(memory) => return Err(memory),
    };
    let lanes = match lanes_of(alloc, script, sites.as_mut_slice()) {
        Ok(lanes) => lanes,
        Err(memory) => return Err(memory),
    };
    Ok((sites, seats, lanes))
}

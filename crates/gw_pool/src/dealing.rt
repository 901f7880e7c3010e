//! Routes are dealt as batons.
ghost use Rattle.std.specs.Prelude.{◌≡◌, ◌<◌, ◌≤◌, ◌++◌, length};
ghost use Rattle.bx_core.specs.Lists.{Each};
ghost use Rattle.gw_pool.specs.Pool.{account, places};
ghost use Rattle.gw_pool.specs.Couriers.{IsReadyCourier};

use crate::baton::{Baton, Dealing};
use crate::courier::Courier;
use crate::pool::PoolSeat;
use bx_core::RouteTx;
use std::sync::Wait;

/// Puts these routes into a pool, each as a baton with its place: sixteen at most, for which a new pool has room.
pub fn deal_all<R: Wait, S: RouteTx<R> + Drop, G: Drop, J: Dealing<S, G>>(
    rt: &R,
    seat: &mut PoolSeat<Baton<R, S, G, J>>,
    couriers: Vec<Courier<S, G>>,
)
    requires dealt { J.dealt ≡ couriers.items }
    requires ready { Each (IsReadyCourier S.route_after) couriers.items }
    requires few { length couriers.items ≤ 16 }
    requires part { 0 < seat.old.account.parts }
    ensures queue { seat.new.queue ≡ seat.old.queue }
    ensures dealt { seat.new.account ≡ account seat.old.account.parts
        (seat.old.account.put ++ places (length couriers.items)) seat.old.account.taken }
{
    let mut place = 0usize;
    for courier in couriers {
        seat.put(rt, Baton::new(place, courier));
        place += 1;
    }
}

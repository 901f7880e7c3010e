//! Batons are taken out again, and routes stand in their order.
ghost use Rattle.std.specs.Prelude.{◌≡◌, ◌<◌, ◌≤◌, [], Some, IfOk, length, slice_set, vec_capacity};
ghost use Rattle.gw_pool.specs.Pool.{IsOwed};
ghost use Rattle.gw_pool.specs.Collecting.{AreBack, AreFull};
ghost use Rattle.gw_pool.specs.Couriers.{CourierRuns};
ghost use Rattle.gw_site.specs.Pairs.{Pairs};

use crate::baton::{Baton, Dealing};
use crate::courier::Courier;
use crate::pool::PoolSeat;
use bx_core::RouteTx;
use std::alloc::{AllocError, Global};
use std::sync::Wait;

/// So many empty places. An error where memory was refused.
pub fn places_for<T: Drop>(alloc: Global, count: usize) -> Result<Vec<Option<T>>, AllocError>
    ensures { IfOk result (λ slots. length slots.items ≡ count) }
{
    let mut slots = Vec::with_capacity(alloc, count)?;
    for _place in 0..count {
        slots.push(None)?;
    }
    Ok(slots)
}

/// Something comes to its place.
fn set_slot<T: Drop>(slots: &mut [Option<T>], place: usize, one: T)
    requires { place < length slots.old }
    ensures { slots.new ≡ slice_set slots.old place (Some one) }
{
    slots[place] = Some(one);
}

/// All batons are taken out of a pool, each to its place.
fn take_all<R: Wait, S: RouteTx<R> + Drop, G: Drop, J: Dealing<S, G>>(
    rt: &R,
    seat: &mut PoolSeat<Baton<R, S, G, J>>,
    slots: &mut [Option<Courier<S, G>>],
)
    requires parts { seat.old.account.parts ≡ 1024 }
    requires left { IsOwed (length J.dealt) seat.old.account }
    requires size { length slots.old ≡ length J.dealt }
    ensures { AreBack (CourierRuns S.route_after S.stays) J.dealt slots.new }
{
    for _baton in rt.forever() {
        let Some(baton) = seat.collect(rt) else {
            return;
        };
        let place = baton.place();
        set_slot(slots, place, baton.end());
    }
    unreachable!()
}

/// What stands in these places, each of which has something, goes into this list, which has room for it.
fn in_order<T: Drop>(slots: Vec<Option<T>>, mut all: Vec<T>) -> Vec<T>
    requires full { AreFull slots.items }
    requires room { length slots.items ≤ vec_capacity all }
    requires empty { all.items ≡ [] }
    ensures { Pairs (λ k slot one. slot ≡ Some one) slots.items result.items }
{
    for slot in slots {
        match slot {
            Some(one) => all.push_reserved(one),
            None => unreachable!(),
        }
    }
    all
}

/// All batons are taken out of a pool, and the routes go in their order into this list, which has room for them. Those
/// places are for them meanwhile.
pub fn collect_all<R: Wait, S: RouteTx<R> + Drop, G: Drop, J: Dealing<S, G>>(
    rt: &R,
    mut seat: PoolSeat<Baton<R, S, G, J>>,
    mut slots: Vec<Option<Courier<S, G>>>,
    all: Vec<Courier<S, G>>,
) -> Vec<Courier<S, G>>
    requires parts { seat.account.parts ≡ 1024 }
    requires left { IsOwed (length J.dealt) seat.account }
    requires size { length slots.items ≡ length J.dealt }
    requires room { length J.dealt ≤ vec_capacity all }
    requires empty { all.items ≡ [] }
    ensures { Pairs (λ k. CourierRuns S.route_after S.stays) J.dealt result.items }
{
    take_all(rt, &mut seat, slots.as_mut_slice());
    in_order(slots, all)
}

//! All segments and routes of a run, in threads of their own.

ghost use Rattle.std.specs.Prelude.{◌≡◌, ◌≤◌, ◌<◌, ◌-◌, [], true, IfOk, IfErr, OnOk, OnErr, length, vec_len};
ghost use Rattle.std.specs.Prelude.{vec_capacity};
ghost use Rattle.bx_core.specs.Lists.{Each};
ghost use Rattle.gw_site.specs.Pairs.{Pairs};
ghost use Rattle.gw_site.specs.Sites.{IsNewSite, SiteRuns};
ghost use Rattle.gw_pool.specs.Couriers.{IsReadyCourier, CourierRuns};
ghost use Rattle.gw_pool.specs.Pool.{account, places, IsWorkerSeat};
ghost use Rattle.gw_threads.specs.Clocks.{Deals, HasPaced, pace_of};
ghost use Rattle.gw_threads.specs.declared.thread_fault.ThreadFault.TheVariants.{Memory};

use crate::clock_seat::ClockSeat;
use crate::joining::join_all;
use crate::pool_threads::{Pool, WorkerThread, retire_all, start_workers};
use crate::site_threads::{SiteThread, start_sites};
use crate::thread_fault::ThreadFault;
use crate::views::Pace;
use bx_core::{Gate, RouteTx};
use can_segment::RxSink;
use gw_pool::{Courier, Dealing, PoolSeat, collect_all, deal_all, places_for};
use gw_site::Site;
use std::alloc::Global;
use std::marker::Brand;
use std::sync::Wait;
use std::thread::Threads;

/// Starts all threads. Where one could not be started, and only there, it sets the stop word, so that the others stop:
/// they are in the lists too.
fn start_all<
    R: Threads + Wait + Copy + Send + Sync + 'static,
    P: RxSink<R> + Drop + Send + 'static,
    S: RouteTx<R> + Drop + Send + 'static,
    G: Gate + Drop + Send + 'static,
    J: Dealing<S, G> + Send + Sync + 'static,
>(
    rt: R,
    sites: Vec<Site<P>>,
    pace: Pace,
    workers: usize,
    pool: &mut Pool<R, S, G, J>,
    clock: &mut ClockSeat,
    site_threads: &mut Vec<SiteThread<R, P>>,
    worker_threads: &mut Vec<WorkerThread<R, S, G, J>>,
) -> Result<(), ThreadFault>
    requires sites { Each (IsNewSite P.bus_after P.transmitting P.sink_after pace.bits) sites.items }
    requires segments { pace.segments ≡ vec_len sites }
    requires parts { workers < pool.old.account.parts }
    requires clocks { Deals pace 0 clock.old }
    requires site_room { vec_len sites ≤ vec_capacity site_threads.old }
    requires worker_room { workers ≤ vec_capacity worker_threads.old }
    requires no_site { site_threads.old.items ≡ [] }
    requires no_worker { worker_threads.old.items ≡ [] }
    ensures site_room { vec_len site_threads.new ≤ vec_len sites }
    ensures worker_room { vec_len worker_threads.new ≤ workers }
    ensures queue { pool.new.queue ≡ pool.old.queue }
    ensures sites { OnOk result (Pairs (λ k site thread. thread.handle.promise.start.value ≡ site) sites.items
        site_threads.new.items) }
    ensures all { OnOk result (length worker_threads.new.items ≡ workers) }
    ensures rest { OnOk result (pool.new.account ≡ account (pool.old.account.parts - workers) pool.old.account.put
        pool.old.account.taken) }
    ensures workers { OnOk result (Each (λ thread. IsWorkerSeat pool.old.queue thread.handle.promise.start.value)
        worker_threads.new.items) }
    ensures paced { OnOk result (HasPaced pace workers clock.new) }
    ensures stop { OnErr result (clock.new.view.stopped ≡ true) }
{
    match start_sites(rt, sites, pace, clock, site_threads) {
        Ok(()) => {}
        Err(fault) => {
            clock.stop();
            return Err(fault);
        }
    }
    match start_workers(rt, workers, pool, clock, worker_threads) {
        Ok(()) => Ok(()),
        Err(fault) => {
            clock.stop();
            Err(fault)
        }
    }
}

/// An empty list with room for so many. `Memory` where the allocation failed.
fn room_for<T>(alloc: Global, count: usize) -> Result<Vec<T>, ThreadFault>
    ensures room { IfOk result (λ list. count ≤ vec_capacity list) }
    ensures empty { IfOk result (λ list. list.items ≡ []) }
    ensures err { IfErr result (λ fault. fault ≡ Memory) }
{
    match Vec::with_capacity(alloc, count) {
        Ok(list) => Ok(list),
        Err(_) => Err(ThreadFault::Memory),
    }
}

/// Two empty lists with room for so many. `Memory` where an allocation failed.
fn rooms_for<A, B>(
    alloc: Global,
    first: usize,
    second: usize,
) -> Result<(Vec<A>, Vec<B>), ThreadFault>
    ensures first { IfOk result (λ lists. first ≤ vec_capacity lists.0) }
    ensures second { IfOk result (λ lists. second ≤ vec_capacity lists.1) }
    ensures empty { IfOk result (λ lists. lists.0.items ≡ []) }
    ensures empty_too { IfOk result (λ lists. lists.1.items ≡ []) }
    ensures err { IfErr result (λ fault. fault ≡ Memory) }
{
    let one = room_for(alloc, first)?;
    match room_for(alloc, second) {
        Ok(other) => Ok((one, other)),
        Err(fault) => {
            one.destroy_empty();
            Err(fault)
        }
    }
}

/// The pace of so many segments, in a run of so many bits, of which none may be further ahead of another than the
/// slack.
fn pace_of(segments: usize, slack: u32, bits: u32) -> Pace
    ensures { result ≡ pace_of segments slack bits }
{
    Pace {
        segments,
        slack: u64::from(slack),
        bits: u64::from(bits),
    }
}

/// A pool with the batons of these routes.
fn pool_of<R: Wait, S: RouteTx<R> + Drop, G: Drop, J: Dealing<S, G>>(
    rt: &R,
    alloc: Global,
    couriers: Vec<Courier<S, G>>,
) -> Result<Pool<R, S, G, J>, ThreadFault>
    requires dealt { J.dealt ≡ couriers.items }
    requires ready { Each (IsReadyCourier S.route_after) couriers.items }
    requires few { length couriers.items ≤ 16 }
    ensures pool { IfOk result (λ pool. pool.account ≡ account 1024 (places (length couriers.items)) []) }
    ensures err { IfErr result (λ fault. fault ≡ Memory) }
{
    let Ok(mut pool) = PoolSeat::open(alloc) else {
        return Err(ThreadFault::Memory);
    };
    deal_all(rt, &mut pool, couriers);
    Ok(pool)
}

/// Runs these segments, and so many workers at the routes that were dealt. Returns both, and the seat that dealt the
/// clocks.
fn run_dealt<
    R: Threads + Wait + Copy + Send + Sync + 'static,
    P: RxSink<R> + Drop + Send + 'static,
    S: RouteTx<R> + Drop + Send + 'static,
    G: Gate + Drop + Send + 'static,
    J: Dealing<S, G> + Send + Sync + 'static,
>(
    rt: R,
    alloc: Global,
    sites: Vec<Site<P>>,
    couriers: Vec<Courier<S, G>>,
    bits: u32,
    workers: u32,
    slack: u32,
) -> Result<(Vec<Site<P>>, Vec<Courier<S, G>>, ClockSeat), ThreadFault>
    requires dealt { J.dealt ≡ couriers.items }
    requires few { length sites.items ≤ 8 }
    requires few_routes { length couriers.items ≤ 16 }
    requires few_workers { workers ≤ 16 }
    requires sites { Each (IsNewSite P.bus_after P.transmitting P.sink_after bits) sites.items }
    requires ready { Each (IsReadyCourier S.route_after) couriers.items }
    ensures sites { IfOk result (λ made. Pairs (λ k. SiteRuns P.bus_after P.transmitting P.sink_after P.port_stays)
        sites.items made.0.items) }
    ensures couriers { IfOk result (λ made. Pairs (λ k. CourierRuns S.route_after S.stays) couriers.items
        made.1.items) }
    ensures paced { IfOk result (λ made. HasPaced (pace_of (length sites.items) slack bits) workers made.2) }
{
    let workers = workers as usize;
    let pace = pace_of(sites.len(), slack, bits);
    let mut clock = ClockSeat::open(alloc, pace)?;
    let made_sites = room_for(alloc, sites.len())?;
    let made_seats = room_for(alloc, workers)?;
    let made_couriers = room_for(alloc, couriers.len())?;
    let Ok(slots) = places_for(alloc, couriers.len()) else {
        return Err(ThreadFault::Memory);
    };
    let mut pool: Pool<R, S, G, J> = pool_of(&rt, alloc, couriers)?;
    let (mut site_threads, mut worker_threads) = rooms_for(alloc, sites.len(), workers)?;
    let started = start_all(
        rt,
        sites,
        pace,
        workers,
        &mut pool,
        &mut clock,
        &mut site_threads,
        &mut worker_threads,
    );
    let made_sites = join_all(&rt, site_threads, made_sites);
    let made_seats = join_all(&rt, worker_threads, made_seats);
    started?;
    let made_sites = made_sites?;
    retire_all(&mut pool, made_seats?);
    Ok((
        made_sites,
        collect_all(&rt, pool, slots, made_couriers),
        clock,
    ))
}

/// Runs each segment in a thread of its own, and the routes by so many workers, 1 to 16, each in a thread of its own: a
/// worker takes a route's baton, makes one turn of it, and passes it on. Each segment makes all its bits, none of them
/// further ahead of another than `slack` bits, 1 or more; and a worker ends after 32 tries in a row, each begun once
/// all segments had made their bits, that came to nothing or found no baton. Each thread that was started is joined
/// before this returns, whatever the others came to. The segments and the routes come back in their order.
///
/// `Memory` comes where a growth was refused, in any thread; `Spawn` where a thread could not be started, for want of
/// memory too. Either way the other threads are told to stop.
pub fn run_in_threads<
    R: Threads + Wait + Copy + Send + Sync + 'static,
    P: RxSink<R> + Drop + Send + 'static,
    S: RouteTx<R> + Drop + Send + 'static,
    G: Gate + Drop + Send + 'static,
>(
    rt: R,
    alloc: Global,
    sites: Vec<Site<P>>,
    couriers: Vec<Courier<S, G>>,
    bits: u32,
    workers: u32,
    slack: u32,
) -> Result<(Vec<Site<P>>, Vec<Courier<S, G>>, ClockSeat), ThreadFault>
    requires few { length sites.items ≤ 8 }
    requires few_routes { length couriers.items ≤ 16 }
    requires few_workers { workers ≤ 16 }
    requires sites { Each (IsNewSite P.bus_after P.transmitting P.sink_after bits) sites.items }
    requires ready { Each (IsReadyCourier S.route_after) couriers.items }
    ensures sites { IfOk result (λ made. Pairs (λ k. SiteRuns P.bus_after P.transmitting P.sink_after P.port_stays)
        sites.items made.0.items) }
    ensures couriers { IfOk result (λ made. Pairs (λ k. CourierRuns S.route_after S.stays) couriers.items
        made.1.items) }
    ensures paced { IfOk result (λ made. HasPaced (pace_of (length sites.items) slack bits) workers made.2) }
{
    run_dealt::<R, P, S, G, Brand>(rt, alloc, sites, couriers, bits, workers, slack)
}

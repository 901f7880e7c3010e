//! Workers in threads of their own.

ghost use Rattle.std.specs.Prelude.{◌≡◌, ◌≤◌, ◌<◌, ◌-◌, [], IfOk, IfErr, OnOk, length, vec_len, vec_capacity};
ghost use Rattle.bx_core.specs.Lists.{Each};
ghost use Rattle.gw_pool.specs.Pool.{account, IsWorkerSeat};
ghost use Rattle.gw_threads.specs.Clocks.{HasLent, IsCalm, lender_of};
ghost use Rattle.gw_threads.specs.Retired.{AreRetired};
ghost use Rattle.gw_threads.specs.declared.thread_fault.ThreadFault.TheVariants.{Spawn};

use crate::clock_seat::ClockSeat;
use crate::joining::Running;
use crate::pool_promise::WorkerRun;
use crate::pool_run::run_worker;
use crate::thread_fault::ThreadFault;
use bx_core::{Gate, RouteTx};
use gw_pool::{Baton, Dealing, PoolSeat};
use std::sync::Wait;
use std::thread;
use std::thread::Threads;

/// The pool of the routes' batons.
pub(crate) type Pool<R, S, G, J> = PoolSeat<Baton<R, S, G, J>>;

/// A thread in which a worker runs.
pub(crate) type WorkerThread<R, S, G, J> = Running<
    Result<Pool<R, S, G, J>, ThreadFault>,
    WorkerRun<Baton<R, S, G, J>>,
>;

/// Starts a worker in a thread of its own, with these seats at the pool and at the clocks. `Spawn` where the thread
/// could not be started.
fn start_worker<
    R: Threads + Wait + Copy + Send + Sync + 'static,
    S: RouteTx<R> + Drop + Send + 'static,
    G: Gate + Drop + Send + 'static,
    J: Dealing<S, G> + Send + Sync + 'static,
>(rt: R, pool: Pool<R, S, G, J>, clock: ClockSeat) -> Result<WorkerThread<R, S, G, J>, ThreadFault>
    requires pool { IsWorkerSeat pool.queue pool }
    requires calm { IsCalm clock.view }
    ensures started { IfOk result (λ thread. thread.handle.promise.start.value ≡ pool) }
    ensures err { IfErr result (λ fault. fault ≡ Spawn) }
{
    let promise = WorkerRun::of(&pool);
    match thread::spawn_with(
        &rt,
        promise,
        move || -> Result<Pool<R, S, G, J>, ThreadFault>
            requires pool { IsWorkerSeat pool.queue pool }
            requires calm { IsCalm clock.view }
        {
            let mut clock = clock;
            run_worker(&rt, pool, &mut clock)
        },
    ) {
        Ok(thread) => Ok(Running::of(thread)),
        Err(_) => Err(ThreadFault::Spawn),
    }
}

/// Starts one worker more, in a thread of its own, with a part of this seat at the pool and a seat lent from this one
/// at the clocks.
fn hire<
    R: Threads + Wait + Copy + Send + Sync + 'static,
    S: RouteTx<R> + Drop + Send + 'static,
    G: Gate + Drop + Send + 'static,
    J: Dealing<S, G> + Send + Sync + 'static,
>(
    rt: R,
    pool: &mut Pool<R, S, G, J>,
    clock: &mut ClockSeat,
) -> Result<WorkerThread<R, S, G, J>, ThreadFault>
    requires { 1 < pool.old.account.parts }
    ensures queue { pool.new.queue ≡ pool.old.queue }
    ensures rest { OnOk result (pool.new.account ≡ account (pool.old.account.parts - 1) pool.old.account.put
        pool.old.account.taken) }
    ensures theirs { IfOk result (λ thread. IsWorkerSeat pool.old.queue thread.handle.promise.start.value) }
    ensures pace { clock.new.pace ≡ clock.old.pace }
    ensures lender { OnOk result (clock.new.view ≡ lender_of clock.old.view) }
{
    let seat = clock.lend()?;
    let Ok(theirs) = pool.recruit() else {
        return Err(ThreadFault::Memory);
    };
    start_worker(rt, theirs, seat)
}

/// Starts so many workers, each in a thread of its own, with a part of this seat. The threads, also those that were
/// started before one could not be, go into this list, which has room for them.
pub(crate) fn start_workers<
    R: Threads + Wait + Copy + Send + Sync + 'static,
    S: RouteTx<R> + Drop + Send + 'static,
    G: Gate + Drop + Send + 'static,
    J: Dealing<S, G> + Send + Sync + 'static,
>(
    rt: R,
    count: usize,
    pool: &mut Pool<R, S, G, J>,
    clock: &mut ClockSeat,
    threads: &mut Vec<WorkerThread<R, S, G, J>>,
) -> Result<(), ThreadFault>
    requires parts { count < pool.old.account.parts }
    requires room { count ≤ vec_capacity threads.old }
    requires empty { threads.old.items ≡ [] }
    ensures room { vec_len threads.new ≤ count }
    ensures queue { pool.new.queue ≡ pool.old.queue }
    ensures all { OnOk result (length threads.new.items ≡ count) }
    ensures rest { OnOk result (pool.new.account ≡ account (pool.old.account.parts - count) pool.old.account.put
        pool.old.account.taken) }
    ensures started { OnOk result (Each (λ thread. IsWorkerSeat pool.old.queue thread.handle.promise.start.value)
        threads.new.items) }
    ensures lent { OnOk result (HasLent count clock.old clock.new) }
{
    for _worker in 0..count {
        threads.push_reserved(hire(rt, pool, clock)?);
    }
    Ok(())
}

/// The workers' seats come back.
pub(crate) fn retire_all<R, S: RouteTx<R> + Drop, G: Drop, J: Dealing<S, G>>(
    pool: &mut Pool<R, S, G, J>,
    seats: Vec<Pool<R, S, G, J>>,
)
    requires back { Each (IsWorkerSeat pool.old.queue) seats.items }
    requires part { 0 < pool.old.account.parts }
    ensures queue { pool.new.queue ≡ pool.old.queue }
    ensures back { AreRetired (length seats.items) pool.old.account pool.new.account }
{
    for seat in seats {
        pool.retire(seat);
    }
}

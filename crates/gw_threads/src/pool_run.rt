//! The turns of a worker in its thread.

ghost use Rattle.std.specs.Prelude.{◌≡◌, ◌<◌, ◌≤◌, ◌↔◌, true, IsTrue, IfOk, IfErr, OnOk, OnErr};
ghost use Rattle.gw_pool.specs.Pool.{IsWorkerSeat};
ghost use Rattle.gw_threads.specs.Clocks.{IsCalm, SeesAllDone};
ghost use Rattle.gw_threads.specs.Rests.{is_rest, rests_after};
ghost use Rattle.gw_threads.specs.declared.thread_fault.ThreadFault.TheVariants.{Memory};

use crate::clock_seat::ClockSeat;
use crate::thread_fault::ThreadFault;
use bx_core::{Gate, RouteTx};
use gw_pool::{Baton, Dealing, PoolSeat, serve_one};
use gw_route::TurnAnswer;
use std::sync::Wait;
use std::thread;

/// Whether a turn came to nothing.
fn is_rest(answer: TurnAnswer) -> bool
    ensures { result ≡ is_rest answer }
{
    matches!(answer, TurnAnswer::Idle | TurnAnswer::Waiting)
}

/// How many tries in a row came to nothing, each begun once all segments had made their bits, where there were so many
/// and one more comes.
fn rests_behind(rests: u32, answer: TurnAnswer, over: bool) -> u32
    requires { rests < 32 }
    ensures { result ≡ rests_after rests answer over }
{
    if over && is_rest(answer) {
        return rests + 1;
    }
    0
}

/// Whether a worker ends after so many.
fn ends_after(rests: u32) -> bool
    ensures { IsTrue result ↔ (32 ≤ rests) }
{
    rests >= 32
}

/// Whether all segments have made their bits, where `over` says that this was seen before. Where it was not, each
/// sixteenth try looks at the stop word and the clocks. `Memory` where the stop word is set.
fn looks_over(clock: &mut ClockSeat, over: bool, tries: u32) -> Result<bool, ThreadFault>
    requires calm { IsCalm clock.old.view }
    requires over { over ≡ true → SeesAllDone clock.old }
    ensures calm { OnOk result (IsCalm clock.new.view) }
    ensures over { IfOk result (λ now. now ≡ true → SeesAllDone clock.new) }
    ensures err { IfErr result (λ fault. fault ≡ Memory) }
{
    if over || tries % 16 != 0 {
        return Ok(over);
    }
    if clock.is_stopped() {
        return Err(ThreadFault::Memory);
    }
    Ok(clock.all_done())
}

/// Makes turns of the routes whose batons come, until 32 tries in a row came to nothing or found no baton, each of
/// which was begun once all segments had made their bits. Returns how many they were. A worker that sees the stop word
/// set ends with `Memory`, as one does that was refused memory.
fn make_turns<R: Wait, S: RouteTx<R> + Drop, G: Gate + Drop, J: Dealing<S, G>>(
    rt: &R,
    pool: &mut PoolSeat<Baton<R, S, G, J>>,
    clock: &mut ClockSeat,
) -> Result<u32, ThreadFault>
    requires pool { IsWorkerSeat pool.old.queue pool.old }
    requires calm { IsCalm clock.old.view }
    ensures pool { IsWorkerSeat pool.old.queue pool.new }
    ensures rests { IfOk result (λ rests. 32 ≤ rests) }
    ensures over { OnOk result (SeesAllDone clock.new) }
    ensures calm { OnOk result (IsCalm clock.new.view) }
    ensures err { IfErr result (λ fault. fault ≡ Memory) }
{
    let mut rests = 0u32;
    let mut tries = 0u32;
    // all segments made their bits: once that was seen, it stays so
    let mut over = false;
    for _try in rt.forever() {
        over = looks_over(clock, over, tries)?;
        tries = tries.wrapping_add(1);
        let Ok(answer) = serve_one(rt, pool) else {
            return Err(ThreadFault::Memory);
        };
        rests = rests_behind(rests, answer, over);
        if ends_after(rests) {
            return Ok(rests);
        }
        if is_rest(answer) {
            // what it waits for comes from other threads
            thread::yield_now();
        }
    }
    unreachable!()
}

/// Runs a worker. Where it fails, and only there, it sets the stop word, so that all threads stop.
pub(crate) fn run_worker<R: Wait, S: RouteTx<R> + Drop, G: Gate + Drop, J: Dealing<S, G>>(
    rt: &R,
    mut pool: PoolSeat<Baton<R, S, G, J>>,
    clock: &mut ClockSeat,
) -> Result<PoolSeat<Baton<R, S, G, J>>, ThreadFault>
    requires pool { IsWorkerSeat pool.queue pool }
    requires calm { IsCalm clock.old.view }
    ensures pool { IfOk result (IsWorkerSeat pool.queue) }
    ensures over { OnOk result (SeesAllDone clock.new) }
    ensures calm { OnOk result (IsCalm clock.new.view) }
    ensures stop { OnErr result (clock.new.view.stopped ≡ true) }
    ensures err { IfErr result (λ fault. fault ≡ Memory) }
{
    match make_turns(rt, &mut pool, clock) {
        Ok(_rests) => Ok(pool),
        Err(fault) => {
            clock.stop();
            Err(fault)
        }
    }
}

//! What the thread of a worker promises.

ghost use Rattle.std.specs.Prelude.{◌≡◌};

use crate::thread_fault::ThreadFault;
use gw_pool::{Placed, PoolSeat};
use std::snapshot::Snapshot;
use std::thread::Promise;

/// The seat at the pool that a worker was given. What comes back is a worker's seat at the same pool, which put what it
/// took.
pub(crate) struct WorkerRun<X: Placed> {
    start: Snapshot<PoolSeat<X>>,
}

impl<X: Placed> Drop for WorkerRun<X> {
    fn drop(self) {
        let Self { start: _ } = self;
    }
}

impl<X: Placed> Promise<Result<PoolSeat<X>, ThreadFault>> for WorkerRun<X> {
    ghost use Rattle.std.specs.Prelude.{IfOk};
    ghost use Rattle.gw_pool.specs.Pool.{IsWorkerSeat};

    ghost kept_by = { λ p r. IfOk r (IsWorkerSeat p.start.value.queue) };
}

impl<X: Placed> WorkerRun<X> {
    /// What a thread that is given this seat promises.
    pub(crate) fn of(seat: &PoolSeat<X>) -> WorkerRun<X>
        ensures { result.start.value ≡ seat.now }
    {
        WorkerRun {
            start: Snapshot::of(seat),
        }
    }
}

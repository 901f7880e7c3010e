//! Threads are joined.

ghost use Rattle.std.specs.Prelude.{◌≡◌, ◌≤◌, [], IfOk, IfErr, Ok, vec_len, vec_capacity};
ghost use Rattle.gw_site.specs.Pairs.{Pairs};
ghost use Rattle.gw_threads.specs.declared.thread_fault.ThreadFault.TheVariants.{Memory};

use crate::thread_fault::ThreadFault;
use std::thread::{Promise, PromisedHandle, Threads};

/// A thread that was started and is still to be joined. It has no `Drop`, and only `join` takes it apart: a body that
/// loses one does not compile.
pub(crate) struct Running<T, P: Promise<T>> {
    handle: PromisedHandle<T, P>,
}

impl<T, P: Promise<T>> Running<T, P> {
    /// The thread of this handle.
    pub(crate) fn of(handle: PromisedHandle<T, P>) -> Running<T, P>
        ensures { result.handle ≡ handle }
    {
        Running { handle }
    }

    /// Waits until the thread has ended, and returns what it returned.
    fn join<R: Threads>(self, rt: &R) -> T
        ensures { P.kept_by self.handle.promise result }
    {
        let Running { handle } = self;
        handle.join(rt)
    }
}

/// Joins all these threads, also where one of them failed. What they returned, in their order, goes into this list,
/// which has room for it. `Memory` where one failed.
pub(crate) fn join_all<R: Threads, T: Drop, P: Promise<Result<T, ThreadFault>>>(
    rt: &R,
    threads: Vec<Running<Result<T, ThreadFault>, P>>,
    mut made: Vec<T>,
) -> Result<Vec<T>, ThreadFault>
    requires room { vec_len threads ≤ vec_capacity made }
    requires empty { made.items ≡ [] }
    ensures all { IfOk result (λ all. Pairs (λ k thread one. P.kept_by thread.handle.promise (Ok one)) threads.items
        all.items) }
    ensures err { IfErr result (λ fault. fault ≡ Memory) }
{
    let mut failed = false;
    let mut left = threads.into_iter();
    while let Some(thread) = left.next() {
        match thread.join(rt) {
            Ok(one) => made.push_reserved(one),
            Err(_) => failed = true,
        }
    }
    left.destroy_empty();
    if failed {
        return Err(ThreadFault::Memory);
    }
    Ok(made)
}

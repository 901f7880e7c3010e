//! A receive FIFO: how its two sides are made, and what they leave behind.
ghost use Rattle.std.specs.Prelude.{◌≡◌, ◌≤◌, ◌++◌, [], true, IfOk, length};
ghost use Rattle.crossbeam_queue.specs.Passes.{view, IsPassOf};
ghost use Rattle.bx_rx.specs.Rule.{log};

use crate::log::Log;
use crate::rule::{Line, Releases, Sides, Total};
use crate::rx_frame::RxFrame;
use crate::rx_in::RxIn;
use crate::rx_out::RxOut;
use arrayvec::ArrayVec;
use can_frame::Memory;
use crossbeam_queue::Pass;
use std::alloc::{AllocError, Global};
use std::sync::{Arc, Wait};

/// A receive FIFO of a controller: three stages, locked (RM0008, bxCAN, "Reception handling"; RFLM
/// set). It is made as two sides, for two threads or one.
pub struct RxFifo;

impl RxFifo {
    /// The two sides of a new FIFO, which is empty. Of a FIFO's calls this one alone takes memory: it
    /// answers `Memory` where that was refused, and nothing else is refused.
    pub fn pair(alloc: Global) -> Result<(RxIn, RxOut), Memory>
        ensures queue { IfOk result (λ sides. sides.0.queue ≡ sides.1.queue) }
        ensures stored { IfOk result (λ sides. (sides.0.stored ≡ []) × (sides.0.calls ≡ [])) }
        ensures released { IfOk result (λ sides. (sides.1.released ≡ []) × (sides.1.calls ≡ [])) }
    {
        Ok(sides(alloc)?)
    }

    /// Ends a FIFO, given both its sides, and gives the frames that are left in it, the oldest first.
    /// All that was stored is what was released and then these, three at most. Takes no memory.
    pub fn close<R: Wait>(rt: &R, rxin: RxIn, rxout: RxOut) -> ArrayVec<RxFrame, 3>
        requires { rxin.queue ≡ rxout.queue }
        ensures kept { rxin.stored ≡ rxout.released ++ result.items }
        ensures few { length result.items ≤ 3 }
    {
        let RxIn {
            line,
            pass: mut both,
        } = rxin;
        let RxOut {
            line: _,
            pass: releasing,
        } = rxout;
        line.absorb::<Sides>(&mut both, releasing);
        drain(rt, &line, &mut both)
    }
}

/// The two sides of a new queue: the one pass that it has is divided.
fn sides(alloc: Global) -> Result<(RxIn, RxOut), AllocError>
    ensures queue { IfOk result (λ sides. sides.0.queue ≡ sides.1.queue) }
    ensures stored { IfOk result (λ sides. (sides.0.stored ≡ []) × (sides.0.calls ≡ [])) }
    ensures released { IfOk result (λ sides. (sides.1.released ≡ []) × (sides.1.calls ≡ [])) }
{
    let (line, mut offering) = Line::ruled(alloc, 3)?;
    let line = Arc::new(alloc, line)?;
    let theirs = Arc::try_clone(&line)?;
    let releasing = line.another::<Sides>(&mut offering);
    let rxin = RxIn {
        line,
        pass: offering,
    };
    let rxout = RxOut {
        line: theirs,
        pass: releasing,
    };
    Ok((rxin, rxout))
}

/// Takes out what the queue holds, three frames at most, by the pass that alone may push and pop.
fn drain<R: Wait>(rt: &R, line: &Line, pass: &mut Pass<RxFrame, Log>) -> ArrayVec<RxFrame, 3>
    requires pass { IsPassOf line.now pass.old }
    requires both { view pass.old ≡ log true true (view pass.old).stored (view pass.old).released
        (view pass.old).calls }
    ensures kept { (view pass.old).stored ≡ (view pass.old).released ++ result.items }
    ensures few { length result.items ≤ 3 }
{
    let mut kept = ArrayVec::new();
    line.learn_as::<Total>(pass);
    for _ in 0..3usize {
        let Some(frame) = line.pop_as::<Releases, R>(rt, pass) else {
            return kept;
        };
        kept.push(frame);
    }
    line.learn_as::<Total>(pass);
    kept
}

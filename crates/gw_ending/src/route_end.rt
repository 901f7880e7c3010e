//! What came of a route, once its run is over.

ghost use Rattle.std.specs.Prelude.{◌≡◌, ◌≤◌, IfOk, List, length};
ghost use Rattle.can_frame.specs.Frames.{FrameValue};
ghost use Rattle.bx_core.specs.declared.entry.Entry.{Entry};
ghost use Rattle.bx_core.specs.States.{numbers};
ghost use Rattle.gw_route.specs.RouteHand.{hand_value, LogsReleased};
ghost use Rattle.bx_controller.specs.Intakes.{IntakeStands};
ghost use Rattle.gw_ending.specs.Ends.{IsEndOf};

use crate::settling::settled;
use bx_controller::Intake;
use bx_core::Entry;
use bx_rx::RxFifo;
use can_frame::Memory;
use gw_route::{Log, RouteHand};
use gw_script::RouteReport;
use std::alloc::Global;
use std::sync::Wait;

/// The report of a route, given its hand, where frames came into its FIFO, what was sent of it, and which of its
/// numbers wait in the mailboxes that it led into.
pub(crate) fn report_of<R: Wait>(
    rt: &R,
    alloc: Global,
    hand: RouteHand,
    intake: Intake,
    completed: Vec<Entry>,
    waiting: &[u32],
) -> Result<RouteReport, Memory>
    requires log { LogsReleased (hand_value hand) }
    requires queue { intake.rxin.queue ≡ hand.out.queue }
    requires intake { (offered : List FrameValue) × IntakeStands intake offered }
    requires few { length waiting.now ≤ 12 }
    ensures completed { IfOk result (λ r. r.completed.items ≡ completed.items) }
    ensures turns { IfOk result (λ r. r.turns ≡ (hand_value hand).turns) }
    ensures ends { IfOk result (λ r. (left : List Entry) → numbers left ≡ waiting.now
        → IsEndOf r intake (hand_value hand) left) }
{
    let in_hand = hand.held();
    let RouteHand {
        out,
        hand: _,
        queued: _,
        queue: _,
        tickets: _,
        turns,
        aborts: _,
        log,
        rewrites: _,
    } = hand;
    let Log {
        released,
        aborted: logged,
    } = log;
    let Intake {
        rxin,
        accepted,
        overrun,
    } = intake;
    let aborted = settled(alloc, logged.as_slice(), completed.as_slice(), waiting)?;
    let left = RxFifo::close(rt, rxin, out);
    let held = left.len() + in_hand + waiting.len();
    Ok(RouteReport {
        accepted,
        overrun,
        held: held as u64,
        released,
        aborted,
        completed,
        turns,
    })
}

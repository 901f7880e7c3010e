//! Turns of routes by a worker.
ghost use Rattle.std.specs.Prelude.{◌≡◌, ◌<◌};
ghost use Rattle.gw_pool.specs.Pool.{IsEven};

use crate::baton::{Baton, Dealing};
use crate::pool::PoolSeat;
use bx_core::{Gate, RouteTx};
use can_frame::Memory;
use gw_route::TurnAnswer;
use std::sync::Wait;

/// Takes a baton, makes one turn of its route, and puts it back. What came of the turn; `Idle` too where no baton was
/// found. The baton is back behind every answer.
pub fn serve_one<R: Wait, S: RouteTx<R> + Drop, G: Gate + Drop, J: Dealing<S, G>>(
    rt: &R,
    seat: &mut PoolSeat<Baton<R, S, G, J>>,
) -> Result<TurnAnswer, Memory>
    requires part { 0 < seat.old.account.parts }
    requires even { IsEven seat.old.account }
    ensures queue { seat.new.queue ≡ seat.old.queue }
    ensures part { seat.new.account.parts ≡ seat.old.account.parts }
    ensures even { IsEven seat.new.account }
{
    let Some(mut baton) = seat.take() else {
        return Ok(TurnAnswer::Idle);
    };
    let answer = baton.turn(rt);
    seat.put(rt, baton);
    answer
}

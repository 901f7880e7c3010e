//! What a controller's port learns of its node.

ghost use Rattle.std.specs.Prelude.{◌≡◌, ◌++◌, List, Some, None, is_some, IfSome, IsSome};
ghost use Rattle.can_frame.specs.Frames.{FrameValue};
ghost use Rattle.bx_core.specs.TxBus.{BusPast, BusCall};
ghost use Rattle.can_station.specs.Outcomes.{sending_after};
ghost use Rattle.can_station.specs.Ports.{item_of, failed, settled, taken_by, Reaps};

use crate::event::Label;
use crate::rx_sink::RxSink;
use crate::transmission::Transmission;
use can_node::Outcome;

/// Returns whether a request is on the bus.
fn sends_request(sending: &Option<Transmission>) -> bool
    ensures { result ≡ is_some (item_of sending.now) }
{
    match sending {
        Some(sent) => sent.label.is_some(),
        None => false,
    }
}

/// Notes in the port that the transmission on the bus failed. Returns which request was reaped, if its abort was asked.
fn fail<R, P: RxSink<R>>(rt: &R, port: &mut P, sending: Option<Transmission>) -> Option<Label>
    requires { P.transmitting port.old ≡ item_of sending }
    ensures bus { (past : BusPast) → P.bus_after port.old past
        → P.bus_after port.new (failed past (item_of sending) result) }
    ensures asked { (calls : List BusCall) → P.bus_asked port.old calls → P.bus_asked port.new calls }
    ensures idle { P.transmitting port.new ≡ None }
    ensures stays { P.bus_stays port.old port.new }
    ensures reaps { IfSome result (λ label. IfSome sending (λ sent. sent.label ≡ Some label)) }
    ensures sends { IfSome result (λ label. IsSome sending) }
{
    if !sends_request(&sending) {
        return None;
    }
    match port.fail(rt) {
        Some((route, number)) => Some(Label { route, number }),
        None => None,
    }
}

/// Tells a port what became of its node at a bit: the sink is offered a frame that was received, the bus side learns
/// the end of a transmission. Returns which request was reaped, if one was.
pub(crate) fn settle<R, P: RxSink<R>>(
    rt: &R,
    port: &mut P,
    sending: Option<Transmission>,
    outcome: Outcome,
) -> Option<Label>
    requires { P.transmitting port.old ≡ item_of sending }
    ensures bus { (past : BusPast) → P.bus_after port.old past
        → P.bus_after port.new (settled past (item_of sending) outcome result) }
    ensures asked { (calls : List BusCall) → P.bus_asked port.old calls → P.bus_asked port.new calls }
    ensures transmits { P.transmitting port.new ≡ item_of (sending_after sending outcome) }
    ensures sink { (past : List FrameValue) → P.sink_after port.old past
        → P.sink_after port.new (past ++ taken_by outcome) }
    ensures stays { P.port_stays port.old port.new }
    ensures reaps { IfSome result (λ label. Reaps sending outcome label) }
{
    match outcome {
        Outcome::Nothing => None,
        Outcome::CameBack => None,
        Outcome::Took { start: _, frame } => {
            port.offer(rt, frame);
            None
        }
        Outcome::Completed => {
            if sends_request(&sending) {
                port.complete(rt);
            }
            None
        }
        Outcome::Lost => fail(rt, port, sending),
        Outcome::Errored(_) => fail(rt, port, sending),
        Outcome::WentOff => fail(rt, port, sending),
    }
}

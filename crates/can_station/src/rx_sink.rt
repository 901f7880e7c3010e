//! Where a controller's frames go.

use bx_core::TxBus;
use can_frame::Frame;

/// The receive side of a controller (RM0008, bxCAN, "Reception handling"): it is offered each frame that the
/// controller receives. A port of a segment is the bus side of transmit mailboxes and such a sink in one.
///
/// `R` is a runtime, for those sinks whose calls may wait.
pub trait RxSink<R>: TxBus<R> {
    ghost use Rattle.std.specs.Prelude.{◌≡◌, List, [], ◌∷◌, ◌++◌};
    ghost use Rattle.can_frame.specs.Frames.{FrameValue};
    ghost use Rattle.bx_core.specs.TxBus.{BusPast, BusCall};

    // it may have been offered this since it was made, in this order
    ghost sink_after: { Self → List FrameValue → Type 0 };

    // what neither a call of the bus side nor an offer changes
    ghost port_stays: { Self → Self → Type 0 };

    /// Offers the sink a frame that the controller has received.
    fn offer(&mut self, rt: &R, frame: Frame)
        ensures past { (past : List FrameValue) → sink_after self.old past → sink_after self.new (past ++ frame ∷ []) }
        ensures bus { (past : BusPast) → Self.bus_after self.old past → Self.bus_after self.new past }
        ensures asked { (calls : List BusCall) → Self.bus_asked self.old calls → Self.bus_asked self.new calls }
        ensures transmits { Self.transmitting self.new ≡ Self.transmitting self.old }
        ensures stays { port_stays self.old self.new };

    // no call of the bus side changes what was offered
    ghost sink_stays: { (x y : Self) (past : List FrameValue) → Self.bus_stays x y
        → sink_after x past → sink_after y past };

    ghost port_of_bus: { (x y : Self) → Self.bus_stays x y → port_stays x y };

    ghost port_stays_on: { (x y z : Self) → port_stays x y → port_stays y z → port_stays x z };
}

//! A segment of a run, and the controllers on it.

ghost use Rattle.std.specs.Prelude.{◌≡◌, ◌+◌, ◌<◌, ◌≤◌, IfOk, OnOk, OnErr, length};
ghost use Rattle.can_segment.specs.Segments.{MakesBit};
ghost use Rattle.gw_site.specs.Sites.{SiteHolds, PortsLeave, MakesOneAndQuiet};

use can_frame::Memory;
use can_segment::{RxSink, Segment};

/// A segment, and the ports of the controllers on it, in their order.
#[derive(Drop)]
pub struct Site<P> {
    /// The line with its nodes, and the record of what they did.
    pub segment: Segment,
    /// The controllers on it, in the order of its nodes.
    pub ports: Vec<P>,
}

/// Simulates one bit time of a segment with its controllers, as `Segment::bit` does where a bit is left to make: each
/// controller's port is asked for a request just where its node wants to start, also on an idle bus. `Memory` where the
/// record could not grow: then segment and ports are unchanged.
pub fn make_bit<R, P: RxSink<R>>(
    rt: &R,
    segment: &mut Segment,
    ports: &mut [P],
) -> Result<(), Memory>
    requires holds { SiteHolds P.bus_after P.transmitting P.sink_after segment.old ports.old }
    requires still { length segment.old.levels < segment.old.plan.bits }
    ensures holds { OnOk result (SiteHolds P.bus_after P.transmitting P.sink_after segment.new ports.new) }
    ensures plan { OnOk result (segment.new.plan ≡ segment.old.plan) }
    ensures longer { OnOk result (length segment.new.levels ≡ length segment.old.levels + 1) }
    ensures ports { OnOk result (PortsLeave P.port_stays ports.old ports.new) }
    ensures bit { OnOk result (MakesBit P.bus_after P.bus_asked P.transmitting P.sink_after P.port_stays
        segment.old segment.new ports.old ports.new) }
    ensures memory { OnErr result ((segment.new ≡ segment.old) × (ports.new ≡ ports.old)) }
{
    match segment.bit(rt, ports) {
        Ok(()) => Ok(()),
        // a bit is left to make
        Err(_) => Err(Memory),
    }
}

/// Simulates one bit time of a segment with its controllers, as `make_bit` does, and then bits that need no port
/// (`Segment::uneventful_bits`), up to `limit` bits in all. Returns how many bits the segment has then. `Memory` where
/// the record could not grow: then segment and ports are unchanged.
pub fn make_bits<R, P: RxSink<R>>(
    rt: &R,
    segment: &mut Segment,
    ports: &mut [P],
    limit: u64,
) -> Result<u64, Memory>
    requires holds { SiteHolds P.bus_after P.transmitting P.sink_after segment.old ports.old }
    requires still { length segment.old.levels < segment.old.plan.bits }
    requires limit { length segment.old.levels < limit }
    ensures holds { OnOk result (SiteHolds P.bus_after P.transmitting P.sink_after segment.new ports.new) }
    ensures plan { OnOk result (segment.new.plan ≡ segment.old.plan) }
    ensures made { IfOk result (λ made. made ≡ length segment.new.levels) }
    ensures longer { OnOk result (length segment.old.levels < length segment.new.levels) }
    ensures most { OnOk result (length segment.new.levels ≤ limit) }
    ensures within { OnOk result (length segment.new.levels ≤ segment.old.plan.bits) }
    ensures quiet { OnOk result (MakesOneAndQuiet P.bus_after P.bus_asked P.transmitting P.sink_after P.port_stays
        segment.old segment.new ports.old ports.new) }
    ensures ports { OnOk result (PortsLeave P.port_stays ports.old ports.new) }
    ensures memory { OnErr result ((segment.new ≡ segment.old) × (ports.new ≡ ports.old)) }
{
    make_bit(rt, segment, ports)?;
    segment.uneventful_bits(limit);
    Ok(segment.record().levels.len() as u64)
}

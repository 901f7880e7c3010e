//! Faults of a line and of the nodes on it.

ghost use Rattle.std.specs.Prelude.{◌≡◌};
ghost use Rattle.can_station.specs.Faults.{is_inverted, sampled_level, stands};

use crate::plan::NodeFault;

/// Returns whether a fault from bit `from` on and before bit `until` stands at this bit.
#[inline]
pub(crate) fn stands(from: u64, until: u64, bit: u64) -> bool
    ensures { result ≡ stands from until bit }
{
    from <= bit && bit < until
}

/// Returns whether a node samples the opposite of the line at a bit.
pub(crate) fn is_inverted(faults: &[NodeFault], node: u32, bit: u64) -> bool
    ensures { result ≡ is_inverted faults.now node bit }
{
    faults.iter().any(|fault| fault.node == node && stands(fault.bit, fault.until, bit))
}

/// Returns what a node samples at a bit at which the line has this level.
pub(crate) fn sampled_level(faults: &[NodeFault], node: u32, bit: u64, level: bool) -> bool
    ensures { result ≡ sampled_level faults.now node bit level }
{
    if is_inverted(faults, node, bit) {
        return !level;
    }
    level
}

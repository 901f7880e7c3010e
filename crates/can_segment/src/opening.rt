//! The nodes of a segment before its first bit.

ghost use Rattle.std.specs.Prelude.{◌≡◌, IfOk, length};
ghost use Rattle.can_station.specs.Fresh.{AreFresh};

use can_node::Counters;
use can_station::{Controller, Member, Talker};
use std::alloc::{AllocError, Global};

/// Returns counters for this many nodes, in which nothing is counted yet.
pub(crate) fn counters_for(alloc: Global, nodes: usize) -> Result<Vec<Counters>, AllocError>
    ensures { IfOk result (λ counters. length counters.items ≡ nodes) }
{
    let mut counters = Vec::new(alloc);
    for _ in 0..nodes {
        counters.push(Counters::new())?;
    }
    Ok(counters)
}

/// Returns the talkers before their first bit.
pub(crate) fn talkers_of(alloc: Global, talkers: &[Talker]) -> Result<Vec<Member>, AllocError>
    ensures { IfOk result (λ members. AreFresh (λ talker. talker.on) talkers.now members.items) }
{
    let mut members = Vec::new(alloc);
    for talker in talkers {
        members.push(Member::new(talker.on))?;
    }
    Ok(members)
}

/// Returns the controllers before their first bit.
pub(crate) fn controllers_of(
    alloc: Global,
    controllers: &[Controller],
) -> Result<Vec<Member>, AllocError>
    ensures { IfOk result (λ members. AreFresh (λ controller. controller.on) controllers.now members.items) }
{
    let mut members = Vec::new(alloc);
    for controller in controllers {
        members.push(Member::new(controller.on))?;
    }
    Ok(members)
}

//! The plan of a segment, from a script.

ghost use Rattle.std.specs.Prelude.{◌≡◌, ◌<◌, IfOk, length, filter_map};
ghost use Rattle.gw_config.specs.Controllers.{controllers_on};
ghost use Rattle.gw_site.specs.Pairs.{Pairs};
ghost use Rattle.gw_config.specs.SoundScripts.{IsSound};
ghost use Rattle.gw_opening.specs.Plans.{line_fault_in};
ghost use Rattle.gw_opening.specs.Plans.{IsSmall, IsTalkerOf, IsControllerOf, IsPlanOf, node_fault_in};

use crate::growing::push_some;
use crate::places::{controller_count, controller_there};
use crate::queue::queue_of;
use can_segment::{Controller, LineFault, NodeFault, SegmentPlan, Talker};
use gw_script::{PlannedFault, Script};
use std::alloc::{AllocError, Global};

fn talker_of(alloc: Global, said: &gw_script::Talker) -> Result<Talker, AllocError>
    ensures { IfOk result (IsTalkerOf said.now) }
{
    Ok(Talker {
        on: u64::from(said.on()),
        queue: queue_of(alloc, said.messages())?,
    })
}

fn talkers_of(alloc: Global, said: &[gw_script::Talker]) -> Result<Vec<Talker>, AllocError>
    ensures { IfOk result (λ talkers. Pairs (λ k. IsTalkerOf) said.now talkers.items) }
{
    let mut talkers = Vec::new(alloc);
    for one in said {
        talkers.push(talker_of(alloc, one)?)?;
    }
    Ok(talkers)
}

fn controllers_of(
    alloc: Global,
    script: &Script,
    segment: usize,
) -> Result<Vec<Controller>, AllocError>
    ensures { IfOk result (λ controllers. Pairs (λ k. IsControllerOf) (controllers_on segment script.now.controllers)
        controllers.items) }
{
    let mut controllers = Vec::new(alloc);
    for nth in 0..controller_count(script, segment) {
        let place = controller_there(script, segment, nth);
        let on = script.controllers()[place].on();
        controllers.push(Controller { on: u64::from(on) })?;
    }
    Ok(controllers)
}

fn node_fault_in(segment: usize, fault: &PlannedFault) -> Option<NodeFault>
    requires { IsSmall fault.now }
    ensures { result ≡ node_fault_in segment fault.now }
{
    match *fault {
        PlannedFault::AtNode { node, bit, until } if node.segment == segment => Some(NodeFault {
            node: node.place as u32,
            bit: u64::from(bit),
            until: u64::from(until),
        }),
        _ => None,
    }
}

fn line_fault_in(segment: usize, fault: &PlannedFault) -> Option<LineFault>
    ensures { result ≡ line_fault_in segment fault.now }
{
    match *fault {
        PlannedFault::OnLine {
            segment: place,
            bit,
            until,
            level,
        } if place == segment => Some(LineFault {
            bit: u64::from(bit),
            until: u64::from(until),
            level,
        }),
        _ => None,
    }
}

fn node_faults_of(
    alloc: Global,
    script: &Script,
    segment: usize,
) -> Result<Vec<NodeFault>, AllocError>
    requires { IsSound script.now }
    ensures { IfOk result (λ faults. faults.items ≡ filter_map (node_fault_in segment) script.now.faults) }
{
    let mut faults = Vec::new(alloc);
    for fault in script.faults() {
        push_some(&mut faults, node_fault_in(segment, fault))?;
    }
    Ok(faults)
}

fn line_faults_of(
    alloc: Global,
    script: &Script,
    segment: usize,
) -> Result<Vec<LineFault>, AllocError>
    ensures { IfOk result (λ faults. faults.items ≡ filter_map (line_fault_in segment) script.now.faults) }
{
    let mut faults = Vec::new(alloc);
    for fault in script.faults() {
        push_some(&mut faults, line_fault_in(segment, fault))?;
    }
    Ok(faults)
}

/// The plan of the segment at this place.
pub(crate) fn plan_of(
    alloc: Global,
    script: &Script,
    segment: usize,
) -> Result<SegmentPlan, AllocError>
    requires sound { IsSound script.now }
    requires there { segment < length script.now.segments }
    ensures { IfOk result (IsPlanOf script.now segment) }
{
    let talkers = talkers_of(alloc, script.segments()[segment].talkers())?;
    let controllers = controllers_of(alloc, script, segment)?;
    let node_faults = node_faults_of(alloc, script, segment)?;
    let line_faults = line_faults_of(alloc, script, segment)?;
    Ok(SegmentPlan {
        bits: u64::from(script.bits()),
        talkers,
        controllers,
        node_faults,
        line_faults,
    })
}

//! The segments of a script with their controllers, before the first bit.

ghost use Rattle.std.specs.Prelude.{◌≡◌, ◌<◌, ◌≤◌, IfOk, length};
ghost use Rattle.can_segment.specs.Segments.{IsOpening};
ghost use Rattle.gw_config.specs.SoundScripts.{IsSound};
ghost use Rattle.gw_opening.specs.Openings.{routes_at, IsNewPort};
ghost use Rattle.gw_opening.specs.Plans.{IsPlanOf};

use crate::places::count_into;
use crate::plan::plan_of;
use bx_controller::Port;
use can_frame::Memory;
use can_segment::Segment;
use gw_script::Script;
use gw_site::Site;
use std::alloc::Global;

/// For how many routes a controller has mailboxes: for those into it, and for one that nobody is where
/// there is none.
pub fn routes_at(script: &Script, controller: usize) -> u8
    requires { IsSound script.now }
    ensures value { result ≡ routes_at script.now controller }
    ensures some { 1 ≤ result }
    ensures few { result ≤ 8 }
{
    count_into(script, controller).max(1) as u8
}

/// The port of a controller with these mailboxes, with the banks of the script and FIFOs that nobody takes from.
pub fn port_of<B>(script: &Script, controller: usize, mail: B) -> Port<B>
    requires sound { IsSound script.now }
    requires there { controller < length script.now.controllers }
    ensures new { IsNewPort script.now controller result }
    ensures mail { result.mail ≡ mail }
{
    let banks = *script.controllers()[controller].banks();
    Port {
        mail,
        banks,
        first: None,
        second: None,
    }
}

/// The segment at this place, before its first bit.
fn segment_of(alloc: Global, script: &Script, segment: usize) -> Result<Segment, Memory>
    requires sound { IsSound script.now }
    requires there { segment < length script.now.segments }
    ensures plan { IfOk result (λ made. IsPlanOf script.now segment made.plan) }
    ensures opens { IfOk result (λ made. IsOpening made.plan made) }
{
    let plan = plan_of(alloc, script, segment)?;
    match Segment::new(alloc, plan) {
        Ok(made) => Ok(made),
        Err(_) => Err(Memory),
    }
}

/// The segment at this place, before its first bit, with these controllers. `Memory` where a growth was refused.
pub fn site_of<B: Drop>(
    alloc: Global,
    script: &Script,
    segment: usize,
    ports: Vec<Port<B>>,
) -> Result<Site<Port<B>>, Memory>
    requires sound { IsSound script.now }
    requires there { segment < length script.now.segments }
    ensures plan { IfOk result (λ site. IsPlanOf script.now segment site.segment.plan) }
    ensures opens { IfOk result (λ site. IsOpening site.segment.plan site.segment) }
    ensures ports { IfOk result (λ site. site.ports ≡ ports) }
{
    match segment_of(alloc, script, segment) {
        Ok(made) => Ok(Site {
            segment: made,
            ports,
        }),
        Err(memory) => Err(memory),
    }
}

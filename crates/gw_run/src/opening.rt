//! The segments of a script with their controllers in one thread, before the first bit.

ghost use Rattle.std.specs.Prelude.{◌≡◌, ◌<◌, IfOk, length};
ghost use Rattle.gw_config.specs.Nodes.{controller_places};
ghost use Rattle.gw_config.specs.SoundScripts.{IsSound};
ghost use Rattle.gw_opening.specs.Openings.{AreNewSites, HaveMails};
ghost use Rattle.gw_site.specs.Pairs.{Pairs};
ghost use Rattle.gw_run.specs.Ports.{IsNewMail, StartsPort};
ghost use Rattle.gw_run.specs.Sites.{StartsSite};

use crate::port::{Port, Site};
use bx_core::PlainMail;
use can_frame::Memory;
use gw_opening::{controller_count, controller_there, port_of, push_one, routes_at, site_of};
use gw_script::Script;
use std::alloc::{AllocError, Global};

/// The port of a controller, with mailboxes of its priority for the routes into it.
fn plain_port(alloc: Global, script: &Script, controller: usize) -> Port
    requires sound { IsSound script.now }
    requires there { controller < length script.now.controllers }
    ensures { StartsPort script.now controller result }
{
    let mail = PlainMail::with_txfp(
        alloc,
        routes_at(script, controller),
        script.controllers()[controller].txfp(),
    );
    port_of(script, controller, mail)
}

/// The ports of the controllers on a segment, in the order of the script.
fn ports_of(alloc: Global, script: &Script, segment: usize) -> Result<Vec<Port>, AllocError>
    requires { IsSound script.now }
    ensures { IfOk result (λ ports. Pairs (λ k. StartsPort script.now) (controller_places script.now segment)
        ports.items) }
{
    let mut ports = Vec::new(alloc);
    for nth in 0..controller_count(script, segment) {
        let controller = controller_there(script, segment, nth);
        push_one(&mut ports, plain_port(alloc, script, controller))?;
    }
    Ok(ports)
}

/// The segment at this place, before its first bit.
fn plain_site(alloc: Global, script: &Script, segment: usize) -> Result<Site, Memory>
    requires sound { IsSound script.now }
    requires there { segment < length script.now.segments }
    ensures { IfOk result (StartsSite script.now segment) }
{
    let ports = ports_of(alloc, script, segment)?;
    match site_of(alloc, script, segment, ports) {
        Ok(site) => Ok(site),
        Err(memory) => Err(memory),
    }
}

/// All segments of a script.
pub(crate) fn sites_of(alloc: Global, script: &Script) -> Result<Vec<Site>, Memory>
    requires { IsSound script.now }
    ensures new { IfOk result (λ sites. AreNewSites script.now sites.items) }
    ensures mails { IfOk result (λ sites. HaveMails IsNewMail script.now sites.items) }
{
    let mut sites = Vec::new(alloc);
    for segment in 0..script.segments().len() {
        let site = plain_site(alloc, script, segment)?;
        push_one(&mut sites, site)?;
    }
    Ok(sites)
}

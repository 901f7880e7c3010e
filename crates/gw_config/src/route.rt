//! A route of a script.

ghost use Rattle.std.specs.Prelude.{◌≡◌, IfOk, IfSome, length, ◌≤◌};
ghost use Rattle.std.specs.List.{list_any};
ghost use Rattle.bx_core.specs.Lists.{Each};
ghost use Rattle.serde_json.specs.View.{view};
ghost use Rattle.gw_fields.specs.Faults.{Reads, ReadsUnlessMemory};
ghost use Rattle.gw_config.specs.Routes.{takes_from, routes_into, queue_of, route_with, routes_of};
ghost use Rattle.gw_config.specs.Rewrites.{most_rewrites};
ghost use Rattle.gw_config.specs.SoundScripts.{IsRouteIn};

use crate::controller::Controller;
use crate::format::Format;
use crate::object::element_of;
use crate::pace::{Pace, pace_of};
use crate::rewrites::{MOST_REWRITES, rewrites_of};
use crate::version::Version;
use arrayvec::ArrayVec;
use can_frame::Rewrite;
use gw_fields::{
    Named, ReadsElement, ScriptFault, list, new_name, optional_whole, owned, place_named,
    read_each, whole,
};
use serde_json::Value;
use std::alloc::Global;
use std::marker::Model;

/// The greatest number of routes of a script.
const MOST_ROUTES: usize = 16;

/// The fields that a route of version 3 may have.
const FIELDS: [&'static str; 8] = [
    "name", "from", "fifo", "to", "rewrite", "every", "burst", "queue",
];

/// The greatest number of routes into one controller.
const MOST_INTO_ONE: usize = 8;

/// The greatest size of a queue.
const MOST_QUEUED: u64 = 1_024;

/// A way from a FIFO of one controller into another controller, or into the same. Contracts see its
/// name, the places of the two controllers, the FIFO, the new identifiers of frames, its pace, and the size of its
/// queue.
#[derive(Drop)]
pub struct Route {
    name: String,
    source: usize,
    fifo: u8,
    target: usize,
    rewrites: ArrayVec<Rewrite, MOST_REWRITES>,
    pace: Pace,
    queue: Option<u32>,
}

impl Model for Route {
    ghost use Rattle.gw_config.specs.Routes.{RouteValue};

    ghost Value = { RouteValue };

    ghost use Rattle.gw_config.specs.RouteParts.{route_view};

    ghost view = { route_view };
}

impl Route {
    /// Its name.
    pub fn name(&self) -> &str
        ensures { result.now ≡ self.now.name }
    {
        self.name.as_str()
    }

    /// The place in the script, from 0, of the controller that it takes from.
    pub fn source(&self) -> usize
        ensures { result ≡ self.now.source }
    {
        self.source
    }

    /// The FIFO that it takes from, 0 or 1.
    pub fn fifo(&self) -> u8
        ensures { result ≡ self.now.fifo }
    {
        self.fifo
    }

    /// The place in the script, from 0, of the controller that it leads into.
    pub fn target(&self) -> usize
        ensures { result ≡ self.now.target }
    {
        self.target
    }

    /// The new identifiers under which it sends frames on, at most 32 entries; none in version 1.
    pub fn rewrites(&self) -> &[Rewrite]
        ensures value { result.now ≡ self.now.rewrites }
        ensures few { length result.now ≤ most_rewrites }
    {
        self.rewrites.as_slice()
    }

    /// Returns when it makes its turns in a run in one thread. In versions 1 and 2 the run says it.
    pub fn pace(&self) -> Pace
        ensures { result ≡ self.now.pace }
    {
        self.pace
    }

    /// Returns how many frames it holds at most between the FIFO and the mailboxes, 1 to 1,024, which it takes out of
    /// the FIFO behind each bit; `None` where it takes a frame in its turn and holds one, as in versions 1 and 2.
    pub fn queue(&self) -> Option<u32>
        ensures { result ≡ self.now.queue }
    {
        self.queue
    }

    fn takes_from(&self, source: usize, fifo: u8) -> bool
        ensures { result ≡ takes_from source fifo self.now }
    {
        self.source == source && self.fifo == fifo
    }
}

impl Named for Route {
    ghost name_of = { λ r. r.name };

    fn name(&self) -> &str {
        Route::name(self)
    }
}

fn is_taken(routes: &[Route], source: usize, fifo: u8) -> bool
    ensures { result ≡ list_any (takes_from source fifo) routes.now }
{
    routes.iter().any(|route| route.takes_from(source, fifo))
}

fn count_into(routes: &[Route], target: usize) -> usize
    ensures { result ≡ routes_into target routes.now }
{
    routes
        .iter()
        .filter(|route| route.target() == target)
        .count()
}

/// Returns the size of a route's queue; `None` in versions 1 and 2, and where the field `queue` is absent.
///
/// `Kind("queue")` where the field of version 3 is not a whole number, `Range("queue")` where it is not 1 to 1,024.
fn queue_of(from: &Value, version: Version) -> Result<Option<u32>, ScriptFault>
    ensures value { Reads (λ queue. queue) result (queue_of version (view from.now)) }
    ensures range { IfOk result (λ queue. IfSome queue (λ size. (1 ≤ size) × (size ≤ 1024))) }
{
    match version {
        Version::One | Version::Two => Ok(None),
        Version::Three => match optional_whole(from, "queue", 1, MOST_QUEUED) {
            Ok(size) => Ok(size.map(|size| size as u32)),
            Err(fault) => Err(fault),
        },
    }
}

/// The fields of a route behind its name.
#[tactic(auto, unfolding(crate::specs::Routes::route_with))]
fn route_with(
    alloc: Global,
    from: &Value,
    format: Format,
    controllers: &[Controller],
    front: &[Route],
    name: &str,
) -> Result<Route, ScriptFault>
    ensures value { ReadsUnlessMemory (λ r. r) result
        (route_with format controllers.now front.now name.now (view from.now)) }
    ensures range { IfOk result (IsRouteIn controllers.now) }
{
    let source = place_named(from, "from", controllers)?;
    let fifo = whole(from, "fifo", 0, 1)? as u8;
    let target = place_named(from, "to", controllers)?;
    let rewrites = match rewrites_of(from, format.version) {
        Ok(rewrites) => rewrites,
        Err(fault) => return Err(fault),
    };
    let pace = match pace_of(from, format) {
        Ok(pace) => pace,
        Err(fault) => return Err(fault),
    };
    let queue = match queue_of(from, format.version) {
        Ok(queue) => queue,
        Err(fault) => return Err(fault),
    };
    if is_taken(front, source, fifo) {
        return Err(ScriptFault::FifoTwice(front.len()));
    }
    if count_into(front, target) < MOST_INTO_ONE {
        let name = owned(alloc, name)?;
        Ok(Route {
            name,
            source,
            fifo,
            target,
            rewrites,
            pace,
            queue,
        })
    } else {
        Err(ScriptFault::TooMany("routes"))
    }
}

/// Reads the routes between these controllers.
#[derive(Drop)]
struct RouteReader<'a> {
    format: Format,
    controllers: &'a [Controller],
}

impl<'a> ReadsElement for RouteReader<'a> {
    ghost use Rattle.gw_config.specs.Routes.{route_of};
    ghost use Rattle.gw_config.specs.SoundScripts.{IsRouteIn};

    type Element = Route;

    ghost reading = { λ s. route_of s.format s.controllers.now };

    ghost keeps = { λ s. IsRouteIn s.controllers.now };

    /// Returns the route that an element describes, behind those in front of it.
    #[tactic(auto, unfolding(crate::specs::Routes::route_of, crate::specs::Objects::element_of, gw_fields::specs::Fields::object_of, gw_fields::specs::Names::new_name))]
    fn read(&self, alloc: Global, value: &Value, front: &[Route]) -> Result<Route, ScriptFault> {
        let format = self.format;
        let from = element_of(format.version, "routes", &FIELDS, value)?;
        let name = new_name(from, "routes", front)?;
        route_with(alloc, from, format, self.controllers, front, name)
    }
}

/// The routes of a script, at most 16.
#[tactic(auto, unfolding(crate::specs::Routes::routes_of), using(crate::proofs::Lists::each_from_all))]
pub fn routes_of(
    alloc: Global,
    from: &Value,
    format: Format,
    controllers: &[Controller],
) -> Result<Vec<Route>, ScriptFault>
    ensures value { ReadsUnlessMemory (λ v. v.items) result (routes_of format controllers.now (view from.now)) }
    ensures range { IfOk result (λ v. Each (IsRouteIn controllers.now) v.items) }
    ensures few { IfOk result (λ v. length v.items ≤ 16) }
{
    let items = list(from, "routes", MOST_ROUTES)?;
    let reader = RouteReader {
        format,
        controllers,
    };
    read_each(alloc, items, &reader)
}

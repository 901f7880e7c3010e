//! Controllers on a segment and routes into a controller, by their places.

ghost use Rattle.std.specs.Prelude.{◌≡◌, ◌<◌, ◌==◌, count_by, length, slice_get, Some};
ghost use Rattle.gw_config.specs.Controllers.{controllers_on};
ghost use Rattle.gw_config.specs.Nodes.{controller_places, route_places, route_at};
ghost use Rattle.gw_config.specs.Routes.{RouteValue};
ghost use Rattle.gw_config.specs.SoundScripts.{IsSound};

use gw_script::{Controller, Route, Script};

/// How many of these controllers are on a segment.
pub(crate) fn among_controllers(controllers: &[Controller], segment: usize) -> usize
    ensures { result ≡ count_by (λ c. c.segment == segment) controllers.now }
{
    controllers
        .iter()
        .filter(|controller| controller.segment() == segment)
        .count()
}

/// How many of these routes lead into a controller.
fn among_routes(routes: &[Route], controller: usize) -> usize
    ensures { result ≡ count_by (λ r. r.target == controller) routes.now }
{
    routes
        .iter()
        .filter(|route| route.target() == controller)
        .count()
}

/// How many controllers of a script are on a segment.
pub fn controller_count(script: &Script, segment: usize) -> usize
    ensures places { result ≡ length (controller_places script.now segment) }
    ensures controllers { result ≡ length (controllers_on segment script.now.controllers) }
{
    among_controllers(script.controllers(), segment)
}

/// How many routes lead into a controller.
pub(crate) fn count_into(script: &Script, controller: usize) -> usize
    ensures { result ≡ length (route_places script.now controller) }
{
    among_routes(script.routes(), controller)
}

/// The place in the script of a controller, by its place among those on a segment.
pub fn controller_there(script: &Script, segment: usize, nth: usize) -> usize
    requires { nth < length (controller_places script.now segment) }
    ensures place { slice_get (controller_places script.now segment) nth ≡ Some result }
    ensures range { result < length script.now.controllers }
    ensures controller { slice_get script.now.controllers result
        ≡ slice_get (controllers_on segment script.now.controllers) nth }
{
    match script.controller_on(segment, nth) {
        Some(place) => place,
        None => unreachable!(),
    }
}

/// The number of a route at the controller that it leads into: its place among the routes into it.
pub(crate) fn number_of(script: &Script, route: usize, target: usize) -> u8
    requires sound { IsSound script.now }
    requires there { (value : RouteValue) × (slice_get script.now.routes route ≡ Some value) × (value.target ≡ target) }
    ensures { route_at script.now target result ≡ Some route }
{
    among_routes(&script.routes()[..route], target) as u8
}

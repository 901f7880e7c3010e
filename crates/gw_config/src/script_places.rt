//! The nodes of a segment and the routes into a controller, by their places.

ghost use Rattle.std.specs.Prelude.{◌≡◌, ◌<◌, ◌==◌, length, slice_get, option_and_then, IfSome};
ghost use Rattle.gw_config.specs.Controllers.{controllers_on};
ghost use Rattle.gw_config.specs.Nodes.{places_where};

use crate::controller::Controller;
use crate::route::Route;

/// The place of a controller, by its place among those on a segment.
pub fn nth_on(controllers: &[Controller], segment: usize, nth: usize) -> Option<usize>
    ensures value { result ≡ slice_get (places_where (λ c. c.segment == segment) 0 controllers.now) nth }
    ensures controller { option_and_then (λ place. slice_get controllers.now place) result
        ≡ slice_get (controllers_on segment controllers.now) nth }
    ensures range { IfSome result (λ place. place < length controllers.now) }
{
    let mut left = nth;
    for (place, controller) in controllers.iter().enumerate() {
        if controller.segment() != segment {
            continue;
        }
        if left == 0 {
            return Some(place);
        }
        left -= 1;
    }
    None
}

/// The place of a route, by its place among those into a controller.
pub fn nth_into(routes: &[Route], controller: usize, nth: usize) -> Option<usize>
    ensures value { result ≡ slice_get (places_where (λ r. r.target == controller) 0 routes.now) nth }
    ensures range { IfSome result (λ place. place < length routes.now) }
{
    let mut left = nth;
    for (place, route) in routes.iter().enumerate() {
        if route.target() != controller {
            continue;
        }
        if left == 0 {
            return Some(place);
        }
        left -= 1;
    }
    None
}

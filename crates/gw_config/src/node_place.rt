//! Where a node of a script is.

ghost use Rattle.std.specs.Prelude.{◌≡◌, ◌+◌, ◌<◌, ◌^◌, length, IfSome};
ghost use Rattle.std.specs.List.{position_from};
ghost use Rattle.std.specs.Str.{bytes_eq};
ghost use Rattle.gw_config.specs.Controllers.{controller_names, controllers_on, node_names};
ghost use Rattle.gw_config.specs.PlannedFaults.{node_from};

use crate::controller::Controller;
use crate::segment::Segment;
use gw_fields::place_of;

/// A node by the place of its segment in the script and its own place there, both from 0. The nodes of a
/// segment are its talkers, and then the controllers on it in the order of the script.
#[derive(Clone, Copy, Debug, PartialEq, Eq)]
pub struct NodePlace {
    pub segment: usize,
    pub place: usize,
}

/// The place of the controller of this name among those on a segment, where the first has this place.
fn controller_on(
    controllers: &[Controller],
    segment: usize,
    name: &str,
    first: usize,
) -> Option<usize>
    requires { first + length controllers.now < 2 ^ 64 }
    ensures { result ≡ position_from (bytes_eq name.now) first
        (controller_names (controllers_on segment controllers.now)) }
{
    let mut place = first;
    for controller in controllers {
        if controller.segment() != segment {
            continue;
        }
        if name == controller.name() {
            return Some(place);
        }
        place += 1;
    }
    None
}

/// The place of the node of this name in a segment, which has this place itself.
fn node_on(controllers: &[Controller], place: usize, segment: &Segment, name: &str) -> Option<usize>
    ensures { result ≡ position_from (bytes_eq name.now) 0 (node_names controllers.now place segment.now) }
{
    let talkers = segment.talkers();
    match place_of(talkers, name) {
        Some(node) => Some(node),
        None => controller_on(controllers, place, name, talkers.len()),
    }
}

/// The node of this name.
pub fn find_node(segments: &[Segment], controllers: &[Controller], name: &str) -> Option<NodePlace>
    ensures value { result ≡ node_from controllers.now name.now 0 segments.now }
    ensures range { IfSome result (λ n. n.segment < length segments.now) }
{
    for (place, segment) in segments.iter().enumerate() {
        if let Some(node) = node_on(controllers, place, segment, name) {
            return Some(NodePlace {
                segment: place,
                place: node,
            });
        }
    }
    None
}

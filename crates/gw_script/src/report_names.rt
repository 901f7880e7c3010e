//! The names of what a report names by place.

ghost use Rattle.std.specs.Prelude.{◌≡◌, ◌<◌, length, map, IfOk};
ghost use Rattle.gw_config.specs.Nodes.{names_of_nodes};
ghost use Rattle.gw_script.specs.NamedPlaces.{NamesRequest};
ghost use Rattle.gw_script.specs.ReportTexts.{name_at, segment_name, node_name, route_name, route_of};

use can_segment::Label;
use gw_config::Script;
use std::alloc::{AllocError, Global};

/// The name of a segment.
pub fn segment_name(script: &Script, segment: usize) -> &str
    requires { segment < length script.now.segments }
    ensures { result.now ≡ segment_name script.now segment }
{
    script.segments()[segment].name()
}

/// The name of a node of a segment.
pub fn node_name(script: &Script, segment: usize, node: usize) -> &str
    requires { node < length (names_of_nodes script.now segment) }
    ensures { result.now ≡ node_name script.now segment node }
{
    match script.node_name(segment, node) {
        Some(name) => name,
        None => unreachable!(),
    }
}

/// The names of a segment's nodes, in their order.
pub fn names_of_nodes<'s>(
    alloc: Global,
    script: &'s Script,
    segment: usize,
) -> Result<Vec<&'s str>, AllocError>
    ensures { IfOk result (λ names. map (λ name. name.now) names.items ≡ names_of_nodes script.now segment) }
{
    let mut names = Vec::new(alloc);
    for node in 0..script.node_count(segment) {
        names.push(node_name(script, segment, node))?;
    }
    Ok(names)
}

/// The name at a place among these.
pub fn name_at<'n>(names: &[&'n str], place: usize) -> &'n str
    requires { place < length names.now }
    ensures { result.now ≡ name_at (map (λ name. name.now) names.now) place }
{
    names[place]
}

/// The name of a route.
pub fn route_name(script: &Script, route: usize) -> &str
    requires { route < length script.now.routes }
    ensures { result.now ≡ route_name script.now route }
{
    script.routes()[route].name()
}

/// The route that a request at a node comes from, by its place in the script.
pub fn route_of(script: &Script, segment: usize, node: usize, label: Label) -> usize
    requires { NamesRequest script.now segment node label }
    ensures value { route_of script.now segment node label ≡ Some result }
    ensures range { result < length script.now.routes }
{
    let Some(controller) = script.controller_at(segment, node) else {
        unreachable!()
    };
    match script.route_at(controller, label.route as usize) {
        Some(route) => route,
        None => unreachable!(),
    }
}

//! Where a controller is in a run.

ghost use Rattle.std.specs.Prelude.{◌<◌, length};
ghost use Rattle.gw_opening.specs.Openings.{IsPlaceOf};

use crate::places::among_controllers;
use gw_script::Script;

/// Where a controller is: the place of its segment in the script, and its own among the controllers on it.
#[derive(Clone, Copy, Debug, PartialEq, Eq)]
pub struct Place {
    /// The place of the segment in the script, from 0.
    pub site: usize,
    /// The place among the controllers on that segment, from 0.
    pub port: usize,
}

impl Place {
    /// Where the controller at this place of the script is.
    pub fn of(script: &Script, controller: usize) -> Place
        requires { controller < length script.now.controllers }
        ensures { IsPlaceOf script.now controller result }
    {
        let controllers = script.controllers();
        let site = controllers[controller].segment();
        let port = among_controllers(&controllers[..controller], site);
        Place { site, port }
    }
}

//! When a route makes its turns.

ghost use Rattle.std.specs.Prelude.{IfOk};
ghost use Rattle.serde_json.specs.View.{view};
ghost use Rattle.gw_fields.specs.Faults.{Reads};
ghost use Rattle.gw_config.specs.Paces.{pace_with, pace_of};
ghost use Rattle.gw_config.specs.SoundScripts.{IsPaceIn};

use crate::format::Format;
use crate::version::Version;
use gw_fields::{ScriptFault, optional_duration, optional_whole};
use serde_json::Value;

/// The greatest number of ticks between a route's turns.
const MOST_EVERY: u64 = 1_000_000;

/// The greatest number of turns behind one tick.
const MOST_BURST: u64 = 1_000;

/// When a route makes its turns in a run in one thread.
#[derive(Clone, Copy, Debug, PartialEq, Eq)]
pub struct Pace {
    /// The route makes turns behind each tick whose number, counted from 1, is a multiple of this, 1 to 1,000,000.
    /// `None` where the run says the number.
    pub every: Option<u32>,
    /// Behind such a tick it makes turns until one is idle or waits, and at most so many, 1 to 1,000.
    pub burst: u32,
}

/// Returns the pace by the fields `every` and `burst` of a route of version 3.
///
/// `Kind` or `Range` of the first of them that is not a duration (`burst`: a whole number), or is out of its range.
#[tactic(auto, unfolding(crate::specs::Paces::pace_with))]
fn pace_with(from: &Value, rate: Option<u32>) -> Result<Pace, ScriptFault>
    ensures value { Reads (λ pace. pace) result (pace_with rate (view from.now)) }
    ensures range { IfOk result IsPaceIn }
{
    let every = optional_duration(from, "every", 1, MOST_EVERY, rate)?;
    let burst = optional_whole(from, "burst", 1, MOST_BURST)?;
    Ok(Pace {
        every: every.map(|every| every as u32),
        burst: match burst {
            Some(burst) => burst as u32,
            None => 1,
        },
    })
}

/// Returns the pace of a route. In versions 1 and 2 the run says when turns are made, one at a time.
///
/// `Kind` or `Range` of the first of the fields `every` and `burst` of version 3 that is not a duration (`burst`: a
/// whole number), or is out of its range.
pub fn pace_of(from: &Value, format: Format) -> Result<Pace, ScriptFault>
    ensures value { Reads (λ pace. pace) result (pace_of format.version format.rate (view from.now)) }
    ensures range { IfOk result IsPaceIn }
{
    match format.version {
        Version::One | Version::Two => Ok(Pace {
            every: None,
            burst: 1,
        }),
        Version::Three => pace_with(from, format.rate),
    }
}

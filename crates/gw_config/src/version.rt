//! The version of a script.

ghost use Rattle.std.specs.Prelude.{◌≡◌, ◌≤◌};
ghost use Rattle.serde_json.specs.View.{view};
ghost use Rattle.bx_rx.specs.Banks.{bank_count};
ghost use Rattle.gw_fields.specs.Faults.{Reads};
ghost use Rattle.gw_config.specs.Versions.{listed_banks, most_nodes, most_bits, version_with, version_of};

use gw_fields::{ScriptFault, natural};
use serde_json::Value;

/// The version of a script, which says what a script may contain.
#[derive(Clone, Copy, PartialEq, Eq)]
pub enum Version {
    /// A controller lists at most 14 banks, and a field `rewrite` is ignored.
    One,
    /// A controller lists at most 28 banks, and routes rewrite identifiers.
    Two,
    /// Unknown fields are refused. A script may have a bit rate, durations in units of time, frames that are repeated,
    /// filters as identifiers, and faults of several bits.
    Three,
}

impl Version {
    /// Returns how many banks a controller may list. They are numbered from 0 on.
    pub fn listed_banks(self) -> usize
        ensures value { result ≡ listed_banks self }
        ensures some { 1 ≤ result }
        ensures few { result ≤ bank_count }
    {
        match self {
            Version::One => 14,
            Version::Two | Version::Three => 28,
        }
    }

    /// Returns how many nodes a segment may have.
    pub fn most_nodes(self) -> usize
        ensures value { result ≡ most_nodes self }
        ensures few { result ≤ 64 }
    {
        match self {
            Version::One | Version::Two => 16,
            Version::Three => 64,
        }
    }

    /// Returns how many bits a run may last.
    pub fn most_bits(self) -> u32
        ensures value { result ≡ most_bits self }
        ensures few { result ≤ 100000000 }
    {
        match self {
            Version::One | Version::Two => 1_000_000,
            Version::Three => 100_000_000,
        }
    }
}

fn version_with(number: u64) -> Result<Version, ScriptFault>
    ensures { Reads (λ version. version) result (version_with number) }
{
    match number {
        1 => Ok(Version::One),
        2 => Ok(Version::Two),
        3 => Ok(Version::Three),
        _ => Err(ScriptFault::Version),
    }
}

/// Returns the version of a script: 1, 2 or 3.
///
/// `Missing("version")` or `Kind("version")` where it is not a whole number, `Version` for any other number.
#[tactic(auto, unfolding(crate::specs::Versions::version_of))]
pub fn version_of(from: &Value) -> Result<Version, ScriptFault>
    ensures { Reads (λ version. version) result (version_of (view from.now)) }
{
    let number = natural(from, "version")?;
    version_with(number)
}

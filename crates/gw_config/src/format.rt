//! What the fields of a script are read by.

ghost use Rattle.std.specs.Prelude.{◌≤◌, ◌<◌, IfOk};
ghost use Rattle.serde_json.specs.View.{view};
ghost use Rattle.gw_fields.specs.Faults.{Reads};
ghost use Rattle.gw_config.specs.Formats.{bit_of};

use crate::version::Version;
use gw_fields::{ScriptFault, duration};
use serde_json::Value;

/// What the fields of a script are read by: the script's version, its bit rate in bits a second where it has one, and
/// the number of bits that its run lasts.
#[derive(Clone, Copy)]
pub struct Format {
    pub version: Version,
    pub rate: Option<u32>,
    pub bits: u32,
}

impl Format {
    /// Returns a field that is a bit of the run, below the run's number of bits: a duration from the run's beginning.
    ///
    /// `Missing(name)` where the field is absent, `Kind(name)` where it is not a duration, and `Range(name)` where the
    /// run has no bit of this number.
    pub fn bit_of(&self, from: &Value, name: &'static str) -> Result<u32, ScriptFault>
        requires { 1 ≤ self.now.bits }
        ensures value { Reads (λ n. n) result (bit_of self.now name.entry.now (view from.now)) }
        ensures range { IfOk result (λ n. n < self.now.bits) }
    {
        let bit = duration(from, name, 0, u64::from(self.bits - 1), self.rate)?;
        Ok(bit as u32)
    }
}

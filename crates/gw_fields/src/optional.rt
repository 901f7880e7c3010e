//! Fields of a JSON object that may be absent.

ghost use Rattle.std.specs.Prelude.{◌≡◌, ◌≤◌, IfOk, IfSome, option_map};
ghost use Rattle.serde_json.specs.View.{view};
ghost use Rattle.gw_fields.specs.Faults.{Reads};
ghost use Rattle.gw_fields.specs.Optional.{optional_whole, optional_text, maybe_truth};

use crate::fields::{text_of, whole_of};
use crate::script_fault::ScriptFault;
use serde_json::Value;

/// Returns a field that is a whole number from `low` to `high`, and `None` where the object doesn't have the field.
///
/// `Kind(name)` where the field is not a whole number below 2^64, `Range(name)` where the number is below `low` or above
/// `high`.
#[tactic(auto, unfolding(crate::specs::Optional::optional_whole))]
pub fn optional_whole(
    from: &Value,
    name: &'static str,
    low: u64,
    high: u64,
) -> Result<Option<u64>, ScriptFault>
    ensures value { Reads (λ o. o) result (optional_whole name.entry.now low high (view from.now)) }
    ensures range { IfOk result (λ o. IfSome o (λ n. (low ≤ n) × (n ≤ high))) }
{
    match from.get(name) {
        None => Ok(None),
        Some(value) => match whole_of(value, name, low, high) {
            Ok(number) => Ok(Some(number)),
            Err(fault) => Err(fault),
        },
    }
}

/// Returns a field that is a text, and `None` where the object doesn't have the field.
///
/// `Kind(name)` where the field is not a text.
#[tactic(auto, unfolding(crate::specs::Optional::optional_text))]
pub fn optional_text<'v>(
    from: &'v Value,
    name: &'static str,
) -> Result<Option<&'v str>, ScriptFault>
    ensures { Reads (λ o. option_map (λ t. t.now) o) result (optional_text name.entry.now (view from.now)) }
{
    match from.get(name) {
        None => Ok(None),
        Some(value) => match text_of(value, name) {
            Ok(text) => Ok(Some(text)),
            Err(fault) => Err(fault),
        },
    }
}

/// Returns a field that is true or false, and `None` where the object doesn't have the field.
///
/// `Kind(name)` where the field is anything else, `null` included.
#[tactic(auto, unfolding(crate::specs::Optional::maybe_truth))]
pub fn maybe_truth(from: &Value, name: &'static str) -> Result<Option<bool>, ScriptFault>
    ensures { Reads (λ o. o) result (maybe_truth name.entry.now (view from.now)) }
{
    match from.get(name) {
        None => Ok(None),
        Some(value) => match value.as_bool() {
            Some(truth) => Ok(Some(truth)),
            None => Err(ScriptFault::Kind(name)),
        },
    }
}

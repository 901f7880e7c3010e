//! Durations.

ghost use Rattle.std.specs.Prelude.{◌≡◌, ◌≤◌, IfOk, IfSome, length};
ghost use Rattle.std.specs.Char.{is_ascii_digit};
ghost use Rattle.std.specs.List.{prefix_len};
ghost use Rattle.serde_json.specs.Find.{as_str};
ghost use Rattle.serde_json.specs.View.{view};
ghost use Rattle.gw_fields.specs.Faults.{Reads};
ghost use Rattle.gw_fields.specs.Durations.{in_second, bits_of, duration_text, duration_with};
ghost use Rattle.gw_fields.specs.Durations.{duration_of, duration, optional_duration};

use crate::digits::number_in;
use crate::fields::{field, natural_of};
use crate::script_fault::ScriptFault;
use serde_json::Value;

/// Returns how many of a unit make a second: 1,000,000 of `us`, 1,000 of `ms`, 1 of `s`.
///
/// `None` for any other text.
fn in_second(unit: &[u8]) -> Option<u64>
    ensures { result ≡ in_second unit.now }
{
    if unit == b"us".as_slice() {
        return Some(1_000_000);
    }
    if unit == b"ms".as_slice() {
        return Some(1_000);
    }
    if unit == b"s".as_slice() {
        return Some(1);
    }
    None
}

/// Returns the bits of a duration of `digits` units at `rate` bits a second, rounded down.
///
/// `None` where a digit is not a decimal one, or the unit is not `us`, `ms` or `s`.
fn bits_of(rate: u32, digits: &[u8], unit: &[u8]) -> Option<u64>
    requires { length digits.now ≤ 9 }
    ensures { result ≡ bits_of rate digits.now unit.now }
{
    let Some(number) = number_in(10, digits) else {
        return None;
    };
    match in_second(unit) {
        Some(parts) => Some(number * u64::from(rate) / parts),
        None => None,
    }
}

/// Returns how many decimal digits a text begins with.
fn digits_before(text: &[u8]) -> usize
    ensures value { result ≡ prefix_len is_ascii_digit text.now }
    ensures within { result ≤ length text.now }
{
    text.iter().take_while(|byte| byte.is_ascii_digit()).count()
}

/// Returns a duration in bits, rounded down, at a rate in bits a second. The text is 1 to 9 decimal digits and `us`,
/// `ms` or `s`, with nothing between.
///
/// `None` for any other text.
#[tactic(auto, unfolding(crate::specs::Durations::duration_text))]
fn duration_text(rate: u32, text: &str) -> Option<u64>
    ensures { result ≡ duration_text rate text.now }
{
    let bytes = text.as_bytes();
    let count = digits_before(bytes);
    let (digits, unit) = bytes.split_at(count);
    if 1 <= count && count <= 9 {
        bits_of(rate, digits, unit)
    } else {
        None
    }
}

/// Returns a duration in bits: a whole number, or a text where there is a rate.
fn duration_with(value: &Value, name: &'static str, rate: Option<u32>) -> Result<u64, ScriptFault>
    ensures { Reads (λ n. n) result (duration_with name.entry.now rate (view value.now) (as_str (view value.now))) }
{
    let Some(text) = value.as_str() else {
        return natural_of(value, name);
    };
    let Some(rate) = rate else {
        return Err(ScriptFault::Kind(name));
    };
    match duration_text(rate, text) {
        Some(bits) => Ok(bits),
        None => Err(ScriptFault::Kind(name)),
    }
}

/// Returns a duration in bits, from `low` to `high`. It is given as a whole number of bits or, where there is a `rate`
/// in bits a second, as a text: 1 to 9 decimal digits and one of `us`, `ms` and `s` with nothing between, which is
/// rounded down to whole bits.
///
/// `Kind(name)` for another text, for a text where there is no rate, and for another kind of value; `Range(name)` for a
/// duration below `low` or above `high`.
#[tactic(auto, unfolding(crate::specs::Durations::duration_of))]
pub fn duration_of(
    value: &Value,
    name: &'static str,
    low: u64,
    high: u64,
    rate: Option<u32>,
) -> Result<u64, ScriptFault>
    ensures value { Reads (λ n. n) result (duration_of name.entry.now low high rate (view value.now)) }
    ensures range { IfOk result (λ n. (low ≤ n) × (n ≤ high)) }
{
    let bits = duration_with(value, name, rate)?;
    if low <= bits && bits <= high {
        Ok(bits)
    } else {
        Err(ScriptFault::Range(name))
    }
}

/// Returns a field that is a duration in bits, from `low` to `high`, as `duration_of` reads it.
///
/// `Missing(name)` where the object doesn't have the field, and the faults of `duration_of` where it has.
#[tactic(auto, unfolding(crate::specs::Durations::duration))]
pub fn duration(
    from: &Value,
    name: &'static str,
    low: u64,
    high: u64,
    rate: Option<u32>,
) -> Result<u64, ScriptFault>
    ensures value { Reads (λ n. n) result (duration name.entry.now low high rate (view from.now)) }
    ensures range { IfOk result (λ n. (low ≤ n) × (n ≤ high)) }
{
    let value = field(from, name)?;
    duration_of(value, name, low, high, rate)
}

/// Returns a field that is a duration in bits, from `low` to `high`, as `duration_of` reads it, and `None` where the
/// object doesn't have the field.
///
/// The faults of `duration_of` where it has the field.
#[tactic(auto, unfolding(crate::specs::Durations::optional_duration))]
pub fn optional_duration(
    from: &Value,
    name: &'static str,
    low: u64,
    high: u64,
    rate: Option<u32>,
) -> Result<Option<u64>, ScriptFault>
    ensures value { Reads (λ o. o) result (optional_duration name.entry.now low high rate (view from.now)) }
    ensures range { IfOk result (λ o. IfSome o (λ n. (low ≤ n) × (n ≤ high))) }
{
    match from.get(name) {
        None => Ok(None),
        Some(value) => match duration_of(value, name, low, high, rate) {
            Ok(bits) => Ok(Some(bits)),
            Err(fault) => Err(fault),
        },
    }
}

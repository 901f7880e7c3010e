//! Fields of a JSON object.

ghost use Rattle.std.specs.Prelude.{◌≡◌, ◌≤◌, Bool, IfOk, length};
ghost use Rattle.serde_json.specs.View.{view, items_view};
ghost use Rattle.gw_fields.specs.Faults.{Reads};
ghost use Rattle.gw_fields.specs.Fields.{object_of, field, natural_of, whole_of, natural, whole, truth};
ghost use Rattle.gw_fields.specs.Fields.{optional_truth, text_of, text, list_of, list, some_list, filled_list};
ghost use Rattle.gw_fields.specs.Fields.{optional_list};

use crate::script_fault::ScriptFault;
use serde_json::Value;

/// The value itself, which must be an object.
#[tactic(auto, unfolding(crate::specs::Fields::object_of))]
pub fn object_of<'v>(value: &'v Value, name: &'static str) -> Result<&'v Value, ScriptFault>
    ensures { Reads (λ v. view v.now) result (object_of name.entry.now (view value.now)) }
{
    match value.as_object() {
        Some(_) => Ok(value),
        None => Err(ScriptFault::Kind(name)),
    }
}

/// A field of an object.
#[tactic(auto, unfolding(crate::specs::Fields::field))]
pub fn field<'v>(object: &'v Value, name: &'static str) -> Result<&'v Value, ScriptFault>
    ensures { Reads (λ v. view v.now) result (field name.entry.now (view object.now)) }
{
    match object.get(name) {
        Some(value) => Ok(value),
        None => Err(ScriptFault::Missing(name)),
    }
}

/// A whole number.
#[tactic(auto, unfolding(crate::specs::Fields::natural_of))]
pub(crate) fn natural_of(value: &Value, name: &'static str) -> Result<u64, ScriptFault>
    ensures { Reads (λ n. n) result (natural_of name.entry.now (view value.now)) }
{
    match value.as_u64() {
        Some(number) => Ok(number),
        None => Err(ScriptFault::Kind(name)),
    }
}

/// A whole number from `low` to `high`.
#[tactic(auto, unfolding(crate::specs::Fields::whole_of))]
pub fn whole_of(value: &Value, name: &'static str, low: u64, high: u64) -> Result<u64, ScriptFault>
    ensures value { Reads (λ n. n) result (whole_of name.entry.now low high (view value.now)) }
    ensures range { IfOk result (λ n. (low ≤ n) × (n ≤ high)) }
{
    let number = natural_of(value, name)?;
    if low <= number && number <= high {
        Ok(number)
    } else {
        Err(ScriptFault::Range(name))
    }
}

/// A field that is a whole number.
#[tactic(auto, unfolding(crate::specs::Fields::natural))]
pub fn natural(object: &Value, name: &'static str) -> Result<u64, ScriptFault>
    ensures { Reads (λ n. n) result (natural name.entry.now (view object.now)) }
{
    let value = field(object, name)?;
    natural_of(value, name)
}

/// A field that is a whole number from `low` to `high`.
#[tactic(auto, unfolding(crate::specs::Fields::whole))]
pub fn whole(object: &Value, name: &'static str, low: u64, high: u64) -> Result<u64, ScriptFault>
    ensures value { Reads (λ n. n) result (whole name.entry.now low high (view object.now)) }
    ensures range { IfOk result (λ n. (low ≤ n) × (n ≤ high)) }
{
    let value = field(object, name)?;
    whole_of(value, name, low, high)
}

/// A field that is true or false.
#[tactic(auto, unfolding(crate::specs::Fields::truth))]
pub fn truth(object: &Value, name: &'static str) -> Result<bool, ScriptFault>
    ensures { Reads (λ b. b) result (truth name.entry.now (view object.now)) }
{
    let value = field(object, name)?;
    match value.as_bool() {
        Some(truth) => Ok(truth),
        None => Err(ScriptFault::Kind(name)),
    }
}

/// A field that is true or false, and `absent` where it is not there.
#[tactic(auto, unfolding(crate::specs::Fields::optional_truth))]
pub fn optional_truth(object: &Value, name: &'static str, absent: bool) -> Result<bool, ScriptFault>
    ensures { Reads (λ b. b) result (optional_truth name.entry.now absent (view object.now)) }
{
    match object.get(name) {
        None => Ok(absent),
        Some(value) => match value.as_bool() {
            Some(truth) => Ok(truth),
            None => Err(ScriptFault::Kind(name)),
        },
    }
}

/// A text.
#[tactic(auto, unfolding(crate::specs::Fields::text_of))]
pub fn text_of<'v>(value: &'v Value, name: &'static str) -> Result<&'v str, ScriptFault>
    ensures { Reads (λ t. t.now) result (text_of name.entry.now (view value.now)) }
{
    match value.as_str() {
        Some(text) => Ok(text),
        None => Err(ScriptFault::Kind(name)),
    }
}

/// A field that is a text.
#[tactic(auto, unfolding(crate::specs::Fields::text))]
pub fn text<'v>(object: &'v Value, name: &'static str) -> Result<&'v str, ScriptFault>
    ensures { Reads (λ t. t.now) result (text name.entry.now (view object.now)) }
{
    let value = field(object, name)?;
    text_of(value, name)
}

/// A list of at most `most` elements.
#[tactic(auto, unfolding(crate::specs::Fields::list_of))]
pub fn list_of<'v>(
    value: &'v Value,
    name: &'static str,
    most: usize,
) -> Result<&'v [Value], ScriptFault>
    ensures value { Reads (λ v. items_view v.now) result (list_of name.entry.now most (view value.now)) }
    ensures few { IfOk result (λ v. length v.now ≤ most) }
{
    let Some(items) = value.as_array() else {
        return Err(ScriptFault::Kind(name));
    };
    if items.len() <= most {
        Ok(items.as_slice())
    } else {
        Err(ScriptFault::TooMany(name))
    }
}

/// A field that is a list of at most `most` elements.
#[tactic(auto, unfolding(crate::specs::Fields::list))]
pub fn list<'v>(
    object: &'v Value,
    name: &'static str,
    most: usize,
) -> Result<&'v [Value], ScriptFault>
    ensures value { Reads (λ v. items_view v.now) result (list name.entry.now most (view object.now)) }
    ensures few { IfOk result (λ v. length v.now ≤ most) }
{
    let value = field(object, name)?;
    list_of(value, name, most)
}

/// A field that is a list of any length.
#[tactic(auto, unfolding(crate::specs::Fields::some_list))]
pub fn some_list<'v>(object: &'v Value, name: &'static str) -> Result<&'v [Value], ScriptFault>
    ensures { Reads (λ v. items_view v.now) result (some_list name.entry.now (view object.now)) }
{
    let value = field(object, name)?;
    match value.as_array() {
        Some(items) => Ok(items.as_slice()),
        None => Err(ScriptFault::Kind(name)),
    }
}

/// A field that is a list of at least one and at most `most` elements.
#[tactic(auto, unfolding(crate::specs::Fields::filled_list))]
pub fn filled_list<'v>(
    object: &'v Value,
    name: &'static str,
    most: usize,
) -> Result<&'v [Value], ScriptFault>
    ensures value { Reads (λ v. items_view v.now) result (filled_list name.entry.now most (view object.now)) }
    ensures some { IfOk result (λ v. 1 ≤ length v.now) }
    ensures few { IfOk result (λ v. length v.now ≤ most) }
{
    let items = list(object, name, most)?;
    if items.is_empty() {
        Err(ScriptFault::Range(name))
    } else {
        Ok(items)
    }
}

/// A field that is a list of at most `most` elements where it is there.
#[tactic(auto, unfolding(crate::specs::Fields::optional_list))]
pub fn optional_list<'v>(
    object: &'v Value,
    name: &'static str,
    most: usize,
) -> Result<&'v [Value], ScriptFault>
    ensures value { Reads (λ v. items_view v.now) result (optional_list name.entry.now most (view object.now)) }
    ensures few { IfOk result (λ v. length v.now ≤ most) }
{
    match object.get(name) {
        Some(value) => list_of(value, name, most),
        None => Ok(&[]),
    }
}

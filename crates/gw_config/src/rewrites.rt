//! The new identifiers that a route gives to frames.

ghost use Rattle.std.specs.Prelude.{◌≡◌, ◌≤◌, length};
ghost use Rattle.serde_json.specs.View.{view, items_view};
ghost use Rattle.gw_fields.specs.Faults.{Reads};
ghost use Rattle.gw_fields.specs.Fields.{each};
ghost use Rattle.gw_config.specs.Rewrites.{most_rewrites, number_rewrite, identifier_in, text_rewrite};
ghost use Rattle.gw_config.specs.Rewrites.{entry_of, listed_rewrites, rewrites_of};

use crate::object::element_of;
use crate::version::Version;
use arrayvec::ArrayVec;
use can_frame::{Id, Rewrite};
use gw_fields::{
    ScriptFault, identifier_text, identifier_with, natural, object_of, optional_list, text, truth,
};
use serde_json::Value;

/// The greatest number of entries of a route.
pub const MOST_REWRITES: usize = 32;

/// Returns an entry of version 2.
///
/// `Kind("rewrite")` where it is not an object; the first fault of `id`, `ext`, `new_id` and `new_ext`; then
/// `Range("id")` and `Range("new_id")`.
#[tactic(auto, unfolding(crate::specs::Rewrites::number_rewrite))]
fn number_rewrite(value: &Value) -> Result<Rewrite, ScriptFault>
    ensures { Reads (λ entry. entry) result (number_rewrite (view value.now)) }
{
    let from = object_of(value, "rewrite")?;
    let old = natural(from, "id")?;
    let old_is_extended = truth(from, "ext")?;
    let new = natural(from, "new_id")?;
    let new_is_extended = truth(from, "new_ext")?;
    let old = match identifier_with(old_is_extended, old, "id") {
        Ok(id) => id,
        Err(fault) => return Err(fault),
    };
    match identifier_with(new_is_extended, new, "new_id") {
        Ok(new) => Ok(Rewrite { from: old, to: new }),
        Err(fault) => Err(fault),
    }
}

/// Returns a field that is an identifier as a text of 3 or 8 hexadecimal digits.
///
/// `Missing(name)`, `Kind(name)` where it is not a text, `Range(name)` for any other text.
#[tactic(auto, unfolding(crate::specs::Rewrites::identifier_in))]
fn identifier_in(from: &Value, name: &'static str) -> Result<Id, ScriptFault>
    ensures { Reads (λ id. id) result (identifier_in name.entry.now (view from.now)) }
{
    let word = text(from, name)?;
    identifier_text(word, name)
}

/// Returns an entry of version 3.
///
/// `Kind("rewrite")` where it is not an object, `Unknown("rewrite")` where it has an unknown field; then the faults of
/// `from`, then those of `to`.
#[tactic(auto, unfolding(crate::specs::Rewrites::text_rewrite))]
fn text_rewrite(value: &Value) -> Result<Rewrite, ScriptFault>
    ensures { Reads (λ entry. entry) result (text_rewrite (view value.now)) }
{
    let from = element_of(Version::Three, "rewrite", &["from", "to"], value)?;
    let old = match identifier_in(from, "from") {
        Ok(id) => id,
        Err(fault) => return Err(fault),
    };
    match identifier_in(from, "to") {
        Ok(to) => Ok(Rewrite { from: old, to }),
        Err(fault) => Err(fault),
    }
}

/// Returns an entry of a script of this version. Entries of version 1 are not read.
fn entry_of(version: Version, value: &Value) -> Result<Rewrite, ScriptFault>
    ensures { Reads (λ entry. entry) result (entry_of version (view value.now)) }
{
    match version {
        Version::One | Version::Two => number_rewrite(value),
        Version::Three => text_rewrite(value),
    }
}

/// Returns the entries of a list of at most 32.
///
/// The fault of the first entry that is refused.
fn each_rewrite(
    items: &[Value],
    version: Version,
) -> Result<ArrayVec<Rewrite, MOST_REWRITES>, ScriptFault>
    requires { length items.now ≤ most_rewrites }
    ensures { Reads (λ entries. entries.items) result (each (entry_of version) (items_view items.now)) }
{
    let mut entries = ArrayVec::new();
    for item in items {
        let entry = match entry_of(version, item) {
            Ok(entry) => entry,
            Err(fault) => return Err(fault),
        };
        entries.push(entry);
    }
    Ok(entries)
}

/// Returns the entries that a route lists, at most 32; none where the field `rewrite` is absent.
///
/// `Kind` or `TooMany` of `rewrite`, then the fault of the first entry that is refused.
#[tactic(auto, unfolding(crate::specs::Rewrites::listed_rewrites))]
fn listed_rewrites(
    from: &Value,
    version: Version,
) -> Result<ArrayVec<Rewrite, MOST_REWRITES>, ScriptFault>
    ensures { Reads (λ entries. entries.items) result (listed_rewrites version (view from.now)) }
{
    let items = optional_list(from, "rewrite", MOST_REWRITES)?;
    each_rewrite(items, version)
}

/// Returns the entries of a route: those that it lists in versions 2 and 3, none in version 1.
///
/// The faults of `listed_rewrites` in versions 2 and 3.
pub fn rewrites_of(
    from: &Value,
    version: Version,
) -> Result<ArrayVec<Rewrite, MOST_REWRITES>, ScriptFault>
    ensures { Reads (λ entries. entries.items) result (rewrites_of version (view from.now)) }
{
    match version {
        Version::One => Ok(ArrayVec::new()),
        Version::Two | Version::Three => listed_rewrites(from, version),
    }
}

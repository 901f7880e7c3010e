//! Fields that an object of its kind may have.

ghost use Rattle.std.specs.Prelude.{◌≡◌, map, string_bytes};
ghost use Rattle.std.specs.BTreeMap.{keys};
ghost use Rattle.std.specs.List.{list_all, list_any};
ghost use Rattle.std.specs.Str.{bytes_eq};
ghost use Rattle.serde_json.specs.View.{view};
ghost use Rattle.gw_fields.specs.Faults.{Reads};
ghost use Rattle.gw_fields.specs.Known.{is_known, known_fields};

use crate::script_fault::ScriptFault;
use serde_json::{Map, Value};

/// Returns whether a name is one of these.
fn is_listed(known: &[&'static str], name: &str) -> bool
    ensures { result ≡ list_any (λ word. bytes_eq name.now word.now) known.now }
{
    known.iter().any(|word| name == *word)
}

/// Returns whether a name is one of these, or `comment`.
#[tactic(auto, using(crate::proofs::KnownNames::any_map))]
fn is_known(known: &[&'static str], name: &str) -> bool
    ensures { result ≡ is_known (map (λ word. word.now) known.now) name.now }
{
    name == "comment" || is_listed(known, name)
}

/// Returns whether each name of an object's fields is one of these, or `comment`.
fn are_known(known: &[&'static str], members: &Map<String, Value>) -> bool
    ensures { result ≡ list_all (λ name. is_known (map (λ word. word.now) known.now) (string_bytes name))
        (keys members.now) }
{
    members.keys().all(|name| is_known(known, name.as_str()))
}

/// Returns `Ok` where each field of an object has one of the names in `known`, or is a `comment`. A value that is no
/// object has no fields.
///
/// `Unknown(object)` where the object has another field.
#[tactic(auto, using(crate::proofs::KnownNames::all_names), unfolding(crate::specs::Known::known_fields))]
pub fn known_fields(
    from: &Value,
    object: &'static str,
    known: &[&'static str],
) -> Result<(), ScriptFault>
    ensures { Reads (λ u. u) result
        (known_fields object.entry.now (map (λ word. word.now) known.now) (view from.now)) }
{
    let Some(members) = from.as_object() else {
        return Ok(());
    };
    if are_known(known, members) {
        Ok(())
    } else {
        Err(ScriptFault::Unknown(object))
    }
}

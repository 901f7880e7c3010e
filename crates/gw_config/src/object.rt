//! Objects of a script.

ghost use Rattle.std.specs.Prelude.{map};
ghost use Rattle.serde_json.specs.View.{view};
ghost use Rattle.gw_fields.specs.Faults.{Reads};
ghost use Rattle.gw_config.specs.Objects.{known, element_of};

use crate::version::Version;
use gw_fields::{ScriptFault, known_fields, object_of};
use serde_json::Value;

/// Returns `Ok` for every object of versions 1 and 2, and for an object of version 3 that has no fields except these
/// and `comment`.
///
/// `Unknown(object)` where an object of version 3 has another field.
pub fn known(
    version: Version,
    object: &'static str,
    fields: &[&'static str],
    from: &Value,
) -> Result<(), ScriptFault>
    ensures { Reads (λ u. u) result
        (known version object.entry.now (map (λ word. word.now) fields.now) (view from.now)) }
{
    match version {
        Version::One | Version::Two => Ok(()),
        Version::Three => known_fields(from, object, fields),
    }
}

/// Returns an element of a list, which must be an object. In version 3 the object has no fields except these and
/// `comment`.
///
/// `Kind(list)` where the element is not an object, `Unknown(list)` where an object of version 3 has another field.
#[tactic(auto, unfolding(crate::specs::Objects::element_of))]
pub fn element_of<'v>(
    version: Version,
    list: &'static str,
    fields: &[&'static str],
    value: &'v Value,
) -> Result<&'v Value, ScriptFault>
    ensures { Reads (λ v. view v.now) result
        (element_of version list.entry.now (map (λ word. word.now) fields.now) (view value.now)) }
{
    let from = object_of(value, list)?;
    known(version, list, fields, from)?;
    Ok(from)
}

//! Names in a script.

ghost use Rattle.std.specs.Prelude.{◌≡◌, ◌<◌, length, map, string_bytes, IfOk, IfSome, MatchResult};
ghost use Rattle.std.specs.List.{list_all, position_from};
ghost use Rattle.std.specs.Str.{bytes_eq};
ghost use Rattle.serde_json.specs.View.{view};
ghost use Rattle.gw_fields.specs.Faults.{Reads};
ghost use Rattle.gw_fields.specs.Names.{is_name_byte, is_name, is_among, formed_name, new_name, place_named};

use crate::fields::text;
use crate::script_fault::ScriptFault;
use serde_json::Value;
use std::alloc::Global;

/// What has a name in a script.
pub trait Named {
    ghost use Rattle.std.specs.Prelude.{List, ℕ};

    ghost name_of: { Self → List ℕ };

    fn name(&self) -> &str
        ensures { result.now ≡ name_of self.now };
}

fn is_name_byte(byte: u8) -> bool
    ensures { result ≡ is_name_byte byte }
{
    byte.is_ascii_alphanumeric() || byte == b'_'
}

fn are_name_bytes(bytes: &[u8]) -> bool
    ensures { result ≡ list_all is_name_byte bytes.now }
{
    bytes.iter().all(|byte| is_name_byte(*byte))
}

/// Whether it is 1 to 32 ASCII letters, digits or `_`.
pub fn is_name(word: &str) -> bool
    ensures { result ≡ is_name word.now }
{
    let length = word.len();
    if length < 1 {
        return false;
    }
    if 32 < length {
        return false;
    }
    are_name_bytes(word.as_bytes())
}

/// The place of the first that has the name.
pub fn place_of<T: Named>(all: &[T], name: &str) -> Option<usize>
    ensures value { result ≡ position_from (bytes_eq name.now) 0 (map T.name_of all.now) }
    ensures range { IfSome result (λ n. n < length all.now) }
{
    for (place, one) in all.iter().enumerate() {
        if name == one.name() {
            return Some(place);
        }
    }
    None
}

/// Whether one of them has the name.
pub fn is_among<T: Named>(all: &[T], name: &str) -> bool
    ensures { result ≡ is_among name.now (map T.name_of all.now) }
{
    place_of(all, name).is_some()
}

/// The place of the one that a field names.
#[tactic(auto, unfolding(crate::specs::Names::place_named))]
pub fn place_named<T: Named>(
    object: &Value,
    name: &'static str,
    all: &[T],
) -> Result<usize, ScriptFault>
    ensures value { Reads (λ n. n) result (place_named name.entry.now (map T.name_of all.now) (view object.now)) }
    ensures range { IfOk result (λ n. n < length all.now) }
{
    let word = text(object, name)?;
    match place_of(all, word) {
        Some(place) => Ok(place),
        None => Err(ScriptFault::UnknownName(name)),
    }
}

/// The field `name`, where it is well formed.
#[tactic(auto, unfolding(crate::specs::Names::formed_name))]
pub fn formed_name<'v>(object: &'v Value) -> Result<&'v str, ScriptFault>
    ensures { Reads (λ t. t.now) result (formed_name (view object.now)) }
{
    let name = text(object, "name")?;
    if is_name(name) {
        Ok(name)
    } else {
        Err(ScriptFault::Range("name"))
    }
}

/// The field `name`, where none in front of the element has it. A double name is reported with its list.
#[tactic(auto, unfolding(crate::specs::Names::new_name))]
pub fn new_name<'v, T: Named>(
    object: &'v Value,
    list: &'static str,
    front: &[T],
) -> Result<&'v str, ScriptFault>
    ensures { Reads (λ t. t.now) result (new_name list.entry.now (map T.name_of front.now) (view object.now)) }
{
    let name = formed_name(object)?;
    if is_among(front, name) {
        Err(ScriptFault::DoubleName(list))
    } else {
        Ok(name)
    }
}

/// The name as a text of its own.
pub fn owned(alloc: Global, name: &str) -> Result<String, ScriptFault>
    ensures { MatchResult result (λ s. string_bytes s ≡ name.now) (λ e. e ≡ ScriptFault.Memory) }
{
    match String::from_str(alloc, name) {
        Ok(name) => Ok(name),
        Err(_) => Err(ScriptFault::Memory),
    }
}

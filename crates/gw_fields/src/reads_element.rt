//! The elements of a list, each read in the light of those in front of it.

ghost use Rattle.std.specs.Prelude.{◌≡◌, [], length, All, IfOk};
ghost use Rattle.serde_json.specs.View.{items_view};
ghost use Rattle.gw_fields.specs.Faults.{ReadsUnlessMemory};
ghost use Rattle.gw_fields.specs.Fields.{each_after};

use crate::script_fault::ScriptFault;
use serde_json::Value;
use std::alloc::Global;

/// What reads the elements of a list: what they are read against, and how.
pub trait ReadsElement {
    ghost use Rattle.std.specs.Prelude.{List, Result, IfOk};
    ghost use Rattle.serde_json.specs.Data.{Data};
    ghost use Rattle.serde_json.specs.View.{view};
    ghost use Rattle.gw_fields.specs.Faults.{Fault, ReadsUnlessMemory};

    /// What an element is read into.
    type Element: Drop;

    // what an element reads as, behind those in front of it
    ghost reading: { Self → List Self.Element → Data → Result Self.Element Fault };

    // what holds of each element that was read
    ghost keeps: { Self → Self.Element → Type 0 };

    /// Reads the element that stands behind these.
    fn read(
        &self,
        alloc: Global,
        value: &Value,
        front: &[Self::Element],
    ) -> Result<Self::Element, ScriptFault>
        ensures value { ReadsUnlessMemory (λ x. x) result (reading self.now front.now (view value.now)) }
        ensures range { IfOk result (keeps self.now) };
}

/// The elements of a list, front to back, up to the first fault.
pub fn read_each<R: ReadsElement>(
    alloc: Global,
    items: &[Value],
    reader: &R,
) -> Result<Vec<R::Element>, ScriptFault>
    ensures value { ReadsUnlessMemory (λ v. v.items) result
        (each_after (R.reading reader.now) [] (items_view items.now)) }
    ensures range { IfOk result (λ v. All (R.keeps reader.now) v.items) }
    ensures count { IfOk result (λ v. length v.items ≡ length items.now) }
{
    let mut elements = Vec::new(alloc);
    for item in items {
        let element = match reader.read(alloc, item, elements.as_slice()) {
            Ok(element) => element,
            Err(fault) => return Err(fault),
        };
        if elements.push(element).is_err() {
            return Err(ScriptFault::Memory);
        }
    }
    Ok(elements)
}

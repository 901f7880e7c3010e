//! Identifiers as texts.

ghost use Rattle.std.specs.Prelude.{◌≡◌};
ghost use Rattle.gw_fields.specs.Faults.{Reads};
ghost use Rattle.gw_fields.specs.IdentifierTexts.{identifier_text};

use crate::digits::number_in;
use crate::frames::identifier_with;
use crate::script_fault::ScriptFault;
use can_frame::Id;

/// Returns the identifier that a text of hexadecimal digits of either case writes: a standard one, 0 to 7FF, in exactly
/// three digits, or an extended one, 0 to 1FFFFFFF, in exactly eight.
///
/// `Range(name)` for any other text.
#[tactic(auto, unfolding(crate::specs::IdentifierTexts::identifier_text))]
pub fn identifier_text(text: &str, name: &'static str) -> Result<Id, ScriptFault>
    ensures { Reads (λ id. id) result (identifier_text name.entry.now text.now) }
{
    let digits = text.as_bytes();
    let is_extended = digits.len() == 8;
    if !is_extended && digits.len() != 3 {
        return Err(ScriptFault::Range(name));
    }
    match number_in(16, digits) {
        Some(number) => identifier_with(is_extended, number, name),
        None => Err(ScriptFault::Range(name)),
    }
}

//! The identifiers that a filter accepts.

ghost use Rattle.std.specs.Prelude.{◌≡◌, ◌≤◌, IfOk};
ghost use Rattle.gw_fields.specs.Faults.{Reads};
ghost use Rattle.gw_fields.specs.IdentifierTexts.{accept_text, all_bits, masked};

use crate::identifier_texts::identifier_text;
use crate::script_fault::ScriptFault;
use can_frame::Id;

/// The identifiers that a filter accepts: those of the same format that equal `id` in each bit that is set in `mask`.
#[derive(Clone, Copy, Debug, PartialEq, Eq)]
pub struct Accept {
    /// An identifier that is accepted.
    pub id: Id,
    /// The bits of the identifier that must match: 0 to 0x7FF for a standard identifier, 0 to 0x1FFF_FFFF for an
    /// extended one.
    pub mask: u32,
}

/// Returns the mask in which all bits of an identifier of this format are set.
fn all_bits(id: Id) -> u32
    ensures { result ≡ all_bits id }
{
    if id.is_extended() { 0x1FFF_FFFF } else { 0x7FF }
}

/// Returns an identifier with a mask, which is written as an identifier of the same format.
///
/// `Range("accept")` where the formats differ.
fn masked(id: Id, mask: Id) -> Result<Accept, ScriptFault>
    ensures value { Reads (λ accept. accept) result (masked id mask) }
    ensures range { IfOk result (λ accept. accept.mask ≤ all_bits accept.id) }
{
    mask.facts();
    if id.is_extended() != mask.is_extended() {
        return Err(ScriptFault::Range("accept"));
    }
    Ok(Accept {
        id,
        mask: mask.number(),
    })
}

/// Returns the identifiers that a text accepts: one identifier, all bits of which must match; or an identifier, a colon
/// and a mask, which is written as an identifier of the same format. An identifier is 3 or 8 hexadecimal digits of
/// either case, to 7FF or 1FFFFFFF.
///
/// `Range("accept")` for any other text.
#[tactic(auto, unfolding(crate::specs::IdentifierTexts::accept_text), using(crate::proofs::Numerals::no_parts))]
pub fn accept_text(text: &str) -> Result<Accept, ScriptFault>
    ensures value { Reads (λ accept. accept) result (accept_text text.now) }
    ensures range { IfOk result (λ accept. accept.mask ≤ all_bits accept.id) }
{
    match text.split_once(':') {
        Some((id, mask)) => {
            let id = match identifier_text(id, "accept") {
                Ok(id) => id,
                Err(fault) => return Err(fault),
            };
            match identifier_text(mask, "accept") {
                Ok(mask) => masked(id, mask),
                Err(fault) => Err(fault),
            }
        }
        None => match identifier_text(text, "accept") {
            Ok(id) => Ok(Accept {
                id,
                mask: all_bits(id),
            }),
            Err(fault) => Err(fault),
        },
    }
}

//! The JSON value of an input.

ghost use Rattle.std.specs.Prelude.{IfOk, IfErr};
ghost use Rattle.serde_json.specs.View.{view};
ghost use Rattle.gw_fields.specs.Faults.{UnlessMemory};
ghost use Rattle.gw_fields.specs.Documents.{IsDocument, IsNoDocument};

use crate::script_fault::ScriptFault;
use serde_json::Value;
use std::alloc::Global;

/// The greatest length of an input, in bytes.
pub const LIMIT: usize = 16_777_216;

/// Reads an input as one JSON text (RFC 8259) by `serde_json`, and returns its value, which is nested at most 127 deep.
///
/// `TooMany("input")` where the input is longer than `LIMIT`, before the text is looked at; `NotJson` where the bytes
/// are not UTF-8 or no JSON text, which includes nesting deeper than 127 and a number beyond the range of 64-bit
/// floating-point numbers; `Memory` where an allocation failed.
pub fn read_document(alloc: Global, bytes: &[u8]) -> Result<Value, ScriptFault>
    ensures ok { IfOk result (λ v. IsDocument bytes.now (view v)) }
    ensures err { IfErr result (λ e. UnlessMemory e (IsNoDocument bytes.now)) }
{
    if bytes.len() > LIMIT {
        return Err(ScriptFault::TooMany("input"));
    }
    match Value::from_slice(alloc, bytes) {
        Ok(value) => Ok(value),
        Err(error) => {
            if error.is_memory() {
                Err(ScriptFault::Memory)
            } else {
                Err(ScriptFault::NotJson)
            }
        }
    }
}

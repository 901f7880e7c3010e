//! The whole input, up to a bound.

ghost use Rattle.std.specs.Prelude.{◌≡◌, ◌≤◌, ◌<◌, length, IfOk, IfSome, IfErr, vec_len};
ghost use Rattle.gw_fields.specs.Documents.{greatest_length};

use gw_fields::LIMIT;
use std::alloc::Global;
use std::io::{ErrorKind, Read};

/// Why the input was not read to its end.
#[derive(Clone, Copy, Debug, PartialEq, Eq)]
pub enum InputFault {
    /// There are more bytes than `LIMIT`.
    TooLong,
    /// Memory ran out.
    Memory,
    /// A read failed, or `READS` of them brought no end.
    Read,
}

/// A reader that gives nothing but interruptions is given up after so many calls.
const READS: u32 = 33_554_432;

/// All bytes that the reader has left, at most `LIMIT`. Where there are more the fault is `TooLong`.
pub fn read_input<R: Read>(alloc: Global, input: &mut R) -> Result<Vec<u8>, InputFault>
    ensures whole { IfOk result (λ bytes. IfSome (R.remaining input.old) (λ xs. bytes.items ≡ xs)) }
    ensures short { IfOk result (λ bytes. vec_len bytes ≤ greatest_length) }
    ensures long { IfErr result (λ e. e ≡ InputFault.TooLong
        → IfSome (R.remaining input.old) (λ xs. greatest_length < length xs)) }
{
    let mut bytes = Vec::new(alloc);
    let mut buffer = [0u8; 4096];
    for _ in 0..READS {
        match input.read(&mut buffer) {
            Ok(count) => {
                if count == 0 {
                    return Ok(bytes);
                }
                if LIMIT - bytes.len() < count {
                    return Err(InputFault::TooLong);
                }
                if bytes.extend_from_slice(&buffer[..count]).is_err() {
                    return Err(InputFault::Memory);
                }
            }
            Err(error) => {
                if error.kind() != ErrorKind::Interrupted {
                    return Err(InputFault::Read);
                }
            }
        }
    }
    Err(InputFault::Read)
}

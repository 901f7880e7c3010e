//! The whole output.

ghost use Rattle.std.specs.Prelude.{ℕ, OnOk, OnErr, take};
ghost use Rattle.std.specs.Io.KnownBytes.{Appends};

use std::io::{ErrorKind, Write};

/// A write failed or took nothing, or `WRITES` of them did not take all.
#[derive(Clone, Copy, Debug, PartialEq, Eq)]
pub struct WriteFault;

/// A writer that gives nothing but interruptions is given up after so many calls.
const WRITES: u32 = 33_554_432;

/// Writes a whole text. Where that fails a front of it was written, and nothing else.
pub fn write_output<W: Write>(output: &mut W, text: &[u8]) -> Result<(), WriteFault>
    ensures whole { OnOk result (Appends (W.contents output.old) (W.contents output.new) text.now) }
    ensures front { OnErr result ((n : ℕ) × Appends (W.contents output.old) (W.contents output.new) (take n text.now)) }
{
    let mut written = 0;
    for _ in 0..WRITES {
        if written == text.len() {
            return Ok(());
        }
        match output.write(&text[written..]) {
            Ok(0) => return Err(WriteFault),
            Ok(count) => written += count,
            Err(error) => {
                if error.kind() != ErrorKind::Interrupted {
                    return Err(WriteFault);
                }
            }
        }
    }
    if written == text.len() {
        Ok(())
    } else {
        Err(WriteFault)
    }
}

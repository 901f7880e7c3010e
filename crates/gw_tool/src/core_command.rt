//! The command `core`.

ghost use Rattle.std.specs.Prelude.{Some, IfOk, IfErr};
ghost use Rattle.gw_tool.specs.Outcomes.{Ends, IsAnswer, IsFailureOn};
ghost use Rattle.gw_command.specs.declared.task.Task.TheVariants.{Core};

use crate::failure::Failure;
use gw_print::report_on_events;
use gw_run::RunFault;
use gw_script::read_core;
use gw_streams::{WriteFault, write_output};
use std::alloc::Global;
use std::io::Write;

/// The report on the bytes of an event list.
fn core_text(alloc: Global, bytes: &[u8]) -> Result<Vec<u8>, Failure>
    ensures ok { IfOk result (λ text. IsAnswer Core bytes.now text.items) }
    ensures err { IfErr result (IsFailureOn Core bytes.now) }
{
    let list = match read_core(alloc, bytes) {
        Ok(list) => list,
        Err(fault) => return Err(Failure::Script(fault)),
    };
    match report_on_events(alloc, &list) {
        Ok(text) => Ok(text.into_bytes()),
        Err(_) => Err(Failure::Run(RunFault::Memory)),
    }
}

/// Writes the report on the bytes of an event list.
pub fn core_to<W: Write>(alloc: Global, bytes: &[u8], output: &mut W) -> Result<(), Failure>
    ensures { Ends Core (Some bytes.now) (W.contents output.old) (W.contents output.new) result }
{
    let text = match core_text(alloc, bytes) {
        Ok(text) => text,
        Err(failure) => return Err(failure),
    };
    match write_output(output, text.as_slice()) {
        Ok(()) => Ok(()),
        Err(WriteFault) => Err(Failure::Write),
    }
}

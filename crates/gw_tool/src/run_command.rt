//! The command `run`.

ghost use Rattle.std.specs.Prelude.{Some};
ghost use Rattle.gw_tool.specs.Outcomes.{Ends};
ghost use Rattle.gw_command.specs.Words.{IsTurn};
ghost use Rattle.gw_command.specs.declared.task.Task.TheVariants.{Run};

use crate::failure::Failure;
use crate::run_report::report_to;
use gw_run::run_inline;
use gw_script::read;
use std::alloc::Global;
use std::io::Write;
use std::sync::Wait;

/// Writes the report on a run of the script that the bytes are, with a turn of each route after every so many bits.
pub fn run_to<H: Wait, W: Write>(
    rt: &H,
    alloc: Global,
    bytes: &[u8],
    turn: u32,
    output: &mut W,
) -> Result<(), Failure>
    requires { IsTurn turn }
    ensures { Ends (Run turn) (Some bytes.now) (W.contents output.old) (W.contents output.new) result }
{
    let script = match read(alloc, bytes) {
        Ok(script) => script,
        Err(fault) => return Err(Failure::Script(fault)),
    };
    let report = match run_inline(rt, alloc, &script, turn) {
        Ok(report) => report,
        Err(fault) => return Err(Failure::Run(fault)),
    };
    report_to(alloc, &script, &report, output)
}

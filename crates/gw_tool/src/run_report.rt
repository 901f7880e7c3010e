//! The report on a run, in one thread or in many, as it is written.

ghost use Rattle.std.specs.Prelude.{List, ℕ, Some};
ghost use Rattle.gw_command.specs.declared.task.Task.{Task};
ghost use Rattle.gw_script.specs.NamedPlaces.{Names};
ghost use Rattle.gw_script.specs.ReportTexts.{report_text};
ghost use Rattle.gw_tool.specs.Outcomes.{Ends, IsAnswer};

use crate::failure::Failure;
use gw_run::RunFault;
use gw_script::{PrintFault, Report, Script, print_to};
use std::alloc::Global;
use std::io::Write;

/// Writes a report on a run of this script. Its text is written while it is made, once all memory is there that it
/// takes.
pub fn report_to<W: Write>(
    alloc: Global,
    script: &Script,
    report: &Report,
    output: &mut W,
) -> Result<(), Failure>
    requires { Names script.now report.now }
    ensures { (task : Task) (bytes : List ℕ) → IsAnswer task bytes (report_text script.now report.now)
        → Ends task (Some bytes) (W.contents output.old) (W.contents output.new) result }
{
    match print_to(alloc, script, report, output) {
        Ok(()) => Ok(()),
        Err(PrintFault::Memory) => Err(Failure::Run(RunFault::Memory)),
        Err(PrintFault::Write) => Err(Failure::Write),
    }
}

//! The command `run` with the option `--threads`.

ghost use Rattle.std.specs.Prelude.{◌≡◌, Some, IfOk, length};
ghost use Rattle.gw_config.specs.SoundScripts.{IsSound};
ghost use Rattle.gw_tool.specs.Outcomes.{Ends, IsRunOf};
ghost use Rattle.gw_command.specs.Words.{IsSlack, IsThreads};
ghost use Rattle.gw_command.specs.declared.task.Task.TheVariants.{RunThreads};

use crate::failure::Failure;
use crate::run_report::report_to;
use bx_core::NoGate;
use gw_run::{RunFault, run_threads};
use gw_script::{Report, Script, read};
use std::alloc::{AllocError, Global};
use std::io::Write;
use std::sync::Wait;
use std::thread::Threads;

/// A gate for each route, which lets everything pass.
fn gates_of(alloc: Global, script: &Script) -> Result<Vec<NoGate>, AllocError>
    ensures { IfOk result (λ gates. length gates.items ≡ length script.now.routes) }
{
    vec![in alloc; NoGate; script.routes().len()]
}

/// The report on a run of a script in threads.
fn threaded_report<H: Threads + Wait + Copy + Send + Sync + 'static>(
    rt: &H,
    alloc: Global,
    script: &Script,
    threads: u32,
    slack: u32,
) -> Result<Report, RunFault>
    requires sound { IsSound script.now }
    requires threads { IsThreads threads }
    requires slack { IsSlack slack }
    ensures { IfOk result (IsRunOf script.now) }
{
    match gates_of(alloc, script) {
        Ok(gates) => run_threads(*rt, alloc, script, threads, slack, gates),
        Err(_) => Err(RunFault::Memory),
    }
}

/// Writes the report on a run in threads of the script that the bytes are: the routes by so many threads, and no
/// segment more than so many bits ahead of another.
pub fn threads_to<H: Threads + Wait + Copy + Send + Sync + 'static, W: Write>(
    rt: &H,
    alloc: Global,
    bytes: &[u8],
    threads: u32,
    slack: u32,
    output: &mut W,
) -> Result<(), Failure>
    requires threads { IsThreads threads }
    requires slack { IsSlack slack }
    ensures { Ends (RunThreads threads slack) (Some bytes.now) (W.contents output.old) (W.contents output.new) result }
{
    let script = match read(alloc, bytes) {
        Ok(script) => script,
        Err(fault) => return Err(Failure::Script(fault)),
    };
    let report = match threaded_report(rt, alloc, &script, threads, slack) {
        Ok(report) => report,
        Err(fault) => return Err(Failure::Run(fault)),
    };
    report_to(alloc, &script, &report, output)
}

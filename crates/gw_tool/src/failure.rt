//! Why a run of the program ends without its report.

ghost use Rattle.std.specs.Prelude.{◌≡◌};
ghost use Rattle.gw_tool.specs.Outcomes.{status_of};

use gw_run::RunFault;
use gw_script::ScriptFault;
use thiserror::Error;

/// Why a run ends without its report; its text is the line on standard error, after `bxgate: `.
#[derive(Clone, Copy, Debug, PartialEq, Eq, Error)]
pub enum Failure {
    /// The input is refused, or memory ran out while it was read.
    #[error("{0}")]
    Script(ScriptFault),
    /// Memory ran out elsewhere, or a thread could not be started.
    #[error("{0}")]
    Run(RunFault),
    /// A read failed, or too many of them brought no end.
    #[error("read fault")]
    Read,
    /// A write failed.
    #[error("write fault")]
    Write,
}

impl Failure {
    /// The status that the program ends with: 2 for an input that is refused, 3 for want of memory or of a
    /// thread, 74 for a read or a write fault.
    pub fn status(self) -> u8
        ensures { result ≡ status_of self }
    {
        match self {
            Failure::Script(ScriptFault::Memory) | Failure::Run(_) => 3,
            Failure::Script(_) => 2,
            Failure::Read | Failure::Write => 74,
        }
    }
}

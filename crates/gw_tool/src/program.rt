//! The program over any reader and writers.

ghost use Rattle.std.specs.Prelude.{◌≡◌, ◌≢◌, ◌⊎◌, ◌∷◌, [], List, ℕ, Some, codes, map};
ghost use Rattle.std.specs.Fmt.{decimal};
ghost use Rattle.std.specs.Io.KnownBytes.{Keeps};
ghost use Rattle.std.specs.IoError.{error_kind};
ghost use Rattle.std.specs.declared.io.ErrorKind.TheVariants.{OutOfMemory};
ghost use Rattle.clap.specs.Words.{kind_of};
ghost use Rattle.gw_tool.specs.Outcomes.{Ends, EndsWith, input_of};
ghost use Rattle.gw_command.specs.Words.{IsTurn, IsThreads, HasRanges, IsFileName, asked_of};

use crate::core_command::core_to;
use crate::failure::Failure;
use crate::run_command::run_to;
use crate::threads_command::threads_to;
use clap::error::ErrorKind;
use gw_command::{Order, Task, task_of};
use gw_run::RunFault;
use gw_script::ScriptFault;
use gw_streams::{Files, InputFault, NoFiles, read_input};
use std::alloc::Global;
use std::convert::AsStr;
use std::io;
use std::io::{Read, Write};
use std::sync::Wait;
use std::thread::Threads;

/// Writes the answer to the bytes of the input.
fn answer_to<H: Threads + Wait + Copy + Send + Sync + 'static, W: Write>(
    rt: &H,
    alloc: Global,
    task: Task,
    bytes: &[u8],
    output: &mut W,
) -> Result<(), Failure>
    requires { HasRanges task }
    ensures { Ends task (Some bytes.now) (W.contents output.old) (W.contents output.new) result }
{
    match task {
        Task::Core => core_to(alloc, bytes, output),
        Task::Run { turn } => run_to(rt, alloc, bytes, turn, output),
        Task::RunThreads { threads, slack } => threads_to(rt, alloc, bytes, threads, slack, output),
    }
}

/// Reads all there is, and writes the answer to it and nothing else.
fn carry_out<H: Threads + Wait + Copy + Send + Sync + 'static, R: Read, W: Write>(
    rt: &H,
    alloc: Global,
    task: Task,
    input: &mut R,
    output: &mut W,
) -> Result<(), Failure>
    requires { HasRanges task }
    ensures { Ends task (R.remaining input.old) (W.contents output.old) (W.contents output.new) result }
{
    let bytes = match read_input(alloc, input) {
        Ok(bytes) => bytes,
        Err(InputFault::TooLong) => return Err(Failure::Script(ScriptFault::TooMany("input"))),
        Err(InputFault::Memory) => return Err(Failure::Run(RunFault::Memory)),
        Err(InputFault::Read) => return Err(Failure::Read),
    };
    answer_to(rt, alloc, task, bytes.as_slice(), output)
}

/// Does the same with the input that is asked for. A file that can't be opened is a read fault.
fn fulfil<H: Threads + Wait + Copy + Send + Sync + 'static, F: Files, R: Read, W: Write>(
    rt: &H,
    alloc: Global,
    order: Order<'_>,
    files: &F,
    input: &mut R,
    output: &mut W,
) -> Result<(), Failure>
    requires { HasRanges order.task }
    ensures { Ends order.entry.task (input_of (F.contents files.now) (R.remaining input.old) (asked_of order.entry).1)
        (W.contents output.old) (W.contents output.new) result }
{
    let Some(path) = order.file else {
        return carry_out(rt, alloc, order.task, input, output);
    };
    match files.open(path) {
        Ok(mut file) => carry_out(rt, alloc, order.task, &mut file, output),
        Err(_) => Err(Failure::Read),
    }
}

/// Does what was asked for, and answers the status that the program then ends with.
fn status_after<
    H: Threads + Wait + Copy + Send + Sync + 'static,
    F: Files,
    R: Read,
    W: Write,
    E: Write,
>(
    rt: &H,
    alloc: Global,
    order: Order<'_>,
    files: &F,
    input: &mut R,
    output: &mut W,
    faults: &mut E,
) -> u8
    requires { HasRanges order.task }
    ensures { EndsWith order.entry.task (input_of (F.contents files.now) (R.remaining input.old)
        (asked_of order.entry).1)
        (W.contents output.old) (W.contents output.new) result }
{
    match fulfil(rt, alloc, order, files, input, output) {
        Ok(()) => 0,
        Err(failure) => {
            tell(faults, failure);
            failure.status()
        }
    }
}

/// Runs the program on its words, the program's name first, and answers the status that it ends with:
/// 0 done, 2 the input is refused, 3 memory ran out or a thread could not be started, 64 the words ask for
/// nothing, 74 a read or a write fault. What went wrong is reported on `faults`, and then nothing is written to
/// `output`, but that a write fault may come in the middle. The text of help, version and usage is clap's.
/// There are no files here, so a word that names one is a read fault; see `tool_with_files`.
pub fn tool<
    H: Threads + Wait + Copy + Send + Sync + 'static,
    S: AsStr,
    R: Read,
    W: Write,
    E: Write,
>(rt: &H, alloc: Global, words: &[S], input: &mut R, output: &mut W, faults: &mut E) -> u8
    ensures core { (name : List ℕ) → map S.text words.now ≡ name ∷ codes "core" ∷ []
        → EndsWith Task.Core (R.remaining input.old) (W.contents output.old) (W.contents output.new) result }
    ensures run { (name : List ℕ) → map S.text words.now ≡ name ∷ codes "run" ∷ []
        → EndsWith (Task.Run 1) (R.remaining input.old) (W.contents output.old) (W.contents output.new) result }
    ensures turns { (name : List ℕ) (n : ℕ) → IsTurn n
        → map S.text words.now ≡ name ∷ codes "run" ∷ codes "--turn" ∷ decimal n ∷ []
        → EndsWith (Task.Run n) (R.remaining input.old) (W.contents output.old) (W.contents output.new) result }
    ensures threads { (name : List ℕ) (n : ℕ) → IsThreads n
        → map S.text words.now ≡ name ∷ codes "run" ∷ codes "--threads" ∷ decimal n ∷ []
        → EndsWith (Task.RunThreads n 64) (R.remaining input.old) (W.contents output.old) (W.contents output.new)
        result }
    ensures nothing { (name : List ℕ) → map S.text words.now ≡ name ∷ []
        → ((result ≡ 64) ⊎ (result ≡ 3)) × Keeps (W.contents output.old) (W.contents output.new) }
    ensures usage { result ≡ 64 → Keeps (W.contents output.old) (W.contents output.new) }
    ensures core_hyphen { (name : List ℕ) → map S.text words.now ≡ name ∷ codes "core" ∷ codes "-" ∷ []
        → EndsWith Task.Core (R.remaining input.old) (W.contents output.old) (W.contents output.new) result }
    ensures run_hyphen { (name : List ℕ) → map S.text words.now ≡ name ∷ codes "run" ∷ codes "-" ∷ []
        → EndsWith (Task.Run 1) (R.remaining input.old) (W.contents output.old) (W.contents output.new) result }
{
    tool_with_files(rt, alloc, words, &NoFiles, input, output, faults)
}

/// Runs the program as `tool` does, but that it reads the FILE of the words `core FILE` and `run FILE`, with or
/// without options, in place of `input`. A FILE that can't be opened or read is a read fault; the FILE `-` is `input`.
pub fn tool_with_files<
    H: Threads + Wait + Copy + Send + Sync + 'static,
    S: AsStr,
    F: Files,
    R: Read,
    W: Write,
    E: Write,
>(
    rt: &H,
    alloc: Global,
    words: &[S],
    files: &F,
    input: &mut R,
    output: &mut W,
    faults: &mut E,
) -> u8
    ensures core { (name : List ℕ) → map S.text words.now ≡ name ∷ codes "core" ∷ []
        → EndsWith Task.Core (R.remaining input.old) (W.contents output.old) (W.contents output.new) result }
    ensures run { (name : List ℕ) → map S.text words.now ≡ name ∷ codes "run" ∷ []
        → EndsWith (Task.Run 1) (R.remaining input.old) (W.contents output.old) (W.contents output.new) result }
    ensures turns { (name : List ℕ) (n : ℕ) → IsTurn n
        → map S.text words.now ≡ name ∷ codes "run" ∷ codes "--turn" ∷ decimal n ∷ []
        → EndsWith (Task.Run n) (R.remaining input.old) (W.contents output.old) (W.contents output.new) result }
    ensures threads { (name : List ℕ) (n : ℕ) → IsThreads n
        → map S.text words.now ≡ name ∷ codes "run" ∷ codes "--threads" ∷ decimal n ∷ []
        → EndsWith (Task.RunThreads n 64) (R.remaining input.old) (W.contents output.old) (W.contents output.new)
        result }
    ensures nothing { (name : List ℕ) → map S.text words.now ≡ name ∷ []
        → ((result ≡ 64) ⊎ (result ≡ 3)) × Keeps (W.contents output.old) (W.contents output.new) }
    ensures usage { result ≡ 64 → Keeps (W.contents output.old) (W.contents output.new) }
    ensures core_hyphen { (name : List ℕ) → map S.text words.now ≡ name ∷ codes "core" ∷ codes "-" ∷ []
        → EndsWith Task.Core (R.remaining input.old) (W.contents output.old) (W.contents output.new) result }
    ensures run_hyphen { (name : List ℕ) → map S.text words.now ≡ name ∷ codes "run" ∷ codes "-" ∷ []
        → EndsWith (Task.Run 1) (R.remaining input.old) (W.contents output.old) (W.contents output.new) result }
    ensures core_file { (name file : List ℕ) → IsFileName file → map S.text words.now ≡ name ∷ codes "core" ∷ file ∷ []
        → EndsWith Task.Core (F.contents files.now file) (W.contents output.old) (W.contents output.new) result }
    ensures run_file { (name file : List ℕ) → IsFileName file → map S.text words.now ≡ name ∷ codes "run" ∷ file ∷ []
        → EndsWith (Task.Run 1) (F.contents files.now file) (W.contents output.old) (W.contents output.new) result }
{
    match task_of(alloc, words) {
        Ok(Some(order)) => status_after(rt, alloc, order, files, input, output, faults),
        Ok(None) => usage(faults),
        Err(error) => refused_words(&error, output, faults),
    }
}

/// Tells why a run ends without its report. A fault in telling it changes nothing.
pub fn tell<E: Write>(faults: &mut E, failure: Failure) {
    let _ = writeln!(faults, "bxgate: {failure}");
}

/// Tells that the words ask for nothing.
fn usage<E: Write>(faults: &mut E) -> u8
    ensures { result ≡ 64 }
{
    let _ = writeln!(faults, "bxgate: no command was given; try 'bxgate --help'");
    64
}

/// Tells why the words could not be gathered: for want of memory, or since one of them is no text.
pub fn refused_arguments<E: Write>(error: &io::Error, faults: &mut E) -> u8
    ensures memory { error_kind error.now ≡ OutOfMemory → result ≡ 3 }
    ensures text { error_kind error.now ≢ OutOfMemory → result ≡ 64 }
{
    if error.kind() == io::ErrorKind::OutOfMemory {
        tell(faults, Failure::Run(RunFault::Memory));
        return 3;
    }
    let _ = writeln!(faults, "bxgate: an argument is not UTF-8");
    64
}

/// Tells of words that were refused, or gives the help or the version that they ask for.
fn refused_words<W: Write, E: Write>(error: &clap::Error, output: &mut W, faults: &mut E) -> u8
    ensures memory { kind_of error.now ≡ ErrorKind.OutOfMemory
        → (result ≡ 3) × Keeps (W.contents output.old) (W.contents output.new) }
    ensures refused { kind_of error.now ≢ ErrorKind.OutOfMemory → kind_of error.now ≢ ErrorKind.DisplayHelp
        → kind_of error.now ≢ ErrorKind.DisplayVersion → (result ≡ 64)
        × Keeps (W.contents output.old) (W.contents output.new) }
    ensures help { kind_of error.now ≡ ErrorKind.DisplayHelp → result ≡ 0 }
    ensures version { kind_of error.now ≡ ErrorKind.DisplayVersion → result ≡ 0 }
    ensures usage { result ≡ 64 → Keeps (W.contents output.old) (W.contents output.new) }
{
    match error.kind() {
        ErrorKind::OutOfMemory => {
            tell(faults, Failure::Run(RunFault::Memory));
            3
        }
        ErrorKind::DisplayHelp | ErrorKind::DisplayVersion => {
            let _ = write!(output, "{error}");
            0
        }
        _ => {
            let _ = write!(faults, "{error}");
            64
        }
    }
}

//! A run of the program on words and an input.

use gw_tool::tool;
use std::alloc::AllocError;
use std::io::Read;
use std::sync::Wait;
use std::thread::Threads;

/// What a run of the program did.
#[derive(Drop)]
pub(crate) struct Run {
    pub(crate) status: u8,
    pub(crate) output: Vec<u8>,
    pub(crate) faults: Vec<u8>,
}

/// Runs `tool` on these words and what this reader gives.
pub(crate) fn run_on<H: Threads + Wait + AllocGlobal + Copy + Send + Sync + 'static, R: Read>(
    rt: &H,
    words: &[&str],
    input: &mut R,
) -> Run {
    let alloc = rt.alloc();
    let mut output = Vec::new(alloc);
    let mut faults = Vec::new(alloc);
    let status = tool(rt, alloc, words, input, &mut output, &mut faults);
    Run {
        status,
        output,
        faults,
    }
}

/// Runs `tool` on these words and this input.
pub(crate) fn run_of<H: Threads + Wait + AllocGlobal + Copy + Send + Sync + 'static>(
    rt: &H,
    words: &[&str],
    mut input: &[u8],
) -> Run {
    run_on(rt, words, &mut input)
}

/// Whether a command refuses this input for this fault, and writes nothing.
pub(crate) fn is_refused<H: Threads + Wait + AllocGlobal + Copy + Send + Sync + 'static>(
    rt: &H,
    command: &str,
    input: &[u8],
    fault: &str,
) -> Result<bool, AllocError> {
    let line = format!(in rt.alloc(); "bxgate: {fault}\n")?;
    let run = run_of(rt, ["bxgate", command].as_slice(), input);
    Ok(
        run.status == 2
            && run.output.is_empty()
            && run.faults.as_slice() == line.as_str().as_bytes(),
    )
}

//! Which numbers of a route count as aborted at the end of a run.

ghost use Rattle.std.specs.Prelude.{◌≡◌, ◌++◌, ◌==◌, IfOk, OnOk};
ghost use Rattle.std.specs.List.{list_any};
ghost use Rattle.bx_core.specs.declared.entry.Entry.{Entry};
ghost use Rattle.bx_core.specs.States.{numbers};
ghost use Rattle.gw_ending.specs.Headline.{is_among};
ghost use Rattle.gw_ending.specs.Links.{settle, settled};

use bx_core::Entry;
use std::alloc::{AllocError, Global};

fn is_among(numbers: &[u32], number: u32) -> bool
    ensures { result ≡ is_among numbers.now number }
{
    numbers.iter().any(|other| *other == number)
}

fn is_completed(completed: &[Entry], number: u32) -> bool
    ensures { result ≡ list_any (λ (entry : Entry). entry.number == number) completed.now }
{
    completed.iter().any(|entry| entry.number == number)
}

/// Whether the request of this number was sent, or waits in a mailbox.
fn has_ended(completed: &[Entry], waiting: &[u32], number: u32) -> bool
    ensures { result ≡ is_among (numbers completed.now ++ waiting.now) number }
{
    if is_completed(completed, number) {
        return true;
    }
    is_among(waiting, number)
}

/// A number of the log more.
fn settle(
    kept: &mut Vec<u32>,
    completed: &[Entry],
    waiting: &[u32],
    number: u32,
) -> Result<(), AllocError>
    ensures { OnOk result (kept.new.items ≡ settle (numbers completed.now ++ waiting.now) kept.old.items number) }
{
    if has_ended(completed, waiting, number) {
        return Ok(());
    }
    if is_among(kept.as_slice(), number) {
        return Ok(());
    }
    kept.push(number)?;
    Ok(())
}

/// Those numbers of a log of aborts whose request was neither sent nor waits in a mailbox, each once, in the order of
/// the log.
pub(crate) fn settled(
    alloc: Global,
    logged: &[u32],
    completed: &[Entry],
    waiting: &[u32],
) -> Result<Vec<u32>, AllocError>
    ensures { IfOk result (λ kept. kept.items ≡ settled (numbers completed.now ++ waiting.now) logged.now) }
{
    let mut kept = Vec::new(alloc);
    for number in logged {
        settle(&mut kept, completed, waiting, *number)?;
    }
    Ok(kept)
}

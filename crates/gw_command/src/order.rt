//! What the words of the command line ask for.

use crate::task::Task;

/// What the words ask for: a task, and the input that it reads.
#[derive(Clone, Copy, Debug, PartialEq, Eq)]
pub struct Order<'a> {
    /// What is to be done.
    pub task: Task,
    /// The file to read, or `None` for standard input.
    pub file: Option<&'a str>,
}

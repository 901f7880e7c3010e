//! What the program is asked to do.

/// What the program is asked to do.
#[derive(Clone, Copy, Debug, PartialEq, Eq)]
pub enum Task {
    /// To read a list of mailbox events, and to report on it.
    Core,
    /// To read a script, to run it with a turn of each route after every so many bits, 1 to 1,000,000, and to
    /// report on the run.
    Run { turn: u32 },
    /// To read a script, to run it in threads and to report on the run: the routes by so many threads, 1 to 16, and
    /// each segment in a thread of its own, at most so many bits, 1 to 1,000,000, ahead of another.
    RunThreads { threads: u32, slack: u32 },
}

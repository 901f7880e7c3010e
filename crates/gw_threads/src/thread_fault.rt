//! Why a run in threads gave no result.

/// Why a run in threads gave no result.
#[derive(Clone, Copy, Debug, PartialEq, Eq)]
pub enum ThreadFault {
    /// An allocation failed.
    Memory,
    /// A thread could not be started.
    Spawn,
}

//! Why a report was not written whole.

/// Why a report was not written whole.
#[derive(Clone, Copy, Debug, PartialEq, Eq)]
pub enum PrintFault {
    /// A request for memory was refused; nothing was written.
    Memory,
    /// A write failed; a front of the report was written, and nothing else.
    Write,
}

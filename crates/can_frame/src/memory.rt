//! The refusal for want of memory.
use std::alloc::AllocError;
use thiserror::Error;

/// Memory was wanted and refused. Nothing was made.
#[derive(Clone, Copy, Debug, PartialEq, Eq, Error)]
#[error("memory was refused")]
pub struct Memory;

impl From<AllocError> for Memory {
    fn from(_: AllocError) -> Memory {
        Memory
    }
}

//! The fault of running out of memory.

use std::alloc::{AllocError, AllocFailed};
use thiserror::Error;

/// A call ran out of memory: a block was refused, or a count of shared parts was full.
#[derive(Clone, Copy, Debug, PartialEq, Eq, Error)]
#[error("no memory")]
pub struct Memory;

impl From<AllocError> for Memory {
    fn from(_refused: AllocError) -> Memory {
        Memory
    }
}

impl<T: Drop> From<AllocFailed<T>> for Memory {
    fn from(_refused: AllocFailed<T>) -> Memory {
        Memory
    }
}

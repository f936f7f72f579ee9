//! What goes wrong in a call: a fault of a function of the caller, and want of memory.

use std::alloc::{AllocError, AllocFailed};
use thiserror::Error;

/// What a function of the caller answers in place of a value.
#[derive(Clone, Copy, Debug, PartialEq, Eq, Error)]
pub enum Fault {
    /// The function has no value for its arguments. The number is at most 4,294,967,294.
    #[error("fault {0}")]
    Code(u32),
    /// A growth was refused.
    #[error("out of memory")]
    Memory,
}

/// A growth was refused.
#[derive(Clone, Copy, Debug, PartialEq, Eq, Error)]
#[error("out of memory")]
pub struct NoMemory;

impl From<AllocError> for NoMemory {
    fn from(_e: AllocError) -> NoMemory {
        NoMemory
    }
}

impl<T: Drop> From<AllocFailed<T>> for NoMemory {
    fn from(_e: AllocFailed<T>) -> NoMemory {
        NoMemory
    }
}

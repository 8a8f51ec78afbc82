// The failure that nobody can foresee.
use std::alloc::{AllocError, AllocFailed};
use thiserror::Error;

/// No memory was found.
#[derive(Clone, Copy, Debug, PartialEq, Eq, Error)]
#[error("no memory was found")]
pub struct Memory;

impl From<AllocError> for Memory {
    fn from(_error: AllocError) -> Memory {
        Memory
    }
}

impl<T: Drop> From<AllocFailed<T>> for Memory {
    fn from(_error: AllocFailed<T>) -> Memory {
        Memory
    }
}

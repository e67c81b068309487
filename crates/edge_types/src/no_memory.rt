//! Out of memory: what every call that allocates may return, alone or among its refusals.

use std::alloc::{AllocError, AllocFailed};
use thiserror::Error;

/// Memory ran out: an allocation failed.
#[derive(Clone, Copy, Debug, Drop, PartialEq, Eq, Error)]
#[error("out of memory: try again with more of it")]
pub struct NoMemory;

impl From<AllocError> for NoMemory {
    fn from(_: AllocError) -> NoMemory {
        NoMemory
    }
}

impl<T: Drop> From<AllocFailed<T>> for NoMemory {
    fn from(_: AllocFailed<T>) -> NoMemory {
        NoMemory
    }
}

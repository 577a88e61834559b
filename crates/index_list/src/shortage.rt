//! The one error of this crate.

use std::alloc::AllocError;
use thiserror::Error;

/// There was no memory for what was asked.
#[derive(Clone, Copy, Debug, PartialEq, Eq, Drop, Error)]
#[error("out of memory")]
pub struct Memory;

impl From<AllocError> for Memory {
    fn from(_failure: AllocError) -> Memory {
        Memory
    }
}

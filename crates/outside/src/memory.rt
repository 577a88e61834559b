// The objects in memory.

mod by_name;
mod inputs;
mod outputs;
mod sink;
mod slot;
mod source;

pub use inputs::MemInputs;
pub use outputs::MemOutputs;
pub use sink::MemSink;
pub use slot::MemSlot;
pub use source::MemSource;
use std::alloc::{AllocError, AllocFailed};

/// Memory was wanted and none was found.
#[derive(Clone, Copy, Debug, PartialEq, Eq)]
pub struct Memory;

impl From<AllocError> for Memory {
    fn from(_: AllocError) -> Memory {
        Memory
    }
}

impl<T: Drop> From<AllocFailed<T>> for Memory {
    fn from(_: AllocFailed<T>) -> Memory {
        Memory
    }
}

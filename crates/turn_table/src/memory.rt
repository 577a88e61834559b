//! The one error of the calls that take memory.

/// No memory was left.
#[derive(Clone, Copy, Debug, PartialEq, Eq)]
pub struct Memory;

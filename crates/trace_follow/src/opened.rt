//! The opening data of a trace.

/// With what the pool of a trace was opened: its blocks, their length in bytes, and the name of its first page.
#[derive(Clone, Copy, Debug, PartialEq, Eq)]
pub struct Opened {
    pub blocks: u32,
    pub block_len: u32,
    pub first_name: u64,
}

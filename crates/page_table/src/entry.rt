//! What a table knows of one page.

use block_arena::{Buf, Shell};

/// Where a page stands on its way between memory and scratch.
#[derive(Clone, Copy, Debug, PartialEq, Eq)]
pub enum Place {
    /// Its client has its buffer, with so many pins. A new page has one.
    Pinned(u32),
    /// Its bytes are in memory alone.
    Dirty,
    /// The writer of this number writes its bytes out.
    Flying(u32),
    /// Its bytes are read back for its client.
    Loading,
    /// Its bytes are in memory and in its slots.
    Clean,
    /// Its bytes are in its slots alone.
    Evicted,
}

/// The memory that a page keeps in the table.
#[derive(Drop)]
pub enum Mem {
    /// Its buffer.
    Held(Buf),
    /// Room for its buffer, whose blocks are elsewhere.
    Empty(Shell),
    /// Nothing: its buffer or shell was handed out.
    Out,
}

/// One page. `S` is the type of what it keeps of scratch.
///
/// `name` is told here for the reader; the table finds a page by a name that it keeps beside the entry.
#[derive(Drop)]
pub struct Entry<S> {
    pub name: u64,
    pub session: u32,
    pub client: u32,
    /// How many blocks its buffer has.
    pub blocks: u32,
    /// The number of the history's entry by which its last write began; 0 before the first.
    pub version: u64,
    pub place: Place,
    pub mem: Mem,
    pub scratch: S,
}

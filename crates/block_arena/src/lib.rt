//! Blocks and buffers: all memory of a pool is taken at opening, and lent as buffers.
//!
//! Model: a buffer is one list of bytes, with the length and the number of its blocks beside it.
//! A shell is the number of blocks that it has room for. An arena is three numbers: how long its
//! blocks are, how many it was opened with, and how many of them are free.
//! Invariant: every block of an arena or a buffer has the block length, a power of two. An arena
//! has room for as many blocks as it was opened with, and never more are free. A shell has its
//! room, so that filling it and taking the blocks back takes no memory.
#![tactic(auto)]

mod buffer;
mod layout;
mod length;
mod shells;
mod shortage;
mod supply;

pub use buffer::Buf;
pub use shells::Shell;
pub use shortage::Memory;
pub use supply::Arena;

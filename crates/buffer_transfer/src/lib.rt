//! The buffers that clients hold beside their pages: whose each is, and how many blocks it has.
//!
//! Model: a finite map from the numbers of the live buffers to their client and their count of
//! blocks, and how many buffers may be live.
//! Invariant: room for all buffers was taken at opening. Each live number is below the number of
//! buffers that may be live.
//!
//! A book has no blocks: each buffer's are with its client. A number comes again once its buffer
//! has ended.
#![tactic(auto)]

mod book;
mod lent;

pub use block_arena::Memory;
pub use book::BufferBook;
pub use lent::Lent;

//! Writers: they store dirty pages of a pool beside those who use it.
//!
//! Model: a writer has a seat at the pool's turn lock. In one turn it takes a dirty page out, it stores the page while
//! others have turns, and in a second turn it brings the page back, clean, or dirty again where a store failed.
//! Invariant: between two calls no page is out with it.
#![tactic(auto)]

mod rest;
mod tried;
mod writer;

pub use tried::Tried;
pub use writer::Writer;

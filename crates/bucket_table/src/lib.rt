//! A hash table whose memory is buffers of a store.
//!
//! Model: a list of rows with the numbers of their nodes, the newest first. Each row stands on one of the chains, by the
//! hash with which it was inserted: its chain is the hash modulo the number of chains. A chain is that list without the
//! rows of other chains.
//! A node's number is the place of its first byte in the node area. It stays the same until the table is cleared.
#![tactic(auto)]

mod area;
mod chains;
mod finding;
mod full;
mod growing;
mod hashing;
mod inserting;
mod laws;
mod loans;
mod looking;
mod numbers;
mod opening;
mod parts;
mod rows;
mod same;
mod spreading;
mod stride;
mod table;
mod threading;
mod walking;
mod widening;

pub use full::Full;
pub use hashing::RowHash;
pub use laws::{law_loans_leave_pages, law_table_stays};
pub use spreading::spread;
pub use table::BucketTable;

//! Follows a trace entry by entry, and judges whether the next one may come.
//!
//! Model: a follower keeps what is live after the entries so far, as the state of the pool has it, with running sums. It
//! stands for every legal history that has the trace so far, so a refusal holds for all of them.
//! Each entry costs a few look-ups in maps of what is live.
#![tactic(auto)]

mod follower;
mod opened;
mod queue;
mod rows;
mod table;
#[cfg(test)]
mod tests;

pub use follower::Follower;
pub use opened::Opened;

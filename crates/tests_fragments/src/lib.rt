//! Numbers that are dealt to lists in threads: tests of `fragments`.
#![tactic(auto)]

mod batches;
mod sharing;

pub use batches::{Batch, share_batches};
pub use sharing::{Kept, share, share_at};

#[cfg(test)]
mod tests;

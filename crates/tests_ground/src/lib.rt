//! The crates of the pool's ground, each alone: blocks, buffers, lists, sessions and pages against worked rows and
//! plain lists.
#![tactic(auto)]

#[cfg(test)]
mod tests;

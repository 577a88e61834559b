//! Stores in memory, streams of rows, hash tables and stacks of partitions over them, against worked rows and steps.
#![tactic(auto)]

#[cfg(test)]
mod tests;

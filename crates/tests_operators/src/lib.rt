//! Operators over stores: tests of whole groupings and joins, over a store in memory and over the pool of one owner.
#![tactic(auto)]

#[cfg(test)]
mod tests;

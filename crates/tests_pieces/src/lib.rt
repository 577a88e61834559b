//! Pieces of buffers, over a store in memory and over the pool of one owner: worked rows, and mixed calls beside a plain list.
#![tactic(auto)]

#[cfg(test)]
mod tests;

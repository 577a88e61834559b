//! The pool's value and the pool of one owner, over slots in memory, against worked rows and beside a plain pool.
#![tactic(auto)]

#[cfg(test)]
mod tests;

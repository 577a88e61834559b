//! A pool that sessions share: tests.
#![tactic(auto)]

#[cfg(test)]
mod tests;

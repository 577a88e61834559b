//! Records of inputs, plans, and whole queries over a store in memory, against worked rows.
#![tactic(auto)]

#[cfg(test)]
mod tests;

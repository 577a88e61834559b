//! Rows and what is read, chosen, grouped and told of them, against worked rows.
#![tactic(auto)]

#[cfg(test)]
mod tests;

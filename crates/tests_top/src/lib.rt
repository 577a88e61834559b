//! Calls of the program from the words of a command to the bytes of its report, against worked rows.
#![tactic(auto)]

#[cfg(test)]
mod tests;

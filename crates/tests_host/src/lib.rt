//! The program's files, scratch file, report and words for people, against worked rows.
#![tactic(auto)]

#[cfg(test)]
mod tests;

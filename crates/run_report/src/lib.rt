//! How a query, or a whole command, came out: as one line of text for the report.
//!
//! Model: a line is words with a space between each two and a newline behind the last.
#![tactic(auto)]

mod cause;
mod line;
mod outcome;
mod report;
mod words;

pub use cause::Cause;
pub use outcome::Outcome;
pub use report::outcome_line;
pub use row_codec::Memory;

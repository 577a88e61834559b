//! Records of an input as typed rows, and rows as lines of text.
//!
//! Model: an input is a list of pieces, and its records are those of its pieces, one after the
//! other, the first of them the header. [`Rows`] is the list of rows that are still to come, and the
//! refusal behind them, if there is one. [`Lines`] is the text of the rows that were pushed, one line
//! after the other.
//! Invariant: in an input that is open, the reader stands between two records of its piece, and no
//! more records were given than are allowed. Where no push failed, the writer inside [`Lines`] stands
//! between two records.
#![tactic(auto)]

mod header;
mod intake;
mod ints;
mod open;
mod piece;
mod reading;
mod record_reader;
mod records;
mod refusal;
mod row;
mod scan;
mod sink;
mod writing;

pub use reading::Rows;
pub use refusal::InputErr;
pub use sink::write_whole;
pub use writing::{Lines, row_text};

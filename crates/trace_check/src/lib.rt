//! Traces as texts: the lines of their entries, and whether a text is that of a legal trace.
//!
//! Model: a trace is opening data and a list of entries, the oldest first, without the bytes of unpins, the sums of
//! failures and the keys of pages. It is legal where some legal history has it.
#![tactic(auto)]

mod check;
mod events;
mod line;
mod name;
mod number;
mod numbers;
mod reading;
#[cfg(test)]
mod tests;
mod trace_err;

pub use check::{Checked, MAX_BYTES, check_trace};
pub use line::{entry_line, last_line, opening_line};
pub use trace_err::TraceErr;
pub use trace_follow::Opened;

//! A table that is made as it is read, to feed a query with rows of a known sum.
//!
//! Model: a source is the bytes that are still to come. It holds one line of them; the other lines
//! follow from the number of the next row.
#![tactic(auto)]

mod line;
mod source;

pub use source::TableSource;

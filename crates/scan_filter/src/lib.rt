//! Filters over rows.
//!
//! Model: a predicate compares the value of one column, on the left, with a fixed value, on the
//! right. A row passes where all its predicates hold, so it passes where there is none.
#![tactic(auto)]

mod passing;
mod pred;

pub use passing::passes;
pub use pred::{Cmp, Pred};

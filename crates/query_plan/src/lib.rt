//! Plans: what queries a document asks for, or the first thing that is wrong with it.
//!
//! Model: a document is the table that `toml` reads from its bytes. Each table in it is read by the
//! rows of one table of keys, in their order, and the first fault is told with the path of its key.
//! A plan is what the document says: numbers, names, and columns by their places.
#![tactic(auto)]

mod aggregated;
mod aggregates;
mod column_text;
mod columns;
mod draft;
mod error;
mod file_name;
mod filters;
mod known;
mod limit;
mod listed;
mod lists;
mod names;
mod outcome;
mod outputs;
mod paths;
mod plan;
mod queries;
mod reading;
mod repeats;
mod resolve;
mod rule;
mod scalar;
mod section;
mod sides;
mod sizes;
mod texts;
mod whole;
mod words;

pub use error::PlanErr;
pub use file_name::FileName;
pub use listed::Listed;
pub use outcome::{QueryErr, Ran, Totals};
pub use plan::{Plan, Query, Side, SidePlan, TracePlan};
pub use reading::read_plan;
pub use sizes::{least, sessions, slots_of};

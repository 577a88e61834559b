//! One query: its answer, or its cause.
//!
//! Model: a query reads the rows of its inputs, the left one first, and feeds those that pass their side's filter to an
//! operator over its store: a grouping, or a join. Then it writes a line a group in the order of the keys' paths, or a line a
//! pair in any order. Nothing is written before all inputs were read to their ends, and whatever becomes of the query, its
//! store has no client of it afterwards.
//! Several stores share a query that groups: each has a grouping, and each row that passes is fed to one of them, on threads.
//! Then the groups of all go to the first as partial rows, and that one writes the answer.
#![tactic(auto)]

mod answering;
mod batches;
mod both;
mod client;
mod fed_batches;
mod feeder;
mod feeding;
mod gathering;
mod grouped;
mod grouping;
mod header;
mod joined;
mod laws;
mod on_threads;
mod pairs;
mod parallel;
mod parts;
mod passing;
mod run;
mod several;
mod takes;
mod together;

pub use laws::{law_completes, law_refuses, law_spill};
pub use on_threads::group_parallel;
pub use parallel::feed_parallel;
pub use query_plan::{QueryErr, Ran, Side, Totals};
pub use run::run_query;
pub use several::{end_groupings, start_groupings};

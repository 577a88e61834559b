//! What the crates of a query's front answer: `csv_edge`, `query_plan` and `query_run`.

mod plans;
mod queries;
mod records;

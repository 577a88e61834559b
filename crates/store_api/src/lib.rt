//! One query's face of the pool: the trait that every operator is generic over.
//!
//! Model: what a store holds (its query's tracker, its clients, its live pages and loans) changes by an exact
//! equation in every call; what it has shown (failures, refused unpins, stale loads, spent names, and its trail, which
//! is the entries that it made in the pool's history) only grows.
//! A live page is pinned, once or more often, or it rests. A client is charged for each pin of its pages and for its
//! loans, and what of its reservation isn't charged is unused.
#![tactic(auto)]

mod emit;
mod every_call;
mod handing;
mod laws;
mod listed;
mod mem_store;
mod op_err;
mod shapes;
mod store;
mod tokens;

pub use emit::Emit;
pub use every_call::{Walked, walk};
pub use handing::{hand, law_hands, law_leaves};
pub use laws::{
    law_emitters, law_entries, law_give_back, law_growth, law_names, law_pins, law_slots,
};
pub use listed::Listed;
pub use mem_store::{MAX_CLIENTS, MemStore};
pub use op_err::OpErr;
pub use row_codec::{Agg, Column, Kind, Value};
pub use shapes::{JoinShape, Shape};
pub use store::Store;
pub use tokens::{Client, Loan, Page};

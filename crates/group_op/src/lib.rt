//! Groups of rows: partial rows are combined in a table, and go to partitions where it is full.
//!
//! Model: a partial row stands as an encoded row, its key's values and then one number an aggregate. The rows in a table and
//! in the partitions together, combined key by key, are those that were put, in any order and in any parts.
//! A row that is fed goes into a table: into the entry of its key, or as a new one. A table that is full grows as long as its
//! client may reserve more; then rows of other keys pass it and go to sixteen partitions, or its own rows go there and it
//! begins anew. Once no more rows are fed, partition after partition is read through the table, and its groups go to an
//! emitter in the order of their paths and keys.
#![tactic(auto)]

mod absorbing;
mod emission;
mod ending;
mod feeding;
mod finishing;
mod flushing;
mod growing;
mod handing;
mod hashing;
mod joining;
mod keying;
mod laws;
mod lowest;
mod operator;
mod ordering;
mod own_row;
mod partial;
mod pouring;
mod putting;
mod reading;
mod reduction;
mod scanning;
mod spelling;
mod stored;

pub use flushing::{Fan, Spare, flush};
pub use laws::{law_asks_own, law_few, law_lengths, law_starts};
pub use operator::GroupOp;
pub use putting::put;
pub use reduction::Reduction;
pub use row_codec::Agg;
pub use scanning::leaf_by_scan;
pub use store_api::{Emit, OpErr, Shape};

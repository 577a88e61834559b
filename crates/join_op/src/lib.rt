//! Joins the rows of two sides that have one key.
//!
//! Model: the rows of both sides in partitions by the paths of their keys, as they were fed. Partitions of one number hold
//! the rows of one path, so that the pairs of all are those of the partitions, number by number. When no more rows come, the
//! top partitions of both sides are joined, or both are divided by the next four bits of their keys' hashes. To join two,
//! rows of one are held, in a table where there is memory for all of them, while the other one is read.
//! Invariant: the left side is told to rest only where none of its pages is pinned.
#![tactic(auto)]

mod chunks;
mod dividing;
mod ending;
mod feeding;
mod finishing;
mod holding;
mod joining;
mod laws;
mod meeting;
mod operator;
mod pairing;

pub use chunks::leaf_by_chunks;
pub use laws::{law_pairs, law_starts};
pub use operator::JoinOp;

//! The partitions of an operator that spills: rows divided by the paths of their keys, level after level.
//!
//! Model: a stack. Each partition is a stream of rows on pages of one client, and has a level: so many nibbles of a path
//! its rows have in common. The top one is worked on next. It may be divided: sixteen partitions of the next level come
//! on top of it, and its rows go to these, so that work through all levels is one loop over one stack.
//! Invariant: all pages have one length, no level is above 16, and a partition of a level stands no higher than
//! seventeen times that. So there are at most 272.
//!
//! Nothing here knows what rows say, nor which of them goes where.
#![tactic(auto)]

mod calls;
mod ending;
mod laws;
mod stack;
mod streams;

pub use laws::{law_few_partitions, law_owned, law_room, law_scratch, law_top};
pub use stack::Partitions;

//! The value of a pool: all that a pool has, as one value that one caller at a time changes.
//!
//! Model: the parts, as contracts see each: trackers and what they are charged, the live pages and
//! where each stands, blocks, slots, buffers, sessions, and how many entries the history has. The
//! state of `pool_model` is a function of them.
//! Invariant: some legal history leads to that state. Each page stands on the list, and has the
//! memory and the slots, that its place says. Charges, free blocks and quotas are the sums of the
//! model.
//!
//! Each call says which entries it adds to a history, and the value stands for each history for
//! which it stood with these behind. Bytes are stored and loaded outside, by jobs that take a page's
//! buffer and slots along. Only opening takes memory.
#![tactic(auto)]

mod alloc;
mod asking;
mod clients;
mod conf;
mod create;
mod destroy;
mod evict;
mod evicted;
mod extract;
mod finish;
mod finish_read;
mod growing;
mod here;
mod jobs;
mod kept;
mod leavings;
mod lending;
mod lengths;
mod load;
mod look;
mod parts;
mod pin;
mod pool;
mod readers;
mod refuse;
mod repin;
mod room;
mod run;
mod sessions;
mod setup;
mod start;
mod tally;
mod unpin;

pub use conf::PoolConf;
pub use evicted::EvictedPages;
pub use finish::Wrote;
pub use jobs::{ReadJob, Stale, WriteJob};
pub use kept::Kept;
pub use parts::Parts;
pub use pin::PinTurn;
pub use pool::PoolState;
pub use room::{RoomTurn, Want};
pub use tally::{Tally, law_plain, law_sums};

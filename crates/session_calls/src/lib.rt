//! The calls of a session of a pool, whoever else makes entries: each as steps on the pool's value, while the session
//! has it in hand.
//!
//! Model: a session that has the value in hand knows the history for which it stands. What the session holds is told
//! by its own entries in that, so others change none of it.
//! Invariant: between two calls no page of the session is in a job of its own; with those in jobs no slot is lost.
//! A session may be alone: then nobody else makes entries, and it waits for nobody.
#![tactic(auto)]

mod access;
mod asking;
mod calls;
mod coming;
mod count;
mod entering;
mod flying;
mod hand;
mod jobs;
mod leaving;
mod log;
mod looking;
mod opened;
mod pinning;
mod pins;
mod room;
mod trace;
mod trackers;
mod turning;

pub use access::Access;
pub use calls::{alloc, create, give_back, move_buffer, move_reservation, pin_again};
pub use count::{Count, count_opening};
pub use entering::enter;
pub use hand::Hand;
pub use log::Log;
pub use opened::Opened;
pub use pinning::{destroy, pin};
pub use trace::Trace;
pub use turning::Turn;

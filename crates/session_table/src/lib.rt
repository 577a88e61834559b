//! The live sessions of a pool, and the clients of each.
//!
//! Model: by its number a session, or none. A session is the number of its query tracker, its quota
//! of slots, and its clients, the one that came first in front; a client is the number of its
//! tracker, and the number of the entry of the first failure on its pages since the session's last
//! call began, if there was one.
//! Invariant: there are 240 numbers. A session has at most 16 clients, and none of them twice. Room
//! for all clients was taken at opening, so no later call takes memory.
#![tactic(auto)]

mod member;
mod row;
mod table;

pub use member::Member;
pub use reservation_tree::Memory;
pub use row::MAX_CLIENTS;
pub use table::{MAX_SESSIONS, SessionTable};

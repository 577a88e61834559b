//! What a session holds, told by its own entries.
//!
//! Model: a session's holdings are a fold over the entries that it made itself, from its opening on.
//! Entries of others change none of it, nor do a session's own writes and evictions.
//! No code of a pool runs here: each law is the contract of a function that does nothing.
#![tactic(auto)]

mod laws;

pub use laws::{
    law_busy, law_calls, law_decides, law_ends, law_fits, law_fresh, law_held, law_left, law_lives,
    law_refusals, law_tops,
};

//! Whether a call of a pool may be made.
//!
//! A caller that holds a history knows by it what its calls need. One that holds none, as a test or a
//! bench, asks here first: each answer `true` is proved to give what the call needs of the state. No
//! answer changes the pool. Those on clients and sessions look through a session's clients, and those
//! on idle ones through all pages.
#![tactic(auto)]

mod clients;
mod idle;
mod jobs;
mod loans;
mod owned;
mod pages;
mod tokens;

pub use clients::{can_hold, has_unused, is_client_of, is_seat};
pub use idle::{has_no_client, has_no_session, is_idle};
pub use jobs::{is_maker, is_read_job, is_write_job, is_writer};
pub use loans::{can_move_to, is_loan};
pub use owned::{
    has_blocks, has_page_unused, held_page, holds_client, holds_loan, holds_no_client, holds_none,
    is_buffer_of,
};
pub use pages::{
    can_pin, entry_at, entry_of, fits, has_pin_to_spare, has_room_for, is_last_pin, is_page,
    is_pinned, is_pinned_with, is_unpinned, length,
};
pub use tokens::{
    are_beside, can_fill, has_left, has_none, has_room, is_client, is_client_in, is_tracker,
};

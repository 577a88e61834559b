//! What may happen in a pool, and what holds after it.
//!
//! Model: a history is a list of entries, the oldest first. The state after it has the live trackers,
//! sessions, pages and buffers. An entry may follow where the state allows it.
//! A pinned page is charged to its client once for each of its pins, and has its blocks once.
//! No code of a pool runs here: the types are the words of entries, and each law is the contract of a
//! function that does nothing.
//!
//! A trace is a history without the bytes of pages and the numbers that contracts alone see.
#![tactic(auto)]

mod bare;
mod call;
mod content;
mod entry;
mod event;
mod fault_sum;
mod laws;
mod maker;
mod skeleton;
#[cfg(test)]
mod tests;
mod trace_laws;

pub use bare::Bare;
pub use call::Call;
pub use content::Content;
pub use entry::Entry;
pub use event::Event;
pub use fault_sum::FaultSum;
pub use laws::{
    law_clients, law_contents, law_count, law_failures, law_fronts, law_made, law_marks, law_names,
    law_orders, law_owners, law_pins, law_quotas, law_refusals, law_rest, law_room, law_sessions,
    law_sound, law_trackers, law_versions,
};
pub use maker::{FIRST_WRITER, MAX_SESSIONS, MAX_WRITERS, Maker};
pub use skeleton::Skeleton;
pub use trace_laws::law_traces;

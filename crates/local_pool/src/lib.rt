//! A pool with one owner, who writes and loads its pages itself and waits for nobody.
//!
//! Model: what the owner holds is told by its trail, the list of its own entries, for which the pool's value
//! stands. No other maker has an entry in it. Its calls are those of any session (`session_calls`), which is alone here.
//! Invariant: between calls no page is in a job, and the slots count what the trail tells beside what they counted
//! when the pool opened.
#![tactic(auto)]

mod beginning;
mod coming;
mod leaving;
mod local;
mod looking;
mod owned;
mod pinning;
mod pins;
mod shrinking;
mod sole;
mod taking;
mod trackers;

pub use local::LocalPool;
pub use owned::Alone;
pub use session_calls::Opened;
pub use sole::Shelf;
pub use taking::{Coming, Ending, Handing, Passing, Shrinking};

//! Reservations of bytes along a tree of trackers.
//!
//! Model: a finite map from the numbers of the live trackers to their parent, depth, limit and
//! reservation, and a map from the same numbers to the bytes charged. The root is tracker 0.
//! Invariant: each tracker but the root hangs from a live one, and at each the bytes charged and the
//! reservations of its children fit its reservation, which fits its limit. A row's running number of
//! children's bytes is their sum. At most 4096 trackers are live, with numbers below 4096, and room for all was
//! taken at opening.
//! Bytes are u64 in the rows and numbers without end in the model, so no sum wraps.
//!
//! A growth and the rise of a move go from the top down, one call a level that changes, so that each
//! tree on the way fits. They look for a refusal first, and a refused call has written nothing.
//!
//! The refusals of a pool stand here too, with the mark of a stored block, which one of them names.
#![tactic(auto)]

mod changes;
mod errors;
mod laws;
mod mark;
mod row;
#[cfg(test)]
mod tests;
mod tracker_id;
mod tree;

pub use errors::{Memory, PoolErr};
pub use laws::{law_marks, law_ways};
pub use mark::{MARK_LEN, Mark};
pub use tracker_id::TrackerId;
pub use tree::{MAX_TRACKERS, Tree};

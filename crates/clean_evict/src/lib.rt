//! The clean pages of a pool, and how they make room.
//!
//! Model: how many keys there are, and the keys of the clean pages, from the page that has been clean
//! longest to the one that became clean last.
//! Invariant: no key is there twice, and each is below the number of keys.
//!
//! A clean page has its bytes in memory and on scratch. So its blocks can be had at any time without a
//! store or a load: it becomes evicted, and what is left of it is on scratch alone. A page that isn't
//! on this list, as a dirty one, is never touched.
#![tactic(auto)]

mod acquire;
mod evict;
mod laws;
mod list;

pub use index_list::Memory;
pub use list::CleanList;

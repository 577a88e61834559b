//! The pages of a pool: which are live, and what each has.
//!
//! Model: a finite map from the names of the live pages to their entries, the name of each live page
//! by its key, the name of the next page, and how many pages may be live.
//! Invariant: each live page has one key, below the number of pages that may be live. The names of
//! live pages are below the next name, which only rises. Room for all pages was taken at opening.
//!
//! A key comes again once its page has ended, a name never does. So an id has both, and finds no later page.
#![tactic(auto)]

mod entry;
mod page_id;
mod row;
mod table;

pub use block_arena::Memory;
pub use entry::{Entry, Mem, Place};
pub use page_id::PageId;
pub use table::PageTable;

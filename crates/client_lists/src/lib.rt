//! The lists of pages that each client has, with the sum of the lengths on each list.
//!
//! Model: for each client whether it is open; the numbers of the nodes on its three lists, pinned,
//! dirty and flying, each from the page that came first to the one that came last; the length of
//! each node, in bytes.
//! Invariant: no node is on two lists, or twice on one; a client that isn't open has none; beside
//! each list stands the sum of the lengths of the nodes on it; no length is above that of the
//! longest page; a client is on the list of the busy ones exactly where it has a dirty page.
//!
//! All lists are held in one table, three for each client, and the busy clients in another, so
//! each call takes constant time, and only the opening takes memory.
#![tactic(auto)]

mod busy;
mod clients;
mod measured;
#[cfg(test)]
mod tests;
mod which;

pub use clients::ClientLists;
pub use index_list::Memory;
pub use which::Which;

//! Lists of nodes that are known by their numbers, all held in one table that links each node both
//! ways.
//!
//! Model: how many nodes there are, and for each list the numbers of its nodes, from its front to
//! its back.
//! Invariant: no node is on two lists, or twice on one; what the table says of a node (which one
//! follows it, which one it follows, which list it is on) is what the lists say.
//!
//! The table has an entry for each node and then one for each list, its end. A list is the ring
//! that leads from its end over its nodes back to it, so no call has a case for the first or the
//! last node, and each takes constant time.
#![tactic(auto)]

mod links;
mod shortage;
mod table;

pub use shortage::Memory;
pub use table::Lists;

//! Scratch slots: each holds one block, and they are handed out in rows under quotas.
//!
//! Model: a pool of slots is the list of its free slots, in the order in which they will go out, a
//! list of quotas, of which each is closed or two numbers, `free` and `lent`, and the number of
//! spare slots, which are in no quota. A shell is the number of slots that it has room for, a row
//! the list of its slots.
//! Invariant: as many slots are free as are spare or free in a quota, and the queue has room for
//! the lent ones beside them. So only opening a pool and making a shell take memory.
//!
//! Slots go out from the front of the queue and come back at its end, so the calls alone determine
//! which slots a row has. A quota is a number of slots, not a set of them.
#![tactic(auto)]

mod blocks;
mod marked;
mod pool;
mod quota;
mod shells;
#[cfg(test)]
mod tests;

pub use blocks::{load_all, store_all};
pub use marked::{LoadErr, load_marked, store_marked};
pub use pool::SlotPool;
pub use shells::{SlotRow, SlotShell};

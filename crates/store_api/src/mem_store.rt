//! A store wholly in memory.

mod account;
mod accounts;
mod adding;
mod calls;
mod charges;
mod growth;
mod held;
mod opening;
mod piece;
mod pieces;
mod rows;

pub use accounts::MAX_CLIENTS;
pub use held::MemStore;

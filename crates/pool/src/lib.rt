//! One pool that several queries share: who opened it lets sessions in and out, one turn after the other.
//!
//! Model: the pool's value stands under a turn lock for one list of items, which are the entries of one legal history,
//! and what slots counted each time that they went out. An item by which a session comes or goes needs the door, and
//! each item needs its maker's number. The pass has the door, and the numbers that no session has; a session has its
//! own number. So the pass has seen every coming and going, and a session has seen every entry of its own, whatever
//! others do.
//! Invariant: the value stands for the whole list; the quotas of the sessions that came and haven't gone, with the
//! spare slots, are all slots; no slot is lost; and the slots count what the history tells (`specs/Standing.antt`).
#![tactic(auto)]

mod account;
mod accounts;
mod admitting;
mod among;
mod ask;
mod at_gate;
mod ending;
mod holding;
mod item;
mod ledger;
mod left;
mod lock;
mod named;
mod parting;
mod pass;
mod place;
mod pool;
mod rooms;
mod seat;
mod seat_calls;
mod seat_room;
mod seating;
mod session;
mod shared;
mod stopping;
mod together;
mod turning;
mod writer;
mod writing;

pub use account::ClientAccount;
pub use accounts::{ClientAccounts, MOST};
pub use among::Among;
pub use ask::Ask;
pub use at_gate::{AtGate, Points};
pub use item::Item;
pub use ledger::Ledger;
pub use left::Left;
pub use named::Named;
pub use pass::Pass;
pub use place::Place;
pub use pool::Pool;
pub use seat::{SessionSeat, Sitting};
pub use session::{GatedSession, Session};
pub use session_calls::{Opened, Trace};
pub use shared::Shared;
pub use writer::{WriterSeat, WriterTurn};

//! A turn lock: one value that is handed to one seat at a time, in the order of tickets.
//!
//! Model: there is one list of entries, and the value stands for it. A seat knows a beginning of
//! the list (`seen`), the entries that it added itself (`made`), and its rights. The list, and what
//! seats know, are there for contracts alone: at run time there are two numbers and one slot.
//!
//! A seat is idle, waits, has its turn, or is spent:
//!
//! ```text
//!              draw a ticket          its ticket is served
//!       idle ----------------> waiting ----------------> turn
//!        |  ^                                             |
//!        |  +---------------------------------------------+
//!        v          value back, the next ticket served
//!      spent   (joined to the first seat)
//! ```
//!
//! `enter` draws the number in `ticket` and waits until `serving` has reached it. Then the slot is
//! the seat's, and its caller has the value. `leave` puts the value into the slot and adds one to
//! `serving`, which gives the slot back. While nobody has a turn, the value is at home.
//!
//! Invariant, at every moment (`specs/Rule.antt`):
//! - Each number from `serving` up to before `ticket` is the ticket of one seat, and no seat has
//!   another ticket. A seat that has its turn has the ticket `serving`, and has seen the whole list.
//! - The value is at home exactly while no seat has its turn, and then it stands for the list.
//! - What a seat has seen begins the list. Behind that stands nothing that it made, and nothing
//!   that needs a right of it. No right is with two seats.
//! - The seats that aren't spent are the first one and as many others as it has out. Only the first
//!   splits and joins.
//!
//! After a join the seat loads `serving` once more. The load changes nothing, but by the rule it
//! tells that one of the two lists begins the other, and that nothing in between needs a right of
//! the seat with the shorter list. A glance at `ticket` before a draw tells nothing at all.
//!
//! `Solo` is the same trail for one owner, who waits for nobody.
#![tactic(auto)]

mod logged;
mod memory;
mod rule;
mod seat;
mod solo;
mod steps;
#[cfg(test)]
mod tests;
mod turns;
mod view;

pub use logged::{Adds, Logged};
pub use memory::Memory;
pub use seat::TurnSeat;
pub use solo::Solo;
pub use turns::Turns;
pub use view::{Role, Stage, View};

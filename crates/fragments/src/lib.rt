//! Items (batches, say) that one thread is given and several feeders take, by a queue with room for a few.
//!
//! Model: a giver gives items. The caller's thread puts them into a queue; each other thread, a fragment, takes items out
//! of it and feeds them. Where the queue is full, the caller's thread takes one too, and feeds its own feeder.
//!
//! Invariant, at every moment (`specs/Balance.antt`): however items are weighed, those that were put weigh what those that
//! were taken and those in the queue weigh together.
#![tactic(auto)]

mod at_gate;
mod beside;
mod dealing;
mod feeding;
mod fragment;
mod laws;
mod moves;
mod place;
mod places;
mod reading;
mod rule;

pub use dealing::{Failure, deal};
pub use feeding::{Feeder, Giver};
pub use laws::law_rows;
pub use place::Place;
pub use reading::Stop;
pub use rule::{Admits, Cut, Fair, Puts, Queue, Takes, Tally};

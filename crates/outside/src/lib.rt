//! The world as the program meets it: inputs, outputs, scratch slots and the gate, each a trait.
//!
//! Model: an object tells contracts two things. What it holds is optional: an object in memory
//! tells its bytes, a file tells nothing. Its count of faults never falls.
//! A call answers [`Failed`] only where that count rose, or stands at the greatest `u64`.
//!
//! `memory` has each of them in memory, with a list of the calls that fail, for tests and for
//! callers that have their bytes at hand.
#![tactic(auto)]

mod gate;
mod memory;
mod names;
mod schedule;
mod slot;
mod stream;

pub use gate::{Gate, MeetGate, OpenGate, Point};
pub use memory::{MemInputs, MemOutputs, MemSink, MemSlot, MemSource, Memory};
pub use names::{Inputs, Outputs};
pub use slot::Slot;
pub use stream::{Failed, Sink, Source};

#[cfg(test)]
mod tests;

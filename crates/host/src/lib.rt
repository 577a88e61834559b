//! What the program `spill` is to its surroundings: files as inputs and outputs, scratch files,
//! standard output as the report, and the words for people on standard error.
//!
//! Each adapter counts its faults and claims nothing of what it holds. What a person is told changes
//! no status.
#![tactic(auto)]

mod advice;
mod again;
mod files;
mod header_words;
mod in_use;
mod input_words;
mod memory_words;
mod mistake;
mod output;
mod plan_words;
mod progress;
mod quota;
mod quotes;
mod report;
mod row_words;
mod scratch;
mod sentences;
mod shown;
mod usage;
mod watched;

pub use advice::{advise, tell_output};
pub use files::{FileInputs, FileOutputs, Input, PartFile};
pub use in_use::InUse;
pub use output::Output;
pub use progress::Progress;
pub use quotes::Quotes;
pub use report::Report;
pub use scratch::{Place, SLOTS, Scratch};
pub use shown::{Shown, ShownField};
pub use usage::about;
pub use watched::Watched;

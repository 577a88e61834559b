// Why the reading of an input ends early.

ghost use Rattle.std.specs.Prelude.{◌≡◌};

use outside::Failed;
use row_codec::Memory;
use std::alloc::{AllocError, AllocFailed};
use thiserror::Error;

/// Why an input can't be read on.
///
/// Records and columns are numbered from 0; record 0 is the header.
#[derive(Clone, Copy, Debug, Error, PartialEq, Eq)]
pub enum InputErr {
    /// The source failed; its count of faults rose.
    #[error("the input can't be read")]
    Fault,
    /// The source gives more records or bytes than are allowed.
    #[error("the input is too large")]
    TooLarge,
    /// There is no record, or a column's name doesn't stand in the header exactly once.
    #[error("the header lacks a column, or has it twice")]
    Header,
    /// The record has another number of fields than the header.
    #[error("record {number} has another number of fields than the header")]
    Csv { number: u64 },
    /// The record's field in this declared column, the first such one, spells no value of its kind.
    #[error("record {number}: column {column} holds no value of its kind")]
    Field { number: u64, column: u32 },
    /// No memory was left.
    #[error("out of memory")]
    Memory,
}

impl From<Failed> for InputErr {
    ghost use Rattle.csv_edge.specs.declared.refusal.InputErr.TheVariants as cause;

    ghost from_gives = { λ _ e. e ≡ cause.Fault };

    fn from(_failure: Failed) -> InputErr {
        InputErr::Fault
    }
}

impl From<Memory> for InputErr {
    ghost use Rattle.csv_edge.specs.declared.refusal.InputErr.TheVariants as cause;

    ghost from_gives = { λ _ e. e ≡ cause.Memory };

    fn from(_shortage: Memory) -> InputErr {
        InputErr::Memory
    }
}

impl From<AllocError> for InputErr {
    ghost use Rattle.csv_edge.specs.declared.refusal.InputErr.TheVariants as cause;

    ghost from_gives = { λ _ e. e ≡ cause.Memory };

    fn from(_failure: AllocError) -> InputErr {
        InputErr::Memory
    }
}

impl<T: Drop> From<AllocFailed<T>> for InputErr {
    ghost use Rattle.csv_edge.specs.declared.refusal.InputErr.TheVariants as cause;

    ghost from_gives = { λ _ e. e ≡ cause.Memory };

    fn from(_failure: AllocFailed<T>) -> InputErr {
        InputErr::Memory
    }
}

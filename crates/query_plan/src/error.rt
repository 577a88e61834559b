//! What is wrong with a document.

use row_codec::{Bytes, Memory};
use std::alloc::{AllocError, AllocFailed};
use thiserror::Error;

/// Why bytes are no plan. A key is a path with dots, whose list members are numbered from 1.
#[derive(Debug, Drop, Error, PartialEq, Eq)]
pub enum PlanErr {
    /// The bytes are no TOML document.
    #[error("no TOML document")]
    Syntax,
    /// A key that has to be there is not.
    #[error("a key is missing")]
    MissingKey { key: Bytes },
    /// A value of another kind than its key asks for.
    #[error("a value of the wrong kind")]
    WrongKind { key: Bytes },
    /// A key that may not stand there.
    #[error("an unknown key")]
    UnknownKey { key: Bytes },
    /// A text that names no column.
    #[error("an unknown column")]
    UnknownColumn { key: Bytes },
    /// A column of another kind than its use asks for.
    #[error("a column of the wrong kind")]
    KindClash { key: Bytes },
    /// A number outside its range, a list of a wrong length, an empty text, an unknown word. With the key `plan`: the
    /// document has more than 1048576 bytes.
    #[error("a value outside its limit")]
    Limit { key: Bytes },
    /// A column that is named a second time.
    #[error("a column is named twice")]
    Repeated { key: Bytes },
    /// An output that is an earlier output, or an input.
    #[error("an output that is used elsewhere")]
    SameOutput { key: Bytes },
    /// The quotas together are more than the slots.
    #[error("the quotas are too large")]
    QuotaSum { key: Bytes },
    #[error("out of memory")]
    Memory,
}

impl From<Memory> for PlanErr {
    ghost use Rattle.query_plan.specs.declared.error.PlanErr.TheVariants as err;
    ghost use Rattle.std.specs.Prelude.{◌≡◌};

    ghost from_gives = { λ _ e. e ≡ err.Memory };

    fn from(_: Memory) -> PlanErr {
        PlanErr::Memory
    }
}

impl From<AllocError> for PlanErr {
    ghost use Rattle.query_plan.specs.declared.error.PlanErr.TheVariants as err;
    ghost use Rattle.std.specs.Prelude.{◌≡◌};

    ghost from_gives = { λ _ e. e ≡ err.Memory };

    fn from(_: AllocError) -> PlanErr {
        PlanErr::Memory
    }
}

impl<T: Drop> From<AllocFailed<T>> for PlanErr {
    ghost use Rattle.query_plan.specs.declared.error.PlanErr.TheVariants as err;
    ghost use Rattle.std.specs.Prelude.{◌≡◌};

    ghost from_gives = { λ _ e. e ≡ err.Memory };

    fn from(_: AllocFailed<T>) -> PlanErr {
        PlanErr::Memory
    }
}

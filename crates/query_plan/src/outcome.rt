// What a query that ran has to tell.

ghost use Rattle.std.specs.Prelude.{◌≡◌};

use crate::plan::Side;
use reservation_tree::PoolErr;
use row_codec::Memory;
use std::alloc::{AllocError, AllocFailed, Global};
use std::marker::Model;
use thiserror::Error;

/// A sum for each aggregate, in 128 bits: contracts see a list of whole numbers.
#[derive(Debug, Drop)]
pub struct Totals {
    items: Vec<i128>,
}

impl Model for Totals {
    ghost use Rattle.std.specs.Prelude.{List, ℤ};

    ghost Value = { List ℤ };

    ghost view = { λ t. t.items.items };
}

impl Totals {
    /// These sums.
    pub fn of(items: Vec<i128>) -> Totals
        ensures { result ≡ items.items }
    {
        Totals { items }
    }

    /// The sums, in the order of the aggregates.
    pub fn as_slice(&self) -> &[i128]
        ensures { result.now ≡ self.now }
    {
        self.items.as_slice()
    }
}

/// The numbers of a query that answered.
#[derive(Debug, Drop)]
pub struct Ran {
    /// Rows read from the left input, the header apart.
    pub left: u64,
    /// Rows read from the right input, the header apart.
    pub right: u64,
    /// Rows that passed the filters.
    pub kept: u64,
    /// Lines of the answer, the header apart.
    pub lines: u64,
    /// For each aggregate, the sum of its column over the lines of the answer.
    pub totals: Totals,
}

/// Why a query has no answer. Records are numbered from 0, the header, and columns from 0 in the
/// order in which they were asked for.
#[derive(Clone, Copy, Debug, Error, PartialEq, Eq)]
pub enum QueryErr {
    /// The source answered with a fault.
    #[error("an input could not be read")]
    SourceFault {
        side: Side,
    },
    /// The input has no header, or the name of a column doesn't stand in it exactly once.
    #[error("an input has no such columns")]
    BadHeader {
        side: Side,
    },
    /// `csv` refuses the record, or it has more or fewer fields than the header.
    #[error("a record of an input is broken")]
    BadCsv {
        side: Side,
        number: u64,
    },
    /// The field is not of the kind of its column.
    #[error("a field of an input is of another kind")]
    BadField {
        side: Side,
        number: u64,
        column: u32,
    },
    /// The input has more records or more bytes than a query takes.
    #[error("an input is too large")]
    TooLarge {
        side: Side,
    },
    /// The row weighs more than a page holds; the weight is in bytes.
    #[error("a row of an input is too long")]
    RowTooLong {
        side: Side,
        number: u64,
        bytes: u64,
    },
    /// The sink answered with a fault.
    #[error("the answer could not be written")]
    SinkFault,
    /// The store refused a call so, or there was no memory.
    #[error("{0}")]
    Pool(PoolErr),
}

impl From<PoolErr> for QueryErr {
    ghost use Rattle.query_plan.specs.declared.outcome.QueryErr.TheVariants as err;
    ghost use Rattle.std.specs.Prelude.{◌≡◌};

    ghost from_gives = { λ cause e. e ≡ err.Pool cause };

    fn from(cause: PoolErr) -> QueryErr {
        QueryErr::Pool(cause)
    }
}

impl From<Memory> for QueryErr {
    ghost use Rattle.query_plan.specs.declared.outcome.QueryErr.TheVariants as err;
    ghost use Rattle.reservation_tree.specs.declared.errors.PoolErr.TheVariants.{Memory};
    ghost use Rattle.std.specs.Prelude.{◌≡◌};

    ghost from_gives = { λ _ e. e ≡ err.Pool Memory };

    fn from(_: Memory) -> QueryErr {
        QueryErr::Pool(PoolErr::Memory)
    }
}

impl From<AllocError> for QueryErr {
    ghost use Rattle.query_plan.specs.declared.outcome.QueryErr.TheVariants as err;
    ghost use Rattle.reservation_tree.specs.declared.errors.PoolErr.TheVariants.{Memory};
    ghost use Rattle.std.specs.Prelude.{◌≡◌};

    ghost from_gives = { λ _ e. e ≡ err.Pool Memory };

    fn from(_: AllocError) -> QueryErr {
        QueryErr::Pool(PoolErr::Memory)
    }
}

impl<T: Drop> From<AllocFailed<T>> for QueryErr {
    ghost use Rattle.query_plan.specs.declared.outcome.QueryErr.TheVariants as err;
    ghost use Rattle.reservation_tree.specs.declared.errors.PoolErr.TheVariants.{Memory};
    ghost use Rattle.std.specs.Prelude.{◌≡◌};

    ghost from_gives = { λ _ e. e ≡ err.Pool Memory };

    fn from(_: AllocFailed<T>) -> QueryErr {
        QueryErr::Pool(PoolErr::Memory)
    }
}

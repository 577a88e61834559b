//! Rows by their numbers.
ghost use Rattle.std.specs.Prelude.{◌≡◌, OnOk, option_copied, is_some};
ghost use Rattle.std.specs.FinMap.{get, insert, remove, empty};

use std::alloc::{AllocError, Global};
use std::collections::BTreeMap;
use std::marker::Model;

/// Rows by their numbers. Contracts see a finite map.
#[derive(Drop)]
pub(crate) struct Table<X> {
    rows: BTreeMap<u64, X>,
}

impl<X> Model for Table<X> {
    ghost use Rattle.std.specs.Ordering.{nat_cmp};
    ghost use Rattle.std.specs.FinMap.{FinMap, code};
    ghost use Rattle.std.specs.Coded.{coded_ℕ};
    ghost use Rattle.trace_follow.specs.Tables.{rows_in};

    ghost Value = { FinMap nat_cmp X };

    ghost coded = { code coded_ℕ X.code };

    ghost view = { λ table. rows_in table.rows };
}

impl<X> Table<X> {
    #[tactic(auto, using(crate::proofs::Tables::none_in))]
    pub(crate) fn new(alloc: Global) -> Table<X>
        ensures { result ≡ empty }
    {
        Table {
            rows: BTreeMap::new(alloc),
        }
    }

    /// The row of this number.
    #[tactic(auto, using(crate::proofs::Tables::row_in))]
    pub(crate) fn row(&self, number: u64) -> Option<X>
    where
        X: Copy,
        ensures { result ≡ get self.now number }
    {
        self.rows.get(&number).copied()
    }

    /// The row of this number, where it stands.
    #[tactic(auto, using(crate::proofs::Tables::row_in))]
    pub(crate) fn find(&self, number: u64) -> Option<&X>
        ensures { option_copied result ≡ get self.now number }
    {
        self.rows.get(&number)
    }

    #[tactic(auto, using(crate::proofs::Tables::row_in))]
    pub(crate) fn holds(&self, number: u64) -> bool
        ensures { result ≡ is_some (get self.now number) }
    {
        self.rows.contains_key(&number)
    }

    /// Puts a row under a number, in place of what was there.
    #[tactic(auto, using(crate::proofs::Tables::put_in))]
    pub(crate) fn put(&mut self, number: u64, row: X) -> Result<(), AllocError>
    where
        X: Drop,
        ensures ok { OnOk result (self.new ≡ insert self.old number row) }
    {
        self.rows.insert(number, row)?;
        Ok(())
    }

    /// Takes the row of a number out.
    #[tactic(auto, using(crate::proofs::Tables::row_in, crate::proofs::Tables::taken_from))]
    pub(crate) fn take(&mut self, number: u64) -> Option<X>
        ensures row { result ≡ get self.old number }
        ensures gone { self.new ≡ remove self.old number }
    {
        self.rows.remove(&number)
    }
}

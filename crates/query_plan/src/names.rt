// What names of columns stand for: pairs, aggregates and filters.

ghost use Rattle.std.specs.Prelude.{◌≡◌, IfOk};
ghost use Rattle.query_plan.specs.Columns.{place_named};
ghost use Rattle.query_plan.specs.Names.{on_fault, int_fault, agg_fault, filter_fault};
ghost use Rattle.query_plan.specs.Resolved.{pair_on, agg_on, pred_on};
ghost use Rattle.query_plan.specs.Told.{Tells, Clears};

use crate::columns::{copy_of, find_column, kind_of, same_kind};
use crate::draft::{AggDraft, FilterDraft};
use crate::error::PlanErr;
use crate::paths::{key_in, member_in};
use crate::resolve::Resolve;
use row_codec::{Agg, Bytes, Column, Kind};
use scan_filter::Pred;
use std::alloc::Global;

/// The columns of both sides, for pairs of them.
#[derive(Clone, Copy)]
pub(crate) struct PairNames<'c> {
    pub path: &'c [u8],
    pub left: &'c [Column],
    pub right: &'c [Column],
}

impl Resolve for PairNames<'_> {
    type Item = (Bytes, Bytes);

    type Made = (usize, usize);

    ghost judge = { λ names. on_fault names.left.now names.right.now names.path.now };

    ghost make = { λ names. pair_on names.left.now names.right.now };

    fn resolve(
        &self,
        alloc: Global,
        place: usize,
        item: &(Bytes, Bytes),
    ) -> Result<(usize, usize), PlanErr> {
        let at = member_in(alloc, self.path, place)?;
        let Some((left, kind)) = find_column(self.left, item.0.as_slice()) else {
            let key = member_in(alloc, at.as_slice(), 0)?;
            return Err(PlanErr::UnknownColumn { key });
        };
        let Some((right, other)) = find_column(self.right, item.1.as_slice()) else {
            let key = member_in(alloc, at.as_slice(), 1)?;
            return Err(PlanErr::UnknownColumn { key });
        };
        if !same_kind(kind, other) {
            return Err(PlanErr::KindClash { key: at });
        }
        Ok((left, right))
    }
}

/// The columns of the row that is grouped, for aggregates.
#[derive(Clone, Copy)]
pub(crate) struct AggNames<'c> {
    pub path: &'c [u8],
    pub columns: &'c [Column],
}

impl Resolve for AggNames<'_> {
    type Item = AggDraft;

    type Made = Agg;

    ghost judge = { λ names. agg_fault names.columns.now names.path.now };

    ghost make = { λ names. agg_on names.columns.now };

    fn resolve(&self, alloc: Global, place: usize, item: &AggDraft) -> Result<Agg, PlanErr> {
        let at = member_in(alloc, self.path, place)?;
        let key = key_in(alloc, at.as_slice(), b"column")?;
        match item {
            AggDraft::Count => Ok(Agg::Count),
            AggDraft::Sum(name) => Ok(Agg::Sum(int_column(self.columns, key, name)?)),
            AggDraft::Min(name) => Ok(Agg::Min(int_column(self.columns, key, name)?)),
            AggDraft::Max(name) => Ok(Agg::Max(int_column(self.columns, key, name)?)),
        }
    }
}

// The column of numbers that is named at this key.
fn int_column(columns: &[Column], key: Bytes, name: &Bytes) -> Result<usize, PlanErr>
    ensures tells { Tells result (int_fault columns.now key name.now) }
    ensures clears { Clears result (int_fault columns.now key name.now) }
    ensures made { IfOk result (λ place. place ≡ place_named name.now columns.now) }
{
    let Some((place, kind)) = find_column(columns, name.as_slice()) else {
        return Err(PlanErr::UnknownColumn { key });
    };
    if !same_kind(kind, Kind::Int) {
        return Err(PlanErr::KindClash { key });
    }
    Ok(place)
}

/// The columns of a side, for its filter.
#[derive(Clone, Copy)]
pub(crate) struct FilterNames<'c> {
    pub path: &'c [u8],
    pub columns: &'c [Column],
}

impl Resolve for FilterNames<'_> {
    type Item = FilterDraft;

    type Made = Pred;

    ghost judge = { λ names. filter_fault names.columns.now names.path.now };

    ghost make = { λ names. pred_on names.columns.now };

    fn resolve(&self, alloc: Global, place: usize, item: &FilterDraft) -> Result<Pred, PlanErr> {
        let at = member_in(alloc, self.path, place)?;
        let Some((column, kind)) = find_column(self.columns, item.column.as_slice()) else {
            let key = key_in(alloc, at.as_slice(), b"column")?;
            return Err(PlanErr::UnknownColumn { key });
        };
        if !same_kind(kind, kind_of(&item.value)) {
            let key = key_in(alloc, at.as_slice(), b"value")?;
            return Err(PlanErr::KindClash { key });
        }
        Ok(Pred {
            column,
            op: item.op,
            value: copy_of(alloc, &item.value)?,
        })
    }
}

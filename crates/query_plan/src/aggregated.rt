// The row that is grouped: which of its columns, and what is computed of them.

ghost use Rattle.std.specs.Prelude.{◌≡◌, map, IfOk};
ghost use Rattle.query_plan.specs.Columns.{row_columns};
ghost use Rattle.query_plan.specs.Names.{grouped_fault};
ghost use Rattle.query_plan.specs.Resolved.{group_on, agg_on};
ghost use Rattle.query_plan.specs.Told.{Tells, Clears};

use crate::columns::push_behind;
use crate::draft::Draft;
use crate::error::PlanErr;
use crate::listed::Listed;
use crate::names::AggNames;
use crate::paths::key_in;
use crate::repeats::resolve_group;
use crate::resolve::resolve_all;
use row_codec::{Agg, Column};
use std::alloc::Global;

/// The columns to group by, and the aggregates.
pub(crate) fn resolve_row(
    alloc: Global,
    path: &[u8],
    draft: &Draft,
) -> Result<(Listed<usize>, Listed<Agg>), PlanErr>
    ensures tells { Tells result (grouped_fault path.now (row_columns draft.now.left draft.now.right) draft.now) }
    ensures clears { Clears result (grouped_fault path.now (row_columns draft.now.left draft.now.right) draft.now) }
    ensures group { IfOk result (λ it. it.0 ≡ map (group_on (row_columns draft.now.left draft.now.right)) draft.now.group) }
    ensures aggs { IfOk result (λ it. it.1 ≡ map (agg_on (row_columns draft.now.left draft.now.right)) draft.now.aggs) }
{
    let left = draft.left.columns.as_slice();
    let Some(right) = &draft.right else {
        return resolve_over(alloc, path, left, draft);
    };
    let mut columns = Vec::new(alloc);
    push_behind(alloc, b"left.", left, &mut columns)?;
    push_behind(alloc, b"right.", right.columns.as_slice(), &mut columns)?;
    resolve_over(alloc, path, columns.as_slice(), draft)
}

#[tactic(auto, unfolding(crate::specs::Names::grouped_fault))]
fn resolve_over(
    alloc: Global,
    path: &[u8],
    columns: &[Column],
    draft: &Draft,
) -> Result<(Listed<usize>, Listed<Agg>), PlanErr>
    ensures tells { Tells result (grouped_fault path.now columns.now draft.now) }
    ensures clears { Clears result (grouped_fault path.now columns.now draft.now) }
    ensures group { IfOk result (λ it. it.0 ≡ map (group_on columns.now) draft.now.group) }
    ensures aggs { IfOk result (λ it. it.1 ≡ map (agg_on columns.now) draft.now.aggs) }
{
    let at = key_in(alloc, path, b"group")?;
    let group = resolve_group(alloc, at.as_slice(), columns, draft.group.as_slice())?;
    let at = key_in(alloc, path, b"agg")?;
    let names = AggNames {
        path: at.as_slice(),
        columns,
    };
    let aggs = resolve_all(alloc, &names, draft.aggs.as_slice())?;
    Ok((group, aggs))
}

// The query of a draft: what its names stand for.

ghost use Rattle.std.specs.Prelude.{◌≡◌, map, IfOk};
ghost use Rattle.query_plan.specs.Faults.{key_in};
ghost use Rattle.query_plan.specs.Names.{names_fault, repeats_fault, pairs_fault, side_repeats, side_filters};
ghost use Rattle.query_plan.specs.Columns.{right_columns};
ghost use Rattle.query_plan.specs.Resolved.{pair_on, side_of, query_of};
ghost use Rattle.query_plan.specs.Told.{Tells, Clears};

use crate::aggregated::resolve_row;
use crate::draft::{Draft, SideDraft};
use crate::error::PlanErr;
use crate::listed::Listed;
use crate::names::{FilterNames, PairNames};
use crate::paths::key_in;
use crate::plan::{Query, SidePlan};
use crate::repeats::distinct;
use crate::resolve::resolve_all;
use row_codec::Column;
use std::alloc::Global;

/// The query of this draft, which stands at this path.
#[tactic(auto, unfolding(crate::specs::Names::names_fault, crate::specs::Names::filters_fault, crate::specs::Resolved::query_of))]
pub(crate) fn resolve_query(alloc: Global, path: &[u8], draft: Draft) -> Result<Query, PlanErr>
    ensures tells { Tells result (names_fault path.now draft) }
    ensures clears { Clears result (names_fault path.now draft) }
    ensures made { IfOk result (λ query. query ≡ query_of draft) }
{
    distinct_sides(alloc, path, &draft)?;
    let on = resolve_pairs(alloc, path, &draft)?;
    let (group, aggs) = resolve_row(alloc, path, &draft)?;
    let Draft {
        page_blocks,
        limit,
        quota,
        output,
        left,
        right,
        fragments,
        ..
    } = draft;
    let left = resolve_side(alloc, path, b"left", left)?;
    let right = match right {
        Some(side) => Some(resolve_side(alloc, path, b"right", side)?),
        None => None,
    };
    Ok(Query {
        page_blocks,
        limit,
        quota,
        output,
        left,
        right,
        on,
        group,
        aggs,
        fragments,
    })
}

#[tactic(auto, unfolding(crate::specs::Names::repeats_fault))]
fn distinct_sides(alloc: Global, path: &[u8], draft: &Draft) -> Result<(), PlanErr>
    ensures tells { Tells result (repeats_fault path.now draft.now) }
    ensures clears { Clears result (repeats_fault path.now draft.now) }
{
    distinct_side(alloc, path, b"left", &draft.left)?;
    match &draft.right {
        Some(side) => distinct_side(alloc, path, b"right", side),
        None => Ok(()),
    }
}

#[tactic(auto, unfolding(crate::specs::Names::side_repeats))]
fn distinct_side(alloc: Global, path: &[u8], key: &[u8], side: &SideDraft) -> Result<(), PlanErr>
    ensures tells { Tells result (side_repeats (key_in path.now key.now) side.now) }
    ensures clears { Clears result (side_repeats (key_in path.now key.now) side.now) }
{
    let at = key_in(alloc, path, key)?;
    let at = key_in(alloc, at.as_slice(), b"columns")?;
    distinct(alloc, at.as_slice(), side.columns.as_slice())
}

#[tactic(auto, unfolding(crate::specs::Names::pairs_fault))]
fn resolve_pairs(
    alloc: Global,
    path: &[u8],
    draft: &Draft,
) -> Result<Listed<(usize, usize)>, PlanErr>
    ensures tells { Tells result (pairs_fault path.now draft.now) }
    ensures clears { Clears result (pairs_fault path.now draft.now) }
    ensures made { IfOk result (λ all. all ≡ map (pair_on draft.now.left.columns (right_columns draft.now.right)) draft.now.on) }
{
    let at = key_in(alloc, path, b"on")?;
    let names = PairNames {
        path: at.as_slice(),
        left: draft.left.columns.as_slice(),
        right: columns_of_right(draft),
    };
    resolve_all(alloc, &names, draft.on.as_slice())
}

fn columns_of_right(draft: &Draft) -> &[Column]
    ensures { result.now ≡ right_columns draft.now.right }
{
    match &draft.right {
        Some(side) => side.columns.as_slice(),
        None => &[],
    }
}

#[tactic(auto, unfolding(crate::specs::Names::side_filters))]
fn resolve_side(
    alloc: Global,
    path: &[u8],
    key: &[u8],
    side: SideDraft,
) -> Result<SidePlan, PlanErr>
    ensures tells { Tells result (side_filters (key_in path.now key.now) side) }
    ensures clears { Clears result (side_filters (key_in path.now key.now) side) }
    ensures made { IfOk result (λ plan. plan ≡ side_of side) }
{
    let at = key_in(alloc, path, key)?;
    let at = key_in(alloc, at.as_slice(), b"filter")?;
    let names = FilterNames {
        path: at.as_slice(),
        columns: side.columns.as_slice(),
    };
    let preds = resolve_all(alloc, &names, side.filter.as_slice())?;
    Ok(SidePlan {
        file: side.file,
        columns: side.columns,
        preds,
    })
}

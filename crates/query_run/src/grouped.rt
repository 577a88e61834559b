// A query that groups the rows of its left input, and has no other one.

ghost use Rattle.std.specs.Prelude.{◌≡◌, ◌*◌, ◌++◌, ◌<◌, [], Some, IfErr, IfOk, IfSome, OnOk, true};
ghost use Rattle.tuple_stream.specs.Families.{slots_in};
ghost use Rattle.partition_stack.specs.Making.{MakesFew};
ghost use Rattle.partition_stack.specs.Slots.{IsWantBelow};
ghost use Rattle.partition_stack.specs.Stack.{over};
ghost use Rattle.group_op.specs.Operator.{slots_for, started};
ghost use Rattle.query_run.specs.Beginning.{BeginsGroups};
ghost use Rattle.query_run.specs.Both.{both_told};
ghost use Rattle.query_run.specs.Causes.{OfPool};
ghost use Rattle.query_run.specs.Inside.{GoesOn};
ghost use Rattle.query_run.specs.Plans.{HasGroups, IsGrouping, kinds_of_columns, row_columns, shape_of};
ghost use Rattle.query_run.specs.Run.{RanQuery, ReadAndWrote, world};
ghost use Rattle.query_run.specs.Stopped.{HasRoomFor, StoppedOver};
ghost use Rattle.query_run.specs.Through.{rows_through, taken_in};
ghost use Rattle.query_run.specs.Trail.{KeptAndRead};

use crate::client::own_client;
use crate::feeding::feed_side;
use crate::grouping::{Read, write_groups};
use group_op::{GroupOp, law_few, law_starts};
use outside::{Sink, Source};
use query_plan::{Query, QueryErr, Ran, Side, least};
use reservation_tree::PoolErr;
use row_codec::{Column, Kind, Memory};
use std::alloc::Global;
use store_api::{Client, Listed, Shape, Store};

// Runs a query without a right input, by a client of its own.
pub(crate) fn run_grouped<St: Store, S: Source, K: Sink>(
    alloc: Global,
    store: &mut St,
    plan: &Query,
    left: &mut S,
    sink: &mut K,
) -> Result<Ran, QueryErr>
    requires plan { IsGrouping plan.now }
    requires store { HasRoomFor plan.now (St.holds store.old) }
    ensures { RanQuery S.Source K.Sink St.Store plan.now (world left.old None sink.old) (world left.new None sink.new) store.old store.new result }
{
    let block_len = store.block_len();
    let page = u64::from(plan.page_blocks) * u64::from(block_len);
    let bytes = least(plan, block_len);
    let c = own_client(store, plan.limit.max(bytes), bytes);
    let mut op = match start_grouping(alloc, c, plan) {
        Ok(op) => op,
        Err(c) => {
            store.end_client(c);
            return Err(QueryErr::Pool(PoolErr::Memory));
        }
    };
    law_starts();
    let result = answer(alloc, store, &mut op, plan, page, left, sink);
    let c = op.end(store);
    store.end_client(c);
    result
}

// A grouping of the plan's shape. Where there was no memory, the client comes back.
pub(crate) fn start_grouping(alloc: Global, c: Client, plan: &Query) -> Result<GroupOp, Client>
    requires { HasGroups plan.now }
    ensures ok { IfOk result (λ op. op ≡ started c plan.now.page_blocks (shape_of plan.now)) }
    ensures err { IfErr result (λ back. back ≡ c) }
{
    let Ok(shape) = shape(alloc, plan) else {
        return Err(c);
    };
    match GroupOp::start(alloc, c, plan.page_blocks, &shape) {
        Ok(op) => Ok(op),
        Err((c, _)) => Err(c),
    }
}

// The shape of the rows that a plan groups.
fn shape(alloc: Global, plan: &Query) -> Result<Shape, Memory>
    ensures { IfOk result (λ shape. shape ≡ shape_of plan.now) }
{
    Ok(Shape {
        kinds: Listed::of(row_kinds(alloc, plan)?),
        keys: Listed::of(Vec::from_slice(alloc, plan.group.as_slice())?),
        aggs: Listed::of(Vec::from_slice(alloc, plan.aggs.as_slice())?),
    })
}

// The kinds of the row that is grouped.
fn row_kinds(alloc: Global, plan: &Query) -> Result<Vec<Kind>, Memory>
    ensures { IfOk result (λ kinds. kinds.items ≡ kinds_of_columns (row_columns plan.now)) }
{
    let mut kinds = kinds_of(alloc, plan.left.columns.as_slice())?;
    let Some(asked) = &plan.right else {
        return Ok(kinds);
    };
    push_kinds(asked.columns.as_slice(), &mut kinds)?;
    Ok(kinds)
}

// The kinds of some columns.
pub(crate) fn kinds_of(alloc: Global, columns: &[Column]) -> Result<Vec<Kind>, Memory>
    ensures { IfOk result (λ kinds. kinds.items ≡ kinds_of_columns columns.now) }
{
    let mut kinds = Vec::new(alloc);
    push_kinds(columns, &mut kinds)?;
    Ok(kinds)
}

// Adds the kinds of some columns.
fn push_kinds(columns: &[Column], kinds: &mut Vec<Kind>) -> Result<(), Memory>
    ensures { OnOk result (kinds.new.items ≡ kinds.old.items ++ kinds_of_columns columns.now) }
{
    for column in columns {
        kinds.push(column.kind)?;
    }
    Ok(())
}

// Feeds what is left of the source to a grouping that was started, and writes its answer.
fn answer<St: Store, S: Source, K: Sink>(
    alloc: Global,
    store: &mut St,
    op: &mut GroupOp,
    plan: &Query,
    page: u64,
    left: &mut S,
    sink: &mut K,
) -> Result<Ran, QueryErr>
    requires plan { IsGrouping plan.now }
    requires begins { BeginsGroups plan.now page op.old (St.holds store.old) (St.signs store.old) }
    ensures outside { ReadAndWrote S.Source K.Sink plan.now page (St.holds store.old).told
        (world left.old None sink.old) (world left.new None sink.new) result }
    ensures pool { IfErr result (StoppedOver op.old.parts.page_blocks (slots_in (over op.old.parts (St.holds store.old) (St.signs store.old))) (St.signs store.old) (St.signs store.new)) }
    ensures enough { IfErr result (OfPool (λ e. (St.holds store.old).told ≡ true → IfSome (S.remaining left.old) (λ bytes. IsWantBelow (slots_for 544 op.old (St.holds store.old) (taken_in plan.now plan.now.left page bytes)) (slots_in (over op.old.parts (St.holds store.old) (St.signs store.old))) e))) }
    ensures made { (St.holds store.old).told ≡ true → IfSome (both_told (S.remaining left.old) (Some [])) (λ both. MakesFew (16 * rows_through plan.now both) (St.signs store.old) (St.signs store.new)) }
    ensures kept { OnOk result (KeptAndRead plan.now page (S.remaining left.old) (over op.new.parts (St.holds store.new) (St.signs store.new)) (St.signs store.old).trail (St.signs store.new).trail) }
    ensures went { GoesOn op.old op.new (St.holds store.old) (St.holds store.new) (St.signs store.old) (St.signs store.new) }
{
    law_few();
    let fed = feed_side(alloc, store, op, plan, Side::Left, &plan.left, page, left)?;
    let read = Read {
        left: fed.read,
        right: 0,
        kept: fed.kept,
    };
    write_groups(alloc, store, op, plan, read, sink)
}

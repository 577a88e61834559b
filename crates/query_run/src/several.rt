// Groupings of one plan over several stores: they start, and they end.

ghost use Rattle.std.specs.Prelude.{◌≡◌, ◌≤◌, ◌<◌, ℕ, List, IfOk, OnErr, length, slice_index_or, vec_len};
ghost use Rattle.group_op.specs.Operator.{IsOperator, Operator};
ghost use Rattle.query_plan.specs.declared.plan.Query.{Query};
ghost use Rattle.query_plan.specs.Sizes.{page_len};
ghost use Rattle.query_run.specs.Beginning.{BeginsGroups};
ghost use Rattle.query_run.specs.Parallel.{MayFeed};
ghost use Rattle.query_run.specs.Plans.{IsGrouping};
ghost use Rattle.query_run.specs.Several.{AllBegin, AllGrow, AllWork, AreGivenBack, HaveEndedFrom, IsGivenBack, MayEnd, MayShare, WorksSince};
ghost use Rattle.query_run.specs.Stopped.{HasRoomFor};
ghost use Rattle.store_api.specs.Holdings.{Holdings};
ghost use Rattle.store_api.specs.Signs.{Grows, Signs};

use crate::client::own_client;
use crate::grouped::start_grouping;
use group_op::{GroupOp, law_starts};
use query_plan::{Query, least};
use row_codec::Memory;
use std::alloc::Global;
use store_api::Store;

// A grouping over a store, by a client of its own. Where there was no memory, the client has ended again.
fn start_one<St: Store>(alloc: Global, store: &mut St, plan: &Query) -> Result<GroupOp, Memory>
    requires plan { IsGrouping plan.now }
    requires store { HasRoomFor plan.now (St.holds store.old) }
    ensures works { IfOk result (λ op. WorksSince plan.now op (St.holds store.old) (St.holds store.new) (St.signs store.old) (St.signs store.new)) }
    ensures begins { IfOk result (λ op. BeginsGroups plan.now (page_len plan.now (St.holds store.new).block_len) op (St.holds store.new) (St.signs store.new)) }
    ensures blocks { IfOk result (λ op. op.parts.page_blocks ≡ plan.now.page_blocks) }
    ensures len { IfOk result (λ _. (St.holds store.new).block_len ≡ (St.holds store.old).block_len) }
    ensures err { OnErr result (IsGivenBack (St.holds store.old) (St.holds store.new) (St.signs store.old) (St.signs store.new)) }
{
    let bytes = least(plan, store.block_len());
    let c = own_client(store, plan.limit.max(bytes), bytes);
    law_starts();
    match start_grouping(alloc, c, plan) {
        Ok(op) => Ok(op),
        Err(c) => {
            store.end_client(c);
            Err(Memory)
        }
    }
}

// Ends a grouping, and then its client.
fn end_one<St: Store>(store: &mut St, op: GroupOp)
    requires { IsOperator op (St.holds store.old) (St.signs store.old) }
    ensures back { (plan : Query) (old : Holdings) (before : Signs) → WorksSince plan op old (St.holds store.old) before (St.signs store.old) → IsGivenBack old (St.holds store.new) before (St.signs store.new) }
    ensures grows { Grows (St.signs store.old) (St.signs store.new) }
{
    let c = op.end(store);
    store.end_client(c);
}

/// A grouping of the plan's rows over each of up to nine stores, by a client of its own, which has twenty pages reserved and may have as
/// much as the plan's limit. They may be fed by [`feed_parallel`](crate::feed_parallel), and end by [`end_groupings`].
///
/// # Errors
///
/// There was no memory. Then no store has a client, and each has its room again.
pub fn start_groupings<St: Store>(
    alloc: Global,
    stores: &mut [St],
    plan: &Query,
) -> Result<Vec<GroupOp>, Memory>
    requires plan { IsGrouping plan.now }
    requires stores { MayShare St.Store plan.now stores.old }
    ensures feed { IfOk result (λ ops. MayFeed St.Store plan.now stores.new ops.items) }
    ensures works { IfOk result (λ ops. AllWork St.Store plan.now stores.old stores.new ops.items) }
    ensures begins { IfOk result (λ ops. AllBegin St.Store plan.now stores.new ops.items) }
    ensures err { OnErr result (AreGivenBack St.Store stores.old stores.new) }
{
    let mut ops = Vec::new(alloc);
    if ops.reserve(stores.len()).is_err() {
        ops.destroy_empty();
        return Err(Memory);
    }
    for place in 0..stores.len() {
        match start_one(alloc, &mut stores[place], plan) {
            Ok(op) => ops.push_reserved(op),
            Err(e) => {
                end_first(stores, ops);
                return Err(e);
            }
        }
    }
    Ok(ops)
}

/// Ends groupings, each over its store, and their clients. This takes no memory. Stores over which they were started are as they were:
/// none has a client, and each has its room and its free slots.
pub fn end_groupings<St: Store>(stores: &mut [St], ops: Vec<GroupOp>)
    requires { MayEnd St.Store stores.old ops.items }
    ensures back { (plan : Query) (first : List St) → AllWork St.Store plan first stores.old ops.items → AreGivenBack St.Store first stores.new }
    ensures grow { AllGrow St.Store stores.old stores.new }
{
    end_first(stores, ops);
}

// Ends the groupings over the first stores, and their clients.
fn end_first<St: Store>(stores: &mut [St], ops: Vec<GroupOp>)
    requires few { vec_len ops ≤ length stores.old }
    requires are { (k : ℕ) (d : St) (f : Operator) → k < vec_len ops → IsOperator (slice_index_or ops.items k f) (St.holds (slice_index_or stores.old k d)) (St.signs (slice_index_or stores.old k d)) }
    ensures { HaveEndedFrom St.Store 0 stores.old stores.new ops.items }
{
    let mut ops = ops;
    while !ops.is_empty() {
        let op = ops.take_last();
        end_one(&mut stores[ops.len()], op);
    }
    ops.destroy_empty();
}

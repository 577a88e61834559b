// A query that groups, on several threads.

ghost use Rattle.std.specs.Prelude.{IfErr, List, None};
ghost use Rattle.query_plan.specs.Sizes.{page_len};
ghost use Rattle.query_run.specs.Causes.{OfPool};
ghost use Rattle.query_run.specs.Parallel.{MayFeed, RanShared};
ghost use Rattle.query_run.specs.Plans.{IsGrouping};
ghost use Rattle.query_run.specs.Run.{ReadAndWrote, world};
ghost use Rattle.query_run.specs.Several.{AllBegin, AllWork, AnsweredByOne, MayEnd, MayShare, all_tell, block_len_of};

use crate::grouping::Read;
use crate::parallel::feed_parallel;
use crate::several::{end_groupings, start_groupings};
use crate::together::write_all;
use group_op::GroupOp;
use outside::{Gate, Sink, Source};
use query_plan::{Query, QueryErr, Ran};
use reservation_tree::PoolErr;
use std::alloc::Global;
use std::sync::Wait;
use std::thread::Threads;
use store_api::Store;

/// Runs a query that groups and doesn't join, over up to nine stores, and writes its answer: what [`run_query`](crate::run_query) writes
/// over one. The caller's thread reads the rows, and each store but the first has a fragment in a thread of its own, where one can be made,
/// which feeds rows to a grouping over it. Then the groups of all go to the first store's grouping, which writes the answer.
///
/// Each store has no live client and room for twenty pages; afterwards it has no client again, and the room and the free slots that it
/// had. Rows are weighed and filtered in the order of reading, so that the first refusal is the one that a single thread answers.
///
/// # Errors
///
/// Those of [`run_query`](crate::run_query). `Pool`, where one of the stores answered so in this call, or there was no memory; nothing
/// says that slots which suffice for one store suffice for each of several. Where a row is refused and a store too, either may be
/// answered.
pub fn group_parallel<
    St: Store + Send,
    S: Source + Send,
    K: Sink,
    R: Threads + Wait + Sync,
    G: Gate,
>(
    rt: &R,
    alloc: Global,
    gate: &G,
    stores: &mut [St],
    plan: &Query,
    left: &mut S,
    sink: &mut K,
) -> Result<Ran, QueryErr>
    requires plan { IsGrouping plan.now }
    requires stores { MayShare St.Store plan.now stores.old }
    ensures { RanShared S.Source K.Sink St.Store plan.now (world left.old None sink.old) (world left.new None sink.new) stores.old stores.new result }
{
    let Ok(mut ops) = start_groupings(alloc, stores, plan) else {
        return Err(QueryErr::Pool(PoolErr::Memory));
    };
    let means = Means { rt, alloc, gate };
    let result = answer(means, stores, ops.as_mut_slice(), plan, left, sink);
    end_groupings(stores, ops);
    result
}

// By what threads run.
#[derive(Drop)]
struct Means<'m, R, G> {
    rt: &'m R,
    alloc: Global,
    gate: &'m G,
}

// Feeds what is left of the source to groupings that were started, and writes their answer.
fn answer<St: Store + Send, S: Source + Send, K: Sink, R: Threads + Wait + Sync, G: Gate>(
    means: Means<'_, R, G>,
    stores: &mut [St],
    ops: &mut [GroupOp],
    plan: &Query,
    left: &mut S,
    sink: &mut K,
) -> Result<Ran, QueryErr>
    requires plan { IsGrouping plan.now }
    requires ops { MayFeed St.Store plan.now stores.old ops.old }
    requires begins { AllBegin St.Store plan.now stores.old ops.old }
    ensures outside { ReadAndWrote S.Source K.Sink plan.now (page_len plan.now (block_len_of St.Store stores.old)) (all_tell St.Store stores.old)
        (world left.old None sink.old) (world left.new None sink.new) result }
    ensures pool { IfErr result (OfPool (AnsweredByOne St.Store stores.old stores.new)) }
    ensures ends { MayEnd St.Store stores.new ops.new }
    ensures works { (first : List St) → AllWork St.Store plan.now first stores.old ops.old → AllWork St.Store plan.now first stores.new ops.new }
{
    let Means { rt, alloc, gate } = means;
    let (read, kept) = feed_parallel(rt, alloc, gate, stores, ops, plan, left)?;
    let read = Read {
        left: read,
        right: 0,
        kept,
    };
    write_all(alloc, stores, ops, plan, read, sink)
}

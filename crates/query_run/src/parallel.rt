// The rows of one input are fed on several threads.

ghost use Rattle.std.specs.Prelude.{◌≡◌, ◌<◌, ◌^◌};
ghost use Rattle.query_plan.specs.Sizes.{page_len};
ghost use Rattle.query_run.specs.Parallel.{FedParallel, MayFeed, counts_by};
ghost use Rattle.query_run.specs.Passing.{IsOpened, input_of};
ghost use Rattle.query_run.specs.Plans.{IsGrouping};
ghost use Rattle.query_run.specs.Refused.{input_over, source};
ghost use Rattle.query_run.specs.Several.{block_len_of};

use crate::batches::{Batch, Spent};
use crate::feeding::{MOST_BYTES, MOST_RECORDS, cause_of};
use crate::passing::{PassingRows, Reads, Stage};
use crossbeam_queue::ArrayQueue;
use csv_edge::Rows;
use fragments::{Failure, deal, law_rows};
use group_op::GroupOp;
use outside::{Gate, Source};
use query_plan::{Query, QueryErr, Side};
use reservation_tree::PoolErr;
use row_codec::Value;
use std::alloc::Global;
use std::collections::LinkedList;
use std::marker::{Brand, PhantomData};
use std::sync::Wait;
use std::thread::Threads;
use store_api::Store;

// How many lists of rows wait at most to be filled again.
const SPARE: usize = 32;

const MEMORY: QueryErr = QueryErr::Pool(PoolErr::Memory);

/// Reads what is left of an input to its end, and feeds each row that passes the plan's filter to one of up to nine groupings, each over
/// its own store. The first one works in the caller's thread, where the others have enough to do; each other one works in a thread of its
/// own, where one can be made. The answer is the number of rows that were read, and of those that passed.
///
/// The groupings are of the plan's rows, and have taken whatever they have. Rows are weighed and filtered in the order of reading.
///
/// # Errors
///
/// Those of the left input, each with its place, as [`run_query`](crate::run_query) has them: the first refusal in the order of reading.
/// `Pool`, where one of the stores answered so in this call, or there was no memory. Where rows were refused and a store too, either
/// may be answered. From then on the groupings can only end.
pub fn feed_parallel<St: Store + Send, S: Source + Send, R: Threads + Wait + Sync, G: Gate>(
    rt: &R,
    alloc: Global,
    gate: &G,
    stores: &mut [St],
    ops: &mut [GroupOp],
    plan: &Query,
    left: &mut S,
) -> Result<(u64, u64), QueryErr>
    requires plan { IsGrouping plan.now }
    requires ops { MayFeed St.Store plan.now stores.old ops.old }
    ensures { FedParallel St.Store plan.now (input_over S.Source left.old left.new) result stores.old stores.new ops.old ops.new }
{
    let Ok(spent) = ArrayQueue::new(alloc, SPARE) else {
        return Err(MEMORY);
    };
    let page = u64::from(plan.page_blocks) * u64::from(stores[0].block_len());
    let shared = Shared {
        rt,
        alloc,
        gate,
        spent: &spent,
    };
    feed_all::<Brand, St, S, R, G>(shared, stores, ops, plan, page, left)
}

// What those that are fed share.
#[derive(Drop)]
struct Shared<'q, R, G> {
    rt: &'q R,
    alloc: Global,
    gate: &'q G,
    spent: &'q Spent,
}

// Feeds what is left of an input.
fn feed_all<B: Reads + Send, St: Store + Send, S: Source + Send, R: Threads + Wait + Sync, G: Gate>(
    shared: Shared<'_, R, G>,
    stores: &mut [St],
    ops: &mut [GroupOp],
    plan: &Query,
    page: u64,
    left: &mut S,
) -> Result<(u64, u64), QueryErr>
    requires plan { IsGrouping plan.now }
    requires ops { MayFeed St.Store plan.now stores.old ops.old }
    requires input { B.input ≡ input_of S.Source plan.now page left.old }
    requires page { page ≡ page_len plan.now (block_len_of St.Store stores.old) }
    requires short { page < 2 ^ 32 }
    ensures { FedParallel St.Store plan.now (input_over S.Source left.old left.new) result stores.old stores.new ops.old ops.new }
{
    let mut rows = Rows::of(left);
    let columns = plan.left.columns.as_slice();
    if let Err(e) = rows.start(shared.alloc, columns, MOST_RECORDS, MOST_BYTES) {
        return Err(cause_of(Side::Left, e));
    }
    let (result, rows) = feed_rows::<B, St, S, R, G>(shared, stores, ops, plan, page, rows);
    let _left = rows.into_source();
    result
}

// Feeds the rows of an input that was opened. It comes back.
fn feed_rows<
    'a,
    B: Reads + Send,
    St: Store + Send,
    S: Source + Send,
    R: Threads + Wait + Sync,
    G: Gate,
>(
    shared: Shared<'_, R, G>,
    stores: &mut [St],
    ops: &mut [GroupOp],
    plan: &Query,
    page: u64,
    rows: Rows<'a, S>,
) -> (Result<(u64, u64), QueryErr>, Rows<'a, S>)
    requires plan { IsGrouping plan.now }
    requires ops { MayFeed St.Store plan.now stores.old ops.old }
    requires input { (B.input.plan ≡ plan.now) × (B.input.page ≡ page) }
    requires page { page ≡ page_len plan.now (block_len_of St.Store stores.old) }
    requires short { page < 2 ^ 32 }
    requires opened { IsOpened S.Source B.input rows }
    ensures fed { FedParallel St.Store plan.now (source B.input.told (S.remaining result.1.src.now) B.input.faults (S.faults result.1.src.now)) result.0
        stores.old stores.new ops.old ops.new }
    ensures same { result.1.src.ghost_name ≡ rows.entry.src.ghost_name }
{
    law_rows::<Batch<R>, LinkedList<Value>>();
    let Shared {
        rt,
        alloc,
        gate,
        spent,
    } = shared;
    let mut giver = PassingRows::<S, R, B> {
        rows,
        plan,
        page,
        read: 0,
        kept: 0,
        stage: Stage::Reading,
        alloc,
        rt,
        spent,
        of: PhantomData,
    };
    let dealt = deal::<Batch<R>, Brand, St, PoolErr, GroupOp, QueryErr, PassingRows<S, R, B>, R, G>(
        rt, alloc, gate, &mut giver, ops, stores,
    );
    let PassingRows {
        rows,
        plan: _,
        page: _,
        read,
        kept,
        stage: _,
        alloc: _,
        rt: _,
        spent: _,
        of: _,
    } = giver;
    (counts_of(dealt, read, kept), rows)
}

// How many rows were read and passed, where all were dealt; or what stopped that.
fn counts_of(
    dealt: Result<(), Failure<QueryErr, PoolErr>>,
    read: u64,
    kept: u64,
) -> Result<(u64, u64), QueryErr>
    ensures { result ≡ counts_by dealt read kept }
{
    match dealt {
        Ok(()) => Ok((read, kept)),
        Err(Failure::Memory) => Err(MEMORY),
        Err(Failure::Reading(e)) => Err(e),
        Err(Failure::Feeding(e)) => Err(QueryErr::Pool(e)),
    }
}

// What groupings over several stores hold becomes one answer.

ghost use Rattle.query_run.specs.Parallel.{MayFeed};
ghost use Rattle.query_run.specs.Plans.{HasGroups};
ghost use Rattle.query_run.specs.Together.{WroteAll};

use crate::gathering::gather;
use crate::grouping::{Read, write_groups};
use group_op::GroupOp;
use outside::Sink;
use query_plan::{Query, QueryErr, Ran};
use std::alloc::Global;
use store_api::Store;

// The groups of all go to the first of them, which writes the answer.
pub(crate) fn write_all<St: Store, K: Sink>(
    alloc: Global,
    stores: &mut [St],
    ops: &mut [GroupOp],
    plan: &Query,
    read: Read,
    sink: &mut K,
) -> Result<Ran, QueryErr>
    requires plan { HasGroups plan.now }
    requires ops { MayFeed St.Store plan.now stores.old ops.old }
    ensures { WroteAll K.Sink St.Store plan.now read sink.old sink.new result stores.old stores.new ops.old ops.new }
{
    let (first, others) = ops.split_at_mut(1);
    let (first_store, beside) = stores.split_at_mut(1);
    let op = &mut first[0];
    let store = &mut first_store[0];
    if let Err(e) = gather(alloc, beside, others, op, store) {
        return Err(QueryErr::Pool(e));
    }
    write_groups(alloc, store, op, plan, read, sink)
}

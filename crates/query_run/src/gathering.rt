// What the groupings over several stores hold goes to one of them.

ghost use Rattle.std.specs.Prelude.{IfErr, OnOk};
ghost use Rattle.query_run.specs.Gathering.{AllHandedOver, AnsweredBeside, LeftAll, MayGather, WentOn};

use group_op::GroupOp;
use reservation_tree::PoolErr;
use std::alloc::Global;
use store_api::Store;

// The groups of each of some groupings, over its store, go to one more, beside its own.
pub(crate) fn gather<St: Store>(
    alloc: Global,
    stores: &mut [St],
    ops: &mut [GroupOp],
    into: &mut GroupOp,
    beside: &mut St,
) -> Result<(), PoolErr>
    requires { MayGather St.Store stores.old ops.old beside.old into.old }
    ensures ok { OnOk result (AllHandedOver St.Store stores.old ops.old beside.old into.old beside.new into.new) }
    ensures into { WentOn St.Store beside.old into.old beside.new into.new }
    ensures others { LeftAll St.Store stores.old ops.old stores.new ops.new }
    ensures cause { IfErr result (AnsweredBeside St.Store stores.old stores.new beside.old beside.new) }
{
    for place in 0..ops.len() {
        ops[place].hand_over(alloc, &mut stores[place], into, beside)?;
    }
    Ok(())
}

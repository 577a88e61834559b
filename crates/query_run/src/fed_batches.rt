// A grouping takes batches of rows.

ghost use Rattle.std.specs.Prelude.{◌≡◌, ◌≤◌, ◌*◌, ◌++◌, All, IfErr, OnOk, length};
ghost use Rattle.std.specs.List.{flat_map};
ghost use Rattle.group_op.specs.Operator.{page_of};
ghost use Rattle.query_run.specs.Batches.{MayBeFed, first_rows, rows_in};
ghost use Rattle.query_run.specs.Feeding.{MayBeTaken};
ghost use Rattle.query_run.specs.Taking.{GroupFeeds, GroupGoes, GroupStands, GroupStops};

use crate::batches::Batch;
use crate::takes::Takes;
use fragments::Feeder;
use group_op::GroupOp;
use reservation_tree::PoolErr;
use row_codec::Value;
use std::alloc::Global;
use std::sync::Wait;
use store_api::Store;

impl<'q, St: Store, R: Wait> Feeder<Batch<'q, R>, St, PoolErr> for GroupOp {
    ghost ready = { λ op store. GroupStands op (St.holds store) (St.signs store) };

    ghost admits = { λ op store batch. MayBeFed op.shape.kinds (16 * length op.shape.aggs) (page_of op (St.holds store)) batch };

    ghost took = { λ a store b after batches. GroupFeeds a b (flat_map rows_in batches) (St.holds store) (St.holds after) (St.signs store) (St.signs after) };

    ghost went = { λ a store b after. GroupGoes a b (St.holds store) (St.holds after) (St.signs store) (St.signs after) };

    ghost stops = { λ a store after e. GroupStops a (St.holds store) (St.signs store) (St.signs after) e };

    fn take(&mut self, beside: &mut St, item: Batch<'q, R>) -> Result<(), PoolErr> {
        let fed = feed_rows(item.alloc, beside, self, item.rows.as_slice(), item.len);
        item.give_back();
        fed
    }
}

// Feeds the first ones of some rows.
fn feed_rows<St: Store>(
    alloc: Global,
    store: &mut St,
    op: &mut GroupOp,
    rows: &[Vec<Value>],
    len: usize,
) -> Result<(), PoolErr>
    requires stands { GroupStands op.old (St.holds store.old) (St.signs store.old) }
    requires has { len ≤ length rows.now }
    requires rows { All (MayBeTaken op.old.shape.kinds (16 * length op.old.shape.aggs) (page_of op.old (St.holds store.old))) (first_rows len rows.now) }
    ensures ok { OnOk result (GroupFeeds op.old op.new (first_rows len rows.now) (St.holds store.old) (St.holds store.new) (St.signs store.old) (St.signs store.new)) }
    ensures stands { GroupStands op.new (St.holds store.new) (St.signs store.new) }
    ensures goes { GroupGoes op.old op.new (St.holds store.old) (St.holds store.new) (St.signs store.old) (St.signs store.new) }
    ensures cause { IfErr result (GroupStops op.old (St.holds store.old) (St.signs store.old) (St.signs store.new)) }
{
    for place in 0..len {
        Takes::take(op, alloc, store, rows[place].as_slice())?;
    }
    Ok(())
}

// A query that joins the rows of its two inputs.

ghost use Rattle.std.specs.Prelude.{◌≡◌, ◌≢◌, ◌*◌, ◌≤◌, ◌<◌, [], Some, IfErr, IfOk, IfSome, OnOk, false, length, true};
ghost use Rattle.std.specs.Io.KnownBytes.{IsAtEnd};
ghost use Rattle.partition_stack.specs.Leaving.{LeavesOthers};
ghost use Rattle.partition_stack.specs.Making.{MakesFew};
ghost use Rattle.partition_stack.specs.Slots.{IsWantBelow};
ghost use Rattle.partition_stack.specs.Stack.{over};
ghost use Rattle.join_op.specs.Operator.{IsOperator, Keeps, slots_for, started};
ghost use Rattle.query_plan.specs.Sizes.{groups, joins};
ghost use Rattle.query_run.specs.Beginning.{BeginsJoin};
ghost use Rattle.query_run.specs.Both.{both_told, passing_of_both};
ghost use Rattle.query_run.specs.Causes.{OfPool};
ghost use Rattle.query_run.specs.Joined.{HasFedBoth, KeptBoth};
ghost use Rattle.query_run.specs.Plans.{IsRunnable, join_shape_of};
ghost use Rattle.query_run.specs.Refused.{SaysOfInputs, input_over};
ghost use Rattle.query_run.specs.Run.{RanQuery, ReadAndWrote, world};
ghost use Rattle.query_run.specs.Stopped.{HasRoomFor, StoppedOver};
ghost use Rattle.query_run.specs.Taking.{JoinGoes, JoinStands, join_slots};
ghost use Rattle.query_run.specs.Through.{lefts_taken, rights_taken, rows_through};

use crate::client::own_client;
use crate::feeding::{Fed, feed_side};
use crate::grouped::kinds_of;
use crate::pairs::write_pairs;
use crate::takes::{Lefts, Rights};
use join_op::{JoinOp, law_starts};
use outside::{Sink, Source};
use query_plan::{Query, QueryErr, Ran, Side, SidePlan, least};
use reservation_tree::PoolErr;
use row_codec::Memory;
use std::alloc::Global;
use store_api::{Client, JoinShape, Listed, Store};

// What was read of both sides, and fed.
#[derive(Clone, Copy)]
pub(crate) struct BothFed {
    pub(crate) left: Fed,
    pub(crate) right: Fed,
}

// Runs a query that joins and doesn't group, by a client of its own.
pub(crate) fn run_joined<St: Store, S: Source, K: Sink>(
    alloc: Global,
    store: &mut St,
    plan: &Query,
    left: &mut S,
    right: &mut S,
    sink: &mut K,
) -> Result<Ran, QueryErr>
    requires plan { IsRunnable plan.now }
    requires joins { joins plan.now ≡ true }
    requires groups { groups plan.now ≡ false }
    requires store { HasRoomFor plan.now (St.holds store.old) }
    ensures { RanQuery S.Source K.Sink St.Store plan.now (world left.old (Some right.old) sink.old)
        (world left.new (Some right.new) sink.new) store.old store.new result }
{
    let Some(asked) = &plan.right else {
        unreachable!();
    };
    let block_len = store.block_len();
    let page = u64::from(plan.page_blocks) * u64::from(block_len);
    let bytes = least(plan, block_len);
    let c = own_client(store, plan.limit.max(bytes), bytes);
    let op = match start(alloc, c, plan, asked) {
        Ok(op) => op,
        Err(c) => {
            store.end_client(c);
            return Err(QueryErr::Pool(PoolErr::Memory));
        }
    };
    law_starts();
    let (result, op) = answer(alloc, store, op, plan, asked, page, left, right, sink);
    let c = op.end(store);
    store.end_client(c);
    result
}

// A join of the plan's sides. Where there was no memory, the client comes back.
pub(crate) fn start(
    alloc: Global,
    c: Client,
    plan: &Query,
    asked: &SidePlan,
) -> Result<JoinOp, Client>
    requires plan { IsRunnable plan.now }
    requires right { plan.now.right ≡ Some asked.now }
    ensures ok { IfOk result (λ op. op ≡ started c plan.now.page_blocks (join_shape_of plan.now asked.now)) }
    ensures err { IfErr result (λ back. back ≡ c) }
{
    let Ok(shape) = shape(alloc, plan, asked) else {
        return Err(c);
    };
    match JoinOp::start(alloc, c, plan.page_blocks, &shape) {
        Ok(op) => Ok(op),
        Err((c, _)) => Err(c),
    }
}

// The shape of the rows that a plan joins.
fn shape(alloc: Global, plan: &Query, asked: &SidePlan) -> Result<JoinShape, Memory>
    ensures { IfOk result (λ shape. shape ≡ join_shape_of plan.now asked.now) }
{
    Ok(JoinShape {
        left: Listed::of(kinds_of(alloc, plan.left.columns.as_slice())?),
        right: Listed::of(kinds_of(alloc, asked.columns.as_slice())?),
        on: Listed::of(Vec::from_slice(alloc, plan.on.as_slice())?),
    })
}

// Feeds what is left of both sources to a join that was started, and writes its answer.
fn answer<St: Store, S: Source, K: Sink>(
    alloc: Global,
    store: &mut St,
    op: JoinOp,
    plan: &Query,
    asked: &SidePlan,
    page: u64,
    left: &mut S,
    right: &mut S,
    sink: &mut K,
) -> (Result<Ran, QueryErr>, JoinOp)
    requires plan { IsRunnable plan.now }
    requires right { plan.now.right ≡ Some asked.now }
    requires groups { groups plan.now ≡ false }
    requires begins { BeginsJoin plan.now asked.now page op (St.holds store.old) (St.signs store.old) }
    ensures outside { ReadAndWrote S.Source K.Sink plan.now page (St.holds store.old).told
        (world left.old (Some right.old) sink.old) (world left.new (Some right.new) sink.new) result.0 }
    ensures pool { IfErr result.0 (StoppedOver op.left.page_blocks (join_slots op (St.holds store.old) (St.signs store.old)) (St.signs store.old) (St.signs store.new)) }
    ensures enough { IfErr result.0 (OfPool (λ e. (St.holds store.old).told ≡ true → IfSome (both_told (S.remaining left.old) (S.remaining right.old)) (λ both. IsWantBelow (slots_for op (St.holds store.old) (lefts_taken plan.now page both) (rights_taken plan.now page both)) (join_slots op (St.holds store.old) (St.signs store.old)) e))) }
    ensures made { (St.holds store.old).told ≡ true → IfSome (both_told (S.remaining left.old) (S.remaining right.old)) (λ both. MakesFew (16 * rows_through plan.now both) (St.signs store.old) (St.signs store.new)) }
    ensures kept { OnOk result.0 (KeptBoth plan.now asked.now page (S.remaining left.old) (S.remaining right.old) (over result.1.left (St.holds store.new) (St.signs store.new)) (over result.1.right (St.holds store.new) (St.signs store.new)) (St.signs store.old).trail (St.signs store.new).trail) }
    ensures op { IsOperator result.1 (St.holds store.new) (St.signs store.new) × (result.1.client ≡ op.client) }
    ensures leaves { LeavesOthers op.client.tracker (St.holds store.old) (St.holds store.new) (St.signs store.old) (St.signs store.new) }
    ensures slots { join_slots result.1 (St.holds store.new) (St.signs store.new) ≡ join_slots op (St.holds store.old) (St.signs store.old) }
{
    let (fed, mut op) = feed_both(alloc, store, op, plan, asked, page, left, right);
    let fed = match fed {
        Ok(fed) => fed,
        Err(e) => return (Err(e), op),
    };
    let result = write_pairs(alloc, store, &mut op, plan, asked, fed, sink);
    (result, op)
}

// Feeds what is left of both sources to a join, the left one first.
pub(crate) fn feed_both<St: Store, S: Source>(
    alloc: Global,
    store: &mut St,
    op: JoinOp,
    plan: &Query,
    asked: &SidePlan,
    page: u64,
    left: &mut S,
    right: &mut S,
) -> (Result<BothFed, QueryErr>, JoinOp)
    requires plan { IsRunnable plan.now }
    requires right { plan.now.right ≡ Some asked.now }
    requires begins { BeginsJoin plan.now asked.now page op (St.holds store.old) (St.signs store.old) }
    ensures ok { IfOk result.0 (λ fed. HasFedBoth plan.now asked.now page (S.remaining left.old) (S.remaining right.old) fed.left fed.right (λ lefts rights. Keeps (St.signs store.old).trail lefts rights result.1 (St.holds store.new) (St.signs store.new))) }
    ensures read { OnOk result.0 (IsAtEnd (S.remaining left.new) × IsAtEnd (S.remaining right.new)) }
    ensures input { IfErr result.0 (SaysOfInputs plan.now page (input_over S.Source left.old left.new) (input_over S.Source right.old right.new)) }
    ensures cause { IfErr result.0 (λ e. e ≢ QueryErr.SinkFault) }
    ensures pool { IfErr result.0 (StoppedOver op.left.page_blocks (join_slots op (St.holds store.old) (St.signs store.old)) (St.signs store.old) (St.signs store.new)) }
    ensures enough { IfErr result.0 (OfPool (λ e. IfSome (both_told (S.remaining left.old) (S.remaining right.old)) (λ both. IsWantBelow (slots_for op (St.holds store.old) (lefts_taken plan.now page both) (rights_taken plan.now page both)) (join_slots op (St.holds store.old) (St.signs store.old)) e))) }
    ensures made { IfSome (both_told (S.remaining left.old) (S.remaining right.old)) (λ both. MakesFew (length (passing_of_both plan.now both)) (St.signs store.old) (St.signs store.new)) }
    ensures stands { JoinStands result.1 (St.holds store.new) (St.signs store.new) }
    ensures goes { JoinGoes op result.1 (St.holds store.old) (St.holds store.new) (St.signs store.old) (St.signs store.new) }
    ensures sources_kept { (S.faults left.old ≤ S.faults left.new) × (S.faults right.old ≤ S.faults right.new) }
{
    let mut lefts = Lefts { op };
    let fed = feed_side(
        alloc,
        store,
        &mut lefts,
        plan,
        Side::Left,
        &plan.left,
        page,
        left,
    );
    let Lefts { op } = lefts;
    let first = match fed {
        Ok(fed) => fed,
        Err(e) => return (Err(e), op),
    };
    let mut rights = Rights { op };
    let fed = feed_side(
        alloc,
        store,
        &mut rights,
        plan,
        Side::Right,
        asked,
        page,
        right,
    );
    let Rights { op } = rights;
    match fed {
        Ok(fed) => (
            Ok(BothFed {
                left: first,
                right: fed,
            }),
            op,
        ),
        Err(e) => (Err(e), op),
    }
}

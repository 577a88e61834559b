// A query that joins the rows of its two inputs, and groups their pairs.

ghost use Rattle.std.specs.Prelude.{◌≡◌, ◌≢◌, ◌+◌, ◌*◌, ◌++◌, ◌<◌, ◌^◌, [], IfErr, IfOk, IfSome, IsErrOf, None, OnErr, OnOk, Some, length, true};
ghost use Rattle.std.specs.Io.KnownBytes.{Appends};
ghost use Rattle.outside.specs.Sinks.{StopsAt};
ghost use Rattle.csv_edge.specs.Written.{AppendsFront};
ghost use Rattle.store_api.specs.Holdings.{length_of};
ghost use Rattle.tuple_stream.specs.Families.{slots_in};
ghost use Rattle.tuple_stream.specs.Trails.{EnteredEvents};
ghost use Rattle.partition_stack.specs.Leaving.{MayStart};
ghost use Rattle.partition_stack.specs.Making.{MakesBeside, MakesFew};
ghost use Rattle.partition_stack.specs.Slots.{IsWant, IsWantBelow};
ghost use Rattle.partition_stack.specs.Stack.{over};
ghost use Rattle.group_op.specs.Making.{pages_on};
ghost use Rattle.group_op.specs.Operator as group;
ghost use Rattle.join_op.specs.Operator.{IsFeeding, IsOperator, Keeps};
ghost use Rattle.join_op.specs.Pairs.{pairs_of};
ghost use Rattle.query_plan.specs.Sizes.{groups, joins};
ghost use Rattle.query_run.specs.Answer.{LineNumbers, answer_text, group_rows};
ghost use Rattle.query_run.specs.Both.{both_told};
ghost use Rattle.query_run.specs.Causes.{OfPool, side_of};
ghost use Rattle.query_run.specs.Feeder.{HasStopped};
ghost use Rattle.query_run.specs.Inside.{HasEndedFirst, IsFedFor, IsOfStore, OfSides, OfSidesTold, slots_of_both};
ghost use Rattle.query_run.specs.Joined.{HoldsRowsWhile};
ghost use Rattle.query_run.specs.Plans.{HasGroups, IsRunnable, grouping_of, join_shape_of, shape_of};
ghost use Rattle.query_run.specs.Run.{RanQuery, ReadAndWrote, world};
ghost use Rattle.query_run.specs.Stopped.{CountsSink, HasRoomFor, StoppedOver};
ghost use Rattle.query_run.specs.Taking.{LeftStands, join_slots};
ghost use Rattle.query_run.specs.Through.{lefts_taken, pairs_taken, rights_taken, rows_through};
ghost use Rattle.query_run.specs.Trail.{HoldsRows, KeptSides};
ghost use Rattle.query_run.specs.Writing.{HoldsFor};

use crate::client::own_client;
use crate::feeder::{Feeder, Whose, hand_pairs, into_grouping};
use crate::grouped::start_grouping;
use crate::grouping::{Read, write_groups};
use crate::joined::{feed_both, start};
use group_op::{GroupOp, law_asks_own, law_few, law_starts};
use join_op::JoinOp;
use outside::{Sink, Source};
use query_plan::{Query, QueryErr, Ran, SidePlan, least};
use reservation_tree::PoolErr;
use std::alloc::Global;
use std::marker::Brand;
use store_api::{Client, Store};

// The pairs of a join that was fed go to a grouping of the second client; the join ends, and the first client.
fn join_into<B: Whose, St: Store>(
    alloc: Global,
    store: &mut St,
    join: JoinOp,
    second: Client,
    plan: &Query,
    page: u64,
) -> Result<GroupOp, (QueryErr, Client)>
    requires plan { HasGroups plan.now }
    requires whose { (B.client ≡ second) × (B.shape ≡ shape_of plan.now) × (B.blocks ≡ plan.now.page_blocks) }
    requires op { IsOperator join (St.holds store.old) (St.signs store.old) }
    requires feeding { IsFeeding join }
    requires second { MayStart second plan.now.page_blocks (St.holds store.old) }
    requires apart { second.tracker ≢ join.client.tracker }
    requires kinds { (shape_of plan.now).kinds ≡ join.shape.left ++ join.shape.right }
    requires page { (page ≡ length_of plan.now.page_blocks (St.holds store.old)) × (page < 2 ^ 32) }
    requires long { 0 < (St.holds store.old).block_len }
    requires blocks { join.left.page_blocks ≡ plan.now.page_blocks }
    ensures ok { IfOk result (λ op. IsFedFor second plan.now op (St.holds store.new) (St.signs store.new)) }
    ensures holds { IfOk result (λ op. OfSidesTold St.Store join store.old
        (λ lefts rights. HoldsFor (pairs_of join.shape lefts rights) op (St.holds store.new) (St.signs store.new))) }
    ensures kept { IfOk result (λ op. OfSides St.Store join store.old
        (λ start lefts rights. EnteredEvents (HoldsRowsWhile (op ≡ group.started second plan.now.page_blocks (shape_of plan.now)) join.shape lefts rights) start (St.signs store.new).trail)) }
    ensures made { IfOk result (λ op. OfSidesTold St.Store join store.old
        (λ lefts rights. MakesBeside (15 * (length lefts + length rights)) 0 (pages_on op) (St.signs store.old) (St.signs store.new))) }
    ensures few { OnErr result (OfSidesTold St.Store join store.old
        (λ lefts rights. MakesFew (15 * (length lefts + length rights) + length (pairs_of join.shape lefts rights)) (St.signs store.old) (St.signs store.new))) }
    ensures err { IfErr result (λ e. HasStopped second e.1 (St.holds store.new)) }
    ensures cause { IfErr result (λ e. IsOfStore e.0 (St.signs store.old) (St.signs store.new)) }
    ensures want { IfErr result (λ e. OfPool (IsWant plan.now.page_blocks (join_slots join (St.holds store.old) (St.signs store.old))) e.0) }
    ensures enough { IfErr result (λ e. OfPool (λ e. OfSidesTold St.Store join store.old
        (λ lefts rights. IsWantBelow (slots_of_both plan.now page lefts rights (pairs_of join.shape lefts rights)) (join_slots join (St.holds store.old) (St.signs store.old)) e)) e.0) }
    ensures slots { IfOk result (λ op. slots_in (over op.parts (St.holds store.new) (St.signs store.new)) ≡ join_slots join (St.holds store.old) (St.signs store.old)) }
    ensures free { OnErr result ((St.holds store.new).free_slots ≡ join_slots join (St.holds store.old) (St.signs store.old)) }
    ensures gone { HasEndedFirst join.client.tracker second.tracker (St.holds store.old) (St.holds store.new) (St.signs store.old) (St.signs store.new) }
{
    let mut join = join;
    let feeder = match start_grouping(alloc, second, plan) {
        Ok(op) => Feeder::with(alloc, op, plan, page),
        Err(second) => {
            let first = join.end(store);
            store.end_client(first);
            return Err((QueryErr::Pool(PoolErr::Memory), second));
        }
    };
    law_starts();
    law_asks_own();
    law_few();
    let (handed, feeder) = hand_pairs::<B, St>(alloc, store, &mut join, feeder);
    let first = join.end(store);
    store.end_client(first);
    into_grouping::<B, St>(store, feeder, handed)
}

// Writes the answer over the pairs of a join that was fed, by a grouping of the second client. The join ends, and the first
// client; the second one comes back.
fn write_both<St: Store, K: Sink>(
    alloc: Global,
    store: &mut St,
    join: JoinOp,
    second: Client,
    plan: &Query,
    page: u64,
    read: Read,
    sink: &mut K,
) -> (Result<Ran, QueryErr>, Client)
    requires plan { HasGroups plan.now }
    requires op { IsOperator join (St.holds store.old) (St.signs store.old) }
    requires feeding { IsFeeding join }
    requires second { MayStart second plan.now.page_blocks (St.holds store.old) }
    requires apart { second.tracker ≢ join.client.tracker }
    requires kinds { (shape_of plan.now).kinds ≡ join.shape.left ++ join.shape.right }
    requires page { (page ≡ length_of plan.now.page_blocks (St.holds store.old)) × (page < 2 ^ 32) }
    requires long { 0 < (St.holds store.old).block_len }
    requires blocks { join.left.page_blocks ≡ plan.now.page_blocks }
    ensures ok { OnOk result.0 (OfSidesTold St.Store join store.old
        (λ lefts rights. Appends (K.contents sink.old) (K.contents sink.new) (answer_text plan.now (group_rows (grouping_of plan.now) (pairs_of join.shape lefts rights))))) }
    ensures err { OnErr result.0 (OfSidesTold St.Store join store.old
        (λ lefts rights. AppendsFront (K.contents sink.old) (K.contents sink.new) (answer_text plan.now (group_rows (grouping_of plan.now) (pairs_of join.shape lefts rights))))) }
    ensures read { IfOk result.0 (λ ran. (ran.left ≡ read.left) × (ran.right ≡ read.right) × (ran.kept ≡ read.kept)) }
    ensures lines { IfOk result.0 (λ ran. OfSidesTold St.Store join store.old (λ lefts rights. LineNumbers plan.now (pairs_of join.shape lefts rights) ran)) }
    ensures kept { OnOk result.0 (OfSides St.Store join store.old
        (λ start lefts rights. EnteredEvents (HoldsRows join.shape lefts rights) start (St.signs store.new).trail)) }
    ensures made { OfSidesTold St.Store join store.old
        (λ lefts rights. MakesFew (15 * (length lefts + length rights) + 16 * length (pairs_of join.shape lefts rights)) (St.signs store.old) (St.signs store.new)) }
    ensures cause { IfErr result.0 (λ e. side_of e ≡ None) }
    ensures pool { IfErr result.0 (StoppedOver plan.now.page_blocks (join_slots join (St.holds store.old) (St.signs store.old)) (St.signs store.old) (St.signs store.new)) }
    ensures enough { IfErr result.0 (OfPool (λ e. OfSidesTold St.Store join store.old
        (λ lefts rights. IsWantBelow (slots_of_both plan.now page lefts rights (pairs_of join.shape lefts rights)) (join_slots join (St.holds store.old) (St.signs store.old)) e))) }
    ensures free { (St.holds store.new).free_slots ≡ join_slots join (St.holds store.old) (St.signs store.old) }
    ensures sink { CountsSink (IsErrOf result.0 QueryErr.SinkFault) (K.faults sink.old) (K.faults sink.new) }
    ensures stops { StopsAt (IsErrOf result.0 QueryErr.SinkFault) (K.at_failure sink.old) (K.at_failure sink.new) (K.contents sink.new) }
    ensures second { HasStopped second result.1 (St.holds store.new) }
    ensures gone { HasEndedFirst join.client.tracker second.tracker (St.holds store.old) (St.holds store.new) (St.signs store.old) (St.signs store.new) }
{
    law_few();
    let mut op = match join_into::<Brand, St>(alloc, store, join, second, plan, page) {
        Ok(op) => op,
        Err((why, second)) => return (Err(why), second),
    };
    let result = write_groups(alloc, store, &mut op, plan, read, sink);
    let second = op.end(store);
    (result, second)
}

// Feeds what is left of both sources to a join that was started, and writes the answer by a grouping of the second client. The
// join ends, and the first client; the second one comes back.
fn answer<St: Store, S: Source, K: Sink>(
    alloc: Global,
    store: &mut St,
    join: JoinOp,
    second: Client,
    plan: &Query,
    asked: &SidePlan,
    page: u64,
    left: &mut S,
    right: &mut S,
    sink: &mut K,
) -> (Result<Ran, QueryErr>, Client)
    requires plan { IsRunnable plan.now }
    requires right { plan.now.right ≡ Some asked.now }
    requires groups { groups plan.now ≡ true }
    requires stands { LeftStands join (St.holds store.old) (St.signs store.old) }
    requires started { (join.shape ≡ join_shape_of plan.now asked.now) × (join.left.page_blocks ≡ plan.now.page_blocks) }
    requires keeps { Keeps (St.signs store.old).trail [] [] join (St.holds store.old) (St.signs store.old) }
    requires second { MayStart second plan.now.page_blocks (St.holds store.old) }
    requires apart { second.tracker ≢ join.client.tracker }
    requires page { (page ≡ length_of plan.now.page_blocks (St.holds store.old)) × (page < 2 ^ 32) }
    requires long { 0 < (St.holds store.old).block_len }
    ensures outside { ReadAndWrote S.Source K.Sink plan.now page (St.holds store.old).told
        (world left.old (Some right.old) sink.old) (world left.new (Some right.new) sink.new) result.0 }
    ensures pool { IfErr result.0 (StoppedOver plan.now.page_blocks (join_slots join (St.holds store.old) (St.signs store.old)) (St.signs store.old) (St.signs store.new)) }
    ensures enough { IfErr result.0 (OfPool (λ e. (St.holds store.old).told ≡ true → IfSome (both_told (S.remaining left.old) (S.remaining right.old)) (λ both. IsWantBelow (slots_of_both plan.now page (lefts_taken plan.now page both) (rights_taken plan.now page both) (pairs_taken plan.now page both)) (join_slots join (St.holds store.old) (St.signs store.old)) e))) }
    ensures free { (St.holds store.new).free_slots ≡ join_slots join (St.holds store.old) (St.signs store.old) }
    ensures made { (St.holds store.old).told ≡ true → IfSome (both_told (S.remaining left.old) (S.remaining right.old)) (λ both. MakesFew (16 * rows_through plan.now both) (St.signs store.old) (St.signs store.new)) }
    ensures kept { OnOk result.0 (KeptSides plan.now asked.now page (S.remaining left.old) (S.remaining right.old) (St.signs store.old).trail (St.signs store.new).trail) }
    ensures clients { HasStopped second result.1 (St.holds store.new) × HasEndedFirst join.client.tracker second.tracker (St.holds store.old) (St.holds store.new) (St.signs store.old) (St.signs store.new) }
{
    let (fed, join) = feed_both(alloc, store, join, plan, asked, page, left, right);
    let fed = match fed {
        Ok(fed) => fed,
        Err(e) => {
            let first = join.end(store);
            store.end_client(first);
            return (Err(e), second);
        }
    };
    let read = Read {
        left: fed.left.read,
        right: fed.right.read,
        kept: fed.left.kept + fed.right.kept,
    };
    write_both(alloc, store, join, second, plan, page, read, sink)
}

// Runs a query that joins and groups, by a client for each of its operators.
pub(crate) fn run_both<St: Store, S: Source, K: Sink>(
    alloc: Global,
    store: &mut St,
    plan: &Query,
    left: &mut S,
    right: &mut S,
    sink: &mut K,
) -> Result<Ran, QueryErr>
    requires plan { IsRunnable plan.now }
    requires joins { joins plan.now ≡ true }
    requires groups { groups plan.now ≡ true }
    requires store { HasRoomFor plan.now (St.holds store.old) }
    ensures { RanQuery S.Source K.Sink St.Store plan.now (world left.old (Some right.old) sink.old)
        (world left.new (Some right.new) sink.new) store.old store.new result }
{
    let Some(asked) = &plan.right else {
        unreachable!();
    };
    let block_len = store.block_len();
    let page = u64::from(plan.page_blocks) * u64::from(block_len);
    let bytes = least(plan, block_len);
    let limit = plan.limit.max(bytes);
    let first = own_client(store, limit, bytes / 2);
    let second = own_client(store, limit, bytes / 2);
    let join = match start(alloc, first, plan, asked) {
        Ok(join) => join,
        Err(first) => {
            store.end_client(first);
            store.end_client(second);
            return Err(QueryErr::Pool(PoolErr::Memory));
        }
    };
    join_op::law_starts();
    let (result, second) = answer(
        alloc, store, join, second, plan, asked, page, left, right, sink,
    );
    store.end_client(second);
    result
}

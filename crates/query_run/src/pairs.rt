// The pairs of what was fed become the lines of an answer.

ghost use Rattle.std.specs.Prelude.{◌≡◌, ◌+◌, ◌*◌, ◌≤◌, ◌<◌, ◌^◌, [], List, None, Some, false, length, ⊤, map, IfErr, IfOk, IsErrOf, OnErr, OnOk};
ghost use Rattle.outside.specs.Sinks.{StopsAt};
ghost use Rattle.row_codec.specs.declared.values.Agg.TheVariants.{Sum};
ghost use Rattle.row_codec.specs.declared.values.Value.{Value};
ghost use Rattle.tuple_stream.specs.Trails.{EnteredEvents};
ghost use Rattle.partition_stack.specs.Causes.{CameBeside};
ghost use Rattle.partition_stack.specs.Leaving.{LeavesOthers};
ghost use Rattle.partition_stack.specs.Making.{MakesFew};
ghost use Rattle.partition_stack.specs.Slots.{IsWantBelow, IsWantBelowOf};
ghost use Rattle.partition_stack.specs.Stack.{over};
ghost use Rattle.join_op.specs.Laid.{HoldsSides};
ghost use Rattle.join_op.specs.Operator.{IsFeeding, IsOperator, slots_for};
ghost use Rattle.join_op.specs.Pairs.{pairs_of};
ghost use Rattle.query_plan.specs.Sizes.{groups};
ghost use Rattle.query_run.specs.Answer.{LineNumbers};
ghost use Rattle.query_run.specs.Causes.{OfPool, side_of};
ghost use Rattle.query_run.specs.Joined.{HasTakenPairs, HasTakenSomePairs, WrotePairs, WroteSomePairs};
ghost use Rattle.query_run.specs.Stopped.{CountsSink, StoppedOver};
ghost use Rattle.query_run.specs.Taking.{join_slots};
ghost use Rattle.query_run.specs.Writing.{HasTaken, lines_now};
ghost use Rattle.query_run.specs.Inside.{OfSides, OfSidesTold};

use crate::answering::{AnswerLines, Start, Taker};
use crate::grouping::went_through;
use crate::header::joined_header;
use crate::joined::BothFed;
use crate::parts::Part;
use join_op::JoinOp;
use outside::Sink;
use query_plan::{Query, QueryErr, Ran, SidePlan, Totals};
use std::alloc::Global;
use std::marker::{Brand, PhantomData};
use store_api::{OpErr, Store};

// Writes the answer of a join that was fed.
pub(crate) fn write_pairs<St: Store, K: Sink>(
    alloc: Global,
    store: &mut St,
    op: &mut JoinOp,
    plan: &Query,
    asked: &SidePlan,
    fed: BothFed,
    sink: &mut K,
) -> Result<Ran, QueryErr>
    requires right { plan.now.right ≡ Some asked.now }
    requires groups { groups plan.now ≡ false }
    requires aggs { plan.now.aggs ≡ [] }
    requires few { fed.left.kept + fed.right.kept < 2 ^ 64 }
    requires op { IsOperator op.old (St.holds store.old) (St.signs store.old) }
    requires feeding { IsFeeding op.old }
    ensures ok { OnOk result (OfSidesTold St.Store op.old store.old
        (λ lefts rights. WrotePairs plan.now (pairs_of op.old.shape lefts rights) (K.contents sink.old) (K.contents sink.new))) }
    ensures err { OnErr result (OfSidesTold St.Store op.old store.old
        (λ lefts rights. WroteSomePairs plan.now (pairs_of op.old.shape lefts rights) (K.contents sink.old) (K.contents sink.new))) }
    ensures read { IfOk result (λ ran. (ran.left ≡ fed.left.read) × (ran.right ≡ fed.right.read) × (ran.kept ≡ fed.left.kept + fed.right.kept)) }
    ensures lines { IfOk result (λ ran. OfSidesTold St.Store op.old store.old (λ lefts rights. LineNumbers plan.now (pairs_of op.old.shape lefts rights) ran)) }
    ensures kept { OnOk result (OfSides St.Store op.old store.old
        (λ start lefts rights. EnteredEvents (HoldsSides op.old.shape lefts rights (over op.new.left (St.holds store.new) (St.signs store.new)) (over op.new.right (St.holds store.new) (St.signs store.new)) ⊤) start (St.signs store.new).trail)) }
    ensures made { OfSidesTold St.Store op.old store.old
        (λ lefts rights. MakesFew (15 * (length lefts + length rights)) (St.signs store.old) (St.signs store.new)) }
    ensures cause { IfErr result (λ e. side_of e ≡ None) }
    ensures pool { IfErr result (StoppedOver op.old.left.page_blocks (join_slots op.old (St.holds store.old) (St.signs store.old)) (St.signs store.old) (St.signs store.new)) }
    ensures enough { IfErr result (OfPool (λ e. OfSidesTold St.Store op.old store.old
        (λ lefts rights. IsWantBelow (slots_for op.old (St.holds store.old) lefts rights) (join_slots op.old (St.holds store.old) (St.signs store.old)) e))) }
    ensures sink { CountsSink (IsErrOf result QueryErr.SinkFault) (K.faults sink.old) (K.faults sink.new) }
    ensures stops { StopsAt (IsErrOf result QueryErr.SinkFault) (K.at_failure sink.old) (K.at_failure sink.new) (K.contents sink.new) }
    ensures op { IsOperator op.new (St.holds store.new) (St.signs store.new) }
    ensures client { op.new.client ≡ op.old.client }
    ensures leaves { LeavesOthers op.old.client.tracker (St.holds store.old) (St.holds store.new) (St.signs store.old) (St.signs store.new) }
    ensures slots { join_slots op.new (St.holds store.new) (St.signs store.new) ≡ join_slots op.old (St.holds store.old) (St.signs store.old) }
{
    let names = joined_header(alloc, plan, asked)?;
    let part = Part::with(alloc, names.as_slice())?;
    let lines = AnswerLines {
        alloc,
        part,
        stopped: None,
        rows: 0,
        sums: Vec::new(alloc),
        totals: Vec::new(alloc),
        sink,
    };
    let (handed, lines) = drive_pairs::<Brand, St, K>(alloc, store, op, lines);
    let AnswerLines {
        alloc: _,
        sink,
        mut part,
        stopped,
        rows,
        sums: _,
        totals,
    } = lines;
    went_through(stopped, handed)?;
    part.send(alloc, sink)?;
    Ok(Ran {
        left: fed.left.read,
        right: fed.right.read,
        kept: fed.left.kept + fed.right.kept,
        lines: rows,
        totals: Totals::of(totals),
    })
}

// Hands the pairs on to these lines, which took no row yet.
fn drive_pairs<'a, B: Start, St: Store, K: Sink>(
    alloc: Global,
    store: &mut St,
    op: &mut JoinOp,
    lines: AnswerLines<'a, K>,
) -> (Result<(), OpErr>, AnswerLines<'a, K>)
    requires op { IsOperator op.old (St.holds store.old) (St.signs store.old) }
    requires feeding { IsFeeding op.old }
    requires name { lines.sink.ghost_name ≡ B.name }
    requires sums { lines.sums.items ≡ map Sum B.before.columns }
    requires none { HasTaken B.before [] (lines_now K.Sink lines) }
    ensures ok { OnOk result.0 (OfSidesTold St.Store op.old store.old
        (λ lefts rights. HasTakenPairs (pairs_of op.old.shape lefts rights) B.before (lines_now K.Sink result.1))) }
    ensures err { OnErr result.0 (OfSidesTold St.Store op.old store.old
        (λ lefts rights. HasTakenSomePairs (pairs_of op.old.shape lefts rights) B.before (lines_now K.Sink result.1))) }
    ensures any { (rows : List (List Value)) × HasTaken B.before rows (lines_now K.Sink result.1) }
    ensures kept { OnOk result.0 (OfSides St.Store op.old store.old
        (λ start lefts rights. EnteredEvents (HoldsSides op.old.shape lefts rights (over op.new.left (St.holds store.new) (St.signs store.new)) (over op.new.right (St.holds store.new) (St.signs store.new)) ⊤) start (St.signs store.new).trail)) }
    ensures op { IsOperator op.new (St.holds store.new) (St.signs store.new) }
    ensures client { op.new.client ≡ op.old.client }
    ensures leaves { LeavesOthers op.old.client.tracker (St.holds store.old) (St.holds store.new) (St.signs store.old) (St.signs store.new) }
    ensures slots { join_slots op.new (St.holds store.new) (St.signs store.new) ≡ join_slots op.old (St.holds store.old) (St.signs store.old) }
    ensures made { OfSidesTold St.Store op.old store.old
        (λ lefts rights. MakesFew (15 * (length lefts + length rights)) (St.signs store.old) (St.signs store.new)) }
    ensures enough { IfErr result.0 (λ e. OfSidesTold St.Store op.old store.old
        (λ lefts rights. IsWantBelowOf (slots_for op.old (St.holds store.old) lefts rights) (join_slots op.old (St.holds store.old) (St.signs store.old)) e)) }
    ensures cause { IfErr result.0 (CameBeside op.old.left.page_blocks (join_slots op.old (St.holds store.old) (St.signs store.old)) None (K.faults lines.entry.sink.now) (K.faults result.1.sink.now) (St.signs store.old) (St.signs store.new)) }
    ensures never_falls { K.faults lines.entry.sink.now ≤ K.faults result.1.sink.now }
    ensures name { result.1.sink.ghost_name ≡ lines.entry.sink.ghost_name }
{
    let mut taker = Taker::<'a, K, B> {
        lines,
        of: PhantomData,
    };
    let result = op.finish(alloc, store, &mut taker);
    let Taker { lines, of: _ } = taker;
    (result, lines)
}

// The groups of what was fed become the lines of an answer.

ghost use Rattle.std.specs.Prelude.{◌≡◌, ◌+◌, ◌*◌, ◌≤◌, [], List, Option, None, Some, map, length, pos, replicate, IfErr, IfOk, IsErrOf, OnErr, OnOk};
ghost use Rattle.std.specs.List.{range_with_len};
ghost use Rattle.std.specs.Io.KnownBytes.{Appends};
ghost use Rattle.outside.specs.Sinks.{StopsAt};
ghost use Rattle.pool_model.specs.declared.entry.Entry.{Entry};
ghost use Rattle.row_codec.specs.declared.values.Agg.TheVariants.{Sum};
ghost use Rattle.row_codec.specs.declared.values.Value.{Value};
ghost use Rattle.tuple_stream.specs.Families.{slots_in};
ghost use Rattle.tuple_stream.specs.Trails.{EnteredEvents};
ghost use Rattle.partition_stack.specs.Making.{MakesFew};
ghost use Rattle.partition_stack.specs.Slots.{IsWantBelow};
ghost use Rattle.partition_stack.specs.Stack.{over};
ghost use Rattle.group_op.specs.Causes.{CameBeside, IsWantBelowOf};
ghost use Rattle.group_op.specs.Laid.{HoldsGroups};
ghost use Rattle.group_op.specs.Operator.{IsFeeding, IsOperator, Keeps, entries_in, page_of, slots_for};
ghost use Rattle.csv_edge.specs.Lines.{line_of};
ghost use Rattle.csv_edge.specs.Written.{AppendsFront};
ghost use Rattle.query_run.specs.Answer.{LineNumbers, answer_text, group_rows, header_of};
ghost use Rattle.query_run.specs.Causes.{OfPool, side_of};
ghost use Rattle.query_run.specs.Ending.{IsEndedBy, WentThrough, cause_of_op};
ghost use Rattle.query_run.specs.Inside.{HandedOn, OfFedTold};
ghost use Rattle.query_run.specs.Plans.{HasGroups, grouping_of, shape_of};
ghost use Rattle.query_run.specs.Stopped.{CountsSink, StoppedOver};
ghost use Rattle.query_run.specs.Writing.{HasTaken, HasTakenGroups, HasTakenSome, OfRowsTold, lines_now};

use crate::answering::{AnswerLines, Start, Taker};
use crate::header::header_row;
use crate::parts::Part;
use group_op::GroupOp;
use outside::Sink;
use query_plan::{Query, QueryErr, Ran, Totals};
use row_codec::{Agg, Memory};
use std::alloc::Global;
use std::marker::{Brand, PhantomData};
use store_api::{OpErr, Store};

// How many rows were read of each side, and how many passed the filters.
#[derive(Clone, Copy)]
pub(crate) struct Read {
    pub(crate) left: u64,
    pub(crate) right: u64,
    pub(crate) kept: u64,
}

// Writes the answer of a grouping that was fed.
pub(crate) fn write_groups<St: Store, K: Sink>(
    alloc: Global,
    store: &mut St,
    op: &mut GroupOp,
    plan: &Query,
    read: Read,
    sink: &mut K,
) -> Result<Ran, QueryErr>
    requires plan { HasGroups plan.now }
    requires op { IsOperator op.old (St.holds store.old) (St.signs store.old) }
    requires shape { op.old.shape ≡ shape_of plan.now }
    requires feeding { IsFeeding op.old }
    ensures ok { OnOk result (OfRowsTold St.Store op.old store.old
        (λ rows. Appends (K.contents sink.old) (K.contents sink.new) (answer_text plan.now (group_rows (grouping_of plan.now) rows)))) }
    ensures err { OnErr result (OfRowsTold St.Store op.old store.old
        (λ rows. AppendsFront (K.contents sink.old) (K.contents sink.new) (answer_text plan.now (group_rows (grouping_of plan.now) rows)))) }
    ensures read { IfOk result (λ ran. (ran.left ≡ read.left) × (ran.right ≡ read.right) × (ran.kept ≡ read.kept)) }
    ensures lines { IfOk result (λ ran. OfRowsTold St.Store op.old store.old (λ rows. LineNumbers plan.now rows ran)) }
    ensures kept { OnOk result ((start : Option (List Entry)) (rows : List (List Value)) → Keeps start rows op.old (St.holds store.old) (St.signs store.old) → EnteredEvents (HoldsGroups (shape_of plan.now) (page_of op.old (St.holds store.old)) rows (over op.new.parts (St.holds store.new) (St.signs store.new))) start (St.signs store.new).trail) }
    ensures made { OfFedTold St.Store op.old store.old
        (λ fed. MakesFew (15 * length fed + length (entries_in op.old.table)) (St.signs store.old) (St.signs store.new)) }
    ensures cause { IfErr result (λ e. side_of e ≡ None) }
    ensures pool { IfErr result (StoppedOver op.old.parts.page_blocks (slots_in (over op.old.parts (St.holds store.old) (St.signs store.old))) (St.signs store.old) (St.signs store.new)) }
    ensures enough { IfErr result (OfPool (λ e. OfFedTold St.Store op.old store.old
        (λ fed. IsWantBelow (slots_for 544 op.old (St.holds store.old) fed) (slots_in (over op.old.parts (St.holds store.old) (St.signs store.old))) e))) }
    ensures sink { CountsSink (IsErrOf result QueryErr.SinkFault) (K.faults sink.old) (K.faults sink.new) }
    ensures stops { StopsAt (IsErrOf result QueryErr.SinkFault) (K.at_failure sink.old) (K.at_failure sink.new) (K.contents sink.new) }
    ensures went { HandedOn op.old op.new (St.holds store.old) (St.holds store.new) (St.signs store.old) (St.signs store.new) }
{
    let (part, sums, totals) = before_rows(alloc, plan)?;
    let lines = AnswerLines {
        alloc,
        part,
        stopped: None,
        rows: 0,
        sums,
        totals,
        sink,
    };
    let (handed, lines) = drive::<Brand, St, K>(alloc, store, op, lines);
    let AnswerLines {
        alloc: _,
        sink,
        mut part,
        stopped,
        rows,
        sums: _,
        totals,
    } = lines;
    went_through(stopped, handed)?;
    part.send(alloc, sink)?;
    Ok(Ran {
        left: read.left,
        right: read.right,
        kept: read.kept,
        lines: rows,
        totals: Totals::of(totals),
    })
}

// What an answer has before its first row: the line of names, what is summed, and sums of no rows.
fn before_rows(alloc: Global, plan: &Query) -> Result<(Part, Vec<Agg>, Vec<i128>), Memory>
    requires { HasGroups plan.now }
    ensures part { IfOk result (λ begun. begun.0.lines ≡ line_of (header_of plan.now)) }
    ensures sums { IfOk result (λ begun. begun.1.items ≡ map Sum (range_with_len (length plan.now.group) (length plan.now.aggs))) }
    ensures totals { IfOk result (λ begun. begun.2.items ≡ replicate (length plan.now.aggs) (pos 0)) }
{
    let names = header_row(alloc, plan)?;
    let keys = plan.group.as_slice().len();
    let aggs = plan.aggs.as_slice().len();
    let part = Part::with(alloc, names.as_slice())?;
    Ok((part, sums_of(alloc, keys, aggs)?, zeros(alloc, aggs)?))
}

// Whether all rows were handed on and taken; what stopped the lines comes before what stopped the grouping.
pub(crate) fn went_through(
    stopped: Option<QueryErr>,
    handed: Result<(), OpErr>,
) -> Result<(), QueryErr>
    ensures ok { OnOk result (WentThrough stopped handed) }
    ensures err { IfErr result (IsEndedBy stopped handed) }
{
    match (stopped, handed) {
        (Some(why), _) => Err(why),
        (None, Err(e)) => Err(of_op(e)),
        (None, Ok(())) => Ok(()),
    }
}

// What an error of a grouping is to its query.
pub(crate) fn of_op(e: OpErr) -> QueryErr
    ensures { result ≡ cause_of_op e }
{
    match e {
        OpErr::Pool(e) => QueryErr::Pool(e),
        OpErr::Sink => QueryErr::SinkFault,
    }
}

// The sums of so many columns behind the keys.
fn sums_of(alloc: Global, keys: usize, aggs: usize) -> Result<Vec<Agg>, Memory>
    requires { keys + aggs ≤ 64 }
    ensures { IfOk result (λ sums. sums.items ≡ map Sum (range_with_len keys aggs)) }
{
    let mut sums = Vec::new(alloc);
    for column in keys..keys + aggs {
        sums.push(Agg::Sum(column))?;
    }
    Ok(sums)
}

// So many sums of no rows.
fn zeros(alloc: Global, aggs: usize) -> Result<Vec<i128>, Memory>
    ensures { IfOk result (λ totals. totals.items ≡ replicate aggs (pos 0)) }
{
    let mut totals = Vec::new(alloc);
    totals.resize(aggs, 0)?;
    Ok(totals)
}

// Hands the groups on to these lines, which took no row yet.
fn drive<'a, B: Start, St: Store, K: Sink>(
    alloc: Global,
    store: &mut St,
    op: &mut GroupOp,
    lines: AnswerLines<'a, K>,
) -> (Result<(), OpErr>, AnswerLines<'a, K>)
    requires op { IsOperator op.old (St.holds store.old) (St.signs store.old) }
    requires feeding { IsFeeding op.old }
    requires name { lines.sink.ghost_name ≡ B.name }
    requires sums { lines.sums.items ≡ map Sum B.before.columns }
    requires none { HasTaken B.before [] (lines_now K.Sink lines) }
    ensures ok { OnOk result.0 (OfRowsTold St.Store op.old store.old (λ rows. HasTakenGroups op.old.shape rows B.before (lines_now K.Sink result.1))) }
    ensures err { OnErr result.0 (OfRowsTold St.Store op.old store.old (λ rows. HasTakenSome op.old.shape rows B.before (lines_now K.Sink result.1))) }
    ensures any { (rows : List (List Value)) × HasTaken B.before rows (lines_now K.Sink result.1) }
    ensures kept { OnOk result.0 ((start : Option (List Entry)) (rows : List (List Value)) → Keeps start rows op.old (St.holds store.old) (St.signs store.old) → EnteredEvents (HoldsGroups op.old.shape (page_of op.old (St.holds store.old)) rows (over op.new.parts (St.holds store.new) (St.signs store.new))) start (St.signs store.new).trail) }
    ensures made { OfFedTold St.Store op.old store.old
        (λ fed. MakesFew (15 * length fed + length (entries_in op.old.table)) (St.signs store.old) (St.signs store.new)) }
    ensures enough { IfErr result.0 (λ e. OfFedTold St.Store op.old store.old
        (λ fed. IsWantBelowOf (slots_for 544 op.old (St.holds store.old) fed) (slots_in (over op.old.parts (St.holds store.old) (St.signs store.old))) e)) }
    ensures went { HandedOn op.old op.new (St.holds store.old) (St.holds store.new) (St.signs store.old) (St.signs store.new) }
    ensures cause { IfErr result.0 (CameBeside op.old.parts.page_blocks (slots_in (over op.old.parts (St.holds store.old) (St.signs store.old))) None (K.faults lines.entry.sink.now) (K.faults result.1.sink.now) (St.signs store.old) (St.signs store.new)) }
    ensures never_falls { K.faults lines.entry.sink.now ≤ K.faults result.1.sink.now }
    ensures name { result.1.sink.ghost_name ≡ lines.entry.sink.ghost_name }
{
    let mut taker = Taker::<'a, K, B> {
        lines,
        of: PhantomData,
    };
    let result = op.finish(alloc, store, &mut taker);
    let Taker { lines, of: _ } = taker;
    (result, lines)
}

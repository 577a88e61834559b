// The command `selfcheck`.

ghost use Rattle.std.specs.Prelude.{◌≡◌, ◌≤◌, ℕ, List, Option, IfErr, IfOk, OnOk, None, Some, vec_len};
ghost use Rattle.outside.specs.Counts.{Rose};
ghost use Rattle.outside.specs.Faults.{faults_of};
ghost use Rattle.spill_top.specs.Pooled.{memory_of};
ghost use Rattle.pin_core.specs.Tallies.{tally_of};
ghost use Rattle.query_run.specs.Answer.{Numbers, WroteAnswer};
ghost use Rattle.query_run.specs.Causes.{side_of};
ghost use Rattle.run_report.specs.Report.{outcome_text};
ghost use Rattle.spill_top.specs.CheckPlan.{IsInRange, checking, checking_conf, output_name, refused_of, table_if, table_of};
ghost use Rattle.spill_top.specs.Checking.{Checked, HasAnswer, HasNoAnswer, IsCheckStop, TellsAnswer, output_at, summary_of};
ghost use Rattle.spill_top.specs.Endings.{outcome_of, status_of};
ghost use Rattle.spill_top.specs.Headline.{page_bytes};
ghost use Rattle.spill_top.specs.Jobs.{LeavesPart};
ghost use Rattle.spill_top.specs.Pooled.{ComeBack, HaveFailed, all_tell};
ghost use Rattle.spill_top.specs.Ran.{telling};
ghost use Rattle.spill_top.specs.Report.{TellsOrMisses};
ghost use Rattle.spill_top.specs.Running.{WentAt, seen};
ghost use Rattle.spill_top.specs.Storing.{HaveStored, owed};

use crate::check_plan::{BLOCK_LEN, checking_plan, checking_pool};
use crate::ending::Ending;
use crate::pooled::{PoolRun, run_pooled};
use crate::report::{refuse_memory, tell};
use crate::words::Check;
use csv_edge::write_whole;
use outside::{Outputs, Sink, Slot};
use query_plan::{Query, least};
use query_run::{QueryErr, Ran};
use row_codec::Memory;
use run_report::{Outcome, outcome_line};
use std::alloc::Global;
use std::sync::Wait;
use std::thread::Threads;
use std::time::Clock;
use table_gen::TableSource;

// Groups a generated table over a pool of these slots into an output, tells its numbers in the report, and answers the status.
pub(crate) fn self_check<
    W: Wait + Threads + Clock + Sync,
    O: Outputs,
    R: Sink,
    D: Slot + Drop + Send,
>(rt: &W, alloc: Global, check: Check, outputs: &mut O, report: &mut R, slots: &mut Vec<D>) -> u8
    requires range { IsInRange check }
    requires few { vec_len slots.old ≤ 1048576 }
    ensures checked { (files : List ℕ → Option (List ℕ)) (reads : List ℕ → ℕ) → Checked (vec_len slots.old)
        (seen files reads (O.written outputs.old) (O.is_created outputs.old) (O.faults_at outputs.old) (tally_of D.Slot slots.old.items)) (seen files reads (O.written outputs.new) (O.is_created outputs.new) (O.faults_at outputs.new) (tally_of D.Slot slots.new.items))
        (telling (R.contents report.old) (faults_of R.Sink report.old)) (telling (R.contents report.new) (faults_of R.Sink report.new)) result check }
    ensures report { R.faults report.old ≤ R.faults report.new }
    ensures slots { ComeBack (tally_of D.Slot slots.old.items) (tally_of D.Slot slots.new.items) }
{
    let Ok(plan) = checking_plan(alloc, check) else {
        return refuse_memory(report);
    };
    match answer_check(rt, alloc, &plan, check, outputs, slots) {
        Ok(ran) => tell_answer(alloc, report, &ran),
        Err(ending) => tell_ending(alloc, report, &plan, &ending),
    }
}

// Reserves, creates the output, runs the query and gives the output back.
fn answer_check<W: Wait + Threads + Clock + Sync, O: Outputs, D: Slot + Drop + Send>(
    rt: &W,
    alloc: Global,
    plan: &Query,
    check: Check,
    outputs: &mut O,
    slots: &mut Vec<D>,
) -> Result<Ran, Ending>
    requires plan { plan.now ≡ checking check }
    requires range { IsInRange check }
    requires few { vec_len slots.old ≤ 1048576 }
    ensures answer { IfOk result (HasAnswer check (tally_of D.Slot slots.old.items) (tally_of D.Slot slots.new.items) (output_at (O.written outputs.old) (O.faults_at outputs.old)) (output_at (O.written outputs.new) (O.faults_at outputs.new))) }
    ensures none { IfErr result (HasNoAnswer check (vec_len slots.old) (tally_of D.Slot slots.old.items) (tally_of D.Slot slots.new.items) (output_at (O.written outputs.old) (O.faults_at outputs.old)) (output_at (O.written outputs.new) (O.faults_at outputs.new))) }
    ensures went { (files : List ℕ → Option (List ℕ)) (reads : List ℕ → ℕ) → WentAt output_name (seen files reads (O.written outputs.old) (O.is_created outputs.old) (O.faults_at outputs.old) (tally_of D.Slot slots.old.items)) (seen files reads (O.written outputs.new) (O.is_created outputs.new) (O.faults_at outputs.new) (tally_of D.Slot slots.new.items)) }
    ensures slots { ComeBack (tally_of D.Slot slots.old.items) (tally_of D.Slot slots.new.items) }
{
    let wanted = least(plan, BLOCK_LEN);
    let room = plan.limit;
    if room < wanted {
        let root = false;
        return Err(Ending::Reservation { root, wanted, room });
    }
    let Ok(mut sink) = outputs.create("selfcheck.csv") else {
        return Err(Ending::Stopped(QueryErr::SinkFault));
    };
    match run_table(rt, alloc, plan, check, slots, &mut sink) {
        Ok(ran) => match outputs.done("selfcheck.csv", sink, true) {
            Ok(()) => Ok(ran),
            Err(_) => Err(Ending::Stopped(QueryErr::SinkFault)),
        },
        Err(e) => {
            let _ = outputs.done("selfcheck.csv", sink, false);
            Err(Ending::Stopped(e))
        }
    }
}

// Runs the query over the table, whose pages may take all slots.
fn run_table<W: Wait + Threads + Clock + Sync, K: Sink, D: Slot + Drop + Send>(
    rt: &W,
    alloc: Global,
    plan: &Query,
    check: Check,
    slots: &mut Vec<D>,
    sink: &mut K,
) -> Result<Ran, QueryErr>
    requires plan { plan.now ≡ checking check }
    requires range { IsInRange check }
    requires reserved { refused_of check ≡ None }
    requires few { vec_len slots.old ≤ 1048576 }
    ensures answer { OnOk result (WroteAnswer (checking check) page_bytes (table_if (all_tell (tally_of D.Slot slots.old.items)) check) (K.contents sink.old) (K.contents sink.new)) }
    ensures numbers { IfOk result (λ ran. Numbers (checking check) page_bytes (all_tell (tally_of D.Slot slots.old.items)) ran (table_of check)) }
    ensures stored { OnOk result (HaveStored page_bytes (owed (checking check) (memory_of (checking_conf check)) (Some (table_of check))) (tally_of D.Slot slots.old.items) (tally_of D.Slot slots.new.items)) }
    ensures stop { IfErr result (IsCheckStop check (all_tell (tally_of D.Slot slots.old.items)) (vec_len slots.old) (HaveFailed (tally_of D.Slot slots.old.items) (tally_of D.Slot slots.new.items)) (Rose (K.faults sink.old) (K.faults sink.new))) }
    ensures part { IfErr result (λ why. LeavesPart (checking check) page_bytes (table_if (all_tell (tally_of D.Slot slots.old.items)) check) (K.contents sink.old) (K.contents sink.new) (side_of why)) }
    ensures slots { ComeBack (tally_of D.Slot slots.old.items) (tally_of D.Slot slots.new.items) }
{
    let pool = checking_pool(check);
    let quota = slots.len() as u32;
    let start = u64::from(check.start);
    let mut table = TableSource::new(start, u64::from(check.rows), u64::from(check.groups));
    let mut right = None;
    let run = PoolRun {
        query: plan,
        conf: pool,
        writers: 0,
        quota,
    };
    run_pooled(rt, alloc, &run, slots, &mut table, &mut right, sink)
}

// Tells the numbers of an answer, and answers the status.
fn tell_answer<R: Sink>(alloc: Global, report: &mut R, ran: &Ran) -> u8
    ensures tells { TellsAnswer (outcome_text None (summary_of ran.now)) (telling (R.contents report.old) (faults_of R.Sink report.old)) (telling (R.contents report.new) (faults_of R.Sink report.new)) result }
    ensures report { R.faults report.old ≤ R.faults report.new }
{
    let Ok(line) = outcome_line(alloc, None, &summary(ran)) else {
        return 10;
    };
    match write_whole(report, line.as_slice()) {
        Ok(()) => 0,
        Err(_) => 9,
    }
}

// The numbers of an answer: the rows that were read, the groups, and the sums of both aggregates over them.
fn summary(ran: &Ran) -> Outcome
    ensures { result ≡ summary_of ran.now }
{
    let totals = ran.totals.as_slice();
    Outcome::Summary {
        rows: ran.left,
        groups: ran.lines,
        counted: *totals.get(0).unwrap_or(&0),
        total: *totals.get(1).unwrap_or(&0),
    }
}

// Tells why there is no answer, unless the line finds no memory, and answers the status.
fn tell_ending<R: Sink>(alloc: Global, report: &mut R, plan: &Query, ending: &Ending) -> u8
    ensures status { result ≡ status_of ending.now }
    ensures tells { TellsOrMisses (outcome_text None (outcome_of plan.now ending.now)) (R.contents report.old) (R.contents report.new) (faults_of R.Sink report.old) (faults_of R.Sink report.new) }
    ensures report { R.faults report.old ≤ R.faults report.new }
{
    if let Ok(line) = ending_line(alloc, plan, ending) {
        tell(report, line.as_slice());
    }
    ending.status()
}

// The line of a query that ended so.
fn ending_line(alloc: Global, plan: &Query, ending: &Ending) -> Result<Vec<u8>, Memory>
    ensures { IfOk result (λ line. line.items ≡ outcome_text None (outcome_of plan.now ending.now)) }
{
    let outcome = ending.outcome(alloc, plan)?;
    outcome_line(alloc, None, &outcome)
}

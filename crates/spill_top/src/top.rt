// The top call.

ghost use Rattle.std.specs.Prelude.{◌≡◌, ◌≤◌, ◌↔◌, None, IfSome, map, string_bytes, vec_len};
ghost use Rattle.outside.specs.Counts.{NoneFell};
ghost use Rattle.outside.specs.Names.{AllStay};
ghost use Rattle.outside.specs.Faults.{faults_of};
ghost use Rattle.pin_core.specs.Tallies.{tally_of};
ghost use Rattle.spill_top.specs.Checking.{Checked};
ghost use Rattle.spill_top.specs.Headline.{Counted};
ghost use Rattle.spill_top.specs.Pooled.{ComeBack};
ghost use Rattle.spill_top.specs.Ran.{RanPlan, telling};
ghost use Rattle.spill_top.specs.Report.{Tells, usage};
ghost use Rattle.spill_top.specs.Running.{seen};
ghost use Rattle.spill_top.specs.Words.{check_of, command_of, plan_file_of};

use crate::command::{Task, read_task};
use crate::counted::answer_count;
use crate::ran::run;
use crate::report::{refuse_memory, refuse_words};
use crate::selfcheck::self_check;
use outside::{Gate, Inputs, Outputs, Sink, Slot};
use std::alloc::Global;
use std::sync::Wait;
use std::thread::Threads;
use std::time::Clock;

/// Runs a command and answers its status. The words come without the program's name.
///
/// `count FILE COLUMN` appends to the report how often each text of the column stands in the file.
/// What its memory of 8 MiB can't hold is put on the slots, so an answer is promised where these tell what they hold.
/// A refusal appends its line in its place, unless the line finds no memory; where memory is wanting, or the slots refuse
/// while the answer is written, the report has a front of the answer.
///
/// `run PLAN` runs the queries of a plan's file and appends a line for each of them, but for those that find no memory. They
/// share one pool, which has the memory of the plan and puts what that can't hold on slots, of each query on at most as many as its
/// quota. The sessions of all queries are asked for first, each with its least reservation, in the order of the plan. Then
/// outputs are created and inputs are opened, queries run beside each other, each in a thread of its own where one can be
/// made, and sources and then sinks are given back, each in the order of the plan; of a query that joins the left input
/// comes first. A query whose output or input can't be opened does not run. The status is the first that is not 0.
/// A query passes `gate` by its place in the plan, from 0: before and after a page of it is stored or loaded, where its last input
/// ends, and when it was answered.
/// An answer is promised where all slots tell what they hold. An output is said to be whole where its query has
/// status 0; else it is empty, or after 7 to 10 a front of the answer.
///
/// `selfcheck START ROWS GROUPS BLOCKS` makes a table of ROWS rows in GROUPS groups, groups it over a pool of BLOCKS blocks of 8192
/// bytes, writes the answer to the output `selfcheck.csv` and appends a line of its numbers: the rows that were read, the groups,
/// and the sums of the counts and of the totals of all groups. The least reservation is asked before the output is created. A
/// refusal appends its line in its place, unless the line finds no memory.
///
/// After a fault of the report nothing more is written to it. Whatever the status, all slots are there again, in any order.
///
/// | status | meaning |
/// |---|---|
/// | 0 | the report has the whole answer; for a run, each output has its own; for a check, the output has it and the report its numbers |
/// | 1 | the words are no command |
/// | 2 | the bytes of the plan are no plan |
/// | 3 | an input, or the plan, could not be read |
/// | 4 | an input was refused: it is no table with such columns, a field is no int, or it is too large |
/// | 5 | a row weighs more than a page has bytes |
/// | 6 | the least reservation of a query was refused |
/// | 7 | the slots, for a run those of the query's quota, don't suffice for its pages, or no name of a page is left, which for a run one of the queries spends |
/// | 8 | a store to a slot or a load failed |
/// | 9 | an output, or the report, could not be written |
/// | 10 | out of memory; when this comes is left open |
pub fn spill_top<
    W: Wait + Threads + Clock + Sync,
    I: Inputs,
    O: Outputs,
    R: Sink,
    D: Slot + Drop + Send,
    G: Gate,
>(
    rt: &W,
    alloc: Global,
    words: &[String],
    inputs: &mut I,
    outputs: &mut O,
    report: &mut R,
    slots: &mut Vec<D>,
    gate: &G,
) -> u8
    requires { vec_len slots.old ≤ 1048576 }
    // Words that are no command are refused as such, and no others.
    ensures words { (result ≡ 1) ↔ ((command_of (map string_bytes words.now) ≡ None) × (plan_file_of (map string_bytes words.now) ≡ None) × (check_of (map string_bytes words.now) ≡ None)) }
    ensures usage { result ≡ 1 → Tells usage (R.contents report.old) (R.contents report.new) (faults_of R.Sink report.old) (faults_of R.Sink report.new) }

    // A command has its answer, or a status with its cause.
    ensures count { IfSome (command_of (map string_bytes words.now)) (Counted (I.bytes_at inputs.old) (I.faults_at inputs.old) (I.faults_at inputs.new) (tally_of D.Slot slots.old.items) (tally_of D.Slot slots.new.items) (R.contents report.old) (R.contents report.new) (faults_of R.Sink report.old) (faults_of R.Sink report.new) result) }
    ensures run { IfSome (plan_file_of (map string_bytes words.now)) (λ file. RanPlan file (vec_len slots.old)
        (seen (I.bytes_at inputs.old) (I.faults_at inputs.old) (O.written outputs.old) (O.is_created outputs.old) (O.faults_at outputs.old) (tally_of D.Slot slots.old.items))
        (seen (I.bytes_at inputs.new) (I.faults_at inputs.new) (O.written outputs.new) (O.is_created outputs.new) (O.faults_at outputs.new) (tally_of D.Slot slots.new.items))
        (telling (R.contents report.old) (faults_of R.Sink report.old)) (telling (R.contents report.new) (faults_of R.Sink report.new)) result) }
    ensures selfcheck { IfSome (check_of (map string_bytes words.now)) (Checked (vec_len slots.old)
        (seen (I.bytes_at inputs.old) (I.faults_at inputs.old) (O.written outputs.old) (O.is_created outputs.old) (O.faults_at outputs.old) (tally_of D.Slot slots.old.items))
        (seen (I.bytes_at inputs.new) (I.faults_at inputs.new) (O.written outputs.new) (O.is_created outputs.new) (O.faults_at outputs.new) (tally_of D.Slot slots.new.items))
        (telling (R.contents report.old) (faults_of R.Sink report.old)) (telling (R.contents report.new) (faults_of R.Sink report.new)) result) }

    // All slots are there again, and their counts of faults did not fall.
    ensures slots { ComeBack (tally_of D.Slot slots.old.items) (tally_of D.Slot slots.new.items) }
    ensures outputs { plan_file_of (map string_bytes words.now) ≡ None → check_of (map string_bytes words.now) ≡ None → outputs.new ≡ outputs.old }
    ensures inputs { AllStay (I.bytes_at inputs.old) (I.bytes_at inputs.new) }
    ensures never_falls { NoneFell (I.faults_at inputs.old) (I.faults_at inputs.new) }
    ensures outputs_never_fall { NoneFell (O.faults_at outputs.old) (O.faults_at outputs.new) }
    ensures report { R.faults report.old ≤ R.faults report.new }
{
    let Ok(found) = read_task(alloc, words) else {
        return refuse_memory(report);
    };
    match found {
        Some(Task::Count { file, column }) => answer_count(
            rt, alloc, file, column, inputs, report, slots,
        ),
        Some(Task::Run { plan }) => run(rt, alloc, plan, inputs, outputs, report, slots, gate),
        Some(Task::Check(check)) => self_check(rt, alloc, check, outputs, report, slots),
        None => {
            refuse_words(report);
            1
        }
    }
}

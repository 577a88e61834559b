// The command `run`.

ghost use Rattle.std.specs.Prelude.{◌≡◌, ◌<◌, ◌≤◌, ◌-◌, ◌^◌, ◌++◌, OnErr, OnOk, length, vec_len};
ghost use Rattle.outside.specs.Faults.{faults_of};
ghost use Rattle.pin_core.specs.Tallies.{tally_of};
ghost use Rattle.spill_top.specs.Ran.{RanPlan, Reported, first_status, line_of_query, telling};
ghost use Rattle.spill_top.specs.Running.{Went, seen};

use crate::ending::Ending;
use crate::plan_file::{Unread, read_file};
use crate::queries::run_queries;
use crate::report::{refuse_as, refuse_memory};
use csv_edge::write_whole;
use outside::{Gate, Inputs, Outputs, Sink, Slot};
use query_plan::{PlanErr, Query, read_plan};
use row_codec::Memory;
use run_report::{Cause, outcome_line};
use std::alloc::Global;
use std::sync::Wait;
use std::thread::Threads;
use std::time::Clock;

// Runs the queries of a plan's file over a pool of these slots, writes a line for each of them to the report, and answers
// the status: the first that is not 0.
pub(crate) fn run<
    W: Wait + Threads + Clock + Sync,
    I: Inputs,
    O: Outputs,
    R: Sink,
    D: Slot + Drop + Send,
    G: Gate,
>(
    rt: &W,
    alloc: Global,
    file: &str,
    inputs: &mut I,
    outputs: &mut O,
    report: &mut R,
    slots: &mut Vec<D>,
    gate: &G,
) -> u8
    requires few { vec_len slots.old ≤ 1048576 }
    ensures ran { RanPlan file.now (vec_len slots.old) (seen (I.bytes_at inputs.old) (I.faults_at inputs.old) (O.written outputs.old) (O.is_created outputs.old) (O.faults_at outputs.old) (tally_of D.Slot slots.old.items)) (seen (I.bytes_at inputs.new) (I.faults_at inputs.new) (O.written outputs.new) (O.is_created outputs.new) (O.faults_at outputs.new) (tally_of D.Slot slots.new.items)) (telling (R.contents report.old) (faults_of R.Sink report.old)) (telling (R.contents report.new) (faults_of R.Sink report.new)) result }
    ensures went { Went (seen (I.bytes_at inputs.old) (I.faults_at inputs.old) (O.written outputs.old) (O.is_created outputs.old) (O.faults_at outputs.old) (tally_of D.Slot slots.old.items)) (seen (I.bytes_at inputs.new) (I.faults_at inputs.new) (O.written outputs.new) (O.is_created outputs.new) (O.faults_at outputs.new) (tally_of D.Slot slots.new.items)) }
    ensures report { R.faults report.old ≤ R.faults report.new }
{
    let text = match read_file(alloc, file, inputs) {
        Ok(text) => text,
        Err(Unread::Fault) => return refuse_as(alloc, report, 3, Cause::PlanInput),
        Err(Unread::Memory) => return refuse_memory(report),
    };
    let plan = match read_plan(alloc, text.as_slice(), slots.len() as u32) {
        Ok(plan) => plan,
        Err(PlanErr::Memory) => return refuse_memory(report),
        Err(error) => return refuse_as(alloc, report, 2, Cause::Plan { error }),
    };
    match run_queries(rt, alloc, &plan, inputs, outputs, slots, gate) {
        Ok(ends) => report_all(alloc, report, plan.queries.as_slice(), ends.as_slice()),
        Err(Memory) => refuse_memory(report),
    }
}

// Writes a line for each query, but for those that find no memory, and answers the status of all.
fn report_all<R: Sink>(alloc: Global, report: &mut R, queries: &[Query], ends: &[Ending]) -> u8
    requires len { length queries.now ≡ length ends.now }
    requires few { length queries.now ≤ 16 }
    ensures reported { Reported queries.now ends.now (telling (R.contents report.old) (faults_of R.Sink report.old)) (telling (R.contents report.new) (faults_of R.Sink report.new)) result }
    ensures report { R.faults report.old ≤ R.faults report.new }
{
    let mut text = Vec::new(alloc);
    let mut missing = false;
    for place in 0..queries.len() {
        if push_line(alloc, &mut text, &queries[place], place as u32, ends[place]).is_err() {
            missing = true;
        }
    }
    let failed = write_whole(report, text.as_slice()).is_err();
    match first_status(ends) {
        0 if failed => 9,
        0 if missing => 10,
        status => status,
    }
}

// Appends the line of the query at this place, from 0.
fn push_line(
    alloc: Global,
    text: &mut Vec<u8>,
    query: &Query,
    place: u32,
    ending: Ending,
) -> Result<(), Memory>
    requires { place < 2 ^ 32 - 1 }
    ensures ok { OnOk result (text.new.items ≡ text.old.items ++ line_of_query place query.now ending) }
    ensures err { OnErr result (text.new.items ≡ text.old.items) }
{
    let outcome = ending.outcome(alloc, query)?;
    let line = outcome_line(alloc, Some(place + 1), &outcome)?;
    text.extend_from_slice(line.as_slice())?;
    Ok(())
}

// The first status that is not 0, or 0.
fn first_status(ends: &[Ending]) -> u8
    ensures { result ≡ first_status ends.now }
{
    for ending in ends {
        let status = ending.status();
        if status != 0 {
            return status;
        }
    }
    0
}

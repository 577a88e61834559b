// The command `count`: its status, and what its report says.

ghost use Rattle.std.specs.Prelude.{◌≡◌, ◌≢◌, ◌≤◌, ◌⊎◌, true, vec_len};
ghost use Rattle.outside.specs.Counts.{NoneFell, Rose};
ghost use Rattle.outside.specs.Names.{AllStay};
ghost use Rattle.outside.specs.Faults.{FailsAt, NoneFailed, faults_of};
ghost use Rattle.pin_core.specs.Tallies.{tally_of};
ghost use Rattle.query_plan.specs.declared.outcome.QueryErr.{QueryErr};
ghost use Rattle.spill_top.specs.Headline.{AcceptsInput, Answers, AnswersInPart, HasTooMany, IsPoolStatus, IsStatus, IsStatusOf, LacksMemory, Refuses, RefusesBytes, StoresCount};
ghost use Rattle.spill_top.specs.Pooled.{ComeBack, HaveFailed, all_tell};

use crate::count::{Stop, count};
use crate::report::{refuse, refuse_memory};
use outside::{Inputs, Sink, Slot};
use std::alloc::Global;
use std::sync::Wait;
use std::thread::Threads;
use std::time::Clock;

// Counts a column of a file, and writes the answer or a refusal to the report.
pub(crate) fn answer_count<
    W: Wait + Threads + Clock + Sync,
    I: Inputs,
    R: Sink,
    D: Slot + Drop + Send,
>(
    rt: &W,
    alloc: Global,
    file: &str,
    column: &str,
    inputs: &mut I,
    report: &mut R,
    slots: &mut Vec<D>,
) -> u8
    requires few { vec_len slots.old ≤ 1048576 }
    // Status 0: the report has the answer, as computed over the whole input, where all slots tell what they hold.
    ensures answer { all_tell (tally_of D.Slot slots.old.items) ≡ true → result ≡ 0 → Answers (I.bytes_at inputs.old) (R.contents report.old) (R.contents report.new) (record { file = file.now; column = column.now }) }

    // Every other status has its cause.
    ensures status { IsStatus result }
    ensures input_fault { result ≡ 3 → Rose (I.faults_at inputs.old file.now) (I.faults_at inputs.new file.now) }
    ensures refused { result ≢ 0 → result ≢ 9 → result ≢ 10 → Refuses result (record { file = file.now; column = column.now }) (I.bytes_at inputs.old file.now) (I.faults_at inputs.old file.now) (I.faults_at inputs.new file.now) (tally_of D.Slot slots.old.items) (tally_of D.Slot slots.new.items) (R.contents report.old) (R.contents report.new) (faults_of R.Sink report.old) (faults_of R.Sink report.new) }
    ensures lacks_memory { result ≡ 10 → LacksMemory (I.bytes_at inputs.old) (tally_of D.Slot slots.old.items) (R.contents report.old) (R.contents report.new) (faults_of R.Sink report.old) (faults_of R.Sink report.new) (record { file = file.now; column = column.now }) }
    ensures quiet { result ≡ 0 → NoneFailed (faults_of R.Sink report.old) (faults_of R.Sink report.new) }
    ensures stored { result ≡ 0 → StoresCount (I.bytes_at inputs.old file.now) (tally_of D.Slot slots.old.items) (tally_of D.Slot slots.new.items) (record { file = file.now; column = column.now }) }
    ensures output_fault { result ≡ 9 → FailsAt (faults_of R.Sink report.old) (faults_of R.Sink report.new) (R.contents report.new) }
    ensures part { all_tell (tally_of D.Slot slots.old.items) ≡ true → result ≡ 9 → AnswersInPart (I.bytes_at inputs.old) (R.contents report.old) (R.contents report.new) (record { file = file.now; column = column.now }) }

    // Where the bytes of the input are refused, that is answered, unless it can't be read or the pool stops the count before.
    ensures refuses { all_tell (tally_of D.Slot slots.old.items) ≡ true → (why : QueryErr) → RefusesBytes (I.bytes_at inputs.old file.now) (record { file = file.now; column = column.now }) why → IsStatusOf why result ⊎ (result ≡ 3) ⊎ IsPoolStatus result }
    ensures too_many { all_tell (tally_of D.Slot slots.old.items) ≡ true → HasTooMany (I.bytes_at inputs.old file.now) → (result ≡ 4) ⊎ (result ≡ 5) ⊎ (result ≡ 3) ⊎ IsPoolStatus result }

    // Where the input is accepted and no count rises, only slots or memory can be wanting.
    ensures succeeds { AcceptsInput (I.bytes_at inputs.old file.now) (record { file = file.now; column = column.now }) → (Rose (I.faults_at inputs.old file.now) (I.faults_at inputs.new file.now) ⊎ Rose (R.faults report.old) (R.faults report.new) ⊎ HaveFailed (tally_of D.Slot slots.old.items) (tally_of D.Slot slots.new.items)) ⊎ ((result ≡ 0) ⊎ (result ≡ 7) ⊎ (result ≡ 10)) }
    ensures kept { AllStay (I.bytes_at inputs.old) (I.bytes_at inputs.new) × NoneFell (I.faults_at inputs.old) (I.faults_at inputs.new) × (R.faults report.old ≤ R.faults report.new) × ComeBack (tally_of D.Slot slots.old.items) (tally_of D.Slot slots.new.items) }
{
    match count(rt, alloc, file, column, inputs, report, slots) {
        Ok(()) => 0,
        Err(Stop::Report) => 9,
        Err(Stop::Memory) => refuse_memory(report),
        Err(Stop::Short) => 10,
        Err(Stop::Refused(refusal)) => refuse(alloc, report, refusal),
        Err(Stop::Broken(refusal)) => refusal.status(),
    }
}

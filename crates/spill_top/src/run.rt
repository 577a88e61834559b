// The queries of a plan, one kind of call after the other.

ghost use Rattle.std.specs.Prelude.{◌≡◌, ◌<◌, ◌≤◌, ℕ, Bool, List, Option, Some, length, map, slice_get, vec_len};
ghost use Rattle.outside.specs.Names.{Written};
ghost use Rattle.pin_core.specs.declared.tally.Tally.{Tally};
ghost use Rattle.pool.specs.Writers.{Stops};
ghost use Rattle.query_plan.specs.declared.plan.Query.{Query};
ghost use Rattle.spill_top.specs.Jobs.{HasSides, work_of};
ghost use Rattle.spill_top.specs.Steps.{AreAll, AreEach, AreMade, GiveNoAnswers, IsBegun, IsCreated, IsDone, IsEnded, IsOpen, IsRead, KeepRefused, KeepsWorks};
ghost use Rattle.spill_top.specs.Running.{AreApart, Went, seen};
ghost use Rattle.spill_top.specs.Together.{AllCanRun, AreAnswered, CanRun, IsAnswered};

use crate::job::Job;
use crate::over::answer_at_gate;
use crate::steps::{close, create, finish, open};
use crate::writers::each_beside_writers;
use outside::{Gate, Inputs, Outputs, Sink, Slot, Source};
use pool::{Opened, Pass, Pool};
use query_plan::Query;
use std::alloc::Global;
use std::sync::Wait;
use std::thread::Threads;
use std::time::Clock;
use store_api::Store;
use write_behind::Writer;

// Creates the outputs.
pub(crate) fn create_all<S: Source, O: Outputs, St>(
    queries: &[Query],
    jobs: &mut Vec<Job<S, O::Snk, St>>,
    outputs: &mut O,
)
    requires len { length queries.now ≡ vec_len jobs.old }
    requires apart { AreApart queries.now }
    requires before { AreAll IsBegun (map (work_of S.remaining S.faults O.Snk.contents O.Snk.faults) jobs.old.items) }
    ensures works { (files : List ℕ → Option (List ℕ)) (reads : List ℕ → ℕ) (slots : Tally) → KeepsWorks (seen files reads (O.written outputs.old) (O.is_created outputs.old) (O.faults_at outputs.old) slots) (seen files reads (O.written outputs.new) (O.is_created outputs.new) (O.faults_at outputs.new) slots) queries.now (map (work_of S.remaining S.faults O.Snk.contents O.Snk.faults) jobs.old.items) (map (work_of S.remaining S.faults O.Snk.contents O.Snk.faults) jobs.new.items) }
    ensures step { AreAll IsCreated (map (work_of S.remaining S.faults O.Snk.contents O.Snk.faults) jobs.new.items) }
    ensures refused { KeepRefused (map (work_of S.remaining S.faults O.Snk.contents O.Snk.faults) jobs.old.items) (map (work_of S.remaining S.faults O.Snk.contents O.Snk.faults) jobs.new.items) }
    ensures answers { GiveNoAnswers (map (work_of S.remaining S.faults O.Snk.contents O.Snk.faults) jobs.old.items) (map (work_of S.remaining S.faults O.Snk.contents O.Snk.faults) jobs.new.items) }
    ensures sessions { map (λ job. job.session) jobs.new.items ≡ map (λ job. job.session) jobs.old.items }
    ensures len { vec_len jobs.new ≡ vec_len jobs.old }
    ensures went { (files : List ℕ → Option (List ℕ)) (reads : List ℕ → ℕ) (slots : Tally) → Went (seen files reads (O.written outputs.old) (O.is_created outputs.old) (O.faults_at outputs.old) slots) (seen files reads (O.written outputs.new) (O.is_created outputs.new) (O.faults_at outputs.new) slots) }
{
    for place in 0..queries.len() {
        create(&queries[place], &mut jobs[place], outputs);
    }
}

// Opens the inputs.
pub(crate) fn open_all<I: Inputs, K: Sink, St>(
    queries: &[Query],
    jobs: &mut Vec<Job<I::Src, K, St>>,
    inputs: &mut I,
)
    requires len { length queries.now ≡ vec_len jobs.old }
    requires before { AreAll IsCreated (map (work_of I.Src.remaining I.Src.faults K.contents K.faults) jobs.old.items) }
    ensures works { (written : List ℕ → Option Written) (created : List ℕ → Bool) (writes : List ℕ → ℕ) (slots : Tally) → KeepsWorks (seen (I.bytes_at inputs.old) (I.faults_at inputs.old) written created writes slots) (seen (I.bytes_at inputs.new) (I.faults_at inputs.new) written created writes slots) queries.now (map (work_of I.Src.remaining I.Src.faults K.contents K.faults) jobs.old.items) (map (work_of I.Src.remaining I.Src.faults K.contents K.faults) jobs.new.items) }
    ensures step { AreAll IsOpen (map (work_of I.Src.remaining I.Src.faults K.contents K.faults) jobs.new.items) }
    ensures refused { KeepRefused (map (work_of I.Src.remaining I.Src.faults K.contents K.faults) jobs.old.items) (map (work_of I.Src.remaining I.Src.faults K.contents K.faults) jobs.new.items) }
    ensures answers { GiveNoAnswers (map (work_of I.Src.remaining I.Src.faults K.contents K.faults) jobs.old.items) (map (work_of I.Src.remaining I.Src.faults K.contents K.faults) jobs.new.items) }
    ensures sessions { map (λ job. job.session) jobs.new.items ≡ map (λ job. job.session) jobs.old.items }
    ensures len { vec_len jobs.new ≡ vec_len jobs.old }
    ensures went { (written : List ℕ → Option Written) (created : List ℕ → Bool) (writes : List ℕ → ℕ) (slots : Tally) → Went (seen (I.bytes_at inputs.old) (I.faults_at inputs.old) written created writes slots) (seen (I.bytes_at inputs.new) (I.faults_at inputs.new) written created writes slots) }
{
    for place in 0..queries.len() {
        open(&queries[place], &mut jobs[place], inputs);
    }
}

// Runs those queries that have not ended, each over its session, in a thread of its own where one can be made, while the
// pool's writers store pages, which are told to end when all queries have.
pub(crate) fn answer_beside<
    R: Threads + Wait + Clock + Sync,
    S: Source + Send,
    K: Sink + Send,
    St: Store + Send,
    D: Slot + Drop + Send,
    T: Opened + Send,
    G: Gate,
>(
    rt: &R,
    alloc: Global,
    queries: &[Query],
    jobs: &mut [Job<S, K, St>],
    writers: &mut [Writer<'_, D, R, T>],
    pool: &Pool<D, T>,
    pass: &mut Pass<D, T>,
    gate: &G,
)
    requires few { length queries.now ≤ 16 }
    requires len { length queries.now ≡ length jobs.old }
    requires can { AllCanRun S.remaining S.faults K.contents K.faults St.holds St.signs queries.now jobs.old }
    requires table { pass.old.table ≡ pool.now }
    ensures len { length jobs.new ≡ length jobs.old }
    ensures each { AreAnswered S.remaining S.faults K.contents K.faults St.holds St.signs queries.now jobs.old jobs.new }
    ensures stops { Stops pass.old pass.new }
    ensures at { map (λ w. w.seat.spot.table) writers.new ≡ map (λ w. w.seat.spot.table) writers.old }
{
    let answer_at = |place: usize, job: &mut Job<S, K, St>|
        requires { (place < length queries.now) × (length queries.now ≤ 16) × ((query : Query) → slice_get queries.now place ≡ Some query → CanRun S.remaining S.faults K.contents K.faults St.holds St.signs query job.now) }
        ensures { (query : Query) → slice_get queries.entry.now place ≡ Some query → IsAnswered S.remaining S.faults K.contents K.faults St.holds St.signs query job.entry.now job.exit.now }
    { answer_at_gate(alloc, gate, place as u32, &queries[place], job) };
    each_beside_writers(rt, pool, pass, writers, gate, &answer_at, jobs);
}

// Gives the sources back.
pub(crate) fn close_all<I: Inputs, K: Sink, St>(
    queries: &[Query],
    jobs: &mut Vec<Job<I::Src, K, St>>,
    inputs: &mut I,
)
    requires len { length queries.now ≡ vec_len jobs.old }
    requires before { AreAll IsEnded (map (work_of I.Src.remaining I.Src.faults K.contents K.faults) jobs.old.items) }
    requires sides { AreEach HasSides queries.now (map (work_of I.Src.remaining I.Src.faults K.contents K.faults) jobs.old.items) }
    ensures works { (written : List ℕ → Option Written) (created : List ℕ → Bool) (writes : List ℕ → ℕ) (slots : Tally) → KeepsWorks (seen (I.bytes_at inputs.old) (I.faults_at inputs.old) written created writes slots) (seen (I.bytes_at inputs.new) (I.faults_at inputs.new) written created writes slots) queries.now (map (work_of I.Src.remaining I.Src.faults K.contents K.faults) jobs.old.items) (map (work_of I.Src.remaining I.Src.faults K.contents K.faults) jobs.new.items) }
    ensures step { AreAll IsRead (map (work_of I.Src.remaining I.Src.faults K.contents K.faults) jobs.new.items) }
    ensures refused { KeepRefused (map (work_of I.Src.remaining I.Src.faults K.contents K.faults) jobs.old.items) (map (work_of I.Src.remaining I.Src.faults K.contents K.faults) jobs.new.items) }
    ensures answers { GiveNoAnswers (map (work_of I.Src.remaining I.Src.faults K.contents K.faults) jobs.old.items) (map (work_of I.Src.remaining I.Src.faults K.contents K.faults) jobs.new.items) }
    ensures sessions { map (λ job. job.session) jobs.new.items ≡ map (λ job. job.session) jobs.old.items }
    ensures len { vec_len jobs.new ≡ vec_len jobs.old }
    ensures went { (written : List ℕ → Option Written) (created : List ℕ → Bool) (writes : List ℕ → ℕ) (slots : Tally) → Went (seen (I.bytes_at inputs.old) (I.faults_at inputs.old) written created writes slots) (seen (I.bytes_at inputs.new) (I.faults_at inputs.new) written created writes slots) }
{
    for place in 0..queries.len() {
        close(&queries[place], &mut jobs[place], inputs);
    }
}

// Gives the sinks back.
pub(crate) fn finish_all<S: Source, O: Outputs, St>(
    queries: &[Query],
    jobs: &mut Vec<Job<S, O::Snk, St>>,
    outputs: &mut O,
)
    requires len { length queries.now ≡ vec_len jobs.old }
    requires apart { AreApart queries.now }
    requires created { AreMade (O.is_created outputs.old) queries.now (map (work_of S.remaining S.faults O.Snk.contents O.Snk.faults) jobs.old.items) }
    requires before { AreAll IsRead (map (work_of S.remaining S.faults O.Snk.contents O.Snk.faults) jobs.old.items) }
    ensures works { (files : List ℕ → Option (List ℕ)) (reads : List ℕ → ℕ) (slots : Tally) → KeepsWorks (seen files reads (O.written outputs.old) (O.is_created outputs.old) (O.faults_at outputs.old) slots) (seen files reads (O.written outputs.new) (O.is_created outputs.new) (O.faults_at outputs.new) slots) queries.now (map (work_of S.remaining S.faults O.Snk.contents O.Snk.faults) jobs.old.items) (map (work_of S.remaining S.faults O.Snk.contents O.Snk.faults) jobs.new.items) }
    ensures step { AreAll IsDone (map (work_of S.remaining S.faults O.Snk.contents O.Snk.faults) jobs.new.items) }
    ensures refused { KeepRefused (map (work_of S.remaining S.faults O.Snk.contents O.Snk.faults) jobs.old.items) (map (work_of S.remaining S.faults O.Snk.contents O.Snk.faults) jobs.new.items) }
    ensures answers { GiveNoAnswers (map (work_of S.remaining S.faults O.Snk.contents O.Snk.faults) jobs.old.items) (map (work_of S.remaining S.faults O.Snk.contents O.Snk.faults) jobs.new.items) }
    ensures sessions { map (λ job. job.session) jobs.new.items ≡ map (λ job. job.session) jobs.old.items }
    ensures len { vec_len jobs.new ≡ vec_len jobs.old }
    ensures went { (files : List ℕ → Option (List ℕ)) (reads : List ℕ → ℕ) (slots : Tally) → Went (seen files reads (O.written outputs.old) (O.is_created outputs.old) (O.faults_at outputs.old) slots) (seen files reads (O.written outputs.new) (O.is_created outputs.new) (O.faults_at outputs.new) slots) }
{
    for place in 0..queries.len() {
        finish(&queries[place], &mut jobs[place], outputs);
    }
}

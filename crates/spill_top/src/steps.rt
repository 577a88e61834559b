// What is done for one query of a plan.

ghost use Rattle.std.specs.Prelude.{◌≡◌, ℕ, Bool, true, IsSome, List, Option};
ghost use Rattle.outside.specs.Counts.{NoneFell};
ghost use Rattle.outside.specs.Names.{AllStay, TakesFaults, Written};
ghost use Rattle.pin_core.specs.declared.tally.Tally.{Tally};
ghost use Rattle.query_run.specs.Both.{faults_in};
ghost use Rattle.spill_top.specs.Jobs.{HasSides, KeepsWork, work_of};
ghost use Rattle.spill_top.specs.Steps.{GivesNoAnswer, IsBegun, IsCreated, IsDone, IsEnded, IsOpen, IsRead, has_answer};
ghost use Rattle.spill_top.specs.Running.{Went, WentAt, seen};

use crate::ending::Ending;
use crate::job::{Job, let_go};
use outside::{Inputs, Outputs, Sink, Source};
use query_plan::{Query, Side};
use query_run::QueryErr;
use std::mem;

// Creates the output, unless the query has ended.
pub(crate) fn create<S: Source, O: Outputs, St>(
    query: &Query,
    job: &mut Job<S, O::Snk, St>,
    outputs: &mut O,
)
    requires begun { IsBegun (work_of S.remaining S.faults O.Snk.contents O.Snk.faults job.old) }
    ensures work { (files : List ℕ → Option (List ℕ)) (reads : List ℕ → ℕ) (slots : Tally) → KeepsWork (seen files reads (O.written outputs.old) (O.is_created outputs.old) (O.faults_at outputs.old) slots) (seen files reads (O.written outputs.new) (O.is_created outputs.new) (O.faults_at outputs.new) slots) query.now (work_of S.remaining S.faults O.Snk.contents O.Snk.faults job.old) (work_of S.remaining S.faults O.Snk.contents O.Snk.faults job.new) }
    ensures step { IsCreated (work_of S.remaining S.faults O.Snk.contents O.Snk.faults job.new) }
    ensures refused { job.new.refused ≡ job.old.refused }
    ensures session { job.new.session ≡ job.old.session }
    ensures ended { GivesNoAnswer job.old.ended job.new.ended }
    ensures went { (files : List ℕ → Option (List ℕ)) (reads : List ℕ → ℕ) (slots : Tally) → WentAt query.now.output (seen files reads (O.written outputs.old) (O.is_created outputs.old) (O.faults_at outputs.old) slots) (seen files reads (O.written outputs.new) (O.is_created outputs.new) (O.faults_at outputs.new) slots) }
{
    if job.ended.is_some() {
        return;
    }
    match outputs.create(query.output.as_str()) {
        Ok(sink) => let_go(mem::replace(&mut job.sink, Some(sink))),
        Err(_) => job.ended = Some(Ending::Stopped(QueryErr::SinkFault)),
    }
}

// Opens the inputs, the left one first, unless the query has ended. One that can't be opened ends it.
pub(crate) fn open<I: Inputs, K: Sink, St>(
    query: &Query,
    job: &mut Job<I::Src, K, St>,
    inputs: &mut I,
)
    requires begun { IsCreated (work_of I.Src.remaining I.Src.faults K.contents K.faults job.old) }
    ensures work { (written : List ℕ → Option Written) (created : List ℕ → Bool) (writes : List ℕ → ℕ) (slots : Tally) → KeepsWork (seen (I.bytes_at inputs.old) (I.faults_at inputs.old) written created writes slots) (seen (I.bytes_at inputs.new) (I.faults_at inputs.new) written created writes slots) query.now (work_of I.Src.remaining I.Src.faults K.contents K.faults job.old) (work_of I.Src.remaining I.Src.faults K.contents K.faults job.new) }
    ensures step { IsOpen (work_of I.Src.remaining I.Src.faults K.contents K.faults job.new) }
    ensures refused { job.new.refused ≡ job.old.refused }
    ensures session { job.new.session ≡ job.old.session }
    ensures ended { GivesNoAnswer job.old.ended job.new.ended }
    ensures went { (written : List ℕ → Option Written) (created : List ℕ → Bool) (writes : List ℕ → ℕ) (slots : Tally) → Went (seen (I.bytes_at inputs.old) (I.faults_at inputs.old) written created writes slots) (seen (I.bytes_at inputs.new) (I.faults_at inputs.new) written created writes slots) }
{
    if job.ended.is_some() {
        return;
    }
    let Ok(left) = inputs.open(query.left.file.as_str()) else {
        let side = Side::Left;
        job.ended = Some(Ending::Stopped(QueryErr::SourceFault { side }));
        return;
    };
    let_go(mem::replace(&mut job.left, Some(left)));
    let Some(right) = &query.right else {
        return;
    };
    let Ok(right) = inputs.open(right.file.as_str()) else {
        let side = Side::Right;
        job.ended = Some(Ending::Stopped(QueryErr::SourceFault { side }));
        return;
    };
    let_go(mem::replace(&mut job.right, Some(right)));
}

// Gives the sources back, the left one first.
pub(crate) fn close<I: Inputs, K: Sink, St>(
    query: &Query,
    job: &mut Job<I::Src, K, St>,
    inputs: &mut I,
)
    requires begun { IsEnded (work_of I.Src.remaining I.Src.faults K.contents K.faults job.old) }
    requires sides { HasSides query.now (work_of I.Src.remaining I.Src.faults K.contents K.faults job.old) }
    ensures work { (written : List ℕ → Option Written) (created : List ℕ → Bool) (writes : List ℕ → ℕ) (slots : Tally) → KeepsWork (seen (I.bytes_at inputs.old) (I.faults_at inputs.old) written created writes slots) (seen (I.bytes_at inputs.new) (I.faults_at inputs.new) written created writes slots) query.now (work_of I.Src.remaining I.Src.faults K.contents K.faults job.old) (work_of I.Src.remaining I.Src.faults K.contents K.faults job.new) }
    ensures step { IsRead (work_of I.Src.remaining I.Src.faults K.contents K.faults job.new) }
    ensures refused { job.new.refused ≡ job.old.refused }
    ensures session { job.new.session ≡ job.old.session }
    ensures ended { GivesNoAnswer job.old.ended job.new.ended }
    ensures went { (written : List ℕ → Option Written) (created : List ℕ → Bool) (writes : List ℕ → ℕ) (slots : Tally) → Went (seen (I.bytes_at inputs.old) (I.faults_at inputs.old) written created writes slots) (seen (I.bytes_at inputs.new) (I.faults_at inputs.new) written created writes slots) }
{
    give_back(query.left.file.as_str(), job.left.take(), inputs);
    if let Some(right) = &query.right {
        give_back(right.file.as_str(), job.right.take(), inputs);
    }
}

// Gives back the source of a file, if it is there.
fn give_back<I: Inputs>(file: &str, source: Option<I::Src>, inputs: &mut I)
    ensures takes { TakesFaults (faults_in I.Src.faults source) (I.faults_at inputs.old file.now) (I.faults_at inputs.new file.now) }
    ensures kept { AllStay (I.bytes_at inputs.old) (I.bytes_at inputs.new) }
    ensures never_falls { NoneFell (I.faults_at inputs.old) (I.faults_at inputs.new) }
{
    if let Some(source) = source {
        inputs.close(file, source);
    }
}

// Gives the sink back, and says whether its answer is complete.
pub(crate) fn finish<S: Source, O: Outputs, St>(
    query: &Query,
    job: &mut Job<S, O::Snk, St>,
    outputs: &mut O,
)
    requires begun { IsRead (work_of S.remaining S.faults O.Snk.contents O.Snk.faults job.old) }
    requires created { IsSome job.old.sink → O.is_created outputs.old query.now.output ≡ true }
    ensures work { (files : List ℕ → Option (List ℕ)) (reads : List ℕ → ℕ) (slots : Tally) → KeepsWork (seen files reads (O.written outputs.old) (O.is_created outputs.old) (O.faults_at outputs.old) slots) (seen files reads (O.written outputs.new) (O.is_created outputs.new) (O.faults_at outputs.new) slots) query.now (work_of S.remaining S.faults O.Snk.contents O.Snk.faults job.old) (work_of S.remaining S.faults O.Snk.contents O.Snk.faults job.new) }
    ensures step { IsDone (work_of S.remaining S.faults O.Snk.contents O.Snk.faults job.new) }
    ensures refused { job.new.refused ≡ job.old.refused }
    ensures session { job.new.session ≡ job.old.session }
    ensures ended { GivesNoAnswer job.old.ended job.new.ended }
    ensures went { (files : List ℕ → Option (List ℕ)) (reads : List ℕ → ℕ) (slots : Tally) → WentAt query.now.output (seen files reads (O.written outputs.old) (O.is_created outputs.old) (O.faults_at outputs.old) slots) (seen files reads (O.written outputs.new) (O.is_created outputs.new) (O.faults_at outputs.new) slots) }
{
    let Some(sink) = job.sink.take() else {
        return;
    };
    let whole = is_answered(job.ended);
    match outputs.done(query.output.as_str(), sink, whole) {
        Ok(()) => (),
        Err(_) => {
            if whole {
                job.ended = Some(Ending::Stopped(QueryErr::SinkFault));
            }
        }
    }
}

fn is_answered(ended: Option<Ending>) -> bool
    ensures { result ≡ has_answer ended }
{
    match ended {
        Some(ending) => ending.is_answer(),
        None => false,
    }
}

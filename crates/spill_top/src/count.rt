// The command `count`.

ghost use Rattle.std.specs.Prelude.{◌≡◌, ◌≢◌, ◌≤◌, ◌⊎◌, [], ◌∷◌, Some, IfErr, IsSome, OnOk, false, true, vec_len};
ghost use Rattle.outside.specs.Counts.{NoneFell};
ghost use Rattle.outside.specs.Names.{AllStay};
ghost use Rattle.outside.specs.Faults.{NoneFailed, faults_of};
ghost use Rattle.pin_core.specs.Tallies.{tally_of};
ghost use Rattle.row_codec.specs.declared.values.Kind.TheVariants.{Text};
ghost use Rattle.query_run.specs.Causes.{NamesInt, OfPool};
ghost use Rattle.spill_top.specs.Headline.{Answers, StoresCount};
ghost use Rattle.spill_top.specs.Pooled.{ComeBack, all_tell};
ghost use Rattle.spill_top.specs.Refusals.{refusal_for, refusal_of_pool};
ghost use Rattle.spill_top.specs.Stops.{IsStop};

use crate::plan::{counting_plan, counting_pool};
use crate::report::Refusal;
use crate::watched::{Watched, run_watched};
use outside::{Inputs, Sink, Slot};
use query_run::QueryErr;
use reservation_tree::PoolErr;
use std::alloc::Global;
use std::marker::Brand;
use std::sync::Wait;
use std::thread::Threads;
use std::time::Clock;

// Why there is no whole answer in the report.
#[derive(Clone, Copy)]
pub(crate) enum Stop {
    // The report failed, and nothing more is written to it.
    Report,
    // Memory was wanting, and nothing was written.
    Memory,
    // Memory was wanting when a front of the answer may have been written.
    Short,
    // The count was refused, and nothing was written.
    Refused(Refusal),
    // It was refused when some of the answer was written.
    Broken(Refusal),
}

// Counts a column of a file, over a pool of these slots, and writes the answer to the report. The source is opened before
// the pool, and given back in any case; and so are the slots.
pub(crate) fn count<W: Wait + Threads + Clock + Sync, I: Inputs, R: Sink, D: Slot + Drop + Send>(
    rt: &W,
    alloc: Global,
    file: &str,
    column: &str,
    inputs: &mut I,
    report: &mut R,
    slots: &mut Vec<D>,
) -> Result<(), Stop>
    requires few { vec_len slots.old ≤ 1048576 }
    ensures answer { all_tell (tally_of D.Slot slots.old.items) ≡ true → OnOk result (Answers (I.bytes_at inputs.old) (R.contents report.old) (R.contents report.new) (record { file = file.now; column = column.now })) }
    ensures quiet { OnOk result (NoneFailed (faults_of R.Sink report.old) (faults_of R.Sink report.new)) }
    ensures stop { IfErr result (IsStop (I.bytes_at inputs.old) (I.faults_at inputs.old file.now) (I.faults_at inputs.new file.now) (tally_of D.Slot slots.old.items) (tally_of D.Slot slots.new.items) (R.contents report.old) (R.contents report.new) (faults_of R.Sink report.old) (faults_of R.Sink report.new) (record { file = file.now; column = column.now })) }
    ensures stored { OnOk result (StoresCount (I.bytes_at inputs.old file.now) (tally_of D.Slot slots.old.items) (tally_of D.Slot slots.new.items) (record { file = file.now; column = column.now })) }
    ensures inputs { AllStay (I.bytes_at inputs.old) (I.bytes_at inputs.new) }
    ensures never_falls { NoneFell (I.faults_at inputs.old) (I.faults_at inputs.new) }
    ensures report { R.faults report.old ≤ R.faults report.new }
    ensures slots { ComeBack (tally_of D.Slot slots.old.items) (tally_of D.Slot slots.new.items) }
{
    let Ok(plan) = counting_plan(alloc, file, column) else {
        return Err(Stop::Memory);
    };
    let Ok(mut left) = inputs.open(file) else {
        return Err(Stop::Refused(Refusal::InputFault));
    };
    let watched = Watched {
        sink: report,
        written: false,
    };
    let pool = counting_pool();
    let (ran, watched) = run_watched::<Brand, W, I::Src, R, D>(
        rt, alloc, &plan, &pool, slots, &mut left, watched,
    );
    inputs.close(file, left);
    let written = watched.written;
    let Watched {
        sink: _report,
        written: _,
    } = watched;
    let Err(e) = ran else {
        return Ok(());
    };
    Err(Stop::of(e, written))
}

impl Stop {
    // Why a query stopped that counts texts: a column of texts has no bad field, and of a pool's answers want of memory
    // alone is no refusal.
    #[tactic(auto, using(crate::proofs::OnlyMemory::unrefused))]
    fn of(e: QueryErr, written: bool) -> Stop
        requires text { NamesInt (Text ∷ []) e }
        requires pool { OfPool (λ why. (why ≡ PoolErr.Memory) ⊎ IsSome (refusal_of_pool why)) e }
        ensures refused { (why : Refusal) → result ≡ Stop.Refused why → (refusal_for e ≡ Some why) × (written ≡ false) }
        ensures broken { (why : Refusal) → result ≡ Stop.Broken why → (refusal_for e ≡ Some why) × (written ≡ true) }
        ensures report { result ≡ Stop.Report → e ≡ QueryErr.SinkFault }
        ensures short { result ≡ Stop.Short → e ≡ QueryErr.Pool PoolErr.Memory }
        ensures apart { result ≢ Stop.Memory }
    {
        if let Some(refusal) = Refusal::of(&e) {
            return if written {
                Stop::Broken(refusal)
            } else {
                Stop::Refused(refusal)
            };
        }
        match &e {
            QueryErr::SinkFault => Stop::Report,
            QueryErr::Pool(PoolErr::Memory) => Stop::Short,
            _ => unreachable!(),
        }
    }
}

// A count's query, whose report is watched for whether anything was written to it.

ghost use Rattle.std.specs.Prelude.{◌≡◌, ◌≤◌, ◌⊎◌, ℕ, [], List, None, Option, Some, IfErr, IsSome, OnOk, false, true, vec_len};
ghost use Rattle.std.specs.Io.KnownBytes.{Keeps};
ghost use Rattle.spill_top.specs.Pooled.{memory_of};
ghost use Rattle.pin_core.specs.Tallies.{tally_of};
ghost use Rattle.query_plan.specs.Sizes.{page_len};
ghost use Rattle.query_run.specs.Causes.{OfPool, side_of};
ghost use Rattle.query_run.specs.Plans.{IsRunnable};
ghost use Rattle.query_run.specs.Run.{ReadAndWrote, world};
ghost use Rattle.spill_top.specs.OneInput.{WroteFrontOver};
ghost use Rattle.spill_top.specs.Pooled.{ComeBack, HasMemoryFor, HaveFailed, IsPoolStop, all_tell};
ghost use Rattle.spill_top.specs.Sides.{if_told};
ghost use Rattle.query_run.specs.Both.{both_told};
ghost use Rattle.spill_top.specs.Report.{Lengthens, LongerTold, StillTold};
ghost use Rattle.spill_top.specs.Storing.{HaveStored, owed};

use crate::job::let_go;
use crate::pooled::{PoolRun, run_pooled};
use outside::{Failed, Sink, Slot, Source};
use pin_core::PoolConf;
use query_plan::Query;
use query_run::{QueryErr, Ran};
use std::alloc::Global;
use std::marker::{Brand, PhantomData};
use std::sync::Wait;
use std::thread::Threads;
use std::time::Clock;

// How many writers a count has.
const WRITERS: u32 = 2;

// A report, and whether anything was written to it.
pub(crate) struct Watched<'a, R> {
    pub(crate) sink: &'a mut R,
    pub(crate) written: bool,
}

// What stood in a report before, and which reference to it is watched.
pub(crate) trait Start {
    ghost before: { Option (List ℕ) };

    ghost name: { ℕ };
}

impl Start for Brand {
    ghost use Rattle.std.specs.Prelude.{None};

    ghost before = { None };

    ghost name = { 0 };
}

// The same as a sink.
struct Tied<'a, R: Sink, B: Start> {
    watched: Watched<'a, R>,
    of: PhantomData<B>,
    ghost name: { watched.sink.ghost_name ≡ B.name },
    ghost kept: { watched.written ≡ false → StillTold B.before (R.contents watched.sink.now) },
    ghost longer: { watched.written ≡ true → LongerTold B.before (R.contents watched.sink.now) },
}

impl<'a, R: Sink, B: Start> Sink for Tied<'a, R, B> {
    ghost contents = { λ s. R.contents s.watched.sink.now };

    ghost at_failure = { λ s. R.at_failure s.watched.sink.now };

    ghost faults = { λ s. R.faults s.watched.sink.now };

    fn write(&mut self, piece: &[u8]) -> Result<usize, Failed> {
        let watched = &mut self.watched;
        let count = watched.sink.write(piece)?;
        watched.written = true;
        Ok(count)
    }
}

// Runs a query without a right input over a pool with these numbers, whose pages may take all slots.
pub(crate) fn run_watched<
    'a,
    B: Start,
    W: Wait + Threads + Clock + Sync,
    S: Source,
    R: Sink,
    D: Slot + Drop + Send,
>(
    rt: &W,
    alloc: Global,
    plan: &Query,
    conf: &PoolConf,
    slots: &mut Vec<D>,
    left: &mut S,
    watched: Watched<'a, R>,
) -> (Result<Ran, QueryErr>, Watched<'a, R>)
    requires plan { IsRunnable plan.now }
    requires alone { plan.now.right ≡ None }
    requires memory { HasMemoryFor plan.now conf.now }
    requires few { vec_len slots.old ≤ 1048576 }
    requires name { watched.sink.ghost_name ≡ B.name }
    requires before { R.contents watched.sink.now ≡ B.before }
    requires unwritten { watched.written ≡ false }
    ensures outside { ReadAndWrote S.Source R.Sink plan.now (page_len plan.now conf.now.block_len) (all_tell (tally_of D.Slot slots.old.items))
        (world left.old None watched.entry.sink.now) (world left.new None result.1.sink.now) result.0 }
    ensures pool { IfErr result.0 (OfPool (IsPoolStop plan.now (page_len plan.now conf.now.block_len) (if_told (all_tell (tally_of D.Slot slots.old.items)) (both_told (S.remaining left.old) (Some []))) (vec_len slots.old) (HaveFailed (tally_of D.Slot slots.old.items) (tally_of D.Slot slots.new.items)))) }
    ensures untouched { IfErr result.0 (λ e. IsSome (side_of e) → result.1.written ≡ false) }
    ensures stopped { IfErr result.0 (λ _. (result.1.written ≡ false) ⊎ (all_tell (tally_of D.Slot slots.old.items) ≡ true → WroteFrontOver plan.now (page_len plan.now conf.now.block_len) (S.remaining left.old) (R.contents watched.entry.sink.now) (R.contents result.1.sink.now))) }
    ensures kept { result.1.written ≡ false → Keeps (R.contents watched.entry.sink.now) (R.contents result.1.sink.now) }
    ensures longer { result.1.written ≡ true → Lengthens (R.contents watched.entry.sink.now) (R.contents result.1.sink.now) }
    ensures slots { ComeBack (tally_of D.Slot slots.old.items) (tally_of D.Slot slots.new.items) }
    ensures stored { OnOk result.0 (HaveStored conf.now.block_len (owed plan.now (memory_of conf.now) (both_told (S.remaining left.old) (Some []))) (tally_of D.Slot slots.old.items) (tally_of D.Slot slots.new.items)) }
    ensures name { result.1.sink.ghost_name ≡ watched.entry.sink.ghost_name }
{
    let quota = slots.len() as u32;
    let mut right = None;
    let mut tied = Tied::<'a, R, B> {
        watched,
        of: PhantomData,
    };
    let run = PoolRun {
        query: plan,
        conf: *conf,
        writers: WRITERS,
        quota,
    };
    let ran = run_pooled(rt, alloc, &run, slots, left, &mut right, &mut tied);
    let_go(right);
    let Tied { watched, of: _ } = tied;
    (ran, watched)
}

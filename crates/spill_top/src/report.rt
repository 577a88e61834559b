// The lines of refusals.

ghost use Rattle.std.specs.Prelude.{◌≡◌, ◌≤◌, IfOk, Some, None};
ghost use Rattle.outside.specs.Faults.{faults_of};
ghost use Rattle.run_report.specs.declared.outcome.Outcome.TheVariants.{Refused};
ghost use Rattle.run_report.specs.Report.{outcome_text};
ghost use Rattle.spill_top.specs.Report.{Tells, TellsOrMisses, line_of, outcome_of, shortage, usage, status_of};
ghost use Rattle.spill_top.specs.Refusals.{Says, refusal_for, refusal_of_pool};

use csv_edge::write_whole;
use outside::Sink;
use query_plan::Side;
use query_run::QueryErr;
use reservation_tree::PoolErr;
use row_codec::Memory;
use run_report::{Cause, Outcome, outcome_line};
use std::alloc::Global;

// Why a count has no answer: its input is at fault, or its pool refused. Records are numbered from 0, the header; a weight is
// in bytes, need and free are numbers of slots, and an entry is one of the pool's history.
#[derive(Clone, Copy)]
pub(crate) enum Refusal {
    InputFault,
    Header,
    Csv { number: u64 },
    Large,
    Row { number: u64, weight: u64 },
    Scratch { need: u32, free: u32 },
    Names,
    Write { entry: u64 },
    Read { entry: u64 },
}

impl Refusal {
    // What the cause of a query is to its command, where it is one of the input or of the pool.
    pub(crate) fn of(e: &QueryErr) -> Option<Refusal>
        ensures { result ≡ refusal_for e.now }
    {
        match e {
            QueryErr::SourceFault { side: _ } => Some(Refusal::InputFault),
            QueryErr::BadHeader { side: _ } => Some(Refusal::Header),
            QueryErr::BadCsv { side: _, number } => Some(Refusal::Csv { number: *number }),
            QueryErr::TooLarge { side: _ } => Some(Refusal::Large),
            QueryErr::RowTooLong {
                side: _,
                number,
                bytes,
            } => Some(Refusal::Row {
                number: *number,
                weight: *bytes,
            }),
            QueryErr::BadField {
                side: _,
                number: _,
                column: _,
            }
            | QueryErr::SinkFault => None,
            QueryErr::Pool(e) => Refusal::of_pool(*e),
        }
    }

    fn of_pool(e: PoolErr) -> Option<Refusal>
        ensures { result ≡ refusal_of_pool e }
    {
        match e {
            PoolErr::ScratchFull { need, free } => Some(Refusal::Scratch { need, free }),
            PoolErr::NamesSpent => Some(Refusal::Names),
            PoolErr::WriteFault { entry } => Some(Refusal::Write { entry }),
            PoolErr::ReadFault { entry } => Some(Refusal::Read { entry }),
            PoolErr::NoReservation { .. }
            | PoolErr::TooManyTrackers { .. }
            | PoolErr::Stale { .. }
            | PoolErr::Memory => None,
        }
    }

    pub(crate) fn status(self) -> u8
        ensures { result ≡ status_of self }
    {
        match self {
            Refusal::InputFault => 3,
            Refusal::Header | Refusal::Csv { number: _ } | Refusal::Large => 4,
            Refusal::Row {
                number: _,
                weight: _,
            } => 5,
            Refusal::Scratch { .. } | Refusal::Names => 7,
            Refusal::Write { .. } | Refusal::Read { .. } => 8,
        }
    }

    // What a command comes to that is so refused.
    fn outcome(self) -> Outcome
        ensures { result ≡ outcome_of self }
    {
        let side = Side::Left;
        let status = self.status();
        let cause = match self {
            Refusal::InputFault => Cause::Input { side },
            Refusal::Header => Cause::Header { side },
            Refusal::Csv { number } => Cause::Csv { side, number },
            Refusal::Large => Cause::Large { side },
            Refusal::Row { number, weight } => Cause::Row {
                side,
                number,
                weight,
            },
            Refusal::Scratch { need, free } => Cause::Scratch { need, free },
            Refusal::Names => Cause::Names,
            Refusal::Write { entry } => Cause::Write { entry },
            Refusal::Read { entry } => Cause::Read { entry },
        };
        Outcome::Refused { status, cause }
    }

    // Its line.
    fn line(self, alloc: Global) -> Result<Vec<u8>, Memory>
        ensures { IfOk result (λ line. line.items ≡ line_of self) }
    {
        outcome_line(alloc, None, &self.outcome())
    }
}

// Appends the line of a refusal to the report, unless it finds no memory, and answers its status.
pub(crate) fn refuse<R: Sink>(alloc: Global, report: &mut R, refusal: Refusal) -> u8
    ensures says { Says refusal result (R.contents report.old) (R.contents report.new) (faults_of R.Sink report.old) (faults_of R.Sink report.new) }
    ensures never_falls { R.faults report.old ≤ R.faults report.new }
{
    let status = refusal.status();
    let Ok(line) = refusal.line(alloc) else {
        return status;
    };
    tell(report, line.as_slice());
    status
}

// Appends the line of a command that is refused so, unless it finds no memory, and answers its status.
pub(crate) fn refuse_as<R: Sink>(alloc: Global, report: &mut R, status: u8, cause: Cause) -> u8
    ensures status { result ≡ status }
    ensures tells { TellsOrMisses (outcome_text None (Refused status cause)) (R.contents report.old) (R.contents report.new) (faults_of R.Sink report.old) (faults_of R.Sink report.new) }
    ensures never_falls { R.faults report.old ≤ R.faults report.new }
{
    if let Ok(line) = outcome_line(alloc, None, &Outcome::Refused { status, cause }) {
        tell(report, line.as_slice());
    }
    status
}

// Appends the line for want of memory, which takes none, and answers its status.
pub(crate) fn refuse_memory<R: Sink>(report: &mut R) -> u8
    ensures status { result ≡ 10 }
    ensures tells { Tells shortage (R.contents report.old) (R.contents report.new) (faults_of R.Sink report.old) (faults_of R.Sink report.new) }
    ensures never_falls { R.faults report.old ≤ R.faults report.new }
{
    tell(report, b"10 memory\n");
    10
}

// Appends the line for words that are no command.
pub(crate) fn refuse_words<R: Sink>(report: &mut R)
    ensures tells { Tells usage (R.contents report.old) (R.contents report.new) (faults_of R.Sink report.old) (faults_of R.Sink report.new) }
    ensures never_falls { R.faults report.old ≤ R.faults report.new }
{
    tell(report, b"1 words\n");
}

// Appends a line.
pub(crate) fn tell<R: Sink>(report: &mut R, line: &[u8])
    ensures tells { Tells line.now (R.contents report.old) (R.contents report.new) (faults_of R.Sink report.old) (faults_of R.Sink report.new) }
    ensures never_falls { R.faults report.old ≤ R.faults report.new }
{
    let _ = write_whole(report, line);
}

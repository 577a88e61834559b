// How a query of a plan ended.

ghost use Rattle.std.specs.Prelude.{◌≡◌, IfOk};
ghost use Rattle.query_plan.specs.declared.plan.Query.{Query};
ghost use Rattle.spill_top.specs.Endings.{HasPlainCause, cause_of, cause_of_pool, column_name, columns_on, is_answer, outcome_of, status_of};

use query_plan::{Query, Side};
use query_run::QueryErr;
use reservation_tree::PoolErr;
use row_codec::{Bytes, Column, Memory};
use run_report::{Cause, Outcome};
use std::alloc::Global;

// Numbers of a reservation are in bytes.
#[derive(Clone, Copy)]
pub(crate) enum Ending {
    // With an answer of so many lines.
    Lines(u64),
    // The least reservation was refused, by the root or by the query's own tracker.
    Reservation { root: bool, wanted: u64, room: u64 },
    // Without an answer, or without a place for it.
    Stopped(QueryErr),
}

impl Ending {
    pub(crate) fn is_answer(self) -> bool
        ensures { result ≡ is_answer self }
    {
        match self {
            Ending::Lines(_) => true,
            Ending::Reservation { .. } | Ending::Stopped(_) => false,
        }
    }

    pub(crate) fn status(self) -> u8
        ensures { result ≡ status_of self }
    {
        match self {
            Ending::Lines(_) => 0,
            Ending::Reservation { .. } => 6,
            Ending::Stopped(e) => status_of_error(&e),
        }
    }

    // What the report says of it.
    pub(crate) fn outcome(self, alloc: Global, query: &Query) -> Result<Outcome, Memory>
        ensures { IfOk result (λ outcome. outcome ≡ outcome_of query.now self) }
    {
        match self {
            Ending::Lines(lines) => Ok(Outcome::Lines(lines)),
            Ending::Reservation { root, wanted, room } => {
                let cause = Cause::Reservation { root, wanted, room };
                Ok(Outcome::Refused { status: 6, cause })
            }
            Ending::Stopped(e) => {
                let status = status_of_error(&e);
                let cause = cause_of(alloc, query, e)?;
                Ok(Outcome::Refused { status, cause })
            }
        }
    }
}

fn status_of_error(e: &QueryErr) -> u8
    ensures { result ≡ status_of (Ending.Stopped e.now) }
{
    match e {
        QueryErr::SourceFault { .. } => 3,
        QueryErr::BadHeader { .. }
        | QueryErr::BadCsv { .. }
        | QueryErr::BadField { .. }
        | QueryErr::TooLarge { .. } => 4,
        QueryErr::RowTooLong { .. } => 5,
        QueryErr::SinkFault => 9,
        QueryErr::Pool(PoolErr::ScratchFull { .. } | PoolErr::NamesSpent) => 7,
        QueryErr::Pool(PoolErr::WriteFault { .. } | PoolErr::ReadFault { .. }) => 8,
        QueryErr::Pool(_) => 10,
    }
}

// The cause that is printed.
fn cause_of(alloc: Global, query: &Query, e: QueryErr) -> Result<Cause, Memory>
    ensures { IfOk result (λ cause. cause ≡ cause_of query.now e) }
{
    if let QueryErr::BadField {
        side,
        number,
        column,
    } = e
    {
        let name = column_name(alloc, query, side, column)?;
        return Ok(Cause::Field { side, number, name });
    }
    Ok(plain_cause_of(e))
}

// The same where no column is named; a field has its own.
fn plain_cause_of(e: QueryErr) -> Cause
    requires { HasPlainCause e }
    ensures { (query : Query) → result ≡ cause_of query e }
{
    match e {
        QueryErr::SourceFault { side } => Cause::Input { side },
        QueryErr::BadHeader { side } => Cause::Header { side },
        QueryErr::BadCsv { side, number } => Cause::Csv { side, number },
        QueryErr::BadField { .. } => unreachable!(),
        QueryErr::TooLarge { side } => Cause::Large { side },
        QueryErr::RowTooLong {
            side,
            number,
            bytes,
        } => Cause::Row {
            side,
            number,
            weight: bytes,
        },
        QueryErr::SinkFault => Cause::Output,
        QueryErr::Pool(e) => cause_of_pool(e),
    }
}

fn cause_of_pool(e: PoolErr) -> Cause
    ensures { result ≡ cause_of_pool e }
{
    match e {
        PoolErr::ScratchFull { need, free } => Cause::Scratch { need, free },
        PoolErr::NamesSpent => Cause::Names,
        PoolErr::WriteFault { entry } => Cause::Write { entry },
        PoolErr::ReadFault { entry } => Cause::Read { entry },
        PoolErr::NoReservation { .. }
        | PoolErr::TooManyTrackers { .. }
        | PoolErr::Stale { .. }
        | PoolErr::Memory => { Cause::Memory }
    }
}

// The name of a column of an input, which is empty where there is no such column.
fn column_name(alloc: Global, query: &Query, side: Side, column: u32) -> Result<Bytes, Memory>
    ensures { IfOk result (λ name. name ≡ column_name query.now side column) }
{
    match columns_on(query, side).get(column as usize) {
        Some(column) => Bytes::of(alloc, column.name.as_slice()),
        None => Bytes::of(alloc, b""),
    }
}

fn columns_on(query: &Query, side: Side) -> &[Column]
    ensures { result.now ≡ columns_on query.now side }
{
    match (side, &query.right) {
        (Side::Left, _) => query.left.columns.as_slice(),
        (Side::Right, Some(right)) => right.columns.as_slice(),
        (Side::Right, None) => &[],
    }
}

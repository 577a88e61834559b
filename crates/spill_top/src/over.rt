// One query of a plan, over a session of the pool.

ghost use Rattle.std.specs.Prelude.{◌≡◌, IsSome, is_some};
ghost use Rattle.spill_top.specs.Together.{CanRun, IsAnswered};

use crate::ending::Ending;
use crate::job::{Job, let_go};
use crate::passing::{at_gate, source_of};
use crate::unmarked::run_unmarked;
use outside::{Gate, Point, Sink, Source};
use query_plan::Query;
use std::alloc::Global;
use std::mem;
use store_api::Store;

// Runs the query over its session, unless it has ended.
pub(crate) fn answer<S: Source, K: Sink, St: Store>(
    alloc: Global,
    query: &Query,
    job: &mut Job<S, K, St>,
)
    requires { CanRun S.remaining S.faults K.contents K.faults St.holds St.signs query.now job.old }
    ensures { IsAnswered S.remaining S.faults K.contents K.faults St.holds St.signs query.now job.old job.new }
{
    if job.ended.is_some() {
        return;
    }
    let Some(session) = &mut job.session else {
        unreachable!();
    };
    let Some(left) = &mut job.left else {
        unreachable!();
    };
    let Some(sink) = &mut job.sink else {
        unreachable!();
    };
    let ran = run_unmarked(alloc, session, query, left, &mut job.right, sink);
    job.ended = match ran {
        Ok(ran) => Some(Ending::Lines(ran.lines)),
        Err(e) => Some(Ending::Stopped(e)),
    };
}

// The same of a query that passes the gate as `who`: where its last input ends, and when it was answered.
pub(crate) fn answer_at_gate<S: Source, K: Sink, St: Store, G: Gate>(
    alloc: Global,
    gate: &G,
    who: u32,
    query: &Query,
    job: &mut Job<S, K, St>,
)
    requires { CanRun S.remaining S.faults K.contents K.faults St.holds St.signs query.now job.old }
    ensures { IsAnswered S.remaining S.faults K.contents K.faults St.holds St.signs query.now job.old job.new }
{
    if job.ended.is_some() {
        return;
    }
    let joins = query.right.is_some();
    let mut passing = Job {
        refused: job.refused,
        left: at_gate(job.left.take(), gate, who, !joins),
        right: at_gate(job.right.take(), gate, who, true),
        sink: job.sink.take(),
        ended: None,
        session: job.session.take(),
    };
    answer(alloc, query, &mut passing);
    let Job {
        refused: _,
        left,
        right,
        sink,
        ended,
        session,
    } = passing;
    if let Some(Ending::Lines(_)) = ended {
        gate.pass(who, Point::QueryWrote);
    }
    let_go(mem::replace(&mut job.left, source_of(left)));
    let_go(mem::replace(&mut job.right, source_of(right)));
    let_go(mem::replace(&mut job.sink, sink));
    job.ended = ended;
    let_go(mem::replace(&mut job.session, session));
}

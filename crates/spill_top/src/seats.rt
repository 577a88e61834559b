// How the sessions of a plan's queries come and go.

ghost use Rattle.std.specs.Prelude.{◌≡◌, ◌≤◌, ℕ, [], All, Err, IfOk, IfSome, Some, map, option_map, vec_capacity, vec_len};
ghost use Rattle.pool.specs.Asking.{answer_of};
ghost use Rattle.pool.specs.Sitting.{held_by};
ghost use Rattle.query_plan.specs.Rules.{KeepsQuery};
ghost use Rattle.spill_top.specs.Steps.{AreClosed};
ghost use Rattle.spill_top.specs.Together.{EndAll, EndsOne, IsOneOrRefused, ask_of, ending_of, job_with, over_seat};

use crate::ending::Ending;
use crate::job::{Job, let_go};
use outside::{Gate, Slot};
use pool::{Ask, GatedSession, Opened, Pass, Session};
use query_plan::{Query, least};
use reservation_tree::{PoolErr, TrackerId};
use row_codec::Memory;
use std::alloc::Global;
use std::sync::Wait;

// What the queries ask of the pool: each one session, with its least reservation.
pub(crate) fn asks_of(alloc: Global, queries: &[Query], block_len: u32) -> Result<Vec<Ask>, Memory>
    requires queries { All KeepsQuery queries.now }
    requires block_len { block_len ≤ 65536 }
    ensures { IfOk result (λ asks. asks.items ≡ map (ask_of block_len) queries.now) }
{
    let mut asks = Vec::with_capacity(alloc, queries.len())?;
    for query in queries {
        asks.push_reserved(Ask {
            limit: query.limit,
            quota: query.quota,
            least: least(query, block_len),
            count: 1,
        });
    }
    Ok(asks)
}

// Seats the queries: each has the session that came for it, which passes the gate with the query's number, or has ended
// since its reservation was refused. There is room for all in `jobs`.
pub(crate) fn seat_all<'a, S, K, D: Slot + Drop, R: Wait, T: Opened, N: Opened, G: Gate>(
    mut answers: Vec<Result<Vec<Session<'a, D, R, T, N>>, PoolErr>>,
    mut jobs: Vec<Job<S, K, GatedSession<'a, D, R, G, T, N>>>,
    gate: &'a G,
) -> Vec<Job<S, K, GatedSession<'a, D, R, G, T, N>>>
    requires each { All (λ answer. IsOneOrRefused (answer_of (λ v. v.items) (λ s. s.seat) answer)) answers.items }
    requires few { vec_len answers ≤ 16 }
    requires empty { jobs.items ≡ [] }
    requires room { vec_len answers ≤ vec_capacity jobs }
    ensures { map (over_seat (λ s. s.seat)) result.items ≡ map (λ answer. job_with (answer_of (λ v. v.items) (λ s. s.seat) answer)) answers.entry.items }
{
    // The answers come out from the last.
    answers.as_mut_slice().reverse();
    while !answers.is_empty() {
        let answer = answers.take_last();
        let place = jobs.len();
        jobs.push_reserved(seat(answer, gate, place as u32));
    }
    answers.destroy_empty();
    jobs
}

fn seat<'a, S, K, D: Slot + Drop, R: Wait, T: Opened, N: Opened, G: Gate>(
    answer: Result<Vec<Session<'a, D, R, T, N>>, PoolErr>,
    gate: &'a G,
    who: u32,
) -> Job<S, K, GatedSession<'a, D, R, G, T, N>>
    requires { IsOneOrRefused (answer_of (λ v. v.items) (λ s. s.seat) answer) }
    ensures { over_seat (λ s. s.seat) result ≡ job_with (answer_of (λ v. v.items) (λ s. s.seat) answer.entry) }
{
    let refused = match &answer {
        Ok(_) => None,
        Err(error) => Some(refusal(error)),
    };
    let ended = refused;
    let session = match answer {
        Ok(mut sessions) => {
            let session = sessions.take_last();
            sessions.destroy_empty();
            Some(session.with_gate(gate, who))
        }
        Err(_) => None,
    };
    Job {
        refused,
        left: None,
        right: None,
        sink: None,
        ended,
        session,
    }
}

// How a query ends whose least reservation was refused.
fn refusal(error: &PoolErr) -> Ending
    requires { IsOneOrRefused {St = ℕ} (Err error.now) }
    ensures { result ≡ ending_of error.now }
{
    let PoolErr::NoReservation {
        tracker,
        wanted,
        room,
    } = error
    else {
        unreachable!()
    };
    Ending::Reservation {
        root: *tracker == TrackerId::of(0),
        wanted: *wanted,
        room: *room,
    }
}

// Ends the sessions of queries of which nothing else is open, the last one first.
pub(crate) fn end_all<'a, S, K, D: Slot + Drop, R: Wait, T: Opened, N: Opened, G: Gate>(
    mut jobs: Vec<Job<S, K, GatedSession<'a, D, R, G, T, N>>>,
    pass: &mut Pass<D, T>,
)
    requires closed { AreClosed jobs.items }
    requires named { N.table ≡ Some pass.old.table }
    requires idle { All (λ job. IfSome job.session (λ s. (held_by T.opening T.outset.told s.seat).live_clients ≡ 0)) jobs.items }
    ensures ends { EndAll T.opening T.outset.told (map (λ job. option_map (λ s. s.seat) job.session) jobs.entry.items) pass.old pass.new }
    ensures table { pass.new.table ≡ pass.old.table }
{
    while !jobs.is_empty() {
        let Job {
            refused: _,
            left,
            right,
            sink,
            ended: _,
            session,
        } = jobs.take_last();
        let_go(left);
        let_go(right);
        let_go(sink);
        if let Some(session) = session {
            end_one(session, pass);
        }
    }
    jobs.destroy_empty();
}

fn end_one<'a, D: Slot + Drop, R: Wait, T: Opened, N: Opened, G: Gate>(
    session: GatedSession<'a, D, R, G, T, N>,
    pass: &mut Pass<D, T>,
)
    requires named { N.table ≡ Some pass.old.table }
    requires idle { (held_by T.opening T.outset.told session.seat).live_clients ≡ 0 }
    ensures ends { EndsOne T.opening T.outset.told session.entry.seat pass.old pass.new }
    ensures table { pass.new.table ≡ pass.old.table }
{
    session.law_there();
    session.law_sits();
    session.end(pass);
    pass.law_pass();
}

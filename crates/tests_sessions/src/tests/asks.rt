// Sessions that are asked for together, in one turn of a pool.
ghost use Rattle.std.specs.Prelude.{◌≡◌, ◌≤◌, ◌+◌, vec_len};
ghost use Rattle.std.specs.List.{All};
ghost use Rattle.pool.specs.Passing.{writers_out};
ghost use Rattle.pool.specs.Seats.{live_in};
ghost use Rattle.pool.specs.Remaining.{quotas_of};
ghost use Rattle.pool.specs.Asking.{answer_of};
ghost use Rattle.tests_sessions.specs.Ending.{AsMany, CanEnd, AllCanEnd, came_by};

use outside::Slot;
use pool::{Ask, Opened, Pass, Pool, Session};
use reservation_tree::PoolErr;
use std::alloc::Global;
use std::marker::Brand;
use std::process::Abort;
use std::sync::Wait;
use store_api::Store;

// What is asked for, and what is answered: all of its sessions come, or none does and it is told why.
#[derive(Drop)]
pub struct Asked {
    pub ask: Ask,
    pub answer: Result<(), PoolErr>,
}

// Each list has a turn, and the sessions that came end before the next turn.
pub fn ask_turns<T: Opened, D: Slot + Drop, R: Wait + Abort>(
    rt: &R,
    alloc: Global,
    pool: &Pool<D, T>,
    pass: &mut Pass<D, T>,
    turns: &[[Asked; 3]],
)
    requires table { pass.old.table ≡ pool.now }
    ensures table { pass.new.table ≡ pool.now }
    ensures count { AsMany pass.old pass.new }
{
    for asked in turns {
        ask_together(rt, alloc, pool, pass, asked);
    }
}

fn ask_together<T: Opened, D: Slot + Drop, R: Wait + Abort>(
    rt: &R,
    alloc: Global,
    pool: &Pool<D, T>,
    pass: &mut Pass<D, T>,
    asked: &[Asked],
)
    requires table { pass.old.table ≡ pool.now }
    ensures table { pass.new.table ≡ pool.now }
    ensures count { AsMany pass.old pass.new }
{
    let asks = asks_of(rt, alloc, pass.spare(), asked);
    let Ok(mut answers) = pool.sessions::<R, Brand>(alloc, rt, pass, &asks) else {
        panic!(rt; "no memory for sessions");
    };
    assert!(rt; answers.len() == asked.len());
    // The answers come out from the last.
    for i in 0..asked.len() {
        let answer = answers.pop().unwrap();
        end_answered(rt, pass, &asked[asked.len() - 1 - i], answer);
    }
    answers.destroy_empty();
}

// What is asked for, if so many slots suffice for it.
#[tactic(auto, using(crate::proofs::Quotas::quotas_push))]
fn asks_of<R: Abort>(rt: &R, alloc: Global, spare: u32, asked: &[Asked]) -> Vec<Ask>
    ensures some { All (λ ask. 1 ≤ ask.count) result.items }
    ensures spare { quotas_of result.items ≤ spare }
{
    let mut asks = Vec::new(alloc);
    let mut left = u64::from(spare);
    for row in asked {
        let ask = row.ask;
        assert!(rt; 1 <= ask.count);
        let quotas = u64::from(ask.count) * u64::from(ask.quota);
        assert!(rt; quotas <= left);
        left -= quotas;
        asks.push(ask).expect(rt, "a list of asks");
    }
    asks
}

// The answer is as the row says, and the sessions that came with it end.
fn end_answered<'a, N: Opened, T: Opened, D: Slot + Drop, R: Wait + Abort>(
    rt: &R,
    pass: &mut Pass<D, T>,
    row: &Asked,
    answer: Result<Vec<Session<'a, D, R, T, N>>, PoolErr>,
)
    requires end { AllCanEnd T.opening T.outset.told pass.old.table (answer_of (λ v. v.items) (λ s. s.seat) answer) }
    ensures table { pass.new.table ≡ pass.old.table }
    ensures count { live_in pass.new.knows.seen + came_by (answer_of (λ v. v.items) (λ s. s.seat) answer.entry) ≡ live_in pass.old.knows.seen }
    ensures writers { writers_out pass.new ≡ writers_out pass.old }
{
    match answer {
        Ok(sessions) => {
            assert_eq!(rt; row.answer, Ok(()));
            assert_eq!(rt; sessions.len(), row.ask.count as usize);
            end_all(rt, pass, row.ask.least, sessions);
        }
        Err(refusal) => assert_eq!(rt; row.answer, Err(refusal)),
    }
}

// Sessions end that have so many bytes of room.
fn end_all<'a, N: Opened, T: Opened, D: Slot + Drop, R: Wait + Abort>(
    rt: &R,
    pass: &mut Pass<D, T>,
    room: u64,
    mut sessions: Vec<Session<'a, D, R, T, N>>,
)
    requires end { All (λ s. CanEnd T.opening T.outset.told pass.old.table s.seat) sessions.items }
    ensures table { pass.new.table ≡ pass.old.table }
    ensures count { live_in pass.new.knows.seen + vec_len sessions.entry ≡ live_in pass.old.knows.seen }
    ensures writers { writers_out pass.new ≡ writers_out pass.old }
{
    for _i in 0..sessions.len() {
        let session = sessions.pop().unwrap();
        assert_eq!(rt; session.room(), room);
        session.end(pass);
    }
    sessions.destroy_empty();
}

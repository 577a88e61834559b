// Sessions of one pool, whatever slots it has. A pool, its pass and its sessions can't be let go, so each scene opens
// and closes a pool of its own, and ends the sessions that came.
ghost use Rattle.std.specs.Prelude.{◌≡◌, ◌≤◌, Some, length, vec_len};
ghost use Rattle.std.specs.Option.{ForSome};
ghost use Rattle.pin_core.specs.calls.Setup.{OpensWith};
ghost use Rattle.pool.specs.Items.{all_rights};
ghost use Rattle.pool.specs.Opening.{OpensAs};
ghost use Rattle.pool.specs.Seating.{Begins};
ghost use Rattle.tests_sessions.specs.Ending.{AsMany};

use crate::tests::asks::{Asked, ask_turns};
use crate::tests::held::store_and_load;
use crate::tests::writers::{Writing, write_beside};
use outside::{MeetGate, Slot};
use pin_core::PoolConf;
use pool::{Opened, Pass, Pool, Session};
use reservation_tree::{PoolErr, TrackerId};
use std::alloc::Global;
use std::marker::Brand;
use std::process::Abort;
use std::sync::Wait;
use std::thread::Threads;
use store_api::{Walked, walk};

// What a session asks for, and what it is answered.
#[derive(Drop)]
pub struct Row {
    pub limit: u64,
    pub quota: u32,
    pub least: u64,
    pub answer: Result<(), PoolErr>,
}

// Which sessions come and go.
#[derive(Drop)]
pub enum Scene<'a> {
    // Two take all memory and all slots. A third is turned away, and comes once one of them has ended.
    ThirdWaits,
    // So many come, and the next is turned away.
    Numbers(u32),
    // Two do all that a store can, in turn, while both are live.
    Walk,
    // Each asks for what its row says, and is answered as the row says; those that came end last.
    Rows(&'a [Row]),
    // Each three are asked for in one turn, and those that came end before the next turn.
    Asks(&'a [[Asked; 3]]),
    // A writer begins, and stores pages of sessions.
    Writes(Writing),
    // A session stores and loads its page itself while slots are held at this gate, and another has turns.
    Held(&'a MeetGate),
}

// A pool opens, the scene is played, and all slots come back.
pub fn played<D: Slot + Drop + Send, R: Threads + Wait + Abort + Sync>(
    rt: &R,
    alloc: Global,
    conf: &PoolConf,
    slots: Vec<D>,
    scene: &Scene,
)
    requires conf { OpensWith conf.now }
    requires slots { vec_len slots ≤ 1048576 }
{
    played_as::<Brand, D, R>(rt, alloc, conf, slots, scene);
}

// The same, where `T` names with what the pool opens.
fn played_as<T: Opened + Send, D: Slot + Drop + Send, R: Threads + Wait + Abort + Sync>(
    rt: &R,
    alloc: Global,
    conf: &PoolConf,
    slots: Vec<D>,
    scene: &Scene,
)
    requires conf { OpensWith conf.now }
    requires slots { vec_len slots ≤ 1048576 }
    requires opens { OpensAs D.Slot conf.now slots.items T.opening T.outset.told T.first }
{
    let count = slots.len();
    let Ok((pool, mut pass)) = Pool::<D, T>::open(alloc, conf, slots) else {
        panic!(rt; "no memory for a pool");
    };
    play_scene::<Brand, T, D, R>(rt, alloc, &pool, &mut pass, scene);
    assert_eq!(rt; pool.close(pass).len(), count);
}

// The scene is played in this pool, and all slots are spare again.
pub fn play_scene<
    'x,
    N: Opened + Send,
    T: Opened + Send,
    D: Slot + Drop + Send,
    R: Threads + Wait + Abort + Sync,
>(rt: &'x R, alloc: Global, pool: &'x Pool<D, T>, pass: &mut Pass<D, T>, scene: &Scene)
    requires named { N.table ≡ Some pool.now }
    requires table { pass.old.table ≡ pool.now }
    requires rights { pass.old.knows.rights ≡ all_rights }
    ensures table { pass.new.table ≡ pool.now }
    ensures count { AsMany pass.old pass.new }
{
    let count = pass.spare();
    match scene {
        Scene::ThirdWaits => third_waits(rt, alloc, pool, pass),
        Scene::Numbers(count) => seat_more(rt, alloc, pool, pass, *count),
        Scene::Walk => two_walk::<N, T, D, R>(rt, alloc, pool, pass),
        Scene::Rows(rows) => seat_rows(rt, alloc, pool, pass, rows, 0),
        Scene::Asks(turns) => ask_turns(rt, alloc, pool, pass, turns),
        Scene::Writes(writing) => write_beside::<N, T, D, R>(rt, alloc, pool, pass, *writing),
        Scene::Held(gate) => store_and_load::<N, T, D, R>(rt, alloc, pool, pass, gate),
    }
    assert_eq!(rt; pass.spare(), count);
}

fn third_waits<T: Opened, D: Slot + Drop, R: Wait + Abort>(
    rt: &R,
    alloc: Global,
    pool: &Pool<D, T>,
    pass: &mut Pass<D, T>,
)
    requires table { pass.old.table ≡ pool.now }
    ensures table { pass.new.table ≡ pool.now }
    ensures count { AsMany pass.old pass.new }
{
    let one = seated::<Brand, T, D, R>(rt, alloc, pool, pass, 256, 4);
    let two = seated::<Brand, T, D, R>(rt, alloc, pool, pass, 256, 4);
    assert_eq!(rt; pass.spare(), 0);
    let full = PoolErr::NoReservation {
        tracker: TrackerId::of(0),
        wanted: 64,
        room: 0,
    };
    assert_eq!(rt; turned_away(rt, alloc, pool, pass, 64), full);
    one.end(pass);
    assert_eq!(rt; pass.spare(), 4);
    let three = seated::<Brand, T, D, R>(rt, alloc, pool, pass, 64, 0);
    three.end(pass);
    two.end(pass);
}

fn two_walk<'x, N: Opened, T: Opened, D: Slot + Drop, R: Wait + Abort>(
    rt: &'x R,
    alloc: Global,
    pool: &'x Pool<D, T>,
    pass: &mut Pass<D, T>,
)
    requires named { N.table ≡ Some pool.now }
    requires table { pass.old.table ≡ pool.now }
    ensures table { pass.new.table ≡ pool.now }
    ensures count { AsMany pass.old pass.new }
{
    let mut one = seated::<N, T, D, R>(rt, alloc, pool, pass, 256, 4);
    let mut two = seated::<N, T, D, R>(rt, alloc, pool, pass, 256, 4);
    let seen = Walked {
        pinned: 7,
        moved: 9,
        fresh: 0,
    };
    assert_eq!(rt; walk(&mut one, alloc), Ok(seen));
    assert_eq!(rt; walk(&mut two, alloc), Ok(seen));
    assert_eq!(rt; walk(&mut one, alloc), Ok(seen));
    one.law_sits();
    one.law_throughout();
    one.law_there();
    one.end(pass);
    two.law_there();
    two.end(pass);
}

fn seat_more<T: Opened, D: Slot + Drop, R: Wait + Abort>(
    rt: &R,
    alloc: Global,
    pool: &Pool<D, T>,
    pass: &mut Pass<D, T>,
    more: u32,
)
    requires table { pass.old.table ≡ pool.now }
    ensures table { pass.new.table ≡ pool.now }
    ensures count { AsMany pass.old pass.new }
{
    if more == 0 {
        let full = PoolErr::TooManyTrackers { count: 240 };
        assert_eq!(rt; turned_away(rt, alloc, pool, pass, 0), full);
        return;
    }
    let session = seated::<Brand, T, D, R>(rt, alloc, pool, pass, 0, 0);
    seat_more(rt, alloc, pool, pass, more - 1);
    session.end(pass);
}

fn seat_rows<T: Opened, D: Slot + Drop, R: Wait + Abort>(
    rt: &R,
    alloc: Global,
    pool: &Pool<D, T>,
    pass: &mut Pass<D, T>,
    rows: &[Row],
    at: usize,
)
    requires table { pass.old.table ≡ pool.now }
    requires at { at ≤ length rows.now }
    ensures table { pass.new.table ≡ pool.now }
    ensures count { AsMany pass.old pass.new }
{
    if at == rows.len() {
        return;
    }
    let row = &rows[at];
    assert!(rt; row.quota <= pass.spare());
    match pool.session::<R, Brand>(alloc, rt, pass, row.limit, row.quota, row.least) {
        Ok(session) => {
            assert_eq!(rt; row.answer, Ok(()));
            seat_rows(rt, alloc, pool, pass, rows, at + 1);
            session.end(pass);
        }
        Err(refusal) => {
            assert_eq!(rt; row.answer, Err(refusal));
            seat_rows(rt, alloc, pool, pass, rows, at + 1);
        }
    }
}

// A session that has so many bytes, and so many slots.
pub fn seated<'a, N: Opened, T: Opened, D: Slot + Drop, R: Wait + Abort>(
    rt: &'a R,
    alloc: Global,
    pool: &'a Pool<D, T>,
    pass: &mut Pass<D, T>,
    bytes: u64,
    quota: u32,
) -> Session<'a, D, R, T, N>
    requires named { ForSome N.table (λ table. pool.now ≡ table) }
    requires table { pass.old.table ≡ pool.now }
    ensures begins { Begins T.opening T.outset.told bytes quota bytes pass.old pass.new result.seat }
{
    assert!(rt; quota <= pass.spare());
    match pool.session::<R, N>(alloc, rt, pass, bytes, quota, bytes) {
        Ok(session) => session,
        Err(_) => panic!(rt; "the session was turned away"),
    }
}

// Why no session comes that asks for so many bytes and no slot.
fn turned_away<T: Opened, D: Slot + Drop, R: Wait + Abort>(
    rt: &R,
    alloc: Global,
    pool: &Pool<D, T>,
    pass: &mut Pass<D, T>,
    bytes: u64,
) -> PoolErr
    requires table { pass.old.table ≡ pool.now }
    ensures table { pass.new.table ≡ pool.now }
    ensures count { AsMany pass.old pass.new }
{
    assert!(rt; pass.spare() <= 8);
    match pool.session::<R, Brand>(alloc, rt, pass, bytes, 0, bytes) {
        Ok(session) => {
            session.end(pass);
            panic!(rt; "the session came")
        }
        Err(refusal) => refusal,
    }
}

// A query over a session of a pool of its own, which gives back the slots that it takes.

ghost use Rattle.std.specs.Prelude.{◌≡◌, ◌≤◌, [], Some, is_some, map, vec_len};
ghost use Rattle.pin_core.specs.Tallies.{tally_of};
ghost use Rattle.pool_model.specs.Bytes.{bytes_of};
ghost use Rattle.pool.specs.Items.{all_rights};
ghost use Rattle.pool.specs.Opening.{OpensAs};
ghost use Rattle.pool.specs.Passing.{writers_out};
ghost use Rattle.pool.specs.Seats.{live_in};
ghost use Rattle.pool.specs.Writers.{Stops};
ghost use Rattle.query_plan.specs.Sizes.{joins, least_of, page_len};
ghost use Rattle.query_run.specs.Both.{told_in};
ghost use Rattle.query_run.specs.Plans.{IsRunnable};
ghost use Rattle.query_run.specs.Run.{ReadAndWrote, world};
ghost use Rattle.query_run.specs.Stopped.{HasRoomFor};
ghost use Rattle.spill_top.specs.Pooled.{HasMemoryFor, all_tell};
ghost use Rattle.spill_top.specs.Seated.{RanIfSeated};
ghost use Rattle.spill_top.specs.Unmarked.{RanUnmarked};
ghost use Rattle.spill_top.specs.OwnPool.{RanPooled};

use crate::unmarked::run_unmarked;
use crate::writers::{begin_writers, beside_writers, end_writers};
use outside::{OpenGate, Sink, Slot, Source};
use pin_core::PoolConf;
use pool::{Opened, Pass, Pool};
use query_plan::{Query, least};
use query_run::{QueryErr, Ran, law_spill};
use reservation_tree::PoolErr;
use session_shares::law_shares;
use std::alloc::Global;
use std::marker::Brand;
use std::mem;
use std::sync::Wait;
use std::thread::Threads;
use std::time::Clock;
use store_api::Store;
use write_behind::Writer;

// A query that has a pool of its own: the numbers of the pool, how many writers it has, and how many slots its pages may take.
#[derive(Clone, Copy)]
pub(crate) struct PoolRun<'a> {
    pub(crate) query: &'a Query,
    pub(crate) conf: PoolConf,
    pub(crate) writers: u32,
    pub(crate) quota: u32,
}

// Runs a query over a pool with these numbers, whose pages may take so many of the slots. All slots are there again
// afterwards, whatever the answer. An answer is promised where all of them tell what they hold.
pub(crate) fn run_pooled<
    S: Source,
    K: Sink,
    D: Slot + Drop + Send,
    W: Wait + Threads + Clock + Sync,
>(
    rt: &W,
    alloc: Global,
    run: &PoolRun<'_>,
    slots: &mut Vec<D>,
    left: &mut S,
    right: &mut Option<S>,
    sink: &mut K,
) -> Result<Ran, QueryErr>
    requires query { IsRunnable run.now.query.now }
    requires memory { HasMemoryFor run.now.query.now run.now.conf }
    requires few { vec_len slots.old ≤ 1048576 }
    requires writers { run.now.writers ≤ 8 }
    requires quota { run.now.quota ≤ vec_len slots.old }
    requires right { is_some right.old ≡ joins run.now.query.now }
    ensures ran { RanPooled S.Source K.Sink run.now.query.now run.now.conf run.now.quota (tally_of D.Slot slots.old.items) (tally_of D.Slot slots.new.items)
        (world left.old right.old sink.old) (world left.new right.new sink.new) result }
    ensures len { vec_len slots.new ≡ vec_len slots.old }
{
    run_counted::<S, K, D, W, Brand>(rt, alloc, run, slots, left, right, sink)
}

// The same, where `T` names with what the pool opens, for contracts alone.
fn run_counted<
    S: Source,
    K: Sink,
    D: Slot + Drop + Send,
    W: Wait + Threads + Clock + Sync,
    T: Opened + Send,
>(
    rt: &W,
    alloc: Global,
    run: &PoolRun<'_>,
    slots: &mut Vec<D>,
    left: &mut S,
    right: &mut Option<S>,
    sink: &mut K,
) -> Result<Ran, QueryErr>
    requires query { IsRunnable run.now.query.now }
    requires memory { HasMemoryFor run.now.query.now run.now.conf }
    requires few { vec_len slots.old ≤ 1048576 }
    requires writers { run.now.writers ≤ 8 }
    requires quota { run.now.quota ≤ vec_len slots.old }
    requires right { is_some right.old ≡ joins run.now.query.now }
    requires opens { OpensAs D.Slot run.now.conf slots.old.items T.opening T.outset.told T.first }
    requires told { T.outset.told ≡ all_tell (tally_of D.Slot slots.old.items) }
    requires first { T.first ≡ tally_of D.Slot slots.old.items }
    ensures ran { RanPooled S.Source K.Sink run.now.query.now run.now.conf run.now.quota (tally_of D.Slot slots.old.items) (tally_of D.Slot slots.new.items)
        (world left.old right.old sink.old) (world left.new right.new sink.new) result }
    ensures len { vec_len slots.new ≡ vec_len slots.old }
{
    let taken = mem::replace(slots, Vec::new(alloc));
    let (pool, mut pass) = match Pool::<D, T>::open(alloc, &run.conf, taken) {
        Ok(opened) => opened,
        Err((back, _)) => {
            *slots = back;
            return Err(QueryErr::Pool(PoolErr::Memory));
        }
    };
    let ran = run_seated::<S, K, D, W, T, Brand>(
        rt, alloc, &pool, &mut pass, run, left, right, sink,
    );
    *slots = pool.close(pass);
    law_spill();
    law_shares();
    ran
}

// Runs a query over a session of a pool in which no other is. `N` names the pool's lock, for contracts alone.
fn run_seated<
    'a,
    S: Source,
    K: Sink,
    D: Slot + Drop + Send,
    W: Wait + Threads + Clock + Sync,
    T: Opened + Send,
    N: Opened,
>(
    rt: &'a W,
    alloc: Global,
    pool: &'a Pool<D, T>,
    pass: &mut Pass<D, T>,
    run: &PoolRun<'_>,
    left: &mut S,
    right: &mut Option<S>,
    sink: &mut K,
) -> Result<Ran, QueryErr>
    requires query { IsRunnable run.now.query.now }
    requires named { N.table ≡ Some pool.now }
    requires table { pass.old.table ≡ pool.now }
    requires fresh { (pass.old.knows.seen ≡ []) × (pass.old.knows.rights ≡ all_rights) × (writers_out pass.old ≡ 0) }
    requires memory { (run.now.conf.block_len ≡ T.opening.block_len)
        × (least_of run.now.query.now run.now.conf.block_len ≤ bytes_of T.opening.block_len T.opening.blocks) × (least_of run.now.query.now run.now.conf.block_len ≤ run.now.query.now.limit) }
    requires block { run.now.conf.block_len ≤ 65536 }
    requires writers { run.now.writers ≤ 8 }
    requires quota { run.now.quota ≤ T.opening.slots }
    requires right { is_some right.old ≡ joins run.now.query.now }
    ensures table { pass.new.table ≡ pool.now }
    ensures gone { (live_in pass.new.knows.seen ≡ 0) × (writers_out pass.new ≡ 0) }
    ensures ran { RanIfSeated T.opening T.outset.told run.now.query.now run.now.quota pass.new (S.remaining left.old) (told_in S.remaining right.old) result }
    ensures outside { ReadAndWrote S.Source K.Sink run.now.query.now (page_len run.now.query.now run.now.conf.block_len) T.outset.told
        (world left.old right.old sink.old) (world left.new right.new sink.new) result }
{
    let wanted = least(run.query, run.conf.block_len);
    let Ok(room) = Vec::with_capacity(alloc, run.writers as usize) else {
        return Err(QueryErr::Pool(PoolErr::Memory));
    };
    let mut writers = begin_writers(rt, pool, pass, run.writers, room);
    pass.law_pass();
    let mut session = match pool.session::<W, N>(
        alloc,
        rt,
        pass,
        run.query.limit,
        run.quota,
        wanted,
    ) {
        Ok(session) => session,
        Err(PoolErr::Memory) => {
            end_writers(writers, pass);
            return Err(QueryErr::Pool(PoolErr::Memory));
        }
        Err(_) => unreachable!(),
    };
    pass.law_pass();
    let ran = run_beside(
        rt,
        alloc,
        run.query,
        &mut session,
        left,
        right,
        sink,
        writers.as_mut_slice(),
        pool,
        pass,
    );
    end_writers(writers, pass);
    pass.law_pass();
    session.law_there();
    session.law_sits();
    session.end(pass);
    pass.law_pass();
    ran
}

// Runs a query over its store while the pool's writers store pages, which are told to end when it has.
fn run_beside<
    W: Wait + Threads + Clock + Sync,
    S: Source,
    K: Sink,
    St: Store,
    D: Slot + Drop + Send,
    T: Opened + Send,
>(
    rt: &W,
    alloc: Global,
    query: &Query,
    store: &mut St,
    left: &mut S,
    right: &mut Option<S>,
    sink: &mut K,
    writers: &mut [Writer<'_, D, W, T>],
    pool: &Pool<D, T>,
    pass: &mut Pass<D, T>,
) -> Result<Ran, QueryErr>
    requires plan { IsRunnable query.now }
    requires store { HasRoomFor query.now (St.holds store.old) }
    requires right { is_some right.old ≡ joins query.now }
    requires table { pass.old.table ≡ pool.now }
    ensures ran { RanUnmarked S.Source K.Sink St.Store query.now (world left.old right.old sink.old)
        (world left.new right.new sink.new) store.old store.new result }
    ensures stops { Stops pass.old pass.new }
    ensures at { map (λ w. w.seat.spot.table) writers.new ≡ map (λ w. w.seat.spot.table) writers.old }
{
    let mut work = || -> Result<Ran, QueryErr>
        requires { IsRunnable query.now × HasRoomFor query.now (St.holds store.now) × (is_some right.now ≡ joins query.now) }
        ensures { RanUnmarked S.Source K.Sink St.Store query.entry.now (world left.entry.now right.entry.now sink.entry.now)
            (world left.exit.now right.exit.now sink.exit.now) store.entry.now store.exit.now result }
    { run_unmarked(alloc, store, query, left, right, sink) };
    beside_writers(rt, pool, pass, writers, &OpenGate, &mut work)
}

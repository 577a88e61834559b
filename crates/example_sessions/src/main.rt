//! Two sessions of one pool, each in a thread of its own, and a writer beside them. Each session lays rows on more pages
//! than it may have in memory, and reads them back.
//!
//! What is printed is the same whatever the schedule. The order of the calls: the pool opens; sessions and the writer come;
//! the threads work; the writer is told to end; writer, sessions and pool give back what they have. None of these
//! values can be let go, so each function ends what it began before it hands an error on.
#![tactic(auto)]

ghost use Rattle.std.specs.Prelude.{◌≡◌, ◌≤◌, IfOk, Some, vec_len};
ghost use Rattle.pin_core.specs.calls.Setup.{OpensWith};
ghost use Rattle.pool.specs.Items.{all_rights};
ghost use Rattle.pool.specs.Opening.{OpensAs};
ghost use Rattle.pool.specs.Passing.{writers_out};
ghost use Rattle.pool.specs.Seats.{live_in};

mod beside;
mod rows;

use anyhow::Result;
use beside::work_beside;
use outside::{MemSlot, Slot};
use pin_core::PoolConf;
use pool::{Opened, Pass, Pool};
use reservation_tree::PoolErr;
use rows::Seen;
use std::alloc::{AllocError, Global};
use std::marker::Brand;
use std::sync::Wait;
use std::thread::Threads;
use std::time::Clock;
use tuple_stream::StreamErr;
use write_behind::Writer;

// All memory of the pool is that of its two sessions, of eight blocks each.
const BLOCKS: u32 = 16;

// In bytes.
const BLOCK_LEN: u32 = 128;

// What a session may reserve, and has from the start, in bytes.
const BYTES: u64 = 1024;

// The slots that the pages of a session may take.
const QUOTA: u32 = 20;

// The number of the writer: 1000 to 1007.
const WRITER: u32 = 1000;

fn main(rt: HostRuntime) -> Result<()> {
    let slots = slots_in_memory(rt.alloc())?;
    let (seen, back) = in_pool(&rt, rt.alloc(), slots);
    let (first, second) = seen?;
    println!(rt;
        "rows of the first session: {}, their sum: {}",
        first.rows, first.sum
    )?;
    println!(rt;
        "rows of the second session: {}, their sum: {}",
        second.rows, second.sum
    )?;
    println!(rt; "slots that came back: {}", back.len())?;
    Ok(())
}

fn slots_in_memory(alloc: Global) -> Result<Vec<MemSlot>, AllocError>
    ensures { IfOk result (λ slots. vec_len slots ≡ 40) }
{
    let mut slots = Vec::new(alloc);
    for _i in 0..2 * QUOTA {
        slots.push(MemSlot::new(alloc, &[]).map_err(|_| AllocError)?)?;
    }
    Ok(slots)
}

#[tactic(auto, unfolding(pool_model::specs::Bytes::bytes_of))]
fn conf() -> PoolConf
    ensures { OpensWith result }
{
    PoolConf {
        blocks: BLOCKS,
        block_len: BLOCK_LEN,
        first_name: 0,
        profile: 1,
        trace: 0,
    }
}

// A pool over these slots, which come back whatever happened in it.
fn in_pool<D: Slot + Drop + Send, R: Threads + Wait + Clock + Sync>(
    rt: &R,
    alloc: Global,
    slots: Vec<D>,
) -> (Result<(Seen, Seen), StreamErr>, Vec<D>)
    requires { vec_len slots ≤ 1048576 }
{
    in_pool_as::<Brand, D, R>(rt, alloc, &conf(), slots)
}

// The same, where `T` names with what the pool opens, for contracts alone. The proof of `in_pool` picks it.
fn in_pool_as<T: Opened + Send, D: Slot + Drop + Send, R: Threads + Wait + Clock + Sync>(
    rt: &R,
    alloc: Global,
    conf: &PoolConf,
    slots: Vec<D>,
) -> (Result<(Seen, Seen), StreamErr>, Vec<D>)
    requires conf { OpensWith conf.now }
    requires slots { vec_len slots ≤ 1048576 }
    requires opens { OpensAs D.Slot conf.now slots.items T.opening T.outset.told T.first }
{
    match Pool::<D, T>::open(alloc, conf, slots) {
        Ok((pool, mut pass)) => {
            let seen = with_sessions::<Brand, T, D, R>(rt, alloc, &pool, &mut pass);
            (seen, pool.close(pass))
        }
        Err((slots, _)) => (Err(StreamErr::Pool(PoolErr::Memory)), slots),
    }
}

// Two sessions come, and end. `N` names the lock of the pool, for contracts alone: a session that was lent to a thread
// as a `Store` ends at the lock where it began. The proof of `in_pool_as` picks it.
fn with_sessions<
    'x,
    N: Opened + Send,
    T: Opened + Send,
    D: Slot + Drop + Send,
    R: Threads + Wait + Clock + Sync,
>(
    rt: &'x R,
    alloc: Global,
    pool: &'x Pool<D, T>,
    pass: &mut Pass<D, T>,
) -> Result<(Seen, Seen), StreamErr>
    requires named { N.table ≡ Some pool.now }
    requires table { pass.old.table ≡ pool.now }
    requires rights { pass.old.knows.rights ≡ all_rights }
    requires none { writers_out pass.old ≡ 0 }
    ensures table { pass.new.table ≡ pool.now }
    ensures sessions { live_in pass.new.knows.seen ≡ live_in pass.old.knows.seen }
    ensures none { writers_out pass.new ≡ 0 }
{
    // Each quota is taken out of the slots that no session has.
    if pass.spare() < 2 * QUOTA {
        return Err(StreamErr::Pool(PoolErr::Memory));
    }
    let mut writer = Writer::begin(rt, pool, pass, WRITER);
    let mut one = match pool.session::<R, N>(alloc, rt, pass, BYTES, QUOTA, BYTES) {
        Ok(one) => one,
        Err(e) => {
            writer.end(pass);
            return Err(StreamErr::Pool(e));
        }
    };
    let mut two = match pool.session::<R, N>(alloc, rt, pass, BYTES, QUOTA, BYTES) {
        Ok(two) => two,
        Err(e) => {
            writer.end(pass);
            one.law_there();
            one.end(pass);
            return Err(StreamErr::Pool(e));
        }
    };
    let (first, second) = work_beside(rt, alloc, pool, pass, &mut writer, &mut one, &mut two);
    writer.end(pass);
    one.law_there();
    one.end(pass);
    two.law_there();
    two.end(pass);
    Ok((first?, second?))
}

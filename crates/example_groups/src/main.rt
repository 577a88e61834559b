//! Sales of two hundred shops, grouped by their shop: how many there are and what they come to. The groups are more than
//! fit in the session's memory, so the grouping writes some of them to scratch, and reads them back.
//!
//! As SQL: `SELECT shop, count(*), sum(amount) FROM sales GROUP BY shop HAVING sum(amount) >= 1590`.
#![tactic(auto)]

ghost use Rattle.std.specs.Prelude.{◌≡◌, ◌≤◌, IfOk, Some, vec_len};
ghost use Rattle.pin_core.specs.calls.Setup.{OpensWith};
ghost use Rattle.pool.specs.Opening.{OpensAs};
ghost use Rattle.pool.specs.Passing.{writers_out};
ghost use Rattle.pool.specs.Seats.{live_in};
ghost use Rattle.store_api.specs.Shapes.{IsShape};

mod grouping;
mod having;
mod sales;

use anyhow::{Result, anyhow};
use grouping::grouped;
use having::Having;
use outside::{MemSlot, Slot};
use pin_core::PoolConf;
use pool::{Opened, Pass, Pool};
use reservation_tree::PoolErr;
use sales::shape;
use std::alloc::{AllocError, Global};
use std::marker::Brand;
use std::str;
use std::sync::Wait;
use store_api::{OpErr, Shape};

// A grouping needs twenty pages at least.
const BLOCKS: u32 = 20;

// In bytes.
const BLOCK_LEN: u32 = 128;

// The slots that the pages of the session may take: here all that there are.
const QUOTA: u32 = 400;

fn main(rt: HostRuntime) -> Result<()> {
    let alloc = rt.alloc();
    let slots = slots_in_memory(alloc)?;
    let shape = shape(alloc)?;
    let (answer, slots) = in_pool(&rt, alloc, slots, &shape);
    let having = answer?;
    for group in &having.groups {
        let Ok(shop) = str::from_utf8(group.shop.as_slice()) else {
            return Err(anyhow!("a shop is no text"));
        };
        println!(rt; "{shop}: {} sales, {}", group.sales, group.amount)?;
    }
    println!(rt; "groups in all: {}", having.seen)?;
    println!(rt; "blocks written to scratch: {}", stores_of(&slots))?;
    Ok(())
}

fn slots_in_memory(alloc: Global) -> Result<Vec<MemSlot>, AllocError>
    ensures { IfOk result (λ slots. vec_len slots ≡ 400) }
{
    let mut slots = Vec::new(alloc);
    for _i in 0..QUOTA {
        slots.push(MemSlot::new(alloc, &[]).map_err(|_| AllocError)?)?;
    }
    Ok(slots)
}

// How often a block was written to one of these.
fn stores_of(slots: &[MemSlot]) -> u64 {
    let mut stores = 0u64;
    for slot in slots {
        stores = stores.saturating_add(slot.stores());
    }
    stores
}

#[tactic(auto, unfolding(pool_model::specs::Bytes::bytes_of))]
fn conf() -> PoolConf
    ensures { OpensWith result }
{
    PoolConf {
        blocks: BLOCKS,
        block_len: BLOCK_LEN,
        first_name: 0,
        profile: 1,
        trace: 0,
    }
}

// A pool over these slots, which come back whatever happened in it.
fn in_pool<D: Slot + Drop, R: Wait>(
    rt: &R,
    alloc: Global,
    slots: Vec<D>,
    shape: &Shape,
) -> (Result<Having, OpErr>, Vec<D>)
    requires slots { vec_len slots ≤ 1048576 }
    requires shape { IsShape shape.now }
{
    in_pool_as::<Brand, D, R>(rt, alloc, &conf(), slots, shape)
}

// The same, where `T` names with what the pool opens, for contracts alone. The proof of `in_pool` picks it.
fn in_pool_as<T: Opened, D: Slot + Drop, R: Wait>(
    rt: &R,
    alloc: Global,
    conf: &PoolConf,
    slots: Vec<D>,
    shape: &Shape,
) -> (Result<Having, OpErr>, Vec<D>)
    requires conf { OpensWith conf.now }
    requires slots { vec_len slots ≤ 1048576 }
    requires opens { OpensAs D.Slot conf.now slots.items T.opening T.outset.told T.first }
    requires shape { IsShape shape.now }
{
    match Pool::<D, T>::open(alloc, conf, slots) {
        Ok((pool, mut pass)) => {
            let having = in_session::<Brand, T, D, R>(rt, alloc, &pool, &mut pass, shape);
            (having, pool.close(pass))
        }
        Err((slots, _)) => (Err(OpErr::Pool(PoolErr::Memory)), slots),
    }
}

// A session comes, which has all memory, and ends. `N` names the lock of the pool, for contracts alone.
fn in_session<'x, N: Opened, T: Opened, D: Slot + Drop, R: Wait>(
    rt: &'x R,
    alloc: Global,
    pool: &'x Pool<D, T>,
    pass: &mut Pass<D, T>,
    shape: &Shape,
) -> Result<Having, OpErr>
    requires named { N.table ≡ Some pool.now }
    requires table { pass.old.table ≡ pool.now }
    requires shape { IsShape shape.now }
    ensures table { pass.new.table ≡ pool.now }
    ensures sessions { live_in pass.new.knows.seen ≡ live_in pass.old.knows.seen }
    ensures writers { writers_out pass.new ≡ writers_out pass.old }
{
    if pass.spare() < QUOTA {
        return Err(OpErr::Pool(PoolErr::Memory));
    }
    let bytes = u64::from(BLOCKS * BLOCK_LEN);
    let mut session = pool.session::<R, N>(alloc, rt, pass, bytes, QUOTA, bytes)?;
    let having = grouped(alloc, &mut session, shape);
    session.law_there();
    session.end(pass);
    having
}

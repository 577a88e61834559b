//! Two hundred rows in a pool of eight blocks. They take twenty blocks, so most of their pages are written to scratch
//! and read back from there.
//!
//! One owner and no threads: read this example first, from top to bottom. Each function gives back what it took, whatever
//! went wrong in between, and only then hands an error on.
#![tactic(auto)]

ghost use Rattle.std.specs.Prelude.{◌≡◌, ◌≤◌, IfOk, vec_len};
ghost use Rattle.pin_core.specs.calls.Setup.{OpensWith};
ghost use Rattle.store_api.specs.Alike.{AlikeButClients};
ghost use Rattle.store_api.specs.Conditions.{IsLiveClient};
ghost use Rattle.store_api.specs.Holdings.{unused_of};
ghost use Rattle.tuple_stream.specs.PageRows.{IsOneRow};
ghost use Rattle.tuple_stream.specs.Streams.{HasPageRoom, IsShaped};
ghost use Rattle.tuple_stream.specs.Touches.{Touches};

use anyhow::Result;
use local_pool::LocalPool;
use outside::MemSlot;
use pin_core::PoolConf;
use std::alloc::{AllocError, Global};
use store_api::{Client, Store};
use tuple_stream::{Stream, StreamErr};

const ROWS: u64 = 200;

const BLOCKS: u32 = 8;

// In bytes. Ten rows of twelve bytes fit a block.
const BLOCK_LEN: u32 = 128;

// The places for blocks in scratch. Each page takes one when its bytes are left for the first time.
const SLOTS: u32 = 40;

fn main(rt: HostRuntime) -> Result<()> {
    let alloc = rt.alloc();
    let slots = slots_in_memory(alloc)?;
    // The owner may reserve all of the memory, has it from the start, and may use all slots.
    let bytes = u64::from(BLOCKS * BLOCK_LEN);
    let mut pool = match LocalPool::<MemSlot>::open(alloc, &conf(), slots, bytes, SLOTS, bytes) {
        Ok(pool) => pool,
        Err((_slots, e)) => return Err(e.into()),
    };
    let answer = with_client(&mut pool, alloc);
    // Whatever was answered, the pool has no client, so it may close. Only then may `?` leave.
    let slots = pool.close();
    let seen = answer?;
    println!(rt; "rows that came back: {}", seen.rows)?;
    println!(rt; "their sum: {}", seen.sum)?;
    println!(rt; "blocks written to scratch: {}", stores_of(&slots))?;
    Ok(())
}

// Pages have names from `first_name` on. Of profile 1 a slot holds bare blocks.
#[tactic(auto, unfolding(pool_model::specs::Bytes::bytes_of))]
fn conf() -> PoolConf
    ensures { OpensWith result }
{
    PoolConf {
        blocks: BLOCKS,
        block_len: BLOCK_LEN,
        first_name: 0,
        profile: 1,
        trace: 0,
    }
}

/// What was read back.
#[derive(Clone, Copy)]
struct Seen {
    rows: u64,
    sum: u64,
}

// A client comes, which reserves all memory, and goes. What it has reserved is there whenever it makes or pins a page, so
// from then on no call is refused for want of memory in the pool.
fn with_client<St: Store>(store: &mut St, alloc: Global) -> Result<Seen, StreamErr>
    ensures { (St.holds store.new).live_clients ≡ (St.holds store.old).live_clients }
{
    let c = store.add_client(u64::MAX)?;
    let bytes = u64::from(BLOCKS) * u64::from(store.block_len());
    if let Err(e) = store.reserve(&c, bytes) {
        store.end_client(c);
        return Err(StreamErr::Pool(e));
    }
    let seen = through_pages(store, alloc, &c);
    store.end_client(c);
    seen
}

// The rows stand on pages of one block each, which go at the end.
fn through_pages<St: Store>(store: &mut St, alloc: Global, c: &Client) -> Result<Seen, StreamErr>
    requires client { IsLiveClient c.now (St.holds store.old) }
    requires unused { (St.holds store.old).block_len ≤ unused_of c.now.tracker (St.holds store.old) }
    ensures client { IsLiveClient c.now (St.holds store.new) }
    ensures rest { AlikeButClients (St.holds store.old) (St.holds store.new) }
{
    let mut stream = Stream::new(alloc, 1);
    let seen = laid_and_read(&mut stream, store, alloc, c);
    stream.drop_all(store);
    stream.end();
    seen
}

fn laid_and_read<St: Store>(
    stream: &mut Stream,
    store: &mut St,
    alloc: Global,
    c: &Client,
) -> Result<Seen, StreamErr>
    requires client { IsLiveClient c.now (St.holds store.old) }
    requires stream { IsShaped c.now.tracker stream.old (St.holds store.old) }
    requires room { HasPageRoom c.now.tracker stream.old (St.holds store.old) }
    ensures stream { IsShaped c.now.tracker stream.new (St.holds store.new) }
    ensures touches { Touches c.now.tracker stream.old stream.new (St.holds store.old) (St.holds store.new) }
{
    // A page is made where the last one is full, which is unpinned: it takes a slot, and may be written from then on.
    for number in 1..ROWS + 1 {
        stream.append(alloc, store, c, &row_of(number))?;
    }
    // The first row is taken out, again and again. Its page is pinned, which loads it if it was written, and ends with its
    // last row.
    let mut seen = Seen { rows: 0, sum: 0 };
    for _left in 0..stream.rows() {
        let Some(row) = stream.next_spend(alloc, store, c)? else {
            break;
        };
        seen.rows = seen.rows.saturating_add(1);
        seen.sum = seen.sum.saturating_add(number_in(&row));
    }
    Ok(seen)
}

// A row is four bytes that count the rest of it, and that rest: here a number.
fn row_of(number: u64) -> [u8; 12]
    ensures { IsOneRow result }
{
    let [a, b, c, d, e, f, g, h] = number.to_be_bytes();
    [0, 0, 0, 8, a, b, c, d, e, f, g, h]
}

fn number_in(row: &[u8]) -> u64 {
    match row {
        [_, _, _, _, a, b, c, d, e, f, g, h] => u64::from_be_bytes([
            *a, *b, *c, *d, *e, *f, *g, *h,
        ]),
        _ => 0,
    }
}

fn slots_in_memory(alloc: Global) -> Result<Vec<MemSlot>, AllocError>
    ensures { IfOk result (λ slots. vec_len slots ≡ 40) }
{
    let mut slots = Vec::new(alloc);
    for _i in 0..SLOTS {
        slots.push(MemSlot::new(alloc, &[]).map_err(|_| AllocError)?)?;
    }
    Ok(slots)
}

// How often a block was written to one of these.
fn stores_of(slots: &[MemSlot]) -> u64 {
    let mut stores = 0u64;
    for slot in slots {
        stores = stores.saturating_add(slot.stores());
    }
    stores
}

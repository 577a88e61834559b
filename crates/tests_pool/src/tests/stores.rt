//! What serves any store, over the pool of one owner: a walk over every call, and rows on pages.
ghost use Rattle.std.specs.Prelude.{◌≡◌, ◌≤◌, Some, IfOk, vec_len};
ghost use Rattle.store_api.specs.Conditions.{IsLiveClient};
ghost use Rattle.store_api.specs.Alike.{AlikeButClients};
ghost use Rattle.local_pool.specs.Counting.{at_opening, named_at};
ghost use Rattle.pin_core.specs.Tallies.{Counted, tally_of};
ghost use Rattle.tuple_stream.specs.PageRows.{IsOneRow};
ghost use Rattle.tuple_stream.specs.Places.{IsWithin};
ghost use Rattle.tuple_stream.specs.Streams.{HasPageRoom, IsShaped};
ghost use Rattle.tuple_stream.specs.Touches.{Touches};

use super::owner::{self, Own};
use super::{shows, steps};
use local_pool::{LocalPool, Opened};
use outside::Slot;
use page_table::Place;
use pin_core::PoolConf;
use reservation_tree::PoolErr;
use std::alloc::Global;
use std::marker::Brand;
use std::process::Abort;
use std::test::Fail;
use store_api::{Client, Page, Store, Walked, walk};
use tuple_stream::{At, Stream, StreamErr};

const WALKED: Walked = Walked {
    pinned: 7,
    moved: 9,
    fresh: 0,
};

#[test]
fn a_walk_with_room_for_all_writes_nothing(rt: HostRuntime) {
    let slots = steps::slots(&rt, rt.alloc(), 8, &[]);
    let mut pool = owner::open(&rt, rt.alloc(), 20, 0, slots, 1280);
    assert_eq!(rt; walk(&mut pool, rt.alloc()), Ok(WALKED));
    assert_eq!(rt; owner::close(&rt, pool), (0, 0));
}

// The page is pinned again, once its client has reservation for it, and ends.
fn come_back(rt: &impl Abort, pool: &mut Own, c: &Client, page: Page, byte: u8) {
    assert_eq!(rt; owner::reserve(rt, pool, c, 64), Ok(()));
    let buf = owner::pin(rt, pool, c, &page).expect(rt, "the page");
    assert_eq!(rt; shows::shown(rt, &buf), byte);
    owner::destroy_pinned(rt, pool, page, buf);
    assert_eq!(rt; owner::give_back(rt, pool, c, 64), Ok(()));
}

#[test]
fn a_walk_evicts_the_pages_of_another_client_which_come_back(rt: HostRuntime) {
    let slots = steps::slots(&rt, rt.alloc(), 8, &[]);
    let mut pool = owner::open(&rt, rt.alloc(), 4, 0, slots, 256);
    let c = owner::client(&rt, &mut pool, 64);
    let first = owner::left(&rt, rt.alloc(), &mut pool, &c, 10);
    let second = owner::left(&rt, rt.alloc(), &mut pool, &c, 11);
    let third = owner::left(&rt, rt.alloc(), &mut pool, &c, 12);
    let fourth = owner::left(&rt, rt.alloc(), &mut pool, &c, 13);
    assert_eq!(rt; owner::give_back(&rt, &mut pool, &c, 64), Ok(()));
    assert_eq!(rt; shows::free_blocks(&pool), 0);
    assert_eq!(rt; walk(&mut pool, rt.alloc()), Ok(WALKED));
    assert_eq!(rt; shows::place(&rt, &pool, &first), Place::Evicted);
    come_back(&rt, &mut pool, &c, first, 10);
    come_back(&rt, &mut pool, &c, second, 11);
    come_back(&rt, &mut pool, &c, third, 12);
    come_back(&rt, &mut pool, &c, fourth, 13);
    owner::end_client(&rt, &mut pool, c);
    // Each of the four pages was written once.
    assert_eq!(rt; owner::close(&rt, pool), (4, 0));
}

// A row has its count and sixteen bytes behind it.
fn row_of(alloc: Global, fill: u8) -> Result<Vec<u8>, StreamErr>
    ensures { IfOk result (λ row. IsOneRow row.items) }
{
    let Ok(mut row) = Vec::from_slice(alloc, &[0, 0, 0, 16]) else {
        return Err(StreamErr::Pool(PoolErr::Memory));
    };
    if row.resize(20, fill).is_err() {
        return Err(StreamErr::Pool(PoolErr::Memory));
    }
    Ok(row)
}

// One of seven rows comes, and then each is read: the byte that fills it.
fn take_step<St: Store>(
    stream: &mut Stream,
    store: &mut St,
    alloc: Global,
    c: &Client,
    place: &mut At,
    step: u8,
) -> Result<Option<u8>, StreamErr>
    requires client { IsLiveClient c.now (St.holds store.old) }
    requires stream { IsShaped c.now.tracker stream.old (St.holds store.old) }
    requires room { HasPageRoom c.now.tracker stream.old (St.holds store.old) }
    requires place { IsWithin place.old stream.old }
    ensures place { IsWithin place.new stream.new }
    ensures stream { IsShaped c.now.tracker stream.new (St.holds store.new) }
    ensures sized { stream.new.page_blocks ≡ stream.old.page_blocks }
    ensures touches { Touches c.now.tracker stream.old stream.new (St.holds store.old) (St.holds store.new) }
{
    if step < 7 {
        let row = row_of(alloc, step)?;
        stream.append(alloc, store, c, &row)?;
        return Ok(None);
    }
    match stream.next_keep(alloc, store, c, place)? {
        Some(row) => Ok(row.last().copied()),
        None => Ok(None),
    }
}

// The bytes that fill the rows, as they are read.
fn walked<St: Store>(
    stream: &mut Stream,
    store: &mut St,
    alloc: Global,
    c: &Client,
    steps: &[u8],
) -> Result<Vec<u8>, StreamErr>
    requires client { IsLiveClient c.now (St.holds store.old) }
    requires stream { IsShaped c.now.tracker stream.old (St.holds store.old) }
    requires room { HasPageRoom c.now.tracker stream.old (St.holds store.old) }
    ensures stream { IsShaped c.now.tracker stream.new (St.holds store.new) }
    ensures sized { stream.new.page_blocks ≡ stream.old.page_blocks }
    ensures touches { Touches c.now.tracker stream.old stream.new (St.holds store.old) (St.holds store.new) }
{
    let mut seen = Vec::new(alloc);
    let mut place = At::first();
    for s in steps {
        let shown = take_step(stream, store, alloc, c, &mut place, *s)?;
        if let Some(byte) = shown {
            if seen.push(byte).is_err() {
                return Err(StreamErr::Pool(PoolErr::Memory));
            }
        }
    }
    Ok(seen)
}

// Rows come and are read, on pages of a client that has one page's length. How many pages they take.
fn rows_by<St: Store>(
    store: &mut St,
    alloc: Global,
    c: &Client,
) -> Result<(Vec<u8>, usize), StreamErr>
    requires { IsLiveClient c.now (St.holds store.old) }
    ensures client { IsLiveClient c.now (St.holds store.new) }
    ensures rest { AlikeButClients (St.holds store.old) (St.holds store.new) }
{
    store.reserve(c, u64::from(store.block_len()))?;
    let mut stream = Stream::new(alloc, 1);
    let steps = [0, 1, 2, 3, 4, 5, 6, 7, 8, 9, 10, 11, 12, 13, 14];
    let seen = walked(&mut stream, store, alloc, c, &steps);
    let pages = stream.pages();
    stream.drop_all(store);
    stream.end();
    Ok((seen?, pages))
}

// The same on a client of its own.
fn rows_on_pages<St: Store>(store: &mut St, alloc: Global) -> Result<(Vec<u8>, usize), StreamErr>
    ensures { (St.holds store.new).live_clients ≡ (St.holds store.old).live_clients }
{
    let c = store.add_client(u64::MAX)?;
    let answer = rows_by(store, alloc, &c);
    store.end_client(c);
    answer
}

// The same over these slots, which come back. `T` names what they counted, for contracts alone.
#[tactic(auto, unfolding(pool_model::specs::Bytes::bytes_of))]
fn slots_after<D: Slot + Drop, T: Opened>(alloc: Global, slots: Vec<D>) -> Result<Vec<D>, StreamErr>
    requires few { vec_len slots ≤ 1024 }
    requires opened { named_at T.named T.opening T.first ≡ Some (at_opening (tally_of D.Slot slots.items) 0 20) }
    ensures { IfOk result (λ back. Counted 0 0 0 (tally_of D.Slot slots.items) (tally_of D.Slot back.items)) }
{
    let conf = PoolConf {
        blocks: 20,
        block_len: 64,
        first_name: 0,
        profile: 1,
        trace: 0,
    };
    let quota = slots.len() as u32;
    let Ok(mut pool) = LocalPool::<D, T>::open(alloc, &conf, slots, 1280, quota, 1280) else {
        return Err(StreamErr::Pool(PoolErr::Memory));
    };
    let answer = rows_on_pages(&mut pool, alloc);
    let back = pool.close();
    answer?;
    Ok(back)
}

// The same, for whoever hands in slots: as many come back, and what they counted stands in their counts.
fn rows_over<D: Slot + Drop>(alloc: Global, slots: Vec<D>) -> Result<Vec<D>, StreamErr>
    requires few { vec_len slots ≤ 1024 }
    ensures { IfOk result (λ back. Counted 0 0 0 (tally_of D.Slot slots.items) (tally_of D.Slot back.items)) }
{
    slots_after::<D, Brand>(alloc, slots)
}

#[test]
fn slots_come_back_from_a_pool_with_their_counts(rt: HostRuntime) -> Result<(), Fail> {
    let slots = steps::slots(&rt, rt.alloc(), 8, &[]);
    assert!(rt; slots.len() <= 1024);
    let mut stores = 0u64;
    let back = rows_over(rt.alloc(), slots)?;
    assert_eq!(rt; back.len(), 8);
    for slot in back {
        stores = stores.saturating_add(slot.stores());
    }
    assert_eq!(rt; stores, 5);
    Ok(())
}

// How many stores seven rows took, in a pool of so many blocks.
fn expect_rows(rt: &impl Abort, alloc: Global, blocks: u32, bytes: u64) -> Result<u64, Fail> {
    let slots = steps::slots(rt, alloc, 8, &[]);
    let mut pool = owner::open(rt, alloc, blocks, 0, slots, bytes);
    let answer = rows_on_pages(&mut pool, alloc);
    // The pool is closed before `?`, since a pool that a `?` drops is long to prove.
    let stores = owner::close(rt, pool).0;
    let (seen, pages) = answer?;
    assert_eq!(rt; seen.as_slice(), [0, 1, 2, 3, 4, 5, 6].as_slice());
    assert_eq!(rt; pages, 3);
    Ok(stores)
}

#[test]
fn seven_rows_stand_on_three_pages(rt: HostRuntime) -> Result<(), Fail> {
    // A client that has one page's length unused writes each page before it pins the next one, however much memory
    // there is: the first two twice, since a page that was read rests dirty again.
    assert_eq!(rt; expect_rows(&rt, rt.alloc(), 20, 1280)?, 5);
    assert_eq!(rt; expect_rows(&rt, rt.alloc(), 1, 64)?, 5);
    Ok(())
}

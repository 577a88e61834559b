//! Counted pins of a store in memory against worked rows.
ghost use Rattle.std.specs.Prelude.{◌≡◌, ◌*◌, ◌≤◌, None, IfOk, OnErr};
ghost use Rattle.store_api.specs.Holdings.{unused_of};
ghost use Rattle.store_api.specs.Changes.{after_create, after_pin_again};
ghost use Rattle.store_api.specs.Conditions.{IsLiveClient, Fits};
ghost use Rattle.store_api.specs.Alike.{Alike, AlikeButClients};

use block_arena::Buf;
use reservation_tree::PoolErr;
use std::alloc::Global;
use std::test::Fail;
use store_api::{Client, MemStore, Page, Store};

// A new page of one block, with three pins.
fn pinned_thrice<St: Store>(
    store: &mut St,
    alloc: Global,
    c: &Client,
) -> Result<(Page, Buf), PoolErr>
    requires client { IsLiveClient c.now (St.holds store.old) }
    requires unused { 3 * (St.holds store.old).block_len ≤ unused_of c.now.tracker (St.holds store.old) }
    ensures ok { IfOk result (λ made. St.holds store.new ≡ after_pin_again made.0.name (after_pin_again made.0.name (after_create made.0.name made.0.key c.now.tracker 1 (St.holds store.old)))) }
    ensures fresh { IfOk result (λ made. (St.holds store.old).pages made.0.name ≡ None) }
    ensures client { IfOk result (λ made. made.0.client ≡ c.now.tracker) }
    ensures fits { IfOk result (λ made. Fits 1 (St.holds store.old) made.1) }
    ensures err { OnErr result (Alike (St.holds store.old) (St.holds store.new)) }
{
    let (page, buf) = store.create(alloc, c, 1)?;
    if let Err(e) = store.pin_again(&page) {
        store.destroy(page, Some(buf));
        return Err(e);
    }
    if let Err(e) = store.pin_again(&page) {
        store.destroy(page, Some(buf));
        return Err(e);
    }
    Ok((page, buf))
}

// A new page of one block, with one pin of the three that it had; and what the client had unused with three and with one.
fn pinned_once<St: Store>(
    store: &mut St,
    alloc: Global,
    c: &Client,
) -> Result<(Page, Buf, [u64; 2]), PoolErr>
    requires client { IsLiveClient c.now (St.holds store.old) }
    requires unused { 3 * (St.holds store.old).block_len ≤ unused_of c.now.tracker (St.holds store.old) }
    ensures ok { IfOk result (λ made. St.holds store.new ≡ after_create made.0.name made.0.key c.now.tracker 1 (St.holds store.old)) }
    ensures fresh { IfOk result (λ made. (St.holds store.old).pages made.0.name ≡ None) }
    ensures client { IfOk result (λ made. made.0.client ≡ c.now.tracker) }
    ensures fits { IfOk result (λ made. Fits 1 (St.holds store.old) made.1) }
    ensures err { OnErr result (Alike (St.holds store.old) (St.holds store.new)) }
{
    let (page, buf) = pinned_thrice(store, alloc, c)?;
    let three = store.unused(c);
    store.unpin_once(&page);
    store.unpin_once(&page);
    let one = store.unused(c);
    Ok((page, buf, [three, one]))
}

// What the client has unused while a page has three pins, one, and none. Then the page ends.
fn pinned_and_left<St: Store>(
    store: &mut St,
    alloc: Global,
    c: &Client,
) -> Result<[u64; 3], PoolErr>
    requires client { IsLiveClient c.now (St.holds store.old) }
    requires unused { 3 * (St.holds store.old).block_len ≤ unused_of c.now.tracker (St.holds store.old) }
    ensures { Alike (St.holds store.old) (St.holds store.new) }
{
    let (page, buf, [three, one]) = pinned_once(store, alloc, c)?;
    match store.unpin(&page, buf) {
        Ok(()) => {
            let none = store.unused(c);
            store.destroy(page, None);
            Ok([three, one, none])
        }
        Err((buf, e)) => {
            store.destroy(page, Some(buf));
            Err(e)
        }
    }
}

// What the client has unused while a page has three pins, and when the page was ended with them.
fn pinned_and_ended<St: Store>(
    store: &mut St,
    alloc: Global,
    c: &Client,
) -> Result<[u64; 2], PoolErr>
    requires client { IsLiveClient c.now (St.holds store.old) }
    requires unused { 3 * (St.holds store.old).block_len ≤ unused_of c.now.tracker (St.holds store.old) }
    ensures { Alike (St.holds store.old) (St.holds store.new) }
{
    let (page, buf) = pinned_thrice(store, alloc, c)?;
    let three = store.unused(c);
    store.destroy(page, Some(buf));
    Ok([three, store.unused(c)])
}

// Both, by one client.
fn pinned_by<St: Store>(
    store: &mut St,
    alloc: Global,
    c: &Client,
) -> Result<([u64; 3], [u64; 2]), PoolErr>
    requires client { IsLiveClient c.now (St.holds store.old) }
    requires unused { 3 * (St.holds store.old).block_len ≤ unused_of c.now.tracker (St.holds store.old) }
    ensures { Alike (St.holds store.old) (St.holds store.new) }
{
    let left = pinned_and_left(store, alloc, c)?;
    let ended = pinned_and_ended(store, alloc, c)?;
    Ok((left, ended))
}

// By a client that has reserved 192 bytes, which ends.
fn pinned<St: Store>(store: &mut St, alloc: Global) -> Result<([u64; 3], [u64; 2]), PoolErr>
    requires { (St.holds store.old).block_len ≤ 64 }
    ensures { AlikeButClients (St.holds store.old) (St.holds store.new) }
{
    let c = store.add_client(192)?;
    let seen = match store.reserve(&c, 192) {
        Ok(()) => pinned_by(store, alloc, &c),
        Err(e) => Err(e),
    };
    store.end_client(c);
    seen
}

#[test]
fn each_pin_of_a_page_is_charged(rt: HostRuntime) -> Result<(), Fail> {
    let mut store = MemStore::open(rt.alloc(), 64, 1280, 1280)?;
    let seen = pinned(&mut store, rt.alloc());
    store.close();
    assert_eq!(rt; seen, Ok(([0, 128, 192], [0, 192])));
    Ok(())
}

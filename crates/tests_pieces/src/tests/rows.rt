//! Worked rows.
ghost use Rattle.std.specs.Prelude.{◌≡◌};
ghost use Rattle.sub_alloc.specs.Lending.{IsAllocOf};

use super::plain::Shape;
use super::pool_of;
use super::steps::{
    client, end, fill, give_back, opened, put_back, reserve, shows, shows_part, take, unused, write,
};
use outside::MemSlot;
use std::alloc::Global;
use std::process::Abort;
use store_api::{Client, MemStore, Store};
use sub_alloc::{Piece, SubAlloc, SubErr};

// A piece of this shape, for so many bytes.
fn took<St: Store>(
    rt: &impl Abort,
    alloc: Global,
    store: &mut St,
    c: &Client,
    pieces: &mut SubAlloc,
    bytes: u32,
    shape: Shape,
) -> Piece
    requires { IsAllocOf c.now.tracker (St.holds store.old) pieces.old }
    ensures of { IsAllocOf c.now.tracker (St.holds store.new) pieces.new }
    ensures clients { (St.holds store.new).live_clients ≡ (St.holds store.old).live_clients }
{
    let Ok(piece) = take(rt, alloc, store, c, pieces, bytes) else {
        panic!(rt; "no piece of {bytes} bytes");
    };
    assert_eq!(rt; Shape::of(&piece), shape, "{bytes}");
    piece
}

// Why there is no piece for so many bytes.
fn refused<St: Store>(
    rt: &impl Abort,
    alloc: Global,
    store: &mut St,
    c: &Client,
    pieces: &mut SubAlloc,
    bytes: u32,
) -> SubErr
    requires { IsAllocOf c.now.tracker (St.holds store.old) pieces.old }
    ensures of { IsAllocOf c.now.tracker (St.holds store.new) pieces.new }
    ensures clients { (St.holds store.new).live_clients ≡ (St.holds store.old).live_clients }
{
    match take(rt, alloc, store, c, pieces, bytes) {
        Ok(_) => panic!(rt; "a piece of {bytes} bytes"),
        Err(e) => e,
    }
}

const fn shape(buf: u32, at: u32, len: u32) -> Shape {
    Shape { buf, at, len }
}

// What a client with 512 bytes has charged.
fn charge<St: Store>(store: &St, c: &Client, pieces: &SubAlloc) -> u64
    requires { IsAllocOf c.now.tracker (St.holds store.now) pieces.now }
{
    512u64.saturating_sub(unused(store, c, pieces))
}

// Of two buffers the first is halved for three pieces, and goes back with the last of them.
fn halving<St: Store>(
    rt: &impl Abort,
    alloc: Global,
    store: &mut St,
    c: &Client,
    pieces: &mut SubAlloc,
)
    requires { IsAllocOf c.now.tracker (St.holds store.old) pieces.old }
    ensures of { IsAllocOf c.now.tracker (St.holds store.new) pieces.new }
    ensures clients { (St.holds store.new).live_clients ≡ (St.holds store.old).live_clients }
{
    let first = took(rt, alloc, store, c, pieces, 60, shape(0, 0, 64));
    let second = took(rt, alloc, store, c, pieces, 100, shape(0, 128, 128));
    let third = took(rt, alloc, store, c, pieces, 64, shape(0, 64, 64));
    let whole = took(rt, alloc, store, c, pieces, 200, shape(1, 0, 256));
    assert_eq!(rt; charge(store, c, pieces), 512);
    fill(rt, pieces, &third, 3);
    fill(rt, pieces, &first, 1);
    fill(rt, pieces, &second, 2);
    fill(rt, pieces, &whole, 4);
    write(rt, pieces, &third, 60, &[5; 4]);
    assert!(rt; shows_part(rt, pieces, &third, 60, 4, 5));
    assert!(rt; shows_part(rt, pieces, &third, 0, 60, 3));
    assert!(rt; shows(rt, pieces, &first, 1));
    assert!(rt; shows(rt, pieces, &second, 2));
    put_back(rt, store, c, pieces, first);
    put_back(rt, store, c, pieces, second);
    assert!(rt; shows_part(rt, pieces, &third, 60, 4, 5));
    put_back(rt, store, c, pieces, third);
    assert_eq!(rt; charge(store, c, pieces), 256);
    assert!(rt; shows(rt, pieces, &whole, 4));
    put_back(rt, store, c, pieces, whole);
    assert_eq!(rt; charge(store, c, pieces), 0);
}

// One buffer is all, and a client that lacks a byte of another gets none.
fn refusing<St: Store>(
    rt: &impl Abort,
    alloc: Global,
    store: &mut St,
    c: &Client,
    pieces: &mut SubAlloc,
)
    requires { IsAllocOf c.now.tracker (St.holds store.old) pieces.old }
    ensures of { IsAllocOf c.now.tracker (St.holds store.new) pieces.new }
    ensures clients { (St.holds store.new).live_clients ≡ (St.holds store.old).live_clients }
{
    let whole = took(rt, alloc, store, c, pieces, 256, shape(0, 0, 256));
    assert_eq!(rt;
        refused(rt, alloc, store, c, pieces, 1),
        SubErr::Full { bufs: 1 }
    );
    put_back(rt, store, c, pieces, whole);
    give_back(rt, store, c, pieces, 257);
    assert_eq!(rt;
        refused(rt, alloc, store, c, pieces, 1),
        SubErr::NoRoom {
            wanted: 256,
            unused: 255
        }
    );
    assert!(rt; reserve(store, c, pieces, 1));
    let least = took(rt, alloc, store, c, pieces, 1, shape(0, 0, 64));
    put_back(rt, store, c, pieces, least);
}

/// Both rows over a store, each with a client that has 512 bytes unused.
pub fn rows<St: Store>(rt: &impl Abort, alloc: Global, store: &mut St)
    ensures { (St.holds store.new).live_clients ≡ (St.holds store.old).live_clients }
{
    let c = client(rt, store, 512);
    let mut pieces = opened(rt, alloc, store, &c, 2);
    halving(rt, alloc, store, &c, &mut pieces);
    end(rt, store, c, pieces);
    let c = client(rt, store, 512);
    let mut pieces = opened(rt, alloc, store, &c, 1);
    refusing(rt, alloc, store, &c, &mut pieces);
    end(rt, store, c, pieces);
}

#[test]
fn pieces_are_halved_joined_and_refused_over_a_store_in_memory(rt: HostRuntime) {
    let Ok(mut store) = MemStore::open(rt.alloc(), 64, 512, 512) else {
        panic!(&rt; "no memory");
    };
    rows(&rt, rt.alloc(), &mut store);
    store.close();
}

#[test]
fn pieces_are_halved_joined_and_refused_over_the_pool_of_one_owner(rt: HostRuntime) {
    let Ok(mut pool) = pool_of::<MemSlot>(rt.alloc(), 8, Vec::new(rt.alloc())) else {
        panic!(&rt; "no memory");
    };
    rows(&rt, rt.alloc(), &mut pool);
    pool.close();
}

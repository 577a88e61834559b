//! Mixed calls beside a plain list.
ghost use Rattle.std.specs.Prelude.{◌≡◌, vec_len};
ghost use Rattle.sub_alloc.specs.Lending.{IsAllocOf};

use super::plain::{Plain, Shape};
use super::pool_of;
use super::steps::{client, end, fill, give_back, opened, put_back, reserve, shows, take, unused};
use outside::MemSlot;
use std::alloc::Global;
use std::process::Abort;
use store_api::{Client, MemStore, Store};
use sub_alloc::{Piece, SubAlloc};

// A live piece, and the byte that was written over all of it.
struct Held {
    piece: Piece,
    byte: u8,
}

// The plain list, and what is held.
struct World {
    plain: Plain,
    held: Vec<Held>,
}

// A piece is taken, where the plain list has one, and filled.
fn call_take<St: Store>(
    rt: &impl Abort,
    alloc: Global,
    store: &mut St,
    c: &Client,
    pieces: &mut SubAlloc,
    world: &mut World,
)
    requires { IsAllocOf c.now.tracker (St.holds store.old) pieces.old }
    ensures of { IsAllocOf c.now.tracker (St.holds store.new) pieces.new }
    ensures clients { (St.holds store.new).live_clients ≡ (St.holds store.old).live_clients }
{
    let bytes = 1 + world.plain.below(256) as u32;
    let wanted = world.plain.take(rt, bytes);
    match take(rt, alloc, store, c, pieces, bytes) {
        Ok(piece) => {
            assert_eq!(rt; wanted, Ok(Shape::of(&piece)), "{bytes}");
            let byte = world.plain.below(255) as u8;
            fill(rt, pieces, &piece, byte);
            assert!(rt; world.held.reserve(1).is_ok());
            world.held.push_reserved(Held { piece, byte });
        }
        Err(e) => assert_eq!(rt; wanted, Err(e), "{bytes}"),
    }
}

// Some piece comes back.
fn call_put_back<St: Store>(
    rt: &impl Abort,
    store: &mut St,
    c: &Client,
    pieces: &mut SubAlloc,
    world: &mut World,
)
    requires { IsAllocOf c.now.tracker (St.holds store.old) pieces.old }
    ensures of { IsAllocOf c.now.tracker (St.holds store.new) pieces.new }
    ensures clients { (St.holds store.new).live_clients ≡ (St.holds store.old).live_clients }
{
    let at = world.plain.below(world.held.len() as u64) as usize;
    if at < world.held.len() {
        let Held { piece, byte } = world.held.swap_remove(at);
        assert!(rt; shows(rt, pieces, &piece, byte));
        world.plain.put_back(rt, Shape::of(&piece));
        put_back(rt, store, c, pieces, piece);
    }
}

// The client's reservation grows, or falls by some of what is unused.
fn call_reserve<St: Store>(
    rt: &impl Abort,
    store: &mut St,
    c: &Client,
    pieces: &SubAlloc,
    plain: &mut Plain,
)
    requires { IsAllocOf c.now.tracker (St.holds store.old) pieces.now }
    ensures of { IsAllocOf c.now.tracker (St.holds store.new) pieces.now }
    ensures clients { (St.holds store.new).live_clients ≡ (St.holds store.old).live_clients }
{
    let unused = plain.unused();
    let bytes = plain.below(unused.saturating_add(1));
    give_back(rt, store, c, pieces, bytes);
    plain.reservation = plain.reservation.saturating_sub(bytes);
    let more = plain.below(400);
    if reserve(store, c, pieces, more) {
        plain.reservation = plain.reservation.saturating_add(more);
    }
}

// All that is held shows its bytes, and the client is charged for what is open.
fn compare<St: Store>(rt: &impl Abort, store: &St, c: &Client, pieces: &SubAlloc, world: &World)
    requires { IsAllocOf c.now.tracker (St.holds store.now) pieces.now }
{
    assert_eq!(rt; unused(store, c, pieces), world.plain.unused());
    for held in world.held.iter() {
        assert!(rt; shows(rt, pieces, &held.piece, held.byte));
    }
}

// Some call.
fn call<St: Store>(
    rt: &impl Abort,
    alloc: Global,
    store: &mut St,
    c: &Client,
    pieces: &mut SubAlloc,
    world: &mut World,
)
    requires { IsAllocOf c.now.tracker (St.holds store.old) pieces.old }
    ensures of { IsAllocOf c.now.tracker (St.holds store.new) pieces.new }
    ensures clients { (St.holds store.new).live_clients ≡ (St.holds store.old).live_clients }
{
    match world.plain.below(16) {
        0..=8 => call_take(rt, alloc, store, c, pieces, world),
        9..=14 => call_put_back(rt, store, c, pieces, world),
        _ => call_reserve(rt, store, c, pieces, &mut world.plain),
    }
    compare(rt, store, c, pieces, world);
}

// So many calls.
fn calls<St: Store>(
    rt: &impl Abort,
    alloc: Global,
    store: &mut St,
    c: &Client,
    pieces: &mut SubAlloc,
    world: &mut World,
    count: u32,
)
    requires { IsAllocOf c.now.tracker (St.holds store.old) pieces.old }
    ensures of { IsAllocOf c.now.tracker (St.holds store.new) pieces.new }
    ensures clients { (St.holds store.new).live_clients ≡ (St.holds store.old).live_clients }
{
    for _ in 0..count {
        call(rt, alloc, store, c, pieces, world);
    }
}

// The piece that was taken last of those that are left comes back.
fn last_back<St: Store>(
    rt: &impl Abort,
    store: &mut St,
    c: &Client,
    pieces: &mut SubAlloc,
    held: &mut Vec<Held>,
)
    requires { IsAllocOf c.now.tracker (St.holds store.old) pieces.old }
    ensures of { IsAllocOf c.now.tracker (St.holds store.new) pieces.new }
    ensures clients { (St.holds store.new).live_clients ≡ (St.holds store.old).live_clients }
{
    match held.pop() {
        Some(Held { piece, byte }) => {
            assert!(rt; shows(rt, pieces, &piece, byte));
            put_back(rt, store, c, pieces, piece);
        }
        None => (),
    }
}

// All pieces come back.
fn all_back<St: Store>(
    rt: &impl Abort,
    store: &mut St,
    c: &Client,
    pieces: &mut SubAlloc,
    held: &mut Vec<Held>,
)
    requires { IsAllocOf c.now.tracker (St.holds store.old) pieces.old }
    ensures of { IsAllocOf c.now.tracker (St.holds store.new) pieces.new }
    ensures clients { (St.holds store.new).live_clients ≡ (St.holds store.old).live_clients }
    ensures none { vec_len held.new ≡ 0 }
{
    for _ in 0..held.len() {
        last_back(rt, store, c, pieces, held);
    }
    assert_eq!(rt; held.len(), 0);
}

/// Mixed calls over a store whose query may reserve 1400 bytes.
pub fn mixed<St: Store>(rt: &impl Abort, alloc: Global, store: &mut St)
    ensures { (St.holds store.new).live_clients ≡ (St.holds store.old).live_clients }
{
    let c = client(rt, store, 1400);
    let mut pieces = opened(rt, alloc, store, &c, 4);
    let mut world = World {
        plain: Plain::open(alloc, 7, 1400),
        held: Vec::new(alloc),
    };
    calls(rt, alloc, store, &c, &mut pieces, &mut world, 3000);
    for (kind, times) in world.plain.tallies.into_iter().enumerate() {
        assert!(rt; times >= 50, "{kind} {times}");
    }
    let World { plain: _, mut held } = world;
    all_back(rt, store, &c, &mut pieces, &mut held);
    held.destroy_empty();
    end(rt, store, c, pieces);
}

#[test]
fn mixed_calls_do_what_a_plain_list_does_over_a_store_in_memory(rt: HostRuntime) {
    let Ok(mut store) = MemStore::open(rt.alloc(), 64, 1400, 1400) else {
        panic!(&rt; "no memory");
    };
    mixed(&rt, rt.alloc(), &mut store);
    store.close();
}

#[test]
fn mixed_calls_do_what_a_plain_list_does_over_the_pool_of_one_owner(rt: HostRuntime) {
    let Ok(mut pool) = pool_of::<MemSlot>(rt.alloc(), 22, Vec::new(rt.alloc())) else {
        panic!(&rt; "no memory");
    };
    mixed(&rt, rt.alloc(), &mut pool);
    pool.close();
}

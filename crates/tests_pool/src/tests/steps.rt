//! Single calls of a session and of its clients, each asked for first.

ghost use Rattle.std.specs.Prelude.{◌≡◌, ◌⊎◌};

use outside::MemSlot;
use pin_core::{PoolConf, PoolState};
use pool_questions::{
    are_beside, has_left, has_no_client, has_no_session, has_none, has_room, is_client, is_seat,
};
use reservation_tree::PoolErr;
use std::alloc::Global;
use std::mem::forget;
use std::process::Abort;
use store_api::Client;

/// A pool over slots in memory.
pub type Pool = PoolState<MemSlot>;

/// So many slots, of which each fails at the stores and loads that are listed.
pub fn slots(rt: &impl Abort, alloc: Global, count: u32, fails: &[u64]) -> Vec<MemSlot> {
    let mut slots = Vec::new(alloc);
    for _ in 0..count {
        let slot = MemSlot::new(alloc, fails).expect(rt, "a slot");
        slots.push(slot).expect(rt, "a slot");
    }
    slots
}

/// A pool with so many blocks, which are stored bare.
pub fn open(
    rt: &impl Abort,
    alloc: Global,
    blocks: u32,
    first_name: u64,
    slots: Vec<MemSlot>,
) -> Pool {
    open_in(rt, alloc, false, blocks, first_name, slots)
}

/// The number of the form in which blocks are stored: bare, or behind marks.
pub fn profile_of(marked: bool) -> u32
    ensures { (result ≡ 1) ⊎ (result ≡ 2) }
{
    if marked { 2 } else { 1 }
}

/// A pool with so many blocks, which are stored bare or behind marks.
#[tactic(auto, unfolding(pool_model::specs::Bytes::bytes_of))]
pub fn open_in(
    rt: &impl Abort,
    alloc: Global,
    marked: bool,
    blocks: u32,
    first_name: u64,
    slots: Vec<MemSlot>,
) -> Pool {
    assert!(rt; blocks >= 1);
    assert!(rt; blocks <= 1024);
    assert!(rt; slots.len() <= 1024);
    let profile = profile_of(marked);
    let conf = PoolConf {
        blocks,
        block_len: 64,
        first_name,
        profile,
        trace: 0,
    };
    match PoolState::open(alloc, &conf, slots) {
        Ok(pool) => pool,
        Err(_) => panic!(rt; "no memory for a pool"),
    }
}

/// A session with a limit in bytes, a quota of slots, and a least reservation.
pub fn open_session(
    rt: &impl Abort,
    pool: &mut Pool,
    limit: u64,
    quota: u32,
    least: u64,
) -> Result<u32, PoolErr> {
    assert!(rt; quota <= pool.spare());
    pool.open_session(limit, quota, least)
}

/// A session that may reserve all memory, with a quota of slots.
pub fn session(rt: &impl Abort, pool: &mut Pool, quota: u32) -> u32 {
    match open_session(rt, pool, u64::MAX, quota, 0) {
        Ok(s) => s,
        Err(_) => panic!(rt; "no session"),
    }
}

pub fn end_session(rt: &impl Abort, pool: &mut Pool, s: u32) {
    assert!(rt; is_seat(pool, s));
    assert!(rt; has_no_client(pool, s));
    pool.end_session(s);
}

pub fn add_client(rt: &impl Abort, pool: &mut Pool, s: u32, limit: u64) -> Result<Client, PoolErr> {
    assert!(rt; is_seat(pool, s));
    pool.add_client(s, limit)
}

/// A client with so much reservation.
pub fn client(rt: &impl Abort, pool: &mut Pool, s: u32, bytes: u64) -> Client {
    match add_client(rt, pool, s, u64::MAX) {
        Ok(c) => {
            assert_eq!(rt; increase(rt, pool, &c, bytes), Ok(()));
            c
        }
        Err(_) => panic!(rt; "no client"),
    }
}

/// A pool, a session with this quota, and a client with so much reservation.
pub fn setting(
    rt: &impl Abort,
    alloc: Global,
    marked: bool,
    blocks: u32,
    slots: Vec<MemSlot>,
    quota: u32,
    bytes: u64,
) -> (Pool, u32, Client) {
    let mut pool = open_in(rt, alloc, marked, blocks, 0, slots);
    let s = session(rt, &mut pool, quota);
    let c = client(rt, &mut pool, s, bytes);
    (pool, s, c)
}

pub fn end_client(rt: &impl Abort, pool: &mut Pool, c: Client) {
    assert!(rt; is_client(pool, &c));
    assert!(rt; has_none(pool, &c));
    pool.end_client(c);
}

pub fn increase(rt: &impl Abort, pool: &mut Pool, c: &Client, bytes: u64) -> Result<(), PoolErr> {
    assert!(rt; is_client(pool, c));
    pool.increase(c, bytes)
}

pub fn increase_to_fit(
    rt: &impl Abort,
    pool: &mut Pool,
    c: &Client,
    bytes: u64,
) -> Result<(), PoolErr> {
    assert!(rt; is_client(pool, c));
    pool.increase_to_fit(c, bytes)
}

/// Gives back so much of a reservation that is neither charged nor held.
pub fn decrease(rt: &impl Abort, pool: &mut Pool, c: &Client, bytes: u64) {
    assert!(rt; is_client(pool, c));
    assert!(rt; has_left(pool, c, bytes));
    assert!(rt; has_room(pool, c, bytes));
    pool.decrease_now(c, bytes);
}

pub fn move_reservation(
    rt: &impl Abort,
    pool: &mut Pool,
    from: &Client,
    to: &Client,
    bytes: u64,
) -> Result<(), PoolErr> {
    assert!(rt; is_client(pool, from));
    assert!(rt; are_beside(pool, from, to));
    assert!(rt; has_left(pool, from, bytes));
    assert!(rt; has_room(pool, from, bytes));
    pool.move_now(from, to, bytes)
}

/// The bytes that are charged to a client.
pub fn charge(rt: &impl Abort, pool: &Pool, c: &Client) -> u64 {
    assert!(rt; is_client(pool, c));
    pool.reservation(c.tracker())
        .saturating_sub(pool.unused(c.tracker()))
}

pub fn assert_charge(rt: &impl Abort, pool: &Pool, c: &Client, bytes: u64) {
    assert_eq!(rt; charge(rt, pool, c), bytes);
}

pub fn ask(rt: &impl Abort, pool: &mut Pool, s: u32) -> u64 {
    assert!(rt; is_seat(pool, s));
    pool.ask(s)
}

/// Leaves a pool to the end of its test, whatever it has. Where a pool is dropped, that is long to prove.
pub fn set_aside(pool: Pool) {
    forget(pool);
}

/// Ends a pool without sessions, and tells how many slots came back.
pub fn close(rt: &impl Abort, pool: Pool) -> usize {
    assert!(rt; has_no_session(&pool));
    pool.close().len()
}

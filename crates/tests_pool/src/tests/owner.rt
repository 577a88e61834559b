//! Single calls of the pool of one owner, each asked for first. A page and a loan have one block.

use super::steps;
use block_arena::Buf;
use local_pool::LocalPool;
use outside::MemSlot;
use pin_core::PoolConf;
use pool_questions::{
    has_blocks, has_page_unused, held_page, holds_client, holds_loan, holds_no_client, holds_none,
    is_buffer_of,
};
use reservation_tree::PoolErr;
use std::alloc::Global;
use std::mem::forget;
use std::process::Abort;
use store_api::{Client, Loan, Page, Store};

/// A pool of one owner over slots in memory.
pub type Own = LocalPool<MemSlot>;

/// A pool with so many blocks of 64 bytes, which are stored bare, whose owner has all slots as its quota, and so many
/// bytes as its limit and as its least reservation.
pub fn open(
    rt: &impl Abort,
    alloc: Global,
    blocks: u32,
    first_name: u64,
    slots: Vec<MemSlot>,
    bytes: u64,
) -> Own {
    open_in(rt, alloc, false, blocks, first_name, slots, bytes)
}

/// The same, where blocks are stored bare or behind marks.
#[tactic(auto, unfolding(pool_model::specs::Bytes::bytes_of))]
pub fn open_in(
    rt: &impl Abort,
    alloc: Global,
    marked: bool,
    blocks: u32,
    first_name: u64,
    slots: Vec<MemSlot>,
    bytes: u64,
) -> Own {
    assert!(rt; blocks >= 1);
    assert!(rt; blocks <= 1024);
    assert!(rt; slots.len() <= 1024);
    let profile = steps::profile_of(marked);
    let conf = PoolConf {
        blocks,
        block_len: 64,
        first_name,
        profile,
        trace: 0,
    };
    let quota = slots.len() as u32;
    match LocalPool::open(alloc, &conf, slots, bytes, quota, bytes) {
        Ok(pool) => pool,
        Err(_) => panic!(rt; "the least reservation passes all memory"),
    }
}

/// A client with so much reservation.
pub fn client(rt: &impl Abort, pool: &mut Own, bytes: u64) -> Client {
    let Ok(c) = pool.add_client(256) else {
        panic!(rt; "sixteen clients are live");
    };
    assert_eq!(rt; reserve(rt, pool, &c, bytes), Ok(()));
    c
}

pub fn end_client(rt: &impl Abort, pool: &mut Own, c: Client) {
    assert!(rt; holds_client(pool, &c));
    assert!(rt; holds_none(pool, &c));
    pool.end_client(c);
}

pub fn reserve(rt: &impl Abort, pool: &mut Own, c: &Client, bytes: u64) -> Result<(), PoolErr> {
    assert!(rt; holds_client(pool, c));
    pool.reserve(c, bytes)
}

pub fn give_back(rt: &impl Abort, pool: &mut Own, c: &Client, bytes: u64) -> Result<(), PoolErr> {
    assert!(rt; holds_client(pool, c));
    assert!(rt; bytes <= pool.unused(c));
    pool.give_back(c, bytes)
}

pub fn unused(rt: &impl Abort, pool: &Own, c: &Client) -> u64 {
    assert!(rt; holds_client(pool, c));
    pool.unused(c)
}

pub fn create(
    rt: &impl Abort,
    alloc: Global,
    pool: &mut Own,
    c: &Client,
) -> Result<(Page, Buf), PoolErr> {
    assert!(rt; has_blocks(pool, c, 1));
    pool.create(alloc, c, 1)
}

/// The name of the next page, which stays pinned.
pub fn next_name(
    rt: &impl Abort,
    alloc: Global,
    pool: &mut Own,
    c: &Client,
) -> Result<u64, PoolErr> {
    let (page, _buf) = create(rt, alloc, pool, c)?;
    Ok(page.into_name())
}

/// Leaves this byte in all of a page.
pub fn leave(rt: &impl Abort, pool: &mut Own, p: &Page, mut buf: Buf, byte: u8) {
    assert!(rt; buf.len() == 64);
    buf.write_at(0, &[byte; 64]);
    assert!(rt; unpin(rt, pool, p, buf).is_ok());
}

/// A new page, left with this byte in all of it.
pub fn left(rt: &impl Abort, alloc: Global, pool: &mut Own, c: &Client, byte: u8) -> Page {
    match create(rt, alloc, pool, c) {
        Ok((page, buf)) => {
            leave(rt, pool, &page, buf, byte);
            page
        }
        Err(_) => panic!(rt; "no page"),
    }
}

/// The bytes of a page of this client, which rests and is pinned now.
pub fn pin(rt: &impl Abort, pool: &mut Own, c: &Client, p: &Page) -> Result<Buf, PoolErr> {
    let Some((0, _)) = held_page(pool, p) else {
        panic!(rt; "the page doesn't rest");
    };
    assert!(rt; has_page_unused(pool, c, p));
    pool.pin(p)
}

pub fn pin_again(rt: &impl Abort, pool: &mut Own, c: &Client, p: &Page) -> Result<(), PoolErr> {
    let Some((pins, _)) = held_page(pool, p) else {
        panic!(rt; "the page is live");
    };
    assert!(rt; pins >= 1);
    assert!(rt; has_page_unused(pool, c, p));
    pool.pin_again(p)
}

pub fn unpin_once(rt: &impl Abort, pool: &mut Own, p: &Page) {
    let Some((pins, _)) = held_page(pool, p) else {
        panic!(rt; "the page is live");
    };
    assert!(rt; pins >= 2);
    pool.unpin_once(p);
}

pub fn unpin(rt: &impl Abort, pool: &mut Own, p: &Page, buf: Buf) -> Result<(), (Buf, PoolErr)> {
    let Some((1, blocks)) = held_page(pool, p) else {
        panic!(rt; "the page has one pin");
    };
    assert!(rt; is_buffer_of(pool, blocks, &buf));
    pool.unpin(p, buf)
}

pub fn extract(rt: &impl Abort, pool: &mut Own, p: Page, buf: Buf) -> Loan {
    let Some((1, blocks)) = held_page(pool, &p) else {
        panic!(rt; "the page has one pin");
    };
    assert!(rt; is_buffer_of(pool, blocks, &buf));
    pool.extract(p, buf)
}

/// Ends a page that rests.
pub fn destroy(rt: &impl Abort, pool: &mut Own, p: Page) {
    let Some((0, _)) = held_page(pool, &p) else {
        panic!(rt; "the page rests");
    };
    pool.destroy(p, None);
}

/// Ends a pinned page.
pub fn destroy_pinned(rt: &impl Abort, pool: &mut Own, p: Page, buf: Buf) {
    let Some((pins, blocks)) = held_page(pool, &p) else {
        panic!(rt; "the page is live");
    };
    assert!(rt; pins >= 1);
    assert!(rt; is_buffer_of(pool, blocks, &buf));
    pool.destroy(p, Some(buf));
}

pub fn lend(rt: &impl Abort, alloc: Global, pool: &mut Own, c: &Client) -> Loan {
    assert!(rt; has_blocks(pool, c, 1));
    match pool.alloc(alloc, c, 1) {
        Ok(loan) => loan,
        Err(_) => panic!(rt; "no loan"),
    }
}

/// Charges a loan to another client, or to its own.
pub fn hand_over(rt: &impl Abort, pool: &mut Own, loan: Loan, to: &Client) -> Loan {
    assert!(rt; holds_loan(pool, &loan));
    assert!(rt; holds_client(pool, to));
    assert!(rt; loan.client() == to.tracker() || loan.buf().len() as u64 <= pool.unused(to));
    match pool.move_buffer(loan, to) {
        Ok(loan) => loan,
        Err(_) => panic!(rt; "no room for the loan"),
    }
}

pub fn free(rt: &impl Abort, pool: &mut Own, loan: Loan) {
    assert!(rt; holds_loan(pool, &loan));
    pool.free(loan);
}

/// Leaves a pool to the end of its test, whatever it has. Where a pool is dropped, that is long to prove.
pub fn set_aside(pool: Own) {
    forget(pool);
}

/// Ends a pool that has no client, and gives back its slots.
pub fn slots_back(rt: &impl Abort, pool: Own) -> Vec<MemSlot> {
    assert!(rt; holds_no_client(&pool));
    pool.close()
}

/// The same: how many stores of its slots went well, and how many stores and loads failed.
pub fn close(rt: &impl Abort, pool: Own) -> (u64, u64) {
    let mut sums = (0u64, 0u64);
    for slot in slots_back(rt, pool) {
        sums.0 = sums.0.saturating_add(slot.stores());
        sums.1 = sums.1.saturating_add(slot.faults());
    }
    sums
}

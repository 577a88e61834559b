//! Single calls on pages and loans, each asked for first.

use super::steps::{Pool, ask};
use block_arena::{Buf, Shell};
use outside::{MemSlot, OpenGate};
use pin_core::{EvictedPages, PinTurn, ReadJob, RoomTurn, Want, WriteJob, Wrote};
use pool_questions::{
    can_fill, can_move_to, can_pin, has_left, has_pin_to_spare, has_room_for, is_client_in,
    is_last_pin, is_loan, is_pinned, is_pinned_with, is_read_job, is_unpinned, is_write_job,
    is_writer, length,
};
use reservation_tree::PoolErr;
use scratch_dev::SlotShell;
use std::alloc::Global;
use std::process::Abort;
use store_api::{Client, Loan, Page};

pub fn start_write(rt: &impl Abort, pool: &mut Pool, who: u32) -> Option<WriteJob<MemSlot>> {
    assert!(rt; is_writer(who));
    pool.start_write(who)
}

/// Stores the blocks of a page that flies, and ends its write.
pub fn write(rt: &impl Abort, pool: &mut Pool, mut job: WriteJob<MemSlot>) -> Wrote {
    assert!(rt; is_write_job(pool, &job));
    job.run(&OpenGate, 1000);
    assert!(rt; is_write_job(pool, &job));
    pool.finish_write(job)
}

pub fn room_turn(
    rt: &impl Abort,
    pool: &mut Pool,
    since: u64,
    c: &Client,
    want: Want,
) -> RoomTurn<MemSlot> {
    let s = c.session();
    let (Want::Hold(bytes) | Want::Shrink(bytes)) = want;
    assert!(rt; is_client_in(pool, s, c));
    assert!(rt; has_left(pool, c, bytes));
    pool.room_turn(s, since, c, want)
}

/// Writes pages of the client until it has room for so many bytes.
///
/// # Errors
///
/// The number of a failure that is noted of the client.
pub fn make_room(
    rt: &impl Abort,
    pool: &mut Pool,
    since: u64,
    c: &Client,
    bytes: u64,
) -> Result<(), u64> {
    for _ in 0..64 {
        match room_turn(rt, pool, since, c, Want::Hold(bytes)) {
            RoomTurn::Ready => return Ok(()),
            RoomTurn::Refused { entry } => return Err(entry),
            RoomTurn::Write(job) => {
                write(rt, pool, job);
            }
            RoomTurn::Wait => panic!(rt; "a page flies"),
        }
    }
    panic!(rt; "too many pages are written")
}

/// A list of the pages that a call evicts.
pub fn none_gone(rt: &impl Abort, alloc: Global) -> EvictedPages {
    EvictedPages::open(alloc).expect(rt, "a list")
}

pub fn create_now(
    rt: &impl Abort,
    alloc: Global,
    pool: &mut Pool,
    c: &Client,
    blocks: u32,
    gone: &mut EvictedPages,
) -> Result<(Page, Buf), (Shell, SlotShell<MemSlot>, PoolErr)> {
    let shell = Shell::with(alloc, blocks).expect(rt, "a shell");
    let slots = SlotShell::with(alloc, blocks).expect(rt, "a shell");
    assert!(rt; can_fill(pool, c, &shell));
    pool.create_now(c, shell, slots, gone)
}

/// A new page of so many blocks, where its client has room for it after some writes.
pub fn create(
    rt: &impl Abort,
    alloc: Global,
    pool: &mut Pool,
    c: &Client,
    blocks: u32,
) -> (Page, Buf) {
    let since = ask(rt, pool, c.session());
    let bytes = length(pool, blocks);
    assert_eq!(rt; make_room(rt, pool, since, c, bytes), Ok(()));
    match create_now(rt, alloc, pool, c, blocks, &mut none_gone(rt, alloc)) {
        Ok(made) => made,
        Err(_) => panic!(rt; "no name is left"),
    }
}

/// A new page of so many blocks, left with this byte in front.
pub fn left(
    rt: &impl Abort,
    alloc: Global,
    pool: &mut Pool,
    c: &Client,
    blocks: u32,
    byte: u8,
) -> Page {
    let (page, mut buf) = create(rt, alloc, pool, c, blocks);
    put(rt, &mut buf, byte);
    assert!(rt; unpin(rt, pool, &page, buf).is_ok());
    page
}

/// Puts a byte in front of a buffer.
pub fn put(rt: &impl Abort, buf: &mut Buf, byte: u8) {
    assert!(rt; buf.len() >= 1);
    buf.write_at(0, &[byte]);
}

/// The byte in front of a buffer.
pub fn front(rt: &impl Abort, buf: &Buf) -> u8 {
    assert!(rt; buf.len() >= 1);
    let mut shown = [0];
    buf.read_at(0, &mut shown);
    shown[0]
}

pub fn pin_turn(
    rt: &impl Abort,
    pool: &mut Pool,
    s: u32,
    p: &Page,
    gone: &mut EvictedPages,
) -> PinTurn<MemSlot> {
    assert!(rt; can_pin(pool, s, p));
    pool.pin_turn(s, 0, p, gone)
}

/// Loads the blocks of a page, and ends its load.
pub fn read(
    rt: &impl Abort,
    pool: &mut Pool,
    since: u64,
    mut job: ReadJob<MemSlot>,
) -> Result<Buf, PoolErr> {
    assert!(rt; is_read_job(pool, &job));
    job.run(&OpenGate, 0);
    assert!(rt; is_read_job(pool, &job));
    pool.finish_read(since, job)
}

pub fn pin_again(rt: &impl Abort, pool: &mut Pool, p: &Page) {
    assert!(rt; is_pinned(pool, p));
    assert!(rt; has_room_for(pool, p));
    pool.pin_again_now(p);
}

pub fn unpin_once(rt: &impl Abort, pool: &mut Pool, p: &Page) {
    assert!(rt; has_pin_to_spare(pool, p));
    pool.unpin_once(p);
}

pub fn unpin(rt: &impl Abort, pool: &mut Pool, p: &Page, buf: Buf) -> Result<(), (Buf, PoolErr)> {
    assert!(rt; is_last_pin(pool, p, &buf));
    pool.unpin(p, buf)
}

pub fn extract(rt: &impl Abort, pool: &mut Pool, p: Page, buf: Buf) -> Loan {
    assert!(rt; is_last_pin(pool, &p, &buf));
    pool.extract(p, buf)
}

pub fn destroy_pinned(rt: &impl Abort, pool: &mut Pool, p: Page, buf: Buf) {
    assert!(rt; is_pinned_with(pool, &p, &buf));
    pool.destroy_pinned(p, buf);
}

pub fn destroy_unpinned(rt: &impl Abort, pool: &mut Pool, p: Page) -> Result<(), Page> {
    assert!(rt; is_unpinned(pool, &p));
    pool.destroy_unpinned(p)
}

/// Ends a page that nobody writes.
pub fn destroy(rt: &impl Abort, pool: &mut Pool, p: Page) {
    match destroy_unpinned(rt, pool, p) {
        Ok(()) => {}
        Err(_) => panic!(rt; "the page flies"),
    }
}

pub fn alloc_loan(
    rt: &impl Abort,
    alloc: Global,
    pool: &mut Pool,
    c: &Client,
    blocks: u32,
    gone: &mut EvictedPages,
) -> Loan {
    let shell = Shell::with(alloc, blocks).expect(rt, "a shell");
    assert!(rt; can_fill(pool, c, &shell));
    pool.alloc_now(c, shell, gone)
}

pub fn move_loan(rt: &impl Abort, pool: &mut Pool, loan: Loan, to: &Client) -> Loan {
    assert!(rt; is_loan(pool, to.session(), &loan));
    assert!(rt; can_move_to(pool, &loan, to));
    pool.move_buffer_now(loan, to)
}

pub fn free(rt: &impl Abort, pool: &mut Pool, s: u32, loan: Loan) {
    assert!(rt; is_loan(pool, s, &loan));
    pool.free(loan);
}

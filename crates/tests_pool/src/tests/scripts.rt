//! Worked scripts over the pool of one owner, entry by entry: four blocks of 64 bytes, and a client that has all of them.

use super::owner::{self, Own};
use super::shows;
use block_arena::Buf;
use outside::MemSlot;
use page_table::Place;
use reservation_tree::PoolErr;
use std::alloc::Global;
use std::process::Abort;
use store_api::{Client, Page};

/// Eight slots, of which one fails at these stores and loads, counted together.
pub fn slots_but(rt: &impl Abort, alloc: Global, at: usize, fails: &[u64]) -> Vec<MemSlot> {
    let mut slots = Vec::new(alloc);
    for i in 0..8 {
        let fails = if i == at { fails } else { &[] };
        let slot = MemSlot::new(alloc, fails).expect(rt, "a slot");
        slots.push(slot).expect(rt, "a slot");
    }
    slots
}

// Pages 2 to 4 are pinned, page 0 is evicted, and page 1 dirty.
pub struct Stage {
    pub pool: Own,
    pub c: Client,
    pub first: Page,
    second: Page,
    third: (Page, Buf),
    fourth: (Page, Buf),
    fifth: (Page, Buf),
}

/// The pool has made so many entries, and so much is charged to its client.
pub fn assert_at(rt: &impl Abort, pool: &Own, c: &Client, entries: u64, charge: u64) {
    assert_eq!(rt;
        (shows::entries(pool), shows::charge(rt, pool, c)),
        (entries, charge)
    );
}

pub fn assert_places(rt: &impl Abort, s: &Stage, first: Place, second: Place) {
    let found = [
        shows::place(rt, &s.pool, &s.first),
        shows::place(rt, &s.pool, &s.second),
    ];
    assert_eq!(rt; found, [first, second]);
    for page in [&s.third.0, &s.fourth.0, &s.fifth.0] {
        assert_eq!(rt; shows::place(rt, &s.pool, page), Place::Pinned(1));
    }
}

/// A new page, after whose making the pool has made so many entries.
pub fn created(
    rt: &impl Abort,
    alloc: Global,
    pool: &mut Own,
    c: &Client,
    entries: u64,
) -> (Page, Buf) {
    let made = owner::create(rt, alloc, pool, c).expect(rt, "a page");
    assert_eq!(rt; shows::entries(pool), entries);
    made
}

// Opened, with a client that has all memory.
fn opened(rt: &impl Abort, alloc: Global, marked: bool, slots: Vec<MemSlot>) -> (Own, Client) {
    let mut pool = owner::open_in(rt, alloc, marked, 4, 0, slots, 256);
    assert_eq!(rt; shows::entries(&pool), 2);
    let c = owner::client(rt, &mut pool, 256);
    assert_at(rt, &pool, &c, 4, 0);
    (pool, c)
}

/// Up to the pin of page 0, where blocks are stored bare or behind marks.
pub fn staged(rt: &impl Abort, alloc: Global, marked: bool, slots: Vec<MemSlot>) -> Stage {
    let (mut pool, c) = opened(rt, alloc, marked, slots);
    let (first, buf) = created(rt, alloc, &mut pool, &c, 6);
    let (second, second_buf) = created(rt, alloc, &mut pool, &c, 8);
    let third = created(rt, alloc, &mut pool, &c, 10);
    let fourth = created(rt, alloc, &mut pool, &c, 12);
    assert_at(rt, &pool, &c, 12, 256);
    owner::leave(rt, &mut pool, &first, buf, 0x11);
    assert_at(rt, &pool, &c, 13, 192);
    let fifth = created(rt, alloc, &mut pool, &c, 18);
    assert_eq!(rt; shows::place(rt, &pool, &first), Place::Evicted);
    owner::leave(rt, &mut pool, &second, second_buf, 0x22);
    assert_at(rt, &pool, &c, 19, 192);
    Stage {
        pool,
        c,
        first,
        second,
        third,
        fourth,
        fifth,
    }
}

/// Page 0 is pinned, and shows its bytes. The pool has made as many entries then.
pub fn shown_at(rt: &impl Abort, s: &mut Stage, entries: u64) -> Buf {
    let buf = owner::pin(rt, &mut s.pool, &s.c, &s.first).expect(rt, "the page");
    assert_eq!(rt; shows::shown(rt, &buf), 0x11);
    assert_at(rt, &s.pool, &s.c, entries, 256);
    assert_places(rt, s, Place::Pinned(1), Place::Evicted);
    buf
}

/// All pages and the client end.
pub fn emptied(rt: &impl Abort, s: Stage, buf: Buf) -> Own {
    let Stage {
        mut pool,
        c,
        first,
        second,
        third,
        fourth,
        fifth,
    } = s;
    owner::destroy_pinned(rt, &mut pool, first, buf);
    owner::destroy(rt, &mut pool, second);
    owner::destroy_pinned(rt, &mut pool, third.0, third.1);
    owner::destroy_pinned(rt, &mut pool, fourth.0, fourth.1);
    owner::destroy_pinned(rt, &mut pool, fifth.0, fifth.1);
    owner::end_client(rt, &mut pool, c);
    assert_eq!(rt; shows::free_blocks(&pool), 4);
    pool
}

// All ends, and the slots come back: how many stores went well, and how many stores and loads failed.
fn ended(rt: &impl Abort, s: Stage, buf: Buf) -> (u64, u64) {
    let pool = emptied(rt, s, buf);
    owner::close(rt, pool)
}

fn pins(rt: &impl Abort, alloc: Global, marked: bool) {
    let mut s = staged(rt, alloc, marked, slots_but(rt, alloc, 0, &[]));
    let buf = shown_at(rt, &mut s, 25);
    assert_eq!(rt; ended(rt, s, buf), (2, 0));
}

#[test]
fn a_pin_writes_the_dirty_page_evicts_it_and_loads(rt: HostRuntime) {
    pins(&rt, rt.alloc(), false);
    pins(&rt, rt.alloc(), true);
}

fn pins_unwritten(rt: &impl Abort, alloc: Global, marked: bool) {
    let mut s = staged(rt, alloc, marked, slots_but(rt, alloc, 1, &[0]));
    let refused = owner::pin(rt, &mut s.pool, &s.c, &s.first).err();
    assert_eq!(rt; refused, Some(PoolErr::WriteFault { entry: 21 }));
    assert_at(rt, &s.pool, &s.c, 23, 192);
    assert_places(rt, &s, Place::Evicted, Place::Dirty);
    let buf = shown_at(rt, &mut s, 29);
    assert_eq!(rt; ended(rt, s, buf), (2, 1));
}

#[test]
fn a_pin_whose_write_fails_leaves_the_page_dirty(rt: HostRuntime) {
    pins_unwritten(&rt, rt.alloc(), false);
    pins_unwritten(&rt, rt.alloc(), true);
}

fn pins_unread(rt: &impl Abort, alloc: Global, marked: bool) {
    let mut s = staged(rt, alloc, marked, slots_but(rt, alloc, 0, &[1]));
    let refused = owner::pin(rt, &mut s.pool, &s.c, &s.first).err();
    assert_eq!(rt; refused, Some(PoolErr::ReadFault { entry: 24 }));
    assert_at(rt, &s.pool, &s.c, 26, 192);
    assert_places(rt, &s, Place::Evicted, Place::Evicted);
    assert_eq!(rt; shows::free_blocks(&s.pool), 1);
    let buf = shown_at(rt, &mut s, 29);
    assert_eq!(rt; ended(rt, s, buf), (2, 1));
}

#[test]
fn a_pin_whose_load_fails_leaves_the_page_evicted(rt: HostRuntime) {
    pins_unread(&rt, rt.alloc(), false);
    pins_unread(&rt, rt.alloc(), true);
}

// The third page is left, and a block's length given back: it is written first, and its client has the other three.
fn give_back_one(rt: &impl Abort, s: Stage, buf: Buf) {
    let Stage {
        mut pool,
        c,
        first,
        second,
        third,
        fourth,
        fifth,
    } = s;
    let (third, third_buf) = third;
    let (fourth, _fourth_buf) = fourth;
    let (fifth, _fifth_buf) = fifth;
    owner::leave(rt, &mut pool, &third, third_buf, 0x33);
    assert_at(rt, &pool, &c, 26, 192);
    assert_eq!(rt; owner::give_back(rt, &mut pool, &c, 64), Ok(()));
    assert_at(rt, &pool, &c, 30, 192);
    assert_eq!(rt; shows::reservations(rt, &pool, &c), [192, 192, 192]);
    assert_eq!(rt; shows::place(rt, &pool, &third), Place::Clean);
    shows::shown(rt, &buf);
    first.into_name();
    second.into_name();
    third.into_name();
    fourth.into_name();
    fifth.into_name();
    c.into_tracker();
    owner::set_aside(pool);
}

#[test]
fn what_is_dirty_is_written_before_reservation_is_given_back(rt: HostRuntime) {
    let mut s = staged(&rt, rt.alloc(), false, slots_but(&rt, rt.alloc(), 0, &[]));
    let buf = shown_at(&rt, &mut s, 25);
    assert_eq!(rt; owner::unused(&rt, &s.pool, &s.c), 0);
    give_back_one(&rt, s, buf);
}

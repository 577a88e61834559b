//! Pages that are written.

use super::page_steps;
use super::steps::{self, Pool};
use outside::MemSlot;
use pin_core::{PinTurn, WriteJob, Wrote};
use std::alloc::Global;
use std::process::Abort;
use store_api::{Client, Page};

fn started(rt: &impl Abort, pool: &mut Pool) -> WriteJob<MemSlot> {
    match page_steps::start_write(rt, pool, 1000) {
        Some(job) => job,
        None => panic!(rt; "a page is dirty"),
    }
}

fn assert_none_starts(rt: &impl Abort, pool: &mut Pool) {
    match page_steps::start_write(rt, pool, 1007) {
        Some(_) => panic!(rt; "no page is dirty"),
        None => {}
    }
}

fn assert_waits(rt: &impl Abort, alloc: Global, pool: &mut Pool, s: u32, p: &Page) {
    match page_steps::pin_turn(rt, pool, s, p, &mut page_steps::none_gone(rt, alloc)) {
        PinTurn::Wait => {}
        _ => panic!(rt; "the page is written"),
    }
}

// The byte in front of a page that is in memory, which is pinned now.
fn pinned_here(rt: &impl Abort, alloc: Global, pool: &mut Pool, s: u32, p: &Page) -> u8 {
    match page_steps::pin_turn(rt, pool, s, p, &mut page_steps::none_gone(rt, alloc)) {
        PinTurn::Here(buf) => page_steps::front(rt, &buf),
        _ => panic!(rt; "the page is in memory"),
    }
}

// How the write of a page of two blocks ends, where its slots fail at these calls. The page is to be
// waited for until then, and has its bytes after it.
fn written(rt: &impl Abort, alloc: Global, marked: bool, fails: &[u64]) -> Wrote {
    let slots = steps::slots(rt, alloc, 2, fails);
    let mut pool = steps::open_in(rt, alloc, marked, 4, 10, slots);
    let s = steps::session(rt, &mut pool, 2);
    let c = steps::client(rt, &mut pool, s, 128);
    assert_none_starts(rt, &mut pool);
    let page = page_steps::left(rt, alloc, &mut pool, &c, 2, 7);
    let job = started(rt, &mut pool);
    assert_none_starts(rt, &mut pool);
    assert_waits(rt, alloc, &mut pool, s, &page);
    let wrote = page_steps::write(rt, &mut pool, job);
    assert_eq!(rt; pinned_here(rt, alloc, &mut pool, s, &page), 7);
    page.into_name();
    c.into_tracker();
    steps::set_aside(pool);
    wrote
}

#[test]
fn a_write_leaves_its_page_clean_or_dirty_again(rt: HostRuntime) {
    let rows = [
        ([].as_slice(), Wrote::Done(10)),
        ([0].as_slice(), Wrote::Failed(10)),
        ([1].as_slice(), Wrote::Done(10)),
    ];
    for (fails, wrote) in rows {
        assert_eq!(rt; written(&rt, rt.alloc(), false, fails), wrote);
        assert_eq!(rt; written(&rt, rt.alloc(), true, fails), wrote);
    }
}

// The first client's page is out of memory, and the other client's newest page is dirty.
fn evicted(
    rt: &impl Abort,
    alloc: Global,
    pool: &mut Pool,
    c: &Client,
    other: &Client,
) -> (Page, Page, Page) {
    let page = page_steps::left(rt, alloc, pool, c, 1, 7);
    let job = started(rt, pool);
    assert_eq!(rt; page_steps::write(rt, pool, job), Wrote::Done(0));
    let older = page_steps::left(rt, alloc, pool, other, 1, 8);
    let newer = page_steps::left(rt, alloc, pool, other, 1, 9);
    (page, older, newer)
}

// The first client's page is loaded, with a 7 in front, while another's is written. A page that is clean makes room.
fn load_beside(rt: &impl Abort, alloc: Global, pool: &mut Pool, s: u32, page: &Page) {
    let flying = started(rt, pool);
    let mut gone = page_steps::none_gone(rt, alloc);
    match page_steps::pin_turn(rt, pool, s, page, &mut gone) {
        PinTurn::Load(job) => match page_steps::read(rt, pool, 0, job) {
            Ok(buf) => assert_eq!(rt; page_steps::front(rt, &buf), 7),
            Err(_) => panic!(rt; "no slot fails"),
        },
        _ => panic!(rt; "the page is out of memory, and there is room"),
    }
    assert_eq!(rt; gone.names(), [1].as_slice());
    assert_eq!(rt; page_steps::write(rt, pool, flying), Wrote::Done(2));
}

fn never_waits(rt: &impl Abort, alloc: Global, marked: bool) {
    let slots = steps::slots(rt, alloc, 3, &[]);
    let (mut pool, s, c) = steps::setting(rt, alloc, marked, 2, slots, 3, 64);
    let other = steps::client(rt, &mut pool, s, 64);
    let (page, older, newer) = evicted(rt, alloc, &mut pool, &c, &other);
    load_beside(rt, alloc, &mut pool, s, &page);
    page.into_name();
    older.into_name();
    newer.into_name();
    c.into_tracker();
    other.into_tracker();
    steps::set_aside(pool);
}

#[test]
fn a_pin_with_room_never_waits_for_another_clients_write(rt: HostRuntime) {
    never_waits(&rt, rt.alloc(), false);
    never_waits(&rt, rt.alloc(), true);
}

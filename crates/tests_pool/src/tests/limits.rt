//! Where slots or trackers are spent, and a pool that closes.

use super::page_steps;
use super::steps::{self, Pool};
use block_arena::Buf;
use pool_questions::is_pinned;
use reservation_tree::PoolErr;
use std::process::Abort;
use store_api::{Client, Page};

// A page can't be left while another has the only slot. Its buffer comes back, and it stays pinned.
fn refused(rt: &impl Abort, pool: &mut Pool, page: &Page, buf: Buf) -> Buf {
    match page_steps::unpin(rt, pool, page, buf) {
        Err((buf, refusal)) => {
            assert_eq!(rt; refusal, PoolErr::ScratchFull { need: 1, free: 0 });
            assert!(rt; is_pinned(pool, page));
            assert_eq!(rt; page_steps::front(rt, &buf), 6);
            buf
        }
        Ok(()) => panic!(rt; "no slot is free"),
    }
}

// Once the other page is gone it can.
fn left(rt: &impl Abort, pool: &mut Pool, c: &Client, page: Page, buf: Buf) {
    steps::assert_charge(rt, pool, c, 64);
    assert!(rt; page_steps::unpin(rt, pool, &page, buf).is_ok());
    steps::assert_charge(rt, pool, c, 0);
    page.into_name();
}

#[test]
fn a_page_is_left_once_slots_are_free(rt: HostRuntime) {
    let slots = steps::slots(&rt, rt.alloc(), 4, &[]);
    let (mut pool, _s, c) = steps::setting(&rt, rt.alloc(), false, 4, slots, 1, 128);
    let (second, mut buf) = page_steps::create(&rt, rt.alloc(), &mut pool, &c, 1);
    let first = page_steps::left(&rt, rt.alloc(), &mut pool, &c, 1, 5);
    page_steps::put(&rt, &mut buf, 6);
    let buf = refused(&rt, &mut pool, &second, buf);
    page_steps::destroy(&rt, &mut pool, first);
    left(&rt, &mut pool, &c, second, buf);
    c.into_tracker();
    steps::set_aside(pool);
}

#[test]
fn a_pool_has_240_sessions(rt: HostRuntime) {
    let mut pool = steps::open(&rt, rt.alloc(), 1, 0, steps::slots(&rt, rt.alloc(), 0, &[]));
    for _ in 0..240 {
        assert!(rt; steps::open_session(&rt, &mut pool, 64, 0, 0).is_ok());
    }
    assert_eq!(rt;
        steps::open_session(&rt, &mut pool, 64, 0, 0),
        Err(PoolErr::TooManyTrackers { count: 240 })
    );
    steps::end_session(&rt, &mut pool, 17);
    assert_eq!(rt; steps::open_session(&rt, &mut pool, 64, 0, 0), Ok(17));
    steps::set_aside(pool);
}

#[test]
fn a_session_has_16_clients(rt: HostRuntime) {
    let mut pool = steps::open(&rt, rt.alloc(), 1, 0, steps::slots(&rt, rt.alloc(), 0, &[]));
    let s = steps::session(&rt, &mut pool, 0);
    for _ in 0..15 {
        steps::client(&rt, &mut pool, s, 0).into_tracker();
    }
    let last = steps::client(&rt, &mut pool, s, 0);
    match steps::add_client(&rt, &mut pool, s, 64) {
        Err(refusal) => assert_eq!(rt; refusal, PoolErr::TooManyTrackers { count: 16 }),
        Ok(_) => panic!(rt; "there are 16 clients"),
    }
    steps::end_client(&rt, &mut pool, last);
    steps::client(&rt, &mut pool, s, 0).into_tracker();
    steps::set_aside(pool);
}

#[test]
fn a_pool_that_closes_gives_all_its_slots_back(rt: HostRuntime) {
    let slots = steps::slots(&rt, rt.alloc(), 5, &[]);
    let mut pool = steps::open(&rt, rt.alloc(), 4, 0, slots);
    let first = steps::session(&rt, &mut pool, 3);
    let second = steps::session(&rt, &mut pool, 1);
    assert_eq!(rt; pool.spare(), 1);
    steps::end_session(&rt, &mut pool, first);
    steps::end_session(&rt, &mut pool, second);
    assert_eq!(rt; steps::close(&rt, pool), 5);
}

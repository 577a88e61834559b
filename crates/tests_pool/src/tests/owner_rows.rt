//! Worked rows over the pool of one owner.

use super::owner::{self, Own};
use super::{page_steps, shows, steps};
use page_table::Place;
use reservation_tree::PoolErr;
use std::alloc::Global;
use std::process::Abort;
use store_api::{Client, Loan, Page};

fn lacks_slots(rt: &impl Abort, alloc: Global, marked: bool) {
    let slots = steps::slots(rt, alloc, 1, &[]);
    let mut pool = owner::open_in(rt, alloc, marked, 4, 0, slots, 256);
    let c = owner::client(rt, &mut pool, 128);
    let first = owner::left(rt, alloc, &mut pool, &c, 1);
    let Ok((second, mut buf)) = owner::create(rt, alloc, &mut pool, &c) else {
        panic!(rt; "no page");
    };
    page_steps::put(rt, &mut buf, 2);
    let Err((buf, refused)) = owner::unpin(rt, &mut pool, &second, buf) else {
        panic!(rt; "one slot is enough");
    };
    assert_eq!(rt; refused, PoolErr::ScratchFull { need: 1, free: 0 });
    assert_eq!(rt; page_steps::front(rt, &buf), 2);
    assert_eq!(rt; shows::place(rt, &pool, &second), Place::Pinned(1));
    owner::destroy(rt, &mut pool, first);
    assert!(rt; owner::unpin(rt, &mut pool, &second, buf).is_ok());
    second.into_name();
    c.into_tracker();
    owner::set_aside(pool);
}

#[test]
fn an_unpin_that_lacks_slots_is_refused_until_slots_are_free(rt: HostRuntime) {
    lacks_slots(&rt, rt.alloc(), false);
    lacks_slots(&rt, rt.alloc(), true);
}

// Four clean pages of a client without reservation, and no free block.
fn clean(rt: &impl Abort, alloc: Global, pool: &mut Own, c: &Client) -> (Page, Page) {
    let first = owner::left(rt, alloc, pool, c, 10);
    let second = owner::left(rt, alloc, pool, c, 11);
    owner::left(rt, alloc, pool, c, 12).into_name();
    owner::left(rt, alloc, pool, c, 13).into_name();
    assert_eq!(rt; owner::give_back(rt, pool, c, 64), Ok(()));
    assert_eq!(rt; shows::free_blocks(pool), 0);
    (first, second)
}

fn evicts_the_oldest(rt: &impl Abort, alloc: Global, marked: bool) {
    let slots = steps::slots(rt, alloc, 8, &[]);
    let mut pool = owner::open_in(rt, alloc, marked, 4, 0, slots, 256);
    let a = owner::client(rt, &mut pool, 64);
    let b = owner::client(rt, &mut pool, 64);
    let (first, second) = clean(rt, alloc, &mut pool, &a);
    let before = shows::entries(&pool);
    let Ok((other, _buf)) = owner::create(rt, alloc, &mut pool, &b) else {
        panic!(rt; "no page");
    };
    // It asks, evicts and creates.
    assert_eq!(rt; shows::entries(&pool), before.wrapping_add(3));
    assert_eq!(rt; shows::place(rt, &pool, &first), Place::Evicted);
    assert_eq!(rt; owner::reserve(rt, &mut pool, &a, 64), Ok(()));
    let buf = owner::pin(rt, &mut pool, &a, &first).expect(rt, "the page");
    assert_eq!(rt; shows::shown(rt, &buf), 10);
    assert_eq!(rt; shows::place(rt, &pool, &second), Place::Evicted);
    first.into_name();
    second.into_name();
    other.into_name();
    a.into_tracker();
    b.into_tracker();
    owner::set_aside(pool);
}

#[test]
fn a_page_of_another_client_evicts_the_page_that_is_clean_longest(rt: HostRuntime) {
    evicts_the_oldest(&rt, rt.alloc(), false);
    evicts_the_oldest(&rt, rt.alloc(), true);
}

#[test]
fn the_name_before_the_last_number_is_the_last_that_is_given(rt: HostRuntime) {
    let slots = steps::slots(&rt, rt.alloc(), 0, &[]);
    let mut pool = owner::open(&rt, rt.alloc(), 4, u64::MAX - 1, slots, 256);
    let c = owner::client(&rt, &mut pool, 128);
    assert_eq!(rt;
        owner::next_name(&rt, rt.alloc(), &mut pool, &c),
        Ok(u64::MAX - 1)
    );
    assert_eq!(rt;
        owner::next_name(&rt, rt.alloc(), &mut pool, &c),
        Err(PoolErr::NamesSpent)
    );
    c.into_tracker();
    owner::set_aside(pool);
}

fn assert_charges(rt: &impl Abort, pool: &Own, a: &Client, b: &Client, bytes: (u64, u64)) {
    assert_eq!(rt;
        (shows::charge(rt, pool, a), shows::charge(rt, pool, b)),
        bytes
    );
}

// A page of the client's that became a loan, with a 7 in front.
fn extracted(rt: &impl Abort, alloc: Global, pool: &mut Own, c: &Client) -> Loan {
    let (page, mut buf) = owner::create(rt, alloc, pool, c).expect(rt, "a page");
    page_steps::put(rt, &mut buf, 7);
    owner::extract(rt, pool, page, buf)
}

// To its own client nothing is entered.
fn kept(rt: &impl Abort, pool: &mut Own, loan: Loan, c: &Client) -> Loan {
    let entries = shows::entries(pool);
    let loan = owner::hand_over(rt, pool, loan, c);
    assert_eq!(rt; shows::entries(pool), entries);
    loan
}

#[test]
fn a_loan_is_charged_to_whom_it_is_moved(rt: HostRuntime) {
    let slots = steps::slots(&rt, rt.alloc(), 0, &[]);
    let mut pool = owner::open(&rt, rt.alloc(), 4, 0, slots, 256);
    let a = owner::client(&rt, &mut pool, 128);
    let b = owner::client(&rt, &mut pool, 64);
    let loan = extracted(&rt, rt.alloc(), &mut pool, &a);
    let loan = kept(&rt, &mut pool, loan, &a);
    assert_charges(&rt, &pool, &a, &b, (64, 0));
    let loan = owner::hand_over(&rt, &mut pool, loan, &b);
    assert_charges(&rt, &pool, &a, &b, (0, 64));
    assert_eq!(rt; page_steps::front(&rt, loan.buf()), 7);
    owner::free(&rt, &mut pool, loan);
    let loan = owner::lend(&rt, rt.alloc(), &mut pool, &b);
    assert_eq!(rt; shows::shown(&rt, loan.buf()), 0);
    owner::free(&rt, &mut pool, loan);
    assert_charges(&rt, &pool, &a, &b, (0, 0));
    a.into_tracker();
    b.into_tracker();
    owner::set_aside(pool);
}

#[test]
fn reservation_that_is_given_back_falls_at_client_query_and_root(rt: HostRuntime) {
    let slots = steps::slots(&rt, rt.alloc(), 2, &[]);
    let mut pool = owner::open(&rt, rt.alloc(), 4, 0, slots, 128);
    let c = owner::client(&rt, &mut pool, 128);
    let dirty = owner::left(&rt, rt.alloc(), &mut pool, &c, 1);
    let Ok((pinned, _buf)) = owner::create(&rt, rt.alloc(), &mut pool, &c) else {
        panic!(rt; "no page");
    };
    let before = shows::entries(&pool);
    assert_eq!(rt; owner::give_back(&rt, &mut pool, &c, 64), Ok(()));
    // It asks, writes the page and ends the write, and gives back.
    assert_eq!(rt; shows::entries(&pool), before.wrapping_add(4));
    assert_eq!(rt; shows::reservations(&rt, &pool, &c), [64, 64, 64]);
    assert_eq!(rt; shows::place(&rt, &pool, &dirty), Place::Clean);
    dirty.into_name();
    pinned.into_name();
    c.into_tracker();
    owner::set_aside(pool);
}

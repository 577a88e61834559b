//! Rows on pins that are counted, over the pool of one owner: each is charged, and a further one has its page's client write first.

use super::owner::{self, Own};
use super::scripts::{assert_at, created, slots_but};
use super::shows;
use outside::MemSlot;
use page_table::Place;
use reservation_tree::PoolErr;
use std::alloc::Global;
use std::process::Abort;
use store_api::{Client, Page};

#[test]
fn each_pin_of_a_page_is_charged(rt: HostRuntime) {
    let mut pool = owner::open(
        &rt,
        rt.alloc(),
        4,
        0,
        slots_but(&rt, rt.alloc(), 0, &[]),
        256,
    );
    let c = owner::client(&rt, &mut pool, 192);
    let (page, buf) = created(&rt, rt.alloc(), &mut pool, &c, 6);
    assert_eq!(rt; owner::pin_again(&rt, &mut pool, &c, &page), Ok(()));
    assert_eq!(rt; owner::pin_again(&rt, &mut pool, &c, &page), Ok(()));
    assert_at(&rt, &pool, &c, 10, 192);
    assert_eq!(rt; shows::free_blocks(&pool), 3);
    owner::unpin_once(&rt, &mut pool, &page);
    owner::unpin_once(&rt, &mut pool, &page);
    assert_at(&rt, &pool, &c, 12, 64);
    owner::leave(&rt, &mut pool, &page, buf, 1);
    assert_at(&rt, &pool, &c, 13, 0);
    assert_eq!(rt; shows::place(&rt, &pool, &page), Place::Dirty);
    page.into_name();
    c.into_tracker();
    owner::set_aside(pool);
}

// Page 0 is dirty, and page 1 pinned twice, with no room for a third pin.
fn pinned_twice(rt: &impl Abort, alloc: Global, slots: Vec<MemSlot>) -> (Own, Client, Page, Page) {
    let mut pool = owner::open(rt, alloc, 4, 0, slots, 256);
    let c = owner::client(rt, &mut pool, 192);
    let (first, buf) = created(rt, alloc, &mut pool, &c, 6);
    let (second, _buf) = created(rt, alloc, &mut pool, &c, 8);
    owner::leave(rt, &mut pool, &first, buf, 1);
    assert_at(rt, &pool, &c, 9, 64);
    assert_eq!(rt; owner::pin_again(rt, &mut pool, &c, &second), Ok(()));
    assert_at(rt, &pool, &c, 11, 128);
    (pool, c, first, second)
}

#[test]
fn a_further_pin_writes_what_is_dirty_first(rt: HostRuntime) {
    let slots = slots_but(&rt, rt.alloc(), 0, &[]);
    let (mut pool, c, first, second) = pinned_twice(&rt, rt.alloc(), slots);
    assert_eq!(rt; owner::pin_again(&rt, &mut pool, &c, &second), Ok(()));
    assert_at(&rt, &pool, &c, 15, 192);
    assert_eq!(rt; shows::place(&rt, &pool, &first), Place::Clean);
    first.into_name();
    second.into_name();
    c.into_tracker();
    owner::set_aside(pool);
}

#[test]
fn a_further_pin_is_refused_where_that_write_fails(rt: HostRuntime) {
    let slots = slots_but(&rt, rt.alloc(), 0, &[0]);
    let (mut pool, c, first, second) = pinned_twice(&rt, rt.alloc(), slots);
    let refused = owner::pin_again(&rt, &mut pool, &c, &second);
    assert_eq!(rt; refused, Err(PoolErr::WriteFault { entry: 13 }));
    assert_at(&rt, &pool, &c, 15, 128);
    assert_eq!(rt; shows::place(&rt, &pool, &first), Place::Dirty);
    assert_eq!(rt; shows::place(&rt, &pool, &second), Place::Pinned(2));
    first.into_name();
    second.into_name();
    c.into_tracker();
    owner::set_aside(pool);
}

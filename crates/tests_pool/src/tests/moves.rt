//! Calls on sessions, clients and loans that are done at once, each made of the pool and of the plain pool. A call whose conditions don't
//! hold isn't made. Whether one was made is told.

use super::page_steps;
use super::steps::{self, Pool};
use super::sums::bytes_of;
use super::world::{Leaf, Lent, World};
use reservation_tree::TrackerId;
use std::alloc::Global;
use std::process::Abort;
use store_api::{Client, Loan, Page};

pub fn client(world: &World, t: u32) -> Client {
    Client::of(world.session_of(t), TrackerId::of(t))
}

pub fn page(name: u64, leaf: &Leaf) -> Page {
    Page::of(name, leaf.key, TrackerId::of(leaf.client))
}

pub fn ask(rt: &impl Abort, pool: &mut Pool, world: &mut World, s: u32) -> bool {
    assert_eq!(rt; steps::ask(rt, pool, s), world.entries);
    world.forget(s);
    world.count(1);
    true
}

pub fn grow(rt: &impl Abort, pool: &mut Pool, world: &mut World, t: u32, fits: bool) -> bool {
    let bytes = bytes_of(world.below(6));
    let more = match fits {
        true => bytes.saturating_sub(world.unused(t)),
        false => bytes,
    };
    let s = world.session_of(t);
    let growth = world.growth(s, more);
    let c = client(world, t);
    let grown = match fits {
        true => steps::increase_to_fit(rt, pool, &c, bytes),
        false => steps::increase(rt, pool, &c, bytes),
    };
    c.into_tracker();
    assert_eq!(rt; grown.is_ok(), growth <= world.room());
    if grown.is_ok() {
        let reserved = world.reservation(t).saturating_add(more);
        world.set_reservation(t, reserved);
        let query = world.query(s).saturating_add(growth);
        world.set_query(s, query);
        world.count(1);
    }
    grown.is_ok()
}

pub fn shrink(rt: &impl Abort, pool: &mut Pool, world: &mut World, t: u32) -> bool {
    let bytes = bytes_of(world.below(4));
    if bytes > world.unused(t) || !world.has_room(t, bytes) {
        return false;
    }
    let c = client(world, t);
    steps::decrease(rt, pool, &c, bytes);
    c.into_tracker();
    let reserved = world.reservation(t).saturating_sub(bytes);
    world.set_reservation(t, reserved);
    let s = world.session_of(t);
    let query = world.query(s).saturating_sub(bytes);
    world.set_query(s, query);
    world.count(1);
    true
}

pub fn hand(rt: &impl Abort, pool: &mut Pool, world: &mut World, t: u32, to: u32) -> bool {
    let bytes = bytes_of(world.below(4));
    if t == to || world.session_of(t) != world.session_of(to) {
        return false;
    }
    if bytes > world.unused(t) || !world.has_room(t, bytes) {
        return false;
    }
    let from = client(world, t);
    let other = client(world, to);
    assert_eq!(rt;
        steps::move_reservation(rt, pool, &from, &other, bytes),
        Ok(())
    );
    from.into_tracker();
    other.into_tracker();
    let less = world.reservation(t).saturating_sub(bytes);
    let more = world.reservation(to).saturating_add(bytes);
    world.set_reservation(t, less);
    world.set_reservation(to, more);
    world.count(1);
    true
}

pub fn add_client(rt: &impl Abort, pool: &mut Pool, world: &mut World, s: u32) -> bool {
    if world.members(s) >= 2 {
        return false;
    }
    let t = steps::client(rt, pool, s, 0).into_tracker().number();
    world.join(t, s).expect(rt, "memory");
    world.count(2);
    true
}

pub fn end_client(rt: &impl Abort, pool: &mut Pool, world: &mut World, t: u32) -> bool {
    if !world.is_idle(t) {
        return false;
    }
    let c = client(world, t);
    steps::end_client(rt, pool, c);
    world.clients.remove(&t);
    world.failures.remove(&t);
    world.count(2);
    true
}

/// A session without clients ends, and the next one gets its number.
pub fn begin_anew(rt: &impl Abort, pool: &mut Pool, world: &mut World, s: u32) -> bool {
    if world.members(s) > 0 {
        return false;
    }
    steps::end_session(rt, pool, s);
    assert_eq!(rt; steps::session(rt, pool, world.quota), s);
    world.set_query(s, 0);
    world.count(4);
    true
}

/// A loan comes.
pub fn lend(rt: &impl Abort, world: &mut World, loan: Loan) {
    let number = loan.number();
    let client = loan.client().number();
    let buf = loan.into_buf();
    world
        .lend(number, Lent { client, buf })
        .expect(rt, "memory");
    world.count(1);
}

pub fn alloc_loan(
    rt: &impl Abort,
    alloc: Global,
    pool: &mut Pool,
    world: &mut World,
    t: u32,
) -> bool {
    let blocks = 1u32.saturating_add(world.below(2));
    if !world.has_room(t, bytes_of(blocks)) {
        return false;
    }
    world.evict(blocks).expect(rt, "memory");
    let c = client(world, t);
    let loan = page_steps::alloc_loan(rt, alloc, pool, &c, blocks, &mut world.gone);
    assert!(rt; world.is_told());
    c.into_tracker();
    lend(rt, world, loan);
    true
}

pub fn free(rt: &impl Abort, pool: &mut Pool, world: &mut World, number: u32) -> bool {
    let Some(lent) = world.loans.remove(&number) else {
        return false;
    };
    let s = world.session_of(lent.client);
    let loan = Loan::of(number, TrackerId::of(lent.client), lent.buf);
    page_steps::free(rt, pool, s, loan);
    world.count(1);
    true
}

pub fn move_loan(
    rt: &impl Abort,
    pool: &mut Pool,
    world: &mut World,
    number: u32,
    to: u32,
) -> bool {
    let Some(lent) = world.loans.remove(&number) else {
        return false;
    };
    let goes = world.session_of(lent.client) == world.session_of(to)
        && lent.client != to
        && world.has_room(to, lent.buf.len() as u64);
    if !goes {
        world.lend(number, lent).expect(rt, "memory");
        return false;
    }
    let loan = Loan::of(number, TrackerId::of(lent.client), lent.buf);
    let other = client(world, to);
    let loan = page_steps::move_loan(rt, pool, loan, &other);
    other.into_tracker();
    lend(rt, world, loan);
    true
}

//! Calls on pages that are done at once, each made of the pool and of the plain pool.

use super::moves::{client, lend, page};
use super::page_steps;
use super::steps::Pool;
use super::sums::bytes_of;
use super::world::{Leaf, World};
use page_table::Place;
use std::alloc::Global;
use std::process::Abort;
use store_api::Page;

pub fn create(rt: &impl Abort, alloc: Global, pool: &mut Pool, world: &mut World, t: u32) -> bool {
    let blocks = 1u32.saturating_add(world.below(3));
    if !world.has_room(t, bytes_of(blocks)) {
        return false;
    }
    world.evict(blocks).expect(rt, "memory");
    let c = client(world, t);
    let made = page_steps::create_now(rt, alloc, pool, &c, blocks, &mut world.gone);
    assert!(rt; world.is_told());
    c.into_tracker();
    match made {
        Ok((page, buf)) => {
            let leaf = Leaf {
                key: page.key(),
                session: world.session_of(t),
                client: t,
                blocks,
                place: Place::Pinned(1),
                has_slots: false,
                byte: 0,
            };
            let name = page.into_name();
            world.come(name, leaf).expect(rt, "memory");
            world.hold(name, buf).expect(rt, "memory");
        }
        Err(_) => panic!(rt; "a name is left"),
    }
    world.count(1);
    true
}

pub fn unpin(rt: &impl Abort, pool: &mut Pool, world: &mut World, name: u64, leaf: Leaf) -> bool {
    if leaf.place != Place::Pinned(1) {
        return false;
    }
    let Some(mut buf) = world.buffers.remove(&name) else {
        return false;
    };
    let byte = world.byte();
    page_steps::put(rt, &mut buf, byte);
    let p = page(name, &leaf);
    let left = page_steps::unpin(rt, pool, &p, buf);
    p.into_name();
    assert_eq!(rt; left.is_err(), lacks_slots(world, &leaf));
    world.count(1);
    match left {
        Ok(()) => world.leave(name, byte).expect(rt, "memory"),
        Err((buf, _refusal)) => world.hold(name, buf).expect(rt, "memory"),
    }
    true
}

// A page that has no slots yet can't have them.
fn lacks_slots(world: &World, leaf: &Leaf) -> bool {
    !leaf.has_slots && world.free_slots(leaf.session) < u64::from(leaf.blocks)
}

pub fn pin_again(
    rt: &impl Abort,
    pool: &mut Pool,
    world: &mut World,
    name: u64,
    leaf: Leaf,
) -> bool {
    let Place::Pinned(count) = leaf.place else {
        return false;
    };
    if !world.has_room(leaf.client, bytes_of(leaf.blocks)) {
        return false;
    }
    let p = page(name, &leaf);
    page_steps::pin_again(rt, pool, &p);
    p.into_name();
    world.put(name, Place::Pinned(count.saturating_add(1)));
    world.count(1);
    true
}

pub fn unpin_once(
    rt: &impl Abort,
    pool: &mut Pool,
    world: &mut World,
    name: u64,
    leaf: Leaf,
) -> bool {
    let Place::Pinned(count) = leaf.place else {
        return false;
    };
    if count < 2 {
        return false;
    }
    let p = page(name, &leaf);
    page_steps::unpin_once(rt, pool, &p);
    p.into_name();
    world.put(name, Place::Pinned(count.saturating_sub(1)));
    world.count(1);
    true
}

pub fn extract(rt: &impl Abort, pool: &mut Pool, world: &mut World, name: u64, leaf: Leaf) -> bool {
    if leaf.place != Place::Pinned(1) {
        return false;
    }
    let Some(buf) = world.buffers.remove(&name) else {
        return false;
    };
    let loan = page_steps::extract(rt, pool, page(name, &leaf), buf);
    world.pages.remove(&name);
    lend(rt, world, loan);
    true
}

pub fn destroy(rt: &impl Abort, pool: &mut Pool, world: &mut World, name: u64, leaf: Leaf) -> bool {
    match leaf.place {
        Place::Pinned(_) => {
            let Some(buf) = world.buffers.remove(&name) else {
                return false;
            };
            page_steps::destroy_pinned(rt, pool, page(name, &leaf), buf);
        }
        Place::Dirty | Place::Clean | Place::Evicted => {
            page_steps::destroy(rt, pool, page(name, &leaf));
        }
        Place::Flying(_) => return is_kept(rt, pool, name, &leaf),
        Place::Loading => return false,
    }
    world.unqueue(name);
    world.pages.remove(&name);
    world.count(1);
    true
}

// A page that is written doesn't end.
fn is_kept(rt: &impl Abort, pool: &mut Pool, name: u64, leaf: &Leaf) -> bool {
    match page_steps::destroy_unpinned(rt, pool, page(name, leaf)) {
        Ok(()) => panic!(rt; "the page is written"),
        Err(p) => p.into_name() == name,
    }
}

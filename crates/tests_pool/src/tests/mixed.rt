//! Mixed calls of three sessions over slots that fail now and then.

use super::flights::{self, Started};
use super::steps::{self, Pool};
use super::sums::bytes_of;
use super::world::{self, Leaf, World};
use super::{moves, page_moves, page_steps};
use outside::MemSlot;
use page_table::{PageId, PageTable};
use pin_core::Kept;
use reservation_tree::{TrackerId, Tree};
use std::alloc::Global;
use std::process::Abort;

// The store or the load of a slot that fails, counted from 0.
const FAILS: [u64; 12] = [3, 4, 9, 14, 15, 16, 25, 31, 32, 44, 58, 71];

// The pool has what the plain pool has.
fn compare(rt: &impl Abort, pool: &Pool, world: &World) {
    let parts = pool.parts();
    assert_eq!(rt;
        (parts.entries, bytes_of(parts.arena.free())),
        (world.entries, world.free())
    );
    for (t, member) in world.clients.iter() {
        let charge = world.charge(*t);
        compare_client(rt, &parts.tree, *t, (member.reservation, charge));
    }
    for (name, leaf) in world.pages.iter() {
        compare_page(rt, &parts.pages, *name, leaf);
    }
}

// The client has reserved so much, and is charged so much.
fn compare_client(rt: &impl Abort, tree: &Tree, t: u32, bytes: (u64, u64)) {
    let client = TrackerId::of(t);
    assert!(rt; tree.is_live(client));
    assert_eq!(rt; (tree.reservation(client), tree.used(client)), bytes);
}

// The page is where the plain pool's page is.
fn compare_page(rt: &impl Abort, pages: &PageTable<Kept<MemSlot>>, name: u64, leaf: &Leaf) {
    let id = PageId {
        name,
        key: leaf.key,
    };
    match pages.get(id) {
        Some(entry) => assert_eq!(rt; entry.place, leaf.place, "page {name}"),
        None => panic!(rt; "page {name} is live"),
    }
}

// A call on sessions, clients and their reservations.
fn call_of_client(rt: &impl Abort, pool: &mut Pool, world: &mut World, kind: usize) -> bool {
    let s = world.below(3);
    let Some(t) = world.some_client() else {
        return moves::add_client(rt, pool, world, s);
    };
    match kind {
        0 => moves::ask(rt, pool, world, s),
        1 => moves::grow(rt, pool, world, t, false),
        2 => moves::grow(rt, pool, world, t, true),
        3 => moves::shrink(rt, pool, world, t),
        4 => moves::add_client(rt, pool, world, s),
        5 => moves::end_client(rt, pool, world, t),
        6 => moves::begin_anew(rt, pool, world, s),
        _ => match world.some_client() {
            Some(to) => moves::hand(rt, pool, world, t, to),
            None => false,
        },
    }
}

// A call on a client's new pages and loans.
fn call_of_loan(
    rt: &impl Abort,
    alloc: Global,
    pool: &mut Pool,
    world: &mut World,
    kind: usize,
) -> bool {
    let Some(t) = world.some_client() else {
        return false;
    };
    match (kind, world.some_loan()) {
        (8, _) => page_moves::create(rt, alloc, pool, world, t),
        (9, _) => moves::alloc_loan(rt, alloc, pool, world, t),
        (10, Some(number)) => moves::free(rt, pool, world, number),
        (_, Some(number)) => moves::move_loan(rt, pool, world, number, t),
        _ => false,
    }
}

fn call_of_page(rt: &impl Abort, pool: &mut Pool, world: &mut World, kind: usize) -> bool {
    let Some((name, leaf)) = world.some_page() else {
        return false;
    };
    match kind {
        12 => page_moves::unpin(rt, pool, world, name, leaf),
        13 => page_moves::pin_again(rt, pool, world, name, leaf),
        14 => page_moves::unpin_once(rt, pool, world, name, leaf),
        15 => page_moves::extract(rt, pool, world, name, leaf),
        _ => page_moves::destroy(rt, pool, world, name, leaf),
    }
}

// Pages come and are unpinned more often than they are pinned again, extracted or destroyed.
fn some_kind(world: &mut World) -> usize {
    let kinds = [
        0, 1, 1, 2, 3, 4, 5, 6, 7, 7, 8, 8, 8, 8, 8, 8, 9, 10, 11, 11, 11, 12, 12, 12, 12, 12, 12,
        12, 12, 12, 12, 13, 13, 14, 15, 16,
    ];
    let at = world.place_in(kinds.len());
    kinds.get(at).copied().unwrap_or(0)
}

// So many calls that are done at once.
fn calls(rt: &impl Abort, alloc: Global, pool: &mut Pool, world: &mut World, count: u32) {
    for _ in 0..count {
        let kind = some_kind(world);
        let was_made = match kind {
            0..=7 => call_of_client(rt, pool, world, kind),
            8..=11 => call_of_loan(rt, alloc, pool, world, kind),
            _ => call_of_page(rt, pool, world, kind),
        };
        if was_made {
            world.tally(kind);
        }
        compare(rt, pool, world);
    }
}

fn start(rt: &impl Abort, pool: &mut Pool, world: &mut World) -> Started {
    match (world.below(6), world.some_client(), world.some_page()) {
        (0 | 1, _, _) => flights::start_write(rt, pool, world),
        (2, Some(t), _) => flights::make_room(rt, pool, world, t),
        (_, _, Some((name, leaf))) => flights::pin(rt, pool, world, name, leaf),
        _ => Started::Nothing,
    }
}

fn end(rt: &impl Abort, pool: &mut Pool, world: &mut World, started: Started) {
    flights::finish(rt, pool, world, started);
    compare(rt, pool, world);
}

// Two calls that may start a job, beside others, and then both jobs end.
fn round(rt: &impl Abort, alloc: Global, pool: &mut Pool, world: &mut World) {
    let first = start(rt, pool, world);
    let more = world.below(4);
    calls(rt, alloc, pool, world, more);
    let second = start(rt, pool, world);
    calls(rt, alloc, pool, world, 2);
    end(rt, pool, world, first);
    end(rt, pool, world, second);
}

fn rounds(rt: &impl Abort, alloc: Global, pool: &mut Pool, world: &mut World, count: u32) {
    for _ in 0..count {
        round(rt, alloc, pool, world);
    }
}

// No kind of call and no answer is left out.
fn assert_each_came(rt: &impl Abort, world: &World) {
    for (kind, times) in world.tallies.into_iter().enumerate() {
        assert!(rt; times >= 3, "{kind} {times}");
    }
}

fn open_sessions(rt: &impl Abort, pool: &mut Pool) {
    for s in 0..3u32 {
        assert_eq!(rt; steps::session(rt, pool, 16), s);
    }
}

#[test]
fn mixed_calls_do_what_a_plain_pool_does(rt: HostRuntime) {
    let slots = steps::slots(&rt, rt.alloc(), 48, &FAILS);
    let mut pool = steps::open(&rt, rt.alloc(), 12, 0, slots);
    let mut world = World::open(
        rt.alloc(),
        24,
        12,
        16,
        page_steps::none_gone(&rt, rt.alloc()),
    );
    open_sessions(&rt, &mut pool);
    rounds(&rt, rt.alloc(), &mut pool, &mut world, 1700);
    assert_each_came(&rt, &world);
    steps::set_aside(pool);
    world::set_aside(world);
}

//! Calls that may start a write or a load, each made of the pool and of the plain pool, and how jobs end.

use super::moves::{client, page};
use super::page_steps;
use super::steps::Pool;
use super::sums::bytes_of;
use super::world::{Leaf, World};
use block_arena::Buf;
use outside::MemSlot;
use page_table::Place;
use pin_core::{PinTurn, ReadJob, RoomTurn, Want, WriteJob, Wrote};
use reservation_tree::PoolErr;
use std::process::Abort;

// Answers that are tallied, behind the seventeen kinds of calls that are done at once.
const REFUSED: usize = 17;

const WAITS: usize = 18;

const HERE: usize = 19;

const NONE_DIRTY: usize = 20;

const WRITTEN: usize = 21;

const UNWRITTEN: usize = 22;

const READ: usize = 23;

const UNREAD: usize = 24;

const READY: usize = 25;

/// What a call started.
pub enum Started {
    Nothing,
    Write(WriteJob<MemSlot>),
    Read(ReadJob<MemSlot>),
}

/// What a call that wants room is to do next, as the plain pool has it.
#[derive(Clone, Copy, Debug, PartialEq, Eq)]
enum Answer {
    Ready,
    Refused(u64),
    Write(u64),
    Wait,
}

// The first of the answers that applies to a client that wants so many bytes.
fn answer_to(world: &World, t: u32, bytes: u64) -> Answer {
    if world.has_room(t, bytes) {
        return Answer::Ready;
    }
    if let Some(entry) = world.failures.get(&t) {
        return Answer::Refused(*entry);
    }
    match world.newest_dirty(t) {
        Some(name) => Answer::Write(name),
        None => Answer::Wait,
    }
}

fn flies(world: &mut World, job: WriteJob<MemSlot>) -> Started {
    let name = job.id.name;
    world.unqueue(name);
    world.put(name, Place::Flying(job.who));
    world.count(1);
    Started::Write(job)
}

pub fn start_write(rt: &impl Abort, pool: &mut Pool, world: &mut World) -> Started {
    let who = 1000u32.saturating_add(world.below(8));
    match page_steps::start_write(rt, pool, who) {
        None => {
            assert!(rt; world.dirty.is_empty());
            world.tally(NONE_DIRTY);
            Started::Nothing
        }
        Some(job) => {
            assert_eq!(rt; world.newest_dirty(job.client), Some(job.id.name));
            flies(world, job)
        }
    }
}

pub fn make_room(rt: &impl Abort, pool: &mut Pool, world: &mut World, t: u32) -> Started {
    let bytes = bytes_of(world.below(6));
    if bytes > world.unused(t) {
        return Started::Nothing;
    }
    let wanted = answer_to(world, t, bytes);
    let want = match bytes % 128 {
        0 => Want::Hold(bytes),
        _ => Want::Shrink(bytes),
    };
    let c = client(world, t);
    let turn = page_steps::room_turn(rt, pool, 0, &c, want);
    c.into_tracker();
    match turn {
        RoomTurn::Ready => agree(rt, world, wanted, Answer::Ready, READY),
        RoomTurn::Refused { entry } => {
            agree(rt, world, wanted, Answer::Refused(entry), REFUSED);
        }
        RoomTurn::Wait => agree(rt, world, wanted, Answer::Wait, WAITS),
        RoomTurn::Write(job) => return writes(rt, world, wanted, job),
    }
    Started::Nothing
}

// The pool answers as the plain pool does.
fn agree(rt: &impl Abort, world: &mut World, wanted: Answer, found: Answer, kind: usize) {
    assert_eq!(rt; found, wanted);
    world.tally(kind);
}

// A write starts, of the page that the plain pool writes.
fn writes(rt: &impl Abort, world: &mut World, wanted: Answer, job: WriteJob<MemSlot>) -> Started {
    assert_eq!(rt; Answer::Write(job.id.name), wanted);
    flies(world, job)
}

// What a pin of a page that is neither pinned nor loading is to do next.
fn answer_to_pin(world: &World, leaf: &Leaf) -> Answer {
    match leaf.place {
        Place::Flying(_) => Answer::Wait,
        Place::Dirty => Answer::Ready,
        _ => answer_to(world, leaf.client, bytes_of(leaf.blocks)),
    }
}

pub fn pin(rt: &impl Abort, pool: &mut Pool, world: &mut World, name: u64, leaf: Leaf) -> Started {
    let is_away = !matches!(leaf.place, Place::Pinned(_) | Place::Loading);
    if !is_away || bytes_of(leaf.blocks) > world.unused(leaf.client) {
        return Started::Nothing;
    }
    let wanted = answer_to_pin(world, &leaf);
    let p = page(name, &leaf);
    let turn = page_steps::pin_turn(rt, pool, leaf.session, &p, &mut world.gone);
    p.into_name();
    match turn {
        PinTurn::Refused { entry } => {
            agree(rt, world, wanted, Answer::Refused(entry), REFUSED);
        }
        PinTurn::Wait => agree(rt, world, wanted, Answer::Wait, WAITS),
        PinTurn::Here(buf) => {
            assert!(rt; leaf.place != Place::Evicted);
            agree(rt, world, wanted, Answer::Ready, HERE);
            world.unqueue(name);
            world.count(1);
            shows(rt, world, name, &leaf, buf);
        }
        PinTurn::Write(job) => return writes(rt, world, wanted, job),
        PinTurn::Load(job) => {
            assert!(rt; leaf.place == Place::Evicted);
            agree(rt, world, wanted, Answer::Ready, READY);
            world.evict(leaf.blocks).expect(rt, "memory");
            assert!(rt; world.is_told());
            world.put(name, Place::Loading);
            world.count(1);
            return Started::Read(job);
        }
    }
    Started::Nothing
}

// The page is pinned, and its buffer has the byte with which it was left.
fn shows(rt: &impl Abort, world: &mut World, name: u64, leaf: &Leaf, buf: Buf) {
    assert_eq!(rt; page_steps::front(rt, &buf), leaf.byte);
    world.put(name, Place::Pinned(1));
    world.hold(name, buf).expect(rt, "memory");
}

/// Ends what a call started.
pub fn finish(rt: &impl Abort, pool: &mut Pool, world: &mut World, started: Started) {
    match started {
        Started::Nothing => {}
        Started::Write(job) => finish_write(rt, pool, world, job),
        Started::Read(job) => finish_read(rt, pool, world, job),
    }
}

fn finish_write(rt: &impl Abort, pool: &mut Pool, world: &mut World, job: WriteJob<MemSlot>) {
    let name = job.id.name;
    let client = job.client;
    let wrote = page_steps::write(rt, pool, job);
    world.count(1);
    if wrote == Wrote::Done(name) {
        world.tally(WRITTEN);
        world.put(name, Place::Clean);
        world.clean.push(name).expect(rt, "memory");
    } else {
        assert_eq!(rt; wrote, Wrote::Failed(name));
        world.tally(UNWRITTEN);
        world.put(name, Place::Dirty);
        world.dirty.push(name).expect(rt, "memory");
        world.note(client).expect(rt, "memory");
    }
}

fn finish_read(rt: &impl Abort, pool: &mut Pool, world: &mut World, job: ReadJob<MemSlot>) {
    let name = job.id.name;
    let Some(leaf) = world.pages.get(&name).copied() else {
        panic!(rt; "the page is live");
    };
    let entry = world.entries;
    world.count(1);
    match page_steps::read(rt, pool, 0, job) {
        Ok(buf) => {
            world.tally(READ);
            shows(rt, world, name, &leaf, buf);
        }
        Err(refusal) => {
            assert_eq!(rt; refusal, PoolErr::ReadFault { entry });
            world.tally(UNREAD);
            world.put(name, Place::Evicted);
            world.note(leaf.client).expect(rt, "memory");
        }
    }
}

//! Worked rows of sessions that come and go, and of a writer beside them.
ghost use Rattle.std.specs.Prelude.{◌≤◌, vec_len};
ghost use Rattle.pin_core.specs.calls.Setup.{OpensWith};

mod accounts;
mod asks;
mod held;
mod owners;
mod recording;
mod seats;
mod writers;

use asks::Asked;
use held::{BESIDE, HeldSlot, SLOT};
use outside::{MeetGate, MemSlot, Point};
use pin_core::PoolConf;
use pool::Ask;
use reservation_tree::{PoolErr, TrackerId};
use seats::{Row, Scene, played};
use std::alloc::Global;
use std::process::Abort;
use std::sync::Wait;
use std::test::Fail;
use std::thread::Threads;
use writers::Writing;

// Plays a scene over eight blocks of 64 bytes and eight slots in memory, each of which fails at these of its calls.
fn play<R: Threads + Wait + Abort + Sync>(rt: &R, alloc: Global, fails: &[u64], scene: &Scene) {
    let slots = eight_slots(rt, alloc, fails);
    played(rt, alloc, &eight_blocks(0), slots, scene);
}

// Eight blocks of 64 bytes, and room for so many entries.
#[tactic(auto, unfolding(pool_model::specs::Bytes::bytes_of))]
pub fn eight_blocks(trace: u32) -> PoolConf
    ensures { OpensWith result }
{
    PoolConf {
        blocks: 8,
        block_len: 64,
        first_name: 1,
        profile: 1,
        trace,
    }
}

pub fn eight_slots<R: Abort>(rt: &R, alloc: Global, fails: &[u64]) -> Vec<MemSlot>
    ensures { vec_len result ≤ 8 }
{
    let mut slots = Vec::new(alloc);
    for _ in 0..8 {
        let slot = MemSlot::new(alloc, fails).expect(rt, "a slot");
        slots.push(slot).expect(rt, "a slot");
    }
    assert!(rt; slots.len() <= 8);
    slots
}

#[test]
fn a_third_session_comes_once_one_has_ended(rt: HostRuntime) -> Result<(), Fail> {
    play(&rt, rt.alloc(), &[], &Scene::ThirdWaits);
    Ok(())
}

#[test]
fn each_of_240_numbers_has_a_session_before_one_is_turned_away(
    rt: HostRuntime,
) -> Result<(), Fail> {
    play(&rt, rt.alloc(), &[], &Scene::Numbers(240));
    Ok(())
}

#[test]
fn two_sessions_do_all_that_a_store_can_in_turn(rt: HostRuntime) -> Result<(), Fail> {
    play(&rt, rt.alloc(), &[], &Scene::Walk);
    Ok(())
}

#[test]
fn sessions_that_come_in_turn_get_what_is_left(rt: HostRuntime) -> Result<(), Fail> {
    let root = TrackerId::of(0);
    let none = TrackerId::of(u32::MAX);
    let rows = [
        (512, 8, 64, Ok(())),
        (63, 0, 64, refusal(none, 64, 63)),
        (4096, 0, 512, refusal(root, 512, 448)),
        (4096, 0, 448, Ok(())),
        (64, 0, 0, Ok(())),
        (64, 0, 1, refusal(root, 1, 0)),
    ];
    let rows = rows.map(|(limit, quota, least, answer)| Row {
        limit,
        quota,
        least,
        answer,
    });
    play(&rt, rt.alloc(), &[], &Scene::Rows(&rows));
    Ok(())
}

#[test]
fn asks_of_one_turn_get_all_of_their_sessions_or_none(rt: HostRuntime) -> Result<(), Fail> {
    let root = TrackerId::of(0);
    let none = TrackerId::of(u32::MAX);
    let turns = [
        [
            asked(256, 4, 256, 1, Ok(())),
            asked(192, 1, 192, 2, refusal(root, 192, 64)),
            asked(256, 2, 256, 1, Ok(())),
        ],
        [
            asked(512, 8, 512, 1, Ok(())),
            asked(64, 0, 64, 1, refusal(root, 64, 0)),
            asked(63, 0, 64, 1, refusal(none, 64, 63)),
        ],
    ];
    play(&rt, rt.alloc(), &[], &Scene::Asks(&turns));
    Ok(())
}

#[test]
fn a_writer_stores_the_pages_of_two_sessions(rt: HostRuntime) -> Result<(), Fail> {
    play(&rt, rt.alloc(), &[], &Scene::Writes(Writing::Two));
    Ok(())
}

#[test]
fn a_page_whose_store_failed_is_stored_later(rt: HostRuntime) -> Result<(), Fail> {
    play(&rt, rt.alloc(), &[0], &Scene::Writes(Writing::Failing));
    Ok(())
}

#[test]
fn a_session_has_turns_while_a_page_is_stored(rt: HostRuntime) -> Result<(), Fail> {
    play(&rt, rt.alloc(), &[], &Scene::Writes(Writing::HeldStore));
    Ok(())
}

#[test]
fn a_session_is_held_at_its_gate(rt: HostRuntime) -> Result<(), Fail> {
    play(&rt, rt.alloc(), &[], &Scene::Writes(Writing::HeldLoad));
    Ok(())
}

#[test]
fn all_slots_come_back_of_a_pool_whose_first_stores_failed(rt: HostRuntime) -> Result<(), Fail> {
    play(&rt, rt.alloc(), &[0], &Scene::Writes(Writing::BothFailing));
    Ok(())
}

#[test]
fn a_session_waits_for_a_page_that_a_writer_stores(rt: HostRuntime) -> Result<(), Fail> {
    play(&rt, rt.alloc(), &[], &Scene::Writes(Writing::Wanted));
    Ok(())
}

// Plays over slots that are held at the first of these points, until another session had turns.
fn play_held<R: Threads + Wait + Abort + Sync>(rt: &R, alloc: Global, point: Point) {
    let Ok(gate) = MeetGate::new((SLOT, point), (BESIDE, Point::QueryRead), 10_000_000) else {
        panic!(rt; "a gate takes no memory");
    };
    let slots = eight_held(rt, alloc, &gate);
    played(rt, alloc, &eight_blocks(0), slots, &Scene::Held(&gate));
}

fn eight_held<'a, R: Abort>(rt: &R, alloc: Global, gate: &'a MeetGate) -> Vec<HeldSlot<'a>>
    ensures { vec_len result ≤ 8 }
{
    let mut slots = Vec::new(alloc);
    for _ in 0..8 {
        let slot = MemSlot::new(alloc, &[]).expect(rt, "a slot");
        slots.push(HeldSlot { slot, gate }).expect(rt, "a slot");
    }
    assert!(rt; slots.len() <= 8);
    slots
}

#[test]
fn another_session_has_turns_while_a_session_stores(rt: HostRuntime) -> Result<(), Fail> {
    play_held(&rt, rt.alloc(), Point::BeforeStore);
    Ok(())
}

#[test]
fn another_session_has_turns_while_a_session_loads(rt: HostRuntime) -> Result<(), Fail> {
    play_held(&rt, rt.alloc(), Point::BeforeLoad);
    Ok(())
}

fn asked(limit: u64, quota: u32, least: u64, count: u32, answer: Result<(), PoolErr>) -> Asked {
    let ask = Ask {
        limit,
        quota,
        least,
        count,
    };
    Asked { ask, answer }
}

fn refusal(tracker: TrackerId, wanted: u64, room: u64) -> Result<(), PoolErr> {
    Err(PoolErr::NoReservation {
        tracker,
        wanted,
        room,
    })
}

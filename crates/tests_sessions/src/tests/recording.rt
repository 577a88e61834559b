// What a pool records of the sessions and the writer that use it, as the text of a trace.
ghost use Rattle.std.specs.Prelude.{◌≤◌, vec_len};
ghost use Rattle.pin_core.specs.calls.Setup.{OpensWith};
ghost use Rattle.pool.specs.Opening.{OpensAs};

use crate::tests::seats::{Scene, play_scene};
use crate::tests::writers::Writing;
use crate::tests::{eight_blocks, eight_slots};
use outside::Slot;
use pin_core::PoolConf;
use pool::{Opened, Pool, Trace};
use reservation_tree::Memory;
use std::alloc::Global;
use std::marker::Brand;
use std::process::Abort;
use std::sync::Wait;
use std::test::Fail;
use std::thread::Threads;
use trace_check::{Checked, check_trace, entry_line, last_line, opening_line};

// Two sessions share eight blocks and eight slots. Each has a client with a page of a block; a writer stores both pages;
// they are looked at, and all end. A session's end gives its reservation back.
const TWO_AND_A_WRITER: [&str; 35] = [
    "pool 8 64 1",
    "s0 AddTracker 1 0 256 4",
    "s0 Increase 1 256",
    "s1 AddTracker 2 0 256 4",
    "s1 Increase 2 256",
    "s0 AddTracker 3 1 64",
    "s0 Increase 3 64",
    "s0 Ask",
    "s0 Create 1 3 1",
    "s0 Unpin 1",
    "s1 AddTracker 4 2 64",
    "s1 Increase 4 64",
    "s1 Ask",
    "s1 Create 2 4 1",
    "s1 Unpin 2",
    "w1000 StartWrite 1",
    "w1000 WriteOk 1",
    "w1000 StartWrite 2",
    "w1000 WriteOk 2",
    "s0 Ask",
    "s0 PinHere 1",
    "s0 Unpin 1",
    "s1 Ask",
    "s1 PinHere 2",
    "s1 Unpin 2",
    "s0 Destroy 1",
    "s0 MoveReservation 3 1 64",
    "s0 CloseTracker 3",
    "s0 Decrease 1 256",
    "s0 CloseTracker 1",
    "s1 Destroy 2",
    "s1 MoveReservation 4 2 64",
    "s1 CloseTracker 4",
    "s1 Decrease 2 256",
    "s1 CloseTracker 2",
];

// A client's page is stored by a writer, evicted for a loan of all blocks, and loaded.
const EVICTED_AND_LOADED: [&str; 26] = [
    "pool 8 64 1",
    "s0 AddTracker 1 0 512 8",
    "s0 Increase 1 512",
    "s0 AddTracker 2 1 512",
    "s0 Increase 2 512",
    "s0 Ask",
    "s0 Create 1 2 1",
    "s0 Unpin 1",
    "w1000 StartWrite 1",
    "w1000 WriteOk 1",
    "s0 Ask",
    "s0 Evict 1",
    "s0 Alloc 0 2 8",
    "s0 Free 0",
    "s0 Ask",
    "s0 PinLoad 1",
    "s0 ReadOk 1",
    "s0 Unpin 1",
    "s0 Ask",
    "s0 PinHere 1",
    "s0 Unpin 1",
    "s0 Destroy 1",
    "s0 MoveReservation 2 1 512",
    "s0 CloseTracker 2",
    "s0 Decrease 1 512",
    "s0 CloseTracker 1",
];

// A pool opens that keeps as many entries as its numbers say, and the scene is played. The text of what it kept is that of
// a legal trace.
fn recorded<D: Slot + Drop + Send, R: Threads + Wait + Abort + Sync>(
    rt: &R,
    alloc: Global,
    conf: &PoolConf,
    slots: Vec<D>,
    scene: &Scene,
) -> Vec<u8>
    requires conf { OpensWith conf.now }
    requires slots { vec_len slots ≤ 1048576 }
{
    let trace = recorded_as::<Brand, D, R>(rt, alloc, conf, slots, scene);
    let Ok(text) = text_of(alloc, &trace) else {
        panic!(rt; "no memory for a text");
    };
    let checked = Checked {
        entries: trace.entries.len() as u64,
        whole: !trace.more,
    };
    assert_eq!(rt; check_trace(alloc, text.as_slice()), Ok(checked));
    text
}

// The same, where `T` names with what the pool opens.
fn recorded_as<T: Opened + Send, D: Slot + Drop + Send, R: Threads + Wait + Abort + Sync>(
    rt: &R,
    alloc: Global,
    conf: &PoolConf,
    slots: Vec<D>,
    scene: &Scene,
) -> Trace
    requires conf { OpensWith conf.now }
    requires slots { vec_len slots ≤ 1048576 }
    requires opens { OpensAs D.Slot conf.now slots.items T.opening T.outset.told T.first }
{
    let count = slots.len();
    let Ok((pool, mut pass)) = Pool::<D, T>::open(alloc, conf, slots) else {
        panic!(rt; "no memory for a pool");
    };
    play_scene::<Brand, T, D, R>(rt, alloc, &pool, &mut pass, scene);
    let (slots, trace) = pool.close_traced(pass);
    assert_eq!(rt; slots.len(), count);
    trace
}

// The lines of a trace.
fn text_of(alloc: Global, trace: &Trace) -> Result<Vec<u8>, Memory> {
    let opened = trace_check::Opened {
        blocks: trace.blocks,
        block_len: trace.block_len,
        first_name: trace.first_name,
    };
    let mut text = opening_line(alloc, &opened)?;
    for entry in trace.entries.as_slice() {
        text.extend_from_slice(entry_line(alloc, entry)?.as_slice())?;
    }
    text.extend_from_slice(last_line(!trace.more))?;
    Ok(text)
}

// The text that a pool with room for so many entries gives has the first so many of these lines, and this last one.
fn is_told<R: Threads + Wait + Abort + Sync>(
    rt: &R,
    alloc: Global,
    room: u32,
    writing: Writing,
    lines: &[&str],
    last: &str,
) -> Result<(), Fail> {
    let slots = eight_slots(rt, alloc, &[]);
    let scene = Scene::Writes(writing);
    let text = recorded(rt, alloc, &eight_blocks(room), slots, &scene);
    let mut wanted = Vec::new(alloc);
    for line in lines.iter().take(room as usize + 1).chain(&[last]) {
        wanted.extend_from_slice(line.as_bytes())?;
        wanted.extend_from_slice(b"\n")?;
    }
    assert_eq!(rt; text.as_slice(), wanted.as_slice());
    Ok(())
}

#[test]
fn a_pool_tells_what_its_sessions_and_its_writer_did(rt: HostRuntime) -> Result<(), Fail> {
    let rows = [
        (1000, "end"),
        (34, "end"),
        (33, "cut"),
        (5, "cut"),
        (0, "cut"),
    ];
    for (room, last) in rows {
        is_told(&rt, rt.alloc(), room, Writing::Two, &TWO_AND_A_WRITER, last)?;
    }
    Ok(())
}

#[test]
fn a_pool_tells_which_page_was_evicted(rt: HostRuntime) -> Result<(), Fail> {
    is_told(
        &rt,
        rt.alloc(),
        100,
        Writing::HeldLoad,
        &EVICTED_AND_LOADED,
        "end",
    )
}

#[test]
fn a_pool_tells_of_a_failed_write(rt: HostRuntime) -> Result<(), Fail> {
    let slots = eight_slots(&rt, rt.alloc(), &[0]);
    let scene = Scene::Writes(Writing::Failing);
    let text = recorded(&rt, rt.alloc(), &eight_blocks(100), slots, &scene);
    let failed = b"w1000 StartWrite 1\nw1000 WriteFailed 1\n".as_slice();
    assert!(rt;
        text.as_slice()
            .windows(failed.len())
            .any(|part| part == failed)
    );
    Ok(())
}

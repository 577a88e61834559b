//! One query over three stores, on threads: it writes what it writes over one.

ghost use Rattle.std.specs.Prelude.{◌≡◌, IfOk};
ghost use Rattle.query_run.specs.Plans.{IsGrouping};
ghost use Rattle.store_api.specs.MemStore.{IsOpened, held_in};

use super::{Asked, outcome, plan};
use outside::{Gate, MeetGate, MemSink, MemSource, OpenGate, Point};
use query_plan::{Query, Ran, Side};
use query_run::{QueryErr, group_parallel};
use std::alloc::{AllocError, Global};
use std::sync::Wait;
use std::test::Fail;
use std::thread::Threads;
use store_api::MemStore;

// For how many turns a fragment waits for another.
const TURNS: u64 = 10_000_000;

fn open(alloc: Global) -> Result<MemStore, QueryErr>
    ensures { IfOk result (λ store. IsOpened 256 16384 5120 (held_in store)) }
{
    Ok(MemStore::open(alloc, 256, 16384, 5120)?)
}

// The plan runs over three new stores.
fn run_over_three<R: Threads + Wait + Sync, G: Gate>(
    rt: &R,
    alloc: Global,
    gate: &G,
    plan: &Query,
    left: &mut MemSource,
    sink: &mut MemSink,
) -> Result<Ran, QueryErr>
    requires plan { IsGrouping plan.now }
    requires page { plan.now.page_blocks ≡ 1 }
{
    let first = open(alloc)?;
    let second = match open(alloc) {
        Ok(store) => store,
        Err(e) => {
            first.close();
            return Err(e);
        }
    };
    let third = match open(alloc) {
        Ok(store) => store,
        Err(e) => {
            first.close();
            second.close();
            return Err(e);
        }
    };
    let mut stores = [first, second, third];
    let ran = group_parallel(rt, alloc, gate, &mut stores, plan, left, sink);
    let [first, second, third] = stores;
    first.close();
    second.close();
    third.close();
    ran
}

// A header, and so many records: the ints from 0 on, each ten times the text of a key.
fn records(alloc: Global, count: u32) -> Result<Vec<u8>, AllocError> {
    let mut text = Vec::from_slice(alloc, b"k,v\n")?;
    for number in 0..count {
        let key = b'a' + (number % 10) as u8;
        text.push(key)?;
        text.push(b',')?;
        text.push(b'0' + (number / 10 % 10) as u8)?;
        text.push(b'\n')?;
    }
    Ok(text)
}

// What became of the query over these bytes on threads, and what it wrote.
fn outcome_of_three<R: Threads + Wait + Sync, G: Gate>(
    rt: &R,
    alloc: Global,
    gate: &G,
    bytes: &[u8],
) -> Result<(Result<Ran, QueryErr>, Vec<u8>), Fail> {
    let plan = plan(alloc, Asked::CountAndSum)?;
    let mut left = MemSource::over(alloc, bytes, 64, &[])?;
    let mut sink = MemSink::new(alloc, usize::MAX, &[])?;
    let ran = run_over_three(rt, alloc, gate, &plan, &mut left, &mut sink);
    Ok((ran, Vec::from_slice(alloc, sink.bytes())?))
}

// Two hundred records are four batches. The first fragment takes one, and waits until the second one has another.
#[test]
fn a_fragment_feeds_beside_another(rt: HostRuntime) -> Result<(), Fail> {
    let alloc = rt.alloc();
    let bytes = records(alloc, 200)?;
    let held = (2000, Point::FragmentTook);
    let until = (2001, Point::FragmentTook);
    let gate = MeetGate::new(held, until, TURNS)?;
    let (ran, written) = outcome_of_three(&rt, alloc, &gate, bytes.as_slice())?;
    let (alone, text) = outcome(alloc, bytes.as_slice(), Asked::CountAndSum)?;
    let (ran, alone) = (ran?, alone?);
    assert_eq!(rt; written.as_slice(), text.as_slice());
    assert_eq!(rt; [ran.left, ran.kept, ran.lines], [200, 200, 10]);
    assert_eq!(rt; ran.totals.as_slice(), alone.totals.as_slice());
    assert_eq!(rt; (gate.came(), gate.missed()), (true, false));
    Ok(())
}

// The first refusal in the order of reading is told, also where its batch is never fed.
#[test]
fn the_first_refusal_of_the_reading_is_told(rt: HostRuntime) -> Result<(), Fail> {
    let alloc = rt.alloc();
    let mut bytes = records(alloc, 200)?;
    bytes.extend_from_slice(b"a,one\na\n")?;
    let (ran, written) = outcome_of_three(&rt, alloc, &OpenGate, bytes.as_slice())?;
    let refusal = QueryErr::BadField {
        side: Side::Left,
        number: 201,
        column: 1,
    };
    assert_eq!(rt; ran.err(), Some(refusal));
    assert!(rt; written.is_empty());
    Ok(())
}

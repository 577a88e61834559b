//! Partitions over a store in memory, against worked steps. A page has 64 bytes, and a row 20.
ghost use Rattle.std.specs.Prelude.{◌≡◌, ℕ, ◌≤◌, ◌<◌, true, length, IfOk};
ghost use Rattle.store_api.specs.Conditions.{IsIdle, IsLiveClient};
ghost use Rattle.store_api.specs.Holdings.{Holdings, account_of, length_of};
ghost use Rattle.store_api.specs.Signs.{Signs};
ghost use Rattle.tuple_stream.specs.PageRows.{IsOneRow};
ghost use Rattle.tuple_stream.specs.Families.{AreShaped};
ghost use Rattle.partition_stack.specs.Stack.{HasRoomFrom, over};
ghost use Rattle.partition_stack.specs.Changes.{Owns};

use partition_stack::Partitions;
use reservation_tree::PoolErr;
use std::alloc::Global;
use std::test::Fail;
use store_api::{Client, MemStore, Store};

#[derive(Clone, Copy)]
enum Step {
    // A row filled with this byte goes to a partition.
    Append(usize, u8),
    // All pages rest.
    Rest,
    // The top partition is divided.
    Divide,
    // The first row of a partition comes out, and shows its bytes.
    Spend(usize),
    // The top partition goes, where it has no pages: 1, or 0 where it has some.
    Pop,
    // How many partitions there are; and of one its level, its rows and its pages.
    Look(usize),
}

// A row has its count and sixteen bytes behind it.
fn row_of(alloc: Global, fill: u8) -> Result<Vec<u8>, PoolErr>
    ensures one { IfOk result (λ row. IsOneRow row.items) }
    ensures long { IfOk result (λ row. length row.items ≡ 20) }
{
    let Ok(mut row) = Vec::from_slice(alloc, &[0, 0, 0, 16]) else {
        return Err(PoolErr::Memory);
    };
    if row.resize(20, fill).is_err() {
        return Err(PoolErr::Memory);
    }
    Ok(row)
}

fn shown(alloc: Global, bytes: &[u8]) -> Result<Vec<u8>, PoolErr> {
    let Ok(shown) = Vec::from_slice(alloc, bytes) else {
        return Err(PoolErr::Memory);
    };
    Ok(shown)
}

// Whether a partition is there, and there is room for a page of each, of one block.
fn has_room<St: Store>(parts: &Partitions, store: &St, c: &Client, at: usize) -> bool
    requires { IsLiveClient c.now (St.holds store.now) }
    ensures inside { result ≡ true → at < length parts.now.streams }
    ensures room { result ≡ true → HasRoomFrom c.now.tracker 0 parts.now (St.holds store.now) (St.signs store.now) }
    ensures short { result ≡ true → 20 ≤ length_of parts.now.page_blocks (St.holds store.now) }
{
    let len = u64::from(store.block_len());
    let Some(room) = (parts.len() as u64).checked_mul(len) else {
        return false;
    };
    if parts.len() <= at || parts.page_blocks() != 1 || store.unused(c) < room {
        return false;
    }
    true
}

fn append<St: Store>(
    parts: &mut Partitions,
    store: &mut St,
    alloc: Global,
    c: &Client,
    at: usize,
    fill: u8,
) -> Result<(), PoolErr>
    requires { Owns c.now.tracker 0 (over parts.old (St.holds store.old) (St.signs store.old)) }
    ensures owns { Owns c.now.tracker 0 (over parts.new (St.holds store.new) (St.signs store.new)) }
    ensures loans { (St.holds store.new).loans ≡ (St.holds store.old).loans }
    ensures clients { (St.holds store.new).live_clients ≡ (St.holds store.old).live_clients }
{
    let row = row_of(alloc, fill)?;
    if !has_room(parts, store, c, at) {
        return Err(PoolErr::Memory);
    }
    parts.append(alloc, store, c, at, &row)
}

// The first row of a partition, or no bytes where it has none.
fn spend<St: Store>(
    parts: &mut Partitions,
    store: &mut St,
    alloc: Global,
    c: &Client,
    at: usize,
) -> Result<Vec<u8>, PoolErr>
    requires { Owns c.now.tracker 0 (over parts.old (St.holds store.old) (St.signs store.old)) }
    ensures owns { Owns c.now.tracker 0 (over parts.new (St.holds store.new) (St.signs store.new)) }
    ensures loans { (St.holds store.new).loans ≡ (St.holds store.old).loans }
    ensures clients { (St.holds store.new).live_clients ≡ (St.holds store.old).live_clients }
{
    let mut row = Vec::new(alloc);
    if !has_room(parts, store, c, at) {
        return Err(PoolErr::Memory);
    }
    if parts.spend(store, c, at, &mut row)? {
        Ok(row)
    } else {
        Ok(Vec::new(alloc))
    }
}

fn divide_top(parts: &mut Partitions, alloc: Global) -> Result<(), PoolErr>
    ensures { (t : ℕ) (h : Holdings) (signs : Signs) → Owns t 0 (over parts.old h signs) → Owns t 0 (over parts.new h signs) }
{
    parts.law_stack();
    let len = parts.len();
    if len == 0 {
        return Err(PoolErr::Memory);
    }
    let level = parts.level(len - 1);
    if level >= 16 {
        return Err(PoolErr::Memory);
    }
    parts.divide(alloc, len - 1, level)?;
    Ok(())
}

// Whether the top partition had no pages, and went.
fn pop_empty(parts: &mut Partitions) -> bool
    requires { (t : ℕ) × (h : Holdings) × (signs : Signs) × AreShaped t (over parts.old h signs) }
    ensures { (t : ℕ) (h : Holdings) (signs : Signs) → Owns t 0 (over parts.old h signs) → Owns t 0 (over parts.new h signs) }
{
    let len = parts.len();
    if len == 0 {
        return false;
    }
    if parts.pages(len - 1) != 0 {
        return false;
    }
    let top = parts.pop();
    top.end();
    true
}

fn look(parts: &Partitions, alloc: Global, at: usize) -> Result<Vec<u8>, PoolErr> {
    let len = parts.len();
    if len <= at {
        return Err(PoolErr::Memory);
    }
    let level = (parts.level(at) % 256) as u8;
    let rows = (parts.rows(at) % 256) as u8;
    let pages = (parts.pages(at) % 256) as u8;
    shown(alloc, &[(len % 256) as u8, level, rows, pages])
}

// What one step shows.
fn take_step<St: Store>(
    parts: &mut Partitions,
    store: &mut St,
    alloc: Global,
    c: &Client,
    step: Step,
) -> Result<Vec<u8>, PoolErr>
    requires { Owns c.now.tracker 0 (over parts.old (St.holds store.old) (St.signs store.old)) }
    ensures owns { Owns c.now.tracker 0 (over parts.new (St.holds store.new) (St.signs store.new)) }
    ensures loans { (St.holds store.new).loans ≡ (St.holds store.old).loans }
    ensures clients { (St.holds store.new).live_clients ≡ (St.holds store.old).live_clients }
{
    match step {
        Step::Append(at, fill) => {
            append(parts, store, alloc, c, at, fill)?;
            Ok(Vec::new(alloc))
        }
        Step::Rest => {
            parts.rest_from(store, c, 0)?;
            Ok(Vec::new(alloc))
        }
        Step::Divide => {
            divide_top(parts, alloc)?;
            Ok(Vec::new(alloc))
        }
        Step::Spend(at) => spend(parts, store, alloc, c, at),
        Step::Pop => {
            let went = pop_empty(parts);
            shown(alloc, &[u8::from(went)])
        }
        Step::Look(at) => look(parts, alloc, at),
    }
}

// What the steps show, one after the other.
fn walked<St: Store>(
    parts: &mut Partitions,
    store: &mut St,
    alloc: Global,
    c: &Client,
    steps: &[(Step, &[u8])],
) -> Result<Vec<Vec<u8>>, PoolErr>
    requires { Owns c.now.tracker 0 (over parts.old (St.holds store.old) (St.signs store.old)) }
    ensures owns { Owns c.now.tracker 0 (over parts.new (St.holds store.new) (St.signs store.new)) }
    ensures loans { (St.holds store.new).loans ≡ (St.holds store.old).loans }
    ensures clients { (St.holds store.new).live_clients ≡ (St.holds store.old).live_clients }
{
    let mut seen = Vec::new(alloc);
    for s in steps {
        let shown = take_step(parts, store, alloc, c, s.0)?;
        if seen.push(shown).is_err() {
            return Err(PoolErr::Memory);
        }
    }
    Ok(seen)
}

// What the steps show on new partitions, which end.
fn walked_by<St: Store>(
    store: &mut St,
    alloc: Global,
    c: &Client,
    steps: &[(Step, &[u8])],
) -> Result<Vec<Vec<u8>>, PoolErr>
    requires client { IsLiveClient c.now (St.holds store.old) }
    requires idle { IsIdle c.now.tracker (St.holds store.old) }
    requires unused { (account_of c.now.tracker (St.holds store.old)).unused ≡ (account_of c.now.tracker (St.holds store.old)).reservation }
    ensures client { IsLiveClient c.now (St.holds store.new) }
    ensures idle { IsIdle c.now.tracker (St.holds store.new) }
    ensures clients { (St.holds store.new).live_clients ≡ (St.holds store.old).live_clients }
{
    let block_len = store.block_len();
    store.reserve(c, 40 * u64::from(block_len))?;
    let mut parts = Partitions::new(alloc, 1)?;
    let seen = walked(&mut parts, store, alloc, c, steps);
    parts.end(store, c);
    seen
}

// The same on a client of its own.
fn run<St: Store>(
    store: &mut St,
    alloc: Global,
    steps: &[(Step, &[u8])],
) -> Result<Vec<Vec<u8>>, PoolErr>
    ensures { (St.holds store.new).live_clients ≡ (St.holds store.old).live_clients }
{
    let c = store.add_client(u64::MAX)?;
    let answer = walked_by(store, alloc, &c, steps);
    store.end_client(c);
    answer
}

// Rows go to two partitions, and the top one is divided.
const DIVIDED: [(Step, &[u8]); 17] = [
    (Step::Append(15, 1), &[]),
    (Step::Append(0, 2), &[]),
    (Step::Append(15, 3), &[]),
    (Step::Look(15), &[16, 1, 2, 1]),
    (Step::Rest, &[]),
    (Step::Pop, &[0]),
    (Step::Divide, &[]),
    (Step::Look(15), &[32, 2, 2, 1]),
    (Step::Append(31, 4), &[]),
    (
        Step::Spend(15),
        &[0, 0, 0, 16, 1, 1, 1, 1, 1, 1, 1, 1, 1, 1, 1, 1, 1, 1, 1, 1],
    ),
    (Step::Look(15), &[32, 2, 1, 1]),
    (
        Step::Spend(31),
        &[0, 0, 0, 16, 4, 4, 4, 4, 4, 4, 4, 4, 4, 4, 4, 4, 4, 4, 4, 4],
    ),
    (Step::Spend(31), &[]),
    (Step::Look(31), &[32, 2, 0, 0]),
    (Step::Pop, &[1]),
    (Step::Look(30), &[31, 2, 0, 0]),
    (Step::Look(0), &[31, 1, 1, 1]),
];

#[test]
fn rows_come_out_of_divided_partitions(rt: HostRuntime) -> Result<(), Fail> {
    let mut store = MemStore::open(rt.alloc(), 64, 2560, 2560)?;
    let answer = run(&mut store, rt.alloc(), &DIVIDED);
    store.close();
    let seen = answer?;
    for (i, step) in DIVIDED.iter().enumerate() {
        assert_eq!(rt;
            seen.get(i).map(|shown| shown.as_slice()),
            Some(step.1),
            "step {i}"
        );
    }
    Ok(())
}

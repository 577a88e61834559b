//! Tables over a store in memory, against worked rows. A block has 64 bytes.
ghost use Rattle.std.specs.Prelude.{◌≡◌, ◌≤◌, ◌*◌, length, IfOk};
ghost use Rattle.store_api.specs.Alike.{Alike, AlikeButClients};
ghost use Rattle.store_api.specs.Conditions.{IsLiveClient};
ghost use Rattle.store_api.specs.Holdings.{unused_of};
ghost use Rattle.bucket_table.specs.Tables.{HasNode, IsFramed, with_nodes};

use bucket_table::{BucketTable, RowHash, spread};
use reservation_tree::{Memory, PoolErr};
use std::alloc::Global;
use std::process::Abort;
use std::test::Fail;
use store_api::{Client, MemStore, Store};

// What a step shows: the bytes that fill the rows it met, or one byte of its own.
type Shown = Vec<u8>;

#[derive(Clone, Copy)]
enum Step {
    // A row of this length, filled with this byte: 1, or 0 where the table is full.
    Insert(u64, u8, u8),
    // The rows on a chain, the newest first.
    Find(u64),
    // All rows, the oldest first.
    Walk,
    // Fills the newest row on a chain with this byte: 1, or 0 where there is none.
    Write(u64, u8),
    // Raises the number behind the count of the newest row on a chain: its last byte, or 0 where there is none.
    Raise(u64, u8),
    // Whether five of these bytes stand behind the count of the newest row on a chain.
    Shows(u64, u8),
    // The place of the newest node on a chain with five of these bytes behind its row's count.
    Look(u64, u8),
    Clear,
}

// How many buffers a table has, and whether it gets more of them.
#[derive(Clone, Copy)]
enum Shape {
    Narrow,
    Wide,
    Widened,
}

// The hash of a row is its length.
struct ByLength;

impl RowHash for ByLength {
    ghost hash = { λ _ row. length row };

    fn hash_row(&self, row: &[u8]) -> u64 {
        row.len() as u64
    }
}

// A row has its count and at least sixteen bytes behind it.
fn row_of(alloc: Global, len: u8, fill: u8) -> Result<Vec<u8>, Memory>
    ensures { IfOk result (λ row. IsFramed row.items) }
{
    let len = len.max(20);
    let mut row = Vec::from_slice(alloc, &[0, 0, 0, len - 4])?;
    row.resize(usize::from(len), fill)?;
    Ok(row)
}

// Adds the byte that fills the row of a node.
fn glimpse(
    table: &BucketTable,
    node: u32,
    row: &mut Vec<u8>,
    shown: &mut Vec<u8>,
) -> Result<(), Memory>
    requires { HasNode node table.now.nodes }
{
    table.row_at(node, row)?;
    if shown.push(row.last().copied().unwrap_or(0)).is_err() {
        return Err(Memory);
    }
    Ok(())
}

// The rows on a chain, the newest first, and a hundred at most.
fn found(alloc: Global, table: &BucketTable, hash: u64) -> Result<Shown, Memory> {
    let mut shown = Vec::new(alloc);
    let mut row = Vec::new(alloc);
    let mut next = table.find_first(hash);
    for _i in 0..100u32 {
        let Some(node) = next else { break };
        glimpse(table, node, &mut row, &mut shown)?;
        next = table.find_next(node);
    }
    Ok(shown)
}

// All rows, the oldest first, and a hundred at most.
fn walked(alloc: Global, table: &BucketTable) -> Result<Shown, Memory> {
    let mut shown = Vec::new(alloc);
    let mut row = Vec::new(alloc);
    let mut next = table.first_node();
    for _i in 0..100u32 {
        let Some(node) = next else { break };
        glimpse(table, node, &mut row, &mut shown)?;
        next = table.next_node(node);
    }
    Ok(shown)
}

// One byte of a step's own.
fn one(alloc: Global, byte: u8) -> Result<Shown, Memory> {
    Ok(Vec::from_slice(alloc, &[byte])?)
}

// Fills the row of a node with a byte.
fn write_at(alloc: Global, table: &mut BucketTable, node: u32, fill: u8) -> Result<(), Memory>
    requires { HasNode node table.old.nodes }
    ensures { table.new ≡ with_nodes table.new.nodes table.old }
{
    let mut old = Vec::new(alloc);
    table.row_at(node, &mut old)?;
    let row = row_of(alloc, old.len().min(255) as u8, fill)?;
    if row.len() == old.len() {
        table.write_row(node, &row);
    }
    Ok(())
}

// Raises the number behind the count of a row, where it has one, and by more than one in one call: its last byte.
fn raise_at(table: &mut BucketTable, node: u32, by: u8) -> u8
    requires { HasNode node table.old.nodes }
    ensures { table.new ≡ with_nodes table.new.nodes table.old }
{
    if table.row_len(node) < 20 {
        return 0;
    }
    let number = table.number_at(node, 4).wrapping_add(u128::from(by));
    if by == 1 {
        table.set_number_at(node, 4, number);
    } else {
        table.change_number_at(node, 4, |old| old.wrapping_add(u128::from(by)));
    }
    (number % 256) as u8
}

// What one step shows.
fn take_step(alloc: Global, table: &mut BucketTable, step: Step) -> Result<Shown, Memory>
    ensures { table.new ≡ with_nodes table.new.nodes table.old }
{
    match step {
        Step::Insert(hash, len, fill) => {
            let row = row_of(alloc, len, fill)?;
            one(alloc, u8::from(table.insert(hash, &row).is_ok()))
        }
        Step::Find(hash) => found(alloc, table, hash),
        Step::Walk => walked(alloc, table),
        Step::Write(hash, fill) => match table.find_first(hash) {
            Some(node) => {
                write_at(alloc, table, node, fill)?;
                one(alloc, 1)
            }
            None => one(alloc, 0),
        },
        Step::Raise(hash, by) => match table.find_first(hash) {
            Some(node) => one(alloc, raise_at(table, node, by)),
            None => one(alloc, 0),
        },
        Step::Shows(hash, fill) => match table.find_first(hash) {
            Some(node) => one(alloc, u8::from(table.shows_at(node, 4, &[fill; 5]))),
            None => one(alloc, 0),
        },
        Step::Look(hash, fill) => match table.find_row(hash, 4, &[fill; 5]) {
            Some(node) => one(alloc, (node % 256) as u8),
            None => Ok(Vec::new(alloc)),
        },
        Step::Clear => {
            table.clear();
            Ok(Vec::new(alloc))
        }
    }
}

// What these steps show, one after the other.
fn taken(alloc: Global, table: &mut BucketTable, steps: &[Step]) -> Result<Vec<Shown>, PoolErr>
    ensures { table.new ≡ with_nodes table.new.nodes table.old }
{
    let mut seen = Vec::new(alloc);
    for step in steps {
        let shown = take_step(alloc, table, *step)?;
        if seen.push(shown).is_err() {
            return Err(PoolErr::Memory);
        }
    }
    Ok(seen)
}

// What these steps show on a table of one buffer of heads and sixteen of nodes, each of one block, which ends.
fn narrow<St: Store>(
    store: &mut St,
    alloc: Global,
    c: &Client,
    steps: &[Step],
) -> Result<Vec<Shown>, PoolErr>
    requires client { IsLiveClient c.now (St.holds store.old) }
    requires unused { 17 * (St.holds store.old).block_len ≤ unused_of c.now.tracker (St.holds store.old) }
    ensures { Alike (St.holds store.old) (St.holds store.new) }
{
    let mut table = BucketTable::open(alloc, store, c, 1, 16)?;
    let seen = taken(alloc, &mut table, steps);
    table.close(store);
    seen
}

// The same on one of two buffers of heads and one of nodes, each of two blocks, which grows by a buffer of nodes before
// the steps.
fn wide<St: Store>(
    store: &mut St,
    alloc: Global,
    c: &Client,
    steps: &[Step],
) -> Result<Vec<Shown>, PoolErr>
    requires client { IsLiveClient c.now (St.holds store.old) }
    requires unused { 17 * (St.holds store.old).block_len ≤ unused_of c.now.tracker (St.holds store.old) }
    requires short { (St.holds store.old).block_len ≤ 65536 }
    ensures { Alike (St.holds store.old) (St.holds store.new) }
{
    let mut table = BucketTable::open_wide(alloc, store, c, 2, 2, 1)?;
    match table.grow(alloc, store, c) {
        Ok(()) => {
            let seen = taken(alloc, &mut table, steps);
            table.close(store);
            seen
        }
        Err(e) => {
            table.close(store);
            Err(e)
        }
    }
}

// Rows that go in before a table gets more chains, with their lengths as hashes. All of them are on chain 4 of sixteen;
// of 32 chains, the second is on chain 4 and the others on chain 20. The last one straddles two blocks.
const FIRST: [Step; 4] = [
    Step::Insert(20, 20, 1),
    Step::Insert(36, 36, 2),
    Step::Insert(20, 20, 3),
    Step::Insert(52, 52, 4),
];

// What these steps show on a table of one buffer of heads and eight of nodes, each of one block, that got its first rows
// on sixteen chains, and then has twice as many.
fn widened<St: Store>(
    store: &mut St,
    alloc: Global,
    c: &Client,
    steps: &[Step],
) -> Result<Vec<Shown>, PoolErr>
    requires client { IsLiveClient c.now (St.holds store.old) }
    requires unused { 17 * (St.holds store.old).block_len ≤ unused_of c.now.tracker (St.holds store.old) }
    requires short { (St.holds store.old).block_len ≤ 65536 }
    ensures { Alike (St.holds store.old) (St.holds store.new) }
{
    let mut table = BucketTable::open(alloc, store, c, 1, 8)?;
    let _first = taken(alloc, &mut table, &FIRST);
    match table.widen(alloc, store, c, &ByLength) {
        Ok(()) => {
            let seen = taken(alloc, &mut table, steps);
            table.close(store);
            seen
        }
        Err(e) => {
            table.close(store);
            Err(e)
        }
    }
}

// The same on a client of its own.
fn run<St: Store>(
    store: &mut St,
    alloc: Global,
    steps: &[Step],
    shape: Shape,
) -> Result<Vec<Shown>, PoolErr>
    ensures { (St.holds store.new).live_clients ≡ (St.holds store.old).live_clients }
{
    let c = store.add_client(u64::MAX)?;
    let answer = reserved(store, alloc, &c, steps, shape);
    store.end_client(c);
    answer
}

fn reserved<St: Store>(
    store: &mut St,
    alloc: Global,
    c: &Client,
    steps: &[Step],
    shape: Shape,
) -> Result<Vec<Shown>, PoolErr>
    requires { IsLiveClient c.now (St.holds store.old) }
    ensures client { IsLiveClient c.now (St.holds store.new) }
    ensures rest { AlikeButClients (St.holds store.old) (St.holds store.new) }
{
    let block_len = store.block_len();
    store.reserve(c, 17 * u64::from(block_len))?;
    match shape {
        Shape::Narrow => narrow(store, alloc, c, steps),
        Shape::Wide => wide(store, alloc, c, steps),
        Shape::Widened => widened(store, alloc, c, steps),
    }
}

// Each step with the bytes that it shows.
fn expect(
    rt: &impl Abort,
    alloc: Global,
    rows: &[(Step, &[u8])],
    shape: Shape,
) -> Result<(), Fail> {
    let mut steps = Vec::new(alloc);
    for row in rows {
        steps.push(row.0)?;
    }
    let mut store = MemStore::open(alloc, 64, 1280, 1280)?;
    let answer = run(&mut store, alloc, &steps, shape);
    store.close();
    let seen = answer?;
    for (i, row) in rows.iter().enumerate() {
        assert_eq!(rt;
            seen.get(i).map(|shown| shown.as_slice()),
            Some(row.1),
            "step {i}"
        );
    }
    Ok(())
}

#[test]
fn forty_two_rows_of_twenty_bytes_go_in_and_no_more(rt: HostRuntime) -> Result<(), Fail> {
    let mut rows = Vec::new(rt.alloc());
    for i in 0..42u8 {
        rows.push((Step::Insert(u64::from(i), 20, i), [1].as_slice()))?;
    }
    rows.push((Step::Insert(42, 20, 42), [0].as_slice()))?;
    // there are sixteen chains
    rows.push((Step::Find(3), [35, 19, 3].as_slice()))?;
    expect(&rt, rt.alloc(), &rows, Shape::Narrow)
}

// Rows of several lengths come, are found, and are written over. Nodes straddle blocks and buffers.
const MIXED: [(Step, &[u8]); 26] = [
    (Step::Find(7), &[]),
    (Step::Insert(7, 20, 1), &[1]),
    (Step::Insert(8, 50, 2), &[1]),
    (Step::Insert(7, 70, 3), &[1]),
    (Step::Insert(71, 33, 4), &[1]),
    (Step::Insert(7, 21, 5), &[1]),
    (Step::Find(8), &[2]),
    (Step::Find(7), &[5, 4, 3, 1]),
    (Step::Walk, &[1, 2, 3, 4, 5]),
    (Step::Shows(8, 2), &[1]),
    (Step::Shows(8, 3), &[0]),
    (Step::Look(7, 3), &[78]),
    // this node straddles two blocks
    (Step::Look(7, 5), &[189]),
    (Step::Look(7, 1), &[0]),
    (Step::Look(7, 2), &[]),
    (Step::Look(8, 2), &[24]),
    (Step::Write(8, 9), &[1]),
    (Step::Write(9, 9), &[0]),
    (Step::Find(8), &[9]),
    (Step::Walk, &[1, 9, 3, 4, 5]),
    (Step::Raise(7, 1), &[6]),
    (Step::Raise(7, 1), &[7]),
    (Step::Insert(8, 90, 6), &[0]),
    (Step::Clear, &[]),
    (Step::Walk, &[]),
    (Step::Find(7), &[]),
];

#[test]
fn mixed_rows_are_found_where_they_straddle(rt: HostRuntime) -> Result<(), Fail> {
    expect(&rt, rt.alloc(), &MIXED, Shape::Wide)
}

const ON_NEW_CHAINS: [(Step, &[u8]); 9] = [
    (Step::Find(20), &[4, 3, 1]),
    (Step::Find(4), &[2]),
    (Step::Walk, &[1, 2, 3, 4]),
    (Step::Look(20, 3), &[64]),
    (Step::Insert(36, 25, 5), &[1]),
    (Step::Find(4), &[5, 2]),
    // this node's number straddles two blocks
    (Step::Insert(5, 20, 7), &[1]),
    (Step::Raise(5, 2), &[9]),
    (Step::Raise(5, 1), &[10]),
];

#[test]
fn rows_come_to_their_new_chains_newest_first(rt: HostRuntime) -> Result<(), Fail> {
    expect(&rt, rt.alloc(), &ON_NEW_CHAINS, Shape::Widened)
}

// On how many of 256 chains as many rows stand whose hashes have these lowest four bits, as the rows of one partition have.
fn chains_of(nibble: u64) -> usize {
    let mut stand = [false; 256];
    for i in 0..256u64 {
        let chain = (spread((16 * i) | nibble) % 256) as usize;
        stand[chain] = true;
    }
    stand.iter().filter(|some| **some).count()
}

#[test]
fn rows_of_one_partition_stand_on_most_chains(rt: HostRuntime) {
    let least = (0..16u64).map(chains_of).min();
    assert_eq!(rt; (spread(1), least), (0x9e3779b9, Some(206)));
}

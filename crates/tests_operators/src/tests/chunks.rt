//! Two streams that are joined by chunks, over a store in memory, against worked pairs. A page has 64 bytes, and a row 21.
ghost use Rattle.std.specs.Prelude.{◌≡◌, ◌<◌, IfOk, None, ⊤, refl};
ghost use Rattle.std.proofs.Common.{zero-le};
ghost use Rattle.store_api.specs.Conditions.{IsIdle, IsLiveClient};
ghost use Rattle.store_api.specs.Shapes.{IsJoinShape};
ghost use Rattle.tuple_stream.specs.PageRows.{IsOneRow};
ghost use Rattle.tuple_stream.specs.Streams.{IsShaped};
ghost use Rattle.tuple_stream.specs.Touches.{Touches};
ghost use Rattle.partition_stack.specs.Reading.{IsReadable};
ghost use Rattle.join_op.specs.Alone.{AreAlone};

use super::MEMORY;
use join_op::leaf_by_chunks;
use row_codec::{Kind, Value};
use std::alloc::Global;
use std::test::Fail;
use store_api::{Client, Emit, JoinShape, Listed, MemStore, OpErr, Store};
use tuple_stream::Stream;

// Takes pairs, and shows the number of the left row and that of the right one.
#[derive(Drop)]
struct Seen {
    shown: Vec<(i64, i64)>,
}

fn number_at(row: &[Value], column: usize) -> i64 {
    match row.get(column) {
        Some(Value::Int(number)) => *number,
        _ => -1,
    }
}

impl<St: Store> Emit<St> for Seen {
    ghost took = { λ e h rows. ⊤ };

    ghost admits = { λ e row. ⊤ };

    ghost client = { λ e. None };

    ghost faults = { λ e. 0 };

    ghost slots = { λ e h. 0 };

    ghost slots_for = { λ e rows. 0 };

    ghost page_blocks = { 0 };

    ghost creates = { λ e. 0 };

    #[tactic(auto, using(store_api::proofs::Growing::grows_refl, store_api::proofs::Untouched::others_stay))]
    fn row(&mut self, _store: &mut St, row: &[Value]) -> Result<(), OpErr> {
        if self
            .shown
            .push((number_at(row, 1), number_at(row, 3)))
            .is_err()
        {
            return Err(MEMORY);
        }
        Ok(())
    }

    ghost asks_own = { λ e old new rows same took. took };

    ghost slots_own = { λ e old new same. refl };

    ghost slots_fit = { λ e h rows took. zero-le };

    ghost slots_whole = { λ e h rows took. (0, refl) };
}

// A text and a number a side, and the texts are to be equal.
fn numbered(alloc: Global) -> Result<JoinShape, OpErr>
    ensures { IfOk result (λ shape. IsJoinShape shape) }
{
    let Ok(left) = Vec::from_slice(alloc, &[Kind::Text, Kind::Int]) else {
        return Err(MEMORY);
    };
    let Ok(right) = Vec::from_slice(alloc, &[Kind::Text, Kind::Int]) else {
        return Err(MEMORY);
    };
    let Ok(on) = Vec::from_slice(alloc, &[(0, 0)]) else {
        return Err(MEMORY);
    };
    Ok(JoinShape {
        left: Listed::of(left),
        right: Listed::of(right),
        on: Listed::of(on),
    })
}

// A row with a text of this byte and a number.
fn numbered_row(alloc: Global, key: u8, number: u8) -> Result<Vec<u8>, OpErr>
    ensures { IfOk result (λ row. IsOneRow row.items) }
{
    let Ok(mut row) = Vec::from_slice(alloc, &[0, 0, 0, 13, 0, 0, 0, 1, key]) else {
        return Err(MEMORY);
    };
    if row.resize(16, 0).is_err() {
        return Err(MEMORY);
    }
    if row.push(number).is_err() {
        return Err(MEMORY);
    }
    Ok(row)
}

// Rows with these texts come, numbered from 0.
fn fill<St: Store>(
    alloc: Global,
    store: &mut St,
    c: &Client,
    rows: &mut Stream,
    keys: &[u8],
) -> Result<(), OpErr>
    requires stream { IsReadable c.now rows.old (St.holds store.old) }
    ensures touches { Touches c.now.tracker rows.old rows.new (St.holds store.old) (St.holds store.new) }
    ensures shape { IsShaped c.now.tracker rows.new (St.holds store.new) }
    ensures sized { rows.new.page_blocks ≡ rows.old.page_blocks }
{
    let mut number = 0u8;
    for key in keys {
        let row = numbered_row(alloc, *key, number)?;
        if rows.append(alloc, store, c, &row).is_err() {
            return Err(MEMORY);
        }
        number = number.wrapping_add(1);
    }
    Ok(())
}

// What the pairs show.
fn joined<St: Store>(
    alloc: Global,
    store: &mut St,
    c: &Client,
    left: &mut Stream,
    right: &mut Stream,
    keys: (&[u8], &[u8]),
    chunk: u32,
) -> Result<Vec<(i64, i64)>, OpErr>
    requires alone { AreAlone c.now left.old right.old (St.holds store.old) }
    requires some { 0 < chunk }
    ensures alone { AreAlone c.now left.new right.new (St.holds store.new) }
    ensures clients { (St.holds store.new).live_clients ≡ (St.holds store.old).live_clients }
{
    fill(alloc, store, c, left, keys.0)?;
    fill(alloc, store, c, right, keys.1)?;
    let shape = numbered(alloc)?;
    let mut seen = Seen {
        shown: Vec::new(alloc),
    };
    leaf_by_chunks(alloc, store, c, left, right, &shape, chunk, &mut seen)?;
    Ok(seen.shown)
}

// The same of new streams, whose pages go.
fn joined_by<St: Store>(
    alloc: Global,
    store: &mut St,
    c: &Client,
    keys: (&[u8], &[u8]),
    chunk: u32,
) -> Result<Vec<(i64, i64)>, OpErr>
    requires client { IsLiveClient c.now (St.holds store.old) }
    requires idle { IsIdle c.now.tracker (St.holds store.old) }
    requires some { 0 < chunk }
    ensures client { IsLiveClient c.now (St.holds store.new) }
    ensures idle { IsIdle c.now.tracker (St.holds store.new) }
    ensures clients { (St.holds store.new).live_clients ≡ (St.holds store.old).live_clients }
{
    let len = u64::from(store.block_len());
    store.reserve(c, 2 * len)?;
    let mut left = Stream::new(alloc, 1);
    let mut right = Stream::new(alloc, 1);
    let seen = joined(alloc, store, c, &mut left, &mut right, keys, chunk);
    left.drop_all(store);
    left.end();
    right.drop_all(store);
    right.end();
    seen
}

// The same on a client of its own.
fn run<St: Store>(
    alloc: Global,
    store: &mut St,
    keys: (&[u8], &[u8]),
    chunk: u32,
) -> Result<Vec<(i64, i64)>, OpErr>
    requires { 0 < chunk }
    ensures { (St.holds store.new).live_clients ≡ (St.holds store.old).live_clients }
{
    let c = store.add_client(u64::MAX)?;
    let answer = joined_by(alloc, store, &c, keys, chunk);
    store.end_client(c);
    answer
}

#[test]
fn each_pair_of_one_key_comes_once_whatever_the_chunk(rt: HostRuntime) -> Result<(), Fail> {
    let rows: [(u32, &[u8], &[u8], &[(i64, i64)]); 8] = [
        (1, b"aab", b"aca", &[(0, 0), (1, 0), (0, 2), (1, 2)]),
        (2, b"aab", b"aca", &[(0, 0), (1, 0), (0, 2), (1, 2)]),
        (3, b"aab", b"aca", &[(0, 0), (0, 2), (1, 0), (1, 2)]),
        (9, b"aab", b"aca", &[(0, 0), (0, 2), (1, 0), (1, 2)]),
        (1, b"", b"aca", &[]),
        (1, b"aab", b"", &[]),
        // Three rows fill a page, and the last row of a chunk is the first of a page.
        (4, b"d", b"aaad", &[(0, 3)]),
        (2, b"cba", b"abcd", &[(1, 1), (2, 0), (0, 2)]),
    ];
    for (chunk, lefts, rights, pairs) in rows {
        let mut store = MemStore::open(rt.alloc(), 64, 1280, 1280)?;
        let answer = run(rt.alloc(), &mut store, (lefts, rights), chunk.max(1));
        store.close();
        assert_eq!(rt; answer?.as_slice(), pairs, "chunk {chunk}");
    }
    Ok(())
}

//! Streams over a store in memory, against worked rows. A page has 64 bytes.
ghost use Rattle.std.specs.Prelude.{◌≡◌, IfOk};
ghost use Rattle.store_api.specs.Conditions.{IsLiveClient};
ghost use Rattle.store_api.specs.Alike.{AlikeButClients};
ghost use Rattle.tuple_stream.specs.PageRows.{IsOneRow};
ghost use Rattle.tuple_stream.specs.Streams.{IsShaped, HasPageRoom};
ghost use Rattle.tuple_stream.specs.Places.{IsWithin};
ghost use Rattle.tuple_stream.specs.Touches.{Touches};

mod pair;

use reservation_tree::PoolErr;
use std::alloc::Global;
use std::process::Abort;
use std::test::Fail;
use store_api::{Client, MemStore, Store};
use tuple_stream::{At, Stream, StreamErr};

// The row that a step shows: its length, and the byte that fills it.
type Shown = Option<(usize, u8)>;

#[derive(Clone, Copy)]
enum Step {
    // A row of this length, filled with this byte.
    Append(u8, u8),
    // The next row of a reading that begins anew with each row that is spent.
    Keep,
    KeepInto,
    Spend,
    SpendInto,
    // The pinned page rests.
    Rest,
}

const MEMORY: StreamErr = StreamErr::Pool(PoolErr::Memory);

// A row has its count and at least a byte behind it.
fn row_of(alloc: Global, len: u8, fill: u8) -> Result<Vec<u8>, StreamErr>
    ensures { IfOk result (λ row. IsOneRow row.items) }
{
    let len = len.max(5);
    let Ok(mut row) = Vec::from_slice(alloc, &[0, 0, 0, len - 4]) else {
        return Err(MEMORY);
    };
    if row.resize(usize::from(len), fill).is_err() {
        return Err(MEMORY);
    }
    Ok(row)
}

fn glimpse(row: &[u8]) -> Shown {
    Some((row.len(), row.last().copied().unwrap_or(0)))
}

fn glimpse_in(row: Option<Vec<u8>>) -> Shown {
    match row {
        Some(row) => glimpse(&row),
        None => None,
    }
}

// What one step shows.
fn take_step<St: Store>(
    stream: &mut Stream,
    store: &mut St,
    alloc: Global,
    c: &Client,
    place: &mut At,
    step: Step,
) -> Result<Shown, StreamErr>
    requires client { IsLiveClient c.now (St.holds store.old) }
    requires stream { IsShaped c.now.tracker stream.old (St.holds store.old) }
    requires room { HasPageRoom c.now.tracker stream.old (St.holds store.old) }
    requires place { IsWithin place.old stream.old }
    ensures place { IsWithin place.new stream.new }
    ensures stream { IsShaped c.now.tracker stream.new (St.holds store.new) }
    ensures sized { stream.new.page_blocks ≡ stream.old.page_blocks }
    ensures touches { Touches c.now.tracker stream.old stream.new (St.holds store.old) (St.holds store.new) }
{
    match step {
        Step::Append(len, fill) => {
            let row = row_of(alloc, len, fill)?;
            stream.append(alloc, store, c, &row)?;
            Ok(None)
        }
        Step::Keep => {
            let row = stream.next_keep(alloc, store, c, place)?;
            Ok(glimpse_in(row))
        }
        Step::KeepInto => {
            let mut row = Vec::new(alloc);
            let found = stream.keep_into(store, c, place, &mut row)?;
            Ok(if found { glimpse(&row) } else { None })
        }
        Step::Spend => {
            let row = stream.next_spend(alloc, store, c);
            *place = At::first();
            Ok(glimpse_in(row?))
        }
        Step::SpendInto => {
            let mut row = Vec::new(alloc);
            let found = stream.spend_into(store, c, &mut row);
            *place = At::first();
            Ok(if found? { glimpse(&row) } else { None })
        }
        Step::Rest => {
            stream.rest(store)?;
            Ok(None)
        }
    }
}

// What the steps show, one after the other.
fn walked<St: Store>(
    stream: &mut Stream,
    store: &mut St,
    alloc: Global,
    c: &Client,
    steps: &[(Step, Shown)],
) -> Result<Vec<Shown>, StreamErr>
    requires client { IsLiveClient c.now (St.holds store.old) }
    requires stream { IsShaped c.now.tracker stream.old (St.holds store.old) }
    requires room { HasPageRoom c.now.tracker stream.old (St.holds store.old) }
    ensures stream { IsShaped c.now.tracker stream.new (St.holds store.new) }
    ensures sized { stream.new.page_blocks ≡ stream.old.page_blocks }
    ensures touches { Touches c.now.tracker stream.old stream.new (St.holds store.old) (St.holds store.new) }
{
    let mut seen = Vec::new(alloc);
    let mut place = At::first();
    for s in steps {
        let shown = take_step(stream, store, alloc, c, &mut place, s.0)?;
        if seen.push(shown).is_err() {
            return Err(MEMORY);
        }
    }
    Ok(seen)
}

// What the steps show on a new stream, and how many rows and pages it has then. Its pages go.
fn walked_by<St: Store>(
    store: &mut St,
    alloc: Global,
    c: &Client,
    steps: &[(Step, Shown)],
) -> Result<(Vec<Shown>, u64, usize), StreamErr>
    requires { IsLiveClient c.now (St.holds store.old) }
    ensures client { IsLiveClient c.now (St.holds store.new) }
    ensures rest { AlikeButClients (St.holds store.old) (St.holds store.new) }
{
    store.reserve(c, u64::from(store.block_len()))?;
    let mut stream = Stream::new(alloc, 1);
    let seen = walked(&mut stream, store, alloc, c, steps);
    let rows = stream.rows();
    let pages = stream.pages();
    stream.drop_all(store);
    stream.end();
    Ok((seen?, rows, pages))
}

// The same on a client of its own.
fn run<St: Store>(
    store: &mut St,
    alloc: Global,
    steps: &[(Step, Shown)],
) -> Result<(Vec<Shown>, u64, usize), StreamErr>
    ensures { (St.holds store.new).live_clients ≡ (St.holds store.old).live_clients }
{
    let c = store.add_client(u64::MAX)?;
    let answer = walked_by(store, alloc, &c, steps);
    store.end_client(c);
    answer
}

// Rows of several lengths come, are read and are spent.
const MIXED: [(Step, Shown); 27] = [
    (Step::Append(20, 1), None),
    (Step::Keep, Some((20, 1))),
    (Step::Keep, None),
    (Step::Append(30, 2), None),
    (Step::Append(64, 3), None),
    (Step::Rest, None),
    (Step::Keep, Some((30, 2))),
    (Step::Spend, Some((20, 1))),
    (Step::KeepInto, Some((30, 2))),
    (Step::Append(5, 4), None),
    (Step::KeepInto, Some((64, 3))),
    (Step::Keep, Some((5, 4))),
    (Step::KeepInto, None),
    (Step::Spend, Some((30, 2))),
    (Step::SpendInto, Some((64, 3))),
    (Step::Keep, Some((5, 4))),
    (Step::Rest, None),
    (Step::Append(40, 5), None),
    (Step::Append(24, 6), None),
    (Step::Append(60, 7), None),
    (Step::SpendInto, Some((5, 4))),
    (Step::Spend, Some((40, 5))),
    (Step::SpendInto, Some((24, 6))),
    (Step::Spend, Some((60, 7))),
    (Step::SpendInto, None),
    (Step::Spend, None),
    (Step::Keep, None),
];

#[test]
fn rows_come_back_in_their_order(rt: HostRuntime) -> Result<(), Fail> {
    let mut store = MemStore::open(rt.alloc(), 64, 1280, 1280)?;
    let answer = run(&mut store, rt.alloc(), &MIXED);
    store.close();
    let (seen, rows, pages) = answer?;
    for (i, step) in MIXED.iter().enumerate() {
        assert_eq!(rt; seen.get(i).copied(), Some(step.1), "step {i}");
    }
    assert_eq!(rt; (rows, pages), (0, 0));
    Ok(())
}

// So many rows of one length, and on how many pages they stand.
fn expect_pages(
    rt: &impl Abort,
    alloc: Global,
    len: u8,
    count: u64,
    pages: usize,
) -> Result<(), Fail> {
    let mut steps = Vec::new(alloc);
    for _ in 0..count {
        steps.push((Step::Append(len, 1), None))?;
    }
    let mut store = MemStore::open(alloc, 64, 1280, 1280)?;
    let answer = run(&mut store, alloc, &steps);
    store.close();
    let (_, rows, stood) = answer?;
    assert_eq!(rt; (rows, stood), (count, pages), "rows of {len}");
    Ok(())
}

#[test]
fn a_page_takes_rows_until_the_next_one_passes_its_end(rt: HostRuntime) -> Result<(), Fail> {
    for (len, count, pages) in [(20, 7, 3), (32, 4, 2), (33, 3, 3), (64, 2, 2)] {
        expect_pages(&rt, rt.alloc(), len, count, pages)?;
    }
    Ok(())
}

#[test]
fn a_row_may_be_as_long_as_a_page_and_no_longer(rt: HostRuntime) -> Result<(), Fail> {
    let mut store = MemStore::open(rt.alloc(), 64, 1280, 1280)?;
    let whole = run(&mut store, rt.alloc(), &[(Step::Append(64, 1), None)]);
    let longer = run(&mut store, rt.alloc(), &[(Step::Append(65, 1), None)]);
    store.close();
    assert_eq!(rt; whole?.1, 1);
    assert_eq!(rt; longer.err(), Some(StreamErr::RowTooLong { bytes: 65 }));
    Ok(())
}

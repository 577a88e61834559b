//! The groups of a stream, over a store in memory, against worked rows. A page has 64 bytes, and a row 25.
ghost use Rattle.std.specs.Prelude.{◌≡◌, ◌<◌, IfOk, None, ⊤, refl};
ghost use Rattle.std.proofs.Common.{zero-le};
ghost use Rattle.store_api.specs.Conditions.{IsIdle, IsLiveClient};
ghost use Rattle.store_api.specs.Shapes.{IsShape};
ghost use Rattle.tuple_stream.specs.PageRows.{IsOneRow};
ghost use Rattle.tuple_stream.specs.Touches.{Touches};
ghost use Rattle.group_op.specs.Scanning.{IsReadable};
ghost use Rattle.group_op.specs.Leaving.{Leaves};

use group_op::leaf_by_scan;
use reservation_tree::PoolErr;
use row_codec::{Agg, Kind, Value};
use std::alloc::Global;
use std::test::Fail;
use store_api::{Client, Emit, Listed, MemStore, OpErr, Shape, Store};
use tuple_stream::Stream;

const MEMORY: OpErr = OpErr::Pool(PoolErr::Memory);

// Takes rows of a text and a number, and shows the first byte of each.
#[derive(Drop)]
struct Seen {
    shown: Vec<(u8, u8)>,
}

fn glimpse(row: &[Value]) -> (u8, u8) {
    let key = match row.first() {
        Some(Value::Text(text)) => text.as_slice().first().copied().unwrap_or(0),
        _ => 0,
    };
    let number = match row.get(1) {
        Some(Value::Wide(number)) => (number.cast_unsigned() % 256) as u8,
        _ => 0,
    };
    (key, number)
}

impl<St: Store> Emit<St> for Seen {
    ghost took = { λ e h rows. ⊤ };

    ghost admits = { λ e row. ⊤ };

    ghost client = { λ e. None };

    ghost faults = { λ e. 0 };

    ghost slots = { λ e h. 0 };

    ghost slots_for = { λ e rows. 0 };

    ghost page_blocks = { 0 };

    ghost creates = { λ e. 0 };

    #[tactic(auto, using(store_api::proofs::Growing::grows_refl, store_api::proofs::Untouched::others_stay))]
    fn row(&mut self, _store: &mut St, row: &[Value]) -> Result<(), OpErr> {
        if self.shown.push(glimpse(row)).is_err() {
            return Err(MEMORY);
        }
        Ok(())
    }

    ghost asks_own = { λ e old new rows same took. took };

    ghost slots_own = { λ e old new same. refl };

    ghost slots_fit = { λ e h rows took. zero-le };

    ghost slots_whole = { λ e h rows took. (0, refl) };
}

// The groups of a text are counted.
fn shape_of(alloc: Global) -> Result<Shape, OpErr>
    ensures { IfOk result (λ shape. IsShape shape) }
{
    let Ok(kinds) = Vec::from_slice(alloc, &[Kind::Text]) else {
        return Err(MEMORY);
    };
    let Ok(keys) = Vec::from_slice(alloc, &[0]) else {
        return Err(MEMORY);
    };
    let Ok(aggs) = Vec::from_slice(alloc, &[Agg::Count]) else {
        return Err(MEMORY);
    };
    Ok(Shape {
        kinds: Listed::of(kinds),
        keys: Listed::of(keys),
        aggs: Listed::of(aggs),
    })
}

// The partial row of one row with a text of this byte.
fn row_of(alloc: Global, key: u8) -> Result<Vec<u8>, OpErr>
    ensures { IfOk result (λ row. IsOneRow row.items) }
{
    let Ok(mut row) = Vec::from_slice(alloc, &[0, 0, 0, 21, 0, 0, 0, 1, key]) else {
        return Err(MEMORY);
    };
    if row.resize(24, 0).is_err() {
        return Err(MEMORY);
    }
    if row.push(1).is_err() {
        return Err(MEMORY);
    }
    Ok(row)
}

// Rows with these texts come.
fn fill<St: Store>(
    alloc: Global,
    store: &mut St,
    c: &Client,
    rows: &mut Stream,
    keys: &[u8],
) -> Result<(), OpErr>
    requires stream { IsReadable c.now rows.old (St.holds store.old) }
    ensures stream { IsReadable c.now rows.new (St.holds store.new) }
    ensures touches { Touches c.now.tracker rows.old rows.new (St.holds store.old) (St.holds store.new) }
{
    for key in keys {
        let row = row_of(alloc, *key)?;
        if rows.append(alloc, store, c, &row).is_err() {
            return Err(MEMORY);
        }
    }
    Ok(())
}

// What the groups show.
fn shown<St: Store>(
    alloc: Global,
    store: &mut St,
    c: &Client,
    rows: &mut Stream,
    keys: &[u8],
    room: u32,
) -> Result<Vec<(u8, u8)>, OpErr>
    requires stream { IsReadable c.now rows.old (St.holds store.old) }
    requires some { 0 < room }
    ensures stream { IsReadable c.now rows.new (St.holds store.new) }
    ensures leaves { Leaves c.now.tracker rows.old rows.new (St.holds store.old) (St.holds store.new) }
{
    fill(alloc, store, c, rows, keys)?;
    let shape = shape_of(alloc)?;
    let mut seen = Seen {
        shown: Vec::new(alloc),
    };
    leaf_by_scan(alloc, store, c, rows, &shape, room, &mut seen)?;
    Ok(seen.shown)
}

// The same of a new stream, whose pages go.
fn shown_by<St: Store>(
    alloc: Global,
    store: &mut St,
    c: &Client,
    keys: &[u8],
    room: u32,
) -> Result<Vec<(u8, u8)>, OpErr>
    requires client { IsLiveClient c.now (St.holds store.old) }
    requires idle { IsIdle c.now.tracker (St.holds store.old) }
    requires some { 0 < room }
    ensures client { IsLiveClient c.now (St.holds store.new) }
    ensures idle { IsIdle c.now.tracker (St.holds store.new) }
    ensures clients { (St.holds store.new).live_clients ≡ (St.holds store.old).live_clients }
{
    store.reserve(c, u64::from(store.block_len()))?;
    let mut rows = Stream::new(alloc, 1);
    let seen = shown(alloc, store, c, &mut rows, keys, room);
    rows.drop_all(store);
    rows.end();
    seen
}

// The same on a client of its own.
fn run<St: Store>(
    alloc: Global,
    store: &mut St,
    keys: &[u8],
    room: u32,
) -> Result<Vec<(u8, u8)>, OpErr>
    requires { 0 < room }
    ensures { (St.holds store.new).live_clients ≡ (St.holds store.old).live_clients }
{
    let c = store.add_client(u64::MAX)?;
    let answer = shown_by(alloc, store, &c, keys, room);
    store.end_client(c);
    answer
}

#[test]
fn each_pass_hands_the_lowest_groups_on(rt: HostRuntime) -> Result<(), Fail> {
    let rows: [(u32, &[u8], &[(u8, u8)]); 5] = [
        (1, b"baca", &[(b'a', 2), (b'b', 1), (b'c', 1)]),
        (2, b"baca", &[(b'a', 2), (b'b', 1), (b'c', 1)]),
        (3, b"baca", &[(b'a', 2), (b'b', 1), (b'c', 1)]),
        (4, b"cba", &[(b'a', 1), (b'b', 1), (b'c', 1)]),
        (1, b"", &[]),
    ];
    for (room, keys, groups) in rows {
        let mut store = MemStore::open(rt.alloc(), 64, 1280, 1280)?;
        let answer = run(rt.alloc(), &mut store, keys, room.max(1));
        store.close();
        assert_eq!(rt; answer?.as_slice(), groups, "room {room}");
    }
    Ok(())
}

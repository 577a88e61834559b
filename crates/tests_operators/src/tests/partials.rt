//! Partial rows that groupings emitted are fed to another one, over a store in memory, against worked groups. A page has 128
//! bytes, and a partial row 78.
ghost use Rattle.std.specs.Prelude.{◌≡◌, ℕ, None, ⊤, true, refl};
ghost use Rattle.std.proofs.Common.{zero-le};
ghost use Rattle.row_codec.specs.Row.{kinds_of};
ghost use Rattle.store_api.specs.Conditions.{IsIdle, IsLiveClient, IsNewClient};
ghost use Rattle.store_api.specs.Holdings.{Holdings};
ghost use Rattle.store_api.specs.Shapes.{IsShape};
ghost use Rattle.group_op.specs.Operator.{IsFeeding, IsOperator, IsSame};
ghost use Rattle.group_op.specs.Starting.{MayStart};
ghost use Rattle.group_op.specs.Stored.{partial_kinds};

use super::MEMORY;
use super::groups::{all_four, feed_one, has_kinds, push};
use group_op::{GroupOp, law_starts};
use row_codec::{Bytes, Kind, Value, encoded_len};
use std::alloc::Global;
use std::test::Fail;
use store_api::{Client, Emit, MemStore, OpErr, Shape, Store};

/// Two texts of a byte each, and a number.
pub(super) type Row = ([u8; 2], i64);

/// The two texts of a group, and its count, its sum, its least and its greatest number.
pub(super) type Group = ([u8; 2], [i128; 4]);

// What a grouping is fed: rows, and then partial rows.
#[derive(Clone, Copy, Drop)]
struct Fed<'a> {
    rows: &'a [Row],
    partials: &'a [Group],
}

// Takes groups, and keeps them in their order.
#[derive(Drop)]
struct Seen {
    groups: Vec<Group>,
}

fn byte_at(row: &[Value], column: usize) -> u8 {
    match row.get(column) {
        Some(Value::Text(text)) => text.as_slice().first().copied().unwrap_or(0),
        _ => 0,
    }
}

fn wide_at(row: &[Value], column: usize) -> i128 {
    match row.get(column) {
        Some(Value::Wide(number)) => *number,
        _ => 0,
    }
}

fn group_of(row: &[Value]) -> Group {
    let numbers = [
        wide_at(row, 2),
        wide_at(row, 3),
        wide_at(row, 4),
        wide_at(row, 5),
    ];
    ([byte_at(row, 0), byte_at(row, 1)], numbers)
}

impl<St: Store> Emit<St> for Seen {
    ghost took = { λ e h rows. ⊤ };

    ghost admits = { λ e row. ⊤ };

    ghost client = { λ e. None };

    ghost faults = { λ e. 0 };

    ghost slots = { λ e h. 0 };

    ghost slots_for = { λ e rows. 0 };

    ghost page_blocks = { 0 };

    ghost creates = { λ e. 0 };

    #[tactic(auto, using(store_api::proofs::Growing::grows_refl, store_api::proofs::Untouched::others_stay))]
    fn row(&mut self, _store: &mut St, row: &[Value]) -> Result<(), OpErr> {
        if self.groups.push(group_of(row)).is_err() {
            return Err(MEMORY);
        }
        Ok(())
    }

    ghost asks_own = { λ e old new rows same took. took };

    ghost slots_own = { λ e old new same. refl };

    ghost slots_fit = { λ e h rows took. zero-le };

    ghost slots_whole = { λ e h rows took. (0, refl) };
}

fn push_texts(alloc: Global, row: &mut Vec<Value>, texts: [u8; 2]) -> Result<(), OpErr> {
    for byte in texts {
        let Ok(text) = Bytes::of(alloc, &[byte]) else {
            return Err(MEMORY);
        };
        push(row, Value::Text(text))?;
    }
    Ok(())
}

fn row_of(alloc: Global, row: Row) -> Result<Vec<Value>, OpErr> {
    let mut values = Vec::new(alloc);
    push_texts(alloc, &mut values, row.0)?;
    push(&mut values, Value::Int(row.1))?;
    Ok(values)
}

fn partial_of(alloc: Global, group: Group) -> Result<Vec<Value>, OpErr> {
    let mut values = Vec::new(alloc);
    push_texts(alloc, &mut values, group.0)?;
    for number in group.1 {
        push(&mut values, Value::Wide(number))?;
    }
    Ok(values)
}

fn are_kinds(kinds: &[Kind], others: &[Kind]) -> bool
    ensures { result ≡ true → kinds.now ≡ others.now }
{
    if kinds.len() != others.len() {
        return false;
    }
    for i in 0..kinds.len() {
        if kinds[i] != others[i] {
            return false;
        }
    }
    true
}

// Whether a row is a partial row of a shape with a key of two texts and with four numbers.
fn has_partial_kinds(row: &[Value], shape: &Shape) -> bool
    ensures { result ≡ true → kinds_of row.now ≡ partial_kinds shape.now }
{
    let kinds = [Kind::Text, Kind::Text, Kind::Int];
    if !are_kinds(shape.kinds.as_slice(), &kinds)
        || shape.keys.as_slice() != [0, 1].as_slice()
        || shape.aggs.as_slice().len() != 4
    {
        return false;
    }
    let kinds = [
        Kind::Text,
        Kind::Text,
        Kind::Wide,
        Kind::Wide,
        Kind::Wide,
        Kind::Wide,
    ];
    has_kinds(row, &kinds)
}

// Feeds a partial row that fits the shape and a page.
fn feed_part<St: Store>(
    alloc: Global,
    store: &mut St,
    op: &mut GroupOp,
    shape: &Shape,
    row: &[Value],
) -> Result<(), OpErr>
    requires op { IsOperator op.old (St.holds store.old) (St.signs store.old) }
    requires feeding { IsFeeding op.old }
    requires shape { op.old.shape ≡ shape.now }
    requires block { op.old.parts.page_blocks ≡ 1 }
    ensures op { IsOperator op.new (St.holds store.new) (St.signs store.new) }
    ensures same { IsSame op.old op.new }
    ensures clients { (St.holds store.new).live_clients ≡ (St.holds store.old).live_clients }
{
    if encoded_len(row) > u64::from(store.block_len()) || !has_partial_kinds(row, shape) {
        return Err(MEMORY);
    }
    op.feed_partial(alloc, store, row)
}

// Feeds all rows.
fn feed_rows<St: Store>(
    alloc: Global,
    store: &mut St,
    op: &mut GroupOp,
    shape: &Shape,
    rows: &[Row],
) -> Result<(), OpErr>
    requires op { IsOperator op.old (St.holds store.old) (St.signs store.old) }
    requires feeding { IsFeeding op.old }
    requires shape { op.old.shape ≡ shape.now }
    requires block { op.old.parts.page_blocks ≡ 1 }
    ensures op { IsOperator op.new (St.holds store.new) (St.signs store.new) }
    ensures same { IsSame op.old op.new }
    ensures clients { (St.holds store.new).live_clients ≡ (St.holds store.old).live_clients }
{
    for row in rows {
        let values = row_of(alloc, *row)?;
        feed_one(alloc, store, op, shape, &values)?;
    }
    Ok(())
}

// Feeds all partial rows.
fn feed_partials<St: Store>(
    alloc: Global,
    store: &mut St,
    op: &mut GroupOp,
    shape: &Shape,
    partials: &[Group],
) -> Result<(), OpErr>
    requires op { IsOperator op.old (St.holds store.old) (St.signs store.old) }
    requires feeding { IsFeeding op.old }
    requires shape { op.old.shape ≡ shape.now }
    requires block { op.old.parts.page_blocks ≡ 1 }
    ensures op { IsOperator op.new (St.holds store.new) (St.signs store.new) }
    ensures same { IsSame op.old op.new }
    ensures clients { (St.holds store.new).live_clients ≡ (St.holds store.old).live_clients }
{
    for group in partials {
        let values = partial_of(alloc, *group)?;
        feed_part(alloc, store, op, shape, &values)?;
    }
    Ok(())
}

// The groups of all that is fed.
fn groups_of<St: Store>(
    alloc: Global,
    store: &mut St,
    op: &mut GroupOp,
    shape: &Shape,
    fed: Fed,
) -> Result<Vec<Group>, OpErr>
    requires op { IsOperator op.old (St.holds store.old) (St.signs store.old) }
    requires feeding { IsFeeding op.old }
    requires shape { op.old.shape ≡ shape.now }
    requires block { op.old.parts.page_blocks ≡ 1 }
    ensures op { IsOperator op.new (St.holds store.new) (St.signs store.new) }
    ensures clients { (St.holds store.new).live_clients ≡ (St.holds store.old).live_clients }
{
    feed_rows(alloc, store, op, shape, fed.rows)?;
    feed_partials(alloc, store, op, shape, fed.partials)?;
    let mut seen = Seen {
        groups: Vec::new(alloc),
    };
    op.finish(alloc, store, &mut seen)?;
    Ok(seen.groups)
}

// The same by a grouping of its own.
fn started<St: Store>(
    alloc: Global,
    store: &mut St,
    c: Client,
    shape: &Shape,
    fed: Fed,
) -> (Client, Result<Vec<Group>, OpErr>)
    requires start { MayStart c 1 (St.holds store.old) }
    requires shape { IsShape shape.now }
    ensures client { IsLiveClient result.0 (St.holds store.new) }
    ensures idle { IsIdle result.0.tracker (St.holds store.new) }
    ensures clients { (St.holds store.new).live_clients ≡ (St.holds store.old).live_clients }
{
    law_starts();
    match GroupOp::start(alloc, c, 1, shape) {
        Err((c, _e)) => (c, Err(MEMORY)),
        Ok(mut op) => {
            let groups = groups_of(alloc, store, &mut op, shape, fed);
            let _len = store.block_len();
            (op.end(store), groups)
        }
    }
}

// The same with a client that reserves twenty pages.
fn reserved<St: Store>(
    alloc: Global,
    store: &mut St,
    c: Client,
    shape: &Shape,
    fed: Fed,
) -> (Client, Result<Vec<Group>, OpErr>)
    requires new { (was : Holdings) × (limit : ℕ) × IsNewClient c limit was (St.holds store.old) }
    requires shape { IsShape shape.now }
    ensures client { IsLiveClient result.0 (St.holds store.new) }
    ensures idle { IsIdle result.0.tracker (St.holds store.new) }
    ensures clients { (St.holds store.new).live_clients ≡ (St.holds store.old).live_clients }
{
    let len = u64::from(store.block_len());
    match store.reserve(&c, 20 * len) {
        Ok(()) => started(alloc, store, c, shape, fed),
        Err(e) => (c, Err(OpErr::Pool(e))),
    }
}

// The same by a client of its own.
fn grouped<St: Store>(
    alloc: Global,
    store: &mut St,
    shape: &Shape,
    fed: Fed,
) -> Result<Vec<Group>, OpErr>
    requires { IsShape shape.now }
    ensures { (St.holds store.new).live_clients ≡ (St.holds store.old).live_clients }
{
    let c = store.add_client(u64::MAX)?;
    let (c, groups) = reserved(alloc, store, c, shape, fed);
    store.end_client(c);
    groups
}

// The same in a new store in memory, with so many pages.
fn in_memory(alloc: Global, pages: u32, shape: &Shape, fed: Fed) -> Result<Vec<Group>, OpErr>
    requires { IsShape shape.now }
{
    let limit = u64::from(pages) * 128;
    let mut store = MemStore::open(alloc, 128, limit, limit)?;
    let groups = grouped(alloc, &mut store, shape, fed);
    store.close();
    groups
}

/// The groups of these rows, by one grouping.
pub(super) fn of_rows(alloc: Global, shape: &Shape, rows: &[Row]) -> Result<Vec<Group>, OpErr>
    requires { IsShape shape.now }
{
    let fed = Fed {
        rows,
        partials: &[],
    };
    in_memory(alloc, 1000, shape, fed)
}

/// The same by a grouping in so many pages, that is fed the partial rows of a grouping of each half.
pub(super) fn of_halves(
    alloc: Global,
    pages: u32,
    shape: &Shape,
    halves: (&[Row], &[Row]),
) -> Result<Vec<Group>, OpErr>
    requires { IsShape shape.now }
{
    let mut partials = of_rows(alloc, shape, halves.0)?;
    let second = of_rows(alloc, shape, halves.1)?;
    if partials.extend_from_slice(&second).is_err() {
        return Err(MEMORY);
    }
    let fed = Fed {
        rows: &[],
        partials: &partials,
    };
    in_memory(alloc, pages, shape, fed)
}

#[test]
fn partial_rows_of_two_halves_are_combined(rt: HostRuntime) -> Result<(), Fail> {
    let rows: [Row; 7] = [
        (*b"ax", 7),
        (*b"ay", -3),
        (*b"ax", -9),
        (*b"bx", 5),
        (*b"ax", 4),
        (*b"cx", i64::MAX),
        (*b"cx", i64::MAX),
    ];
    // Groups come in the order of hashes of their texts.
    let groups: [Group; 4] = [
        (*b"ax", [3, 2, -9, 7]),
        (*b"bx", [1, 5, 5, 5]),
        (*b"ay", [1, -3, -3, -3]),
        (
            *b"cx",
            [
                2,
                18446744073709551614,
                9223372036854775807,
                9223372036854775807,
            ],
        ),
    ];
    let shape = all_four(rt.alloc())?;
    for half in [0, 1, 3, 6, 7] {
        let halves = rows.split_at(half.min(rows.len()));
        let answer = of_halves(rt.alloc(), 1000, &shape, halves)?;
        assert_eq!(rt; answer.as_slice(), groups.as_slice(), "{half} rows first");
    }
    let answer = of_rows(rt.alloc(), &shape, &rows)?;
    assert_eq!(rt; answer.as_slice(), groups.as_slice());
    Ok(())
}

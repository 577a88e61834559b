//! Whole groupings, over a store in memory and over the pool of one owner. What is wanted was computed by another program: how
//! many groups there are, and a checksum over all that they show, in their order.
ghost use Rattle.std.specs.Prelude.{◌≡◌, ◌<◌, ◌≤◌, ℕ, IfOk, None, ⊤, true, refl, vec_len};
ghost use Rattle.std.proofs.Common.{zero-le};
ghost use Rattle.block_arena.specs.Blocks.{IsBlockLen};
ghost use Rattle.row_codec.specs.Row.{kind_of as kind_in, kinds_of};
ghost use Rattle.store_api.specs.Conditions.{IsIdle, IsLiveClient, IsNewClient};
ghost use Rattle.store_api.specs.Holdings.{Holdings};
ghost use Rattle.store_api.specs.Shapes.{IsShape};
ghost use Rattle.group_op.specs.Operator.{IsFeeding, IsOperator, IsSame};
ghost use Rattle.group_op.specs.Starting.{MayStart};

use super::{MEMORY, counted, opened, slots};
use group_op::{GroupOp, law_starts};
use outside::MemSlot;
use reservation_tree::PoolErr;
use row_codec::{Agg, Bytes, Kind, Value, encoded_len};
use std::alloc::Global;
use std::test::Fail;
use store_api::{Client, Emit, Listed, MemStore, OpErr, Shape, Store};

// What came: how many rows, and a checksum over their texts and numbers.
#[derive(Clone, Copy, Debug, Drop, PartialEq, Eq)]
struct Told {
    rows: u32,
    sum: u64,
}

fn add(sum: u64, value: u64) -> u64 {
    sum.wrapping_mul(31).wrapping_add(value)
}

fn add_all(sum: u64, row: &[Value]) -> u64 {
    row.iter().fold(sum, |sum, value| match value {
        Value::Text(text) => text
            .as_slice()
            .iter()
            .fold(sum, |sum, byte| add(sum, u64::from(*byte))),
        Value::Int(number) => add(sum, number.cast_unsigned()),
        Value::Wide(number) => {
            let number = number.cast_unsigned();
            add(add(sum, (number % (1 << 64)) as u64), (number >> 64) as u64)
        }
    })
}

impl<St: Store> Emit<St> for Told {
    ghost took = { λ e h rows. ⊤ };

    ghost admits = { λ e row. ⊤ };

    ghost client = { λ e. None };

    ghost faults = { λ e. 0 };

    ghost slots = { λ e h. 0 };

    ghost slots_for = { λ e rows. 0 };

    ghost page_blocks = { 0 };

    ghost creates = { λ e. 0 };

    #[tactic(auto, using(store_api::proofs::Growing::grows_refl, store_api::proofs::Untouched::others_stay))]
    fn row(&mut self, _store: &mut St, row: &[Value]) -> Result<(), OpErr> {
        self.rows = self.rows.saturating_add(1);
        self.sum = add_all(self.sum, row);
        Ok(())
    }

    ghost asks_own = { λ e old new rows same took. took };

    ghost slots_own = { λ e old new same. refl };

    ghost slots_fit = { λ e h rows took. zero-le };

    ghost slots_whole = { λ e h rows took. (0, refl) };
}

// Rows to be fed: so many, of so many first and second texts; without second ones there is no number either. The numbers are
// small ones, or all the greatest one.
#[derive(Clone, Copy, Drop)]
struct Plan {
    rows: u32,
    first: u32,
    second: u32,
    greatest: bool,
}

fn text(alloc: Global, number: u32) -> Result<Value, OpErr> {
    let digit = |unit: u32| b'0' + (number / unit % 10) as u8;
    let Ok(bytes) = Bytes::of(alloc, &[b'k', b'e', b'y', digit(100), digit(10), digit(1)]) else {
        return Err(MEMORY);
    };
    Ok(Value::Text(bytes))
}

pub(super) fn push(row: &mut Vec<Value>, value: Value) -> Result<(), OpErr> {
    if row.push(value).is_err() {
        return Err(MEMORY);
    }
    Ok(())
}

fn made(alloc: Global, plan: Plan, number: u32) -> Result<Vec<Value>, OpErr> {
    let mut row = Vec::new(alloc);
    push(&mut row, text(alloc, number % plan.first.max(1))?)?;
    if plan.second > 0 {
        push(&mut row, text(alloc, number % plan.second)?)?;
        let value = if plan.greatest {
            i64::MAX
        } else {
            i64::from(number) * 7919 % 1000 - 500
        };
        push(&mut row, Value::Int(value))?;
    }
    Ok(row)
}

fn kind_of(value: &Value) -> Kind
    ensures { result ≡ kind_in value.now }
{
    match value {
        Value::Int(_) => Kind::Int,
        Value::Text(_) => Kind::Text,
        Value::Wide(_) => Kind::Wide,
    }
}

pub(super) fn has_kinds(row: &[Value], kinds: &[Kind]) -> bool
    ensures { result ≡ true → kinds_of row.now ≡ kinds.now }
{
    if row.len() != kinds.len() {
        return false;
    }
    for i in 0..row.len() {
        if kind_of(&row[i]) != kinds[i] {
            return false;
        }
    }
    true
}

// Feeds a row that fits the shape and a page.
pub(super) fn feed_one<St: Store>(
    alloc: Global,
    store: &mut St,
    op: &mut GroupOp,
    shape: &Shape,
    row: &[Value],
) -> Result<(), OpErr>
    requires op { IsOperator op.old (St.holds store.old) (St.signs store.old) }
    requires feeding { IsFeeding op.old }
    requires shape { op.old.shape ≡ shape.now }
    requires block { op.old.parts.page_blocks ≡ 1 }
    ensures op { IsOperator op.new (St.holds store.new) (St.signs store.new) }
    ensures same { IsSame op.old op.new }
    ensures clients { (St.holds store.new).live_clients ≡ (St.holds store.old).live_clients }
{
    let len = encoded_len(row).saturating_add(16 * shape.aggs.as_slice().len() as u64);
    if len > u64::from(store.block_len()) || !has_kinds(row, shape.kinds.as_slice()) {
        return Err(MEMORY);
    }
    op.feed(alloc, store, row)
}

// Feeds all rows of a plan.
fn feed_all<St: Store>(
    alloc: Global,
    store: &mut St,
    op: &mut GroupOp,
    shape: &Shape,
    plan: Plan,
) -> Result<(), OpErr>
    requires op { IsOperator op.old (St.holds store.old) (St.signs store.old) }
    requires feeding { IsFeeding op.old }
    requires shape { op.old.shape ≡ shape.now }
    requires block { op.old.parts.page_blocks ≡ 1 }
    ensures op { IsOperator op.new (St.holds store.new) (St.signs store.new) }
    ensures same { IsSame op.old op.new }
    ensures clients { (St.holds store.new).live_clients ≡ (St.holds store.old).live_clients }
{
    for number in 0..plan.rows {
        let row = made(alloc, plan, number)?;
        feed_one(alloc, store, op, shape, &row)?;
    }
    Ok(())
}

// The groups of all rows of a plan.
fn told_of<St: Store>(
    alloc: Global,
    store: &mut St,
    op: &mut GroupOp,
    shape: &Shape,
    plan: Plan,
) -> Result<Told, OpErr>
    requires op { IsOperator op.old (St.holds store.old) (St.signs store.old) }
    requires feeding { IsFeeding op.old }
    requires shape { op.old.shape ≡ shape.now }
    requires block { op.old.parts.page_blocks ≡ 1 }
    ensures op { IsOperator op.new (St.holds store.new) (St.signs store.new) }
    ensures clients { (St.holds store.new).live_clients ≡ (St.holds store.old).live_clients }
{
    feed_all(alloc, store, op, shape, plan)?;
    let mut told = Told { rows: 0, sum: 0 };
    op.finish(alloc, store, &mut told)?;
    Ok(told)
}

// The same by a grouping of its own.
fn started<St: Store>(
    alloc: Global,
    store: &mut St,
    c: Client,
    shape: &Shape,
    plan: Plan,
) -> (Client, Result<Told, OpErr>)
    requires start { MayStart c 1 (St.holds store.old) }
    requires shape { IsShape shape.now }
    ensures client { IsLiveClient result.0 (St.holds store.new) }
    ensures idle { IsIdle result.0.tracker (St.holds store.new) }
    ensures clients { (St.holds store.new).live_clients ≡ (St.holds store.old).live_clients }
{
    law_starts();
    match GroupOp::start(alloc, c, 1, shape) {
        Err((c, _e)) => (c, Err(MEMORY)),
        Ok(mut op) => {
            let told = told_of(alloc, store, &mut op, shape, plan);
            let _len = store.block_len();
            (op.end(store), told)
        }
    }
}

// The same with a client that reserves twenty pages.
fn reserved<St: Store>(
    alloc: Global,
    store: &mut St,
    c: Client,
    shape: &Shape,
    plan: Plan,
) -> (Client, Result<Told, OpErr>)
    requires new { (was : Holdings) × (limit : ℕ) × IsNewClient c limit was (St.holds store.old) }
    requires shape { IsShape shape.now }
    ensures client { IsLiveClient result.0 (St.holds store.new) }
    ensures idle { IsIdle result.0.tracker (St.holds store.new) }
    ensures clients { (St.holds store.new).live_clients ≡ (St.holds store.old).live_clients }
{
    let len = u64::from(store.block_len());
    match store.reserve(&c, 20 * len) {
        Ok(()) => started(alloc, store, c, shape, plan),
        Err(e) => (c, Err(OpErr::Pool(e))),
    }
}

// The same by a client of its own.
fn grouped<St: Store>(
    alloc: Global,
    store: &mut St,
    shape: &Shape,
    plan: Plan,
) -> Result<Told, OpErr>
    requires { IsShape shape.now }
    ensures { (St.holds store.new).live_clients ≡ (St.holds store.old).live_clients }
{
    let c = store.add_client(u64::MAX)?;
    let (c, told) = reserved(alloc, store, c, shape, plan);
    store.end_client(c);
    told
}

// The same in a new store in memory, with blocks of this length and so many pages of one.
fn in_memory(
    alloc: Global,
    block_len: u32,
    pages: u64,
    shape: &Shape,
    plan: Plan,
) -> Result<Told, OpErr>
    requires shape { IsShape shape.now }
    requires block { IsBlockLen block_len }
{
    let limit = u64::from(block_len).saturating_mul(pages);
    let mut store = MemStore::open(alloc, block_len, limit, limit)?;
    let told = grouped(alloc, &mut store, shape, plan);
    store.close();
    told
}

// The same in a new pool of so many blocks of 64 bytes, over these slots, which come back.
fn in_pool(
    alloc: Global,
    blocks: u32,
    slots: Vec<MemSlot>,
    shape: &Shape,
    plan: Plan,
) -> (Vec<MemSlot>, Result<Told, OpErr>)
    requires shape { IsShape shape.now }
    requires some { 0 < blocks }
    requires blocks { blocks ≤ 1024 }
    requires slots { vec_len slots ≤ 1024 }
{
    match opened(alloc, blocks, slots) {
        Err((slots, e)) => (slots, Err(OpErr::Pool(e))),
        Ok(mut pool) => {
            let told = grouped(alloc, &mut pool, shape, plan);
            (pool.close(), told)
        }
    }
}

// The groups of one text are counted.
fn one_text(alloc: Global) -> Result<Shape, OpErr>
    ensures { IfOk result (λ shape. IsShape shape) }
{
    let Ok(kinds) = Vec::from_slice(alloc, &[Kind::Text]) else {
        return Err(MEMORY);
    };
    let Ok(keys) = Vec::from_slice(alloc, &[0]) else {
        return Err(MEMORY);
    };
    let Ok(aggs) = Vec::from_slice(alloc, &[Agg::Count]) else {
        return Err(MEMORY);
    };
    Ok(Shape {
        kinds: Listed::of(kinds),
        keys: Listed::of(keys),
        aggs: Listed::of(aggs),
    })
}

// All that can be computed over a number, for two texts.
pub(super) fn all_four(alloc: Global) -> Result<Shape, OpErr>
    ensures { IfOk result (λ shape. IsShape shape) }
{
    let Ok(kinds) = Vec::from_slice(alloc, &[Kind::Text, Kind::Text, Kind::Int]) else {
        return Err(MEMORY);
    };
    let Ok(keys) = Vec::from_slice(alloc, &[0, 1]) else {
        return Err(MEMORY);
    };
    let all = [Agg::Count, Agg::Sum(2), Agg::Min(2), Agg::Max(2)];
    let Ok(aggs) = Vec::from_slice(alloc, &all) else {
        return Err(MEMORY);
    };
    Ok(Shape {
        kinds: Listed::of(kinds),
        keys: Listed::of(keys),
        aggs: Listed::of(aggs),
    })
}

#[test]
fn two_hundred_keys_are_counted_in_as_many_pages_as_there_are(rt: HostRuntime) -> Result<(), Fail> {
    let rows = [
        (20, 0, 0, 0),
        (20, 1, 1, 3036997514064),
        (20, 200, 200, 15449805641609575780),
        (20, 700, 200, 8964774332756378096),
        (21, 700, 200, 8964774332756378096),
        (40, 700, 200, 8964774332756378096),
        (1000, 700, 200, 8964774332756378096),
    ];
    let shape = one_text(rt.alloc())?;
    for (pages, fed, rows, sum) in rows {
        let plan = Plan {
            rows: fed,
            first: 200,
            second: 0,
            greatest: false,
        };
        let told = in_memory(rt.alloc(), 64, pages, &shape, plan)?;
        assert_eq!(rt; told, Told { rows, sum }, "{fed} rows in {pages} pages");
    }
    Ok(())
}

#[test]
fn sums_and_extremes_are_the_same_in_any_number_of_pages(rt: HostRuntime) -> Result<(), Fail> {
    let rows = [
        (20, 700, 30, 7, false, 210, 437266212992054382),
        (21, 700, 30, 7, false, 210, 437266212992054382),
        (40, 700, 30, 7, false, 210, 437266212992054382),
        (1000, 700, 30, 7, false, 210, 437266212992054382),
        // The sum of the greatest number and itself has 65 bits.
        (20, 2, 1, 1, true, 1, 1179043103120027684),
    ];
    let shape = all_four(rt.alloc())?;
    for (pages, fed, first, second, greatest, rows, sum) in rows {
        let plan = Plan {
            rows: fed,
            first,
            second,
            greatest,
        };
        let told = in_memory(rt.alloc(), 128, pages, &shape, plan)?;
        assert_eq!(rt; told, Told { rows, sum }, "{fed} rows in {pages} pages");
    }
    Ok(())
}

fn texts(rows: u32) -> Plan {
    Plan {
        rows,
        first: 200,
        second: 0,
        greatest: false,
    }
}

#[test]
fn groups_come_back_from_slots(rt: HostRuntime) -> Result<(), Fail> {
    let rows = [
        (20, 200, 15449805641609575780),
        (20, 700, 8964774332756378096),
        (21, 700, 8964774332756378096),
        (40, 700, 8964774332756378096),
        (1000, 700, 8964774332756378096),
    ];
    let shape = one_text(rt.alloc())?;
    for (blocks, fed, sum) in rows {
        let slots = slots(rt.alloc(), 800, 0, &[])?;
        assert!(rt; slots.len() <= 1024);
        let (slots, told) = in_pool(rt.alloc(), blocks, slots, &shape, texts(fed));
        assert_eq!(rt;
            told,
            Ok(Told { rows: 200, sum }),
            "{fed} rows in {blocks} blocks"
        );
        assert_eq!(rt; slots.len(), 800);
        // Pages that rest are written before others are pinned, as long as the client reserves no more.
        assert!(rt; counted(slots.as_slice()).0 > 0);
    }
    Ok(())
}

#[test]
fn a_slot_that_fails_is_told(rt: HostRuntime) -> Result<(), Fail> {
    let shape = one_text(rt.alloc())?;
    // The first call of a slot stores a block, and the second one loads it.
    for fails in [0, 1] {
        let slots = slots(rt.alloc(), 800, 800, &[fails])?;
        assert!(rt; slots.len() <= 1024);
        let (slots, told) = in_pool(rt.alloc(), 20, slots, &shape, texts(200));
        let Err(OpErr::Pool(e)) = told else {
            panic!(rt; "a call that fails is told");
        };
        assert_eq!(rt; super::kind_of(e), fails);
        assert_eq!(rt; counted(slots.as_slice()).1, 1);
        assert_eq!(rt; slots.len(), 800);
    }
    Ok(())
}

#[test]
fn a_quota_that_is_too_small_is_told(rt: HostRuntime) -> Result<(), Fail> {
    let shape = one_text(rt.alloc())?;
    let slots = slots(rt.alloc(), 16, 0, &[])?;
    assert!(rt; slots.len() <= 1024);
    let (slots, told) = in_pool(rt.alloc(), 20, slots, &shape, texts(200));
    let full = PoolErr::ScratchFull { need: 1, free: 0 };
    assert_eq!(rt; told, Err(OpErr::Pool(full)));
    assert_eq!(rt; slots.len(), 16);
    Ok(())
}

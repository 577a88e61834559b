//! Whole joins, over a store in memory and over the pool of one owner, against worked rows. A page has 64 bytes, and a row 9.
ghost use Rattle.std.specs.Prelude.{◌≡◌, ◌≤◌, ℕ, ◌∷◌, [], IfOk, None, ⊤, refl, vec_len};
ghost use Rattle.std.proofs.Common.{zero-le};
ghost use Rattle.row_codec.specs.Row.{kinds_of};
ghost use Rattle.row_codec.specs.declared.values.Kind.TheVariants.{Text};
ghost use Rattle.store_api.specs.Conditions.{IsIdle, IsLiveClient, IsNewClient};
ghost use Rattle.store_api.specs.Holdings.{Holdings};
ghost use Rattle.store_api.specs.Shapes.{IsJoinShape};
ghost use Rattle.join_op.specs.Operator.{HasNoRight, IsFeeding, IsOperator, IsSame};
ghost use Rattle.join_op.specs.Starting.{MayStart};

use super::{MEMORY, counted, kind_of, opened, slots};
use join_op::{JoinOp, law_starts};
use outside::MemSlot;
use reservation_tree::PoolErr;
use row_codec::{Bytes, Kind, Value, encoded_len};
use std::alloc::Global;
use std::test::Fail;
use store_api::{Client, Emit, JoinShape, Listed, MemStore, OpErr, Store};

// A text a side, and the texts are to be equal.
fn texts(alloc: Global) -> Result<JoinShape, OpErr>
    ensures shape { IfOk result (λ shape. IsJoinShape shape) }
    ensures left { IfOk result (λ shape. shape.left ≡ Text ∷ []) }
    ensures right { IfOk result (λ shape. shape.right ≡ Text ∷ []) }
{
    let Ok(left) = Vec::from_slice(alloc, &[Kind::Text]) else {
        return Err(MEMORY);
    };
    let Ok(right) = Vec::from_slice(alloc, &[Kind::Text]) else {
        return Err(MEMORY);
    };
    let Ok(on) = Vec::from_slice(alloc, &[(0, 0)]) else {
        return Err(MEMORY);
    };
    Ok(JoinShape {
        left: Listed::of(left),
        right: Listed::of(right),
        on: Listed::of(on),
    })
}

// A row with a text of this byte.
fn row_of(alloc: Global, byte: u8) -> Result<Vec<Value>, OpErr>
    ensures { IfOk result (λ row. kinds_of row.items ≡ Text ∷ []) }
{
    let Ok(text) = Bytes::of(alloc, &[byte]) else {
        return Err(MEMORY);
    };
    let mut row = Vec::new(alloc);
    if row.push(Value::Text(text)).is_err() {
        return Err(MEMORY);
    }
    Ok(row)
}

// Left rows with these texts come.
fn feed_lefts<St: Store>(
    alloc: Global,
    store: &mut St,
    op: &mut JoinOp,
    keys: &[u8],
) -> Result<(), OpErr>
    requires op { IsOperator op.old (St.holds store.old) (St.signs store.old) }
    requires feeding { IsFeeding op.old }
    requires first { HasNoRight op.old }
    requires shape { op.old.shape.left ≡ Text ∷ [] }
    requires block { op.old.left.page_blocks ≡ 1 }
    ensures op { IsOperator op.new (St.holds store.new) (St.signs store.new) }
    ensures feeding { IsFeeding op.new }
    ensures same { IsSame op.old op.new }
    ensures clients { (St.holds store.new).live_clients ≡ (St.holds store.old).live_clients }
{
    for key in keys {
        let row = row_of(alloc, *key)?;
        if encoded_len(&row) > u64::from(store.block_len()) {
            return Err(MEMORY);
        }
        op.feed_left(alloc, store, &row)?;
    }
    Ok(())
}

// Right rows with these texts come.
fn feed_rights<St: Store>(
    alloc: Global,
    store: &mut St,
    op: &mut JoinOp,
    keys: &[u8],
) -> Result<(), OpErr>
    requires op { IsOperator op.old (St.holds store.old) (St.signs store.old) }
    requires feeding { IsFeeding op.old }
    requires shape { op.old.shape.right ≡ Text ∷ [] }
    requires block { op.old.left.page_blocks ≡ 1 }
    ensures op { IsOperator op.new (St.holds store.new) (St.signs store.new) }
    ensures feeding { IsFeeding op.new }
    ensures clients { (St.holds store.new).live_clients ≡ (St.holds store.old).live_clients }
{
    for key in keys {
        let row = row_of(alloc, *key)?;
        if encoded_len(&row) > u64::from(store.block_len()) {
            return Err(MEMORY);
        }
        op.feed_right(alloc, store, &row)?;
    }
    Ok(())
}

// Takes pairs, and counts them.
#[derive(Drop)]
struct Counted {
    pairs: u64,
}

impl<St: Store> Emit<St> for Counted {
    ghost took = { λ e h rows. ⊤ };

    ghost admits = { λ e row. ⊤ };

    ghost client = { λ e. None };

    ghost faults = { λ e. 0 };

    ghost slots = { λ e h. 0 };

    ghost slots_for = { λ e rows. 0 };

    ghost page_blocks = { 0 };

    ghost creates = { λ e. 0 };

    #[tactic(auto, using(store_api::proofs::Growing::grows_refl, store_api::proofs::Untouched::others_stay))]
    fn row(&mut self, _store: &mut St, _row: &[Value]) -> Result<(), OpErr> {
        self.pairs = self.pairs.saturating_add(1);
        Ok(())
    }

    ghost asks_own = { λ e old new rows same took. took };

    ghost slots_own = { λ e old new same. refl };

    ghost slots_fit = { λ e h rows took. zero-le };

    ghost slots_whole = { λ e h rows took. (0, refl) };
}

// How many pairs the rows of both sides have, once they were fed and the join was finished.
fn fed<St: Store>(
    alloc: Global,
    store: &mut St,
    op: &mut JoinOp,
    keys: (&[u8], &[u8]),
) -> Result<u64, OpErr>
    requires op { IsOperator op.old (St.holds store.old) (St.signs store.old) }
    requires feeding { IsFeeding op.old }
    requires first { HasNoRight op.old }
    requires left { op.old.shape.left ≡ Text ∷ [] }
    requires right { op.old.shape.right ≡ Text ∷ [] }
    requires block { op.old.left.page_blocks ≡ 1 }
    ensures op { IsOperator op.new (St.holds store.new) (St.signs store.new) }
    ensures clients { (St.holds store.new).live_clients ≡ (St.holds store.old).live_clients }
{
    feed_lefts(alloc, store, op, keys.0)?;
    feed_rights(alloc, store, op, keys.1)?;
    let mut counted = Counted { pairs: 0 };
    op.finish(alloc, store, &mut counted)?;
    Ok(counted.pairs)
}

// The same by a join of its own, which ends.
fn started<St: Store>(
    alloc: Global,
    store: &mut St,
    c: Client,
    shape: &JoinShape,
    keys: (&[u8], &[u8]),
) -> (Client, Result<u64, OpErr>)
    requires start { MayStart c 1 (St.holds store.old) }
    requires shape { IsJoinShape shape.now }
    requires left { shape.now.left ≡ Text ∷ [] }
    requires right { shape.now.right ≡ Text ∷ [] }
    ensures client { IsLiveClient result.0 (St.holds store.new) }
    ensures idle { IsIdle result.0.tracker (St.holds store.new) }
    ensures clients { (St.holds store.new).live_clients ≡ (St.holds store.old).live_clients }
{
    law_starts();
    match JoinOp::start(alloc, c, 1, shape) {
        Err((c, _e)) => (c, Err(MEMORY)),
        Ok(mut op) => {
            let told = fed(alloc, store, &mut op, keys);
            let _len = store.block_len();
            (op.end(store), told)
        }
    }
}

// The same with a client that reserves twenty pages.
fn reserved<St: Store>(
    alloc: Global,
    store: &mut St,
    c: Client,
    shape: &JoinShape,
    keys: (&[u8], &[u8]),
) -> (Client, Result<u64, OpErr>)
    requires new { (was : Holdings) × (limit : ℕ) × IsNewClient c limit was (St.holds store.old) }
    requires shape { IsJoinShape shape.now }
    requires left { shape.now.left ≡ Text ∷ [] }
    requires right { shape.now.right ≡ Text ∷ [] }
    ensures client { IsLiveClient result.0 (St.holds store.new) }
    ensures idle { IsIdle result.0.tracker (St.holds store.new) }
    ensures clients { (St.holds store.new).live_clients ≡ (St.holds store.old).live_clients }
{
    let len = u64::from(store.block_len());
    match store.reserve(&c, 20 * len) {
        Ok(()) => started(alloc, store, c, shape, keys),
        Err(e) => (c, Err(OpErr::Pool(e))),
    }
}

// The same, and what the client has unused when the join has ended.
fn run<St: Store>(
    alloc: Global,
    store: &mut St,
    shape: &JoinShape,
    keys: (&[u8], &[u8]),
) -> Result<(u64, u64), OpErr>
    requires shape { IsJoinShape shape.now }
    requires left { shape.now.left ≡ Text ∷ [] }
    requires right { shape.now.right ≡ Text ∷ [] }
    ensures { (St.holds store.new).live_clients ≡ (St.holds store.old).live_clients }
{
    let c = store.add_client(u64::MAX)?;
    let (c, told) = reserved(alloc, store, c, shape, keys);
    let unused = store.unused(&c);
    store.end_client(c);
    Ok((told?, unused))
}

// Left and right rows by their texts, and how many pairs they have.
type Row = (&'static [u8], &'static [u8], u64);

const MANY: [u8; 300] = [b'a'; 300];

const ROWS: [Row; 8] = [
    (b"abca", b"dab", 3),
    (b"aa", b"aa", 4),
    (b"abca", b"", 0),
    (b"", b"dab", 0),
    (b"", b"", 0),
    // Seven rows of nine bytes fill a page.
    (b"aaaaaaaab", b"aaaaaaaaaaaaaaad", 120),
    (b"aaaaaaaaaaaaaaad", b"aaaaaaaab", 120),
    // No partition of one text gets smaller, however often it is divided.
    (&MANY, &MANY, 90_000),
];

#[test]
fn rows_of_one_text_are_paired(rt: HostRuntime) -> Result<(), Fail> {
    let shape = texts(rt.alloc())?;
    for (lefts, rights, pairs) in ROWS {
        let mut store = MemStore::open(rt.alloc(), 64, 1280, 1280)?;
        let answer = run(rt.alloc(), &mut store, &shape, (lefts, rights));
        store.close();
        assert_eq!(rt; answer?, (pairs, 1280));
    }
    Ok(())
}

#[test]
fn a_join_reserves_a_table_of_the_smaller_partition_where_it_may(
    rt: HostRuntime,
) -> Result<(), Fail> {
    let shape = texts(rt.alloc())?;
    // The query's limit, and what the client has unused in the end. 300 rows have 43 pages; a table of them has 63 of nodes
    // and 16 of heads, and two pages are read beside it.
    let rows: [(u64, u64); 4] = [(1280, 1280), (5183, 1280), (5184, 5184), (8192, 5184)];
    for (limit, unused) in rows {
        let mut store = MemStore::open(rt.alloc(), 64, limit, limit)?;
        let answer = run(rt.alloc(), &mut store, &shape, (&MANY, &MANY));
        store.close();
        assert_eq!(rt; answer?, (90_000, unused), "limit {limit}");
    }
    Ok(())
}

// The same in a new pool of 20 blocks of 64 bytes, over these slots, which come back.
fn in_pool(
    alloc: Global,
    slots: Vec<MemSlot>,
    shape: &JoinShape,
    keys: (&[u8], &[u8]),
) -> (Vec<MemSlot>, Result<(u64, u64), OpErr>)
    requires shape { IsJoinShape shape.now }
    requires left { shape.now.left ≡ Text ∷ [] }
    requires right { shape.now.right ≡ Text ∷ [] }
    requires slots { vec_len slots ≤ 1024 }
{
    match opened(alloc, 20, slots) {
        Err((slots, e)) => (slots, Err(OpErr::Pool(e))),
        Ok(mut pool) => {
            let answer = run(alloc, &mut pool, shape, keys);
            (pool.close(), answer)
        }
    }
}

#[test]
fn rows_are_paired_that_come_back_from_slots(rt: HostRuntime) -> Result<(), Fail> {
    let shape = texts(rt.alloc())?;
    for (lefts, rights, pairs) in ROWS {
        let slots = slots(rt.alloc(), 1000, 0, &[])?;
        assert!(rt; slots.len() <= 1024);
        let (slots, answer) = in_pool(rt.alloc(), slots, &shape, (lefts, rights));
        assert_eq!(rt; answer, Ok((pairs, 1280)));
        assert_eq!(rt; slots.len(), 1000);
        // Six hundred rows don't fit in twenty blocks.
        assert!(rt; pairs < 90_000 || counted(slots.as_slice()).0 > 0);
    }
    Ok(())
}

#[test]
fn a_join_whose_slot_fails_tells_it_and_the_next_one_goes_well(
    rt: HostRuntime,
) -> Result<(), Fail> {
    let shape = texts(rt.alloc())?;
    // The first call of a slot stores a block, and the second one loads it.
    for fails in [0, 1] {
        let slots = slots(rt.alloc(), 1000, 1, &[fails])?;
        assert!(rt; slots.len() <= 1024);
        let (slots, answer) = in_pool(rt.alloc(), slots, &shape, (&MANY, &MANY));
        let Err(OpErr::Pool(e)) = answer else {
            panic!(rt; "a call that fails is told");
        };
        assert_eq!(rt; kind_of(e), fails);
        assert_eq!(rt; counted(slots.as_slice()).1, 1);
        assert_eq!(rt; slots.len(), 1000);
        assert!(rt; slots.len() <= 1024);
        let (slots, answer) = in_pool(rt.alloc(), slots, &shape, (&MANY, &MANY));
        assert_eq!(rt; answer, Ok((90_000, 1280)));
        assert_eq!(rt; counted(slots.as_slice()).1, 1);
    }
    Ok(())
}

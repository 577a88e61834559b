//! The grouping, over any store: a client comes, which the grouping takes and gives back, and goes.

ghost use Rattle.std.specs.Prelude.{◌≡◌, ℕ, true};
ghost use Rattle.row_codec.specs.Row.{kind_of as kind_in, kinds_of};
ghost use Rattle.store_api.specs.Conditions.{IsIdle, IsLiveClient, IsNewClient};
ghost use Rattle.store_api.specs.Holdings.{Holdings};
ghost use Rattle.store_api.specs.Shapes.{IsShape};
ghost use Rattle.group_op.specs.Operator.{IsFeeding, IsOperator, IsSame};
ghost use Rattle.group_op.specs.Starting.{MayStart};

use crate::having::Having;
use crate::sales::{SALES, sale};
use group_op::{GroupOp, law_starts};
use reservation_tree::PoolErr;
use row_codec::{Kind, Value, encoded_len};
use std::alloc::Global;
use store_api::{Client, OpErr, Shape, Store};

// What the sales of a group come to at least, so that it is kept.
const LEAST: i128 = 1590;

/// The groups of all sales that are asked for.
pub fn grouped<St: Store>(alloc: Global, store: &mut St, shape: &Shape) -> Result<Having, OpErr>
    requires { IsShape shape.now }
    ensures { (St.holds store.new).live_clients ≡ (St.holds store.old).live_clients }
{
    let c = store.add_client(u64::MAX)?;
    let (c, having) = reserved(alloc, store, c, shape);
    store.end_client(c);
    having
}

// The client reserves twenty pages, the least that a grouping starts with. It takes more while the session has more.
fn reserved<St: Store>(
    alloc: Global,
    store: &mut St,
    c: Client,
    shape: &Shape,
) -> (Client, Result<Having, OpErr>)
    requires new { (was : Holdings) × (limit : ℕ) × IsNewClient c limit was (St.holds store.old) }
    requires shape { IsShape shape.now }
    ensures client { IsLiveClient result.0 (St.holds store.new) }
    ensures idle { IsIdle result.0.tracker (St.holds store.new) }
    ensures clients { (St.holds store.new).live_clients ≡ (St.holds store.old).live_clients }
{
    let len = u64::from(store.block_len());
    match store.reserve(&c, 20 * len) {
        Ok(()) => started(alloc, store, c, shape),
        Err(e) => (c, Err(OpErr::Pool(e))),
    }
}

// The grouping has pages of one block. Whatever came of it, its client comes back.
fn started<St: Store>(
    alloc: Global,
    store: &mut St,
    c: Client,
    shape: &Shape,
) -> (Client, Result<Having, OpErr>)
    requires start { MayStart c 1 (St.holds store.old) }
    requires shape { IsShape shape.now }
    ensures client { IsLiveClient result.0 (St.holds store.new) }
    ensures idle { IsIdle result.0.tracker (St.holds store.new) }
    ensures clients { (St.holds store.new).live_clients ≡ (St.holds store.old).live_clients }
{
    law_starts();
    match GroupOp::start(alloc, c, 1, shape) {
        Ok(mut op) => {
            let having = fed_and_finished(alloc, store, &mut op, shape);
            (op.end(store), having)
        }
        Err((c, _)) => (c, Err(OpErr::Pool(PoolErr::Memory))),
    }
}

// All rows go in, and then the groups come out, one row each.
fn fed_and_finished<St: Store>(
    alloc: Global,
    store: &mut St,
    op: &mut GroupOp,
    shape: &Shape,
) -> Result<Having, OpErr>
    requires op { IsOperator op.old (St.holds store.old) (St.signs store.old) }
    requires feeding { IsFeeding op.old }
    requires shape { op.old.shape ≡ shape.now }
    requires block { op.old.parts.page_blocks ≡ 1 }
    ensures op { IsOperator op.new (St.holds store.new) (St.signs store.new) }
    ensures clients { (St.holds store.new).live_clients ≡ (St.holds store.old).live_clients }
{
    for number in 0..SALES {
        let row = sale(alloc, number)?;
        feed_one(alloc, store, op, shape, &row)?;
    }
    let mut having = Having::new(alloc, LEAST);
    op.finish(alloc, store, &mut having)?;
    Ok(having)
}

// A row is fed that has the kinds of the shape, and fits a page with sixteen bytes for each number of its group. Where
// rows come from outside, a caller asks this of each.
fn feed_one<St: Store>(
    alloc: Global,
    store: &mut St,
    op: &mut GroupOp,
    shape: &Shape,
    row: &[Value],
) -> Result<(), OpErr>
    requires op { IsOperator op.old (St.holds store.old) (St.signs store.old) }
    requires feeding { IsFeeding op.old }
    requires shape { op.old.shape ≡ shape.now }
    requires block { op.old.parts.page_blocks ≡ 1 }
    ensures op { IsOperator op.new (St.holds store.new) (St.signs store.new) }
    ensures same { IsSame op.old op.new }
    ensures clients { (St.holds store.new).live_clients ≡ (St.holds store.old).live_clients }
{
    let len = encoded_len(row).saturating_add(16 * shape.aggs.as_slice().len() as u64);
    if len > u64::from(store.block_len()) || !has_kinds(row, shape.kinds.as_slice()) {
        return Err(OpErr::Pool(PoolErr::Memory));
    }
    op.feed(alloc, store, row)
}

fn has_kinds(row: &[Value], kinds: &[Kind]) -> bool
    ensures { result ≡ true → kinds_of row.now ≡ kinds.now }
{
    if row.len() != kinds.len() {
        return false;
    }
    for i in 0..row.len() {
        if kind_of(&row[i]) != kinds[i] {
            return false;
        }
    }
    true
}

fn kind_of(value: &Value) -> Kind
    ensures { result ≡ kind_in value.now }
{
    match value {
        Value::Int(_) => Kind::Int,
        Value::Text(_) => Kind::Text,
        Value::Wide(_) => Kind::Wide,
    }
}

//! The rows of one side meet those of the other one that are held.
ghost use Rattle.std.specs.Prelude.{◌≡◌, ◌∷◌, [], All, IfOk, OnOk, false, true};
ghost use Rattle.store_api.specs.Shapes.{IsJoinShape};
ghost use Rattle.bucket_table.specs.Tables.{HasNode, row_of};
ghost use Rattle.partition_stack.specs.Reading.{IsReadable};
ghost use Rattle.join_op.specs.Chunks.{AreColumns, AreReadable, IsKept, IsResting, ReadBoth, ReadOne, kept_rows};
ghost use Rattle.join_op.specs.PairCalls.{HandsPairs, MayPair};
ghost use Rattle.join_op.specs.StreamCalls.{HandsOne, HandsTwo, MayEmit};
ghost use Rattle.join_op.specs.Holding.{AreStored, HoldsOf, IsSameHeld, MayHold, held_rows, held_side, meets, read_side, stored};
ghost use Rattle.join_op.specs.Stored.{left_side, right_side};
ghost use Rattle.join_op.specs.SideCalls.{PinsAgainAt};

use crate::feeding::Spare;
use crate::holding::{Held, hold_next, key_held};
use crate::operator::columns_of;
use crate::pairing::{Pair, emit_pair};
use bucket_table::{BucketTable, spread};
use reservation_tree::PoolErr;
use row_codec::{Kind, Memory, hash64};
use row_reading::key_into;
use std::alloc::Global;
use store_api::{Client, Emit, JoinShape, OpErr, Store};
use tuple_stream::{At, Stream};

// The kinds of the side that is read.
fn read_kinds(shape: &JoinShape, turned: bool) -> &[Kind]
    ensures { result.now ≡ (read_side turned shape.now).kinds }
{
    if turned {
        return shape.right.as_slice();
    }
    shape.left.as_slice()
}

// The columns that are to be equal, those of the side that is read and those of the side that is held.
fn columns_by(
    alloc: Global,
    shape: &JoinShape,
    turned: bool,
) -> Result<(Vec<usize>, Vec<usize>), Memory>
    requires { IsJoinShape shape.now }
    ensures read { IfOk result (λ columns. AreColumns (read_side turned shape.now) columns.0.items) }
    ensures held { IfOk result (λ columns. AreColumns (held_side turned shape.now) columns.1.items) }
{
    let (left, right) = columns_of(alloc, shape.on.as_slice())?;
    if turned {
        return Ok((right, left));
    }
    Ok((left, right))
}

// Hands the pairs of two streams' rows on, in any order. As many rows of the second one are held at a time as there is room
// for; the first one is read as often as it takes, and the rows of both stay.
pub(crate) fn join_held<St: Store, E: Emit<St>>(
    alloc: Global,
    store: &mut St,
    c: &Client,
    reads: &mut Stream,
    builds: &mut Stream,
    shape: &JoinShape,
    turned: bool,
    held: &mut Held,
    emit: &mut E,
) -> Result<(), OpErr>
    requires streams { AreReadable c.now reads.old builds.old (St.holds store.old) }
    requires shape { IsJoinShape shape.now }
    requires may { MayHold held.old }
    requires emits { MayEmit St.Store E.Emit c.now.tracker shape.now emit.old store.old }
    ensures hands { HandsTwo St.Store E.Emit turned shape.now reads.old reads.new builds.old builds.new emit.old emit.new store.old store.new result }
    ensures first { OnOk result (IsResting builds.old → PinsAgainAt St.Store store.old store.new) }
    ensures streams { ReadBoth c.now.tracker (E.client emit.old) reads.old reads.new builds.old builds.new (St.holds store.old) (St.holds store.new) }
    ensures held { IsSameHeld held.old held.new }
{
    let Ok((read_columns, held_columns)) = columns_by(alloc, shape, turned) else {
        return Err(OpErr::Pool(PoolErr::Memory));
    };
    let mut spare = Spare::new(alloc);
    let mut back = Spare::new(alloc);
    let mut pair = Pair::new(alloc);
    let mut place = At::first();
    let mut waiting = builds.rows();
    'rounds: while waiting > 0 {
        hold_next(
            alloc,
            store,
            c,
            builds,
            shape,
            turned,
            &held_columns,
            &mut place,
            held,
            &mut back,
        )?;
        join_chunk(
            alloc,
            store,
            c,
            reads,
            shape,
            turned,
            &read_columns,
            &held_columns,
            held,
            &mut spare,
            &mut back,
            &mut pair,
            emit,
        )?;
        waiting = waiting.saturating_sub(held.count() as u64);
    }
    Ok(())
}

// Hands the pairs of all rows of a stream with those that are held on.
fn join_chunk<St: Store, E: Emit<St>>(
    alloc: Global,
    store: &mut St,
    c: &Client,
    reads: &mut Stream,
    shape: &JoinShape,
    turned: bool,
    columns: &[usize],
    held_columns: &[usize],
    held: &Held,
    spare: &mut Spare,
    back: &mut Spare,
    pair: &mut Pair,
    emit: &mut E,
) -> Result<(), OpErr>
    requires stream { IsReadable c.now reads.old (St.holds store.old) }
    requires columns { AreColumns (read_side turned shape.now) columns.now × AreColumns (held_side turned shape.now) held_columns.now }
    requires held { HoldsOf (held_side turned shape.now) held.now }
    requires emits { MayEmit St.Store E.Emit c.now.tracker shape.now emit.old store.old }
    ensures hands { HandsOne St.Store E.Emit turned shape.now held.now reads.old reads.new emit.old emit.new store.old store.new result }
    ensures stream { ReadOne c.now.tracker (E.client emit.old) reads.old reads.new (St.holds store.old) (St.holds store.new) }
{
    let mut place = At::first();
    'lefts: while reads.keep_into(store, c, &mut place, &mut spare.row)? {
        let Ok(true) = key_into(
            &spare.row,
            read_kinds(shape, turned),
            columns,
            &mut spare.key,
        ) else {
            return Err(OpErr::Pool(PoolErr::Memory));
        };
        meet(
            alloc,
            store,
            shape,
            turned,
            held_columns,
            spare,
            held,
            back,
            pair,
            emit,
        )?;
    }
    Ok(())
}

// Hands the pairs of a row with those that are held on.
fn meet<St: Store, E: Emit<St>>(
    alloc: Global,
    store: &mut St,
    shape: &JoinShape,
    turned: bool,
    columns: &[usize],
    row: &Spare,
    held: &Held,
    back: &mut Spare,
    pair: &mut Pair,
    emit: &mut E,
) -> Result<(), OpErr>
    requires row { IsKept (read_side turned shape.now) row.now }
    requires columns { AreColumns (held_side turned shape.now) columns.now }
    requires held { HoldsOf (held_side turned shape.now) held.now }
    requires may { MayPair St.Store E.Emit shape.now emit.old store.old }
    ensures { HandsPairs St.Store E.Emit (meets turned shape.now row.now (held_rows held.now)) emit.old emit.new store.old store.new result }
{
    match &held.table {
        Some(table) => meet_chain(
            alloc, store, shape, turned, columns, row, table, back, pair, emit,
        ),
        None => meet_kept(alloc, store, shape, turned, row, &held.kept, pair, emit),
    }
}

// Hands the pairs of a row with these in memory on.
fn meet_kept<St: Store, E: Emit<St>>(
    alloc: Global,
    store: &mut St,
    shape: &JoinShape,
    turned: bool,
    row: &Spare,
    kept: &[Spare],
    pair: &mut Pair,
    emit: &mut E,
) -> Result<(), OpErr>
    requires row { IsKept (read_side turned shape.now) row.now }
    requires kept { All (IsKept (held_side turned shape.now)) kept.now }
    requires may { MayPair St.Store E.Emit shape.now emit.old store.old }
    ensures { HandsPairs St.Store E.Emit (meets turned shape.now row.now (kept_rows kept.now)) emit.old emit.new store.old store.new result }
{
    for right in kept {
        join_two(alloc, store, shape, turned, row, right, pair, emit)?;
    }
    Ok(())
}

// Hands the pairs of a row with those of a table on, which stand on the chain of its key's spread hash.
fn meet_chain<St: Store, E: Emit<St>>(
    alloc: Global,
    store: &mut St,
    shape: &JoinShape,
    turned: bool,
    columns: &[usize],
    row: &Spare,
    table: &BucketTable,
    back: &mut Spare,
    pair: &mut Pair,
    emit: &mut E,
) -> Result<(), OpErr>
    requires row { IsKept (read_side turned shape.now) row.now }
    requires columns { AreColumns (held_side turned shape.now) columns.now }
    requires table { AreStored (held_side turned shape.now) table.now.heads table.now.nodes }
    requires may { MayPair St.Store E.Emit shape.now emit.old store.old }
    ensures { HandsPairs St.Store E.Emit (meets turned shape.now row.now (stored table.now.nodes)) emit.old emit.new store.old store.new result }
{
    let mut next = table.find_first(spread(hash64(&row.key)));
    'chain: while let Some(node) = next {
        let Ok(()) = read_back(shape, turned, columns, table, node, back) else {
            return Err(OpErr::Pool(PoolErr::Memory));
        };
        join_two(alloc, store, shape, turned, row, back, pair, emit)?;
        next = table.find_next(node);
    }
    Ok(())
}

// Reads the row of a node, and its key.
fn read_back(
    shape: &JoinShape,
    turned: bool,
    columns: &[usize],
    table: &BucketTable,
    node: u32,
    back: &mut Spare,
) -> Result<(), Memory>
    requires columns { AreColumns (held_side turned shape.now) columns.now }
    requires node { HasNode node table.now.nodes }
    ensures kept { OnOk result (IsKept (held_side turned shape.now) back.new) }
    ensures row { OnOk result (back.new.row.items ≡ row_of node table.now.nodes) }
{
    let Ok(()) = table.row_at(node, &mut back.row) else {
        return Err(Memory);
    };
    key_held(shape, turned, columns, back)
}

// Hands the pair of a row that is read and one that is held on, where they have one key.
fn join_two<St: Store, E: Emit<St>>(
    alloc: Global,
    store: &mut St,
    shape: &JoinShape,
    turned: bool,
    row: &Spare,
    other: &Spare,
    pair: &mut Pair,
    emit: &mut E,
) -> Result<(), OpErr>
    requires row { IsKept (read_side turned shape.now) row.now }
    requires other { IsKept (held_side turned shape.now) other.now }
    requires may { MayPair St.Store E.Emit shape.now emit.old store.old }
    ensures { HandsPairs St.Store E.Emit (meets turned shape.now row.now (other.now.row.items ∷ [])) emit.old emit.new store.old store.new result }
{
    if turned {
        return join_one(alloc, store, shape, other, row, pair, emit);
    }
    join_one(alloc, store, shape, row, other, pair, emit)
}

// Hands the pair of a left and a right row on, where they have one key.
fn join_one<St: Store, E: Emit<St>>(
    alloc: Global,
    store: &mut St,
    shape: &JoinShape,
    left: &Spare,
    right: &Spare,
    pair: &mut Pair,
    emit: &mut E,
) -> Result<(), OpErr>
    requires left { IsKept (left_side shape.now) left.now }
    requires right { IsKept (right_side shape.now) right.now }
    requires may { MayPair St.Store E.Emit shape.now emit.old store.old }
    ensures { HandsPairs St.Store E.Emit (meets false shape.now left.now (right.now.row.items ∷ [])) emit.old emit.new store.old store.new result }
{
    if left.key.as_slice() != right.key.as_slice() {
        return Ok(());
    }
    emit_pair(alloc, store, shape, &left.row, &right.row, pair, emit)
}

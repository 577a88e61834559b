//! The pairs of two streams of rows. Rows of one stream are held at a time, in a table of the store or in memory.
ghost use Rattle.std.specs.Prelude.{◌≡◌, ◌<◌, IfErr, OnOk, false, true};
ghost use Rattle.store_api.specs.Shapes.{IsJoinShape};
ghost use Rattle.join_op.specs.Chunks.{AreReadable, IsResting, ReadBoth};
ghost use Rattle.join_op.specs.Holding.{IsSameHeld, IsTableAt, MayHold, loans_in};
ghost use Rattle.join_op.specs.StreamCalls.{CameOfTwo, HandsTwo, MayEmit, ReadLent};
ghost use Rattle.join_op.specs.SideCalls.{PinsAgainAt};

use crate::holding::{Held, hold};
use crate::meeting::join_held;
use std::alloc::Global;
use store_api::{Client, Emit, JoinShape, OpErr, Store};
use tuple_stream::Stream;

/// Hands the pairs of two streams' rows on, in any order, and keeps at most `chunk` right rows at a time: the left stream
/// is read as often as there are chunks, and the rows of both stay. Which pages are pinned may have changed.
///
/// # Errors
///
/// `Pool`: the store answered so in this call, or there was no memory, or a page shows no row of its side where one must
/// be. `Sink`: a fault came. In both cases some pairs may have been handed on.
pub fn leaf_by_chunks<St: Store, E: Emit<St>>(
    alloc: Global,
    store: &mut St,
    c: &Client,
    left: &mut Stream,
    right: &mut Stream,
    shape: &JoinShape,
    chunk: u32,
    emit: &mut E,
) -> Result<(), OpErr>
    requires streams { AreReadable c.now left.old right.old (St.holds store.old) }
    requires shape { IsJoinShape shape.now }
    requires some { 0 < chunk }
    requires emits { MayEmit St.Store E.Emit c.now.tracker shape.now emit.old store.old }
    ensures hands { HandsTwo St.Store E.Emit false shape.now left.old left.new right.old right.new emit.old emit.new store.old store.new result }
    ensures cause { IfErr result (CameOfTwo St.Store E.Emit left.old right.old emit.old emit.new store.old store.new) }
    ensures streams { ReadBoth c.now.tracker (E.client emit.old) left.old left.new right.old right.new (St.holds store.old) (St.holds store.new) }
{
    let held = Held::few(alloc, chunk);
    join_pair(alloc, store, c, left, right, shape, false, held, emit)
}

// The same through a table of the store, which has the rows of the stream with fewer pages, where the client may charge so
// much; else by chunks.
pub(crate) fn leaf_by_table<St: Store, E: Emit<St>>(
    alloc: Global,
    store: &mut St,
    c: &Client,
    left: &mut Stream,
    right: &mut Stream,
    shape: &JoinShape,
    blocks: u32,
    emit: &mut E,
) -> Result<(), OpErr>
    requires streams { AreReadable c.now left.old right.old (St.holds store.old) }
    requires shape { IsJoinShape shape.now }
    requires blocks { blocks ≡ left.old.page_blocks }
    requires emits { MayEmit St.Store E.Emit c.now.tracker shape.now emit.old store.old }
    ensures hands { HandsTwo St.Store E.Emit false shape.now left.old left.new right.old right.new emit.old emit.new store.old store.new result }
    ensures first { OnOk result (IsResting left.old → IsResting right.old → PinsAgainAt St.Store store.old store.new) }
    ensures streams { ReadBoth c.now.tracker (E.client emit.old) left.old left.new right.old right.new (St.holds store.old) (St.holds store.new) }
{
    let turned = left.pages() < right.pages();
    let (pages, rows) = if turned {
        (left.pages(), left.rows())
    } else {
        (right.pages(), right.rows())
    };
    let held = hold(alloc, store, c, blocks, pages, rows);
    join_pair(alloc, store, c, left, right, shape, turned, held, emit)
}

// The same with what is held, which goes then. What became of the store is told over what it held before the table was lent.
fn join_pair<St: Store, E: Emit<St>>(
    alloc: Global,
    store: &mut St,
    c: &Client,
    left: &mut Stream,
    right: &mut Stream,
    shape: &JoinShape,
    turned: bool,
    held: Held,
    emit: &mut E,
) -> Result<(), OpErr>
    requires streams { AreReadable c.now left.old right.old (St.holds store.old) }
    requires shape { IsJoinShape shape.now }
    requires may { MayHold held }
    requires table { IsTableAt c.now.tracker held.table (St.holds store.old) }
    requires emits { MayEmit St.Store E.Emit c.now.tracker shape.now emit.old store.old }
    ensures hands { HandsTwo St.Store E.Emit false shape.now left.old left.new right.old right.new emit.old emit.new store.old store.new result }
    ensures first { OnOk result (IsResting left.old → IsResting right.old → PinsAgainAt St.Store store.old store.new) }
    ensures streams { ReadLent c.now (loans_in held.table) (E.client emit.old) left.old left.new right.old right.new (St.holds store.old) (St.holds store.new) }
{
    let mut held = held;
    let result = join_streams(alloc, store, c, left, right, shape, turned, &mut held, emit);
    held.give(store);
    result
}

// The same while what is held stays. A join that is turned holds rows of the left stream.
fn join_streams<St: Store, E: Emit<St>>(
    alloc: Global,
    store: &mut St,
    c: &Client,
    left: &mut Stream,
    right: &mut Stream,
    shape: &JoinShape,
    turned: bool,
    held: &mut Held,
    emit: &mut E,
) -> Result<(), OpErr>
    requires streams { AreReadable c.now left.old right.old (St.holds store.old) }
    requires shape { IsJoinShape shape.now }
    requires may { MayHold held.old }
    requires emits { MayEmit St.Store E.Emit c.now.tracker shape.now emit.old store.old }
    ensures hands { HandsTwo St.Store E.Emit false shape.now left.old left.new right.old right.new emit.old emit.new store.old store.new result }
    ensures first { OnOk result (IsResting left.old → IsResting right.old → PinsAgainAt St.Store store.old store.new) }
    ensures streams { ReadBoth c.now.tracker (E.client emit.old) left.old left.new right.old right.new (St.holds store.old) (St.holds store.new) }
    ensures held { IsSameHeld held.old held.new }
{
    if turned {
        return join_held(alloc, store, c, right, left, shape, true, held, emit);
    }
    join_held(alloc, store, c, left, right, shape, false, held, emit)
}

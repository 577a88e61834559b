//! A table gets more memory, as long as its client may reserve more.
ghost use Rattle.group_op.specs.Held.{AreEntries, IsHeld, page_len, state};
ghost use Rattle.group_op.specs.Putting.{HasGrown};

use crate::hashing::KeyHash;
use bucket_table::BucketTable;
use partition_stack::Partitions;
use row_codec::law_row_back;
use std::alloc::Global;
use store_api::{Client, Shape, Store};

// Reserves more memory for the table: a page, and where its chains are few for its rows, as many chains more. What is refused
// is no error: the table is as it was then.
#[inline(never)]
pub(crate) fn grow<St: Store>(
    alloc: Global,
    store: &mut St,
    c: &Client,
    shape: &Shape,
    table: &mut BucketTable,
    parts: &Partitions,
)
    requires held { IsHeld c.now.tracker (state table.old parts.now (St.holds store.old) (St.signs store.old)) }
    requires entries { AreEntries shape.now (page_len (state table.old parts.now (St.holds store.old) (St.signs store.old))) table.old }
    ensures { HasGrown c.now.tracker shape.now (state table.old parts.now (St.holds store.old) (St.signs store.old)) (state table.new parts.now (St.holds store.new) (St.signs store.new)) }
{
    lengthen(alloc, store, c, shape, table, parts);
    // A page has few rows beside the chains of a page of heads, so one step is enough.
    if table.nodes() as usize > table.heads() / 2 {
        widen(alloc, store, c, shape, table, parts);
    }
}

// Reserves a page more, and gives it to the table.
fn lengthen<St: Store>(
    alloc: Global,
    store: &mut St,
    c: &Client,
    _shape: &Shape,
    table: &mut BucketTable,
    parts: &Partitions,
)
    requires held { IsHeld c.now.tracker (state table.old parts.now (St.holds store.old) (St.signs store.old)) }
    requires entries { AreEntries _shape.now (page_len (state table.old parts.now (St.holds store.old) (St.signs store.old))) table.old }
    ensures { HasGrown c.now.tracker _shape.now (state table.old parts.now (St.holds store.old) (St.signs store.old)) (state table.new parts.now (St.holds store.new) (St.signs store.new)) }
{
    let len = u64::from(parts.page_blocks()) * u64::from(store.block_len());
    if table.room() as u64 + len >= 1 << 32 {
        return;
    }
    if store.reserve(c, len).is_err() {
        return;
    }
    let _grown = table.grow(alloc, store, c);
}

// Reserves as many bytes as the heads of the table have, and gives them to it, so that it has twice the chains.
fn widen<St: Store>(
    alloc: Global,
    store: &mut St,
    c: &Client,
    shape: &Shape,
    table: &mut BucketTable,
    _parts: &Partitions,
)
    requires held { IsHeld c.now.tracker (state table.old _parts.now (St.holds store.old) (St.signs store.old)) }
    requires entries { AreEntries shape.now (page_len (state table.old _parts.now (St.holds store.old) (St.signs store.old))) table.old }
    ensures { HasGrown c.now.tracker shape.now (state table.old _parts.now (St.holds store.old) (St.signs store.old)) (state table.new _parts.now (St.holds store.new) (St.signs store.new)) }
{
    law_row_back();
    let len = table.head_bytes() as u64;
    if len >= 1 << 31 {
        return;
    }
    if store.reserve(c, len).is_err() {
        return;
    }
    let _widened = table.widen(alloc, store, c, &KeyHash { shape });
}

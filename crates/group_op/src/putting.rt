//! A partial row goes into a table.
ghost use Rattle.std.specs.Prelude.{◌≡◌, ◌↔◌, true, false, ℕ, ◌+◌, ◌%◌, ◌<◌, ◌≤◌, ◌∷◌, length, IfNone, IfSome, IfErr, OnErr, OnOk};
ghost use Rattle.row_codec.specs.Order.{hash_of};
ghost use Rattle.store_api.specs.Holdings.{length_of};
ghost use Rattle.store_api.specs.Shapes.{IsShape};
ghost use Rattle.store_api.specs.Signs.{WasAnswered};
ghost use Rattle.tuple_stream.specs.Touches.{IsFull};
ghost use Rattle.bucket_table.specs.Spreading.{spread};
ghost use Rattle.bucket_table.specs.Tables.{HasNode, IsFramed, new_node, row_of, used_by, with_nodes};
ghost use Rattle.group_op.specs.Held.{AreEntries, IsHeld, page_len, state};
ghost use Rattle.group_op.specs.Putting.{AsManyLeft, FewCame, HasGrown, HasPut, HasPutHere, IsCrowded, IsFan, Lacks, Works};
ghost use Rattle.group_op.specs.Stored.{IsPartialRow, key_at};
ghost use Rattle.group_op.specs.Wanting.{StandNoMore};

use crate::flushing::{Fan, Spare, flush, send};
use crate::growing::grow;
use crate::joining::add_numbers;
use bucket_table::{BucketTable, spread};
use partition_stack::Partitions;
use reservation_tree::PoolErr;
use row_codec::law_row_back;
use std::alloc::Global;
use store_api::{Client, Shape, Store};

// The entry of a partial row's key.
#[inline(always)]
fn find(table: &BucketTable, hash: u64, row: &[u8], shape: &Shape) -> Option<u32>
    requires shape { IsShape shape.now }
    requires entries { (len : ℕ) × AreEntries shape.now len table.now }
    requires row { IsPartialRow shape.now row.now }
    requires hash { hash ≡ hash_of (key_at shape.now row.now) }
    ensures node { IfSome result (λ node. HasNode node table.now.nodes) }
    ensures key { IfSome result (λ node. key_at shape.now (row_of node table.now.nodes) ≡ key_at shape.now row.now) }
    ensures none { IfNone result (Lacks shape.now (key_at shape.now row.now) table.now) }
{
    law_row_back();
    let head = row.len() - 16 * shape.aggs.as_slice().len();
    table.find_row(spread(hash), 0, &row[..head])
}

/// Puts a partial row into the table: into the entry of its key, or as a new one. Where there is no room for it, the table
/// grows by a page, if the client may reserve one more. Else the row goes to its partition, or those of the table go to theirs
/// first ([`Reduction`] decides which, and whether the row's entry is looked for). It takes no memory where the table has room.
///
/// `hash` is that of the key's bytes.
///
/// # Errors
///
/// As for [`flush`].
#[inline(always)]
pub fn put<St: Store>(
    alloc: Global,
    store: &mut St,
    c: &Client,
    shape: &Shape,
    table: &mut BucketTable,
    parts: &mut Partitions,
    fan: Fan,
    row: &[u8],
    hash: u64,
    spare: &mut Spare,
) -> Result<(), PoolErr>
    requires held { IsHeld c.now.tracker (state table.old parts.old (St.holds store.old) (St.signs store.old)) }
    requires entries { AreEntries shape.now (page_len (state table.old parts.old (St.holds store.old) (St.signs store.old))) table.old }
    requires fan { IsFan fan.level fan.base fan.from parts.old }
    requires shape { IsShape shape.now }
    requires row { IsPartialRow shape.now row.now }
    requires short { length row.now ≤ page_len (state table.old parts.old (St.holds store.old) (St.signs store.old)) }
    requires hash { hash ≡ hash_of (key_at shape.now row.now) }
    ensures ok { OnOk result (HasPut shape.now fan.level fan.base row.now (state table.old parts.old (St.holds store.old) (St.signs store.old)) (state table.new parts.new (St.holds store.new) (St.signs store.new))) }
    ensures works { Works c.now.tracker shape.now (state table.old parts.old (St.holds store.old) (St.signs store.old)) (state table.new parts.new (St.holds store.new) (St.signs store.new)) }
    ensures few { FewCame (state table.old parts.old (St.holds store.old) (St.signs store.old)) (state table.new parts.new (St.holds store.new) (St.signs store.new)) }
    ensures left { OnOk result (AsManyLeft (state table.old parts.old (St.holds store.old) (St.signs store.old)) (state table.new parts.new (St.holds store.new) (St.signs store.new))) }
    ensures fan { IsFan fan.level fan.base fan.from parts.new }
    ensures stand { OnErr result (StandNoMore (state table.old parts.old (St.holds store.old) (St.signs store.old)) (state table.new parts.new (St.holds store.new) (St.signs store.new))) }
    ensures cause { IfErr result (λ e. WasAnswered e (St.signs store.old) (St.signs store.new)) }
    ensures full { IfErr result (IsFull parts.old.page_blocks (St.holds store.new).free_slots) }
{
    if spare.reduction.bypasses(table.nodes()) && is_crowded(store, table, parts, row.len()) {
        spare.reduction.pass(table.nodes());
        return send(alloc, store, c, shape, parts, fan, row, hash);
    }
    let may_grow = !spare.reduction.is_full();
    if put_here(alloc, store, c, shape, table, parts, row, hash, may_grow) {
        spare.reduction.keep();
        return Ok(());
    }
    if spare.reduction.lets_pass(table.nodes()) {
        spare.reduction.pass(table.nodes());
        return send(alloc, store, c, shape, parts, fan, row, hash);
    }
    flush(alloc, store, c, shape, table, parts, fan, spare)?;
    add_entry(table, hash, row);
    spare.reduction.keep();
    Ok(())
}

// Whether a table has no room for one more row of so many bytes, although it has four pages or more for its rows. Then these are
// longer than two pages by themselves.
fn is_crowded<St: Store>(store: &St, table: &BucketTable, parts: &Partitions, len: usize) -> bool
    ensures { result ≡ true ↔ IsCrowded (length_of parts.now.page_blocks (St.holds store.now)) len table.now }
{
    let page = u64::from(parts.page_blocks()) * u64::from(store.block_len());
    !table.has_room(len) && table.room() as u64 / 4 >= page
}

// Puts a partial row into the table, which grows if it has no room and may: whether there was room then.
#[inline(always)]
pub(crate) fn put_here<St: Store>(
    alloc: Global,
    store: &mut St,
    c: &Client,
    shape: &Shape,
    table: &mut BucketTable,
    parts: &Partitions,
    row: &[u8],
    hash: u64,
    may_grow: bool,
) -> bool
    requires held { IsHeld c.now.tracker (state table.old parts.now (St.holds store.old) (St.signs store.old)) }
    requires entries { AreEntries shape.now (page_len (state table.old parts.now (St.holds store.old) (St.signs store.old))) table.old }
    requires shape { IsShape shape.now }
    requires row { IsPartialRow shape.now row.now }
    requires short { length row.now ≤ page_len (state table.old parts.now (St.holds store.old) (St.signs store.old)) }
    requires hash { hash ≡ hash_of (key_at shape.now row.now) }
    ensures put { result ≡ true → HasPutHere shape.now row.now (state table.old parts.now (St.holds store.old) (St.signs store.old)) (state table.new parts.now (St.holds store.new) (St.signs store.new)) }
    ensures grown { result ≡ false → HasGrown c.now.tracker shape.now (state table.old parts.now (St.holds store.old) (St.signs store.old)) (state table.new parts.now (St.holds store.new) (St.signs store.new)) }
    ensures lacks { result ≡ false → Lacks shape.now (key_at shape.now row.now) table.new }
    ensures full { result ≡ false → table.new.room < used_by table.new.nodes + 4 + length row.now }
    ensures works { Works c.now.tracker shape.now (state table.old parts.now (St.holds store.old) (St.signs store.old)) (state table.new parts.now (St.holds store.new) (St.signs store.new)) }
{
    if let Some(node) = find(table, hash, row, shape) {
        law_row_back();
        add_numbers(table, node, row, shape);
        return true;
    }
    if table.has_room(row.len()) {
        add_entry(table, hash, row);
        return true;
    }
    if !may_grow {
        return false;
    }
    grow(alloc, store, c, shape, table, parts);
    if !table.has_room(row.len()) {
        return false;
    }
    add_entry(table, hash, row);
    true
}

// Adds an entry, for which there is room.
#[inline(never)]
fn add_entry(table: &mut BucketTable, hash: u64, row: &[u8])
    requires row { IsFramed row.now }
    requires room { used_by table.old.nodes + 4 + length row.now ≤ table.old.room }
    ensures { table.new ≡ with_nodes (new_node (spread hash % table.old.heads) row.now table.old.nodes ∷ table.old.nodes) table.old }
{
    let Ok(_node) = table.insert(spread(hash), row) else {
        unreachable!()
    };
}

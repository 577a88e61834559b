//! Rows of one side are held while the other side is read.
ghost use Rattle.std.specs.Prelude.{◌≡◌, ◌<◌, ◌+◌, ◌*◌, ◌^◌, ◌≤◌, ◌++◌, ℕ, ◌∷◌, [], All, IfErr, IfSome, None, OnOk, length, true};
ghost use Rattle.store_api.specs.Conditions.{IsBlockCount, IsLiveClient};
ghost use Rattle.store_api.specs.Holdings.{length_of};
ghost use Rattle.store_api.specs.Signs.{Grows, WasAnswered};
ghost use Rattle.bucket_table.specs.Lending.{Lends};
ghost use Rattle.bucket_table.specs.Tables.{with_nodes};
ghost use Rattle.tuple_stream.specs.Places.{IsWithin};
ghost use Rattle.tuple_stream.specs.Steps.{Reads};
ghost use Rattle.tuple_stream.specs.Touches.{IsFull};
ghost use Rattle.partition_stack.specs.Making.{MakesFew};
ghost use Rattle.partition_stack.specs.Reading.{IsReadable};
ghost use Rattle.join_op.specs.Chunks.{AreColumns, IsKept, kept_rows};
ghost use Rattle.join_op.specs.Holding.{AreStored, HoldsOf, IsSameHeld, IsTableAt, LeavesRoom, MayHold, held_rows, held_side, loans_in, stored};
ghost use Rattle.join_op.specs.SideCalls.{read_at, PinsFirstAt, ReadsMoreAt};

use crate::feeding::Spare;
use bucket_table::{BucketTable, spread};
use reservation_tree::PoolErr;
use row_codec::{Kind, Memory, hash64};
use row_reading::key_into;
use std::alloc::Global;
use std::mem;
use store_api::{Client, JoinShape, Store};
use tuple_stream::{At, Stream};

// So many rows are held in memory where a table has no room for them.
const FEW: u32 = 16;

// Rows of one side: in a table of the store, where there is one, or else in memory.
pub(crate) struct Held {
    pub(crate) table: Option<BucketTable>,
    // Rows beside their keys, and the memory of earlier ones.
    pub(crate) kept: Vec<Spare>,
    pub(crate) unused: Vec<Spare>,
    // So many rows are held in memory at a time, and a table has room for a row of so many bytes.
    pub(crate) most: u32,
    pub(crate) longest: usize,
}

// The kinds of the side of which rows are held.
fn held_kinds(shape: &JoinShape, turned: bool) -> &[Kind]
    ensures { result.now ≡ (held_side turned shape.now).kinds }
{
    if turned {
        return shape.left.as_slice();
    }
    shape.right.as_slice()
}

impl Held {
    // So many rows at a time, in memory.
    pub(crate) fn few(alloc: Global, most: u32) -> Held
        ensures none { result.table ≡ None }
        ensures most { result.most ≡ most }
    {
        Held {
            table: None,
            kept: Vec::new(alloc),
            unused: Vec::new(alloc),
            most,
            longest: 0,
        }
    }

    // How many rows are held.
    pub(crate) fn count(&self) -> usize
        ensures { result ≡ length (held_rows self.now) }
    {
        match &self.table {
            Some(table) => table.nodes() as usize,
            None => self.kept.len(),
        }
    }

    // Frees the loans of the table, where there is one.
    pub(crate) fn give<St: Store>(self, store: &mut St)
        requires { (t : ℕ) × IsTableAt t self.table (St.holds store.old) }
        ensures lends { (t : ℕ) → IsTableAt t self.table (St.holds store.old) → Lends t (loans_in self.table) (St.holds store.new) (St.holds store.old) }
        ensures grows { Grows (St.signs store.old) (St.signs store.new) }
        ensures made { MakesFew 0 (St.signs store.old) (St.signs store.new) }
    {
        let Held {
            table,
            kept: _,
            unused: _,
            most: _,
            longest: _,
        } = self;
        if let Some(table) = table {
            table.close(store);
        }
    }
}

// Room for the rows of a stream whose pages have so many blocks: a table for all of them, if the client may charge so much,
// and else memory of a few rows.
pub(crate) fn hold<St: Store>(
    alloc: Global,
    store: &mut St,
    c: &Client,
    blocks: u32,
    pages: usize,
    rows: u64,
) -> Held
    requires client { IsLiveClient c.now (St.holds store.old) }
    requires blocks { IsBlockCount blocks }
    ensures lends { Lends c.now.tracker (loans_in result.table) (St.holds store.old) (St.holds store.new) }
    ensures table { IsTableAt c.now.tracker result.table (St.holds store.new) }
    ensures may { MayHold result }
    ensures room { LeavesRoom c.now.tracker blocks (St.holds store.old) (St.holds store.new) }
    ensures grows { Grows (St.signs store.old) (St.signs store.new) }
    ensures made { MakesFew 0 (St.signs store.old) (St.signs store.new) }
    ensures first { PinsFirstAt St.Store store.old store.new }
{
    let longest = blocks as usize * store.block_len() as usize;
    let table = table_for(alloc, store, c, blocks, pages, rows);
    Held {
        table,
        kept: Vec::new(alloc),
        unused: Vec::new(alloc),
        most: FEW,
        longest,
    }
}

// How many buffers of heads and of nodes a table has that has room for so many rows on so many pages of `len` bytes, where
// these and two pages are no more than `bytes`. Each row takes four bytes more than on its page, and behind the last one
// there may be room for one more.
pub(crate) fn buffers_in(len: u64, pages: usize, rows: u64, bytes: u64) -> Option<(u32, u32)>
    ensures heads { IfSome result (λ bufs. (0 < bufs.0) × (bufs.0 * len ≤ 2 ^ 28)) }
    ensures nodes { IfSome result (λ bufs. (2 ≤ bufs.1) × (bufs.1 * len ≤ 2 ^ 28)) }
    ensures fits { IfSome result (λ bufs. (bufs.0 + bufs.1 + 2) * len ≤ bytes) }
{
    if len == 0 {
        return None;
    }
    let bufs = (rows.saturating_mul(4) / len)
        .saturating_add(pages as u64)
        .saturating_add(2);
    if bufs.saturating_mul(len) > 1 << 28 {
        return None;
    }
    let heads = bufs / 4 + 1;
    if (heads + bufs + 2) * len > bytes {
        return None;
    }
    Some((heads as u32, bufs as u32))
}

// Such a table, if the client may charge so much.
fn table_for<St: Store>(
    alloc: Global,
    store: &mut St,
    c: &Client,
    blocks: u32,
    pages: usize,
    rows: u64,
) -> Option<BucketTable>
    requires client { IsLiveClient c.now (St.holds store.old) }
    requires blocks { IsBlockCount blocks }
    ensures lends { Lends c.now.tracker (loans_in result) (St.holds store.old) (St.holds store.new) }
    ensures table { IsTableAt c.now.tracker result (St.holds store.new) }
    ensures some { IfSome result (λ table. 4 + length_of blocks (St.holds store.old) ≤ table.room) }
    ensures room { LeavesRoom c.now.tracker blocks (St.holds store.old) (St.holds store.new) }
    ensures grows { Grows (St.signs store.old) (St.signs store.new) }
    ensures made { MakesFew 0 (St.signs store.old) (St.signs store.new) }
    ensures first { PinsFirstAt St.Store store.old store.new }
{
    let len = u64::from(blocks) * u64::from(store.block_len());
    let (heads, nodes) = buffers_in(len, pages, rows, store.unused(c))?;
    BucketTable::open_wide(alloc, store, c, blocks, heads, nodes).ok()
}

// Holds the next rows: as many as there is room for, or all that are left.
pub(crate) fn hold_next<St: Store>(
    alloc: Global,
    store: &mut St,
    c: &Client,
    builds: &mut Stream,
    shape: &JoinShape,
    turned: bool,
    columns: &[usize],
    place: &mut At,
    held: &mut Held,
    spare: &mut Spare,
) -> Result<(), PoolErr>
    requires stream { IsReadable c.now builds.old (St.holds store.old) }
    requires columns { AreColumns (held_side turned shape.now) columns.now }
    requires place { IsWithin place.old builds.old }
    requires may { MayHold held.old }
    ensures each { OnOk result (HoldsOf (held_side turned shape.now) held.new) }
    ensures reads { OnOk result (ReadsMoreAt St.Store (held_rows held.new) place.old place.new builds.old builds.new store.old store.new) }
    ensures last { OnOk result (length (held_rows held.new) ≡ 0 → place.new.row ≡ builds.new.count) }
    ensures held { IsSameHeld held.old held.new }
    ensures went { Reads c.now.tracker (read_at St.Store builds.old store.old) (read_at St.Store builds.new store.new) }
    ensures same { builds.new ≡ record builds.old { pinned = builds.new.pinned } }
    ensures cause { IfErr result (λ e. WasAnswered e (St.signs store.old) (St.signs store.new)) }
    ensures full { IfErr result (IsFull builds.old.page_blocks (St.holds store.new).free_slots) }
{
    match &mut held.table {
        Some(table) => fill_table(
            store,
            c,
            builds,
            shape,
            turned,
            columns,
            place,
            held.longest,
            table,
            spare,
        ),
        None => {
            // The memory of the rows that were joined is taken again.
            mem::swap(&mut held.kept, &mut held.unused);
            keep_chunk(
                alloc,
                store,
                c,
                builds,
                shape,
                turned,
                columns,
                held.most as usize,
                place,
                &mut held.kept,
                &mut held.unused,
            )
        }
    }
}

// Keeps the next rows beside their keys: as many as a chunk has, or all that are left.
fn keep_chunk<St: Store>(
    alloc: Global,
    store: &mut St,
    c: &Client,
    builds: &mut Stream,
    shape: &JoinShape,
    turned: bool,
    columns: &[usize],
    chunk: usize,
    place: &mut At,
    kept: &mut Vec<Spare>,
    unused: &mut Vec<Spare>,
) -> Result<(), PoolErr>
    requires stream { IsReadable c.now builds.old (St.holds store.old) }
    requires columns { AreColumns (held_side turned shape.now) columns.now }
    requires place { IsWithin place.old builds.old }
    ensures each { OnOk result (All (IsKept (held_side turned shape.now)) kept.new.items) }
    ensures reads { OnOk result (ReadsMoreAt St.Store (kept_rows kept.new.items) place.old place.new builds.old builds.new store.old store.new) }
    ensures last { OnOk result (length kept.new.items < chunk → place.new.row ≡ builds.new.count) }
    ensures went { Reads c.now.tracker (read_at St.Store builds.old store.old) (read_at St.Store builds.new store.new) }
    ensures same { builds.new ≡ record builds.old { pinned = builds.new.pinned } }
    ensures cause { IfErr result (λ e. WasAnswered e (St.signs store.old) (St.signs store.new)) }
    ensures full { IfErr result (IsFull builds.old.page_blocks (St.holds store.new).free_slots) }
{
    kept.clear();
    'more: while kept.len() < chunk {
        let mut spare = match unused.pop() {
            Some(spare) => spare,
            None => Spare::new(alloc),
        };
        if !builds.keep_into(store, c, place, &mut spare.row)? {
            return Ok(());
        }
        let Ok(()) = keep(shape, turned, columns, spare, kept) else {
            return Err(PoolErr::Memory);
        };
    }
    Ok(())
}

// Spells the key of a row, where it is one of the side that is held.
pub(crate) fn key_held(
    shape: &JoinShape,
    turned: bool,
    columns: &[usize],
    spare: &mut Spare,
) -> Result<(), Memory>
    requires columns { AreColumns (held_side turned shape.now) columns.now }
    ensures kept { OnOk result (IsKept (held_side turned shape.now) spare.new) }
    ensures row { spare.new.row.items ≡ spare.old.row.items }
{
    let Ok(true) = key_into(
        &spare.row,
        held_kinds(shape, turned),
        columns,
        &mut spare.key,
    ) else {
        return Err(Memory);
    };
    Ok(())
}

// Keeps a row of the side that is held, where it is one, beside its key.
fn keep(
    shape: &JoinShape,
    turned: bool,
    columns: &[usize],
    mut spare: Spare,
    kept: &mut Vec<Spare>,
) -> Result<(), Memory>
    requires columns { AreColumns (held_side turned shape.now) columns.now }
    ensures each { OnOk result (All (IsKept (held_side turned shape.now)) kept.old.items → All (IsKept (held_side turned shape.now)) kept.new.items) }
    ensures rows { OnOk result (kept_rows kept.new.items ≡ kept_rows kept.old.items ++ spare.row.items ∷ []) }
{
    key_held(shape, turned, columns, &mut spare)?;
    kept.push(spare)?;
    Ok(())
}

// Fills a table with the next rows: as many as it has room for, or all that are left.
fn fill_table<St: Store>(
    store: &mut St,
    c: &Client,
    builds: &mut Stream,
    shape: &JoinShape,
    turned: bool,
    columns: &[usize],
    place: &mut At,
    longest: usize,
    table: &mut BucketTable,
    spare: &mut Spare,
) -> Result<(), PoolErr>
    requires stream { IsReadable c.now builds.old (St.holds store.old) }
    requires columns { AreColumns (held_side turned shape.now) columns.now }
    requires place { IsWithin place.old builds.old }
    requires room { 4 + longest ≤ table.old.room }
    ensures each { AreStored (held_side turned shape.now) table.new.heads table.new.nodes }
    ensures reads { OnOk result (ReadsMoreAt St.Store (stored table.new.nodes) place.old place.new builds.old builds.new store.old store.new) }
    ensures last { OnOk result (length (stored table.new.nodes) ≡ 0 → place.new.row ≡ builds.new.count) }
    ensures table { table.new ≡ with_nodes table.new.nodes table.old }
    ensures went { Reads c.now.tracker (read_at St.Store builds.old store.old) (read_at St.Store builds.new store.new) }
    ensures same { builds.new ≡ record builds.old { pinned = builds.new.pinned } }
    ensures cause { IfErr result (λ e. WasAnswered e (St.signs store.old) (St.signs store.new)) }
    ensures full { IfErr result (IsFull builds.old.page_blocks (St.holds store.new).free_slots) }
{
    table.clear();
    'more: while table.has_room(longest) {
        if !builds.keep_into(store, c, place, &mut spare.row)? {
            return Ok(());
        }
        let Ok(()) = put(shape, turned, columns, spare, table) else {
            return Err(PoolErr::Memory);
        };
    }
    Ok(())
}

// Puts a row of the side that is held, where it is one and no longer than there is room, on the chain of its key's spread hash.
fn put(
    shape: &JoinShape,
    turned: bool,
    columns: &[usize],
    spare: &mut Spare,
    table: &mut BucketTable,
) -> Result<(), Memory>
    requires columns { AreColumns (held_side turned shape.now) columns.now }
    requires each { AreStored (held_side turned shape.now) table.old.heads table.old.nodes }
    ensures each { AreStored (held_side turned shape.now) table.new.heads table.new.nodes }
    ensures rows { OnOk result (stored table.new.nodes ≡ stored table.old.nodes ++ spare.old.row.items ∷ []) }
    ensures table { table.new ≡ with_nodes table.new.nodes table.old }
{
    key_held(shape, turned, columns, spare)?;
    let Ok(_node) = table.insert(spread(hash64(&spare.key)), &spare.row) else {
        return Err(Memory);
    };
    Ok(())
}

//! The rows of the top partition go through the table.
ghost use Rattle.std.specs.Prelude.{◌≡◌, ◌+◌, ◌<◌, ◌≤◌, ◌++◌, ◌∷◌, ℕ, List, [], Some, true, IfErr, IfOk, OnErr, OnOk, length, slice_get};
ghost use Rattle.reservation_tree.specs.declared.errors.PoolErr.TheVariants as refusal;
ghost use Rattle.row_codec.specs.Order.{hash_of};
ghost use Rattle.store_api.specs.Holdings.{length_of};
ghost use Rattle.store_api.specs.Shapes.{IsShape};
ghost use Rattle.store_api.specs.Signs.{WasAnswered};
ghost use Rattle.tuple_stream.specs.Streamed.{Streamed};
ghost use Rattle.tuple_stream.specs.Touches.{IsFull};
ghost use Rattle.tuple_stream.specs.Trails.{EnteredEvents};
ghost use Rattle.tuple_stream.specs.FamilyCalls.{shares};
ghost use Rattle.partition_stack.specs.Stack.{IsPlaced, Stack};
ghost use Rattle.group_op.specs.Finishing.{HasRead, IsBetween, IsRead, Serves, Stacked};
ghost use Rattle.group_op.specs.Held.{AreEntries, IsHeld, page_len, rows_of, state};
ghost use Rattle.group_op.specs.Making.{MakesFew, MakesLess};
ghost use Rattle.group_op.specs.Pinning.{HasBegun};
ghost use Rattle.group_op.specs.Stored.{IsPartialRow, key_at};
ghost use Rattle.group_op.specs.Wanting.{ShowNoMore};

use crate::flushing::{Fan, Spare};
use crate::hashing::hash_of_partial;
use crate::putting::{put, put_here};
use bucket_table::BucketTable;
use partition_stack::Partitions;
use reservation_tree::PoolErr;
use std::alloc::Global;
use store_api::{Client, Shape, Store};

// Spends the top partition, at this place and of this level, into the table, and into sixteen partitions above it once the
// table is full and can't grow: whether it was divided so.
pub(crate) fn absorb<St: Store>(
    alloc: Global,
    store: &mut St,
    c: &Client,
    shape: &Shape,
    table: &mut BucketTable,
    parts: &mut Partitions,
    at: usize,
    level: u32,
    fed: &mut Spare,
    moved: &mut Spare,
) -> Result<bool, PoolErr>
    requires held { IsHeld c.now.tracker (state table.old parts.old (St.holds store.old) (St.signs store.old)) }
    requires entries { AreEntries shape.now (page_len (state table.old parts.old (St.holds store.old) (St.signs store.old))) table.old }
    requires shape { IsShape shape.now }
    requires between { IsBetween (state table.old parts.old (St.holds store.old) (St.signs store.old)) }
    requires top { length parts.old.streams ≡ at + 1 }
    requires level { slice_get parts.old.levels at ≡ Some level }
    requires deep { (level < 16) × IsPlaced at level }
    ensures rows { IfOk result (λ divided. (rows : ℕ → List (List ℕ)) → Stacked shape.now rows (state table.old parts.old (St.holds store.old) (St.signs store.old)) → HasRead shape.now at level divided rows (rows at) [] (state table.new parts.new (St.holds store.new) (St.signs store.new))) }
    ensures read { IfOk result (λ divided. IsRead divided at level parts.old parts.new) }
    ensures first { IfOk result (λ divided. EnteredEvents (HasBegun divided (state table.new parts.new (St.holds store.new) (St.signs store.new))) (St.signs store.old).trail (St.signs store.new).trail) }
    ensures serves { Serves c.now.tracker shape.now (state table.old parts.old (St.holds store.old) (St.signs store.old)) (state table.new parts.new (St.holds store.new) (St.signs store.new)) }
    ensures stand { OnErr result ((rows : ℕ → List (List ℕ)) → Stacked shape.now rows (state table.old parts.old (St.holds store.old) (St.signs store.old)) → ShowNoMore (shares (at + 1) rows) (state table.new parts.new (St.holds store.new) (St.signs store.new))) }
    ensures made { (s : Streamed) → slice_get parts.old.streams at ≡ Some s → MakesFew s.count (St.signs store.old) (St.signs store.new) }
    ensures less { OnOk result ((s : Streamed) → slice_get parts.old.streams at ≡ Some s → MakesLess s.count table.new (St.signs store.old) (St.signs store.new)) }
    ensures cause { IfErr result (λ e. WasAnswered e (St.signs store.old) (St.signs store.new)) }
    ensures full { IfErr result (IsFull parts.old.page_blocks (St.holds store.new).free_slots) }
{
    let mut divided = false;
    let mut left = parts.rows(at);
    while left > 0 {
        if !parts.spend(store, c, at, &mut fed.row)? {
            return Ok(divided);
        }
        divided = take_in(
            alloc, store, c, shape, table, parts, at, level, divided, fed, moved,
        )?;
        left -= 1;
    }
    Ok(divided)
}

// Puts a row of the top partition into the table, or divides the partition: whether it is divided from then on. A row that is
// no partial row, as a page may show that doesn't tell what it held, is answered by `Memory`.
fn take_in<St: Store>(
    alloc: Global,
    store: &mut St,
    c: &Client,
    shape: &Shape,
    table: &mut BucketTable,
    parts: &mut Partitions,
    at: usize,
    level: u32,
    divided: bool,
    fed: &mut Spare,
    moved: &mut Spare,
) -> Result<bool, PoolErr>
    requires held { IsHeld c.now.tracker (state table.old parts.old (St.holds store.old) (St.signs store.old)) }
    requires entries { AreEntries shape.now (page_len (state table.old parts.old (St.holds store.old) (St.signs store.old))) table.old }
    requires shape { IsShape shape.now }
    requires deep { (level < 16) × IsPlaced at level }
    requires read { (was : Stack) × (slice_get was.levels at ≡ Some level) × IsRead divided at level was parts.old }
    ensures rows { IfOk result (λ now. (rows : ℕ → List (List ℕ)) → (some : List (List ℕ)) → (rest : List (List ℕ)) → (St.holds store.old).told ≡ true → HasRead shape.now at level divided rows some rest (state table.old parts.old (St.holds store.old) (St.signs store.old)) → HasRead shape.now at level now rows (some ++ fed.old.row.items ∷ []) rest (state table.new parts.new (St.holds store.new) (St.signs store.new))) }
    ensures read { IfOk result (λ now. (was : Stack) → IsRead divided at level was parts.old → IsRead now at level was parts.new) }
    ensures serves { Serves c.now.tracker shape.now (state table.old parts.old (St.holds store.old) (St.signs store.old)) (state table.new parts.new (St.holds store.new) (St.signs store.new)) }
    ensures stand { OnErr result ((rows : ℕ → List (List ℕ)) → (some : List (List ℕ)) → (rest : List (List ℕ)) → (St.holds store.old).told ≡ true → HasRead shape.now at level divided rows some rest (state table.old parts.old (St.holds store.old) (St.signs store.old)) → ShowNoMore (shares at rows ++ (some ++ rest)) (state table.new parts.new (St.holds store.new) (St.signs store.new))) }
    ensures made { OnErr result (MakesFew (length (rows_of table.old)) (St.signs store.old) (St.signs store.new)) }
    ensures less { OnOk result (MakesLess (length (rows_of table.old) + 1) table.new (St.signs store.old) (St.signs store.new)) }
    ensures cause { IfErr result (λ e. WasAnswered e (St.signs store.old) (St.signs store.new)) }
    ensures full { IfErr result (IsFull parts.old.page_blocks (St.holds store.new).free_slots) }
{
    let hash = key_of(store, shape, parts, fed)?;
    let fan = Fan {
        level,
        base: at + 1,
        from: at,
    };
    if divided {
        put(
            alloc, store, c, shape, table, parts, fan, &fed.row, hash, moved,
        )?;
        return Ok(true);
    }
    if put_here(alloc, store, c, shape, table, parts, &fed.row, hash, true) {
        return Ok(false);
    }
    parts.law_stack();
    if parts.divide(alloc, at, level).is_err() {
        return Err(PoolErr::Memory);
    }
    put(
        alloc, store, c, shape, table, parts, fan, &fed.row, hash, moved,
    )?;
    Ok(true)
}

// The hash of the key of a row that was read, which is a partial row that fits a page.
fn key_of<St: Store>(
    store: &St,
    shape: &Shape,
    parts: &Partitions,
    fed: &Spare,
) -> Result<u64, PoolErr>
    ensures formed { OnOk result (IsPartialRow shape.now fed.now.row.items) }
    ensures short { OnOk result (length fed.now.row.items ≤ length_of parts.now.page_blocks (St.holds store.now)) }
    ensures hash { IfOk result (λ hash. hash ≡ hash_of (key_at shape.now fed.now.row.items)) }
    ensures cause { IfErr result (λ e. e ≡ refusal.Memory) }
{
    let len = u64::from(parts.page_blocks()) * u64::from(store.block_len());
    if fed.row.len() as u64 > len {
        return Err(PoolErr::Memory);
    }
    match hash_of_partial(&fed.row, shape) {
        Some(hash) => Ok(hash),
        None => Err(PoolErr::Memory),
    }
}

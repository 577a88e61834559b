//! The top partition of one side is divided while the other side rests.
ghost use Rattle.std.specs.Prelude.{◌≡◌, ◌+◌, ◌<◌, All, Some, IfErr, OnErr, OnOk, length, slice_get, true, map};
ghost use Rattle.row_reading.specs.Reading.{IsKeyColumn};
ghost use Rattle.tuple_stream.specs.Families.{AllClosed};
ghost use Rattle.tuple_stream.specs.FamilyCalls.{AllWhole};
ghost use Rattle.tuple_stream.specs.Streamed.{Streamed};
ghost use Rattle.partition_stack.specs.Making.{MakesFew};
ghost use Rattle.join_op.specs.Beside.{MayCall};
ghost use Rattle.join_op.specs.Dividing.{IsDivided, IsFan, WholeBut, side_of};
ghost use Rattle.join_op.specs.Joining.{HasRowsAt};
ghost use Rattle.join_op.specs.SideCalls.{SendsAt, side_at, CallsBesideAt, HasCalledAt, WasRefused, PinsAgainAt, StaysShown, DealsNewAt, DealsAllAt, DealsPartAt, HasFewAt, StaysWhole};

use crate::feeding::Spare;
use partition_stack::{Partitions, law_scratch};
use reservation_tree::PoolErr;
use row_codec::{Kind, hash64, nibble};
use row_reading::key_into;
use std::alloc::Global;
use store_api::{Client, Store};
use tuple_stream::law_few_pages;

// Appends the row in the spare memory to its partition, of the sixteen above a place. A row of other kinds, as a page may show
// that doesn't tell what it held, is answered by `Memory`.
fn send<St: Store>(
    alloc: Global,
    store: &mut St,
    c: &Client,
    parts: &mut Partitions,
    _other: &Partitions,
    kinds: &[Kind],
    columns: &[usize],
    at: usize,
    level: u32,
    spare: &mut Spare,
) -> Result<(), PoolErr>
    requires may { MayCall c.now parts.old _other.now (St.holds store.old) (St.signs store.old) }
    requires fan { IsFan level at parts.old }
    requires columns { All (IsKeyColumn kinds.now) columns.now }
    ensures went { OnOk result (SendsAt St.Store c.now.tracker (side_of kinds.now columns.now) level at spare.old.row.items parts.old parts.new store.old store.new) }
    ensures fan { IsFan level at parts.new }
    ensures beside { CallsBesideAt St.Store c.now.tracker parts.old parts.new _other.now store.old store.new }
    ensures made { MakesFew 1 (St.signs store.old) (St.signs store.new) }
    ensures spent { map (λ s. s.spent) parts.new.streams ≡ map (λ s. s.spent) parts.old.streams }
    ensures stays { OnErr result (StaysShown St.Store parts.old parts.new store.old store.new) }
    ensures answers { IfErr result (WasRefused St.Store parts.old.page_blocks store.old store.new) }
{
    let len = u64::from(parts.page_blocks()) * u64::from(store.block_len());
    if spare.row.len() as u64 > len {
        return Err(PoolErr::Memory);
    }
    let Ok(true) = key_into(&spare.row, kinds, columns, &mut spare.key) else {
        return Err(PoolErr::Memory);
    };
    let place = at + 1 + (15 - nibble(hash64(&spare.key), level) as usize);
    parts.append(alloc, store, c, place, &spare.row)
}

// Spends the partition at a place into the sixteen above it.
fn spend_side<St: Store>(
    alloc: Global,
    store: &mut St,
    c: &Client,
    parts: &mut Partitions,
    other: &Partitions,
    kinds: &[Kind],
    columns: &[usize],
    at: usize,
    level: u32,
    spare: &mut Spare,
) -> Result<(), PoolErr>
    requires may { MayCall c.now parts.old other.now (St.holds store.old) (St.signs store.old) }
    requires fan { IsFan level at parts.old }
    requires columns { All (IsKeyColumn kinds.now) columns.now }
    requires some { HasRowsAt at parts.old }
    ensures dealt { OnOk result (DealsNewAt St.Store (side_of kinds.now columns.now) level at parts.old parts.new store.old store.new) }
    ensures part { OnErr result (DealsPartAt St.Store (side_of kinds.now columns.now) level at parts.old parts.new store.old store.new) }
    ensures whole { AllWhole (side_at St.Store parts.old store.old) → WholeBut at (side_at St.Store parts.new store.new) }
    ensures first { OnOk result (AllClosed (side_at St.Store parts.old store.old) → PinsAgainAt St.Store store.old store.new) }
    ensures fan { IsFan level at parts.new }
    ensures beside { CallsBesideAt St.Store c.now.tracker parts.old parts.new other.now store.old store.new }
    ensures made { (s : Streamed) → slice_get parts.old.streams at ≡ Some s → MakesFew s.count (St.signs store.old) (St.signs store.new) }
    ensures answers { IfErr result (WasRefused St.Store parts.old.page_blocks store.old store.new) }
{
    let mut left = parts.rows(at);
    while left > 0 {
        if !parts.spend(store, c, at, &mut spare.row)? {
            return Ok(());
        }
        send(
            alloc, store, c, parts, other, kinds, columns, at, level, spare,
        )?;
        left -= 1;
    }
    Ok(())
}

// Divides the top partition, whose rows go to sixteen of the next level above it, and lets all pages rest.
pub(crate) fn divide_side<St: Store>(
    alloc: Global,
    store: &mut St,
    c: &Client,
    parts: &mut Partitions,
    other: &Partitions,
    kinds: &[Kind],
    columns: &[usize],
    at: usize,
    level: u32,
    spare: &mut Spare,
) -> Result<(), PoolErr>
    requires may { MayCall c.now parts.old other.now (St.holds store.old) (St.signs store.old) }
    requires top { length parts.old.streams ≡ at + 1 }
    requires level { slice_get parts.old.levels at ≡ Some level }
    requires deep { level < 16 }
    requires closed { AllClosed (side_at St.Store parts.old store.old) }
    requires alike { other.now.page_blocks ≡ parts.old.page_blocks }
    requires columns { All (IsKeyColumn kinds.now) columns.now }
    requires some { HasRowsAt at parts.old }
    ensures dealt { OnOk result (DealsAllAt St.Store (side_of kinds.now columns.now) level at parts.old parts.new store.old store.new) }
    ensures few { HasFewAt St.Store parts.old parts.new store.old store.new }
    ensures whole { OnOk result (StaysWhole St.Store parts.old parts.new store.old store.new) }
    ensures divided { OnOk result (IsDivided level at parts.old parts.new) }
    ensures closed { OnOk result (AllClosed (side_at St.Store parts.new store.new)) }
    ensures first { OnOk result (PinsAgainAt St.Store store.old store.new) }
    ensures called { HasCalledAt St.Store c.now.tracker parts.old parts.new other.now store.old store.new }
    ensures made { (s : Streamed) → slice_get parts.old.streams at ≡ Some s → MakesFew s.count (St.signs store.old) (St.signs store.new) }
    ensures answers { IfErr result (WasRefused St.Store parts.old.page_blocks store.old store.new) }
{
    parts.law_stack();
    other.law_stack();
    law_few_pages();
    law_scratch();
    let Ok(()) = parts.divide(alloc, at, level) else {
        return Err(PoolErr::Memory);
    };
    parts.law_stack();
    spend_side(
        alloc, store, c, parts, other, kinds, columns, at, level, spare,
    )?;
    parts.rest_from(store, c, at)
}

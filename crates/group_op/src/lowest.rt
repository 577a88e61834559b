//! Partial rows are kept in ascending order of their keys' bytes, the lowest so many.
ghost use Rattle.std.specs.Prelude.{◌≡◌, ◌≢◌, ◌+◌, ◌<◌, ◌≤◌, length, take, map, insert, true, false, All, OnOk};
ghost use Rattle.std.specs.List.{HoldsAt};
ghost use Rattle.std.specs.List.Sorted.{IsStrictlySortedBy};
ghost use Rattle.std.specs.Cmp.Lexicographic.{slice_cmp};
ghost use Rattle.std.specs.Ordering.{nat_cmp};
ghost use Rattle.std.specs.declared.cmp.Ordering.TheVariants.{Greater};
ghost use Rattle.std.specs.Int.{w128, to_be_bytes};
ghost use Rattle.block_arena.specs.Bytes.{written};
ghost use Rattle.store_api.specs.Shapes.{IsShape};
ghost use Rattle.group_rows.specs.Kept.{AreOrdered};
ghost use Rattle.group_rows.specs.Ordered.{put};
ghost use Rattle.group_op.specs.Keepings.{IsKept, kept_in};
ghost use Rattle.group_op.specs.Stored.{IsPartialRow, grouping_of, joined, key_at, partial_at};

use crate::joining::wide_at;
use group_rows::combined;
use row_codec::{Memory, law_row_back};
use std::alloc::Global;
use std::mem;
use store_api::Shape;

/// A partial row beside the bytes of its key.
#[derive(Drop)]
pub(crate) struct Entry {
    pub(crate) key: Vec<u8>,
    pub(crate) row: Vec<u8>,
}

impl Entry {
    // Memory for a row.
    pub(crate) fn new(alloc: Global) -> Entry {
        Entry {
            key: Vec::new(alloc),
            row: Vec::new(alloc),
        }
    }
}

// Spells a number over sixteen bytes of a row.
fn set_wide_at(row: &mut [u8], at: usize, value: u128)
    requires { at + 16 ≤ length row.old }
    ensures { row.new ≡ written at (to_be_bytes w128 value) row.old }
{
    row[at..at + 16].copy_from_slice(&value.to_be_bytes());
}

// Adds the numbers of a partial row to those of another of the same key.
fn join_into(entry: &mut [u8], row: &[u8], shape: &Shape)
    requires shape { IsShape shape.now }
    requires entry { IsPartialRow shape.now entry.old }
    requires row { IsPartialRow shape.now row.now }
    requires key { key_at shape.now entry.old ≡ key_at shape.now row.now }
    ensures { entry.new ≡ joined shape.now entry.old row.now }
{
    law_row_back();
    let aggs = shape.aggs.as_slice();
    let head = row.len() - 16 * aggs.len();
    for k in 0..aggs.len() {
        let at = head + 16 * k;
        let held = wide_at(entry, at).cast_signed();
        let sum = combined(aggs[k], held, wide_at(row, at).cast_signed());
        set_wide_at(entry, at, sum.cast_unsigned());
    }
}

// How many of the entries are below a key.
fn place(entries: &[Entry], key: &[u8]) -> usize
    requires ordered { IsStrictlySortedBy (slice_cmp nat_cmp) (map (λ e. e.key.items) entries.now) }
    ensures inside { result ≤ length entries.now }
    ensures below { All (λ e. slice_cmp nat_cmp key.now e.key.items ≡ Greater) (take result entries.now) }
    ensures next { result < length entries.now → HoldsAt (λ e. slice_cmp nat_cmp key.now e.key.items ≢ Greater) entries.now result }
{
    let mut low = 0;
    let mut high = entries.len();
    while low < high {
        let mid = low + (high - low) / 2;
        if key.cmp(entries[mid].key.as_slice()).is_gt() {
            low = mid + 1;
        } else {
            high = mid;
        }
    }
    low
}

// Takes the spare row in: into the entry of its key, or at its place. Of more than `room` entries the greatest goes, and
// its memory is the spare one's.
pub(crate) fn keep(
    alloc: Global,
    entries: &mut Vec<Entry>,
    spare: &mut Entry,
    unused: &mut Vec<Entry>,
    shape: &Shape,
    room: usize,
) -> Result<(), Memory>
    requires shape { IsShape shape.now }
    requires each { All (IsKept shape.now) entries.old.items }
    requires ordered { AreOrdered (slice_cmp nat_cmp) (kept_in shape.now entries.old.items) }
    requires few { length entries.old.items ≤ room }
    requires row { IsKept shape.now spare.old }
    ensures each { OnOk result (All (IsKept shape.now) entries.new.items) }
    ensures taken { OnOk result (kept_in shape.now entries.new.items ≡ take room (put (slice_cmp nat_cmp) (grouping_of shape.now) (partial_at shape.now spare.old.row.items) (kept_in shape.now entries.old.items))) }
{
    let at = place(entries, &spare.key);
    if has_key(entries, at, &spare.key) {
        law_row_back();
        join_into(&mut entries[at].row, &spare.row, shape);
        return Ok(());
    }
    put_in(alloc, entries, spare, unused, at, room)
}

// Whether the entry at a place, if there is one, has a key.
fn has_key(entries: &[Entry], at: usize, key: &[u8]) -> bool
    ensures inside { result ≡ true → at < length entries.now }
    ensures found { result ≡ true → HoldsAt (λ e. e.key.items ≡ key.now) entries.now at }
    ensures none { result ≡ false → at < length entries.now → HoldsAt (λ e. e.key.items ≢ key.now) entries.now at }
{
    if at < entries.len() {
        entries[at].key.as_slice() == key
    } else {
        false
    }
}

// Puts the spare row at its place among the entries. Of more than `room` the last goes, and its memory is the spare one's;
// else that of an unused entry is, if there is one.
fn put_in(
    alloc: Global,
    entries: &mut Vec<Entry>,
    spare: &mut Entry,
    unused: &mut Vec<Entry>,
    at: usize,
    room: usize,
) -> Result<(), Memory>
    requires inside { at ≤ length entries.old.items }
    requires few { length entries.old.items ≤ room }
    ensures { OnOk result (entries.new.items ≡ take room (insert entries.old.items at spare.old)) }
{
    if entries.len() < room {
        let next = match unused.pop() {
            Some(entry) => entry,
            None => Entry::new(alloc),
        };
        let row = mem::replace(spare, next);
        return add(entries, at, row);
    }
    if at == room {
        return Ok(());
    }
    let Some(last) = entries.pop() else {
        unreachable!()
    };
    let row = mem::replace(spare, last);
    add(entries, at, row)
}

// Puts an entry at its place.
fn add(entries: &mut Vec<Entry>, at: usize, entry: Entry) -> Result<(), Memory>
    requires { at ≤ length entries.old.items }
    ensures { OnOk result (entries.new.items ≡ insert entries.old.items at entry) }
{
    let Ok(()) = entries.insert(at, entry) else {
        return Err(Memory);
    };
    Ok(())
}

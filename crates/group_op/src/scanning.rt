//! The groups of a stream of partial rows, where their table has room for a part of them only.
ghost use Rattle.std.specs.Prelude.{◌≡◌, ◌+◌, ◌*◌, ◌≤◌, ◌<◌, ℕ, List, None, [], ◌∷◌, All, length, true, IfErr, OnOk, OnErr};
ghost use Rattle.std.specs.Cmp.Lexicographic.{slice_cmp};
ghost use Rattle.std.specs.Ordering.{nat_cmp};
ghost use Rattle.row_codec.specs.declared.values.Value.{Value};
ghost use Rattle.store_api.specs.Emitters.{CameOf, HasClient};
ghost use Rattle.store_api.specs.Shapes.{IsShape};
ghost use Rattle.store_api.specs.Signs.{WasAnswered};
ghost use Rattle.tuple_stream.specs.Steps.{Reads, scene};
ghost use Rattle.tuple_stream.specs.Streams.{HasRows};
ghost use Rattle.tuple_stream.specs.Touches.{slots_with};
ghost use Rattle.partition_stack.specs.Slots.{KeepSlots};
ghost use Rattle.group_rows.specs.Kept.{AreOrdered};
ghost use Rattle.group_op.specs.Causes.{CameBeside, IsWant, IsWantBelow, IsWantBelowOf};
ghost use Rattle.group_op.specs.Emission.{AdmitsAll, Emitted, EmittedFront, IsBeside, Says, Stood, WentOn};
ghost use Rattle.group_op.specs.Keepings.{HasKept, IsKept, is_above, kept_in, key_in, taken_in};
ghost use Rattle.group_op.specs.Stored.{IsPartialRow, grouping_of, partial_at, partial_kinds};
ghost use Rattle.group_op.specs.Scanning.{IsReadable, MayShow, ReadWith, StaysEmitter, groups_by_bytes};

use crate::keying::key_of_partial;
use crate::lowest::{Entry, keep};
use crate::reading::Reading;
use crate::stored::kinds_of;
use partition_stack::law_scratch;
use reservation_tree::PoolErr;
use row_codec::{Kind, Memory};
use row_reading::decode_into;
use std::alloc::Global;
use std::mem;
use store_api::{Client, Emit, OpErr, Shape, Store};
use tuple_stream::{At, Stream};

/// Hands the groups of a stream's partial rows on in ascending order of their keys' bytes, and keeps at most `room` of
/// them at a time: the stream is read as often as needed, and its rows stay. Which page is pinned may have changed.
///
/// # Errors
///
/// `Pool`: the store answered so in this call, or there was no memory, or a page shows no partial row where one must be.
/// `Sink`: a fault came. In both cases the first groups may have been handed on.
pub fn leaf_by_scan<St: Store, E: Emit<St>>(
    alloc: Global,
    store: &mut St,
    c: &Client,
    rows: &mut Stream,
    shape: &Shape,
    room: u32,
    emit: &mut E,
) -> Result<(), OpErr>
    requires stream { IsReadable c.now rows.old (St.holds store.old) }
    requires shape { IsShape shape.now }
    requires some { 0 < room }
    requires emitter { IsBeside c.now.tracker (E.client emit.old) (St.holds store.old) }
    requires stands { (taken : List (List Value)) × E.took emit.old (St.holds store.old) taken }
    requires admits { (read : List (List ℕ)) → MayShow rows.old (St.holds store.old) read → AdmitsAll shape.now (E.admits emit.old) (groups_by_bytes shape.now read) }
    ensures ok { OnOk result ((read : List (List ℕ)) → (St.holds store.old).told ≡ true → HasRows read rows.old (St.holds store.old) → Emitted shape.now (E.took emit.old (St.holds store.old)) (E.took emit.new (St.holds store.new)) (groups_by_bytes shape.now read)) }
    ensures err { OnErr result ((read : List (List ℕ)) → (St.holds store.old).told ≡ true → HasRows read rows.old (St.holds store.old) → EmittedFront shape.now (E.took emit.old (St.holds store.old)) (E.took emit.new (St.holds store.new)) (groups_by_bytes shape.now read)) }
    ensures stands { WentOn (E.took emit.old (St.holds store.old)) (E.took emit.new (St.holds store.new)) }
    ensures cause { IfErr result (CameBeside rows.old.page_blocks (slots_with rows.old (St.holds store.old)) (E.client emit.old) (E.faults emit.old) (E.faults emit.new) (St.signs store.old) (St.signs store.new)) }
    ensures enough { E.client emit.old ≡ None → IfErr result (IsWantBelowOf ((length rows.old.pages + 1) * rows.old.page_blocks) (slots_with rows.old (St.holds store.old))) }
    ensures stream { ReadWith c.now.tracker (E.client emit.old) (E.slots emit.old (St.holds store.old)) (E.slots emit.new (St.holds store.new)) rows.old rows.new (St.holds store.old) (St.holds store.new) }
    ensures emitter { StaysEmitter (E.admits emit.old) (E.admits emit.new) (E.client emit.old) (E.client emit.new) (E.faults emit.old) (E.faults emit.new) (E.creates emit.old) (E.creates emit.new) (St.holds store.new) (St.signs store.old) (St.signs store.new) }
{
    let room = room as usize;
    let mut entries = Vec::new(alloc);
    let mut unused = Vec::new(alloc);
    let mut last = None;
    // There are no more groups than rows.
    let mut left = rows.rows();
    while left > 0 {
        // The memory of the entries that were handed on is taken again.
        mem::swap(&mut entries, &mut unused);
        keep_lowest(
            alloc,
            store,
            c,
            rows,
            shape,
            room,
            &last,
            &mut entries,
            &mut unused,
        )?;
        hand_on(alloc, store, shape, &entries, emit)?;
        if entries.len() < room {
            return Ok(());
        }
        left = left.saturating_sub(entries.len() as u64);
        last = entries.pop();
    }
    Ok(())
}

// Keeps the lowest groups above a key, in order: at most `room` of them.
fn keep_lowest<St: Store>(
    alloc: Global,
    store: &mut St,
    c: &Client,
    rows: &mut Stream,
    shape: &Shape,
    room: usize,
    last: &Option<Entry>,
    entries: &mut Vec<Entry>,
    unused: &mut Vec<Entry>,
) -> Result<(), PoolErr>
    requires stream { IsReadable c.now rows.old (St.holds store.old) }
    requires shape { IsShape shape.now }
    ensures kept { OnOk result (HasKept shape.now room (key_in last.now) entries.new.items rows.old (St.holds store.old)) }
    ensures went { Reads c.now.tracker (scene rows.old (St.holds store.old) (St.signs store.old)) (scene rows.new (St.holds store.new) (St.signs store.new)) }
    ensures same { rows.new ≡ record rows.old { pinned = rows.new.pinned } }
    ensures cause { IfErr result (λ e. WasAnswered e (St.signs store.old) (St.signs store.new)) }
    ensures want { IfErr result (IsWant rows.old.page_blocks (slots_with rows.old (St.holds store.old))) }
    ensures enough { IfErr result (IsWantBelow ((length rows.old.pages + 1) * rows.old.page_blocks) (slots_with rows.old (St.holds store.old))) }
{
    law_scratch();
    entries.clear();
    let mut spare = Entry::new(alloc);
    let mut place = At::first();
    while rows.keep_into(store, c, &mut place, &mut spare.row)? {
        let Ok(()) = take_in(alloc, entries, &mut spare, unused, shape, room, last) else {
            return Err(PoolErr::Memory);
        };
    }
    Ok(())
}

// Takes the spare row in, where it is a partial row and its key is above the last one.
fn take_in(
    alloc: Global,
    entries: &mut Vec<Entry>,
    spare: &mut Entry,
    unused: &mut Vec<Entry>,
    shape: &Shape,
    room: usize,
    last: &Option<Entry>,
) -> Result<(), Memory>
    requires shape { IsShape shape.now }
    requires each { All (IsKept shape.now) entries.old.items }
    requires ordered { AreOrdered (slice_cmp nat_cmp) (kept_in shape.now entries.old.items) }
    requires few { length entries.old.items ≤ room }
    ensures row { OnOk result (IsPartialRow shape.now spare.old.row.items) }
    ensures each { OnOk result (All (IsKept shape.now) entries.new.items) }
    ensures taken { OnOk result (kept_in shape.now entries.new.items ≡ taken_in room (grouping_of shape.now) (key_in last.now) (partial_at shape.now spare.old.row.items) (kept_in shape.now entries.old.items)) }
{
    let Ok(true) = key_of_partial(&spare.row, shape, &mut spare.key) else {
        return Err(Memory);
    };
    if passes(last, &spare.key) {
        keep(alloc, entries, spare, unused, shape, room)
    } else {
        Ok(())
    }
}

// Whether a key is above the last one.
fn passes(last: &Option<Entry>, key: &[u8]) -> bool
    ensures { result ≡ is_above (key_in last.now) key.now }
{
    match last {
        Some(last) => key.cmp(last.key.as_slice()).is_gt(),
        None => true,
    }
}

// Hands entries on as rows of values.
fn hand_on<St: Store, E: Emit<St>>(
    alloc: Global,
    store: &mut St,
    shape: &Shape,
    entries: &[Entry],
    emit: &mut E,
) -> Result<(), OpErr>
    requires each { All (IsKept shape.now) entries.now }
    requires client { HasClient (E.client emit.old) (St.holds store.old) }
    requires stands { (taken : List (List Value)) × E.took emit.old (St.holds store.old) taken }
    requires admits { AdmitsAll shape.now (E.admits emit.old) (kept_in shape.now entries.now) }
    ensures ok { OnOk result (Emitted shape.now (E.took emit.old (St.holds store.old)) (E.took emit.new (St.holds store.new)) (kept_in shape.now entries.now)) }
    ensures err { OnErr result (EmittedFront shape.now (E.took emit.old (St.holds store.old)) (E.took emit.new (St.holds store.new)) (kept_in shape.now entries.now)) }
    ensures cause { IfErr result (CameOf (E.faults emit.old) (E.faults emit.new) (St.signs store.old) (St.signs store.new)) }
    ensures stood { Stood (E.admits emit.old) (E.admits emit.new) (E.client emit.old) (E.client emit.new) (E.faults emit.old) (E.faults emit.new) (E.creates emit.old) (E.creates emit.new) (St.holds store.old) (St.holds store.new) (St.signs store.old) (St.signs store.new) }
    ensures slots { KeepSlots (E.client emit.old) (St.holds store.old).free_slots (St.holds store.new).free_slots (E.slots emit.old (St.holds store.old)) (E.slots emit.new (St.holds store.new)) }
{
    let Ok(kinds) = kinds_of(alloc, shape) else {
        return Err(OpErr::Pool(PoolErr::Memory));
    };
    let mut spare = Reading::new(alloc);
    for entry in entries {
        hand_row(alloc, store, shape, &entry.row, &kinds, &mut spare, emit)?;
    }
    Ok(())
}

// Hands a partial row on as a row of values.
fn hand_row<St: Store, E: Emit<St>>(
    alloc: Global,
    store: &mut St,
    shape: &Shape,
    row: &[u8],
    kinds: &[Kind],
    spare: &mut Reading,
    emit: &mut E,
) -> Result<(), OpErr>
    requires kinds { kinds.now ≡ partial_kinds shape.now }
    requires row { IsPartialRow shape.now row.now }
    requires client { HasClient (E.client emit.old) (St.holds store.old) }
    requires stands { (taken : List (List Value)) × E.took emit.old (St.holds store.old) taken }
    requires admits { (values : List Value) → Says shape.now (partial_at shape.now row.now) values → E.admits emit.old values }
    ensures ok { OnOk result (Emitted shape.now (E.took emit.old (St.holds store.old)) (E.took emit.new (St.holds store.new)) (partial_at shape.now row.now ∷ [])) }
    ensures err { OnErr result (EmittedFront shape.now (E.took emit.old (St.holds store.old)) (E.took emit.new (St.holds store.new)) (partial_at shape.now row.now ∷ [])) }
    ensures cause { IfErr result (CameOf (E.faults emit.old) (E.faults emit.new) (St.signs store.old) (St.signs store.new)) }
    ensures stood { Stood (E.admits emit.old) (E.admits emit.new) (E.client emit.old) (E.client emit.new) (E.faults emit.old) (E.faults emit.new) (E.creates emit.old) (E.creates emit.new) (St.holds store.old) (St.holds store.new) (St.signs store.old) (St.signs store.new) }
    ensures slots { KeepSlots (E.client emit.old) (St.holds store.old).free_slots (St.holds store.new).free_slots (E.slots emit.old (St.holds store.old)) (E.slots emit.new (St.holds store.new)) }
{
    let Ok(true) = decode_into(alloc, kinds, row, &mut spare.values, &mut spare.texts) else {
        return Err(OpErr::Pool(PoolErr::Memory));
    };
    emit.row(store, &spare.values)
}

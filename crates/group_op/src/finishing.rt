//! The groups of all rows that were fed are handed on.
ghost use Rattle.std.specs.Prelude.{◌≡◌, ◌+◌, ◌<◌, ℕ, [], List, Option, Some, None, true, false, IfErr, IfOk, OnErr, OnOk, length, slice_get};
ghost use Rattle.row_codec.specs.declared.values.Value.{Value};
ghost use Rattle.store_api.specs.Emitters.{CameOf};
ghost use Rattle.store_api.specs.Shapes.{IsShape};
ghost use Rattle.store_api.specs.Signs.{WasAnswered};
ghost use Rattle.tuple_stream.specs.Families.{ShowAll, slots_in};
ghost use Rattle.tuple_stream.specs.Streamed.{Streamed};
ghost use Rattle.tuple_stream.specs.Trails.{EnteredEvents, PinsFirst};
ghost use Rattle.tuple_stream.specs.FamilyCalls.{shares};
ghost use Rattle.partition_stack.specs.Making.{owed};
ghost use Rattle.partition_stack.specs.Stack.{IsPlaced, RestBelow, over, weight};
ghost use Rattle.group_rows.specs.Partials.{combined_of};
ghost use Rattle.group_op.specs.Causes.{IsWant, IsWantBelowOf, IsWantOf};
ghost use Rattle.group_op.specs.Emission.{AdmitsKinds, Emitted, EmittedFront, IsBeside};
ghost use Rattle.group_op.specs.Finishing.{Advances, HasDivided, HasPopped, HasRead, IsBetween, IsRead, Serves, ServesBeside, Stacked, StandsStill, said_down};
ghost use Rattle.group_op.specs.Held.{AreEntries, IsHeld, page_len, state, streams_of};
ghost use Rattle.group_op.specs.Making.{MakesBeside, MakesFew};
ghost use Rattle.group_op.specs.Pinning.{AreShallow, HasBegun, HasGoneOn};
ghost use Rattle.group_op.specs.Stored.{grouping_of, partials_at};
ghost use Rattle.group_op.specs.Wanting.{IsWantAmong, IsWantAmongOf};

use crate::absorbing::absorb;
use crate::emission::emit_table;
use crate::flushing::{Fan, Spare, flush};
use crate::scanning::leaf_by_scan;
use bucket_table::BucketTable;
use partition_stack::{Partitions, law_few_partitions, law_scratch};
use reservation_tree::PoolErr;
use std::alloc::Global;
use store_api::{Client, Emit, OpErr, Shape, Store};

// The keys of one path are few: so many of their groups are kept at a time.
const LEAF_GROUPS: u32 = 16;

// The rows of the top partition go to the table; and where it was full, they and the table's go to sixteen partitions above:
// whether they did.
fn spend_top<St: Store>(
    alloc: Global,
    store: &mut St,
    c: &Client,
    shape: &Shape,
    table: &mut BucketTable,
    parts: &mut Partitions,
    at: usize,
    level: u32,
    fed: &mut Spare,
    moved: &mut Spare,
) -> Result<bool, PoolErr>
    requires held { IsHeld c.now.tracker (state table.old parts.old (St.holds store.old) (St.signs store.old)) }
    requires entries { AreEntries shape.now (page_len (state table.old parts.old (St.holds store.old) (St.signs store.old))) table.old }
    requires shape { IsShape shape.now }
    requires between { IsBetween (state table.old parts.old (St.holds store.old) (St.signs store.old)) }
    requires top { length parts.old.streams ≡ at + 1 }
    requires level { slice_get parts.old.levels at ≡ Some level }
    requires deep { (level < 16) × IsPlaced at level }
    ensures whole { IfOk result (λ divided. divided ≡ false → IsRead false at level parts.old parts.new × ((rows : ℕ → List (List ℕ)) → Stacked shape.now rows (state table.old parts.old (St.holds store.old) (St.signs store.old)) → HasRead shape.now at level false rows (rows at) [] (state table.new parts.new (St.holds store.new) (St.signs store.new)))) }
    ensures divided { IfOk result (λ divided. divided ≡ true → IsBetween (state table.new parts.new (St.holds store.new) (St.signs store.new)) × (weight parts.new < weight parts.old) × ((rows : ℕ → List (List ℕ)) → Stacked shape.now rows (state table.old parts.old (St.holds store.old) (St.signs store.old)) → HasDivided shape.now at rows parts.old (state table.new parts.new (St.holds store.new) (St.signs store.new)))) }
    ensures first { IfOk result (λ divided. EnteredEvents (HasBegun divided (state table.new parts.new (St.holds store.new) (St.signs store.new))) (St.signs store.old).trail (St.signs store.new).trail) }
    ensures serves { Serves c.now.tracker shape.now (state table.old parts.old (St.holds store.old) (St.signs store.old)) (state table.new parts.new (St.holds store.new) (St.signs store.new)) }
    ensures made { (s : Streamed) → slice_get parts.old.streams at ≡ Some s → MakesFew s.count (St.signs store.old) (St.signs store.new) }
    ensures want { IfErr result (IsWant parts.old.page_blocks (slots_in (over parts.old (St.holds store.old) (St.signs store.old)))) }
    ensures enough { IfErr result (λ e. (rows : ℕ → List (List ℕ)) → Stacked shape.now rows (state table.old parts.old (St.holds store.old) (St.signs store.old)) → IsWantAmong 544 (shares (at + 1) rows) (state table.old parts.old (St.holds store.old) (St.signs store.old)) e) }
    ensures cause { IfErr result (λ e. WasAnswered e (St.signs store.old) (St.signs store.new)) }
{
    law_scratch();
    parts.law_stack();
    if !absorb(alloc, store, c, shape, table, parts, at, level, fed, moved)? {
        return Ok(false);
    }
    let fan = Fan {
        level,
        base: at + 1,
        from: at,
    };
    flush(alloc, store, c, shape, table, parts, fan, moved)?;
    parts.rest_from(store, c, at)?;
    Ok(true)
}

// The groups in the table are handed on, and the top partition, of which they are, goes.
fn hand_on<St: Store, E: Emit<St>>(
    alloc: Global,
    store: &mut St,
    c: &Client,
    shape: &Shape,
    table: &mut BucketTable,
    parts: &mut Partitions,
    emit: &mut E,
    _at: usize,
) -> Result<(), OpErr>
    requires held { IsHeld c.now.tracker (state table.old parts.old (St.holds store.old) (St.signs store.old)) }
    requires entries { AreEntries shape.now (page_len (state table.old parts.old (St.holds store.old) (St.signs store.old))) table.old }
    requires top { length parts.old.streams ≡ _at + 1 }
    requires rests { RestBelow _at parts.old }
    requires emitter { IsBeside c.now.tracker (E.client emit.old) (St.holds store.old) }
    requires admits { AdmitsKinds shape.now (E.admits emit.old) }
    requires stands { (rows : List (List Value)) × E.took emit.old (St.holds store.old) rows }
    ensures ok { OnOk result ((rows : ℕ → List (List ℕ)) → (level : ℕ) → HasRead shape.now _at level false rows (rows _at) [] (state table.old parts.old (St.holds store.old) (St.signs store.old)) → ShowAll rows (streams_of (state table.new parts.new (St.holds store.new) (St.signs store.new))) × Emitted shape.now (E.took emit.old (St.holds store.old)) (E.took emit.new (St.holds store.new)) (combined_of (grouping_of shape.now) (partials_at shape.now (rows _at)))) }
    ensures err { OnErr result ((rows : ℕ → List (List ℕ)) → (level : ℕ) → HasRead shape.now _at level false rows (rows _at) [] (state table.old parts.old (St.holds store.old) (St.signs store.old)) → EmittedFront shape.now (E.took emit.old (St.holds store.old)) (E.took emit.new (St.holds store.new)) (combined_of (grouping_of shape.now) (partials_at shape.now (rows _at)))) }
    ensures popped { OnOk result (IsBetween (state table.new parts.new (St.holds store.new) (St.signs store.new)) × HasPopped _at parts.old parts.new) }
    ensures first { OnOk result (IsBetween (state table.old parts.old (St.holds store.old) (St.signs store.old)) → EnteredEvents PinsFirst (St.signs store.old).trail (St.signs store.new).trail) }
    ensures serves { ServesBeside c.now.tracker (E.client emit.old) (E.slots emit.old (St.holds store.old)) (E.slots emit.new (St.holds store.new)) shape.now (state table.old parts.old (St.holds store.old) (St.signs store.old)) (state table.new parts.new (St.holds store.new) (St.signs store.new)) }
    ensures made { MakesBeside 0 (E.creates emit.old) (E.creates emit.new) (St.signs store.old) (St.signs store.new) }
    ensures emitter { StandsStill (E.admits emit.old) (E.admits emit.new) (E.client emit.old) (E.client emit.new) (E.faults emit.old) (E.faults emit.new) (E.took emit.old (St.holds store.old)) (E.took emit.new (St.holds store.new)) (St.holds store.new) }
    ensures want { E.client emit.old ≡ None → IfErr result (IsWantOf parts.old.page_blocks (slots_in (over parts.old (St.holds store.old) (St.signs store.old)))) }
    // Nothing is asked of the store but by the emitter.
    ensures enough { E.client emit.old ≡ None → IfErr result (λ e. (most : ℕ) → (total : Option ℕ) → IsWantBelowOf most total e) }
    ensures cause { IfErr result (CameOf (E.faults emit.old) (E.faults emit.new) (St.signs store.old) (St.signs store.new)) }
{
    emit_table(alloc, store, emit, shape, table)?;
    table.clear();
    let mut top = parts.pop();
    top.drop_all(store);
    top.end();
    Ok(())
}

// The groups of a partition of the last level are handed on, without the table, and it goes whatever comes of it.
fn leaf<St: Store, E: Emit<St>>(
    alloc: Global,
    store: &mut St,
    c: &Client,
    shape: &Shape,
    _table: &BucketTable,
    parts: &mut Partitions,
    emit: &mut E,
    _at: usize,
) -> Result<(), OpErr>
    requires held { IsHeld c.now.tracker (state _table.now parts.old (St.holds store.old) (St.signs store.old)) }
    requires entries { AreEntries shape.now (page_len (state _table.now parts.old (St.holds store.old) (St.signs store.old))) _table.now }
    requires shape { IsShape shape.now }
    requires between { IsBetween (state _table.now parts.old (St.holds store.old) (St.signs store.old)) }
    requires top { length parts.old.streams ≡ _at + 1 }
    requires level { slice_get parts.old.levels _at ≡ Some 16 }
    requires emitter { IsBeside c.now.tracker (E.client emit.old) (St.holds store.old) }
    requires admits { AdmitsKinds shape.now (E.admits emit.old) }
    requires stands { (rows : List (List Value)) × E.took emit.old (St.holds store.old) rows }
    ensures ok { OnOk result ((rows : ℕ → List (List ℕ)) → Stacked shape.now rows (state _table.now parts.old (St.holds store.old) (St.signs store.old)) → ShowAll rows (streams_of (state _table.now parts.new (St.holds store.new) (St.signs store.new))) × Emitted shape.now (E.took emit.old (St.holds store.old)) (E.took emit.new (St.holds store.new)) (combined_of (grouping_of shape.now) (partials_at shape.now (rows _at)))) }
    ensures err { OnErr result ((rows : ℕ → List (List ℕ)) → Stacked shape.now rows (state _table.now parts.old (St.holds store.old) (St.signs store.old)) → EmittedFront shape.now (E.took emit.old (St.holds store.old)) (E.took emit.new (St.holds store.new)) (combined_of (grouping_of shape.now) (partials_at shape.now (rows _at)))) }
    ensures popped { OnOk result (IsBetween (state _table.now parts.new (St.holds store.new) (St.signs store.new)) × HasPopped _at parts.old parts.new) }
    ensures serves { ServesBeside c.now.tracker (E.client emit.old) (E.slots emit.old (St.holds store.old)) (E.slots emit.new (St.holds store.new)) shape.now (state _table.now parts.old (St.holds store.old) (St.signs store.old)) (state _table.now parts.new (St.holds store.new) (St.signs store.new)) }
    ensures made { MakesBeside 0 (E.creates emit.old) (E.creates emit.new) (St.signs store.old) (St.signs store.new) }
    ensures emitter { StandsStill (E.admits emit.old) (E.admits emit.new) (E.client emit.old) (E.client emit.new) (E.faults emit.old) (E.faults emit.new) (E.took emit.old (St.holds store.old)) (E.took emit.new (St.holds store.new)) (St.holds store.new) }
    ensures want { E.client emit.old ≡ None → IfErr result (IsWantOf parts.old.page_blocks (slots_in (over parts.old (St.holds store.old) (St.signs store.old)))) }
    ensures enough { E.client emit.old ≡ None → IfErr result (λ e. (rows : ℕ → List (List ℕ)) → Stacked shape.now rows (state _table.now parts.old (St.holds store.old) (St.signs store.old)) → IsWantAmongOf 544 (shares (_at + 1) rows) (state _table.now parts.old (St.holds store.old) (St.signs store.old)) e) }
    ensures cause { IfErr result (CameOf (E.faults emit.old) (E.faults emit.new) (St.signs store.old) (St.signs store.new)) }
{
    law_scratch();
    law_few_partitions();
    parts.law_stack();
    let mut top = parts.pop();
    let result = leaf_by_scan(alloc, store, c, &mut top, shape, LEAF_GROUPS, emit);
    top.drop_all(store);
    top.end();
    result
}

// The groups of the top partition are handed on, or its rows go to sixteen partitions above it.
pub(crate) fn advance<St: Store, E: Emit<St>>(
    alloc: Global,
    store: &mut St,
    c: &Client,
    shape: &Shape,
    table: &mut BucketTable,
    parts: &mut Partitions,
    emit: &mut E,
    fed: &mut Spare,
    moved: &mut Spare,
) -> Result<(), OpErr>
    requires held { IsHeld c.now.tracker (state table.old parts.old (St.holds store.old) (St.signs store.old)) }
    requires entries { AreEntries shape.now (page_len (state table.old parts.old (St.holds store.old) (St.signs store.old))) table.old }
    requires shape { IsShape shape.now }
    requires between { IsBetween (state table.old parts.old (St.holds store.old) (St.signs store.old)) }
    requires some { 0 < length parts.old.streams }
    requires emitter { IsBeside c.now.tracker (E.client emit.old) (St.holds store.old) }
    requires admits { AdmitsKinds shape.now (E.admits emit.old) }
    requires stands { (rows : List (List Value)) × E.took emit.old (St.holds store.old) rows }
    ensures ok { OnOk result (IsBetween (state table.new parts.new (St.holds store.new) (St.signs store.new)) × ((rows : ℕ → List (List ℕ)) → Stacked shape.now rows (state table.old parts.old (St.holds store.old) (St.signs store.old)) → Advances shape.now (E.took emit.old (St.holds store.old)) (E.took emit.new (St.holds store.new)) (E.creates emit.old) (E.creates emit.new) rows (state table.old parts.old (St.holds store.old) (St.signs store.old)) (state table.new parts.new (St.holds store.new) (St.signs store.new)))) }
    ensures err { OnErr result ((rows : ℕ → List (List ℕ)) → Stacked shape.now rows (state table.old parts.old (St.holds store.old) (St.signs store.old)) → EmittedFront shape.now (E.took emit.old (St.holds store.old)) (E.took emit.new (St.holds store.new)) (said_down shape.now (length parts.old.streams) rows)) }
    ensures less { OnOk result (weight parts.new < weight parts.old) }
    ensures first { OnOk result (AreShallow parts.old.levels → EnteredEvents (HasGoneOn parts.new.levels) (St.signs store.old).trail (St.signs store.new).trail) }
    ensures serves { ServesBeside c.now.tracker (E.client emit.old) (E.slots emit.old (St.holds store.old)) (E.slots emit.new (St.holds store.new)) shape.now (state table.old parts.old (St.holds store.old) (St.signs store.old)) (state table.new parts.new (St.holds store.new) (St.signs store.new)) }
    ensures made { (rows : ℕ → List (List ℕ)) → Stacked shape.now rows (state table.old parts.old (St.holds store.old) (St.signs store.old)) → MakesBeside (owed parts.old.levels rows) (E.creates emit.old) (E.creates emit.new) (St.signs store.old) (St.signs store.new) }
    ensures emitter { StandsStill (E.admits emit.old) (E.admits emit.new) (E.client emit.old) (E.client emit.new) (E.faults emit.old) (E.faults emit.new) (E.took emit.old (St.holds store.old)) (E.took emit.new (St.holds store.new)) (St.holds store.new) }
    ensures want { E.client emit.old ≡ None → IfErr result (IsWantOf parts.old.page_blocks (slots_in (over parts.old (St.holds store.old) (St.signs store.old)))) }
    ensures enough { E.client emit.old ≡ None → IfErr result (λ e. (rows : ℕ → List (List ℕ)) → Stacked shape.now rows (state table.old parts.old (St.holds store.old) (St.signs store.old)) → IsWantAmongOf 544 (shares (length parts.old.streams) rows) (state table.old parts.old (St.holds store.old) (St.signs store.old)) e) }
    ensures cause { IfErr result (CameOf (E.faults emit.old) (E.faults emit.new) (St.signs store.old) (St.signs store.new)) }
{
    let at = parts.len() - 1;
    let level = parts.level(at);
    if level == 16 {
        return leaf(alloc, store, c, shape, table, parts, emit, at);
    }
    if spend_top(alloc, store, c, shape, table, parts, at, level, fed, moved)? {
        return Ok(());
    }
    hand_on(alloc, store, c, shape, table, parts, emit, at)
}

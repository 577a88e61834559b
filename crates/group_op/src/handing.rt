//! All groups are handed on.
ghost use Rattle.std.specs.Prelude.{◌≡◌, ◌++◌, ℕ, ◌+◌, ◌*◌, ◌<◌, List, Option, Some, None, true, replicate, IfErr, OnErr, OnOk, length};
ghost use Rattle.pool_model.specs.declared.entry.Entry.{Entry};
ghost use Rattle.row_codec.specs.declared.values.Value.{Value};
ghost use Rattle.row_codec.specs.Order.{path_order};
ghost use Rattle.store_api.specs.Emitters.{CameOf};
ghost use Rattle.store_api.specs.Shapes.{IsShape};
ghost use Rattle.store_api.specs.Signs.{WasAnswered};
ghost use Rattle.tuple_stream.specs.Families.{HaveReadAll, slots_in};
ghost use Rattle.tuple_stream.specs.FamilyCalls.{shares};
ghost use Rattle.tuple_stream.specs.Trails.{EnteredEvents};
ghost use Rattle.partition_stack.specs.Making.{owed};
ghost use Rattle.partition_stack.specs.Stack.{over};
ghost use Rattle.group_rows.specs.Partials.{groups_by};
ghost use Rattle.group_op.specs.Causes.{CameBeside, IsWant, IsWantBelowOf, IsWantOf};
ghost use Rattle.group_op.specs.Emission.{AdmitsKinds, Emitted, EmittedFront, IsBeside};
ghost use Rattle.group_op.specs.Finished.{HasSettled, ShowsFirst, groups_of_all};
ghost use Rattle.group_op.specs.Finishing.{IsBetween, LeavesWith, Serves, ServesBeside, Stacked, StandsStill, said_down};
ghost use Rattle.group_op.specs.Held.{AreEntries, IsHeld, page_len, rows_of, state, streams_of};
ghost use Rattle.group_op.specs.Laid.{AreBuilt, HasLeft, HasLeftFirst, HoldsGroups};
ghost use Rattle.group_op.specs.Making.{MakesBeside, MakesFew};
ghost use Rattle.group_op.specs.Operator.{Holds, IsFeeding, IsOperator, Keeps, entries_in, operator, page_of, slots_for};
ghost use Rattle.group_op.specs.Pinning.{AreShallow};
ghost use Rattle.group_op.specs.Stored.{grouping_of};
ghost use Rattle.group_op.specs.Wanting.{IsWantAmong, IsWantAmongOf};

use crate::finishing::advance;
use crate::flushing::{FIRST, Spare, flush};
use crate::operator::GroupOp;
use bucket_table::BucketTable;
use partition_stack::{Partitions, law_scratch};
use reservation_tree::PoolErr;
use std::alloc::Global;
use std::mem;
use store_api::{Client, Emit, OpErr, Shape, Store};

// The rows of the table go to the sixteen partitions, and all pages rest.
fn settle<St: Store>(
    alloc: Global,
    store: &mut St,
    c: &Client,
    shape: &Shape,
    table: &mut BucketTable,
    parts: &mut Partitions,
    moved: &mut Spare,
) -> Result<(), PoolErr>
    requires held { IsHeld c.now.tracker (state table.old parts.old (St.holds store.old) (St.signs store.old)) }
    requires entries { AreEntries shape.now (page_len (state table.old parts.old (St.holds store.old) (St.signs store.old))) table.old }
    requires sixteen { length parts.old.streams ≡ 16 }
    requires first { parts.old.levels ≡ replicate 16 1 }
    ensures between { OnOk result (IsBetween (state table.new parts.new (St.holds store.new) (St.signs store.new))) }
    ensures ok { OnOk result ((rows : ℕ → List (List ℕ)) → ShowsFirst shape.now rows (state table.old parts.old (St.holds store.old) (St.signs store.old)) → HasSettled shape.now rows (state table.old parts.old (St.holds store.old) (St.signs store.old)) (state table.new parts.new (St.holds store.new) (St.signs store.new))) }
    ensures left { OnOk result ((start : Option (List Entry)) → (rows : ℕ → List (List ℕ)) → AreBuilt start rows (streams_of (state table.old parts.old (St.holds store.old) (St.signs store.old))) → EnteredEvents (HasLeft (rows_of table.old ++ shares 16 rows)) start (St.signs store.new).trail) }
    ensures serves { Serves c.now.tracker shape.now (state table.old parts.old (St.holds store.old) (St.signs store.old)) (state table.new parts.new (St.holds store.new) (St.signs store.new)) }
    ensures made { MakesFew (length (rows_of table.old)) (St.signs store.old) (St.signs store.new) }
    ensures levels { parts.new.levels ≡ parts.old.levels }
    ensures want { IfErr result (IsWant parts.old.page_blocks (slots_in (over parts.old (St.holds store.old) (St.signs store.old)))) }
    ensures enough { IfErr result (λ e. (rows : ℕ → List (List ℕ)) → ShowsFirst shape.now rows (state table.old parts.old (St.holds store.old) (St.signs store.old)) → IsWantAmong 544 (rows_of table.old ++ shares 16 rows) (state table.old parts.old (St.holds store.old) (St.signs store.old)) e) }
    ensures cause { IfErr result (λ e. WasAnswered e (St.signs store.old) (St.signs store.new)) }
{
    law_scratch();
    parts.law_stack();
    flush(alloc, store, c, shape, table, parts, FIRST, moved)?;
    parts.rest_from(store, c, 0)
}

// The groups of all partitions are handed on, the top one first.
fn empty_parts<St: Store, E: Emit<St>>(
    alloc: Global,
    store: &mut St,
    c: &Client,
    shape: &Shape,
    table: &mut BucketTable,
    parts: &mut Partitions,
    emit: &mut E,
    fed: &mut Spare,
    moved: &mut Spare,
) -> Result<(), OpErr>
    requires held { IsHeld c.now.tracker (state table.old parts.old (St.holds store.old) (St.signs store.old)) }
    requires entries { AreEntries shape.now (page_len (state table.old parts.old (St.holds store.old) (St.signs store.old))) table.old }
    requires shape { IsShape shape.now }
    requires between { IsBetween (state table.old parts.old (St.holds store.old) (St.signs store.old)) }
    requires emitter { IsBeside c.now.tracker (E.client emit.old) (St.holds store.old) }
    requires admits { AdmitsKinds shape.now (E.admits emit.old) }
    requires stands { (rows : List (List Value)) × E.took emit.old (St.holds store.old) rows }
    ensures ok { OnOk result ((rows : ℕ → List (List ℕ)) → Stacked shape.now rows (state table.old parts.old (St.holds store.old) (St.signs store.old)) → Emitted shape.now (E.took emit.old (St.holds store.old)) (E.took emit.new (St.holds store.new)) (said_down shape.now (length parts.old.streams) rows)) }
    ensures err { OnErr result ((rows : ℕ → List (List ℕ)) → Stacked shape.now rows (state table.old parts.old (St.holds store.old) (St.signs store.old)) → EmittedFront shape.now (E.took emit.old (St.holds store.old)) (E.took emit.new (St.holds store.new)) (said_down shape.now (length parts.old.streams) rows)) }
    ensures first { OnOk result (AreShallow parts.old.levels → EnteredEvents (HaveReadAll (streams_of (state table.new parts.new (St.holds store.new) (St.signs store.new)))) (St.signs store.old).trail (St.signs store.new).trail) }
    ensures serves { ServesBeside c.now.tracker (E.client emit.old) (E.slots emit.old (St.holds store.old)) (E.slots emit.new (St.holds store.new)) shape.now (state table.old parts.old (St.holds store.old) (St.signs store.old)) (state table.new parts.new (St.holds store.new) (St.signs store.new)) }
    ensures made { (rows : ℕ → List (List ℕ)) → Stacked shape.now rows (state table.old parts.old (St.holds store.old) (St.signs store.old)) → MakesBeside (owed parts.old.levels rows) (E.creates emit.old) (E.creates emit.new) (St.signs store.old) (St.signs store.new) }
    ensures emitter { StandsStill (E.admits emit.old) (E.admits emit.new) (E.client emit.old) (E.client emit.new) (E.faults emit.old) (E.faults emit.new) (E.took emit.old (St.holds store.old)) (E.took emit.new (St.holds store.new)) (St.holds store.new) }
    ensures want { E.client emit.old ≡ None → IfErr result (IsWantOf parts.old.page_blocks (slots_in (over parts.old (St.holds store.old) (St.signs store.old)))) }
    ensures enough { E.client emit.old ≡ None → IfErr result (λ e. (rows : ℕ → List (List ℕ)) → Stacked shape.now rows (state table.old parts.old (St.holds store.old) (St.signs store.old)) → IsWantAmongOf 544 (shares (length parts.old.streams) rows) (state table.old parts.old (St.holds store.old) (St.signs store.old)) e) }
    ensures cause { IfErr result (CameOf (E.faults emit.old) (E.faults emit.new) (St.signs store.old) (St.signs store.new)) }
{
    'down: while parts.len() > 0 {
        advance(alloc, store, c, shape, table, parts, emit, fed, moved)?;
    }
    Ok(())
}

// The groups of all rows in the table and in the sixteen partitions are handed on.
fn finish_parts<St: Store, E: Emit<St>>(
    alloc: Global,
    store: &mut St,
    c: &Client,
    shape: &Shape,
    table: &mut BucketTable,
    parts: &mut Partitions,
    emit: &mut E,
    fed: &mut Spare,
    moved: &mut Spare,
) -> Result<(), OpErr>
    requires op { IsOperator (operator c.now shape.now parts.old (Some table.old)) (St.holds store.old) (St.signs store.old) }
    requires feeding { IsFeeding (operator c.now shape.now parts.old (Some table.old)) }
    requires emitter { IsBeside c.now.tracker (E.client emit.old) (St.holds store.old) }
    requires admits { AdmitsKinds shape.now (E.admits emit.old) }
    requires stands { (rows : List (List Value)) × E.took emit.old (St.holds store.old) rows }
    ensures ok { OnOk result ((rows : ℕ → List (List ℕ)) → ShowsFirst shape.now rows (state table.old parts.old (St.holds store.old) (St.signs store.old)) → Emitted shape.now (E.took emit.old (St.holds store.old)) (E.took emit.new (St.holds store.new)) (groups_of_all shape.now rows (state table.old parts.old (St.holds store.old) (St.signs store.old)))) }
    ensures err { OnErr result ((rows : ℕ → List (List ℕ)) → ShowsFirst shape.now rows (state table.old parts.old (St.holds store.old) (St.signs store.old)) → EmittedFront shape.now (E.took emit.old (St.holds store.old)) (E.took emit.new (St.holds store.new)) (groups_of_all shape.now rows (state table.old parts.old (St.holds store.old) (St.signs store.old)))) }
    ensures left { OnOk result ((start : Option (List Entry)) → (rows : ℕ → List (List ℕ)) → AreBuilt start rows (streams_of (state table.old parts.old (St.holds store.old) (St.signs store.old))) → EnteredEvents (HasLeftFirst (rows_of table.old ++ shares 16 rows) (streams_of (state table.new parts.new (St.holds store.new) (St.signs store.new)))) start (St.signs store.new).trail) }
    ensures serves { ServesBeside c.now.tracker (E.client emit.old) (E.slots emit.old (St.holds store.old)) (E.slots emit.new (St.holds store.new)) shape.now (state table.old parts.old (St.holds store.old) (St.signs store.old)) (state table.new parts.new (St.holds store.new) (St.signs store.new)) }
    ensures made { (rows : ℕ → List (List ℕ)) → ShowsFirst shape.now rows (state table.old parts.old (St.holds store.old) (St.signs store.old)) → MakesBeside (16 * length (rows_of table.old) + 15 * length (shares 16 rows)) (E.creates emit.old) (E.creates emit.new) (St.signs store.old) (St.signs store.new) }
    ensures emitter { StandsStill (E.admits emit.old) (E.admits emit.new) (E.client emit.old) (E.client emit.new) (E.faults emit.old) (E.faults emit.new) (E.took emit.old (St.holds store.old)) (E.took emit.new (St.holds store.new)) (St.holds store.new) }
    ensures want { E.client emit.old ≡ None → IfErr result (IsWantOf parts.old.page_blocks (slots_in (over parts.old (St.holds store.old) (St.signs store.old)))) }
    ensures enough { E.client emit.old ≡ None → IfErr result (λ e. (rows : ℕ → List (List ℕ)) → ShowsFirst shape.now rows (state table.old parts.old (St.holds store.old) (St.signs store.old)) → IsWantAmongOf 544 (rows_of table.old ++ shares 16 rows) (state table.old parts.old (St.holds store.old) (St.signs store.old)) e) }
    ensures cause { IfErr result (CameOf (E.faults emit.old) (E.faults emit.new) (St.signs store.old) (St.signs store.new)) }
{
    settle(alloc, store, c, shape, table, parts, moved)?;
    empty_parts(alloc, store, c, shape, table, parts, emit, fed, moved)
}

// The same of a grouping that may have no table yet: then nothing was fed.
fn finish_op<St: Store, E: Emit<St>>(
    alloc: Global,
    store: &mut St,
    c: &Client,
    shape: &Shape,
    table: &mut Option<BucketTable>,
    parts: &mut Partitions,
    emit: &mut E,
    fed: &mut Spare,
    moved: &mut Spare,
) -> Result<(), OpErr>
    requires op { IsOperator (operator c.now shape.now parts.old table.old) (St.holds store.old) (St.signs store.old) }
    requires feeding { IsFeeding (operator c.now shape.now parts.old table.old) }
    requires emitter { IsBeside c.now.tracker (E.client emit.old) (St.holds store.old) }
    requires admits { AdmitsKinds shape.now (E.admits emit.old) }
    requires stands { (rows : List (List Value)) × E.took emit.old (St.holds store.old) rows }
    ensures ok { OnOk result ((rows : List (List Value)) → Holds rows (operator c.now shape.now parts.old table.old) (St.holds store.old) (St.signs store.old) → (St.holds store.old).told ≡ true → Emitted shape.now (E.took emit.old (St.holds store.old)) (E.took emit.new (St.holds store.new)) (groups_by path_order (grouping_of shape.now) rows)) }
    ensures err { OnErr result ((rows : List (List Value)) → Holds rows (operator c.now shape.now parts.old table.old) (St.holds store.old) (St.signs store.old) → (St.holds store.old).told ≡ true → EmittedFront shape.now (E.took emit.old (St.holds store.old)) (E.took emit.new (St.holds store.new)) (groups_by path_order (grouping_of shape.now) rows)) }
    ensures kept { OnOk result ((start : Option (List Entry)) → (rows : List (List Value)) → Keeps start rows (operator c.now shape.now parts.old table.old) (St.holds store.old) (St.signs store.old) → EnteredEvents (HoldsGroups shape.now (page_of (operator c.now shape.now parts.old table.old) (St.holds store.old)) rows (over parts.new (St.holds store.new) (St.signs store.new))) start (St.signs store.new).trail) }
    ensures op { IsOperator (operator c.now shape.now parts.new table.new) (St.holds store.new) (St.signs store.new) }
    ensures leaves { LeavesWith c.now.tracker (E.client emit.old) (E.slots emit.old (St.holds store.old)) (E.slots emit.new (St.holds store.new)) (over parts.old (St.holds store.old) (St.signs store.old)) (over parts.new (St.holds store.new) (St.signs store.new)) }
    ensures made { (rows : List (List Value)) → Holds rows (operator c.now shape.now parts.old table.old) (St.holds store.old) (St.signs store.old) → (St.holds store.old).told ≡ true → MakesBeside (15 * length rows + length (entries_in table.old)) (E.creates emit.old) (E.creates emit.new) (St.signs store.old) (St.signs store.new) }
    ensures quiet { table.old ≡ None → (parts.new ≡ parts.old) × (table.new ≡ None) × (St.signs store.new ≡ St.signs store.old) }
    ensures emitter { StandsStill (E.admits emit.old) (E.admits emit.new) (E.client emit.old) (E.client emit.new) (E.faults emit.old) (E.faults emit.new) (E.took emit.old (St.holds store.old)) (E.took emit.new (St.holds store.new)) (St.holds store.new) }
    ensures want { E.client emit.old ≡ None → IfErr result (IsWantOf parts.old.page_blocks (slots_in (over parts.old (St.holds store.old) (St.signs store.old)))) }
    ensures enough { E.client emit.old ≡ None → IfErr result (λ e. (rows : List (List Value)) → Holds rows (operator c.now shape.now parts.old table.old) (St.holds store.old) (St.signs store.old) → (St.holds store.old).told ≡ true → 0 < page_of (operator c.now shape.now parts.old table.old) (St.holds store.old) → IsWantBelowOf (slots_for 544 (operator c.now shape.now parts.old table.old) (St.holds store.old) rows) (slots_in (over parts.old (St.holds store.old) (St.signs store.old))) e) }
    ensures cause { IfErr result (CameOf (E.faults emit.old) (E.faults emit.new) (St.signs store.old) (St.signs store.new)) }
{
    let Some(mut own) = table.take() else {
        return Ok(());
    };
    let result = finish_parts(alloc, store, c, shape, &mut own, parts, emit, fed, moved);
    // The place is empty, since the table was taken out above.
    if let Some(other) = mem::replace(table, Some(own)) {
        other.close(store);
    }
    result
}

impl GroupOp {
    /// Hands the groups of all rows that were fed on, one row each, in the order of their keys' paths. The grouping can only
    /// end from then on.
    ///
    /// # Errors
    ///
    /// `Pool`: the store answered so in this call, or there was no memory. `Sink`: a fault came. The first groups may have
    /// been handed on.
    pub fn finish<St: Store, E: Emit<St>>(
        &mut self,
        alloc: Global,
        store: &mut St,
        emit: &mut E,
    ) -> Result<(), OpErr>
        requires op { IsOperator self.old (St.holds store.old) (St.signs store.old) }
        requires feeding { IsFeeding self.old }
        requires emitter { IsBeside self.old.client.tracker (E.client emit.old) (St.holds store.old) }
        requires admits { AdmitsKinds self.old.shape (E.admits emit.old) }
        requires stands { (rows : List (List Value)) × E.took emit.old (St.holds store.old) rows }
        ensures ok { OnOk result ((fed : List (List Value)) → Holds fed self.old (St.holds store.old) (St.signs store.old) → (St.holds store.old).told ≡ true → Emitted self.old.shape (E.took emit.old (St.holds store.old)) (E.took emit.new (St.holds store.new)) (groups_by path_order (grouping_of self.old.shape) fed)) }
        ensures err { OnErr result ((fed : List (List Value)) → Holds fed self.old (St.holds store.old) (St.signs store.old) → (St.holds store.old).told ≡ true → EmittedFront self.old.shape (E.took emit.old (St.holds store.old)) (E.took emit.new (St.holds store.new)) (groups_by path_order (grouping_of self.old.shape) fed)) }
        ensures kept { OnOk result ((start : Option (List Entry)) → (fed : List (List Value)) → Keeps start fed self.old (St.holds store.old) (St.signs store.old) → EnteredEvents (HoldsGroups self.old.shape (page_of self.old (St.holds store.old)) fed (over self.new.parts (St.holds store.new) (St.signs store.new))) start (St.signs store.new).trail) }
        ensures client { self.new.client ≡ self.old.client }
        ensures op { IsOperator self.new (St.holds store.new) (St.signs store.new) }
        ensures leaves { LeavesWith self.old.client.tracker (E.client emit.old) (E.slots emit.old (St.holds store.old)) (E.slots emit.new (St.holds store.new)) (over self.old.parts (St.holds store.old) (St.signs store.old)) (over self.new.parts (St.holds store.new) (St.signs store.new)) }
        // Each row goes to deeper partitions at most fifteen times, and one of the table to the first sixteen before.
        ensures made { (fed : List (List Value)) → Holds fed self.old (St.holds store.old) (St.signs store.old) → (St.holds store.old).told ≡ true → MakesBeside (15 * length fed + length (entries_in self.old.table)) (E.creates emit.old) (E.creates emit.new) (St.signs store.old) (St.signs store.new) }
        ensures emitter { StandsStill (E.admits emit.old) (E.admits emit.new) (E.client emit.old) (E.client emit.new) (E.faults emit.old) (E.faults emit.new) (E.took emit.old (St.holds store.old)) (E.took emit.new (St.holds store.new)) (St.holds store.new) }
        // Where nothing was fed, there is no table, and the store isn't called.
        ensures quiet { self.old.table ≡ None → (self.new ≡ self.old) × (St.signs store.new ≡ St.signs store.old) }
        ensures cause { IfErr result (CameBeside self.old.parts.page_blocks (slots_in (over self.old.parts (St.holds store.old) (St.signs store.old))) (E.client emit.old) (E.faults emit.old) (E.faults emit.new) (St.signs store.old) (St.signs store.new)) }
        // It has at most 272 partitions, each with a page that is not full, and one more while it is read.
        ensures enough { E.client emit.old ≡ None → IfErr result (λ e. (fed : List (List Value)) → Holds fed self.old (St.holds store.old) (St.signs store.old) → (St.holds store.old).told ≡ true → IsWantBelowOf (slots_for 544 self.old (St.holds store.old) fed) (slots_in (over self.old.parts (St.holds store.old) (St.signs store.old))) e) }
    {
        let _len = store.block_len();
        finish_op(
            alloc,
            store,
            &self.client,
            &self.shape,
            &mut self.table,
            &mut self.parts,
            emit,
            &mut self.fed,
            &mut self.moved,
        )
    }
}

//! Rows are fed to a grouping.
ghost use Rattle.std.specs.Prelude.{◌≡◌, ◌<◌, ◌++◌, ◌∷◌, [], List, None, Option, IfErr, IfOk, IfSome, IsSome, OnErr, OnOk};
ghost use Rattle.pool_model.specs.declared.entry.Entry.{Entry};
ghost use Rattle.row_codec.specs.declared.values.Value.{Value};
ghost use Rattle.store_api.specs.Holdings.{length_of};
ghost use Rattle.store_api.specs.Signs.{WasAnswered};
ghost use Rattle.tuple_stream.specs.Families.{slots_in};
ghost use Rattle.tuple_stream.specs.Touches.{IsFull};
ghost use Rattle.partition_stack.specs.Slots.{SameSlots};
ghost use Rattle.partition_stack.specs.Stack.{over};
ghost use Rattle.group_op.specs.Held.{IsHeld, LeavesOthers, state};
ghost use Rattle.group_op.specs.Causes.{CameOfStore, IsWantBelow, IsWantBelowOf, IsWantOf};
ghost use Rattle.group_op.specs.Feeding.{HasOpened, IsSpelled, Spells};
ghost use Rattle.group_op.specs.Making.{Makes};
ghost use Rattle.group_op.specs.Operator.{Holds, IsFeeding, IsOperator, IsSame, Keeps, MayBeFed, operator, page_of, slots_for};
ghost use Rattle.group_op.specs.Putting.{HaveMade};

use crate::flushing::{FIRST, Spare};
use crate::hashing::hash_of_row;
use crate::operator::GroupOp;
use crate::own_row::spell;
use crate::putting::put;
use bucket_table::BucketTable;
use partition_stack::{Partitions, law_scratch};
use reservation_tree::PoolErr;
use row_codec::Value;
use std::alloc::Global;
use std::mem;
use store_api::{Client, OpErr, Shape, Store};

impl GroupOp {
    /// Takes a row. It is spelled once, into memory that the next one takes again; where the table has its key, or room for
    /// it, nothing is allocated.
    ///
    /// # Errors
    ///
    /// `Pool`: the store answered so in this call, or there was no memory. From then on the grouping can only end.
    pub fn feed<St: Store>(
        &mut self,
        alloc: Global,
        store: &mut St,
        row: &[Value],
    ) -> Result<(), OpErr>
        requires op { IsOperator self.old (St.holds store.old) (St.signs store.old) }
        requires feeding { IsFeeding self.old }
        requires row { MayBeFed self.old (St.holds store.old) row.now }
        ensures keeps { OnOk result ((start : Option (List Entry)) → (fed : List (List Value)) → Keeps start fed self.old (St.holds store.old) (St.signs store.old) → Keeps start (fed ++ row.now ∷ []) self.new (St.holds store.new) (St.signs store.new)) }
        ensures holds { OnOk result ((fed : List (List Value)) → Holds fed self.old (St.holds store.old) (St.signs store.old) → Holds (fed ++ row.now ∷ []) self.new (St.holds store.new) (St.signs store.new)) }
        ensures makes { Makes self.old self.new (St.holds store.old) (St.signs store.old) (St.signs store.new) }
        ensures op { IsOperator self.new (St.holds store.new) (St.signs store.new) }
        ensures same { IsSame self.old self.new }
        ensures leaves { LeavesOthers self.old.client.tracker (St.holds store.old) (St.holds store.new) (St.signs store.old) (St.signs store.new) }
        ensures slots { slots_in (over self.new.parts (St.holds store.new) (St.signs store.new)) ≡ slots_in (over self.old.parts (St.holds store.old) (St.signs store.old)) }
        ensures cause { IfErr result (CameOfStore self.old.parts.page_blocks (St.holds store.new) (St.signs store.old) (St.signs store.new)) }
        ensures want { IfErr result (IsWantOf self.old.parts.page_blocks (slots_in (over self.old.parts (St.holds store.old) (St.signs store.old)))) }
        ensures enough { IfErr result (λ e. (fed : List (List Value)) → Holds fed self.old (St.holds store.old) (St.signs store.old) → IsWantBelowOf (slots_for 16 self.old (St.holds store.old) (fed ++ row.now ∷ [])) (slots_in (over self.old.parts (St.holds store.old) (St.signs store.old))) e) }
    {
        self.parts.law_stack();
        let _len = store.block_len();
        if spell(row, &self.shape, &mut self.fed.row).is_err() {
            return Err(OpErr::Pool(PoolErr::Memory));
        }
        match feed_row(
            alloc,
            store,
            &self.client,
            &self.shape,
            &mut self.table,
            &mut self.parts,
            &self.fed,
            &mut self.moved,
        ) {
            Ok(()) => Ok(()),
            Err(e) => Err(OpErr::Pool(e)),
        }
    }
}

// Puts the partial row that is fed into the table, which comes with the first row.
pub(crate) fn feed_row<St: Store>(
    alloc: Global,
    store: &mut St,
    c: &Client,
    shape: &Shape,
    table: &mut Option<BucketTable>,
    parts: &mut Partitions,
    fed: &Spare,
    moved: &mut Spare,
) -> Result<(), PoolErr>
    requires op { IsOperator (operator c.now shape.now parts.old table.old) (St.holds store.old) (St.signs store.old) }
    requires feeding { IsFeeding (operator c.now shape.now parts.old table.old) }
    requires row { IsSpelled shape.now (length_of parts.old.page_blocks (St.holds store.old)) fed.now.row.items }
    ensures keeps { OnOk result ((start : Option (List Entry)) → (rows more : List (List Value)) → Spells shape.now fed.now.row.items more → Keeps start rows (operator c.now shape.now parts.old table.old) (St.holds store.old) (St.signs store.old) → Keeps start (rows ++ more) (operator c.now shape.now parts.new table.new) (St.holds store.new) (St.signs store.new)) }
    ensures holds { OnOk result ((rows more : List (List Value)) → Spells shape.now fed.now.row.items more → Holds rows (operator c.now shape.now parts.old table.old) (St.holds store.old) (St.signs store.old) → Holds (rows ++ more) (operator c.now shape.now parts.new table.new) (St.holds store.new) (St.signs store.new)) }
    ensures makes { Makes (operator c.now shape.now parts.old table.old) (operator c.now shape.now parts.new table.new) (St.holds store.old) (St.signs store.old) (St.signs store.new) }
    ensures op { IsOperator (operator c.now shape.now parts.new table.new) (St.holds store.new) (St.signs store.new) }
    ensures same { IsSame (operator c.now shape.now parts.old table.old) (operator c.now shape.now parts.new table.new) }
    ensures leaves { LeavesOthers c.now.tracker (St.holds store.old) (St.holds store.new) (St.signs store.old) (St.signs store.new) }
    ensures slots { SameSlots parts.old.page_blocks (over parts.old (St.holds store.old) (St.signs store.old)) (over parts.new (St.holds store.new) (St.signs store.new)) }
    ensures cause { IfErr result (λ e. WasAnswered e (St.signs store.old) (St.signs store.new)) }
    ensures full { IfErr result (IsFull parts.old.page_blocks (St.holds store.new).free_slots) }
    ensures enough { IfErr result (λ e. (rows : List (List Value)) → Holds rows (operator c.now shape.now parts.old table.old) (St.holds store.old) (St.signs store.old) → 0 < page_of (operator c.now shape.now parts.old table.old) (St.holds store.old) → IsWantBelow (slots_for 16 (operator c.now shape.now parts.old table.old) (St.holds store.old) rows) (slots_in (over parts.old (St.holds store.old) (St.signs store.old))) e) }
{
    law_scratch();
    parts.law_stack();
    let hash = hash_of_row(&fed.row, shape);
    open_table(alloc, store, c, shape, parts, table)?;
    let Some(own) = table else { unreachable!() };
    put(
        alloc, store, c, shape, own, parts, FIRST, &fed.row, hash, moved,
    )
}

// Opens the table where there is none.
fn open_table<St: Store>(
    alloc: Global,
    store: &mut St,
    c: &Client,
    shape: &Shape,
    parts: &Partitions,
    table: &mut Option<BucketTable>,
) -> Result<(), PoolErr>
    requires { IsOperator (operator c.now shape.now parts.now table.old) (St.holds store.old) (St.signs store.old) }
    ensures has { OnOk result (IfSome table.new (λ own. HasOpened shape.now table.old own (state own parts.now (St.holds store.old) (St.signs store.old)) (state own parts.now (St.holds store.new) (St.signs store.new)))) }
    ensures held { OnOk result (IfSome table.new (λ own. IsHeld c.now.tracker (state own parts.now (St.holds store.new) (St.signs store.new)))) }
    ensures some { OnOk result (IsSome table.new) }
    ensures none { OnErr result (IsOperator (operator c.now shape.now parts.now table.new) (St.holds store.new) (St.signs store.new)) }
    ensures leaves { LeavesOthers c.now.tracker (St.holds store.old) (St.holds store.new) (St.signs store.old) (St.signs store.new) }
    ensures slots { SameSlots parts.now.page_blocks (over parts.now (St.holds store.old) (St.signs store.old)) (over parts.now (St.holds store.new) (St.signs store.new)) }
    ensures made { HaveMade (over parts.now (St.holds store.old) (St.signs store.old)) (over parts.now (St.holds store.new) (St.signs store.new)) }
    ensures cause { IfErr result (λ e. WasAnswered e (St.signs store.old) (St.signs store.new)) }
    ensures full { IfErr result (IsFull parts.now.page_blocks (St.holds store.new).free_slots) }
{
    if table.is_some() {
        return Ok(());
    }
    let own = new_table(alloc, store, c, shape, parts)?;
    match mem::replace(table, Some(own)) {
        None => Ok(()),
        // There was none.
        Some(other) => {
            other.close(store);
            Ok(())
        }
    }
}

// A new table: a page of heads and two of rows.
fn new_table<St: Store>(
    alloc: Global,
    store: &mut St,
    c: &Client,
    _shape: &Shape,
    parts: &Partitions,
) -> Result<BucketTable, PoolErr>
    requires { IsOperator (operator c.now _shape.now parts.now None) (St.holds store.old) (St.signs store.old) }
    ensures has { IfOk result (λ own. HasOpened _shape.now None own (state own parts.now (St.holds store.old) (St.signs store.old)) (state own parts.now (St.holds store.new) (St.signs store.new))) }
    ensures held { IfOk result (λ own. IsHeld c.now.tracker (state own parts.now (St.holds store.new) (St.signs store.new))) }
    ensures none { OnErr result (IsOperator (operator c.now _shape.now parts.now None) (St.holds store.new) (St.signs store.new)) }
    ensures leaves { LeavesOthers c.now.tracker (St.holds store.old) (St.holds store.new) (St.signs store.old) (St.signs store.new) }
    ensures slots { SameSlots parts.now.page_blocks (over parts.now (St.holds store.old) (St.signs store.old)) (over parts.now (St.holds store.new) (St.signs store.new)) }
    ensures made { HaveMade (over parts.now (St.holds store.old) (St.signs store.old)) (over parts.now (St.holds store.new) (St.signs store.new)) }
    ensures cause { IfErr result (λ e. WasAnswered e (St.signs store.old) (St.signs store.new)) }
    ensures full { IfErr result (IsFull parts.now.page_blocks (St.holds store.new).free_slots) }
{
    BucketTable::open(alloc, store, c, parts.page_blocks(), 2)
}

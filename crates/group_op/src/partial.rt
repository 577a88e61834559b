//! Partial rows are fed to a grouping.
ghost use Rattle.std.specs.Prelude.{◌≡◌, ◌<◌, ◌^◌, ◌++◌, List, Option, length, IfErr, OnOk};
ghost use Rattle.pool_model.specs.declared.entry.Entry.{Entry};
ghost use Rattle.row_codec.specs.declared.values.Value.{Value};
ghost use Rattle.row_codec.specs.Row.{kinds_of};
ghost use Rattle.row_codec.specs.RowBytes.{row_bytes};
ghost use Rattle.store_api.specs.Shapes.{IsShape};
ghost use Rattle.tuple_stream.specs.Families.{slots_in};
ghost use Rattle.partition_stack.specs.Stack.{over};
ghost use Rattle.group_op.specs.Held.{LeavesOthers};
ghost use Rattle.group_op.specs.Causes.{CameOfStore, IsWantBelowOf, IsWantOf};
ghost use Rattle.group_op.specs.Feeding.{IsPartOf, MayBeTaken, Spells};
ghost use Rattle.group_op.specs.Making.{Makes};
ghost use Rattle.group_op.specs.Operator.{Holds, IsFeeding, IsOperator, IsSame, Keeps, slots_for};
ghost use Rattle.group_op.specs.Stored.{IsPartialRow, partial_kinds};

use crate::feeding::feed_row;
use crate::operator::GroupOp;
use reservation_tree::PoolErr;
use row_codec::{Memory, Value, encode_row, law_row_back};
use std::alloc::Global;
use store_api::{OpErr, Shape, Store};

impl GroupOp {
    /// Takes a partial row: the values of a key and a wide number for each aggregate, as another grouping of this shape emits
    /// them. What it adds are any rows for which it stands. It is spelled as a row is by [`GroupOp::feed`].
    ///
    /// # Errors
    ///
    /// `Pool`: the store answered so in this call, or there was no memory. From then on the grouping can only end.
    pub fn feed_partial<St: Store>(
        &mut self,
        alloc: Global,
        store: &mut St,
        row: &[Value],
    ) -> Result<(), OpErr>
        requires op { IsOperator self.old (St.holds store.old) (St.signs store.old) }
        requires feeding { IsFeeding self.old }
        requires row { MayBeTaken self.old (St.holds store.old) row.now }
        ensures keeps { OnOk result ((start : Option (List Entry)) → (fed more : List (List Value)) → IsPartOf self.old.shape row.now more → Keeps start fed self.old (St.holds store.old) (St.signs store.old) → Keeps start (fed ++ more) self.new (St.holds store.new) (St.signs store.new)) }
        ensures holds { OnOk result ((fed more : List (List Value)) → IsPartOf self.old.shape row.now more → Holds fed self.old (St.holds store.old) (St.signs store.old) → Holds (fed ++ more) self.new (St.holds store.new) (St.signs store.new)) }
        ensures makes { Makes self.old self.new (St.holds store.old) (St.signs store.old) (St.signs store.new) }
        ensures op { IsOperator self.new (St.holds store.new) (St.signs store.new) }
        ensures same { IsSame self.old self.new }
        ensures leaves { LeavesOthers self.old.client.tracker (St.holds store.old) (St.holds store.new) (St.signs store.old) (St.signs store.new) }
        ensures slots { slots_in (over self.new.parts (St.holds store.new) (St.signs store.new)) ≡ slots_in (over self.old.parts (St.holds store.old) (St.signs store.old)) }
        ensures cause { IfErr result (CameOfStore self.old.parts.page_blocks (St.holds store.new) (St.signs store.old) (St.signs store.new)) }
        ensures want { IfErr result (IsWantOf self.old.parts.page_blocks (slots_in (over self.old.parts (St.holds store.old) (St.signs store.old)))) }
        ensures enough { IfErr result (λ e. (fed more : List (List Value)) → Holds fed self.old (St.holds store.old) (St.signs store.old) → IsWantBelowOf (slots_for 16 self.old (St.holds store.old) (fed ++ more)) (slots_in (over self.old.parts (St.holds store.old) (St.signs store.old))) e) }
    {
        self.parts.law_stack();
        let _len = store.block_len();
        if spell_partial(row, &self.shape, &mut self.fed.row).is_err() {
            return Err(OpErr::Pool(PoolErr::Memory));
        }
        match feed_row(
            alloc,
            store,
            &self.client,
            &self.shape,
            &mut self.table,
            &mut self.parts,
            &self.fed,
            &mut self.moved,
        ) {
            Ok(()) => Ok(()),
            Err(e) => Err(OpErr::Pool(e)),
        }
    }
}

// Spells a partial row. It takes no memory where there is room for it.
fn spell_partial(row: &[Value], _shape: &Shape, out: &mut Vec<u8>) -> Result<(), Memory>
    requires shape { IsShape _shape.now }
    requires kinds { kinds_of row.now ≡ partial_kinds _shape.now }
    requires short { length (row_bytes row.now) < 2 ^ 32 }
    ensures spells { OnOk result ((more : List (List Value)) → IsPartOf _shape.now row.now more → Spells _shape.now out.new.items more) }
    ensures formed { OnOk result (IsPartialRow _shape.now out.new.items) }
    ensures len { OnOk result (length out.new.items ≡ length (row_bytes row.now)) }
{
    law_row_back();
    out.clear();
    encode_row(row, out)
}

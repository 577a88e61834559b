//! Rows are fed to a join.
ghost use Rattle.std.specs.Prelude.{◌≡◌, ◌^◌, length, true, IfErr, OnErr, OnOk};
ghost use Rattle.row_codec.specs.declared.values.Value.{Value};
ghost use Rattle.row_codec.specs.RowLaws.{IsRow};
ghost use Rattle.row_codec.specs.RowBytes.{key_bytes, row_bytes};
ghost use Rattle.store_api.specs.Holdings.{length_of};
ghost use Rattle.tuple_stream.specs.Families.{pages_in};
ghost use Rattle.tuple_stream.specs.FamilyCalls.{AllAtEnd};
ghost use Rattle.tuple_stream.specs.PageRows.{IsOneRow};
ghost use Rattle.tuple_stream.specs.Steps.{came};
ghost use Rattle.partition_stack.specs.Making.{MakesFew};
ghost use Rattle.partition_stack.specs.Stack.{RestBelow};
ghost use Rattle.join_op.specs.Operator.{HasNoRight, IsFeeding, IsOperator, MayBeFed};
ghost use Rattle.join_op.specs.Stored.{left_side, right_side};
ghost use Rattle.join_op.specs.FeedCalls.{TakesLeft, TakesRight};
ghost use Rattle.join_op.specs.Beside.{IsSpellable, MayCall, first_place};
ghost use Rattle.partition_stack.specs.Sides.{OwnBoth};
ghost use Rattle.join_op.specs.SideCalls.{RestsAllAt, side_at, CallsBesideAt, WasRefused, FeedsAt};

use crate::operator::JoinOp;
use partition_stack::{Partitions, law_scratch};
use reservation_tree::PoolErr;
use row_codec::{Memory, Value, encode_row, hash64, key_bytes, nibble};
use std::alloc::Global;
use store_api::{Client, OpErr, Store};

// Memory that each row takes again.
#[derive(Drop)]
pub(crate) struct Spare {
    // A row's bytes.
    pub(crate) row: Vec<u8>,
    // The bytes of its key.
    pub(crate) key: Vec<u8>,
}

impl Spare {
    pub(crate) fn new(alloc: Global) -> Spare {
        Spare {
            row: Vec::new(alloc),
            key: Vec::new(alloc),
        }
    }
}

impl JoinOp {
    /// Takes a left row. It is spelled once, into memory that the next one takes again.
    ///
    /// # Errors
    ///
    /// `Pool`: the store answered so in this call, or there was no memory. From then on the join can only end.
    pub fn feed_left<St: Store>(
        &mut self,
        alloc: Global,
        store: &mut St,
        row: &[Value],
    ) -> Result<(), OpErr>
        requires op { IsOperator self.old (St.holds store.old) (St.signs store.old) }
        requires feeding { IsFeeding self.old }
        requires first { HasNoRight self.old }
        requires row { MayBeFed (left_side self.old.shape) self.old (St.holds store.old) row.now }
        ensures takes { TakesLeft St.Store row.now self.old self.new store.old store.new result }
        ensures right { self.new.right ≡ self.old.right }
    {
        self.left.law_stack();
        self.right.law_stack();
        law_scratch();
        let _len = store.block_len();
        self.left_rests = false;
        match put_row(
            alloc,
            store,
            &self.client,
            &mut self.left,
            &self.right,
            row,
            &self.left_columns,
            &mut self.fed,
        ) {
            Ok(()) => Ok(()),
            Err(e) => Err(OpErr::Pool(e)),
        }
    }

    /// Takes a right row. No left row may follow it.
    ///
    /// # Errors
    ///
    /// As for [`JoinOp::feed_left`].
    pub fn feed_right<St: Store>(
        &mut self,
        alloc: Global,
        store: &mut St,
        row: &[Value],
    ) -> Result<(), OpErr>
        requires op { IsOperator self.old (St.holds store.old) (St.signs store.old) }
        requires feeding { IsFeeding self.old }
        requires row { MayBeFed (right_side self.old.shape) self.old (St.holds store.old) row.now }
        ensures { TakesRight St.Store row.now self.old self.new store.old store.new result }
    {
        self.left.law_stack();
        self.right.law_stack();
        law_scratch();
        let _len = store.block_len();
        if let Err(e) = rest_left(
            store,
            &self.client,
            &mut self.left,
            &mut self.left_rests,
            &self.right,
        ) {
            return Err(OpErr::Pool(e));
        }
        match put_row(
            alloc,
            store,
            &self.client,
            &mut self.right,
            &self.left,
            row,
            &self.right_columns,
            &mut self.fed,
        ) {
            Ok(()) => Ok(()),
            Err(e) => Err(OpErr::Pool(e)),
        }
    }
}

// Lets the left side rest, if it doesn't, so that there is room for a page of each right partition.
pub(crate) fn rest_left<St: Store>(
    store: &mut St,
    c: &Client,
    left: &mut Partitions,
    left_rests: &mut bool,
    _right: &Partitions,
) -> Result<(), PoolErr>
    requires own { OwnBoth c.now.tracker 0 left.old.streams _right.now.streams (St.holds store.old) (St.signs store.old) }
    requires flag { left_rests.old ≡ true → RestBelow (length left.old.streams) left.old }
    ensures still { left_rests.old ≡ true → (left.new ≡ left.old) × (St.holds store.new ≡ St.holds store.old) × (St.signs store.new ≡ St.signs store.old) }
    ensures beside { CallsBesideAt St.Store c.now.tracker left.old left.new _right.now store.old store.new }
    ensures made { MakesFew 0 (St.signs store.old) (St.signs store.new) }
    ensures pages { pages_in (side_at St.Store left.new store.new) ≡ pages_in (side_at St.Store left.old store.old) }
    ensures rested { OnOk result (RestsAllAt St.Store c.now.tracker left.old left.new store.old store.new) }
    ensures rests { OnOk result (RestBelow (length left.new.streams) left.new) }
    ensures flag { left_rests.new ≡ true → RestBelow (length left.new.streams) left.new }
    ensures set { OnOk result (left_rests.new ≡ true) }
    ensures unset { OnErr result (left_rests.new ≡ left_rests.old) }
    ensures answers { IfErr result (WasRefused St.Store left.old.page_blocks store.old store.new) }
{
    if *left_rests {
        return Ok(());
    }
    left.rest_from(store, c, 0)?;
    *left_rests = true;
    Ok(())
}

// Spells a row, and appends it to its partition of the first level, while the other side rests.
fn put_row<St: Store>(
    alloc: Global,
    store: &mut St,
    c: &Client,
    parts: &mut Partitions,
    _other: &Partitions,
    row: &[Value],
    columns: &[usize],
    spare: &mut Spare,
) -> Result<(), PoolErr>
    requires may { MayCall c.now parts.old _other.now (St.holds store.old) (St.signs store.old) }
    requires sixteen { length parts.old.streams ≡ 16 }
    requires row { IsSpellable columns.now (length_of parts.old.page_blocks (St.holds store.old)) row.now }
    ensures beside { CallsBesideAt St.Store c.now.tracker parts.old parts.new _other.now store.old store.new }
    ensures went { FeedsAt St.Store c.now.tracker (first_place columns.now row.now) (came result (row_bytes row.now)) parts.old parts.new store.old store.new }
    ensures at_end { OnOk result (AllAtEnd (side_at St.Store parts.old store.old) → AllAtEnd (side_at St.Store parts.new store.new)) }
    ensures few { MakesFew 1 (St.signs store.old) (St.signs store.new) }
    ensures is_row { OnOk result (IsRow row.now) }
    ensures answers { IfErr result (WasRefused St.Store parts.old.page_blocks store.old store.new) }
{
    parts.law_stack();
    let _len = store.block_len();
    let Ok(()) = spell(row, columns, spare) else {
        return Err(PoolErr::Memory);
    };
    let at = 15 - nibble(hash64(&spare.key), 0) as usize;
    parts.append(alloc, store, c, at, &spare.row)
}

// Spells a row, and its key in these columns.
fn spell(row: &[Value], columns: &[usize], spare: &mut Spare) -> Result<(), Memory>
    requires { IsSpellable columns.now (2 ^ 24) row.now }
    ensures row { OnOk result (spare.new.row.items ≡ row_bytes row.now) }
    ensures one { OnOk result (IsOneRow (row_bytes row.now)) }
    ensures key { OnOk result (spare.new.key.items ≡ key_bytes columns.now row.now) }
    ensures is_row { OnOk result (IsRow row.now) }
{
    spare.row.clear();
    encode_row(row, &mut spare.row)?;
    spare.key.clear();
    key_bytes(row, columns, &mut spare.key)
}

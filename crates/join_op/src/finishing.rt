//! The pairs of all rows that were fed are handed on.
ghost use Rattle.std.specs.Prelude.{◌≡◌, List, true, false, IfErr, OnOk, length};
ghost use Rattle.row_codec.specs.declared.values.Value.{Value};
ghost use Rattle.store_api.specs.Signs.{WasAnswered};
ghost use Rattle.partition_stack.specs.Emitting.{IsBeside};
ghost use Rattle.partition_stack.specs.Making.{MakesFew};
ghost use Rattle.partition_stack.specs.Slots.{IsWant};
ghost use Rattle.partition_stack.specs.Stack.{RestBelow, first_sixteen, no_stack};
ghost use Rattle.join_op.specs.Chunks.{AdmitsJoined};
ghost use Rattle.join_op.specs.PartCalls.{both_at};
ghost use Rattle.join_op.specs.FinishCalls.{HasKept, IsWantForFed, Finishes, FinishesSides, MayFinish};
ghost use Rattle.join_op.specs.Inside.{IsInside};
ghost use Rattle.join_op.specs.Joining.{IsBetween, slots_both};
ghost use Rattle.join_op.specs.Operator.{IsFeeding, IsOperator, operator};
ghost use Rattle.join_op.specs.Rested.{HasRested};
ghost use Rattle.join_op.specs.SideCalls.{LeavesOthersAt};

use crate::feeding::{Spare, rest_left};
use crate::joining::join_parts;
use crate::operator::JoinOp;
use partition_stack::{Partitions, law_scratch};
use reservation_tree::PoolErr;
use std::alloc::Global;
use store_api::{Client, Emit, JoinShape, OpErr, Store};

// All pages of both sides rest, so that each is left before any is pinned again.
fn rest_both<St: Store>(
    store: &mut St,
    c: &Client,
    _shape: &JoinShape,
    left: &mut Partitions,
    left_rests: &mut bool,
    right: &mut Partitions,
) -> Result<(), PoolErr>
    requires op { IsOperator (operator c.now _shape.now left.old right.old) (St.holds store.old) (St.signs store.old) }
    requires feeding { IsFeeding (operator c.now _shape.now left.old right.old) }
    requires flag { left_rests.old ≡ true → RestBelow (length left.old.streams) left.old }
    requires before { left_rests.old ≡ false → right.old ≡ first_sixteen right.old.page_blocks }
    ensures op { IsOperator (operator c.now _shape.now left.new right.new) (St.holds store.new) (St.signs store.new) }
    ensures leaves { LeavesOthersAt St.Store c.now.tracker store.old store.new }
    ensures made { MakesFew 0 (St.signs store.old) (St.signs store.new) }
    ensures rested { OnOk result (HasRested (both_at St.Store left.new right.new store.new)) }
    ensures kept { OnOk result (HasKept St.Store c.now _shape.now left.old left.new right.old right.new store.old store.new) }
    ensures blocks { left.new.page_blocks ≡ left.old.page_blocks }
    ensures slots { slots_both (both_at St.Store left.new right.new store.new) ≡ slots_both (both_at St.Store left.old right.old store.old) }
    ensures want { IfErr result (IsWant left.old.page_blocks (slots_both (both_at St.Store left.old right.old store.old))) }
    ensures enough { IfErr result (IsWantForFed St.Store (operator c.now _shape.now left.old right.old) store.old) }
    ensures cause { IfErr result (λ e. WasAnswered e (St.signs store.old) (St.signs store.new)) }
{
    left.law_stack();
    right.law_stack();
    law_scratch();
    let _len = store.block_len();
    rest_left(store, c, left, left_rests, right)?;
    right.rest_from(store, c, 0)
}

// The pairs of the rows of both sides are handed on.
fn join_sides<St: Store, E: Emit<St>>(
    alloc: Global,
    store: &mut St,
    c: &Client,
    shape: &JoinShape,
    left_columns: &[usize],
    right_columns: &[usize],
    left: &mut Partitions,
    left_rests: &mut bool,
    right: &mut Partitions,
    emit: &mut E,
    spare: &mut Spare,
) -> Result<(), OpErr>
    requires inside { IsInside shape.now left_columns.now right_columns.now left_rests.old left.old right.old }
    requires may { MayFinish St.Store E.Emit (operator c.now shape.now left.old right.old) emit.old store.old }
    ensures finishes { FinishesSides St.Store E.Emit c.now shape.now left.old left.new right.old right.new emit.old emit.new store.old store.new result }
    ensures closed { OnOk result (IsBetween (both_at St.Store left.new right.new store.new)) }
{
    let _len = store.block_len();
    rest_both(store, c, shape, left, left_rests, right)?;
    join_parts(
        alloc,
        store,
        c,
        shape,
        left_columns,
        right_columns,
        left,
        right,
        emit,
        spare,
    )
}

// The same, and no partition is left, whatever comes of it.
fn finish_sides<St: Store, E: Emit<St>>(
    alloc: Global,
    store: &mut St,
    c: &Client,
    shape: &JoinShape,
    left_columns: &[usize],
    right_columns: &[usize],
    left: &mut Partitions,
    left_rests: &mut bool,
    right: &mut Partitions,
    emit: &mut E,
    spare: &mut Spare,
) -> Result<(), OpErr>
    requires inside { IsInside shape.now left_columns.now right_columns.now left_rests.old left.old right.old }
    requires may { MayFinish St.Store E.Emit (operator c.now shape.now left.old right.old) emit.old store.old }
    ensures finishes { FinishesSides St.Store E.Emit c.now shape.now left.old left.new right.old right.new emit.old emit.new store.old store.new result }
    ensures none { (left.new ≡ no_stack left.new.page_blocks) × (left_rests.new ≡ true) }
{
    let result = join_sides(
        alloc,
        store,
        c,
        shape,
        left_columns,
        right_columns,
        left,
        left_rests,
        right,
        emit,
        spare,
    );
    left.clear(alloc, store, c);
    right.clear(alloc, store, c);
    *left_rests = true;
    result
}

impl JoinOp {
    /// Hands the pairs of all rows that were fed on, each as often as it occurs, in any order. The join can only end from
    /// then on.
    ///
    /// # Errors
    ///
    /// `Pool`: the store answered so in this call, or there was no memory. `Sink`: a fault came. Some of the pairs may have
    /// been handed on.
    pub fn finish<St: Store, E: Emit<St>>(
        &mut self,
        alloc: Global,
        store: &mut St,
        emit: &mut E,
    ) -> Result<(), OpErr>
        requires op { IsOperator self.old (St.holds store.old) (St.signs store.old) }
        requires feeding { IsFeeding self.old }
        requires emitter { IsBeside self.old.client.tracker (E.client emit.old) (St.holds store.old) }
        requires admits { AdmitsJoined self.old.shape (E.admits emit.old) }
        requires stands { (rows : List (List Value)) × E.took emit.old (St.holds store.old) rows }
        ensures { Finishes St.Store E.Emit self.old self.new emit.old emit.new store.old store.new result }
    {
        finish_sides(
            alloc,
            store,
            &self.client,
            &self.shape,
            &self.left_columns,
            &self.right_columns,
            &mut self.left,
            &mut self.left_rests,
            &mut self.right,
            emit,
            &mut self.fed,
        )
    }
}

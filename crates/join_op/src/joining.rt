//! Partitions of both sides are joined from the top, each with the one of its number.
ghost use Rattle.std.specs.Prelude.{◌≡◌, ◌≢◌, ◌⊎◌, ◌+◌, ◌<◌, ℕ, List, true, false, Some, IfErr, OnOk, length, slice_get};
ghost use Rattle.store_api.specs.Conditions.{IsLiveClient};
ghost use Rattle.store_api.specs.Signs.{WasAnswered};
ghost use Rattle.tuple_stream.specs.Families.{AllClosed, ShowAll};
ghost use Rattle.tuple_stream.specs.FamilyCalls.{AllWhole};
ghost use Rattle.tuple_stream.specs.Trails.{EnteredEvents};
ghost use Rattle.partition_stack.specs.Making.{MakesBeside, MakesFew};
ghost use Rattle.partition_stack.specs.Sides.{OwnBoth};
ghost use Rattle.partition_stack.specs.Slots.{IsWant};
ghost use Rattle.partition_stack.specs.Stack.{weight};
ghost use Rattle.join_op.specs.PartCalls.{HasDividedAt, MakesForRows, both_at, OfShown, IsWantFor, HandsDown, HandsTop, HasAdvanced, HasJoined, HasPaired, MakesOwed, MayJoin};
ghost use Rattle.join_op.specs.Joining.{AreColumnsOfBoth, HasPopped, HasNoRowsAt, HasRowsAt, IsBetween, PinsBefore, ShowBoth, slots_both};
ghost use Rattle.join_op.specs.Operator.{IsOperator, operator};
ghost use Rattle.join_op.specs.SideCalls.{side_at, HasCalledAt, LeavesOthersAt, PinsAgainAt, PinsFirstAt};

use crate::chunks::leaf_by_table;
use crate::dividing::divide_side;
use crate::feeding::Spare;
use crate::holding::buffers_in;
use partition_stack::{Partitions, law_scratch};
use reservation_tree::PoolErr;
use std::alloc::Global;
use store_api::{Client, Emit, JoinShape, OpErr, Store};

// The top partition of one side goes.
fn drop_one<St: Store>(store: &mut St, c: &Client, parts: &mut Partitions, _other: &Partitions)
    requires own { OwnBoth c.now.tracker 0 parts.old.streams _other.now.streams (St.holds store.old) (St.signs store.old) }
    requires some { 0 < length parts.old.streams }
    ensures called { HasCalledAt St.Store c.now.tracker parts.old parts.new _other.now store.old store.new }
    ensures made { MakesFew 0 (St.signs store.old) (St.signs store.new) }
    ensures shows { (rows : ℕ → List (List ℕ)) → ShowAll rows (side_at St.Store parts.old store.old) → ShowAll rows (side_at St.Store parts.new store.new) }
    ensures whole { AllWhole (side_at St.Store parts.old store.old) → AllWhole (side_at St.Store parts.new store.new) }
    ensures popped { (at : ℕ) → length parts.old.streams ≡ at + 1 → HasPopped at parts.old parts.new }
    ensures closed { AllClosed (side_at St.Store parts.old store.old) → AllClosed (side_at St.Store parts.new store.new) }
    ensures first { AllClosed (side_at St.Store parts.old store.old) → PinsFirstAt St.Store store.old store.new }
{
    let mut top = parts.pop();
    top.drop_all(store);
    top.end();
}

// The top partitions of both sides go, of which one has no rows.
fn drop_top<St: Store>(
    store: &mut St,
    c: &Client,
    shape: &JoinShape,
    left: &mut Partitions,
    right: &mut Partitions,
    _at: usize,
)
    requires op { IsOperator (operator c.now shape.now left.old right.old) (St.holds store.old) (St.signs store.old) }
    requires between { IsBetween (both_at St.Store left.old right.old store.old) }
    requires top { length left.old.streams ≡ _at + 1 }
    ensures op { IsOperator (operator c.now shape.now left.new right.new) (St.holds store.new) (St.signs store.new) }
    ensures leaves { LeavesOthersAt St.Store c.now.tracker store.old store.new }
    ensures made { MakesFew 0 (St.signs store.old) (St.signs store.new) }
    ensures blocks { left.new.page_blocks ≡ left.old.page_blocks }
    ensures between { IsBetween (both_at St.Store left.new right.new store.new) }
    ensures shows { OfShown St.Store left.old right.old store.old (λ lefts rights. ShowBoth lefts rights (both_at St.Store left.new right.new store.new)) }
    ensures popped { HasPopped _at left.old left.new }
    ensures slots { slots_both (both_at St.Store left.new right.new store.new) ≡ slots_both (both_at St.Store left.old right.old store.old) }
    ensures first { PinsFirstAt St.Store store.old store.new }
{
    drop_one(store, c, left, right);
    drop_one(store, c, right, left);
}

// Divides the top partitions of both sides, the left one first.
fn divide_both<St: Store>(
    alloc: Global,
    store: &mut St,
    c: &Client,
    shape: &JoinShape,
    left_columns: &[usize],
    right_columns: &[usize],
    left: &mut Partitions,
    right: &mut Partitions,
    at: usize,
    level: u32,
    spare: &mut Spare,
) -> Result<(), PoolErr>
    requires op { IsOperator (operator c.now shape.now left.old right.old) (St.holds store.old) (St.signs store.old) }
    requires columns { AreColumnsOfBoth shape.now left_columns.now right_columns.now }
    requires between { IsBetween (both_at St.Store left.old right.old store.old) }
    requires top { length left.old.streams ≡ at + 1 }
    requires level { slice_get left.old.levels at ≡ Some level }
    requires deep { level < 16 }
    requires some { HasRowsAt at left.old × HasRowsAt at right.old }
    ensures op { IsOperator (operator c.now shape.now left.new right.new) (St.holds store.new) (St.signs store.new) }
    ensures leaves { LeavesOthersAt St.Store c.now.tracker store.old store.new }
    ensures made { MakesForRows St.Store at left.old right.old store.old store.new }
    ensures blocks { left.new.page_blocks ≡ left.old.page_blocks }
    ensures divided { OnOk result (HasDividedAt St.Store shape.now at level left.old left.new right.old right.new store.old store.new) }
    ensures slots { slots_both (both_at St.Store left.new right.new store.new) ≡ slots_both (both_at St.Store left.old right.old store.old) }
    ensures want { IfErr result (IsWant left.old.page_blocks (slots_both (both_at St.Store left.old right.old store.old))) }
    ensures enough { IfErr result (IsWantFor St.Store left.old right.old store.old) }
    ensures cause { IfErr result (λ e. WasAnswered e (St.signs store.old) (St.signs store.new)) }
{
    left.law_stack();
    right.law_stack();
    law_scratch();
    let _len = store.block_len();
    let left_kinds = shape.left.as_slice();
    let right_kinds = shape.right.as_slice();
    divide_side(
        alloc,
        store,
        c,
        left,
        right,
        left_kinds,
        left_columns,
        at,
        level,
        spare,
    )?;
    divide_side(
        alloc,
        store,
        c,
        right,
        left,
        right_kinds,
        right_columns,
        at,
        level,
        spare,
    )
}

// The pairs of the top partitions are handed on, and these go whatever comes of it.
fn pair_top<St: Store, E: Emit<St>>(
    alloc: Global,
    store: &mut St,
    c: &Client,
    shape: &JoinShape,
    left: &mut Partitions,
    right: &mut Partitions,
    emit: &mut E,
    _at: usize,
) -> Result<(), OpErr>
    requires may { MayJoin St.Store E.Emit c.now shape.now left.old right.old emit.old store.old }
    requires top { length left.old.streams ≡ _at + 1 }
    ensures hands { HandsTop St.Store E.Emit _at c.now shape.now left.old left.new right.old right.new emit.old emit.new store.old store.new result }
    ensures ok { OnOk result (HasPaired St.Store E.Emit _at shape.now left.old left.new right.old right.new emit.old emit.new store.old store.new) }
    ensures popped { HasPopped _at left.old left.new × IsBetween (both_at St.Store left.new right.new store.new) }
    ensures made { MakesBeside 0 (E.creates emit.old) (E.creates emit.new) (St.signs store.old) (St.signs store.new) }
    ensures blocks { left.new.page_blocks ≡ left.old.page_blocks }
    ensures first { OnOk result (HasRowsAt _at left.old → HasRowsAt _at right.old → PinsAgainAt St.Store store.old store.new) }
{
    left.law_stack();
    right.law_stack();
    law_scratch();
    let _len = store.block_len();
    let blocks = left.page_blocks();
    let mut one = left.pop();
    let mut other = right.pop();
    let result = leaf_by_table(alloc, store, c, &mut one, &mut other, shape, blocks, emit);
    one.drop_all(store);
    one.end();
    other.drop_all(store);
    other.end();
    result
}

// Whether both top partitions have rows.
fn have_rows(left: &Partitions, right: &Partitions, at: usize) -> bool
    requires left { at < length left.now.streams }
    requires right { at < length right.now.streams }
    ensures some { result ≡ true → HasRowsAt at left.now × HasRowsAt at right.now }
    ensures none { result ≡ false → HasNoRowsAt at left.now ⊎ HasNoRowsAt at right.now }
{
    if left.rows(at) == 0 {
        return false;
    }
    right.rows(at) > 0
}

// The pages and the rows of the top partition that has fewer pages.
fn fewer(left: &Partitions, right: &Partitions, at: usize) -> (usize, u64)
    requires left { at < length left.now.streams }
    requires right { at < length right.now.streams }
{
    if left.pages(at) < right.pages(at) {
        return (left.pages(at), left.rows(at));
    }
    (right.pages(at), right.rows(at))
}

// Reserves what a table of the rows of the smaller top partition lacks, and two pages beside it. What is refused is no error.
fn reserve_top<St: Store>(
    store: &mut St,
    c: &Client,
    _shape: &JoinShape,
    left: &Partitions,
    right: &Partitions,
)
    requires op { IsOperator (operator c.now _shape.now left.now right.now) (St.holds store.old) (St.signs store.old) }
    requires between { IsBetween (both_at St.Store left.now right.now store.old) }
    requires some { 0 < length left.now.streams }
    ensures op { IsOperator (operator c.now _shape.now left.now right.now) (St.holds store.new) (St.signs store.new) }
    ensures between { IsBetween (both_at St.Store left.now right.now store.new) }
    ensures shows { OfShown St.Store left.now right.now store.old (λ lefts rights. ShowBoth lefts rights (both_at St.Store left.now right.now store.new)) }
    ensures slots { slots_both (both_at St.Store left.now right.now store.new) ≡ slots_both (both_at St.Store left.now right.now store.old) }
    ensures leaves { LeavesOthersAt St.Store c.now.tracker store.old store.new }
    ensures made { MakesFew 0 (St.signs store.old) (St.signs store.new) }
    ensures first { PinsFirstAt St.Store store.old store.new }
{
    let at = left.len() - 1;
    if !have_rows(left, right, at) {
        return;
    }
    let len = u64::from(left.page_blocks()) * u64::from(store.block_len());
    let (pages, rows) = fewer(left, right, at);
    let Some((heads, nodes)) = buffers_in(len, pages, rows, u64::MAX) else {
        return;
    };
    let bytes = (u64::from(heads) + u64::from(nodes) + 2) * len;
    let _reserved = store.reserve_to_fit(c, bytes);
}

// Whether the top partitions are joined: of the last level, or a table of the client's memory has room for the rows of the
// smaller one.
fn is_few<St: Store>(
    store: &St,
    c: &Client,
    left: &Partitions,
    right: &Partitions,
    at: usize,
    level: u32,
) -> bool
    requires client { IsLiveClient c.now (St.holds store.now) }
    requires left { at < length left.now.streams }
    requires right { at < length right.now.streams }
    ensures last { result ≡ false → level ≢ 16 }
{
    if level == 16 {
        return true;
    }
    let len = u64::from(left.page_blocks()) * u64::from(store.block_len());
    let (pages, rows) = fewer(left, right, at);
    buffers_in(len, pages, rows, store.unused(c)).is_some()
}

// The pairs of the top partitions are handed on, or their rows go to sixteen partitions above them.
fn advance<St: Store, E: Emit<St>>(
    alloc: Global,
    store: &mut St,
    c: &Client,
    shape: &JoinShape,
    left_columns: &[usize],
    right_columns: &[usize],
    left: &mut Partitions,
    right: &mut Partitions,
    emit: &mut E,
    spare: &mut Spare,
) -> Result<(), OpErr>
    requires may { MayJoin St.Store E.Emit c.now shape.now left.old right.old emit.old store.old }
    requires columns { AreColumnsOfBoth shape.now left_columns.now right_columns.now }
    requires some { 0 < length left.old.streams }
    ensures hands { HandsDown St.Store E.Emit c.now shape.now left.old left.new right.old right.new emit.old emit.new store.old store.new result }
    ensures ok { OnOk result (HasAdvanced St.Store E.Emit shape.now left.old left.new right.old right.new emit.old emit.new store.old store.new) }
    ensures less { OnOk result (weight left.new < weight left.old) }
    ensures first { OnOk result (EnteredEvents (PinsBefore (emit.new ≡ emit.old)) (St.signs store.old).trail (St.signs store.new).trail) }
    ensures made { MakesOwed St.Store E.Emit left.old right.old emit.old emit.new store.old store.new }
    ensures blocks { left.new.page_blocks ≡ left.old.page_blocks }
{
    let at = left.len() - 1;
    let level = left.level(at);
    if !have_rows(left, right, at) {
        drop_top(store, c, shape, left, right, at);
        return Ok(());
    }
    if !is_few(store, c, left, right, at, level) {
        divide_both(
            alloc,
            store,
            c,
            shape,
            left_columns,
            right_columns,
            left,
            right,
            at,
            level,
            spare,
        )?;
        return Ok(());
    }
    pair_top(alloc, store, c, shape, left, right, emit, at)
}

// The pairs of all partitions are handed on, the top ones first.
pub(crate) fn join_parts<St: Store, E: Emit<St>>(
    alloc: Global,
    store: &mut St,
    c: &Client,
    shape: &JoinShape,
    left_columns: &[usize],
    right_columns: &[usize],
    left: &mut Partitions,
    right: &mut Partitions,
    emit: &mut E,
    spare: &mut Spare,
) -> Result<(), OpErr>
    requires may { MayJoin St.Store E.Emit c.now shape.now left.old right.old emit.old store.old }
    requires columns { AreColumnsOfBoth shape.now left_columns.now right_columns.now }
    ensures hands { HandsDown St.Store E.Emit c.now shape.now left.old left.new right.old right.new emit.old emit.new store.old store.new result }
    ensures ok { OnOk result (HasJoined St.Store E.Emit shape.now left.old right.old emit.old emit.new store.old store.new) }
    ensures first { OnOk result (EnteredEvents (PinsBefore (emit.new ≡ emit.old)) (St.signs store.old).trail (St.signs store.new).trail) }
    ensures made { MakesOwed St.Store E.Emit left.old right.old emit.old emit.new store.old store.new }
    ensures closed { OnOk result (IsBetween (both_at St.Store left.new right.new store.new)) }
{
    let _len = store.block_len();
    'down: while left.len() > 0 {
        reserve_top(store, c, shape, left, right);
        advance(
            alloc,
            store,
            c,
            shape,
            left_columns,
            right_columns,
            left,
            right,
            emit,
            spare,
        )?;
    }
    Ok(())
}

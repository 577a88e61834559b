//! The rows of a table go to partitions.
ghost use Rattle.std.specs.Prelude.{◌≡◌, ◌+◌, ◌<◌, ◌≤◌, length, OnErr, OnOk, IfErr};
ghost use Rattle.store_api.specs.Conditions.{IsLiveClient};
ghost use Rattle.store_api.specs.Holdings.{length_of};
ghost use Rattle.store_api.specs.Signs.{WasAnswered};
ghost use Rattle.tuple_stream.specs.Families.{AreShaped, pages_in};
ghost use Rattle.tuple_stream.specs.FamilyCalls.{AllAtEnd, Feeds};
ghost use Rattle.tuple_stream.specs.Steps.{came};
ghost use Rattle.tuple_stream.specs.Touches.{IsFull};
ghost use Rattle.partition_stack.specs.Stack.{HasRoomFrom, over};
ghost use Rattle.partition_stack.specs.Changes.{ChangesAt};
ghost use Rattle.group_op.specs.Held.{AreEntries, IsHeld, page_len, state};
ghost use Rattle.group_op.specs.Putting.{FewCame, HasFlushed, IsFan, Works};
ghost use Rattle.group_op.specs.Stored.{IsPartialRow, key_at, place_of};
ghost use Rattle.row_codec.specs.Order.{hash_of};
ghost use Rattle.group_op.specs.Wanting.{StandNoMore};

use crate::hashing::hash_of_partial;
use crate::reduction::Reduction;
use bucket_table::BucketTable;
use partition_stack::Partitions;
use reservation_tree::PoolErr;
use row_codec::nibble;
use std::alloc::Global;
use store_api::{Client, Shape, Store};

/// Where rows go: to the sixteen partitions of a level, by the nibble of their key's hash at that level, of which the
/// lowest stands at `base`.
#[derive(Clone, Copy)]
pub struct Fan {
    /// The level, below 16.
    pub level: u32,
    /// The place of the lowest of the sixteen.
    pub base: usize,
    /// The partitions below this place have no pinned page.
    pub from: usize,
}

// While rows are fed they go to the sixteen partitions of the first level.
pub(crate) const FIRST: Fan = Fan {
    level: 0,
    base: 0,
    from: 0,
};

/// What stands beside a table: memory that each row takes again, and the counts of its rows.
#[derive(Drop)]
pub struct Spare {
    /// A row's bytes.
    pub row: Vec<u8>,
    /// The rows since the table was emptied.
    pub reduction: Reduction,
}

impl Spare {
    pub(crate) fn new(alloc: Global) -> Spare {
        Spare {
            row: Vec::new(alloc),
            reduction: Reduction::new(),
        }
    }
}

/// Moves all rows of the table to their partitions, the oldest first, and clears the table.
///
/// # Errors
///
/// The store answered so in this call, or there was no memory. The table has all its rows; some of them may stand in
/// their partitions too, so a caller ends the grouping.
#[inline(never)]
pub fn flush<St: Store>(
    alloc: Global,
    store: &mut St,
    c: &Client,
    shape: &Shape,
    table: &mut BucketTable,
    parts: &mut Partitions,
    fan: Fan,
    spare: &mut Spare,
) -> Result<(), PoolErr>
    requires held { IsHeld c.now.tracker (state table.old parts.old (St.holds store.old) (St.signs store.old)) }
    requires entries { AreEntries shape.now (page_len (state table.old parts.old (St.holds store.old) (St.signs store.old))) table.old }
    requires fan { IsFan fan.level fan.base fan.from parts.old }
    ensures ok { OnOk result (HasFlushed c.now.tracker shape.now fan.level fan.base (state table.old parts.old (St.holds store.old) (St.signs store.old)) (state table.new parts.new (St.holds store.new) (St.signs store.new))) }
    ensures works { Works c.now.tracker shape.now (state table.old parts.old (St.holds store.old) (St.signs store.old)) (state table.new parts.new (St.holds store.new) (St.signs store.new)) }
    ensures few { FewCame (state table.old parts.old (St.holds store.old) (St.signs store.old)) (state table.new parts.new (St.holds store.new) (St.signs store.new)) }
    ensures fan { IsFan fan.level fan.base fan.from parts.new }
    ensures stand { OnErr result (StandNoMore (state table.old parts.old (St.holds store.old) (St.signs store.old)) (state table.new parts.new (St.holds store.new) (St.signs store.new))) }
    ensures cause { IfErr result (λ e. WasAnswered e (St.signs store.old) (St.signs store.new)) }
    ensures full { IfErr result (IsFull parts.old.page_blocks (St.holds store.new).free_slots) }
{
    let mut next = table.first_node();
    while let Some(node) = next {
        table.row_at(node, &mut spare.row)?;
        let Some(hash) = hash_of_partial(&spare.row, shape) else {
            return Err(PoolErr::Memory);
        };
        send(alloc, store, c, shape, parts, fan, &spare.row, hash)?;
        next = table.next_node(node);
    }
    table.clear();
    spare.reduction = Reduction::new();
    Ok(())
}

// Appends a row, by the hash of its key, to its partition.
#[inline(never)]
pub(crate) fn send<St: Store>(
    alloc: Global,
    store: &mut St,
    c: &Client,
    _shape: &Shape,
    parts: &mut Partitions,
    fan: Fan,
    row: &[u8],
    hash: u64,
) -> Result<(), PoolErr>
    requires client { IsLiveClient c.now (St.holds store.old) }
    requires shaped { AreShaped c.now.tracker (over parts.old (St.holds store.old) (St.signs store.old)) }
    requires room { HasRoomFrom c.now.tracker fan.from parts.old (St.holds store.old) (St.signs store.old) }
    requires fan { IsFan fan.level fan.base fan.from parts.old }
    requires row { IsPartialRow _shape.now row.now }
    requires hash { hash ≡ hash_of (key_at _shape.now row.now) }
    requires short { length row.now ≤ length_of parts.old.page_blocks (St.holds store.old) }
    ensures went { Feeds c.now.tracker (place_of _shape.now fan.level fan.base row.now) (came result row.now) (over parts.old (St.holds store.old) (St.signs store.old)) (over parts.new (St.holds store.new) (St.signs store.new)) }
    ensures at_end { OnOk result (AllAtEnd (over parts.old (St.holds store.old) (St.signs store.old)) → AllAtEnd (over parts.new (St.holds store.new) (St.signs store.new))) }
    ensures few { pages_in (over parts.new (St.holds store.new) (St.signs store.new)) ≤ pages_in (over parts.old (St.holds store.old) (St.signs store.old)) + 1 }
    ensures changes { ChangesAt (place_of _shape.now fan.level fan.base row.now) parts.old parts.new }
    ensures cause { IfErr result (λ e. WasAnswered e (St.signs store.old) (St.signs store.new)) }
    ensures full { IfErr result (IsFull parts.old.page_blocks (St.holds store.new).free_slots) }
{
    let at = fan.base + (15 - nibble(hash, fan.level) as usize);
    parts.append(alloc, store, c, at, row)
}

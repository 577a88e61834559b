//! A buffer and a row of slots, where each slot holds its block behind the block's mark.
ghost use Rattle.std.specs.Prelude.{◌≡◌, ◌≤◌, ◌<◌, ◌^◌, ◌++◌, length, drop, OnErr};
ghost use Rattle.outside.specs.Counts.{Rose};
ghost use Rattle.block_arena.specs.Memory.{block_of, with_bytes};
ghost use Rattle.reservation_tree.specs.Marks.{mark_bytes};
ghost use Rattle.scratch_dev.specs.Rows.{IsStored, IsLoadedUnder, RoseIfFailed, Walked, faults_of, mark_of, marked_block};

use crate::shells::SlotRow;
use block_arena::Buf;
use outside::{Failed, Slot};
use reservation_tree::Mark;

/// Why a load of marked blocks ended.
#[derive(Clone, Copy, Debug, PartialEq, Eq)]
pub enum LoadErr {
    /// A slot failed.
    Failed,
    /// A slot gave a block with another mark than the wanted one.
    Stale { wanted: Mark, found: Mark },
}

/// Puts each block of the buffer into its slot, behind its mark: this page's name, this version, and which block it
/// is. The first slot that fails ends the call.
///
/// # Errors
///
/// [`Failed`]: a slot failed. Those before it hold their blocks; what it holds is unknown.
pub fn store_marked<D: Slot>(
    buf: &mut Buf,
    row: &mut SlotRow<D>,
    name: u64,
    version: u64,
) -> Result<(), Failed>
    requires { length row.old ≡ buf.old.blocks }
    ensures slots { Walked (λ i. IsStored D.Slot (marked_block name version buf.old i)) result row.old row.new }
    ensures len { length row.new ≡ length row.old }
    ensures buffer { buf.new ≡ buf.old }

    // The sum of the row's counts of faults never falls, and rises with a failure.
    ensures never_falls { faults_of D.Slot row.old ≤ faults_of D.Slot row.new }
    ensures failed { OnErr result (Rose (faults_of D.Slot row.old) (faults_of D.Slot row.new)) }
{
    for i in 0..row.slots.len() {
        let mark = Mark {
            name,
            version,
            block: i as u32,
        };
        store_under(&mut row.slots[i], buf.marked_mut(i), mark)?;
    }
    Ok(())
}

// Here alone a block goes into a slot behind its mark.
#[inline]
fn store_under<D: Slot>(slot: &mut D, block: &mut [u8], mark: Mark) -> Result<(), Failed>
    requires { 20 ≤ length block.old }
    ensures slot { IsStored D.Slot (mark_bytes mark ++ drop 20 block.old) result slot.old slot.new }
    ensures block { drop 20 block.new ≡ drop 20 block.old }
{
    mark.write(block);
    slot.store(block)
}

/// Fills each block of the buffer with what its slot holds behind the mark of that block. The first slot that fails or
/// gives another mark ends the call.
///
/// # Errors
///
/// `Failed`: a slot failed. `Stale`: a slot gave a block with another mark. The blocks before are those that the slots
/// gave; the bytes of this one are unknown.
pub fn load_marked<D: Slot>(
    buf: &mut Buf,
    row: &mut SlotRow<D>,
    name: u64,
    version: u64,
) -> Result<(), LoadErr>
    requires { length row.old ≡ buf.old.blocks }
    ensures slots { Walked (λ i. IsLoadedUnder D.Slot (mark_of name version i) (block_of buf.new i)) result row.old row.new }
    ensures len { length row.new ≡ length row.old }
    ensures buffer { buf.new ≡ with_bytes buf.old buf.new.bytes }
    ensures bytes { length buf.new.bytes ≡ length buf.old.bytes }

    // The sum of the row's counts of faults never falls, and rises with a failure.
    ensures never_falls { faults_of D.Slot row.old ≤ faults_of D.Slot row.new }
    ensures failed { RoseIfFailed result (faults_of D.Slot row.old) (faults_of D.Slot row.new) }
{
    for i in 0..row.slots.len() {
        let mark = Mark {
            name,
            version,
            block: i as u32,
        };
        match load_under(&mut row.slots[i], buf.marked_mut(i), mark) {
            Ok(()) => {}
            Err(ended) => return Err(ended),
        }
    }
    Ok(())
}

// Here alone a block comes out of a slot with its mark.
#[inline]
fn load_under<D: Slot>(slot: &mut D, block: &mut [u8], mark: Mark) -> Result<(), LoadErr>
    requires { 20 ≤ length block.old }
    ensures { IsLoadedUnder D.Slot mark (drop 20 block.new) result slot.old slot.new }
{
    match slot.load(block) {
        Ok(()) => {}
        Err(_) => return Err(LoadErr::Failed),
    }
    let found = Mark::read(block);
    if found != mark {
        return Err(LoadErr::Stale {
            wanted: mark,
            found,
        });
    }
    Ok(())
}

//! A buffer and a row of slots: as many slots as blocks, the first block in the first slot.
ghost use Rattle.std.specs.Prelude.{◌≡◌, ◌≤◌, length, OnErr};
ghost use Rattle.outside.specs.Counts.{Rose};
ghost use Rattle.block_arena.specs.Memory.{block_of, with_bytes};
ghost use Rattle.scratch_dev.specs.Rows.{IsStored, IsLoaded, Walked, faults_of};

use crate::shells::SlotRow;
use block_arena::Buf;
use outside::{Failed, Slot};

/// Puts each block of the buffer into its slot. The first slot that fails ends the call.
///
/// # Errors
///
/// [`Failed`]: a slot failed. Those before it hold their blocks; what it holds is unknown.
pub fn store_all<D: Slot>(buf: &Buf, row: &mut SlotRow<D>) -> Result<(), Failed>
    requires { length row.old ≡ buf.now.blocks }
    ensures slots { Walked (λ i. IsStored D.Slot (block_of buf.now i)) result row.old row.new }
    ensures len { length row.new ≡ length row.old }

    // The sum of the row's counts of faults never falls, and rises with a failure.
    ensures never_falls { faults_of D.Slot row.old ≤ faults_of D.Slot row.new }
    ensures failed { OnErr result (Rose (faults_of D.Slot row.old) (faults_of D.Slot row.new)) }
{
    for i in 0..row.slots.len() {
        store_block(&mut row.slots[i], buf.block(i))?;
    }
    Ok(())
}

/// Fills each block of the buffer with what its slot holds. The first slot that fails ends the call.
///
/// # Errors
///
/// [`Failed`]: a slot failed. The blocks before its own are those that the slots hold; the bytes of
/// its own are unknown.
pub fn load_all<D: Slot>(buf: &mut Buf, row: &mut SlotRow<D>) -> Result<(), Failed>
    requires { length row.old ≡ buf.old.blocks }
    ensures slots { Walked (λ i. IsLoaded D.Slot (block_of buf.new i)) result row.old row.new }
    ensures len { length row.new ≡ length row.old }
    ensures buffer { buf.new ≡ with_bytes buf.old buf.new.bytes }
    ensures bytes { length buf.new.bytes ≡ length buf.old.bytes }

    // The sum of the row's counts of faults never falls, and rises with a failure.
    ensures never_falls { faults_of D.Slot row.old ≤ faults_of D.Slot row.new }
    ensures failed { OnErr result (Rose (faults_of D.Slot row.old) (faults_of D.Slot row.new)) }
{
    for i in 0..row.slots.len() {
        load_block(&mut row.slots[i], buf.block_mut(i))?;
    }
    Ok(())
}

// Here alone a block goes into a slot.
#[inline]
fn store_block<D: Slot>(slot: &mut D, block: &[u8]) -> Result<(), Failed>
    ensures { IsStored D.Slot block.now result slot.old slot.new }
{
    slot.store(block)
}

// Here alone a block comes out of a slot.
#[inline]
fn load_block<D: Slot>(slot: &mut D, block: &mut [u8]) -> Result<(), Failed>
    ensures { IsLoaded D.Slot block.new result slot.old slot.new }
{
    slot.load(block)
}

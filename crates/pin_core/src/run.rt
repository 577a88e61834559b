//! Jobs store and load their blocks, outside the pool's value.
ghost use Rattle.std.specs.Prelude.{◌≡◌, ◌≤◌, ◌<◌, ◌++◌, ℕ, List, true, false, Some, None, if◌then◌else◌, length, map, slice_index_or, OnErr};
ghost use Rattle.outside.specs.Counts.{Rose};
ghost use Rattle.outside.specs.Slots.{KeepsStrays};
ghost use Rattle.block_arena.specs.Memory.{block_of, with_bytes};
ghost use Rattle.pool_model.specs.ScratchRows.{IsFault};
ghost use Rattle.scratch_dev.specs.Rows.{IsStored, Walked, RoseIfFailed, faults_of, CountsStores};
ghost use Rattle.pin_core.specs.Marking.{front_of};
ghost use Rattle.pin_core.specs.Standing.{AreHeld};
ghost use Rattle.pin_core.specs.calls.Returning.{stale_loads};
ghost use Rattle.pin_core.specs.calls.Runs.{AllTell, AllGiveHeld, CountsFaults, CountsStrays, GaveBytes, IfFoundOther, IsFit, IsLoadedAs, after_loads, after_stores, load_end, is_sure};

use crate::jobs::{ReadJob, Stale, WriteJob};
use block_arena::Buf;
use outside::{Failed, Gate, Point, Slot};
use scratch_dev::{LoadErr, SlotRow, load_all, load_marked, store_all, store_marked};

impl<D: Slot> WriteJob<D> {
    /// Stores all blocks, up to the first store that fails. `who` passes the gate before and after.
    pub fn run<G: Gate>(&mut self, gate: &G, who: u32)
        requires fit { IsFit self.old.buf self.old.row }
        ensures rest { self.new ≡ after_stores self.new.row self.new.failed self.old }
        ensures len { length self.new.row ≡ length self.old.row }
        ensures held { self.new.failed ≡ false → AreHeld D.Slot self.old.under self.old.id.name self.old.buf.block_len self.new.row self.old.buf.bytes }
        ensures tells { map (is_sure D.Slot) self.new.row ≡ map (is_sure D.Slot) self.old.row }

        // Each slot counts a store, unless one failed, and no stray.
        ensures stores { CountsStores D.Slot (if self.new.failed then 0 else length self.old.row) self.old.row self.new.row }
        ensures strayed { CountsStrays D.Slot 0 self.old.row self.new.row }

        // The sum of the slots' counts of faults never falls. It rises with a failure where none of them stands at its
        // last value, and where the sum itself is less than that.
        ensures faults { CountsFaults D.Slot (if self.new.failed then 1 else 0) self.old.row self.new.row }
        ensures never_falls { faults_of D.Slot self.old.row ≤ faults_of D.Slot self.new.row }
        ensures failed { self.new.failed ≡ true → IsFault (faults_of D.Slot self.old.row) (faults_of D.Slot self.new.row) }
    {
        gate.pass(who, Point::BeforeStore);
        self.failed = store_blocks(&mut self.buf, &mut self.row, self.under, self.id.name).is_err();
        gate.pass(who, Point::AfterStore);
    }
}

impl<D: Slot> ReadJob<D> {
    /// Loads all blocks, up to the first load that fails or gives another mark. `who` passes the gate before and after.
    pub fn run<G: Gate>(&mut self, gate: &G, who: u32)
        requires fit { IsFit self.old.buf self.old.row }
        ensures rest { self.new ≡ after_loads self.new.buf.bytes self.new.row self.new.failed self.new.stale self.old }
        ensures bytes { length self.new.buf.bytes ≡ length self.old.buf.bytes }
        ensures len { length self.new.row ≡ length self.old.row }

        // Each load that went well gave what stands in front of its block, and the block that the buffer shows.
        ensures gave { self.new.failed ≡ false → self.new.stale ≡ None → (i : ℕ) → (d : D) → i < length self.old.row → GaveBytes D.Slot (front_of self.old.under self.old.id.name i ++ block_of self.new.buf i) (slice_index_or self.old.row i d) (slice_index_or self.new.row i d) }

        // Where all slots tell what they hold and none strayed, the buffer shows it, and no other mark was found; and they
        // hold it still, after a failure too.
        ensures shows { self.new.failed ≡ false → self.new.stale ≡ None → AllTell D.Slot self.old.row → AllGiveHeld D.Slot self.old.row self.new.row → (bytes : List ℕ) → length bytes ≡ length self.old.buf.bytes → AreHeld D.Slot self.old.under self.old.id.name self.old.buf.block_len self.old.row bytes → self.new.buf.bytes ≡ bytes }
        ensures fresh { AllTell D.Slot self.old.row → AllGiveHeld D.Slot self.old.row self.new.row → (bytes : List ℕ) → length bytes ≡ length self.old.buf.bytes → AreHeld D.Slot self.old.under self.old.id.name self.old.buf.block_len self.old.row bytes → self.new.stale ≡ None }
        ensures found { IfFoundOther self.old.under self.old.id.name (length self.old.row) self.new.stale }
        ensures held { (len : ℕ) → (bytes : List ℕ) → AreHeld D.Slot self.old.under self.old.id.name len self.old.row bytes → AreHeld D.Slot self.old.under self.old.id.name len self.new.row bytes }
        ensures tells { map (is_sure D.Slot) self.new.row ≡ map (is_sure D.Slot) self.old.row }
        ensures stores { map D.Slot.stores self.new.row ≡ map D.Slot.stores self.old.row }
        ensures strays { (i : ℕ) → (d : D) → i < length self.old.row → KeepsStrays (D.Slot.strays (slice_index_or self.old.row i d)) (D.Slot.strays (slice_index_or self.new.row i d)) }

        // Where the slots hold the page's bytes, as far as they tell, and another mark was found, one of them counts a stray.
        ensures strayed { (bytes : List ℕ) → length bytes ≡ length self.old.buf.bytes → AreHeld D.Slot self.old.under self.old.id.name self.old.buf.block_len self.old.row bytes → CountsStrays D.Slot (stale_loads self.new.failed self.new.stale) self.old.row self.new.row }

        // The sum of the slots' counts of faults never falls. It rises with a failure where none of them stands at its
        // last value, and where the sum itself is less than that.
        ensures faults { CountsFaults D.Slot (if self.new.failed then 1 else 0) self.old.row self.new.row }
        ensures never_falls { faults_of D.Slot self.old.row ≤ faults_of D.Slot self.new.row }
        ensures failed { self.new.failed ≡ true → IsFault (faults_of D.Slot self.old.row) (faults_of D.Slot self.new.row) }
    {
        gate.pass(who, Point::BeforeLoad);
        let ended = load_blocks(&mut self.buf, &mut self.row, self.under, self.id.name);
        let (failed, stale) = end_of(ended);
        self.failed = failed;
        self.stale = stale;
        gate.pass(who, Point::AfterLoad);
    }
}

// Stores each block, behind its mark where there is a version.
fn store_blocks<D: Slot>(
    buf: &mut Buf,
    row: &mut SlotRow<D>,
    under: Option<u64>,
    name: u64,
) -> Result<(), Failed>
    requires { length row.old ≡ buf.old.blocks }
    ensures slots { Walked (λ i. IsStored D.Slot (front_of under name i ++ block_of buf.old i)) result row.old row.new }
    ensures len { length row.new ≡ length row.old }
    ensures buffer { buf.new ≡ buf.old }
    ensures never_falls { faults_of D.Slot row.old ≤ faults_of D.Slot row.new }
    ensures failed { OnErr result (Rose (faults_of D.Slot row.old) (faults_of D.Slot row.new)) }
{
    if let Some(version) = under {
        return store_marked(buf, row, name, version);
    }
    store_all(buf, row)
}

// Loads each block, from behind its mark where there is a version.
fn load_blocks<D: Slot>(
    buf: &mut Buf,
    row: &mut SlotRow<D>,
    under: Option<u64>,
    name: u64,
) -> Result<(), LoadErr>
    requires { length row.old ≡ buf.old.blocks }
    ensures slots { Walked (λ i. IsLoadedAs D.Slot under name i (block_of buf.new i)) result row.old row.new }
    ensures len { length row.new ≡ length row.old }
    ensures buffer { buf.new ≡ with_bytes buf.old buf.new.bytes }
    ensures bytes { length buf.new.bytes ≡ length buf.old.bytes }
    ensures never_falls { faults_of D.Slot row.old ≤ faults_of D.Slot row.new }
    ensures failed { RoseIfFailed result (faults_of D.Slot row.old) (faults_of D.Slot row.new) }
{
    if let Some(version) = under {
        return load_marked(buf, row, name, version);
    }
    if load_all(buf, row).is_err() {
        return Err(LoadErr::Failed);
    }
    Ok(())
}

// Whether a load failed, and which other mark was found.
fn end_of(ended: Result<(), LoadErr>) -> (bool, Option<Stale>)
    ensures { result ≡ load_end ended }
{
    match ended {
        Ok(()) => (false, None),
        Err(LoadErr::Failed) => (true, None),
        Err(LoadErr::Stale { wanted, found }) => (false, Some(Stale { wanted, found })),
    }
}

//! A page that was loaded comes back.
ghost use Rattle.std.specs.Prelude.{◌≡◌, ◌↔◌, true, IsErr, IfOk, IfErr};
ghost use Rattle.page_table.specs.declared.entry.Place.TheVariants as spot;
ghost use Rattle.pin_core.specs.Invariant.{IsKept};
ghost use Rattle.pin_core.specs.Lawful.{Lawful};
ghost use Rattle.pin_core.specs.parts.Changes.{entry_at};
ghost use Rattle.pin_core.specs.parts.Ends.{ComesBack, outdated, read_ended};
ghost use Rattle.pin_core.specs.calls.Returning.{ended_badly, read_refusal};

use crate::jobs::{ReadJob, Stale, put_at};
use crate::lengths;
use crate::parts::Parts;
use crate::pool::PoolState;
use block_arena::Buf;
use outside::Slot;
use page_table::{Mem, PageId, Place};
use reservation_tree::{PoolErr, TrackerId};
use scratch_dev::SlotRow;

impl<D: Slot + Drop> PoolState<D> {
    ghost use Rattle.std.specs.Prelude.{ℕ, ◌<◌, ◌++◌, List, Some, length};
    ghost use Rattle.block_arena.specs.Memory.{block_of};
    ghost use Rattle.pool_model.specs.declared.entry.Entry.{Entry as Event};
    ghost use Rattle.pool_model.specs.LookingBack.{content_of};
    ghost use Rattle.pool_model.specs.ScratchRows.{IsFault};
    ghost use Rattle.pool_model.specs.State.{Opening};
    ghost use Rattle.pool_model.specs.StoredBlocks.{IsStored};
    ghost use Rattle.pin_core.specs.Marking.{front_of};
    ghost use Rattle.pin_core.specs.Standing.{StandsFor};
    ghost use Rattle.pin_core.specs.StateOf.{state_of};
    ghost use Rattle.pin_core.specs.calls.Jobs.{IsReadJob};
    ghost use Rattle.pin_core.specs.calls.Runs.{IfFoundOther};
    ghost use Rattle.pin_core.specs.calls.Returning.{EntersWhere, IsRead, read_entry};

    /// Ends a read: the page is pinned once, and its buffer comes back.
    ///
    /// `_since` is what the session's last `ask` answered. It isn't looked at: a failure from before that
    /// call is forgotten already.
    ///
    /// # Errors
    ///
    /// `ReadFault`, with the number of the entry: a load failed. The page is evicted again, and the failure
    /// is noted for its client. The entry has the sums of the slots' faults before and after, as the caller
    /// counts them. `Stale`, with both marks: a load gave a block with another mark. The page is evicted again.
    pub fn finish_read(&mut self, _since: u64, job: ReadJob<D>) -> Result<Buf, PoolErr>
        requires job { IsReadJob (state_of self.old) job }
        requires found { IfFoundOther job.under job.id.name (length job.row) job.stale }
        ensures ok { IfOk result (λ buf. buf ≡ job.buf) }
        ensures refused { IsErr result ↔ (ended_badly job.failed job.stale ≡ true) }
        ensures cause { IfErr result (λ e. e ≡ read_refusal job.failed job.stale (state_of self.old).entries) }
        ensures enters { (before now : ℕ) → IsFault before now → EntersWhere D.Slot (IsRead D.Slot (state_of self.old).block_len job) (read_entry (state_of self.old) job before now) job.row self.old self.new }

        // Where each block that the load gave was stored in this pool, at any time and in any slot, the buffer has the
        // page's content.
        ensures content { (version : ℕ) → job.under ≡ Some version → (o : Opening) (h : List Event) → StandsFor D.Slot o h self.old → length h < 18446744073709551615 → ((i : ℕ) → i < length job.row → IsStored o h (front_of job.under job.id.name i ++ block_of job.buf i)) → IfOk result (λ buf. buf.bytes ≡ content_of o h job.id.name) }
    {
        self.parts.laws();
        self.parts.finish_read(job)
    }
}

impl<D: Drop> Parts<D> {
    // The page is pinned, or evicted again.
    pub(crate) fn finish_read(&mut self, job: ReadJob<D>) -> Result<Buf, PoolErr>
        requires kept { IsKept self.old }
        requires laws { Lawful self.old }
        requires back { ComesBack self.old spot.Loading job.id (entry_at self.old job.id.name) job.buf job.row }
        requires client { job.client ≡ (entry_at self.old job.id.name).client }
        ensures parts { self.new ≡ read_ended job.failed job.stale job.id (entry_at self.old job.id.name) job.row self.old }
        ensures ok { IfOk result (λ buf. buf ≡ job.buf) }
        ensures refused { IsErr result ↔ (ended_badly job.failed job.stale ≡ true) }
        ensures cause { IfErr result (λ e. e ≡ read_refusal job.failed job.stale self.old.entries) }
    {
        let ReadJob {
            id,
            client,
            under: _,
            buf,
            row,
            failed,
            stale,
        } = job;
        let entry = self.entries;
        if failed {
            self.entries = lengths::counted(entry);
            let shell = self.arena.take_back(buf);
            let len = lengths::bytes(self.block_len, shell.room());
            let session = put_at(&mut self.pages, id, Place::Evicted, Mem::Empty(shell), row);
            self.seats.note(session, client, entry);
            self.lists.take_out(client, id.key);
            self.tree.release(TrackerId::of(client), len);
            return Err(PoolErr::ReadFault { entry });
        }
        if let Some(Stale { wanted, found }) = stale {
            self.outdate(id, client, buf, row);
            return Err(PoolErr::Stale { wanted, found });
        }
        self.entries = lengths::counted(entry);
        let _session = put_at(&mut self.pages, id, Place::Pinned(1), Mem::Out, row);
        Ok(buf)
    }

    // The page is evicted again, and no failure is noted.
    fn outdate(&mut self, id: PageId, client: u32, buf: Buf, row: SlotRow<D>)
        requires kept { IsKept self.old }
        requires laws { Lawful self.old }
        requires back { ComesBack self.old spot.Loading id (entry_at self.old id.name) buf row }
        requires client { client ≡ (entry_at self.old id.name).client }
        ensures { self.new ≡ outdated id (entry_at self.old id.name) row self.old }
    {
        self.entries = lengths::counted(self.entries);
        let shell = self.arena.take_back(buf);
        let len = lengths::bytes(self.block_len, shell.room());
        let _session = put_at(&mut self.pages, id, Place::Evicted, Mem::Empty(shell), row);
        self.lists.take_out(client, id.key);
        self.tree.release(TrackerId::of(client), len);
    }
}

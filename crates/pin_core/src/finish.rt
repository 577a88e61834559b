//! A page that was written comes back.
ghost use Rattle.std.specs.Prelude.{◌≡◌};
ghost use Rattle.page_table.specs.declared.entry.Place.TheVariants as spot;
ghost use Rattle.pin_core.specs.Invariant.{IsKept};
ghost use Rattle.pin_core.specs.Lawful.{Lawful};
ghost use Rattle.pin_core.specs.parts.Changes.{entry_at};
ghost use Rattle.pin_core.specs.parts.Ends.{ComesBack, write_ended};
ghost use Rattle.pin_core.specs.calls.Returning.{wrote};

use crate::jobs::{WriteJob, put_at};
use crate::lengths;
use crate::parts::Parts;
use crate::pool::PoolState;
use client_lists::Which;
use outside::Slot;
use page_table::{Mem, Place};

/// How the write of a page ended, with the page's name.
#[derive(Clone, Copy, Debug, PartialEq, Eq)]
pub enum Wrote {
    /// Its bytes are in its slots, and it is clean.
    Done(u64),
    /// A store failed, and it is dirty again.
    Failed(u64),
}

impl<D: Slot + Drop> PoolState<D> {
    ghost use Rattle.std.specs.Prelude.{ℕ};
    ghost use Rattle.pool_model.specs.ScratchRows.{IsFault};
    ghost use Rattle.pin_core.specs.StateOf.{state_of};
    ghost use Rattle.pin_core.specs.calls.Jobs.{IsWriteJob};
    ghost use Rattle.pin_core.specs.calls.Returning.{EntersWhere, IsWritten, write_entry};

    /// Ends a write: the page is clean, or dirty again where a store failed. A failure is noted for the
    /// client's next call that lacks room.
    ///
    /// The entry of a write that failed has the sums of the slots' faults before and after, as the caller
    /// counts them.
    pub fn finish_write(&mut self, job: WriteJob<D>) -> Wrote
        requires job { IsWriteJob (state_of self.old) job }
        ensures wrote { result ≡ wrote job.failed job.id.name }
        ensures enters { (before now : ℕ) → IsFault before now → EntersWhere D.Slot (IsWritten D.Slot (state_of self.old).block_len job) (write_entry job before now) job.row self.old self.new }
    {
        self.parts.laws();
        self.parts.finish_write(job)
    }
}

impl<D: Drop> Parts<D> {
    // The page is clean, or dirty again.
    pub(crate) fn finish_write(&mut self, job: WriteJob<D>) -> Wrote
        requires kept { IsKept self.old }
        requires laws { Lawful self.old }
        requires back { ComesBack self.old (spot.Flying job.who) job.id (entry_at self.old job.id.name) job.buf job.row }
        requires client { job.client ≡ (entry_at self.old job.id.name).client }
        ensures parts { self.new ≡ write_ended job.failed job.id (entry_at self.old job.id.name) job.buf job.row self.old }
        ensures wrote { result ≡ wrote job.failed job.id.name }
    {
        let WriteJob {
            id,
            who: _,
            client,
            under: _,
            buf,
            row,
            failed,
        } = job;
        let entry = self.entries;
        self.entries = lengths::counted(entry);
        if failed {
            let session = put_at(&mut self.pages, id, Place::Dirty, Mem::Held(buf), row);
            self.seats.note(session, client, entry);
            self.lists.shift(client, id.key, Which::Dirty);
            Wrote::Failed(id.name)
        } else {
            let _session = put_at(&mut self.pages, id, Place::Clean, Mem::Held(buf), row);
            self.lists.take_out(client, id.key);
            self.clean.push(id.key);
            Wrote::Done(id.name)
        }
    }
}

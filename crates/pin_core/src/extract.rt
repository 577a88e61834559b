//! A page's blocks become a buffer of its client.
ghost use Rattle.std.specs.Prelude.{◌≡◌, ◌∷◌, [], None};
ghost use Rattle.std.specs.FinMap.{get};
ghost use Rattle.pool_model.specs.State.{page_at};
ghost use Rattle.pin_core.specs.StateOf.{state_of};
ghost use Rattle.pin_core.specs.parts.Changes.{entry_at};
ghost use Rattle.pin_core.specs.calls.Unpinning.{CanUnpin};
ghost use Rattle.pin_core.specs.calls.Ending.{extract_entry};
ghost use Rattle.pin_core.specs.parts.Ended.{ReadyExtract, extracted};

use crate::parts::Parts;
use crate::pool::{PoolState, id_of};
use crate::{leavings, lengths};
use block_arena::Buf;
use outside::Slot;
use page_table::PageId;
use reservation_tree::TrackerId;
use store_api::{Loan, Page};

impl<D: Slot + Drop> PoolState<D> {
    ghost use Rattle.pin_core.specs.Standing.{Enters};
    ghost use Rattle.pin_core.specs.calls.Needs.{IsLastPin};

    /// Ends a page that has one pin, and makes its buffer a loan of its client. The charge stays, and the
    /// page's slots are free. Which number the loan gets is open, but that no live buffer has it.
    pub fn extract(&mut self, p: Page, buf: Buf) -> Loan
        requires last { IsLastPin (state_of self.old) p buf }
        ensures enters { Enters D.Slot (extract_entry (state_of self.old) p.name result.number ∷ []) [] [] self.old self.new }
        ensures fresh { get (state_of self.old).buffers result.number ≡ None }
        ensures loan { result ≡ record { number = result.number; client = (page_at (state_of self.old) p.name).client; buf = buf } }
    {
        self.parts.laws();
        let id = id_of(&p);
        p.into_name();
        self.parts.extract(id, buf)
    }
}

impl<D: Drop> Parts<D> {
    // The page is gone, and its buffer is a loan.
    pub(crate) fn extract(&mut self, id: PageId, buf: Buf) -> Loan
        requires can { CanUnpin self.old id (entry_at self.old id.name) buf }
        requires ready { ReadyExtract self.old id (entry_at self.old id.name) }
        ensures fresh { get self.old.buffers.buffers result.number ≡ None }
        ensures parts { self.new ≡ extracted id (entry_at self.old id.name) result.number self.old }
        ensures loan { result ≡ record { number = result.number; client = (entry_at self.old id.name).client; buf = buf } }
    {
        self.entries = lengths::counted(self.entries);
        let entry = self.pages.remove(id);
        self.lists.take_out(entry.client, id.key);
        leavings::free_slots(&mut self.slots, entry.session, entry.scratch);
        let number = self.buffers.open(entry.client, entry.blocks);
        Loan::of(number, TrackerId::of(entry.client), buf)
    }
}

//! A page ends.
ghost use Rattle.std.specs.Prelude.{◌≡◌, ◌↔◌, ◌∷◌, [], IsErr, OnOk, OnErr, IfErr, Some, true};
ghost use Rattle.std.specs.FinMap.{get};
ghost use Rattle.pool_model.specs.State.{page_at};
ghost use Rattle.pin_core.specs.StateOf.{state_of, place_in};
ghost use Rattle.pin_core.specs.parts.Changes.{entry_at};
ghost use Rattle.pin_core.specs.calls.Ending.{destroy_entry, is_flying};
ghost use Rattle.pin_core.specs.parts.Ended.{CanDestroy, ReadyDestroy, destroyed};

use crate::parts::Parts;
use crate::pool::{PoolState, id_of};
use crate::{leavings, lengths};
use block_arena::Buf;
use outside::Slot;
use page_table::{PageId, Place};
use reservation_tree::TrackerId;
use store_api::Page;

impl<D: Slot + Drop> PoolState<D> {
    ghost use Rattle.pin_core.specs.Standing.{Enters};
    ghost use Rattle.pin_core.specs.calls.Ending.{IsPinnedWith, IsUnpinned};

    /// Ends a pinned page, whose buffer is this one. The charge of all its pins returns, and its blocks and
    /// slots are free.
    pub fn destroy_pinned(&mut self, p: Page, buf: Buf)
        requires pinned { IsPinnedWith (state_of self.old) p buf }
        ensures enters { Enters D.Slot (destroy_entry (state_of self.old) p.name ∷ []) [] [] self.old self.new }
    {
        self.parts.laws();
        let id = id_of(&p);
        self.parts.destroy(id, Some(buf));
        p.into_name();
    }

    /// Ends a page that is neither pinned nor loading. Its blocks and slots are free.
    ///
    /// # Errors
    ///
    /// The page comes back while it is being written. Its caller can end it once the write is done.
    pub fn destroy_unpinned(&mut self, p: Page) -> Result<(), Page>
        requires unpinned { IsUnpinned (state_of self.old) p }
        ensures enters { OnOk result (Enters D.Slot (destroy_entry (state_of self.old) p.name ∷ []) [] [] self.old self.new) }

        // It is refused exactly where the page is flying.
        ensures refused { IsErr result ↔ (is_flying (page_at (state_of self.old) p.name).place ≡ true) }
        ensures back { IfErr result (λ page. page ≡ p) }
        ensures err { OnErr result (self.new ≡ self.old) }
    {
        self.parts.laws();
        let id = id_of(&p);
        if self.parts.is_flying(id) {
            return Err(p);
        }
        self.parts.destroy(id, None);
        p.into_name();
        Ok(())
    }
}

impl<D: Drop> Parts<D> {
    // Whether a job writes the page.
    #[inline]
    pub(crate) fn is_flying(&self, id: PageId) -> bool
        requires live { get self.now.pages.names id.key ≡ Some id.name }
        requires there { get self.now.pages.entries id.name ≡ Some (entry_at self.now id.name) }
        ensures { result ≡ is_flying (place_in (entry_at self.now id.name).place) }
    {
        match self.pages.get(id).unwrap().place {
            Place::Flying(_) => true,
            _ => false,
        }
    }

    // The page is gone. A pinned one comes with its buffer.
    pub(crate) fn destroy(&mut self, id: PageId, buf: Option<Buf>)
        requires can { CanDestroy self.old id (entry_at self.old id.name) buf }
        requires ready { ReadyDestroy self.old id (entry_at self.old id.name) buf }
        ensures { self.new ≡ destroyed id (entry_at self.old id.name) buf self.old }
    {
        self.entries = lengths::counted(self.entries);
        let entry = self.pages.remove(id);
        leavings::leave(
            &mut self.lists,
            &mut self.clean,
            entry.place,
            entry.client,
            id.key,
        );
        let charge = leavings::pinned_bytes(self.block_len, entry.blocks, entry.place);
        self.tree.release(TrackerId::of(entry.client), charge);
        leavings::free_blocks(&mut self.arena, entry.mem, buf);
        leavings::free_slots(&mut self.slots, entry.session, entry.scratch);
    }
}

//! A pinned page is left with its bytes.
ghost use Rattle.std.specs.Prelude.{◌≡◌, ◌↔◌, ◌<◌, ◌∷◌, [], IsErr, OnOk, OnErr, IfErr};
ghost use Rattle.scratch_dev.specs.Pool.{free_of};
ghost use Rattle.pin_core.specs.parts.Keeping.{need_of};
ghost use Rattle.pin_core.specs.parts.Changes.{entry_at, counted};
ghost use Rattle.pin_core.specs.calls.Unpinning.{CanUnpin, ReadyUnpin, LacksSlots, unpinned, unpin_entry};

use crate::kept::take_slots;
use crate::lengths;
use crate::parts::Parts;
use crate::pool::{PoolState, id_of};
use block_arena::Buf;
use client_lists::Which;
use outside::Slot;
use page_table::{Mem, PageId, Place};
use reservation_tree::{PoolErr, TrackerId};
use store_api::Page;

impl<D: Slot + Drop> PoolState<D> {
    ghost use Rattle.pool_model.specs.State.{page_at};
    ghost use Rattle.pool_model.specs.Sums.{free_slots};
    ghost use Rattle.pin_core.specs.StateOf.{state_of};
    ghost use Rattle.pin_core.specs.Standing.{Enters};
    ghost use Rattle.pin_core.specs.calls.Needs.{IsLastPin};

    /// Leaves a page that has one pin: it becomes dirty with the bytes of this buffer.
    ///
    /// # Errors
    ///
    /// `ScratchFull`: the page has no slots yet, and fewer of its session's quota are free than it has
    /// blocks. The buffer comes back, and the page stays pinned.
    pub fn unpin(&mut self, p: &Page, buf: Buf) -> Result<(), (Buf, PoolErr)>
        requires last { IsLastPin (state_of self.old) p.now buf }
        ensures enters { Enters D.Slot (unpin_entry result (page_at (state_of self.old) p.now.name).session p.now.name buf.bytes ∷ []) [] [] self.old self.new }

        // It is refused exactly where slots lack.
        ensures refused { IsErr result ↔ LacksSlots (state_of self.old) p.now.name }
        ensures cause { IfErr result (λ e. e.1 ≡ PoolErr.ScratchFull (page_at (state_of self.old) p.now.name).blocks (free_slots (state_of self.old) (page_at (state_of self.old) p.now.name).session)) }
        ensures back { IfErr result (λ e. e.0 ≡ buf) }
    {
        self.parts.laws();
        let id = id_of(p);
        self.parts.unpin(id, buf)
    }
}

impl<D: Drop> Parts<D> {
    // The page becomes dirty with this buffer.
    #[tactic(auto, using(crate::proofs::Mapped::put_again))]
    pub(crate) fn unpin(&mut self, id: PageId, buf: Buf) -> Result<(), (Buf, PoolErr)>
        requires can { CanUnpin self.old id (entry_at self.old id.name) buf }
        requires ready { ReadyUnpin self.old id (entry_at self.old id.name) }
        ensures ok { OnOk result (self.new ≡ unpinned id (entry_at self.old id.name) buf self.old) }
        ensures refused { IsErr result ↔ (free_of self.old.slots (entry_at self.old id.name).session < need_of (entry_at self.old id.name).scratch) }
        ensures cause { IfErr result (λ e. e.1 ≡ PoolErr.ScratchFull (need_of (entry_at self.old id.name).scratch) (free_of self.old.slots (entry_at self.old id.name).session)) }
        ensures back { IfErr result (λ e. e.0 ≡ buf) }
        ensures err { OnErr result (self.new ≡ counted self.old) }
    {
        self.entries = lengths::counted(self.entries);
        let entry = self.pages.get_mut(id).unwrap();
        if let Err(refusal) = take_slots(&mut self.slots, entry.session, &mut entry.scratch) {
            return Err((buf, refusal));
        }
        entry.place = Place::Dirty;
        entry.mem = Mem::Held(buf);
        let client = entry.client;
        let len = lengths::bytes(self.block_len, entry.blocks);
        self.lists.shift(client, id.key, Which::Dirty);
        self.tree.release(TrackerId::of(client), len);
        Ok(())
    }
}

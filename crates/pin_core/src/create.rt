//! A page comes.
ghost use Rattle.std.specs.Prelude.{◌≡◌, ◌↔◌, ◌<◌, [], None, IsErr, IfOk, IfErr, OnErr};
ghost use Rattle.std.specs.FinMap.{get};
ghost use Rattle.pin_core.specs.StateOf.{state_of};
ghost use Rattle.pin_core.specs.calls.Needs.{id_in};
ghost use Rattle.pin_core.specs.calls.Coming.{ReadyCreate, create_entries, created, zeros};

use crate::alloc::zeroed;
use crate::evicted::EvictedPages;
use crate::kept::Kept;
use crate::lengths;
use crate::parts::Parts;
use crate::pool::PoolState;
use block_arena::{Buf, Shell};
use client_lists::Which;
use outside::Slot;
use page_table::{Mem, PageId};
use reservation_tree::{PoolErr, TrackerId};
use scratch_dev::SlotShell;
use store_api::{Client, Page};

impl<D: Slot + Drop> PoolState<D> {
    ghost use Rattle.pin_core.specs.Standing.{Enters};
    ghost use Rattle.std.specs.Prelude.{OnOk};
    ghost use Rattle.pool_model.specs.Sums.{length_of};
    ghost use Rattle.pin_core.specs.calls.Coming.{CanHold};
    ghost use Rattle.pin_core.specs.calls.Evictions.{MakesRoom, names_gone};

    /// A new page for a client that has room for it, pinned, with as many blocks as the shell has room for.
    /// Its bytes are zero. While too few blocks are free, the page that has been clean longest goes out of
    /// memory. `gone` then has the names of those that went.
    ///
    /// Which key the page gets is open.
    ///
    /// # Errors
    ///
    /// `NamesSpent`: the next name is the greatest number. What was given comes back.
    pub fn create_now(
        &mut self,
        c: &Client,
        shell: Shell,
        slots: SlotShell<D>,
        gone: &mut EvictedPages,
    ) -> Result<(Page, Buf), (Shell, SlotShell<D>, PoolErr)>
        requires can { CanHold (state_of self.old) c.now shell }
        requires slots { slots ≡ shell }
        ensures enters { IfOk result (λ made. Enters D.Slot (create_entries c.now (id_in made.0) shell self.old) [] [] self.old self.new) }
        ensures goes { OnOk result (MakesRoom (state_of self.old) (length_of (state_of self.old) shell) (names_gone shell self.old)) }
        ensures gone { OnOk result (gone.new ≡ names_gone shell self.old) }
        ensures page { IfOk result (λ made. made.0 ≡ record { name = (state_of self.old).next_name; key = made.0.key; client = c.now.tracker }) }
        ensures buffer { IfOk result (λ made. made.1 ≡ zeros shell (state_of self.old).block_len) }

        // It is refused exactly where the next name is the greatest number.
        ensures refused { IsErr result ↔ ((state_of self.old).next_name ≡ 18446744073709551615) }
        ensures cause { IfErr result (λ e. e.2 ≡ PoolErr.NamesSpent) }
        ensures back { IfErr result (λ e. (e.0 ≡ shell) × (e.1 ≡ slots)) }
        ensures err { OnErr result ((self.new ≡ self.old) × (gone.new ≡ gone.old)) }
    {
        if self.parts.pages.spent() {
            return Err((shell, slots, PoolErr::NamesSpent));
        }
        self.parts.laws();
        self.parts.make_room(shell.room(), gone);
        let (id, buf) = self.parts.create(c.session(), c.tracker(), shell, slots);
        Ok((Page::of(id.name, id.key, c.tracker()), buf))
    }
}

impl<D: Drop> Parts<D> {
    // A page with free blocks, pinned by its client.
    pub(crate) fn create(
        &mut self,
        session: u32,
        client: TrackerId,
        shell: Shell,
        slots: SlotShell<D>,
    ) -> (PageId, Buf)
        requires ready { ReadyCreate self.old client shell }
        requires slots { slots ≡ shell }
        ensures name { result.0.name ≡ self.old.pages.next_name }
        ensures left { result.0.name < 18446744073709551615 }
        ensures vacant { get self.old.pages.names result.0.key ≡ None }
        ensures in_range { result.0.key < self.old.pages.room }
        ensures parts { self.new ≡ created result.0 session client shell self.old }
        ensures buffer { result.1 ≡ zeros shell self.old.arena.block_len }
    {
        self.entries = lengths::counted(self.entries);
        let blocks = shell.room();
        let len = lengths::bytes(self.block_len, blocks);
        let id = self.pages.add(
            session,
            client.number(),
            blocks,
            Mem::Out,
            Kept::Empty(slots),
        );
        self.lists.push(client.number(), Which::Pinned, id.key, len);
        self.tree.charge(client, len);
        (id, zeroed(&mut self.arena, shell))
    }
}

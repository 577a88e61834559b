//! A pinned page gets another pin, or leaves one of several.
ghost use Rattle.std.specs.Prelude.{◌≡◌, ◌<◌, ◌+◌, ◌-◌, ◌∷◌, []};
ghost use Rattle.page_table.specs.Pages.{IsLive, with_entry};
ghost use Rattle.page_table.specs.declared.entry.Place.TheVariants as spot;
ghost use Rattle.pin_core.specs.parts.Changes.{entry_in, entry_at};
ghost use Rattle.pin_core.specs.calls.Pins.{CanRepin, ReadyAgain, ReadyOnce, pins_in, with_pins, pinned_again, unpinned_once};

use crate::kept::Kept;
use crate::lengths;
use crate::look::look_at;
use crate::parts::Parts;
use crate::pool::{PoolState, id_of};
use outside::Slot;
use page_table::{PageId, PageTable, Place};
use reservation_tree::TrackerId;
use store_api::Page;

impl<D: Slot + Drop> PoolState<D> {
    ghost use Rattle.pool_model.specs.State.{page_at};
    ghost use Rattle.pool_model.specs.declared.event.Event.TheVariants as event;
    ghost use Rattle.pin_core.specs.StateOf.{state_of};
    ghost use Rattle.pin_core.specs.Standing.{Enters};
    ghost use Rattle.pin_core.specs.calls.Pins.{IsPinned, HasPinToSpare, HasRoomFor};

    /// Pins a pinned page once more. Its client is charged its length for this pin too; no block is taken.
    pub fn pin_again_now(&mut self, p: &Page)
        requires pinned { IsPinned (state_of self.old) p.now }
        requires room { HasRoomFor (state_of self.old) p.now.name }
        ensures enters { Enters D.Slot (record { maker = (page_at (state_of self.old) p.now.name).session; event = event.PinAgain p.now.name } ∷ []) [] [] self.old self.new }
    {
        self.parts.laws();
        self.parts.pin_again(id_of(p));
    }

    /// Ends one of a page's several pins. The page stays pinned, and its client gets back the charge of
    /// this pin.
    pub fn unpin_once(&mut self, p: &Page)
        requires several { HasPinToSpare (state_of self.old) p.now }
        ensures enters { Enters D.Slot (record { maker = (page_at (state_of self.old) p.now.name).session; event = event.UnpinOnce p.now.name } ∷ []) [] [] self.old self.new }
    {
        self.parts.laws();
        self.parts.unpin_once(id_of(p));
    }
}

impl<D: Drop> Parts<D> {
    // The page has one pin more, and its client the charge of it.
    pub(crate) fn pin_again(&mut self, id: PageId)
        requires can { CanRepin self.old id (entry_at self.old id.name) }
        requires ready { ReadyAgain self.old (entry_at self.old id.name) }
        ensures { self.new ≡ pinned_again id (entry_at self.old id.name) self.old }
    {
        self.entries = lengths::counted(self.entries);
        let look = look_at(&self.pages, id);
        put_pins(&mut self.pages, id, pins_of(look.place) + 1);
        let len = lengths::bytes(self.block_len, look.blocks);
        self.tree.charge(TrackerId::of(look.client), len);
    }

    // The page has one pin less, and its client's charge falls.
    pub(crate) fn unpin_once(&mut self, id: PageId)
        requires can { CanRepin self.old id (entry_at self.old id.name) }
        requires ready { ReadyOnce self.old (entry_at self.old id.name) }
        ensures { self.new ≡ unpinned_once id (entry_at self.old id.name) self.old }
    {
        self.entries = lengths::counted(self.entries);
        let look = look_at(&self.pages, id);
        put_pins(&mut self.pages, id, pins_of(look.place) - 1);
        let len = lengths::bytes(self.block_len, look.blocks);
        self.tree.release(TrackerId::of(look.client), len);
    }
}

// How often a page in this place is pinned.
#[inline]
fn pins_of(place: Place) -> u32
    requires { place ≡ spot.Pinned (pins_in place) }
    ensures { result ≡ pins_in place }
{
    let Place::Pinned(count) = place else {
        unreachable!()
    };
    count
}

// The page has so many pins.
fn put_pins<D: Drop>(pages: &mut PageTable<Kept<D>>, id: PageId, count: u32)
    requires live { IsLive pages.old id }
    ensures pages { pages.new ≡ with_entry pages.old id (with_pins count (entry_in pages.old id.name)) }
{
    let entry = pages.entry_mut(id);
    entry.place = Place::Pinned(count);
}

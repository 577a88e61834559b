//! A piece comes back.
ghost use Rattle.std.specs.Prelude.{◌≡◌, ℕ};
ghost use Rattle.store_api.specs.Entries.{MadeThese};
ghost use Rattle.store_api.specs.Handing.{LeavesStore};
ghost use Rattle.sub_alloc.specs.Pieces.{BeginsAt, IsLive};
ghost use Rattle.sub_alloc.specs.Rules.{freed_by, returned};
ghost use Rattle.sub_alloc.specs.Lending.{IsAllocOf, after_freed, freed_events};
ghost use Rattle.sub_alloc.specs.Calls.{KeepsOthers};

use crate::allocator::SubAlloc;
use crate::lending::close_slot;
use crate::piece::Piece;
use crate::shelves::join;
use store_api::{Loan, Store};

impl SubAlloc {
    // The class of a live piece, and the place where it begins. Ends the piece's token.
    fn locate(&self, p: Piece) -> (u32, u32)
        requires { IsLive p self.now }
        ensures { BeginsAt self.now p result.0 result.1 }
    {
        let places = self.places();
        let (buf, at) = p.into_place();
        let place = buf * places + at / 64;
        let class = u32::from(self.live[place as usize]) - 1;
        (class, place)
    }

    // Puts a piece back, and gives the loan of its buffer where that is closed with it.
    fn take_back(&mut self, p: Piece) -> Option<Loan>
        requires { IsLive p self.old }
        ensures division { self.new ≡ returned p self.old }
        ensures kept { KeepsOthers p self.old self.new }
        ensures loan { result ≡ freed_by p self.old }
    {
        let shift = self.classes - 1;
        let (class, place) = self.locate(p);
        self.live[place as usize] = 0;
        let (class, place) = join(&mut self.free, class, place, self.classes);
        if class + 1 < self.classes {
            self.free.push_back(class, place);
            return None;
        }
        Some(close_slot(&mut self.buffers[(place >> shift) as usize]))
    }

    /// Puts a piece back. It becomes free, and is joined with the other half of what it was halved from while that is free
    /// and whole. A buffer that is one free piece goes back to the store. This takes no memory.
    pub fn put_back<St: Store>(&mut self, store: &mut St, p: Piece)
        requires live { IsLive p self.old }
        requires of { (t : ℕ) × IsAllocOf t (St.holds store.old) self.old }
        ensures division { self.new ≡ returned p self.old }
        ensures kept { KeepsOthers p self.old self.new }
        ensures of { (t : ℕ) → IsAllocOf t (St.holds store.old) self.old → IsAllocOf t (St.holds store.new) self.new }

        // The buffer that is closed with it, if one is, is freed.
        ensures held { St.holds store.new ≡ after_freed (freed_by p self.old) (St.holds store.old) }
        ensures entries { MadeThese (St.holds store.old).session (freed_events (freed_by p self.old)) (St.signs store.old) (St.signs store.new) }
        ensures leaves { (t : ℕ) → IsAllocOf t (St.holds store.old) self.old → LeavesStore St.Store t 0 0 store.old store.new }
    {
        self.law_whole();
        match self.take_back(p) {
            Some(loan) => store.free(loan),
            None => (),
        }
    }
}

//! A piece is taken.
ghost use Rattle.std.specs.Prelude.{◌≡◌, ◌+◌, ◌*◌, ◌<◌, ◌≤◌, None, true, Err, IfErr, IfNone, IfOk, IfSome, OnErr, length};
ghost use Rattle.block_arena.specs.Memory.{IsBufferOf};
ghost use Rattle.index_list.specs.Listing.{IsProper, nodes_on};
ghost use Rattle.store_api.specs.Handing.{LeavesStore};
ghost use Rattle.sub_alloc.specs.Pieces.{buffer, buffer_len, piece_at, places};
ghost use Rattle.sub_alloc.specs.Rules.{is_filled, newest, taken_free, taken_new};
ghost use Rattle.sub_alloc.specs.Lending.{IsAllocOf, refusal, refusal_new};
ghost use Rattle.sub_alloc.specs.Calls.{IsFresh, IsOfStore, KeepsPieces, Takes, TakesNew};

use crate::allocator::SubAlloc;
use crate::lending::{first_closed, open_slot};
use crate::piece::Piece;
use crate::shelves::{class_for, first_filled, halve, last_free};
use crate::sub_err::SubErr;
use std::alloc::Global;
use store_api::{Client, Loan, Store};

impl SubAlloc {
    // Takes the free piece of class `from` that became free last, as one of class `class`.
    fn take_free(&mut self, class: u32, from: u32) -> Piece
        requires down { class ≤ from }
        requires some { from < self.old.classes }
        requires filled { is_filled (nodes_on from self.old.free) ≡ true }
        requires proper { IsProper self.old.free }
        ensures division { self.new ≡ taken_free class from self.old }
        ensures piece { result ≡ piece_at self.old class (newest from self.old.free) }
        ensures fresh { IsFresh self.old self.new result }
        ensures kept { KeepsPieces self.old self.new }
    {
        let place = last_free(&self.free, from);
        self.free.remove(place);
        halve(&mut self.free, place, from, class);
        self.live[place as usize] = class as u8 + 1;
        self.piece(class, place)
    }

    // Opens a buffer, and takes its first piece of class `class`.
    fn take_new(&mut self, number: u32, loan: Loan, class: u32) -> Piece
        requires number { number < length self.old.buffers }
        requires shut { buffer number self.old ≡ None }
        requires fits { IsBufferOf self.old.page_blocks self.old.block_len loan.buf }
        requires class { class < self.old.classes }
        ensures division { self.new ≡ taken_new class number loan self.old }
        ensures piece { result ≡ piece_at self.old class (number * places self.old) }
        ensures fresh { IsFresh self.old self.new result }
        ensures kept { KeepsPieces self.old self.new }
    {
        let place = number * self.places();
        let classes = self.classes;
        halve(&mut self.free, place, classes - 1, class);
        self.live[place as usize] = class as u8 + 1;
        open_slot(&mut self.buffers[number as usize], loan);
        self.piece(class, place)
    }

    // Opens the closed buffer of the least number, and takes its first piece.
    fn take_first<St: Store>(
        &mut self,
        alloc: Global,
        store: &mut St,
        c: &Client,
        class: u32,
    ) -> Result<Piece, SubErr>
        requires of { IsAllocOf c.now.tracker (St.holds store.old) self.old }
        requires class { class < self.old.classes }
        ensures ok { IfOk result (λ p. TakesNew St.Store c.now class self.old self.new store.old store.new p × IsFresh self.old self.new p) }
        ensures refused { IfSome (refusal_new c.now.tracker self.old (St.holds store.old)) (λ e. (result ≡ Err e) × (store.new ≡ store.old)) }
        ensures cause { IfNone (refusal_new c.now.tracker self.old (St.holds store.old))
            (IfErr result (IsOfStore St.Store c.now.tracker self.old.page_blocks store.old store.new)) }
        ensures err { OnErr result ((self.new ≡ self.old) × (St.holds store.new ≡ St.holds store.old)) }
        ensures kept { KeepsPieces self.old self.new }
        ensures of { IsAllocOf c.now.tracker (St.holds store.new) self.new }
        ensures leaves { LeavesStore St.Store c.now.tracker 0 0 store.old store.new }
    {
        let number = first_closed(&self.buffers);
        if number == self.buffers.len() {
            return Err(SubErr::Full {
                bufs: number as u32,
            });
        }
        let wanted = 64 * u64::from(self.places());
        let unused = store.unused(c);
        if unused < wanted {
            return Err(SubErr::NoRoom { wanted, unused });
        }
        match store.alloc(alloc, c, self.page_blocks) {
            Ok(loan) => Ok(self.take_new(number as u32, loan, class)),
            Err(e) => Err(SubErr::Pool(e)),
        }
    }

    /// Takes a piece of at least so many bytes. Its length is the least power of two that is at least 64 and at least
    /// `bytes`. What its bytes are is left open.
    ///
    /// The shortest free piece that is long enough is halved until it has that length; of several the one that became
    /// free last. Where there is none, the closed buffer of the least number is opened.
    ///
    /// # Errors
    ///
    /// `Full`: no free piece is long enough, and all buffers are open. `NoRoom`: none is long enough, and the client has
    /// fewer bytes unused than a buffer. `Pool`: none is long enough, and the store gave no buffer: there was no memory, or
    /// a write of a page of this client failed. After each of them nothing has changed.
    pub fn take<St: Store>(
        &mut self,
        alloc: Global,
        store: &mut St,
        c: &Client,
        bytes: u32,
    ) -> Result<Piece, SubErr>
        requires of { IsAllocOf c.now.tracker (St.holds store.old) self.old }
        requires bytes { bytes ≤ buffer_len self.old }
        ensures ok { IfOk result (Takes St.Store c.now bytes self.old self.new store.old store.new) }
        ensures refused { IfSome (refusal bytes c.now.tracker self.old (St.holds store.old)) (λ e. (result ≡ Err e) × (store.new ≡ store.old)) }
        ensures cause { IfNone (refusal bytes c.now.tracker self.old (St.holds store.old))
            (IfErr result (IsOfStore St.Store c.now.tracker self.old.page_blocks store.old store.new)) }
        ensures err { OnErr result ((self.new ≡ self.old) × (St.holds store.new ≡ St.holds store.old)) }
        ensures kept { KeepsPieces self.old self.new }
        ensures of { IsAllocOf c.now.tracker (St.holds store.new) self.new }
        ensures leaves { LeavesStore St.Store c.now.tracker 0 0 store.old store.new }
    {
        let class = class_for(self.classes, bytes);
        let from = first_filled(&self.free, class, self.classes);
        if from < self.classes {
            return Ok(self.take_free(class, from));
        }
        self.take_first(alloc, store, c, class)
    }
}

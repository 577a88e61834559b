//! The pool of one owner as a store.
ghost use Rattle.std.specs.Prelude.{◌≡◌, ◌≤◌, ℕ, IsErr, IfOk, IfErr, IfSome, OnOk, vec_len};
ghost use Rattle.std.specs.List.{sum_by};
ghost use Rattle.block_arena.specs.Blocks.{IsBlockLen};
ghost use Rattle.pin_core.specs.calls.Setup.{OpensWith};
ghost use Rattle.pin_core.specs.Standing.{slots_home};
ghost use Rattle.own_entries.specs.ClientLaws.{IsWholeIdle};
ghost use Rattle.store_api.specs.Holdings.{page_len, page_of, unused_of};
ghost use Rattle.store_api.specs.Changes.{after_pin};
ghost use Rattle.store_api.specs.Conditions.{IsPage, ShowsLeft};
ghost use Rattle.store_api.specs.Entries.{IsPin, Made};
ghost use Rattle.store_api.specs.Refusals.{WasRefused};
ghost use Rattle.store_api.specs.Signs.{Grows};
ghost use Rattle.session_calls.specs.Needing.{EntersNeeded};
ghost use Rattle.session_calls.specs.Showing.{ShowsStored};
ghost use Rattle.pool_model.specs.declared.call.Call.TheVariants as call;
ghost use Rattle.pool_model.specs.Legal.{IsLegal, state_after};
ghost use Rattle.pin_core.specs.StateOf.{state_of};
ghost use Rattle.session_calls.specs.Throughout.{FitsThroughout};
ghost use Rattle.local_pool.specs.Told.{held_of, opening_of, signs_of};
ghost use Rattle.local_pool.specs.Agreeing.{AgreesWith};
ghost use Rattle.local_pool.specs.Counting.{SpendsNames, SumsHold, at_opening, named_at};
ghost use Rattle.local_pool.specs.History.{IsHistory};
ghost use Rattle.pin_core.specs.Tallies.{tally_of};
ghost use Rattle.local_pool.specs.Beginning.{Begins, IsLeastRefusal, LacksLeast};

use crate::owned::Alone;
use crate::taking::{Coming, Ending, Handing, Passing, Shrinking};
use block_arena::Buf;
use core::mem::replace_with;
use outside::Slot;
use pin_core::{PoolConf, PoolState};
use reservation_tree::PoolErr;
use session_calls::Opened;
use std::alloc::Global;
use std::marker::Brand;
use store_api::{Client, Loan, Page, Store};

/// A pool with one owner, as a store.
///
/// What a law of stores says of it whatever was called before stands beside it, since a law can't
/// use the invariant of [`Alone`]. `T` names what the slots counted when the pool opened.
#[derive(Drop)]
pub struct LocalPool<D: Slot, T: Opened = Brand> {
    pub(crate) alone: Alone<D, T>,
    pub(crate) block_len: u32,
    ghost len: { block_len ≡ (held_of D.Slot alone).block_len },
    ghost power: { IsBlockLen block_len },
    ghost whole: { IsWholeIdle (held_of D.Slot alone) },
}

impl<D: Slot + Drop, T: Opened> LocalPool<D, T> {
    /// A pool with these numbers and slots, whose owner may reserve up to `limit` bytes and has `least` of them, and
    /// whose pages may take `quota` slots. Takes all the memory that it will ever use, but for pages and loans. No entry
    /// is kept, whatever `trace` is.
    ///
    /// # Errors
    ///
    /// `Memory`, or `NoReservation`: `least` passes the limit or all memory. The slots come back.
    pub fn open(
        alloc: Global,
        conf: &PoolConf,
        slots: Vec<D>,
        limit: u64,
        quota: u32,
        least: u64,
    ) -> Result<LocalPool<D, T>, (Vec<D>, PoolErr)>
        requires conf { OpensWith conf.now }
        requires slots { vec_len slots ≤ 1048576 }
        requires quota { quota ≤ vec_len slots }
        requires opened { IfSome (named_at T.named T.opening T.first) (λ first. first ≡ at_opening (tally_of D.Slot slots.items) conf.now.first_name conf.now.blocks) }
        ensures ok { IfOk result (λ pool. Begins D.Slot conf.now slots.items limit quota least pool.alone) }
        ensures refused { LacksLeast conf.now limit least → IsErr result }
        ensures cause { IfErr result (λ e. IsLeastRefusal conf.now limit least e.1) }
        ensures back { IfErr result (λ e. (measure : D → ℕ) → sum_by measure e.0.items ≡ sum_by measure slots.items) }
    {
        let alone = Alone::open(alloc, conf, slots, limit, quota, least)?;
        alone.law_whole();
        Ok(LocalPool {
            alone,
            block_len: conf.block_len,
        })
    }

    /// The pool's value. What the owner holds is what the value has for the owner's session.
    pub fn value(&self) -> &PoolState<D>
        ensures value { result.now ≡ self.now.alone.state }
        ensures held { AgreesWith D.Slot self.now.alone }
    {
        self.alone.value()
    }

    /// The number of the owner's session.
    pub fn session(&self) -> u32
        ensures { result ≡ self.now.alone.session }
    {
        self.alone.session()
    }

    /// The pool's value stands for the owner's trail, which is a legal history; and at each entry of it, each tracker's
    /// charges and its children's reservations fit its reservation, and that fits its limit; what each client holds
    /// fits its reservation; and what is in memory fits the pool.
    pub fn law_throughout(&self)
        ensures legal { IsLegal (opening_of D.Slot self.now.alone) self.now.alone.trail }
        ensures state { state_of self.now.alone.state ≡ state_after (opening_of D.Slot self.now.alone) self.now.alone.trail }
        ensures fits { FitsThroughout (opening_of D.Slot self.now.alone) self.now.alone.trail }
    {
        self.alone.law_throughout();
    }

    /// The owner's value, whose calls take it and give it back, and say that pages are written and evicted only as
    /// needed.
    pub fn into_alone(self) -> Alone<D, T>
        ensures { result ≡ self.alone }
    {
        self.alone
    }

    /// Ends a pool that has no client, and gives back its slots.
    pub fn close(self) -> Vec<D>
        requires { (held_of D.Slot self.alone).live_clients ≡ 0 }
        ensures slots { (measure : D → ℕ) → sum_by measure result.items ≡ slots_home measure self.alone.state }
        ensures sums { SumsHold (named_at T.named T.opening T.first) self.alone.trail (tally_of D.Slot result.items) }
        ensures names { SpendsNames (named_at T.named T.opening T.first) self.alone.trail (signs_of self.alone).spent }
        ensures history { IsHistory (named_at T.named T.opening T.first) (held_of D.Slot self.alone).block_len self.alone.session self.alone.trail }
    {
        self.alone.close()
    }
}

impl<D: Slot + Drop, T: Opened> Store for LocalPool<D, T> {
    ghost use Rattle.local_pool.specs.Laws.{tells_left};

    ghost holds = { λ s. held_of D.Slot s.alone };

    ghost signs = { λ s. signs_of s.alone };

    ghost tells_left = { λ st. tells_left D.Slot st.alone };

    ghost idle_unused = { λ st t some idle. st.whole.clients t some idle };

    ghost idle_room = { λ st none. st.whole.query none };

    fn block_len(&self) -> u32 {
        self.block_len
    }

    fn room(&self) -> u64 {
        self.alone.room()
    }

    fn unused(&self, c: &Client) -> u64 {
        self.alone.unused(c)
    }

    fn add_client(&mut self, limit: u64) -> Result<Client, PoolErr> {
        let alone = &mut self.alone;
        let result = alone.add_client(limit);
        alone.law_whole();
        result
    }

    fn end_client(&mut self, c: Client) {
        let alone = &mut self.alone;
        alone.end_client(c);
        alone.law_whole();
    }

    fn reserve(&mut self, c: &Client, bytes: u64) -> Result<(), PoolErr> {
        let alone = &mut self.alone;
        let result = alone.reserve(c, bytes);
        alone.law_whole();
        result
    }

    fn reserve_to_fit(&mut self, c: &Client, bytes: u64) -> Result<(), PoolErr> {
        let alone = &mut self.alone;
        let result = alone.reserve_to_fit(c, bytes);
        alone.law_whole();
        result
    }

    fn give_back(&mut self, c: &Client, bytes: u64) -> Result<(), PoolErr> {
        let alone = &mut self.alone;
        let result = replace_with(alone, Shrinking { client: c, bytes }, Alone::give_back);
        alone.law_whole();
        result
    }

    fn move_reservation(&mut self, from: &Client, to: &Client, bytes: u64) -> Result<(), PoolErr> {
        let alone = &mut self.alone;
        let result = replace_with(alone, Passing { from, to, bytes }, Alone::move_reservation);
        alone.law_whole();
        result
    }

    fn create(&mut self, alloc: Global, c: &Client, blocks: u32) -> Result<(Page, Buf), PoolErr> {
        let bytes = u64::from(blocks) * u64::from(self.block_len);
        let alone = &mut self.alone;
        let result = replace_with(
            alone,
            Coming {
                alloc,
                client: c,
                blocks,
                bytes,
            },
            Alone::create,
        );
        alone.law_whole();
        result
    }

    fn pin(&mut self, p: &Page) -> Result<Buf, PoolErr>
        requires page { IsPage p.now (held_of D.Slot self.old.alone) }
        requires rests { (page_of p.now.name (held_of D.Slot self.old.alone)).pins ≡ 0 }
        requires unused { page_len p.now.name (held_of D.Slot self.old.alone) ≤ unused_of p.now.client (held_of D.Slot self.old.alone) }
        ensures ok { OnOk result (held_of D.Slot self.new.alone ≡ after_pin p.now.name (held_of D.Slot self.old.alone)) }
        ensures bytes { IfOk result (ShowsLeft (page_of p.now.name (held_of D.Slot self.old.alone)) (held_of D.Slot self.old.alone)) }

        // Where blocks have marks, and each block of the buffer was stored in this pool, the buffer shows what was left.
        ensures stored { IfOk result (ShowsStored (opening_of D.Slot self.new.alone) self.new.alone.trail p.now.name (page_of p.now.name (held_of D.Slot self.old.alone))) }
        ensures err { IfErr result (WasRefused p.now.client (call.Pin p.now.name) (held_of D.Slot self.old.alone) (held_of D.Slot self.new.alone) (signs_of self.old.alone) (signs_of self.new.alone)) }

        ensures grows { Grows (signs_of self.old.alone) (signs_of self.new.alone) }
        ensures entries { OnOk result (Made (held_of D.Slot self.old.alone).session (IsPin p.now.client (held_of D.Slot self.old.alone) p.now.name) (signs_of self.old.alone) (signs_of self.new.alone)) }

        // Pages are written only while room lacks, and clean ones go only while fewer bytes are free.
        ensures needed { EntersNeeded p.now.client (page_len p.now.name (held_of D.Slot self.old.alone)) self.old.alone self.new.alone }
    {
        let alone = &mut self.alone;
        let result = replace_with(alone, p, Alone::pin);
        alone.law_whole();
        result
    }

    fn pin_again(&mut self, p: &Page) -> Result<(), PoolErr> {
        let alone = &mut self.alone;
        let result = replace_with(alone, p, Alone::pin_again);
        alone.law_whole();
        result
    }

    fn unpin_once(&mut self, p: &Page) {
        let alone = &mut self.alone;
        alone.unpin_once(p);
        alone.law_whole();
    }

    fn unpin(&mut self, p: &Page, buf: Buf) -> Result<(), (Buf, PoolErr)> {
        let alone = &mut self.alone;
        let result = alone.unpin(p, buf);
        alone.law_whole();
        result
    }

    fn extract(&mut self, p: Page, buf: Buf) -> Loan {
        let alone = &mut self.alone;
        let loan = alone.extract(p, buf);
        alone.law_whole();
        loan
    }

    fn destroy(&mut self, p: Page, buf: Option<Buf>) {
        let alone = &mut self.alone;
        replace_with(alone, Ending { page: p, buf }, Alone::destroy);
        alone.law_whole();
    }

    fn alloc(&mut self, alloc: Global, c: &Client, blocks: u32) -> Result<Loan, PoolErr> {
        let bytes = u64::from(blocks) * u64::from(self.block_len);
        let alone = &mut self.alone;
        let result = replace_with(
            alone,
            Coming {
                alloc,
                client: c,
                blocks,
                bytes,
            },
            Alone::alloc,
        );
        alone.law_whole();
        result
    }

    fn free(&mut self, loan: Loan) {
        let alone = &mut self.alone;
        alone.free(loan);
        alone.law_whole();
    }

    // To its own client a loan doesn't move, so nothing is entered.
    fn move_buffer(&mut self, loan: Loan, to: &Client) -> Result<Loan, (Loan, PoolErr)> {
        if loan.client() == to.tracker() {
            return Ok(loan);
        }
        let alone = &mut self.alone;
        let result = replace_with(alone, Handing { loan, to }, Alone::move_buffer);
        alone.law_whole();
        result
    }
}

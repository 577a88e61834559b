//! The calls of a store.
//!
//! A caller that holds a page, a loan or a buffer can't use `?`: it gives that back to the store first.
ghost use Rattle.std.specs.Prelude.{◌≡◌, ◌≢◌, ◌↔◌, ℕ, ◌≤◌, [], ◌∷◌, true, None, IsErr, IfOk, IfErr, OnOk, OnErr, IfSome, IfNone, IsOk, IsSome, Err};
ghost use Rattle.block_arena.specs.Blocks.{IsBlockLen};
ghost use Rattle.reservation_tree.specs.declared.errors.PoolErr.TheVariants as refusal;
ghost use Rattle.pool_model.specs.declared.call.Call.TheVariants as call;
ghost use Rattle.pool_model.specs.declared.event.Event.TheVariants as event;
ghost use Rattle.store_api.specs.Holdings.{Holdings, length_of, account_of, page_of, unused_of, page_len, loan_len};
ghost use Rattle.store_api.specs.Changes.{query_growth, shortfall, after_end_client, after_reserve, after_give_back, after_move_reservation, after_pin, after_pin_again, after_unpin_once, after_unpin, after_extract, after_destroy, after_free, after_move_buffer};
ghost use Rattle.store_api.specs.Signs.{Signs, Grows, CountsRefused, CountsStale};
ghost use Rattle.store_api.specs.Entries.{Made, MadeThese, IsTaken, IsAsked, IsPin, IsAboveNames, TellsLeft};
ghost use Rattle.store_api.specs.Refusals.{reserve_refusal, move_refusal, IsSharedRefusal, WasRefused, IsUntouched, StaysPinned, LacksSlots};
ghost use Rattle.store_api.specs.Conditions.{IsBlockCount, IsLiveClient, IsPage, Fits, IsLoan, IsHeld, IsIdle, FitsAccount, FitsQuery, IsNewClient, IsNewPage, IsNewLoan, ShowsLeft};

use crate::tokens::{Client, Loan, Page};
use block_arena::Buf;
use reservation_tree::PoolErr;
use std::alloc::Global;

/// One query's face of the pool.
///
/// A call that is refused changes nothing of what the store holds, and gives back what it took.
/// All calls but [`Store::create`] and [`Store::alloc`] take no memory.
pub trait Store {
    // What the store holds. Each call says exactly what that is afterwards.
    ghost holds: { Self → Holdings };

    // Its counts of failures and of stale loads, and its trail: the entries that it made so far, where they are told. They only grow.
    ghost signs: { Self → Signs };

    /// The length of a block, in bytes: a power of two from 64 to 65536.
    fn block_len(&self) -> u32
        ensures value { result ≡ (holds self.now).block_len }
        ensures least { 64 ≤ result }
        ensures most { result ≤ 65536 }
        ensures power { IsBlockLen result }
        ensures counted { CountsRefused (signs self.now).trail (signs self.now).refused_unpins }
        ensures counted_stale { CountsStale (signs self.now).trail (signs self.now).stale };

    /// How much of the query's reservation no client has, in bytes.
    fn room(&self) -> u64
        ensures value { result ≡ (holds self.now).room }
        ensures fits { FitsQuery (holds self.now) };

    /// What the client may still charge, in bytes.
    fn unused(&self, c: &Client) -> u64
        requires { IsLiveClient c.now (holds self.now) }
        ensures value { result ≡ unused_of c.now.tracker (holds self.now) }
        ensures fits { FitsAccount (account_of c.now.tracker (holds self.now)) (holds self.now) };

    /// A new client, whose reservation is 0 and may rise to `limit` bytes.
    ///
    /// # Errors
    ///
    /// `TooManyTrackers`: sixteen clients of this store are live.
    fn add_client(&mut self, limit: u64) -> Result<Client, PoolErr>
        ensures ok { IfOk result (λ c. IsNewClient c limit (holds self.old) (holds self.new)) }
        ensures refused { IsErr result ↔ (16 ≤ (holds self.old).live_clients) }
        ensures cause { IfErr result (λ e. e ≡ refusal.TooManyTrackers 16) }
        ensures err { OnErr result (IsUntouched (holds self.old) (holds self.new) (signs self.old) (signs self.new)) }

        ensures grows { Grows (signs self.old) (signs self.new) }
        ensures entries { IfOk result (λ c. MadeThese (holds self.old).session (event.AddTracker c.tracker (holds self.old).query limit None ∷ []) (signs self.old) (signs self.new)) };

    /// Ends a client that has no page and no loan. Its reservation is the query's room.
    fn end_client(&mut self, c: Client)
        requires client { IsLiveClient c (holds self.old) }
        requires idle { IsIdle c.tracker (holds self.old) }
        ensures value { holds self.new ≡ after_end_client c.tracker (holds self.old) }

        ensures grows { Grows (signs self.old) (signs self.new) }
        ensures entries { MadeThese (holds self.old).session (event.MoveReservation c.tracker (holds self.old).query (account_of c.tracker (holds self.old)).reservation ∷ event.CloseTracker c.tracker ∷ []) (signs self.old) (signs self.new) };

    /// Raises the client's reservation by so many bytes.
    ///
    /// # Errors
    ///
    /// `NoReservation`: a limit would be passed. It names the lowest such tracker.
    fn reserve(&mut self, c: &Client, bytes: u64) -> Result<(), PoolErr>
        requires { IsLiveClient c.now (holds self.old) }
        ensures ok { OnOk result (holds self.new ≡ after_reserve c.now.tracker bytes (holds self.old)) }
        ensures refused { IfSome (reserve_refusal c.now.tracker bytes (holds self.old)) (λ e. result ≡ Err e) }
        ensures shared { IfNone (reserve_refusal c.now.tracker bytes (holds self.old)) (IfErr result (IsSharedRefusal (query_growth bytes (holds self.old)) (holds self.old).above)) }
        ensures err { OnErr result (IsUntouched (holds self.old) (holds self.new) (signs self.old) (signs self.new)) }

        ensures grows { Grows (signs self.old) (signs self.new) }
        ensures entries { OnOk result (MadeThese (holds self.old).session (event.Increase c.now.tracker bytes ∷ []) (signs self.old) (signs self.new)) };

    /// Raises the client's reservation until so many bytes are unused.
    ///
    /// # Errors
    ///
    /// As for [`Store::reserve`], of the bytes that are lacking.
    fn reserve_to_fit(&mut self, c: &Client, bytes: u64) -> Result<(), PoolErr>
        requires { IsLiveClient c.now (holds self.old) }
        ensures ok { OnOk result (holds self.new ≡ after_reserve c.now.tracker (shortfall c.now.tracker bytes (holds self.old)) (holds self.old)) }
        ensures refused { IfSome (reserve_refusal c.now.tracker (shortfall c.now.tracker bytes (holds self.old)) (holds self.old)) (λ e. result ≡ Err e) }
        ensures shared { IfNone (reserve_refusal c.now.tracker (shortfall c.now.tracker bytes (holds self.old)) (holds self.old)) (IfErr result (IsSharedRefusal (query_growth (shortfall c.now.tracker bytes (holds self.old)) (holds self.old)) (holds self.old).above)) }
        ensures err { OnErr result (IsUntouched (holds self.old) (holds self.new) (signs self.old) (signs self.new)) }

        ensures grows { Grows (signs self.old) (signs self.new) }
        ensures entries { OnOk result (MadeThese (holds self.old).session (event.IncreaseToFit c.now.tracker bytes ∷ []) (signs self.old) (signs self.new)) };

    /// Lowers the client's reservation, and the query's, by bytes that are unused. The client's dirty pages
    /// are written first, until what it holds fits.
    ///
    /// # Errors
    ///
    /// `WriteFault`: a write of a page of this client failed, and what it holds still doesn't fit.
    fn give_back(&mut self, c: &Client, bytes: u64) -> Result<(), PoolErr>
        requires client { IsLiveClient c.now (holds self.old) }
        requires unused { bytes ≤ unused_of c.now.tracker (holds self.old) }
        ensures ok { OnOk result (holds self.new ≡ after_give_back c.now.tracker bytes (holds self.old)) }
        ensures err { IfErr result (WasRefused c.now.tracker (call.GiveBack c.now.tracker bytes) (holds self.old) (holds self.new) (signs self.old) (signs self.new)) }

        ensures grows { Grows (signs self.old) (signs self.new) }
        ensures entries { OnOk result (Made (holds self.old).session (IsAsked c.now.tracker (holds self.old) (event.Decrease c.now.tracker bytes ∷ [])) (signs self.old) (signs self.new)) };

    /// Moves unused reservation from one client to another. The first one's dirty pages are written before,
    /// until what it holds fits.
    ///
    /// # Errors
    ///
    /// `NoReservation`: the other's limit would be passed; nothing was written. `WriteFault`: as for
    /// [`Store::give_back`].
    fn move_reservation(&mut self, from: &Client, to: &Client, bytes: u64) -> Result<(), PoolErr>
        requires from { IsLiveClient from.now (holds self.old) }
        requires to { IsLiveClient to.now (holds self.old) }
        requires unused { bytes ≤ unused_of from.now.tracker (holds self.old) }
        ensures ok { OnOk result (holds self.new ≡ after_move_reservation from.now.tracker to.now.tracker bytes (holds self.old)) }
        ensures refused { IfSome (move_refusal from.now.tracker to.now.tracker bytes (holds self.old)) (λ e. (result ≡ Err e) × IsUntouched (holds self.old) (holds self.new) (signs self.old) (signs self.new)) }
        ensures err { IfNone (move_refusal from.now.tracker to.now.tracker bytes (holds self.old)) (IfErr result (WasRefused from.now.tracker (call.MoveReservation from.now.tracker to.now.tracker bytes) (holds self.old) (holds self.new) (signs self.old) (signs self.new))) }

        ensures grows { Grows (signs self.old) (signs self.new) }
        ensures entries { OnOk result (Made (holds self.old).session (IsAsked from.now.tracker (holds self.old) (event.MoveReservation from.now.tracker to.now.tracker bytes ∷ [])) (signs self.old) (signs self.new)) };

    /// A new page of so many blocks, a power of two up to 256, pinned by the client. Its bytes are zero.
    ///
    /// # Errors
    ///
    /// `Memory` before all else; `WriteFault`: a write of a page of this client failed, and there is no room;
    /// `NamesSpent`: there is room, and no name is left.
    fn create(&mut self, alloc: Global, c: &Client, blocks: u32) -> Result<(Page, Buf), PoolErr>
        requires client { IsLiveClient c.now (holds self.old) }
        requires blocks { IsBlockCount blocks }
        requires unused { length_of blocks (holds self.old) ≤ unused_of c.now.tracker (holds self.old) }
        ensures ok { IfOk result (λ made. IsNewPage c.now blocks made (holds self.old) (holds self.new)) }
        ensures names { OnOk result ((signs self.old).spent ≢ true) }
        ensures above { IfOk result (λ made. IsAboveNames made.0.name (signs self.old).trail) }
        ensures err { IfErr result (WasRefused c.now.tracker (call.Create c.now.tracker blocks) (holds self.old) (holds self.new) (signs self.old) (signs self.new)) }

        ensures grows { Grows (signs self.old) (signs self.new) }
        ensures entries { IfOk result (λ made. Made (holds self.old).session (IsTaken c.now.tracker (holds self.old) (event.Create made.0.name c.now.tracker blocks made.0.key ∷ [])) (signs self.old) (signs self.new)) };

    /// Pins a page that rests. Its buffer shows the bytes last left in it, where slots tell what they hold; where they
    /// don't, it may have any bytes.
    ///
    /// # Errors
    ///
    /// `WriteFault`: a write of a page of this client failed, and there is no room. `ReadFault`: the page
    /// couldn't be loaded. `Stale`: its load gave a block with another mark than the wanted one. The page is evicted
    /// again, and may be pinned anew.
    fn pin(&mut self, p: &Page) -> Result<Buf, PoolErr>
        requires page { IsPage p.now (holds self.old) }
        requires rests { (page_of p.now.name (holds self.old)).pins ≡ 0 }
        requires unused { page_len p.now.name (holds self.old) ≤ unused_of p.now.client (holds self.old) }
        ensures ok { OnOk result (holds self.new ≡ after_pin p.now.name (holds self.old)) }
        ensures bytes { IfOk result (ShowsLeft (page_of p.now.name (holds self.old)) (holds self.old)) }
        ensures err { IfErr result (WasRefused p.now.client (call.Pin p.now.name) (holds self.old) (holds self.new) (signs self.old) (signs self.new)) }

        ensures grows { Grows (signs self.old) (signs self.new) }
        ensures entries { OnOk result (Made (holds self.old).session (IsPin p.now.client (holds self.old) p.now.name) (signs self.old) (signs self.new)) };

    /// Pins a pinned page once more. Its length is charged for each of its pins. It still has one buffer.
    ///
    /// # Errors
    ///
    /// `WriteFault`: a write of a page of this client failed, and there is no room.
    fn pin_again(&mut self, p: &Page) -> Result<(), PoolErr>
        requires page { IsPage p.now (holds self.old) }
        requires pinned { 1 ≤ (page_of p.now.name (holds self.old)).pins }
        requires unused { page_len p.now.name (holds self.old) ≤ unused_of p.now.client (holds self.old) }
        ensures ok { OnOk result (holds self.new ≡ after_pin_again p.now.name (holds self.old)) }
        ensures err { IfErr result (WasRefused p.now.client (call.PinAgain p.now.name) (holds self.old) (holds self.new) (signs self.old) (signs self.new)) }

        ensures grows { Grows (signs self.old) (signs self.new) }
        ensures entries { OnOk result (Made (holds self.old).session (IsAsked p.now.client (holds self.old) (event.PinAgain p.now.name ∷ [])) (signs self.old) (signs self.new)) };

    /// Ends one of several pins of a page, and returns its charge. The page stays pinned.
    fn unpin_once(&mut self, p: &Page)
        requires page { IsPage p.now (holds self.old) }
        requires pinned { 2 ≤ (page_of p.now.name (holds self.old)).pins }
        ensures value { holds self.new ≡ after_unpin_once p.now.name (holds self.old) }

        ensures grows { Grows (signs self.old) (signs self.new) }
        ensures entries { MadeThese (holds self.old).session (event.UnpinOnce p.now.name ∷ []) (signs self.old) (signs self.new) };

    /// Leaves these bytes in a page that is pinned once, which rests from then on. The first time it takes its slots.
    ///
    /// # Errors
    ///
    /// `ScratchFull`: too few slots of the quota are free. The page stays pinned, and the buffer comes back.
    fn unpin(&mut self, p: &Page, buf: Buf) -> Result<(), (Buf, PoolErr)>
        requires page { IsPage p.now (holds self.old) }
        requires pinned { (page_of p.now.name (holds self.old)).pins ≡ 1 }
        requires buffer { Fits (page_of p.now.name (holds self.old)).blocks (holds self.old) buf }
        ensures ok { OnOk result (holds self.new ≡ after_unpin p.now.name buf.bytes (holds self.old)) }
        ensures refused { IsErr result ↔ LacksSlots (page_of p.now.name (holds self.old)) (holds self.old).free_slots }
        ensures err { IfErr result (StaysPinned p.now.name buf (holds self.old) (holds self.new) (signs self.old) (signs self.new)) }

        ensures grows { Grows (signs self.old) (signs self.new) }
        ensures entries { OnOk result (MadeThese (holds self.old).session (event.Unpin p.now.name buf.bytes ∷ []) (signs self.old) (signs self.new)) };

    /// Ends a page that is pinned once, and makes its buffer a loan of the same client. The charge stays.
    fn extract(&mut self, p: Page, buf: Buf) -> Loan
        requires page { IsPage p (holds self.old) }
        requires pinned { (page_of p.name (holds self.old)).pins ≡ 1 }
        requires buffer { Fits (page_of p.name (holds self.old)).blocks (holds self.old) buf }
        ensures value { holds self.new ≡ after_extract p.name result.number (holds self.old) }
        ensures fresh { (holds self.old).loans result.number ≡ None }
        ensures client { result.client ≡ p.client }
        ensures buffer { result.buf ≡ buf }

        ensures grows { Grows (signs self.old) (signs self.new) }
        ensures entries { MadeThese (holds self.old).session (event.Extract p.name result.number ∷ []) (signs self.old) (signs self.new) };

    /// Ends a page. Where it is pinned its buffer is given too, and the charge of each of its pins is returned.
    fn destroy(&mut self, p: Page, buf: Option<Buf>)
        requires page { IsPage p (holds self.old) }
        requires buffer { IsHeld p (holds self.old) buf }
        ensures value { holds self.new ≡ after_destroy p.name (holds self.old) }

        ensures grows { Grows (signs self.old) (signs self.new) }
        ensures entries { MadeThese (holds self.old).session (event.Destroy p.name ∷ []) (signs self.old) (signs self.new) };

    /// A new loan of so many blocks, a power of two up to 256, of this client. Its bytes are zero.
    ///
    /// # Errors
    ///
    /// `Memory` before all else; `WriteFault`: a write of a page of this client failed, and there is no room.
    fn alloc(&mut self, alloc: Global, c: &Client, blocks: u32) -> Result<Loan, PoolErr>
        requires client { IsLiveClient c.now (holds self.old) }
        requires blocks { IsBlockCount blocks }
        requires unused { length_of blocks (holds self.old) ≤ unused_of c.now.tracker (holds self.old) }
        ensures ok { IfOk result (λ loan. IsNewLoan c.now blocks loan (holds self.old) (holds self.new)) }
        ensures err { IfErr result (WasRefused c.now.tracker (call.Alloc c.now.tracker blocks) (holds self.old) (holds self.new) (signs self.old) (signs self.new)) }

        ensures grows { Grows (signs self.old) (signs self.new) }
        ensures entries { IfOk result (λ loan. Made (holds self.old).session (IsTaken c.now.tracker (holds self.old) (event.Alloc loan.number c.now.tracker blocks ∷ [])) (signs self.old) (signs self.new)) };

    /// Ends a loan. Its charge is returned.
    fn free(&mut self, loan: Loan)
        requires { IsLoan loan (holds self.old) }
        ensures value { holds self.new ≡ after_free loan.number (holds self.old) }

        ensures grows { Grows (signs self.old) (signs self.new) }
        ensures entries { MadeThese (holds self.old).session (event.Free loan.number ∷ []) (signs self.old) (signs self.new) };

    /// Charges a loan to another client of this store. Its bytes stay. To its own client nothing changes.
    ///
    /// # Errors
    ///
    /// `WriteFault`: a write of a page of the other client failed, and there is no room. The loan comes back.
    fn move_buffer(&mut self, loan: Loan, to: &Client) -> Result<Loan, (Loan, PoolErr)>
        requires loan { IsLoan loan (holds self.old) }
        requires to { IsLiveClient to.now (holds self.old) }
        requires unused { loan.client ≢ to.now.tracker → loan_len loan.number (holds self.old) ≤ unused_of to.now.tracker (holds self.old) }
        ensures ok { OnOk result (holds self.new ≡ after_move_buffer loan.number to.now.tracker (holds self.old)) }
        ensures moved { IfOk result (λ moved. moved ≡ record loan { client = to.now.tracker }) }
        ensures succeeds { loan.client ≡ to.now.tracker → IsOk result × MadeThese (holds self.old).session [] (signs self.old) (signs self.new) }
        ensures back { IfErr result (λ e. e.0 ≡ loan) }
        ensures err { IfErr result (λ e. WasRefused to.now.tracker (call.MoveBuffer loan.number to.now.tracker) (holds self.old) (holds self.new) (signs self.old) (signs self.new) e.1) }

        ensures grows { Grows (signs self.old) (signs self.new) }
        ensures entries { loan.client ≢ to.now.tracker → OnOk result (Made (holds self.old).session (IsAsked to.now.tracker (holds self.old) (event.MoveBuffer loan.number to.now.tracker ∷ [])) (signs self.old) (signs self.new)) };

    // Where the trail is told, the bytes left in a page that isn't pinned are those of its last unpin.
    ghost tells_left: { (st : Self) → TellsLeft (holds st) (signs st).trail };

    // A client without pages and loans has its whole reservation unused.
    ghost idle_unused: { (st : Self) (t : ℕ) → IsSome ((holds st).clients t) → IsIdle t (holds st) → unused_of t (holds st) ≡ (account_of t (holds st)).reservation };

    // A query without clients has its whole reservation as room.
    ghost idle_room: { (st : Self) → (holds st).live_clients ≡ 0 → (holds st).room ≡ (holds st).reservation };
}

//! A session of a shared pool, as a store.
ghost use Rattle.std.specs.Prelude.{◌≡◌, ◌≤◌, [], ◌∷◌, Err, IfErr, IfNone, IfOk, IfSome, OnErr, OnOk};
ghost use Rattle.std.specs.Option.{ForSome};
ghost use Rattle.reservation_tree.specs.Answer.{IsFrom};
ghost use Rattle.pool_model.specs.declared.call.Call.TheVariants as call;
ghost use Rattle.pool_model.specs.declared.event.Event.TheVariants as event;
ghost use Rattle.store_api.specs.Holdings.{page_len, page_of, unused_of};
ghost use Rattle.store_api.specs.Changes.{after_pin, after_reserve, query_growth, shortfall};
ghost use Rattle.store_api.specs.Conditions.{IsLiveClient, IsPage, ShowsLeft};
ghost use Rattle.store_api.specs.Entries.{IsPin, Made, MadeThese};
ghost use Rattle.store_api.specs.Refusals.{IsSharedRefusal, IsUntouched, WasRefused, reserve_refusal};
ghost use Rattle.store_api.specs.Signs.{Grows};
ghost use Rattle.pin_core.specs.calls.Entering.{fit_refusal, growth_refusal};
ghost use Rattle.own_entries.specs.ClientLaws.{IsWholeIdle};
ghost use Rattle.session_calls.specs.Showing.{ShowsStored};
ghost use Rattle.session_calls.specs.Throughout.{FitsThroughout};
ghost use Rattle.pool.specs.Items.{history};
ghost use Rattle.pool.specs.Sitting.{Sits, held_by, signs_by};
ghost use Rattle.pool.specs.Seating.{Ends, state_in};

use crate::at_gate::AtGate;
use crate::ending::unseat_session;
use crate::named::Named;
use crate::pass::Pass;
use crate::seat::SessionSeat;
use crate::shared::Shared;
use block_arena::Buf;
use outside::{Gate, OpenGate, Slot};
use reservation_tree::PoolErr;
use session_calls::Opened;
use std::alloc::Global;
use std::marker::Brand;
use std::sync::Wait;
use store_api::{Client, Loan, Page, Store};
use turn_table::Turns;

/// A session of a pool that others share, as a store. It has the runtime that lets it wait for its turn.
///
/// What a law of stores says of it whatever was called before stands beside it. It can't be let go: it ends by `end`. A
/// session of its own kind passes the gate that lets all pass.
pub struct Session<'a, D: Slot, R: Wait, T: Opened = Brand, N: Opened = Brand, G: Gate = OpenGate> {
    pub(crate) rt: &'a R,
    pub(crate) turns: &'a Turns<Shared<D, T>>,
    pub(crate) at: AtGate<'a, G>,
    pub(crate) seat: SessionSeat<D, T>,
    pub(crate) named: Named<T, N>,
    ghost table: { seat.spot.table ≡ turns.now },
    ghost there: { ForSome N.table (λ table. turns.now ≡ table) },
    ghost whole: { IsWholeIdle (held_by T.opening T.outset.told seat) },
}

/// A session that passes a gate where its pages are stored and loaded.
pub type GatedSession<'a, D, R, G, T, N> = Session<'a, D, R, T, N, G>;

impl<'a, D: Slot + Drop, R: Wait, T: Opened, N: Opened> Session<'a, D, R, T, N, OpenGate> {
    /// The same session, which passes this gate as `who`.
    pub fn with_gate<G: Gate>(self, gate: &'a G, who: u32) -> GatedSession<'a, D, R, G, T, N>
        ensures { result.seat ≡ self.entry.seat }
    {
        self.passing(AtGate { gate, who })
    }
}

impl<'a, D: Slot + Drop, R: Wait, T: Opened, N: Opened, G: Gate> Session<'a, D, R, T, N, G> {
    /// The same session, which passes no gate.
    pub fn into_session(self) -> Session<'a, D, R, T, N>
        ensures { result.seat ≡ self.entry.seat }
    {
        self.passing(AtGate::open())
    }

    // The same session, which passes these points.
    fn passing<H: Gate>(self, at: AtGate<'a, H>) -> Session<'a, D, R, T, N, H>
        ensures { result.seat ≡ self.entry.seat }
    {
        let Session {
            rt,
            turns,
            at: _,
            seat,
            named,
        } = self;
        Session {
            rt,
            turns,
            at,
            seat,
            named,
        }
    }

    /// The session sits at the lock that its type names.
    pub fn law_there(&self)
        ensures { ForSome N.table (λ table. self.now.seat.spot.table ≡ table) }
    {}

    /// The session sits, has the right of its number alone, and has seen a legal history.
    pub fn law_sits(&self)
        ensures { Sits T.opening T.outset.told self.now.seat }
    {
        self.seat.law_sits();
    }

    /// At each entry of what the session has seen, each tracker's charges and its children's reservations fit its
    /// reservation, and that fits its limit; what each client holds fits its reservation; and what is in memory fits
    /// the pool.
    pub fn law_throughout(&self)
        ensures { FitsThroughout T.opening (history self.now.seat.spot.knows.seen) }
    {
        self.seat.law_sits();
    }

    /// Ends a session that has no client. Its reservation and its quota are free again, and its number is the pass's.
    pub fn end(self, pass: &mut Pass<D, T>)
        requires table { pass.old.table ≡ self.seat.spot.table }
        requires no_client { (held_by T.opening T.outset.told self.seat).live_clients ≡ 0 }
        ensures { Ends T.opening self.entry.seat pass.old pass.new }
    {
        let Session {
            rt,
            turns,
            at: _,
            seat,
            named: _,
        } = self;
        unseat_session(rt, turns, pass, seat);
    }
}

impl<'a, D: Slot + Drop, R: Wait, T: Opened, N: Opened, G: Gate> Store
    for Session<'a, D, R, T, N, G> {
    ghost use Rattle.pool.specs.Laws.{tells_left};

    ghost holds = { λ s. held_by T.opening T.outset.told s.seat };

    ghost signs = { λ s. signs_by T.opening s.seat };

    ghost tells_left = { λ st. tells_left T.opening T.outset.told st.seat };

    ghost idle_unused = { λ st t some idle. st.whole.clients t some idle };

    ghost idle_room = { λ st none. st.whole.query none };

    fn block_len(&self) -> u32 {
        self.seat.block_len()
    }

    fn room(&self) -> u64 {
        self.seat.room()
    }

    fn unused(&self, c: &Client) -> u64 {
        self.seat.unused(c)
    }

    fn add_client(&mut self, limit: u64) -> Result<Client, PoolErr> {
        let seat = &mut self.seat;
        let result = seat.add_client(self.rt, self.turns, limit);
        seat.law_whole();
        result
    }

    fn end_client(&mut self, c: Client) {
        let seat = &mut self.seat;
        seat.end_client(self.rt, self.turns, c);
        seat.law_whole();
    }

    fn reserve(&mut self, c: &Client, bytes: u64) -> Result<(), PoolErr>
        requires { IsLiveClient c.now (held_by T.opening T.outset.told self.old.seat) }
        ensures ok { OnOk result (held_by T.opening T.outset.told self.new.seat ≡ after_reserve c.now.tracker bytes (held_by T.opening T.outset.told self.old.seat)) }
        ensures refused { IfSome (reserve_refusal c.now.tracker bytes (held_by T.opening T.outset.told self.old.seat)) (λ e. result ≡ Err e) }
        ensures shared { IfNone (reserve_refusal c.now.tracker bytes (held_by T.opening T.outset.told self.old.seat)) (IfErr result (IsSharedRefusal (query_growth bytes (held_by T.opening T.outset.told self.old.seat)) (held_by T.opening T.outset.told self.old.seat).above)) }

        // A refusal is the one that the rule of growth gives in what the session has seen.
        ensures cause { IfErr result (IsFrom (growth_refusal (state_in T.opening self.new.seat.spot.knows.seen) c.now.tracker bytes)) }
        ensures err { OnErr result (IsUntouched (held_by T.opening T.outset.told self.old.seat) (held_by T.opening T.outset.told self.new.seat) (signs_by T.opening self.old.seat) (signs_by T.opening self.new.seat)) }

        ensures grows { Grows (signs_by T.opening self.old.seat) (signs_by T.opening self.new.seat) }
        ensures entries { OnOk result (MadeThese (held_by T.opening T.outset.told self.old.seat).session (event.Increase c.now.tracker bytes ∷ []) (signs_by T.opening self.old.seat) (signs_by T.opening self.new.seat)) }
    {
        let seat = &mut self.seat;
        let result = seat.reserve(self.rt, self.turns, c, bytes);
        seat.law_whole();
        result
    }

    fn reserve_to_fit(&mut self, c: &Client, bytes: u64) -> Result<(), PoolErr>
        requires { IsLiveClient c.now (held_by T.opening T.outset.told self.old.seat) }
        ensures ok { OnOk result (held_by T.opening T.outset.told self.new.seat ≡ after_reserve c.now.tracker (shortfall c.now.tracker bytes (held_by T.opening T.outset.told self.old.seat)) (held_by T.opening T.outset.told self.old.seat)) }
        ensures refused { IfSome (reserve_refusal c.now.tracker (shortfall c.now.tracker bytes (held_by T.opening T.outset.told self.old.seat)) (held_by T.opening T.outset.told self.old.seat)) (λ e. result ≡ Err e) }
        ensures shared { IfNone (reserve_refusal c.now.tracker (shortfall c.now.tracker bytes (held_by T.opening T.outset.told self.old.seat)) (held_by T.opening T.outset.told self.old.seat)) (IfErr result (IsSharedRefusal (query_growth (shortfall c.now.tracker bytes (held_by T.opening T.outset.told self.old.seat)) (held_by T.opening T.outset.told self.old.seat)) (held_by T.opening T.outset.told self.old.seat).above)) }

        // A refusal is the one that the rule of growth gives in what the session has seen.
        ensures cause { IfErr result (IsFrom (fit_refusal (state_in T.opening self.new.seat.spot.knows.seen) c.now.tracker bytes)) }
        ensures err { OnErr result (IsUntouched (held_by T.opening T.outset.told self.old.seat) (held_by T.opening T.outset.told self.new.seat) (signs_by T.opening self.old.seat) (signs_by T.opening self.new.seat)) }

        ensures grows { Grows (signs_by T.opening self.old.seat) (signs_by T.opening self.new.seat) }
        ensures entries { OnOk result (MadeThese (held_by T.opening T.outset.told self.old.seat).session (event.IncreaseToFit c.now.tracker bytes ∷ []) (signs_by T.opening self.old.seat) (signs_by T.opening self.new.seat)) }
    {
        let seat = &mut self.seat;
        let result = seat.reserve_to_fit(self.rt, self.turns, c, bytes);
        seat.law_whole();
        result
    }

    fn give_back(&mut self, c: &Client, bytes: u64) -> Result<(), PoolErr> {
        let seat = &mut self.seat;
        let result = seat.give_back(self.rt, self.turns, &self.at, c, bytes);
        seat.law_whole();
        result
    }

    fn move_reservation(&mut self, from: &Client, to: &Client, bytes: u64) -> Result<(), PoolErr> {
        let seat = &mut self.seat;
        let result = seat.move_reservation(self.rt, self.turns, &self.at, from, to, bytes);
        seat.law_whole();
        result
    }

    fn create(&mut self, alloc: Global, c: &Client, blocks: u32) -> Result<(Page, Buf), PoolErr> {
        let seat = &mut self.seat;
        let bytes = u64::from(blocks) * u64::from(seat.block_len());
        let result = seat.create(alloc, self.rt, self.turns, &self.at, c, blocks, bytes);
        seat.law_whole();
        result
    }

    fn pin(&mut self, p: &Page) -> Result<Buf, PoolErr>
        requires page { IsPage p.now (held_by T.opening T.outset.told self.old.seat) }
        requires rests { (page_of p.now.name (held_by T.opening T.outset.told self.old.seat)).pins ≡ 0 }
        requires unused { page_len p.now.name (held_by T.opening T.outset.told self.old.seat) ≤ unused_of p.now.client (held_by T.opening T.outset.told self.old.seat) }
        ensures ok { OnOk result (held_by T.opening T.outset.told self.new.seat ≡ after_pin p.now.name (held_by T.opening T.outset.told self.old.seat)) }
        ensures bytes { IfOk result (ShowsLeft (page_of p.now.name (held_by T.opening T.outset.told self.old.seat)) (held_by T.opening T.outset.told self.old.seat)) }

        // Where blocks have marks, and each block of the buffer was stored in this pool, the buffer shows what was left.
        ensures stored { IfOk result (ShowsStored T.opening (history self.new.seat.spot.knows.seen) p.now.name (page_of p.now.name (held_by T.opening T.outset.told self.old.seat))) }
        ensures err { IfErr result (WasRefused p.now.client (call.Pin p.now.name) (held_by T.opening T.outset.told self.old.seat) (held_by T.opening T.outset.told self.new.seat) (signs_by T.opening self.old.seat) (signs_by T.opening self.new.seat)) }

        ensures grows { Grows (signs_by T.opening self.old.seat) (signs_by T.opening self.new.seat) }
        ensures entries { OnOk result (Made (held_by T.opening T.outset.told self.old.seat).session (IsPin p.now.client (held_by T.opening T.outset.told self.old.seat) p.now.name) (signs_by T.opening self.old.seat) (signs_by T.opening self.new.seat)) }
    {
        let seat = &mut self.seat;
        let result = seat.pin(self.rt, self.turns, &self.at, p);
        seat.law_whole();
        result
    }

    fn pin_again(&mut self, p: &Page) -> Result<(), PoolErr> {
        let seat = &mut self.seat;
        let result = seat.pin_again(self.rt, self.turns, &self.at, p);
        seat.law_whole();
        result
    }

    fn unpin_once(&mut self, p: &Page) {
        let seat = &mut self.seat;
        seat.unpin_once(self.rt, self.turns, p);
        seat.law_whole();
    }

    fn unpin(&mut self, p: &Page, buf: Buf) -> Result<(), (Buf, PoolErr)> {
        let seat = &mut self.seat;
        let result = seat.unpin(self.rt, self.turns, p, buf);
        seat.law_whole();
        result
    }

    fn extract(&mut self, p: Page, buf: Buf) -> Loan {
        let seat = &mut self.seat;
        let loan = seat.extract(self.rt, self.turns, p, buf);
        seat.law_whole();
        loan
    }

    fn destroy(&mut self, p: Page, buf: Option<Buf>) {
        let seat = &mut self.seat;
        seat.destroy(self.rt, self.turns, &self.at, p, buf);
        seat.law_whole();
    }

    fn alloc(&mut self, alloc: Global, c: &Client, blocks: u32) -> Result<Loan, PoolErr> {
        let seat = &mut self.seat;
        let bytes = u64::from(blocks) * u64::from(seat.block_len());
        let result = seat.alloc(alloc, self.rt, self.turns, &self.at, c, blocks, bytes);
        seat.law_whole();
        result
    }

    fn free(&mut self, loan: Loan) {
        let seat = &mut self.seat;
        seat.free(self.rt, self.turns, loan);
        seat.law_whole();
    }

    // To its own client a loan doesn't move, so nothing is entered.
    fn move_buffer(&mut self, loan: Loan, to: &Client) -> Result<Loan, (Loan, PoolErr)> {
        if loan.client() == to.tracker() {
            return Ok(loan);
        }
        let seat = &mut self.seat;
        let result = seat.move_buffer(self.rt, self.turns, &self.at, loan, to);
        seat.law_whole();
        result
    }
}

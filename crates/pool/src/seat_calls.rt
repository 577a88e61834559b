//! The calls of a session that take one turn.
ghost use Rattle.std.specs.Prelude.{◌≡◌, ◌≤◌, [], ◌∷◌};
ghost use Rattle.pool_model.specs.declared.event.Event.TheVariants as event;
ghost use Rattle.store_api.specs.Holdings.{page_of};
ghost use Rattle.store_api.specs.Conditions.{Fits, IsIdle, IsLiveClient, IsLoan, IsPage};
ghost use Rattle.session_calls.specs.Calls.{AddsClient, EndsClient, Extracts, Reserves, ReservesToFit, Unpins};
ghost use Rattle.pool.specs.Viewing.{seated};
ghost use Rattle.pool.specs.Sitting.{DidThese, held_by};

use crate::among::Among;
use crate::seat::SessionSeat;
use crate::shared::Shared;
use crate::turning::{begin_turn, end_turn};
use block_arena::Buf;
use outside::Slot;
use reservation_tree::PoolErr;
use session_calls::Opened;
use std::sync::Wait;
use store_api::{Client, Loan, Page};
use turn_table::Turns;

impl<D: Slot + Drop, T: Opened> SessionSeat<D, T> {
    // A new client with this limit.
    pub(crate) fn add_client<R: Wait>(
        &mut self,
        rt: &R,
        turns: &Turns<Shared<D, T>>,
        limit: u64,
    ) -> Result<Client, PoolErr>
        requires table { self.old.spot.table ≡ turns.now }
        ensures table { self.new.spot.table ≡ turns.now }
        ensures adds { AddsClient (seated T.opening T.outset.told self.old self.new) limit result }
    {
        let mut hand = begin_turn(rt, turns, &mut self.spot, self.number);
        let result = hand.add_client::<Among<T>>(limit);
        self.ledger.note(&result);
        end_turn(turns, &mut self.spot, &mut self.ledger, hand);
        result
    }

    // Ends a client that has no page and no loan.
    pub(crate) fn end_client<R: Wait>(&mut self, rt: &R, turns: &Turns<Shared<D, T>>, c: Client)
        requires table { self.old.spot.table ≡ turns.now }
        requires client { IsLiveClient c (held_by T.opening T.outset.told self.old) }
        requires idle { IsIdle c.tracker (held_by T.opening T.outset.told self.old) }
        ensures table { self.new.spot.table ≡ turns.now }
        ensures ends { EndsClient (seated T.opening T.outset.told self.old self.new) c.tracker }
    {
        let mut hand = begin_turn(rt, turns, &mut self.spot, self.number);
        self.ledger.accounts.remove(c.tracker());
        hand.end_client::<Among<T>>(c);
        end_turn(turns, &mut self.spot, &mut self.ledger, hand);
    }

    // Raises the client's reservation.
    pub(crate) fn reserve<R: Wait>(
        &mut self,
        rt: &R,
        turns: &Turns<Shared<D, T>>,
        c: &Client,
        bytes: u64,
    ) -> Result<(), PoolErr>
        requires table { self.old.spot.table ≡ turns.now }
        requires client { IsLiveClient c.now (held_by T.opening T.outset.told self.old) }
        ensures table { self.new.spot.table ≡ turns.now }
        ensures reserves { Reserves (seated T.opening T.outset.told self.old self.new) c.now.tracker bytes result }
    {
        let mut hand = begin_turn(rt, turns, &mut self.spot, self.number);
        let result = hand.reserve::<Among<T>>(c, bytes);
        end_turn(turns, &mut self.spot, &mut self.ledger, hand);
        result
    }

    // Raises the client's reservation until so many bytes are unused.
    pub(crate) fn reserve_to_fit<R: Wait>(
        &mut self,
        rt: &R,
        turns: &Turns<Shared<D, T>>,
        c: &Client,
        bytes: u64,
    ) -> Result<(), PoolErr>
        requires table { self.old.spot.table ≡ turns.now }
        requires client { IsLiveClient c.now (held_by T.opening T.outset.told self.old) }
        ensures table { self.new.spot.table ≡ turns.now }
        ensures reserves { ReservesToFit (seated T.opening T.outset.told self.old self.new) c.now.tracker bytes result }
    {
        let mut hand = begin_turn(rt, turns, &mut self.spot, self.number);
        let result = hand.reserve_to_fit::<Among<T>>(c, bytes);
        end_turn(turns, &mut self.spot, &mut self.ledger, hand);
        result
    }

    // Ends one of several pins of a page.
    pub(crate) fn unpin_once<R: Wait>(&mut self, rt: &R, turns: &Turns<Shared<D, T>>, p: &Page)
        requires table { self.old.spot.table ≡ turns.now }
        requires page { IsPage p.now (held_by T.opening T.outset.told self.old) }
        requires pinned { 2 ≤ (page_of p.now.name (held_by T.opening T.outset.told self.old)).pins }
        ensures table { self.new.spot.table ≡ turns.now }
        ensures did { DidThese (event.UnpinOnce p.now.name ∷ []) self.old self.new }
    {
        let mut hand = begin_turn(rt, turns, &mut self.spot, self.number);
        hand.unpin_once::<Among<T>>(p);
        end_turn(turns, &mut self.spot, &mut self.ledger, hand);
    }

    // Leaves these bytes in a page that is pinned once.
    pub(crate) fn unpin<R: Wait>(
        &mut self,
        rt: &R,
        turns: &Turns<Shared<D, T>>,
        p: &Page,
        buf: Buf,
    ) -> Result<(), (Buf, PoolErr)>
        requires table { self.old.spot.table ≡ turns.now }
        requires page { IsPage p.now (held_by T.opening T.outset.told self.old) }
        requires pinned { (page_of p.now.name (held_by T.opening T.outset.told self.old)).pins ≡ 1 }
        requires buffer { Fits (page_of p.now.name (held_by T.opening T.outset.told self.old)).blocks (held_by T.opening T.outset.told self.old) buf }
        ensures table { self.new.spot.table ≡ turns.now }
        ensures unpins { Unpins (seated T.opening T.outset.told self.old self.new) p.now buf result }
    {
        let mut hand = begin_turn(rt, turns, &mut self.spot, self.number);
        let result = hand.unpin::<Among<T>>(p, buf);
        end_turn(turns, &mut self.spot, &mut self.ledger, hand);
        result
    }

    // Ends a page that is pinned once, and makes its buffer a loan.
    pub(crate) fn extract<R: Wait>(
        &mut self,
        rt: &R,
        turns: &Turns<Shared<D, T>>,
        p: Page,
        buf: Buf,
    ) -> Loan
        requires table { self.old.spot.table ≡ turns.now }
        requires page { IsPage p (held_by T.opening T.outset.told self.old) }
        requires pinned { (page_of p.name (held_by T.opening T.outset.told self.old)).pins ≡ 1 }
        requires buffer { Fits (page_of p.name (held_by T.opening T.outset.told self.old)).blocks (held_by T.opening T.outset.told self.old) buf }
        ensures table { self.new.spot.table ≡ turns.now }
        ensures extracts { Extracts (seated T.opening T.outset.told self.old self.new) p buf result }
    {
        let mut hand = begin_turn(rt, turns, &mut self.spot, self.number);
        let loan = hand.extract::<Among<T>>(p, buf);
        end_turn(turns, &mut self.spot, &mut self.ledger, hand);
        loan
    }

    // Ends a loan.
    pub(crate) fn free<R: Wait>(&mut self, rt: &R, turns: &Turns<Shared<D, T>>, loan: Loan)
        requires table { self.old.spot.table ≡ turns.now }
        requires loan { IsLoan loan (held_by T.opening T.outset.told self.old) }
        ensures table { self.new.spot.table ≡ turns.now }
        ensures did { DidThese (event.Free loan.number ∷ []) self.old self.new }
    {
        let mut hand = begin_turn(rt, turns, &mut self.spot, self.number);
        hand.free::<Among<T>>(loan);
        end_turn(turns, &mut self.spot, &mut self.ledger, hand);
    }
}

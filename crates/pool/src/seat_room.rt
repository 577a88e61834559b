//! The calls of a session that need room of a client, and those that may have to wait for a page.
ghost use Rattle.std.specs.Prelude.{◌≡◌, ◌≢◌, ◌≤◌, [], ◌∷◌};
ghost use Rattle.pool_model.specs.declared.event.Event.TheVariants as event;
ghost use Rattle.store_api.specs.Holdings.{loan_len, length_of, page_len, page_of, unused_of};
ghost use Rattle.store_api.specs.Conditions.{IsBlockCount, IsHeld, IsLiveClient, IsLoan, IsPage};
ghost use Rattle.session_calls.specs.Calls.{Allocs, Creates, GivesBack, MovesBuffer, MovesReservation, Pins, PinsAgain};
ghost use Rattle.session_calls.specs.Pinning.{CanBePinned};
ghost use Rattle.pool.specs.Viewing.{seated};
ghost use Rattle.pool.specs.Sitting.{DidThese, held_by};

use crate::among::Among;
use crate::at_gate::Points;
use crate::lock::Lock;
use crate::seat::SessionSeat;
use crate::shared::Shared;
use crate::turning::{begin_turn, end_turn};
use block_arena::Buf;
use outside::Slot;
use reservation_tree::PoolErr;
use session_calls::Opened;
use std::alloc::Global;
use std::sync::Wait;
use store_api::{Client, Loan, Page};
use turn_table::Turns;

impl<D: Slot + Drop, T: Opened> SessionSeat<D, T> {
    // Lowers the client's reservation, once what it holds fits.
    pub(crate) fn give_back<R: Wait, P: Points>(
        &mut self,
        rt: &R,
        turns: &Turns<Shared<D, T>>,
        at: &P,
        c: &Client,
        bytes: u64,
    ) -> Result<(), PoolErr>
        requires table { self.old.spot.table ≡ turns.now }
        requires client { IsLiveClient c.now (held_by T.opening T.outset.told self.old) }
        requires unused { bytes ≤ unused_of c.now.tracker (held_by T.opening T.outset.told self.old) }
        ensures table { self.new.spot.table ≡ turns.now }
        ensures gives_back { GivesBack (seated T.opening T.outset.told self.old self.new) c.now.tracker bytes result }
    {
        let lock = Lock { rt, turns, at };
        let hand = begin_turn(rt, turns, &mut self.spot, self.number);
        let (hand, result) = session_calls::give_back::<Among<T>, Lock<'_, D, R, P, T>, D>(
            &lock,
            &mut self.spot,
            hand,
            c,
            bytes,
        );
        end_turn(turns, &mut self.spot, &mut self.ledger, hand);
        result
    }

    // Moves unused reservation, once what the first client holds fits.
    pub(crate) fn move_reservation<R: Wait, P: Points>(
        &mut self,
        rt: &R,
        turns: &Turns<Shared<D, T>>,
        at: &P,
        from: &Client,
        to: &Client,
        bytes: u64,
    ) -> Result<(), PoolErr>
        requires table { self.old.spot.table ≡ turns.now }
        requires from { IsLiveClient from.now (held_by T.opening T.outset.told self.old) }
        requires to { IsLiveClient to.now (held_by T.opening T.outset.told self.old) }
        requires unused { bytes ≤ unused_of from.now.tracker (held_by T.opening T.outset.told self.old) }
        ensures table { self.new.spot.table ≡ turns.now }
        ensures moves { MovesReservation (seated T.opening T.outset.told self.old self.new) from.now.tracker to.now.tracker bytes result }
    {
        let lock = Lock { rt, turns, at };
        let hand = begin_turn(rt, turns, &mut self.spot, self.number);
        let (hand, result) = session_calls::move_reservation::<Among<T>, Lock<'_, D, R, P, T>, D>(
            &lock,
            &mut self.spot,
            hand,
            from,
            to,
            bytes,
        );
        end_turn(turns, &mut self.spot, &mut self.ledger, hand);
        result
    }

    // A new page of so many blocks, which have so many bytes, once there is room.
    pub(crate) fn create<R: Wait, P: Points>(
        &mut self,
        alloc: Global,
        rt: &R,
        turns: &Turns<Shared<D, T>>,
        at: &P,
        c: &Client,
        blocks: u32,
        bytes: u64,
    ) -> Result<(Page, Buf), PoolErr>
        requires table { self.old.spot.table ≡ turns.now }
        requires client { IsLiveClient c.now (held_by T.opening T.outset.told self.old) }
        requires blocks { IsBlockCount blocks }
        requires bytes { bytes ≡ length_of blocks (held_by T.opening T.outset.told self.old) }
        requires unused { bytes ≤ unused_of c.now.tracker (held_by T.opening T.outset.told self.old) }
        ensures table { self.new.spot.table ≡ turns.now }
        ensures creates { Creates (seated T.opening T.outset.told self.old self.new) c.now.tracker blocks bytes result }
    {
        let lock = Lock { rt, turns, at };
        let hand = begin_turn(rt, turns, &mut self.spot, self.number);
        let (hand, result) = session_calls::create::<Among<T>, Lock<'_, D, R, P, T>, D>(
            alloc,
            &lock,
            &mut self.spot,
            hand,
            c,
            blocks,
            bytes,
        );
        end_turn(turns, &mut self.spot, &mut self.ledger, hand);
        result
    }

    // A new loan of so many blocks, which have so many bytes, once there is room.
    pub(crate) fn alloc<R: Wait, P: Points>(
        &mut self,
        alloc: Global,
        rt: &R,
        turns: &Turns<Shared<D, T>>,
        at: &P,
        c: &Client,
        blocks: u32,
        bytes: u64,
    ) -> Result<Loan, PoolErr>
        requires table { self.old.spot.table ≡ turns.now }
        requires client { IsLiveClient c.now (held_by T.opening T.outset.told self.old) }
        requires blocks { IsBlockCount blocks }
        requires bytes { bytes ≡ length_of blocks (held_by T.opening T.outset.told self.old) }
        requires unused { bytes ≤ unused_of c.now.tracker (held_by T.opening T.outset.told self.old) }
        ensures table { self.new.spot.table ≡ turns.now }
        ensures allocs { Allocs (seated T.opening T.outset.told self.old self.new) c.now.tracker blocks result }
    {
        let lock = Lock { rt, turns, at };
        let hand = begin_turn(rt, turns, &mut self.spot, self.number);
        let (hand, result) = session_calls::alloc::<Among<T>, Lock<'_, D, R, P, T>, D>(
            alloc,
            &lock,
            &mut self.spot,
            hand,
            c,
            blocks,
            bytes,
        );
        end_turn(turns, &mut self.spot, &mut self.ledger, hand);
        result
    }

    // Pins a page that rests.
    pub(crate) fn pin<R: Wait, P: Points>(
        &mut self,
        rt: &R,
        turns: &Turns<Shared<D, T>>,
        at: &P,
        p: &Page,
    ) -> Result<Buf, PoolErr>
        requires table { self.old.spot.table ≡ turns.now }
        requires can { CanBePinned p.now (held_by T.opening T.outset.told self.old) }
        ensures table { self.new.spot.table ≡ turns.now }
        ensures pins { Pins (seated T.opening T.outset.told self.old self.new) p.now result }
    {
        let lock = Lock { rt, turns, at };
        let hand = begin_turn(rt, turns, &mut self.spot, self.number);
        let (hand, result) = session_calls::pin::<Among<T>, Lock<'_, D, R, P, T>, D>(
            &lock,
            &mut self.spot,
            hand,
            p,
        );
        end_turn(turns, &mut self.spot, &mut self.ledger, hand);
        result
    }

    // Pins a pinned page once more, once there is room.
    pub(crate) fn pin_again<R: Wait, P: Points>(
        &mut self,
        rt: &R,
        turns: &Turns<Shared<D, T>>,
        at: &P,
        p: &Page,
    ) -> Result<(), PoolErr>
        requires table { self.old.spot.table ≡ turns.now }
        requires page { IsPage p.now (held_by T.opening T.outset.told self.old) }
        requires pinned { 1 ≤ (page_of p.now.name (held_by T.opening T.outset.told self.old)).pins }
        requires unused { page_len p.now.name (held_by T.opening T.outset.told self.old) ≤ unused_of p.now.client (held_by T.opening T.outset.told self.old) }
        ensures table { self.new.spot.table ≡ turns.now }
        ensures pins_again { PinsAgain (seated T.opening T.outset.told self.old self.new) p.now result }
    {
        let lock = Lock { rt, turns, at };
        let hand = begin_turn(rt, turns, &mut self.spot, self.number);
        let (hand, result) = session_calls::pin_again::<Among<T>, Lock<'_, D, R, P, T>, D>(
            &lock,
            &mut self.spot,
            hand,
            p,
        );
        end_turn(turns, &mut self.spot, &mut self.ledger, hand);
        result
    }

    // Ends a page. One that another maker writes is waited for.
    pub(crate) fn destroy<R: Wait, P: Points>(
        &mut self,
        rt: &R,
        turns: &Turns<Shared<D, T>>,
        at: &P,
        p: Page,
        buf: Option<Buf>,
    )
        requires table { self.old.spot.table ≡ turns.now }
        requires page { IsPage p (held_by T.opening T.outset.told self.old) }
        requires buffer { IsHeld p (held_by T.opening T.outset.told self.old) buf }
        ensures table { self.new.spot.table ≡ turns.now }
        ensures did { DidThese (event.Destroy p.name ∷ []) self.old self.new }
    {
        let lock = Lock { rt, turns, at };
        let hand = begin_turn(rt, turns, &mut self.spot, self.number);
        let hand = session_calls::destroy::<Among<T>, Lock<'_, D, R, P, T>, D>(
            &lock,
            &mut self.spot,
            hand,
            p,
            buf,
        );
        end_turn(turns, &mut self.spot, &mut self.ledger, hand);
    }

    // Charges a loan to another client, once that one has room.
    pub(crate) fn move_buffer<R: Wait, P: Points>(
        &mut self,
        rt: &R,
        turns: &Turns<Shared<D, T>>,
        at: &P,
        loan: Loan,
        to: &Client,
    ) -> Result<Loan, (Loan, PoolErr)>
        requires table { self.old.spot.table ≡ turns.now }
        requires loan { IsLoan loan (held_by T.opening T.outset.told self.old) }
        requires to { IsLiveClient to.now (held_by T.opening T.outset.told self.old) }
        requires apart { loan.client ≢ to.now.tracker }
        requires unused { loan_len loan.number (held_by T.opening T.outset.told self.old) ≤ unused_of to.now.tracker (held_by T.opening T.outset.told self.old) }
        ensures table { self.new.spot.table ≡ turns.now }
        ensures moves { MovesBuffer (seated T.opening T.outset.told self.old self.new) loan to.now.tracker result }
    {
        let lock = Lock { rt, turns, at };
        let hand = begin_turn(rt, turns, &mut self.spot, self.number);
        let (hand, result) = session_calls::move_buffer::<Among<T>, Lock<'_, D, R, P, T>, D>(
            &lock,
            &mut self.spot,
            hand,
            loan,
            to,
        );
        end_turn(turns, &mut self.spot, &mut self.ledger, hand);
        result
    }
}

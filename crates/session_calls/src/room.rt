//! Steps of calls that need room of a client, once there is room.
ghost use Rattle.std.specs.Prelude.{◌≡◌, ◌≢◌, ◌≤◌, [], ◌∷◌, None, Err, IsOk, IfSome, IfNone};
ghost use Rattle.pool_model.specs.declared.event.Event.TheVariants as event;
ghost use Rattle.pool_model.specs.Sums.{HasRoom};
ghost use Rattle.pin_core.specs.StateOf.{state_of};
ghost use Rattle.store_api.specs.Holdings.{loan_len, page_of, page_len, unused_of};
ghost use Rattle.store_api.specs.Conditions.{IsLiveClient, IsLoan, IsPage};
ghost use Rattle.store_api.specs.Refusals.{move_refusal};
ghost use Rattle.session_calls.specs.Ready.{IsReady};
ghost use Rattle.session_calls.specs.Acting.{ActsThese, held_by};

use crate::entering::enter;
use crate::hand::Hand;
use crate::opened::Opened;
use outside::Slot;
use pool_model::Event;
use reservation_tree::PoolErr;
use store_api::{Client, Loan, Page};

impl<D: Slot + Drop> Hand<D> {
    /// The client has room for it, so its reservation falls.
    pub fn give_up<O: Opened>(&mut self, c: &Client, bytes: u64)
        requires ready { IsReady D.Slot O.opening O.outset self.old }
        requires client { IsLiveClient c.now (held_by O.opening O.outset self.old) }
        requires unused { bytes ≤ unused_of c.now.tracker (held_by O.opening O.outset self.old) }
        requires room { HasRoom (state_of self.old.state) c.now.tracker bytes }
        ensures acts { ActsThese (event.Decrease c.now.tracker bytes ∷ []) self.old self.new }
        ensures ready { IsReady D.Slot O.opening O.outset self.new }
    {
        let session = self.session;
        let tracker = c.tracker();
        let mine = Client::of(session, tracker);
        self.state.decrease_now(&mine, bytes);
        mine.into_tracker();
        enter(&mut self.trail, session, Event::Decrease { tracker, bytes });
    }

    /// Whether the other client's limit lets it have so much more.
    pub fn may_move<O: Opened>(&self, from: &Client, to: &Client, bytes: u64) -> Result<(), PoolErr>
        requires ready { IsReady D.Slot O.opening O.outset self.now }
        requires from { IsLiveClient from.now (held_by O.opening O.outset self.now) }
        requires to { IsLiveClient to.now (held_by O.opening O.outset self.now) }
        ensures refused { IfSome (move_refusal from.now.tracker to.now.tracker bytes (held_by O.opening O.outset self.now)) (λ e. result ≡ Err e) }
        ensures granted { IfNone (move_refusal from.now.tracker to.now.tracker bytes (held_by O.opening O.outset self.now)) (IsOk result) }
    {
        let getter = to.tracker();
        if from.tracker() == getter {
            return Ok(());
        }
        let room = self.state.limit(getter) - self.state.reservation(getter);
        if bytes <= room {
            return Ok(());
        }
        Err(PoolErr::NoReservation {
            tracker: getter,
            wanted: bytes,
            room,
        })
    }

    /// The first client has room for it, and the other's limit allows it, so the reservation moves.
    pub fn pass_on<O: Opened>(&mut self, from: &Client, to: &Client, bytes: u64)
        requires ready { IsReady D.Slot O.opening O.outset self.old }
        requires from { IsLiveClient from.now (held_by O.opening O.outset self.old) }
        requires to { IsLiveClient to.now (held_by O.opening O.outset self.old) }
        requires unused { bytes ≤ unused_of from.now.tracker (held_by O.opening O.outset self.old) }
        requires room { HasRoom (state_of self.old.state) from.now.tracker bytes }
        requires granted { move_refusal from.now.tracker to.now.tracker bytes (held_by O.opening O.outset self.old) ≡ None }
        ensures acts { ActsThese (event.MoveReservation from.now.tracker to.now.tracker bytes ∷ []) self.old self.new }
        ensures ready { IsReady D.Slot O.opening O.outset self.new }
    {
        let session = self.session;
        let (giver, getter) = (from.tracker(), to.tracker());
        let mine = Client::of(session, giver);
        let other = Client::of(session, getter);
        self.state.move_now(&mine, &other, bytes).unwrap();
        mine.into_tracker();
        other.into_tracker();
        let moved = Event::MoveReservation {
            from: giver,
            to: getter,
            bytes,
        };
        enter(&mut self.trail, session, moved);
    }

    /// The page's client has room for it once more, so it has one pin more.
    pub fn pin_again<O: Opened>(&mut self, p: &Page)
        requires ready { IsReady D.Slot O.opening O.outset self.old }
        requires page { IsPage p.now (held_by O.opening O.outset self.old) }
        requires pinned { 1 ≤ (page_of p.now.name (held_by O.opening O.outset self.old)).pins }
        requires room { HasRoom (state_of self.old.state) p.now.client (page_len p.now.name (held_by O.opening O.outset self.old)) }
        ensures acts { ActsThese (event.PinAgain p.now.name ∷ []) self.old self.new }
        ensures ready { IsReady D.Slot O.opening O.outset self.new }
    {
        self.state.pin_again_now(p);
        let page = p.name();
        enter(&mut self.trail, self.session, Event::PinAgain { page });
    }

    /// The other client has room for the loan, so it is charged for it.
    pub fn move_buffer<O: Opened>(&mut self, loan: Loan, to: &Client) -> Loan
        requires ready { IsReady D.Slot O.opening O.outset self.old }
        requires loan { IsLoan loan (held_by O.opening O.outset self.old) }
        requires to { IsLiveClient to.now (held_by O.opening O.outset self.old) }
        requires apart { loan.client ≢ to.now.tracker }
        requires room { HasRoom (state_of self.old.state) to.now.tracker (loan_len loan.number (held_by O.opening O.outset self.old)) }
        ensures acts { ActsThese (event.MoveBuffer loan.number to.now.tracker ∷ []) self.old self.new }
        ensures moved { result ≡ record loan { client = to.now.tracker } }
        ensures ready { IsReady D.Slot O.opening O.outset self.new }
    {
        let session = self.session;
        let (buffer, to) = (loan.number(), to.tracker());
        let mine = Client::of(session, to);
        let moved = self.state.move_buffer_now(loan, &mine);
        mine.into_tracker();
        enter(&mut self.trail, session, Event::MoveBuffer { buffer, to });
        moved
    }
}

//! Clients come and go, and reservations grow.
ghost use Rattle.store_api.specs.Conditions.{IsLiveClient, IsIdle};
ghost use Rattle.session_calls.specs.Ready.{IsReady};
ghost use Rattle.session_calls.specs.Acting.{TellsAbove, held_by};
ghost use Rattle.session_calls.specs.Calls.{AddsClient, EndsClient, Reserves, ReservesToFit, in_turn};

use crate::entering::enter;
use crate::hand::Hand;
use crate::opened::Opened;
use outside::Slot;
use pool_model::Event;
use reservation_tree::PoolErr;
use store_api::Client;

impl<D: Slot + Drop> Hand<D> {
    /// A new client with this limit, in bytes.
    ///
    /// # Errors
    ///
    /// `TooManyTrackers`: sixteen clients of the session are live.
    pub fn add_client<O: Opened>(&mut self, limit: u64) -> Result<Client, PoolErr>
        requires ready { IsReady D.Slot O.opening O.outset self.old }
        ensures adds { AddsClient (in_turn O.opening O.outset self.old self.new) limit result }
        ensures ready { IsReady D.Slot O.opening O.outset self.new }
    {
        let query = self.state.tracker(self.session);
        let c = self.state.add_client(self.session, limit)?;
        let came = Event::AddTracker {
            tracker: c.tracker(),
            parent: query,
            limit,
            quota: None,
        };
        enter(&mut self.trail, self.session, came);
        Ok(c)
    }

    /// Ends a client that has no page and no loan. Its reservation is the query's room.
    pub fn end_client<O: Opened>(&mut self, c: Client)
        requires ready { IsReady D.Slot O.opening O.outset self.old }
        requires client { IsLiveClient c (held_by O.opening O.outset self.old) }
        requires idle { IsIdle c.tracker (held_by O.opening O.outset self.old) }
        ensures ends { EndsClient (in_turn O.opening O.outset self.old self.new) c.tracker }
        ensures ready { IsReady D.Slot O.opening O.outset self.new }
    {
        let session = self.session;
        let tracker = c.into_tracker();
        let query = self.state.tracker(session);
        let bytes = self.state.reservation(tracker);
        self.state.end_client(Client::of(session, tracker));
        let gave = Event::MoveReservation {
            from: tracker,
            to: query,
            bytes,
        };
        enter(&mut self.trail, session, gave);
        enter(&mut self.trail, session, Event::CloseTracker { tracker });
    }

    /// Raises the client's reservation by so many bytes.
    ///
    /// # Errors
    ///
    /// `NoReservation`: a limit would be passed. It names the lowest such tracker.
    pub fn reserve<O: Opened>(&mut self, c: &Client, bytes: u64) -> Result<(), PoolErr>
        requires ready { IsReady D.Slot O.opening O.outset self.old }
        requires above { TellsAbove O.opening O.outset self.old }
        requires client { IsLiveClient c.now (held_by O.opening O.outset self.old) }
        ensures reserves { Reserves (in_turn O.opening O.outset self.old self.new) c.now.tracker bytes result }
        ensures ready { IsReady D.Slot O.opening O.outset self.new }
    {
        let session = self.session;
        let tracker = c.tracker();
        let mine = Client::of(session, tracker);
        let result = self.state.increase(&mine, bytes);
        mine.into_tracker();
        result?;
        enter(&mut self.trail, session, Event::Increase { tracker, bytes });
        Ok(())
    }

    /// Raises the client's reservation until so many bytes are unused.
    ///
    /// # Errors
    ///
    /// As for `reserve`, of the bytes that are lacking.
    pub fn reserve_to_fit<O: Opened>(&mut self, c: &Client, bytes: u64) -> Result<(), PoolErr>
        requires ready { IsReady D.Slot O.opening O.outset self.old }
        requires above { TellsAbove O.opening O.outset self.old }
        requires client { IsLiveClient c.now (held_by O.opening O.outset self.old) }
        ensures reserves { ReservesToFit (in_turn O.opening O.outset self.old self.new) c.now.tracker bytes result }
        ensures ready { IsReady D.Slot O.opening O.outset self.new }
    {
        let session = self.session;
        let tracker = c.tracker();
        let mine = Client::of(session, tracker);
        let result = self.state.increase_to_fit(&mine, bytes);
        mine.into_tracker();
        result?;
        enter(
            &mut self.trail,
            session,
            Event::IncreaseToFit { tracker, bytes },
        );
        Ok(())
    }
}

//! What a session sees of the value that it has in hand.
ghost use Rattle.std.specs.Prelude.{◌≡◌, IsSome};
ghost use Rattle.store_api.specs.Holdings.{account_of, page_len, unused_of};
ghost use Rattle.store_api.specs.Conditions.{FitsAccount, FitsQuery, IsPage};
ghost use Rattle.own_entries.specs.ClientLaws.{IsWholeIdle};
ghost use Rattle.own_entries.specs.FitLaws.{FitsHeld};
ghost use Rattle.session_calls.specs.Ready.{IsReady};
ghost use Rattle.session_calls.specs.Acting.{held_by};

use crate::hand::Hand;
use crate::opened::Opened;
use outside::Slot;
use reservation_tree::TrackerId;
use store_api::Page;

impl<D: Slot + Drop> Hand<D> {
    /// How much of the query's reservation no client has, in bytes.
    pub fn room<O: Opened>(&self) -> u64
        requires { IsReady D.Slot O.opening O.outset self.now }
        ensures value { result ≡ (held_by O.opening O.outset self.now).room }
        ensures fits { FitsQuery (held_by O.opening O.outset self.now) }
    {
        self.state.unused(self.state.tracker(self.session))
    }

    /// What the client may still charge, in bytes.
    pub fn unused<O: Opened>(&self, client: TrackerId) -> u64
        requires ready { IsReady D.Slot O.opening O.outset self.now }
        requires client { IsSome ((held_by O.opening O.outset self.now).clients client) }
        ensures value { result ≡ unused_of client (held_by O.opening O.outset self.now) }
        ensures fits { FitsAccount (account_of client (held_by O.opening O.outset self.now)) (held_by O.opening O.outset self.now) }
    {
        self.state.unused(client)
    }

    /// The length of a page in bytes.
    pub fn page_len<O: Opened>(&self, p: &Page) -> u64
        requires ready { IsReady D.Slot O.opening O.outset self.now }
        requires page { IsPage p.now (held_by O.opening O.outset self.now) }
        ensures len { result ≡ page_len p.now.name (held_by O.opening O.outset self.now) }
        ensures client { IsSome ((held_by O.opening O.outset self.now).clients p.now.client) }
    {
        self.state.page_len(p)
    }

    /// Clients and queries that have nothing under them have their whole reservation unused.
    pub fn law_whole<O: Opened>(&self)
        requires { IsReady D.Slot O.opening O.outset self.now }
        ensures whole { IsWholeIdle (held_by O.opening O.outset self.now) }
        ensures fits { FitsHeld (held_by O.opening O.outset self.now) }
    {}
}

//! Clients come and go, and reservations grow.
ghost use Rattle.std.specs.Prelude.{IsOk, IfNone};
ghost use Rattle.store_api.specs.Changes.{shortfall};
ghost use Rattle.store_api.specs.Conditions.{IsLiveClient, IsIdle};
ghost use Rattle.store_api.specs.Refusals.{reserve_refusal};
ghost use Rattle.session_calls.specs.Calls.{AddsClient, EndsClient, Reserves, ReservesToFit};
ghost use Rattle.local_pool.specs.Viewing.{owned};
ghost use Rattle.local_pool.specs.Told.{held_of};

use crate::owned::Alone;
use outside::Slot;
use reservation_tree::PoolErr;
use session_calls::Opened;
use std::marker::Brand;
use store_api::Client;

impl<D: Slot + Drop, T: Opened> Alone<D, T> {
    /// A new client with this limit.
    pub fn add_client(&mut self, limit: u64) -> Result<Client, PoolErr>
        ensures { AddsClient (owned D.Slot self.old self.new) limit result }
    {
        self.hand.add_client::<Brand>(limit)
    }

    /// Ends a client that has no page and no loan.
    pub fn end_client(&mut self, c: Client)
        requires client { IsLiveClient c (held_of D.Slot self.old) }
        requires idle { IsIdle c.tracker (held_of D.Slot self.old) }
        ensures { EndsClient (owned D.Slot self.old self.new) c.tracker }
    {
        self.hand.end_client::<Brand>(c);
    }

    /// Raises the client's reservation.
    pub fn reserve(&mut self, c: &Client, bytes: u64) -> Result<(), PoolErr>
        requires client { IsLiveClient c.now (held_of D.Slot self.old) }
        ensures reserves { Reserves (owned D.Slot self.old self.new) c.now.tracker bytes result }
        ensures granted { IfNone (reserve_refusal c.now.tracker bytes (held_of D.Slot self.old)) (IsOk result) }
    {
        self.hand.reserve::<Brand>(c, bytes)
    }

    /// Raises the client's reservation until so many bytes are unused.
    pub fn reserve_to_fit(&mut self, c: &Client, bytes: u64) -> Result<(), PoolErr>
        requires client { IsLiveClient c.now (held_of D.Slot self.old) }
        ensures reserves { ReservesToFit (owned D.Slot self.old self.new) c.now.tracker bytes result }
        ensures granted { IfNone (reserve_refusal c.now.tracker (shortfall c.now.tracker bytes (held_of D.Slot self.old)) (held_of D.Slot self.old)) (IsOk result) }
    {
        self.hand.reserve_to_fit::<Brand>(c, bytes)
    }
}

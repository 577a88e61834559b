//! What an owner sees of its pool.
ghost use Rattle.std.specs.Prelude.{◌≡◌};
ghost use Rattle.store_api.specs.Holdings.{account_of, unused_of};
ghost use Rattle.store_api.specs.Conditions.{FitsAccount, FitsQuery, IsLiveClient};
ghost use Rattle.own_entries.specs.ClientLaws.{IsWholeIdle};
ghost use Rattle.pool_model.specs.Legal.{IsLegal, state_after};
ghost use Rattle.pin_core.specs.StateOf.{state_of};
ghost use Rattle.session_calls.specs.Throughout.{FitsThroughout};
ghost use Rattle.local_pool.specs.Told.{held_of, opening_of};
ghost use Rattle.local_pool.specs.Agreeing.{AgreesWith};

use crate::owned::Alone;
use outside::Slot;
use pin_core::PoolState;
use session_calls::Opened;
use std::marker::Brand;
use store_api::Client;

impl<D: Slot + Drop, T: Opened> Alone<D, T> {
    /// How much of the query's reservation no client has.
    pub fn room(&self) -> u64
        ensures value { result ≡ (held_of D.Slot self.now).room }
        ensures fits { FitsQuery (held_of D.Slot self.now) }
    {
        self.hand.room::<Brand>()
    }

    /// What the client may still charge.
    pub fn unused(&self, c: &Client) -> u64
        requires { IsLiveClient c.now (held_of D.Slot self.now) }
        ensures value { result ≡ unused_of c.now.tracker (held_of D.Slot self.now) }
        ensures fits { FitsAccount (account_of c.now.tracker (held_of D.Slot self.now)) (held_of D.Slot self.now) }
    {
        self.hand.unused::<Brand>(c.tracker())
    }

    /// The pool's value. What the owner holds is what the value has for the owner's session.
    pub fn value(&self) -> &PoolState<D>
        ensures value { result.now ≡ self.now.state }
        ensures held { AgreesWith D.Slot self.now }
    {
        &self.hand.state
    }

    /// The number of the owner's session.
    pub fn session(&self) -> u32
        ensures { result ≡ self.now.session }
    {
        self.hand.session
    }

    /// The pool's value stands for the owner's trail, which is a legal history; and at each entry of it, each tracker's
    /// charges and its children's reservations fit its reservation, and that fits its limit; what each client holds
    /// fits its reservation; and what is in memory fits the pool.
    pub fn law_throughout(&self)
        ensures legal { IsLegal (opening_of D.Slot self.now) self.now.trail }
        ensures state { state_of self.now.state ≡ state_after (opening_of D.Slot self.now) self.now.trail }
        ensures fits { FitsThroughout (opening_of D.Slot self.now) self.now.trail }
    {
        let _shelf = &self.shelf;
    }

    /// Clients and queries that have nothing under them have their whole reservation unused.
    pub fn law_whole(&self)
        ensures { IsWholeIdle (held_of D.Slot self.now) }
    {
        self.hand.law_whole::<Brand>();
    }
}

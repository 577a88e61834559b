//! The seat of a session.
ghost use Rattle.std.specs.Prelude.{◌≡◌};
ghost use Rattle.block_arena.specs.Blocks.{IsBlockLen};
ghost use Rattle.store_api.specs.Holdings.{account_of, unused_of};
ghost use Rattle.store_api.specs.Conditions.{FitsAccount, FitsQuery, IsLiveClient};
ghost use Rattle.own_entries.specs.ClientLaws.{IsWholeIdle};
ghost use Rattle.pool.specs.Sitting.{Sits, held_by};

use crate::ledger::Ledger;
use crate::place::Place;
use outside::Slot;
use session_calls::Opened;
use std::marker::{Brand, Model};
use store_api::Client;

/// What contracts see of a session: its number, and its seat with what it has seen.
pub struct Sitting<S> {
    pub number: u32,
    pub spot: S,
}

/// A session's seat at the turn lock, with the right of the session's number, and what its readers tell.
pub struct SessionSeat<D: Slot, T: Opened = Brand> {
    pub(crate) number: u32,
    pub(crate) block_len: u32,
    pub(crate) ledger: Ledger,
    pub(crate) spot: Place<D, T>,
}

impl<D: Slot, T: Opened> Model for SessionSeat<D, T> {
    ghost use Rattle.turn_table.specs.Face.{Spot};
    ghost use Rattle.pool.specs.Sitting.{Sitting};
    ghost use Rattle.pool.specs.Keeping.{KeepsSeat};

    ghost Value = { Sitting };

    ghost view = { λ s. record { number = s.number; spot = s.spot } };

    ghost invariant = { λ s. KeepsSeat T.opening T.outset.told s.block_len s.ledger (record { number = s.number; spot = s.spot }) };
}

impl<D: Slot + Drop, T: Opened> SessionSeat<D, T> {
    // The length of a block.
    pub(crate) fn block_len(&self) -> u32
        ensures value { result ≡ (held_by T.opening T.outset.told self.now).block_len }
        ensures power { IsBlockLen result }
    {
        self.block_len
    }

    // How much of the query's reservation no client has.
    pub(crate) fn room(&self) -> u64
        ensures value { result ≡ (held_by T.opening T.outset.told self.now).room }
        ensures fits { FitsQuery (held_by T.opening T.outset.told self.now) }
    {
        self.ledger.room
    }

    // What the client may still charge.
    pub(crate) fn unused(&self, c: &Client) -> u64
        requires { IsLiveClient c.now (held_by T.opening T.outset.told self.now) }
        ensures value { result ≡ unused_of c.now.tracker (held_by T.opening T.outset.told self.now) }
        ensures fits { FitsAccount (account_of c.now.tracker (held_by T.opening T.outset.told self.now)) (held_by T.opening T.outset.told self.now) }
    {
        self.ledger.accounts.unused(c.tracker())
    }

    // The session sits.
    pub(crate) fn law_sits(&self)
        ensures { Sits T.opening T.outset.told self.now }
    {
        let _ledger = &self.ledger;
    }

    // Clients and queries that have nothing under them have their whole reservation unused.
    pub(crate) fn law_whole(&self)
        ensures { IsWholeIdle (held_by T.opening T.outset.told self.now) }
    {
        let _ledger = &self.ledger;
    }
}

//! Reservations fall, and move from one client to another.
ghost use Rattle.std.specs.Prelude.{◌≤◌};
ghost use Rattle.store_api.specs.Holdings.{unused_of};
ghost use Rattle.store_api.specs.Conditions.{IsLiveClient};
ghost use Rattle.local_pool.specs.Told.{held_of};
ghost use Rattle.session_calls.specs.Calls.{GivesBack, MovesReservation};
ghost use Rattle.session_calls.specs.Needing.{EntersNeeded};
ghost use Rattle.local_pool.specs.Viewing.{owned};

use crate::owned::Alone;
use crate::sole::Sole;
use crate::taking::{Passing, Shrinking};
use outside::Slot;
use reservation_tree::PoolErr;
use session_calls::Opened;
use std::marker::Brand;
use store_api::Client;

impl<D: Slot + Drop, T: Opened> Alone<D, T> {
    /// Lowers the client's reservation, once what it holds fits.
    pub fn give_back(self, what: Shrinking<'_>) -> (Alone<D, T>, Result<(), PoolErr>)
        requires client { IsLiveClient what.client.now (held_of D.Slot self) }
        requires unused { what.bytes ≤ unused_of what.client.now.tracker (held_of D.Slot self) }
        ensures gives_back { GivesBack (owned D.Slot self result.0) what.entry.client.now.tracker what.entry.bytes result.1 }

        // Pages are written only while room lacks, and clean ones go only while fewer bytes are free.
        ensures needed { EntersNeeded what.entry.client.now.tracker what.entry.bytes self result.0 }
    {
        let Shrinking { client, bytes } = what;
        let Alone {
            hand,
            mut shelf,
            first,
        } = self;
        let (hand, result) = session_calls::give_back::<Brand, Sole, D>(
            &Sole, &mut shelf, hand, client, bytes,
        );
        (Alone { hand, shelf, first }, result)
    }

    /// Moves unused reservation, once what the first client holds fits.
    pub fn move_reservation(self, what: Passing<'_>) -> (Alone<D, T>, Result<(), PoolErr>)
        requires from { IsLiveClient what.from.now (held_of D.Slot self) }
        requires to { IsLiveClient what.to.now (held_of D.Slot self) }
        requires unused { what.bytes ≤ unused_of what.from.now.tracker (held_of D.Slot self) }
        ensures moves { MovesReservation (owned D.Slot self result.0) what.entry.from.now.tracker what.entry.to.now.tracker what.entry.bytes result.1 }

        // Pages are written only while room lacks, and clean ones go only while fewer bytes are free.
        ensures needed { EntersNeeded what.entry.from.now.tracker what.entry.bytes self result.0 }
    {
        let Passing { from, to, bytes } = what;
        let Alone {
            hand,
            mut shelf,
            first,
        } = self;
        let (hand, result) = session_calls::move_reservation::<Brand, Sole, D>(
            &Sole, &mut shelf, hand, from, to, bytes,
        );
        (Alone { hand, shelf, first }, result)
    }
}

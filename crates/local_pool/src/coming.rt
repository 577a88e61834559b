//! Pages and loans come.
ghost use Rattle.std.specs.Prelude.{◌≡◌, ◌≤◌, ◌<◌};
ghost use Rattle.store_api.specs.Holdings.{length_of, unused_of};
ghost use Rattle.store_api.specs.Conditions.{IsBlockCount, IsLiveClient};
ghost use Rattle.local_pool.specs.Told.{held_of};
ghost use Rattle.session_calls.specs.Calls.{Allocs, Creates};
ghost use Rattle.session_calls.specs.Needing.{EntersNeeded};
ghost use Rattle.local_pool.specs.Viewing.{owned};

use crate::owned::Alone;
use crate::sole::Sole;
use crate::taking::Coming;
use block_arena::Buf;
use outside::Slot;
use reservation_tree::PoolErr;
use session_calls::Opened;
use std::alloc::Global;
use std::marker::Brand;
use store_api::{Client, Loan, Page};

impl<D: Slot + Drop, T: Opened> Alone<D, T> {
    /// A new page of so many blocks, which have so many bytes, once there is room.
    pub fn create(self, what: Coming<'_>) -> (Alone<D, T>, Result<(Page, Buf), PoolErr>)
        requires client { IsLiveClient what.client.now (held_of D.Slot self) }
        requires blocks { IsBlockCount what.blocks }
        requires bytes { what.bytes ≡ length_of what.blocks (held_of D.Slot self) }
        requires unused { what.bytes ≤ unused_of what.client.now.tracker (held_of D.Slot self) }
        ensures creates { Creates (owned D.Slot self result.0) what.entry.client.now.tracker what.entry.blocks what.entry.bytes result.1 }

        // Pages are written only while room lacks, and clean ones go only while fewer bytes are free.
        ensures needed { EntersNeeded what.entry.client.now.tracker what.entry.bytes self result.0 }
    {
        let Coming {
            alloc,
            client,
            blocks,
            bytes,
        } = what;
        let Alone {
            hand,
            mut shelf,
            first,
        } = self;
        let (hand, result) = session_calls::create::<Brand, Sole, D>(
            alloc, &Sole, &mut shelf, hand, client, blocks, bytes,
        );
        (Alone { hand, shelf, first }, result)
    }

    /// A new loan of so many blocks, which have so many bytes, once there is room.
    pub fn alloc(self, what: Coming<'_>) -> (Alone<D, T>, Result<Loan, PoolErr>)
        requires client { IsLiveClient what.client.now (held_of D.Slot self) }
        requires blocks { IsBlockCount what.blocks }
        requires bytes { what.bytes ≡ length_of what.blocks (held_of D.Slot self) }
        requires unused { what.bytes ≤ unused_of what.client.now.tracker (held_of D.Slot self) }
        ensures allocs { Allocs (owned D.Slot self result.0) what.entry.client.now.tracker what.entry.blocks result.1 }

        // Pages are written only while room lacks, and clean ones go only while fewer bytes are free.
        ensures needed { EntersNeeded what.entry.client.now.tracker what.entry.bytes self result.0 }
    {
        let Coming {
            alloc,
            client,
            blocks,
            bytes,
        } = what;
        let Alone {
            hand,
            mut shelf,
            first,
        } = self;
        let (hand, result) = session_calls::alloc::<Brand, Sole, D>(
            alloc, &Sole, &mut shelf, hand, client, blocks, bytes,
        );
        (Alone { hand, shelf, first }, result)
    }
}

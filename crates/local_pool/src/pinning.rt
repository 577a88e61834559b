//! Pages that rest are pinned.
ghost use Rattle.std.specs.Prelude.{◌≡◌, ◌≤◌};
ghost use Rattle.store_api.specs.Holdings.{page_of, page_len, unused_of};
ghost use Rattle.store_api.specs.Conditions.{IsPage};
ghost use Rattle.local_pool.specs.Told.{held_of};
ghost use Rattle.session_calls.specs.Calls.{Pins};
ghost use Rattle.session_calls.specs.Needing.{EntersNeeded};
ghost use Rattle.local_pool.specs.Viewing.{owned};

use crate::owned::Alone;
use crate::sole::Sole;
use block_arena::Buf;
use outside::Slot;
use reservation_tree::PoolErr;
use session_calls::Opened;
use std::marker::Brand;
use store_api::Page;

impl<D: Slot + Drop, T: Opened> Alone<D, T> {
    /// Pins a page that rests: where it is, or once there is room for it, after a load where it isn't in memory.
    pub fn pin(self, p: &Page) -> (Alone<D, T>, Result<Buf, PoolErr>)
        requires page { IsPage p.now (held_of D.Slot self) }
        requires rests { (page_of p.now.name (held_of D.Slot self)).pins ≡ 0 }
        requires unused { page_len p.now.name (held_of D.Slot self) ≤ unused_of p.now.client (held_of D.Slot self) }
        ensures pins { Pins (owned D.Slot self result.0) p.now result.1 }

        // Pages are written only while room lacks, and clean ones go only while fewer bytes are free.
        ensures needed { EntersNeeded p.now.client (page_len p.now.name (held_of D.Slot self)) self result.0 }
    {
        let Alone {
            hand,
            mut shelf,
            first,
        } = self;
        let (hand, result) = session_calls::pin::<Brand, Sole, D>(&Sole, &mut shelf, hand, p);
        (Alone { hand, shelf, first }, result)
    }
}

//! Pages are pinned once more, or once less, and loans change hands.
ghost use Rattle.std.specs.Prelude.{◌≡◌, ◌≢◌, ◌≤◌, [], ◌∷◌};
ghost use Rattle.pool_model.specs.declared.event.Event.TheVariants as event;
ghost use Rattle.store_api.specs.Holdings.{page_of, page_len, unused_of, loan_len};
ghost use Rattle.store_api.specs.Conditions.{IsPage, IsLoan, IsLiveClient};
ghost use Rattle.local_pool.specs.Told.{held_of};
ghost use Rattle.local_pool.specs.Making.{Makes};
ghost use Rattle.session_calls.specs.Calls.{MovesBuffer, PinsAgain};
ghost use Rattle.session_calls.specs.Needing.{EntersNeeded};
ghost use Rattle.local_pool.specs.Viewing.{owned};

use crate::owned::Alone;
use crate::sole::Sole;
use crate::taking::Handing;
use outside::Slot;
use reservation_tree::PoolErr;
use session_calls::Opened;
use std::marker::Brand;
use store_api::{Client, Loan, Page};

impl<D: Slot + Drop, T: Opened> Alone<D, T> {
    /// Pins a pinned page once more, once there is room.
    pub fn pin_again(self, p: &Page) -> (Alone<D, T>, Result<(), PoolErr>)
        requires page { IsPage p.now (held_of D.Slot self) }
        requires pinned { 1 ≤ (page_of p.now.name (held_of D.Slot self)).pins }
        requires unused { page_len p.now.name (held_of D.Slot self) ≤ unused_of p.now.client (held_of D.Slot self) }
        ensures pins_again { PinsAgain (owned D.Slot self result.0) p.now result.1 }

        // Pages are written only while room lacks, and clean ones go only while fewer bytes are free.
        ensures needed { EntersNeeded p.now.client (page_len p.now.name (held_of D.Slot self)) self result.0 }
    {
        let Alone {
            hand,
            mut shelf,
            first,
        } = self;
        let (hand, result) = session_calls::pin_again::<Brand, Sole, D>(&Sole, &mut shelf, hand, p);
        (Alone { hand, shelf, first }, result)
    }

    /// Ends one of several pins.
    pub fn unpin_once(&mut self, p: &Page)
        requires page { IsPage p.now (held_of D.Slot self.old) }
        requires pinned { 2 ≤ (page_of p.now.name (held_of D.Slot self.old)).pins }
        ensures { Makes D.Slot (λ events. events ≡ event.UnpinOnce p.now.name ∷ []) self.old self.new }
    {
        self.hand.unpin_once::<Brand>(p);
    }

    /// Charges a loan to another client, once that one has room.
    pub fn move_buffer(self, what: Handing<'_>) -> (Alone<D, T>, Result<Loan, (Loan, PoolErr)>)
        requires loan { IsLoan what.loan (held_of D.Slot self) }
        requires to { IsLiveClient what.to.now (held_of D.Slot self) }
        requires apart { what.loan.client ≢ what.to.now.tracker }
        requires unused { loan_len what.loan.number (held_of D.Slot self) ≤ unused_of what.to.now.tracker (held_of D.Slot self) }
        ensures moves { MovesBuffer (owned D.Slot self result.0) what.entry.loan what.entry.to.now.tracker result.1 }

        // Pages are written only while room lacks, and clean ones go only while fewer bytes are free.
        ensures needed { EntersNeeded what.entry.to.now.tracker (loan_len what.entry.loan.number (held_of D.Slot self)) self result.0 }
    {
        let Handing { loan, to } = what;
        let Alone {
            hand,
            mut shelf,
            first,
        } = self;
        let (hand, result) = session_calls::move_buffer::<Brand, Sole, D>(
            &Sole, &mut shelf, hand, loan, to,
        );
        (Alone { hand, shelf, first }, result)
    }
}

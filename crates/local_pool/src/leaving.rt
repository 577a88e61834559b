//! Pages are left with their bytes, and pages and loans end.
ghost use Rattle.std.specs.Prelude.{◌≡◌, [], ◌∷◌, IfErr};
ghost use Rattle.pool_model.specs.declared.event.Event.TheVariants as event;
ghost use Rattle.store_api.specs.Holdings.{page_of};
ghost use Rattle.store_api.specs.Conditions.{Fits, IsHeld, IsLoan, IsPage};
ghost use Rattle.store_api.specs.Refusals.{StaysPinned};
ghost use Rattle.store_api.specs.Signs.{Grows};
ghost use Rattle.session_calls.specs.Calls.{Extracts, Unpins};
ghost use Rattle.local_pool.specs.Viewing.{owned};
ghost use Rattle.local_pool.specs.Told.{held_of, signs_of};
ghost use Rattle.local_pool.specs.Making.{Makes};

use crate::owned::Alone;
use crate::sole::Sole;
use crate::taking::Ending;
use block_arena::Buf;
use outside::Slot;
use reservation_tree::PoolErr;
use session_calls::Opened;
use std::marker::Brand;
use store_api::{Loan, Page};

impl<D: Slot + Drop, T: Opened> Alone<D, T> {
    /// Leaves these bytes in a page that is pinned once.
    pub fn unpin(&mut self, p: &Page, buf: Buf) -> Result<(), (Buf, PoolErr)>
        requires page { IsPage p.now (held_of D.Slot self.old) }
        requires pinned { (page_of p.now.name (held_of D.Slot self.old)).pins ≡ 1 }
        requires buffer { Fits (page_of p.now.name (held_of D.Slot self.old)).blocks (held_of D.Slot self.old) buf }
        ensures unpins { Unpins (owned D.Slot self.old self.new) p.now buf result }
        ensures err { IfErr result (StaysPinned p.now.name buf (held_of D.Slot self.old) (held_of D.Slot self.new) (signs_of self.old) (signs_of self.new)) }
        ensures grows { Grows (signs_of self.old) (signs_of self.new) }
    {
        self.hand.unpin::<Brand>(p, buf)
    }

    /// Ends a page that is pinned once, and makes its buffer a loan.
    pub fn extract(&mut self, p: Page, buf: Buf) -> Loan
        requires page { IsPage p (held_of D.Slot self.old) }
        requires pinned { (page_of p.name (held_of D.Slot self.old)).pins ≡ 1 }
        requires buffer { Fits (page_of p.name (held_of D.Slot self.old)).blocks (held_of D.Slot self.old) buf }
        ensures { Extracts (owned D.Slot self.old self.new) p buf result }
    {
        self.hand.extract::<Brand>(p, buf)
    }

    /// Ends a page.
    pub fn destroy(self, what: Ending) -> (Alone<D, T>, ())
        requires page { IsPage what.page (held_of D.Slot self) }
        requires buffer { IsHeld what.page (held_of D.Slot self) what.buf }
        ensures { Makes D.Slot (λ events. events ≡ event.Destroy what.page.name ∷ []) self result.0 }
    {
        let Ending { page, buf } = what;
        let Alone {
            hand,
            mut shelf,
            first,
        } = self;
        let hand = session_calls::destroy::<Brand, Sole, D>(&Sole, &mut shelf, hand, page, buf);
        (Alone { hand, shelf, first }, ())
    }

    /// Ends a loan.
    pub fn free(&mut self, loan: Loan)
        requires { IsLoan loan (held_of D.Slot self.old) }
        ensures { Makes D.Slot (λ events. events ≡ event.Free loan.number ∷ []) self.old self.new }
    {
        self.hand.free::<Brand>(loan);
    }
}

//! Pages are left with their bytes, and pages and loans end.
ghost use Rattle.std.specs.Prelude.{◌≡◌, ◌↔◌, [], ◌∷◌, IsErr, IfErr, OnOk, OnErr};
ghost use Rattle.reservation_tree.specs.declared.errors.PoolErr.TheVariants as refusal;
ghost use Rattle.pool_model.specs.declared.event.Event.TheVariants as event;
ghost use Rattle.pool_model.specs.State.{page_at};
ghost use Rattle.pool_model.specs.Sums.{free_slots};
ghost use Rattle.pin_core.specs.StateOf.{state_of};
ghost use Rattle.pin_core.specs.calls.Needs.{IsLastPin};
ghost use Rattle.pin_core.specs.calls.Unpinning.{LacksSlots as PoolLacks};
ghost use Rattle.store_api.specs.Holdings.{page_of};
ghost use Rattle.store_api.specs.Conditions.{Fits, IsLoan, IsPage};
ghost use Rattle.session_calls.specs.Calls.{Extracts, Unpins, in_turn};
ghost use Rattle.session_calls.specs.Ready.{IsReady};
ghost use Rattle.session_calls.specs.Acting.{ActsThese, Goes, held_by};

use crate::entering::enter;
use crate::hand::Hand;
use crate::opened::Opened;
use block_arena::Buf;
use outside::Slot;
use pool_model::{Bare, Entry, Event};
use reservation_tree::PoolErr;
use std::marker::Brand;
use store_api::{Loan, Page};
use turn_table::Adds;

impl<D: Slot + Drop> Hand<D> {
    /// Leaves these bytes in a page that is pinned once, which rests from then on. The first time it takes its slots.
    ///
    /// # Errors
    ///
    /// `ScratchFull`: too few slots of the quota are free. The page stays pinned, and the buffer comes back.
    pub fn unpin<O: Opened>(&mut self, p: &Page, buf: Buf) -> Result<(), (Buf, PoolErr)>
        requires ready { IsReady D.Slot O.opening O.outset self.old }
        requires page { IsPage p.now (held_by O.opening O.outset self.old) }
        requires pinned { (page_of p.now.name (held_by O.opening O.outset self.old)).pins ≡ 1 }
        requires buffer { Fits (page_of p.now.name (held_by O.opening O.outset self.old)).blocks (held_by O.opening O.outset self.old) buf }
        ensures unpins { Unpins (in_turn O.opening O.outset self.old self.new) p.now buf result }
        ensures ready { IsReady D.Slot O.opening O.outset self.new }
    {
        leave::<Brand, D>(self, p, buf)
    }

    /// Ends a page that is pinned once, and makes its buffer a loan.
    pub fn extract<O: Opened>(&mut self, p: Page, buf: Buf) -> Loan
        requires ready { IsReady D.Slot O.opening O.outset self.old }
        requires page { IsPage p (held_by O.opening O.outset self.old) }
        requires pinned { (page_of p.name (held_by O.opening O.outset self.old)).pins ≡ 1 }
        requires buffer { Fits (page_of p.name (held_by O.opening O.outset self.old)).blocks (held_by O.opening O.outset self.old) buf }
        ensures extracts { Extracts (in_turn O.opening O.outset self.old self.new) p buf result }
        ensures ready { IsReady D.Slot O.opening O.outset self.new }
    {
        let page = p.name();
        let loan = self.state.extract(p, buf);
        let buffer = loan.number();
        enter(
            &mut self.trail,
            self.session,
            Event::Extract { page, buffer },
        );
        loan
    }

    /// Ends a loan.
    pub fn free<O: Opened>(&mut self, loan: Loan)
        requires ready { IsReady D.Slot O.opening O.outset self.old }
        requires loan { IsLoan loan (held_by O.opening O.outset self.old) }
        ensures acts { ActsThese (event.Free loan.number ∷ []) self.old self.new }
        ensures ready { IsReady D.Slot O.opening O.outset self.new }
    {
        let buffer = loan.number();
        self.state.free(loan);
        enter(&mut self.trail, self.session, Event::Free { buffer });
    }
}

// Leaves bytes in a page, with an entry that `G` names, since the page takes the buffer.
fn leave<G: Adds<Entry>, D: Slot + Drop>(
    hand: &mut Hand<D>,
    p: &Page,
    buf: Buf,
) -> Result<(), (Buf, PoolErr)>
    requires named { G.entries ≡ record { maker = hand.old.session; event = event.Unpin p.now.name buf.bytes } ∷ [] }
    requires last { IsLastPin (state_of hand.old.state) p.now buf }
    requires whose { (page_at (state_of hand.old.state) p.now.name).session ≡ hand.old.session }
    ensures ok { OnOk result (Goes D.Slot (event.Unpin p.now.name buf.bytes ∷ []) hand.old hand.new) }
    ensures err { OnErr result (Goes D.Slot (event.UnpinRefused p.now.name ∷ []) hand.old hand.new) }
    ensures refused { IsErr result ↔ PoolLacks (state_of hand.old.state) p.now.name }
    ensures cause { IfErr result (λ e. e.1 ≡ refusal.ScratchFull (page_at (state_of hand.old.state) p.now.name).blocks (free_slots (state_of hand.old.state) (page_at (state_of hand.old.state) p.now.name).session)) }
    ensures back { IfErr result (λ e. e.0 ≡ buf) }
{
    let page = p.name();
    match hand.state.unpin(p, buf) {
        Ok(()) => {
            let event = Bare::Unpin { page };
            hand.trail.enter_bare::<G>(hand.session, event);
            Ok(())
        }
        Err(refused) => {
            enter(&mut hand.trail, hand.session, Event::UnpinRefused { page });
            Err(refused)
        }
    }
}

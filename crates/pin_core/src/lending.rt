//! Loans end, and change hands.
ghost use Rattle.std.specs.Prelude.{◌≡◌, ◌≢◌, ◌∷◌, []};
ghost use Rattle.pin_core.specs.StateOf.{state_of};
ghost use Rattle.pin_core.specs.calls.Lending.{ReadyFree, ReadyMove, freed, lent_to, free_entry, move_entry};

use crate::lengths;
use crate::parts::Parts;
use crate::pool::PoolState;
use outside::Slot;
use reservation_tree::TrackerId;
use store_api::{Client, Loan};

impl<D: Slot + Drop> PoolState<D> {
    ghost use Rattle.std.specs.Prelude.{ℕ};
    ghost use Rattle.pool_model.specs.Owning.{IsClientOf};
    ghost use Rattle.pin_core.specs.Standing.{Enters};
    ghost use Rattle.pin_core.specs.calls.Lending.{IsLoan, CanMoveTo};

    /// Ends a loan. Its charge returns, and its blocks are free.
    pub fn free(&mut self, loan: Loan)
        requires loan { IsLoan (state_of self.old) loan }
        ensures enters { (maker : ℕ) → IsClientOf (state_of self.old) maker loan.client → Enters D.Slot (free_entry maker loan.number ∷ []) [] [] self.old self.new }
    {
        self.parts.laws();
        self.parts.free(loan);
    }

    /// Charges a loan to another client of its session. To its own client nothing changes.
    pub fn move_buffer_now(&mut self, loan: Loan, to: &Client) -> Loan
        requires loan { IsLoan (state_of self.old) loan }
        requires to { CanMoveTo (state_of self.old) loan to.now }
        ensures enters { loan.client ≢ to.now.tracker → Enters D.Slot (move_entry to.now loan.number ∷ []) [] [] self.old self.new }
        ensures same { loan.client ≡ to.now.tracker → self.new ≡ self.old }
        ensures loan { result ≡ record loan { client = to.now.tracker } }
    {
        if loan.client() == to.tracker() {
            return loan;
        }
        self.parts.laws();
        self.parts.move_buffer(loan, to.tracker())
    }
}

impl<D: Drop> Parts<D> {
    // The loan is no more, and its blocks are free.
    #[tactic(auto, unfolding(pool_model::specs::Bytes::bytes_of))]
    pub(crate) fn free(&mut self, loan: Loan)
        requires { ReadyFree self.old loan }
        ensures { self.new ≡ freed loan self.old }
    {
        self.entries = lengths::counted(self.entries);
        self.buffers.close(loan.number());
        let client = loan.client();
        let buf = loan.into_buf();
        self.tree.release(client, buf.len() as u64);
        let _shell = self.arena.take_back(buf);
    }

    // The loan is another client's.
    #[tactic(auto, unfolding(pool_model::specs::Bytes::bytes_of))]
    pub(crate) fn move_buffer(&mut self, loan: Loan, to: TrackerId) -> Loan
        requires { ReadyMove self.old loan to }
        ensures parts { self.new ≡ lent_to loan to self.old }
        ensures loan { result ≡ record loan { client = to } }
    {
        self.entries = lengths::counted(self.entries);
        let number = loan.number();
        let from = loan.client();
        let buf = loan.into_buf();
        let bytes = buf.len() as u64;
        self.tree.charge(to, bytes);
        self.tree.release(from, bytes);
        self.buffers.move_to(number, to.number());
        Loan::of(number, to, buf)
    }
}

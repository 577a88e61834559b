//! What calls need of loans.
ghost use Rattle.std.specs.Prelude.{◌≡◌, Some, IsTrue};
ghost use Rattle.std.specs.FinMap.{get};
ghost use Rattle.block_arena.specs.Memory.{IsBufferOf};
ghost use Rattle.pool_model.specs.Owning.{IsClientOf};
ghost use Rattle.pin_core.specs.calls.Lending.{CanMoveTo, IsLoan};
ghost use Rattle.pin_core.specs.StateOf.{state_of};

use crate::clients::{can_hold, is_client_of};
use crate::pages::fits;
use pin_core::PoolState;
use store_api::{Client, Loan};

/// Whether the loan is live, and a client's of the session.
pub fn is_loan<D: Drop>(pool: &PoolState<D>, s: u32, loan: &Loan) -> bool
    ensures loan { IsTrue result → IsLoan (state_of pool.now) loan.now }
    ensures own { IsTrue result → IsClientOf (state_of pool.now) s loan.now.client }
{
    is_client_of(pool, s, loan.client()) && lends(pool, loan)
}

// Whether the loan's buffer is live, its client's, and as long as the loan's.
fn lends<D: Drop>(pool: &PoolState<D>, loan: &Loan) -> bool
    ensures lives { IsTrue result → get (state_of pool.now).buffers loan.now.number ≡ Some (record { client = loan.now.client; blocks = loan.now.buf.blocks }) }
    ensures buffer { IsTrue result → IsBufferOf loan.now.buf.blocks (state_of pool.now).block_len loan.now.buf }
{
    let parts = pool.parts();
    let Some(lent) = parts.buffers.get(loan.number()) else {
        return false;
    };
    lent.client == loan.client().number() && fits(pool, lent.blocks, loan.buf())
}

/// Whether the loan may be charged to this client.
pub fn can_move_to<D: Drop>(pool: &PoolState<D>, loan: &Loan, to: &Client) -> bool
    ensures { IsTrue result → CanMoveTo (state_of pool.now) loan.now to.now }
{
    let s = to.session();
    let bytes = loan.buf().len() as u64;
    is_loan(pool, s, loan) && can_hold(pool, s, to.tracker(), bytes)
}

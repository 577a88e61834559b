//! What calls of the pool of one owner need.
ghost use Rattle.std.specs.Prelude.{◌≡◌, ◌≤◌, IfSome, IsTrue};
ghost use Rattle.pool_model.specs.State.{pins_of};
ghost use Rattle.pin_core.specs.StateOf.{place_in};
ghost use Rattle.store_api.specs.Holdings.{length_of, page_len, page_of, unused_of};
ghost use Rattle.store_api.specs.Conditions.{Fits, IsIdle, IsLiveClient, IsLoan, IsPage};
ghost use Rattle.local_pool.specs.Told.{held_of};

use crate::clients::is_client_of;
use crate::idle::{has_no_client, is_idle};
use crate::loans::is_loan;
use crate::pages::{entry_of, fits};
use block_arena::Buf;
use local_pool::LocalPool;
use outside::Slot;
use page_table::Place;
use store_api::{Client, Loan, Page, Store};

/// Whether the client is the owner's, and live.
pub fn holds_client<D: Slot + Drop>(pool: &LocalPool<D>, c: &Client) -> bool
    ensures { IsTrue result → IsLiveClient c.now (held_of D.Slot pool.now.alone) }
{
    is_client_of(pool.value(), pool.session(), c.tracker())
}

/// Whether the client is the owner's, and has neither a page nor a loan.
pub fn holds_none<D: Slot + Drop>(pool: &LocalPool<D>, c: &Client) -> bool
    ensures { IsTrue result → IsIdle c.now.tracker (held_of D.Slot pool.now.alone) }
{
    is_idle(pool.value(), pool.session(), c.tracker())
}

/// Whether the owner has no client.
pub fn holds_no_client<D: Slot + Drop>(pool: &LocalPool<D>) -> bool
    ensures { IsTrue result → (held_of D.Slot pool.now.alone).live_clients ≡ 0 }
{
    has_no_client(pool.value(), pool.session())
}

/// How often a page is pinned, and how many blocks it has, where it is the owner's, and live.
pub fn held_page<D: Slot + Drop>(pool: &LocalPool<D>, p: &Page) -> Option<(u32, u32)>
    ensures page { IfSome result (λ x. IsPage p.now (held_of D.Slot pool.now.alone)) }
    ensures pins { IfSome result (λ x. (page_of p.now.name (held_of D.Slot pool.now.alone)).pins ≡ x.0) }
    ensures blocks { IfSome result (λ x. (page_of p.now.name (held_of D.Slot pool.now.alone)).blocks ≡ x.1) }
{
    let entry = entry_of(pool.value(), p)?;
    if entry.session != pool.session() || entry.client != p.client().number() {
        return None;
    }
    Some((pins_in(entry.place), entry.blocks))
}

// How often a page in this place is pinned.
fn pins_in(place: Place) -> u32
    ensures { result ≡ pins_of (place_in place) }
{
    match place {
        Place::Pinned(count) => count,
        _ => 0,
    }
}

/// Whether this is a buffer of so many blocks of the pool.
pub fn is_buffer_of<D: Slot + Drop>(pool: &LocalPool<D>, blocks: u32, buf: &Buf) -> bool
    ensures { IsTrue result → Fits blocks (held_of D.Slot pool.now.alone) buf.now }
{
    fits(pool.value(), blocks, buf)
}

/// Whether the client is the owner's, and has so many blocks' length unused.
pub fn has_blocks<D: Slot + Drop>(pool: &LocalPool<D>, c: &Client, blocks: u32) -> bool
    ensures client { IsTrue result → IsLiveClient c.now (held_of D.Slot pool.now.alone) }
    ensures unused { IsTrue result → length_of blocks (held_of D.Slot pool.now.alone) ≤ unused_of c.now.tracker (held_of D.Slot pool.now.alone) }
{
    holds_client(pool, c) && u64::from(blocks) * u64::from(pool.block_len()) <= pool.unused(c)
}

/// Whether the page is this client's, which has its length unused.
pub fn has_page_unused<D: Slot + Drop>(pool: &LocalPool<D>, c: &Client, p: &Page) -> bool
    ensures { IsTrue result → page_len p.now.name (held_of D.Slot pool.now.alone) ≤ unused_of p.now.client (held_of D.Slot pool.now.alone) }
{
    let Some((_, blocks)) = held_page(pool, p) else {
        return false;
    };
    p.client() == c.tracker() && has_blocks(pool, c, blocks)
}

/// Whether the loan is the owner's, and live.
pub fn holds_loan<D: Slot + Drop>(pool: &LocalPool<D>, loan: &Loan) -> bool
    ensures { IsTrue result → IsLoan loan.now (held_of D.Slot pool.now.alone) }
{
    is_loan(pool.value(), pool.session(), loan)
}

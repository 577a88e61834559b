//! What calls need of pages.
ghost use Rattle.std.specs.Prelude.{◌≡◌, ◌≢◌, ℕ, Some, IfSome, IsTrue};
ghost use Rattle.std.specs.FinMap.{get};
ghost use Rattle.block_arena.specs.Memory.{IsBufferOf};
ghost use Rattle.pool_model.specs.State.{Loading, Pinned, page_at};
ghost use Rattle.pin_core.specs.StateOf.{key_of, page_of, place_in, state_of};
ghost use Rattle.pin_core.specs.calls.Needs.{IsLastPin, IsPage, id_in};
ghost use Rattle.pin_core.specs.calls.Pins.{HasPinToSpare, HasRoomFor, IsPinned};
ghost use Rattle.pool_model.specs.Sums.{length_of};
ghost use Rattle.pin_core.specs.calls.PinTurns.{CanPin};
ghost use Rattle.pin_core.specs.calls.Ending.{IsPinnedWith, IsUnpinned};

use crate::clients::{can_hold, has_unused};
use block_arena::Buf;
use page_table::{Entry, PageId, Place};
use pin_core::{Kept, PoolState};
use reservation_tree::TrackerId;
use store_api::Page;

// The page by its name and key.
fn id_of(p: &Page) -> PageId
    ensures { result ≡ id_in p.now }
{
    PageId {
        name: p.name(),
        key: p.key(),
    }
}

/// The page's entry, where the page is live.
pub fn entry_of<'a, D: Drop>(pool: &'a PoolState<D>, p: &Page) -> Option<&'a Entry<Kept<D>>>
    ensures { IfSome result (λ x. IsPage (state_of pool.now) p.now × (page_at (state_of pool.now) p.now.name ≡ page_of pool.now.pages p.now.name x.now)) }
{
    entry_at(pool, id_of(p))
}

/// The same by its name and key.
pub fn entry_at<'a, D: Drop>(pool: &'a PoolState<D>, id: PageId) -> Option<&'a Entry<Kept<D>>>
    ensures { IfSome result (λ x. (get (state_of pool.now).pages id.name ≡ Some (page_of pool.now.pages id.name x.now)) × (key_of pool.now.pages id.name ≡ id.key)) }
{
    let parts = pool.parts();
    parts.pages.get(id)
}

/// Whether this is a buffer of so many blocks of the pool.
pub fn fits<D: Drop>(pool: &PoolState<D>, blocks: u32, buf: &Buf) -> bool
    ensures { IsTrue result → IsBufferOf blocks (state_of pool.now).block_len buf.now }
{
    let parts = pool.parts();
    if buf.len() == 0 {
        return false;
    }
    buf.block(0).len() as u64 == u64::from(parts.block_len)
        && buf.len() as u64 == length(pool, blocks)
}

/// Whether the page is live.
pub fn is_page<D: Drop>(pool: &PoolState<D>, p: &Page) -> bool
    ensures { IsTrue result → IsPage (state_of pool.now) p.now }
{
    entry_of(pool, p).is_some()
}

/// Whether the page has one pin, and this is a buffer for it.
pub fn is_last_pin<D: Drop>(pool: &PoolState<D>, p: &Page, buf: &Buf) -> bool
    ensures { IsTrue result → IsLastPin (state_of pool.now) p.now buf.now }
{
    let Some(entry) = entry_of(pool, p) else {
        return false;
    };
    entry.place == Place::Pinned(1) && fits(pool, entry.blocks, buf)
}

/// Whether the page is pinned, however often.
pub fn is_pinned<D: Drop>(pool: &PoolState<D>, p: &Page) -> bool
    ensures { IsTrue result → IsPinned (state_of pool.now) p.now }
{
    let Some(entry) = entry_of(pool, p) else {
        return false;
    };
    pins(entry.place).is_some()
}

/// Whether the page is pinned, and this is a buffer for it.
pub fn is_pinned_with<D: Drop>(pool: &PoolState<D>, p: &Page, buf: &Buf) -> bool
    ensures { IsTrue result → IsPinnedWith (state_of pool.now) p.now buf.now }
{
    let Some(entry) = entry_of(pool, p) else {
        return false;
    };
    is_pinned(pool, p) && fits(pool, entry.blocks, buf)
}

/// Whether the page has two pins or more.
pub fn has_pin_to_spare<D: Drop>(pool: &PoolState<D>, p: &Page) -> bool
    ensures { IsTrue result → HasPinToSpare (state_of pool.now) p.now }
{
    let Some(entry) = entry_of(pool, p) else {
        return false;
    };
    let Some(count) = pins(entry.place) else {
        return false;
    };
    is_pinned(pool, p) && count >= 2
}

/// Whether the page is neither pinned nor loading.
pub fn is_unpinned<D: Drop>(pool: &PoolState<D>, p: &Page) -> bool
    ensures { IsTrue result → IsUnpinned (state_of pool.now) p.now }
{
    let Some(entry) = entry_of(pool, p) else {
        return false;
    };
    is_away(entry.place)
}

/// The length of so many blocks of the pool.
#[tactic(auto, unfolding(pool_model::specs::Bytes::bytes_of))]
pub fn length<D: Drop>(pool: &PoolState<D>, blocks: u32) -> u64
    ensures { result ≡ length_of (state_of pool.now) blocks }
{
    let parts = pool.parts();
    u64::from(blocks) * u64::from(parts.block_len)
}

/// Whether the page's client can hold its length once more.
pub fn has_room_for<D: Drop>(pool: &PoolState<D>, p: &Page) -> bool
    ensures { IsTrue result → HasRoomFor (state_of pool.now) p.now.name }
{
    let Some(entry) = entry_of(pool, p) else {
        return false;
    };
    let bytes = length(pool, entry.blocks);
    can_hold(pool, entry.session, TrackerId::of(entry.client), bytes)
}

/// Whether the session may pin its page: it isn't pinned, and its client has its length unused.
pub fn can_pin<D: Drop>(pool: &PoolState<D>, s: u32, p: &Page) -> bool
    ensures { IsTrue result → CanPin (state_of pool.now) s p.now }
{
    let Some(entry) = entry_of(pool, p) else {
        return false;
    };
    let bytes = length(pool, entry.blocks);
    entry.session == s
        && is_unpinned(pool, p)
        && has_unused(pool, s, TrackerId::of(entry.client), bytes)
}

// How often a page in this place is pinned.
fn pins(place: Place) -> Option<u32>
    ensures { IfSome result (λ count. place_in place ≡ Pinned count) }
{
    match place {
        Place::Pinned(count) => Some(count),
        _ => None,
    }
}

// Whether a page in this place is neither pinned nor loading.
fn is_away(place: Place) -> bool
    ensures { IsTrue result → ((count : ℕ) → place_in place ≢ Pinned count) × (place_in place ≢ Loading) }
{
    match place {
        Place::Pinned(_) | Place::Loading => false,
        Place::Dirty | Place::Flying(_) | Place::Clean | Place::Evicted => true,
    }
}

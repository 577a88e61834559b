//! What a pool tells of trackers, pages and slots. No reader makes an entry.
ghost use Rattle.std.specs.Prelude.{◌≡◌, Some};
ghost use Rattle.std.specs.FinMap.{get};
ghost use Rattle.pin_core.specs.parts.Changes.{entry_at};

use crate::lengths;
use crate::parts::Parts;
use crate::pool::{PoolState, id_of};
use outside::Slot;
use page_table::PageId;
use reservation_tree::TrackerId;
use store_api::Page;

impl<D: Slot + Drop> PoolState<D> {
    ghost use Rattle.reservation_tree.specs.Tracker.{IsLive, limit_of, reservation_of};
    ghost use Rattle.pool_model.specs.State.{page_at};
    ghost use Rattle.pool_model.specs.Sums.{length_of};
    ghost use Rattle.pin_core.specs.StateOf.{state_of};
    ghost use Rattle.pin_core.specs.calls.Needs.{IsPage};
    ghost use Rattle.pin_core.specs.calls.Sessions.{IsSeat, query_of};
    ghost use Rattle.pin_core.specs.calls.Entering.{unused_of};
    ghost use Rattle.pin_core.specs.calls.Opening.{spare_of};

    /// The query tracker of a session.
    pub fn tracker(&self, s: u32) -> TrackerId
        requires { IsSeat (state_of self.now) s }
        ensures { result ≡ query_of (state_of self.now) s }
    {
        self.parts.laws();
        TrackerId::of(self.parts.seats.query(s))
    }

    /// The bytes that are set aside for a tracker.
    #[inline]
    pub fn reservation(&self, t: TrackerId) -> u64
        requires { IsLive (state_of self.now).trackers t }
        ensures { result ≡ reservation_of (state_of self.now).trackers t }
    {
        self.parts.tree.reservation(t)
    }

    /// What a tracker's reservation may rise to, in bytes.
    #[inline]
    pub fn limit(&self, t: TrackerId) -> u64
        requires { IsLive (state_of self.now).trackers t }
        ensures { result ≡ limit_of (state_of self.now).trackers t }
    {
        self.parts.tree.limit(t)
    }

    /// The bytes of a tracker's reservation that are neither charged nor a child's.
    #[inline]
    pub fn unused(&self, t: TrackerId) -> u64
        requires { IsLive (state_of self.now).trackers t }
        ensures { result ≡ unused_of (state_of self.now) t }
    {
        self.parts.tree.unused(t)
    }

    /// The length of a page in bytes.
    pub fn page_len(&self, p: &Page) -> u64
        requires { IsPage (state_of self.now) p.now }
        ensures { result ≡ length_of (state_of self.now) (page_at (state_of self.now) p.now.name).blocks }
    {
        self.parts.laws();
        let blocks = self.parts.page_blocks(id_of(p));
        lengths::bytes(self.parts.block_len, blocks)
    }

    /// How many slots are in no quota.
    #[inline]
    pub fn spare(&self) -> u32
        ensures { result ≡ spare_of self.now }
    {
        self.parts.slots.spare()
    }
}

impl<D: Drop> Parts<D> {
    fn page_blocks(&self, id: PageId) -> u32
        requires live { get self.now.pages.names id.key ≡ Some id.name }
        requires there { get self.now.pages.entries id.name ≡ Some (entry_at self.now id.name) }
        ensures { result ≡ (entry_at self.now id.name).blocks }
    {
        self.pages.get(id).unwrap().blocks
    }
}

//! Whether a client has room, and blocks are free.
ghost use Rattle.std.specs.Prelude.{◌≡◌, ◌↔◌, ◌≤◌, ◌+◌, IsTrue};
ghost use Rattle.std.specs.FinMap.{get};

use super::Follower;

impl Follower {
    ghost use Rattle.pool_model.specs.State.{State};
    ghost use Rattle.pool_model.specs.Sums.{HasRoom, length_of};
    ghost use Rattle.pool_model.specs.PageRows.{CanTake};
    ghost use Rattle.trace_follow.specs.Rows.{load_at};
    ghost use Rattle.trace_follow.specs.Looking.{reserved_in};
    ghost use Rattle.trace_follow.specs.Showing.{Shows};

    // What the client has reserved.
    pub(super) fn reserved(&self, client: u32) -> u64
        ensures { result ≡ reserved_in (get self.now.trackers client) }
    {
        match self.trackers.row(u64::from(client)) {
            Some(row) => row.reservation,
            None => 0,
        }
    }

    // Whether the client can hold so many bytes more.
    pub(super) fn fits_client(&self, client: u32, bytes: u64) -> bool
        ensures { IsTrue result ↔ ((load_at self.now.loads client).held + bytes ≤ reserved_in (get self.now.trackers client)) }
    {
        u128::from(self.load(client).held) + u128::from(bytes) <= u128::from(self.reserved(client))
    }

    // Whether the client can hold so many blocks more.
    #[tactic(auto, using(crate::proofs::Rooms::room_told))]
    pub(super) fn has_room_for(&self, client: u32, blocks: u32) -> bool
        ensures { (s : State) → Shows self.now s → IsTrue result ↔ HasRoom s client (length_of s blocks) }
    {
        self.fits_client(client, self.len_of(blocks))
    }

    // And whether so many are free.
    pub(super) fn can_take(&self, client: u32, blocks: u32) -> bool
        ensures { (s : State) → Shows self.now s → IsTrue result ↔ CanTake s client blocks }
    {
        self.has_room_for(client, blocks) && self.len_of(blocks) <= self.free
    }
}

//! What calls need of sessions and clients.
ghost use Rattle.std.specs.Prelude.{◌≡◌, ◌≤◌, IsSome, IsTrue};
ghost use Rattle.std.specs.FinMap.{get};
ghost use Rattle.index_list.specs.Listing.{stands_in};
ghost use Rattle.reservation_tree.specs.Tracker.{unused};
ghost use Rattle.session_table.specs.Seats.{seat_of, trackers_of};
ghost use Rattle.pool_model.specs.Owning.{IsClientOf};
ghost use Rattle.pool_model.specs.Sums.{HasRoom, charge_of};
ghost use Rattle.pin_core.specs.StateOf.{state_of};

use pin_core::PoolState;
use reservation_tree::TrackerId;
use session_table::{MAX_SESSIONS, Member};

/// Whether the session is live.
pub fn is_seat<D: Drop>(pool: &PoolState<D>, s: u32) -> bool
    ensures live { IsTrue result → IsSome (get (state_of pool.now).sessions s) }
    ensures seated { IsTrue result → IsSome (seat_of pool.now.seats s) }
{
    let parts = pool.parts();
    s < MAX_SESSIONS && parts.seats.is_seated(s)
}

/// Whether the tracker is that of a client of the session.
pub fn is_client_of<D: Drop>(pool: &PoolState<D>, s: u32, t: TrackerId) -> bool
    ensures { IsTrue result → IsClientOf (state_of pool.now) s t }
{
    let parts = pool.parts();
    s < MAX_SESSIONS && parts.seats.is_seated(s) && has(parts.seats.members(s), t.number())
}

/// Whether a client of the session can hold so many bytes more.
pub fn can_hold<D: Drop>(pool: &PoolState<D>, s: u32, t: TrackerId, bytes: u64) -> bool
    ensures client { IsTrue result → IsClientOf (state_of pool.now) s t }
    ensures room { IsTrue result → HasRoom (state_of pool.now) t bytes }
{
    let parts = pool.parts();
    is_client_of(pool, s, t) && parts.has_room(t.number(), bytes)
}

/// Whether so many bytes of a client of the session are unused.
pub fn has_unused<D: Drop>(pool: &PoolState<D>, s: u32, t: TrackerId, bytes: u64) -> bool
    ensures { IsTrue result → bytes ≤ unused (charge_of (state_of pool.now)) (state_of pool.now).trackers t }
{
    let parts = pool.parts();
    is_client_of(pool, s, t) && bytes <= parts.tree.unused(t)
}

// Whether a client with this tracker is one of these.
fn has(members: &[Member], tracker: u32) -> bool
    ensures { result ≡ stands_in tracker (trackers_of members.now) }
{
    members.iter().any(|member| member.tracker == tracker)
}

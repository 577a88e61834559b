//! What calls need of a client, by its token.
ghost use Rattle.std.specs.Prelude.{◌≡◌, ◌≤◌, IsTrue};
ghost use Rattle.reservation_tree.specs.Tracker.{IsLive, unused};
ghost use Rattle.pool_model.specs.Owning.{IsClientOf};
ghost use Rattle.pool_model.specs.Sums.{HasRoom, charge_of};
ghost use Rattle.pin_core.specs.calls.Coming.{CanHold};
ghost use Rattle.pin_core.specs.calls.Sessions.{IsIdle};
ghost use Rattle.pin_core.specs.StateOf.{state_of};

use crate::clients::{can_hold, has_unused, is_client_of};
use crate::idle::is_idle;
use crate::pages::length;
use block_arena::Shell;
use pin_core::PoolState;
use reservation_tree::TrackerId;
use store_api::Client;

/// Whether the client is live.
pub fn is_client<D: Drop>(pool: &PoolState<D>, c: &Client) -> bool
    ensures { IsTrue result → IsClientOf (state_of pool.now) c.now.session c.now.tracker }
{
    is_client_of(pool, c.session(), c.tracker())
}

/// Whether the client is live, and of this session.
pub fn is_client_in<D: Drop>(pool: &PoolState<D>, s: u32, c: &Client) -> bool
    ensures { IsTrue result → IsClientOf (state_of pool.now) s c.now.tracker }
{
    is_client_of(pool, s, c.tracker())
}

/// Whether the other client is live, and of the same session.
pub fn are_beside<D: Drop>(pool: &PoolState<D>, c: &Client, other: &Client) -> bool
    ensures { IsTrue result → IsClientOf (state_of pool.now) c.now.session other.now.tracker }
{
    is_client_of(pool, c.session(), other.tracker())
}

/// Whether the client can hold so many bytes more.
pub fn has_room<D: Drop>(pool: &PoolState<D>, c: &Client, bytes: u64) -> bool
    ensures { IsTrue result → HasRoom (state_of pool.now) c.now.tracker bytes }
{
    can_hold(pool, c.session(), c.tracker(), bytes)
}

/// Whether so many bytes of the client's are unused.
pub fn has_left<D: Drop>(pool: &PoolState<D>, c: &Client, bytes: u64) -> bool
    ensures { IsTrue result → bytes ≤ unused (charge_of (state_of pool.now)) (state_of pool.now).trackers c.now.tracker }
{
    has_unused(pool, c.session(), c.tracker(), bytes)
}

/// Whether the client has neither a page nor a loan.
pub fn has_none<D: Drop>(pool: &PoolState<D>, c: &Client) -> bool
    ensures { IsTrue result → IsIdle (state_of pool.now) c.now.tracker }
{
    is_idle(pool, c.session(), c.tracker())
}

/// Whether the client can hold as many blocks more as the shell has room for, 1 to 256.
pub fn can_fill<D: Drop>(pool: &PoolState<D>, c: &Client, shell: &Shell) -> bool
    ensures { IsTrue result → CanHold (state_of pool.now) c.now shell.now }
{
    let blocks = shell.room();
    if blocks == 0 {
        return false;
    }
    if blocks > 256 {
        return false;
    }
    is_client(pool, c) && has_room(pool, c, length(pool, blocks))
}

/// Whether the tracker is live.
pub fn is_tracker<D: Drop>(pool: &PoolState<D>, t: TrackerId) -> bool
    ensures { IsTrue result → IsLive (state_of pool.now).trackers t }
{
    let parts = pool.parts();
    parts.tree.is_live(t)
}

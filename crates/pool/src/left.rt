//! What is left for sessions.
ghost use Rattle.std.specs.Prelude.{◌≡◌};
ghost use Rattle.pin_core.specs.StateOf.{state_of};
ghost use Rattle.pool.specs.Remaining.{first_refusal, left_in};

use crate::ask::Ask;
use outside::Slot;
use pin_core::PoolState;
use reservation_tree::{PoolErr, TrackerId};
use session_table::MAX_SESSIONS;

/// How many numbers have no session, and by how many bytes the root may grow.
#[derive(Clone, Copy)]
pub struct Left {
    pub numbers: u32,
    pub bytes: u64,
}

// What a pool has left.
pub(crate) fn left_of<D: Slot + Drop>(state: &PoolState<D>) -> Left
    ensures { result ≡ left_in (state_of state.now) }
{
    let seats = &state.parts().seats;
    let mut numbers = 0;
    for s in 0..MAX_SESSIONS {
        if !seats.is_seated(s) {
            numbers += 1;
        }
    }
    let root = TrackerId::of(0);
    let bytes = state.limit(root) - state.reservation(root);
    Left { numbers, bytes }
}

// Why the first of an ask's sessions is refused that is, if one is.
pub(crate) fn refusal_of(ask: &Ask, mut left: Left) -> Option<PoolErr>
    ensures { result ≡ first_refusal ask.now.count ask.now left }
{
    for _i in 0..ask.count {
        if left.numbers == 0 {
            return Some(PoolErr::TooManyTrackers {
                count: MAX_SESSIONS,
            });
        }
        // No tracker has this number: the session's would be refused before it came.
        if ask.limit < ask.least {
            return Some(PoolErr::NoReservation {
                tracker: TrackerId::of(u32::MAX),
                wanted: ask.least,
                room: ask.limit,
            });
        }
        if left.bytes < ask.least {
            return Some(PoolErr::NoReservation {
                tracker: TrackerId::of(0),
                wanted: ask.least,
                room: left.bytes,
            });
        }
        left.numbers -= 1;
        left.bytes -= ask.least;
    }
    None
}

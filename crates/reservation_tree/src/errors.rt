//! The refusals of a pool, and want of memory.
ghost use Rattle.std.specs.Prelude.{◌≡◌};

use crate::mark::Mark;
use crate::tracker_id::TrackerId;
use std::alloc::{AllocError, AllocFailed};
use thiserror::Error;

/// No memory was left.
#[derive(Clone, Copy, Debug, PartialEq, Eq, Error)]
#[error("out of memory")]
pub struct Memory;

impl From<AllocError> for Memory {
    ghost from_gives = { λ _ memory. memory ≡ record {} };

    fn from(_failure: AllocError) -> Memory {
        Memory
    }
}

/// Why a pool refused a call.
#[derive(Clone, Copy, Debug, PartialEq, Eq, Error)]
pub enum PoolErr {
    /// A growth by `wanted` bytes would pass this tracker's limit, which leaves `room` bytes.
    #[error("tracker {} has room for {room} bytes, not for {wanted}", .tracker.number())]
    NoReservation {
        tracker: TrackerId,
        wanted: u64,
        room: u64,
    },
    /// So many slots were needed, and so many of the quota were free.
    #[error("{need} scratch slots needed, {free} free")]
    ScratchFull {
        need: u32,
        free: u32,
    },
    /// A write failed. The number is that of its entry in the history.
    #[error("the write of entry {entry} failed")]
    WriteFault {
        entry: u64,
    },
    /// A read failed. The number is that of its entry in the history.
    #[error("the read of entry {entry} failed")]
    ReadFault {
        entry: u64,
    },
    /// As many trackers as there may be are live.
    #[error("{count} trackers are live, and no more may be")]
    TooManyTrackers {
        count: u32,
    },
    /// The next page name would be the greatest number.
    #[error("no page name is left")]
    NamesSpent,
    /// No memory was left.
    #[error("out of memory")]
    Memory,
    /// A load gave a block with another mark than the wanted one.
    #[error("block {} of page {}, version {}, was wanted, and block {} of page {}, version {}, was found", .wanted.block, .wanted.name, .wanted.version, .found.block, .found.name, .found.version)]
    Stale {
        wanted: Mark,
        found: Mark,
    },
}

impl From<Memory> for PoolErr {
    ghost use Rattle.reservation_tree.specs.declared.errors.PoolErr.TheVariants as refusal;

    ghost from_gives = { λ _ e. e ≡ refusal.Memory };

    fn from(_memory: Memory) -> PoolErr {
        PoolErr::Memory
    }
}

//! What may happen in a pool, as a trace keeps it.

use crate::call::Call;
use reservation_tree::{Mark, TrackerId};

/// An event without the bytes of an unpin, the sums of a failure, and the key of a page.
#[derive(Clone, Copy, Debug, PartialEq, Eq)]
pub enum Bare {
    Ask,
    AddTracker {
        tracker: TrackerId,
        parent: TrackerId,
        limit: u64,
        quota: Option<u32>,
    },
    CloseTracker {
        tracker: TrackerId,
    },
    Increase {
        tracker: TrackerId,
        bytes: u64,
    },
    IncreaseToFit {
        tracker: TrackerId,
        bytes: u64,
    },
    Decrease {
        tracker: TrackerId,
        bytes: u64,
    },
    MoveReservation {
        from: TrackerId,
        to: TrackerId,
        bytes: u64,
    },
    Create {
        page: u64,
        client: TrackerId,
        blocks: u32,
    },
    PinHere {
        page: u64,
    },
    PinLoad {
        page: u64,
    },
    ReadOk {
        page: u64,
    },
    ReadFailed {
        page: u64,
    },
    /// The wanted mark names the page.
    ReadStale {
        wanted: Mark,
        found: Mark,
    },
    PinAgain {
        page: u64,
    },
    UnpinOnce {
        page: u64,
    },
    Unpin {
        page: u64,
    },
    UnpinRefused {
        page: u64,
    },
    Extract {
        page: u64,
        buffer: u32,
    },
    Destroy {
        page: u64,
    },
    Alloc {
        buffer: u32,
        client: TrackerId,
        blocks: u32,
    },
    Free {
        buffer: u32,
    },
    MoveBuffer {
        buffer: u32,
        to: TrackerId,
    },
    StartWrite {
        page: u64,
    },
    WriteOk {
        page: u64,
    },
    WriteFailed {
        page: u64,
    },
    Evict {
        page: u64,
    },
    Refused {
        call: Call,
        entry: u64,
    },
}

//! What may happen in a pool.

use crate::call::Call;
use crate::content::Content;
use crate::fault_sum::FaultSum;
use reservation_tree::{Mark, TrackerId};

/// One step of a pool. Pages have names that never come again; trackers and buffers have numbers that may.
///
/// Limits and other amounts are in bytes, lengths of pages and buffers in blocks.
#[derive(Drop)]
pub enum Event {
    /// A call of this maker begins.
    Ask,
    /// A tracker comes, with the reservation 0. Under the root it is a session's query tracker, and has
    /// the session's quota of slots; under a query tracker it is a client's, and has none.
    AddTracker {
        tracker: TrackerId,
        parent: TrackerId,
        limit: u64,
        quota: Option<u32>,
    },
    /// A tracker ends.
    CloseTracker {
        tracker: TrackerId,
    },
    /// A reservation grows.
    Increase {
        tracker: TrackerId,
        bytes: u64,
    },
    /// A reservation grows until so much is unused.
    IncreaseToFit {
        tracker: TrackerId,
        bytes: u64,
    },
    /// A reservation falls, and those of all ancestors.
    Decrease {
        tracker: TrackerId,
        bytes: u64,
    },
    /// Reservation moves from one tracker to another.
    MoveReservation {
        from: TrackerId,
        to: TrackerId,
        bytes: u64,
    },
    /// A page of zeros comes, with one pin. The pool finds it under this key.
    Create {
        page: u64,
        client: TrackerId,
        blocks: u32,
        key: u32,
    },
    /// A dirty or clean page is pinned where it is, with one pin.
    PinHere {
        page: u64,
    },
    /// An evicted page gets blocks, and is loading.
    PinLoad {
        page: u64,
    },
    /// A load ended well: the page is pinned, with one pin.
    ReadOk {
        page: u64,
    },
    /// A load failed: the page is evicted again. The sums are those of its slots before and after the load.
    ReadFailed {
        page: u64,
        before: FaultSum,
        after: FaultSum,
    },
    /// A load gave a block with another mark than the wanted one: the page is evicted again.
    ReadStale {
        page: u64,
        wanted: Mark,
        found: Mark,
    },
    /// A pinned page is pinned once more, and charged once more.
    PinAgain {
        page: u64,
    },
    /// One of a page's pins ends. The page stays pinned.
    UnpinOnce {
        page: u64,
    },
    /// A page with one pin is left with these bytes, and is dirty.
    Unpin {
        page: u64,
        content: Content,
    },
    /// A page stays pinned, since too few slots of the quota are free.
    UnpinRefused {
        page: u64,
    },
    /// A page with one pin ends, and its blocks are a buffer.
    Extract {
        page: u64,
        buffer: u32,
    },
    /// A page ends.
    Destroy {
        page: u64,
    },
    /// A buffer comes.
    Alloc {
        buffer: u32,
        client: TrackerId,
        blocks: u32,
    },
    /// A buffer ends.
    Free {
        buffer: u32,
    },
    /// A buffer is charged to another client.
    MoveBuffer {
        buffer: u32,
        to: TrackerId,
    },
    /// This maker takes a dirty page to write it: the page is flying.
    StartWrite {
        page: u64,
    },
    /// A write ended well: the page is clean.
    WriteOk {
        page: u64,
    },
    /// A write failed: the page is the newest dirty one. The sums are those of its slots before and after
    /// the write.
    WriteFailed {
        page: u64,
        before: FaultSum,
        after: FaultSum,
    },
    /// A clean page gives its blocks away.
    Evict {
        page: u64,
    },
    /// A call is refused. The number is that of the entry of the failure that shows why.
    Refused {
        call: Call,
        entry: u64,
    },
}

//! The calls that a refusal names.

use reservation_tree::TrackerId;

/// A call of a session that may be refused for want of room, or for a load that failed or gave another block.
#[derive(Clone, Copy, Debug, PartialEq, Eq)]
pub enum Call {
    /// A page is to be pinned.
    Pin {
        page: u64,
    },
    /// A pinned page is to be pinned once more.
    PinAgain {
        page: u64,
    },
    /// A page of so many blocks is to be made.
    Create {
        client: TrackerId,
        blocks: u32,
    },
    /// A buffer of so many blocks is to be made.
    Alloc {
        client: TrackerId,
        blocks: u32,
    },
    /// A reservation is to fall.
    GiveBack {
        client: TrackerId,
        bytes: u64,
    },
    /// Reservation is to move from one client to another.
    MoveReservation {
        from: TrackerId,
        to: TrackerId,
        bytes: u64,
    },
    /// A buffer is to be charged to another client.
    MoveBuffer {
        buffer: u32,
        to: TrackerId,
    },
}

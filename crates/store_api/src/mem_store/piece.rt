//! What a store in memory keeps of a page or a loan.

use block_arena::Buf;
use reservation_tree::TrackerId;

/// How a piece stands.
#[derive(Drop)]
pub(crate) enum Stand {
    /// A page rests, with these bytes.
    Resting(Buf),
    /// A page has so many pins, at least one: its client has the buffer.
    Pinned(u64),
    /// A loan: its holder has the buffer.
    Lent,
}

/// A page or a loan, so many blocks long.
#[derive(Drop)]
pub(crate) struct Piece {
    pub(crate) client: TrackerId,
    pub(crate) blocks: u32,
    pub(crate) stand: Stand,
}

//! Small pieces out of the buffers of a store, by a buddy scheme.
//!
//! Model: buffers of one length, of which some are open; for each length the free pieces, in the order in which they
//! became free; the live pieces, with their bytes.
//! Invariant: the live and the free pieces of an open buffer cover it without overlap, each begins at a multiple of its
//! length, no two free pieces are the two halves of one interval, and no open buffer is one free piece.
//!
//! A length is 64 times a power of two, and goes by its class, the exponent. A place is 64 bytes of a buffer; the places of
//! all buffers are numbered through, those of buffer 0 first. A piece begins at a place that is a multiple of its length.
#![tactic(auto)]

mod allocator;
mod asking;
mod bytes;
mod laws;
mod lending;
mod piece;
mod returning;
mod shelves;
mod sub_err;
mod taking;

pub use allocator::SubAlloc;
pub use laws::law_alloc_stays;
pub use piece::Piece;
pub use sub_err::SubErr;

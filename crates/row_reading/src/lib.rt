//! Encoded rows, read where they stand.
//!
//! Model: the bytes of a row of known kinds spell its values. Either the values are read into memory that is used again, or
//! only the key in some columns is copied from the bytes, and no values are made. Both calls answer `false` exactly where
//! the bytes aren't one whole row of these kinds.
#![tactic(auto)]

mod decoding;
mod framing;
mod keying;
mod laws;

pub use decoding::decode_into;
pub use keying::key_into;
pub use laws::law_rows_back;

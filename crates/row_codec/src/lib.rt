//! Rows, their bytes and the order of their keys.
//!
//! Model: a text is a list of bytes, a row a list of values, a key the bytes of some of a row's
//! values.
//! Invariant: a `PathKey` keeps, beside its bytes, the path of those bytes.
#![tactic(auto)]

mod append;
mod byte_list;
mod keys;
mod laws;
mod order;
mod path_key;
mod reading;
mod shortage;
mod spelling;
mod values;

pub use byte_list::Bytes;
pub use keys::key_bytes;
pub use laws::law_row_back;
pub use order::{hash64, nibble, path_cmp, path_number};
pub use path_key::PathKey;
pub use reading::decode_row;
pub use shortage::Memory;
pub use spelling::{encode_row, encoded_len};
pub use values::{Agg, Column, Kind, Value};

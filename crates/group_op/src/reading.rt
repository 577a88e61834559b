//! Memory for the values of a stored row.

use row_codec::Value;
use std::alloc::Global;

// Memory that each row takes again.
#[derive(Drop)]
pub(crate) struct Reading {
    // A row's bytes.
    pub(crate) row: Vec<u8>,
    // Its values.
    pub(crate) values: Vec<Value>,
    // Memory of texts.
    pub(crate) texts: Vec<Vec<u8>>,
}

impl Reading {
    pub(crate) fn new(alloc: Global) -> Reading {
        Reading {
            row: Vec::new(alloc),
            values: Vec::new(alloc),
            texts: Vec::new(alloc),
        }
    }
}

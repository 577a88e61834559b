//! What rows are made of, and what is asked of a column.

use crate::byte_list::Bytes;

/// The kind of a column.
#[derive(Clone, Copy, Debug, PartialEq, Eq)]
pub enum Kind {
    Int,
    Text,
    /// A sum, a least or a greatest number: 128 bits.
    Wide,
}

/// One field of a row.
#[derive(Debug, Drop, PartialEq, Eq)]
pub enum Value {
    Int(i64),
    Text(Bytes),
    Wide(i128),
}

/// A column of an input: its name in the header, and its kind.
#[derive(Debug, Drop, PartialEq, Eq)]
pub struct Column {
    pub name: Bytes,
    pub kind: Kind,
}

/// What is computed over the rows of a group; each but the count names an int column, counted
/// from 0.
#[derive(Clone, Copy, Debug, PartialEq, Eq)]
pub enum Agg {
    Count,
    Sum(usize),
    Min(usize),
    Max(usize),
}

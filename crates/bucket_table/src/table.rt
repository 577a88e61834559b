//! A table, and what it says of itself.
ghost use Rattle.std.specs.Prelude.{◌≡◌, ◌<◌, ◌≤◌, ◌+◌, ◌↔◌, ◌^◌, length, true};
ghost use Rattle.bucket_table.specs.Lending.{bytes_of};
ghost use Rattle.bucket_table.specs.Tables.{HasNode, row_of, used_by};

use crate::area::Area;
use crate::chains::Chains;
use std::marker::Model;

/// A hash table in loans of a store.
///
/// Nothing of it stands outside its loans but how many chains and rows there are, and how much of the node area is used.
pub struct BucketTable {
    pub(crate) heads: Area,
    pub(crate) nodes: Area,
    pub(crate) used: usize,
    pub(crate) count: u32,
    pub(crate) chains: Chains,
}

impl Model for BucketTable {
    ghost use Rattle.bucket_table.specs.Tables.{Table};
    ghost use Rattle.bucket_table.specs.Threads.{IsCounted, table_of};

    ghost Value = { Table };

    ghost view = { λ t. table_of t.chains.len t.heads t.nodes };

    ghost invariant = { λ t. IsCounted t.chains.len t.used t.count t.heads t.nodes };
}

impl BucketTable {
    /// How many chains there are.
    #[inline]
    pub fn heads(&self) -> usize
        ensures value { result ≡ self.now.heads }
        ensures some { 0 < result }
    {
        self.chains.len()
    }

    /// How many bytes the buffers of heads have.
    #[inline]
    pub fn head_bytes(&self) -> usize
        ensures { result ≡ bytes_of self.now.head_loans }
    {
        self.heads.len()
    }

    /// How many rows there are.
    #[inline]
    pub fn nodes(&self) -> u32
        ensures { result ≡ length self.now.nodes }
    {
        self.count
    }

    /// The length of the node area, in bytes.
    #[inline]
    pub fn room(&self) -> usize
        ensures value { result ≡ self.now.room }
        ensures short { result < 2 ^ 32 }
    {
        self.nodes.len()
    }

    /// Whether the node area has room for a row of so many bytes.
    #[inline]
    pub fn has_room(&self, bytes: usize) -> bool
        ensures { result ≡ true ↔ (used_by self.now.nodes + 4 + bytes ≤ self.now.room) }
    {
        let left = self.nodes.len() - self.used;
        4 <= left && bytes <= left - 4
    }

    /// How many bytes the row of a node has.
    #[inline]
    pub fn row_len(&self, node: u32) -> usize
        requires { HasNode node self.now.nodes }
        ensures value { result ≡ length (row_of node self.now.nodes) }
        ensures some { 4 ≤ result }
        ensures inside { node + 4 + result ≤ used_by self.now.nodes }
        ensures used { used_by self.now.nodes ≤ self.now.room }
        ensures short { self.now.room < 2 ^ 32 }
    {
        self.nodes.link(node as usize + 4) as usize + 4
    }
}

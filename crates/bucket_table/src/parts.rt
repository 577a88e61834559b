//! Parts of a row, where they stand. A look takes no memory and copies nothing but sixteen bytes.
ghost use Rattle.std.specs.Prelude.{◌≡◌, ◌+◌, ◌≤◌, ◌↔◌, ℕ, true, length};
ghost use Rattle.row_codec.specs.RowReading.{number_in};
ghost use Rattle.bucket_table.specs.Tables.{HasNode, part_of, row_of, with_nodes, with_number, with_row};

use crate::table::BucketTable;

impl BucketTable {
    /// Whether these bytes stand in the row of a node, from a place in it on.
    #[inline]
    pub fn shows_at(&self, node: u32, at: usize, bytes: &[u8]) -> bool
        requires { HasNode node self.now.nodes }
        ensures { result ≡ true ↔ (part_of at (length bytes.now) (row_of node self.now.nodes) ≡ bytes.now) }
    {
        if bytes.is_empty() {
            return true;
        }
        let len = self.row_len(node);
        if len < at || len - at < bytes.len() {
            return false;
        }
        self.nodes.shows(node as usize + 4 + at, bytes)
    }

    /// The number that sixteen bytes of the row of a node spell from a place in it on, the most significant byte first.
    /// So a wide value is spelled, in two's complement.
    #[inline]
    pub fn number_at(&self, node: u32, at: usize) -> u128
        requires node { HasNode node self.now.nodes }
        requires inside { at + 16 ≤ length (row_of node self.now.nodes) }
        ensures { result ≡ number_in (part_of at 16 (row_of node self.now.nodes)) }
    {
        self.nodes.wide(node as usize + 4 + at)
    }

    /// Writes a number over sixteen bytes of the row of a node, from a place in it on.
    #[inline]
    pub fn set_number_at(&mut self, node: u32, at: usize, value: u128)
        requires node { HasNode node self.old.nodes }
        requires behind { 4 ≤ at }
        requires inside { at + 16 ≤ length (row_of node self.old.nodes) }
        ensures { self.new ≡ with_nodes (with_row node (with_number at value (row_of node self.old.nodes)) self.old.nodes) self.old }
    {
        self.nodes.set_wide(node as usize + 4 + at, value);
    }

    /// Makes of the number that sixteen bytes of the row of a node spell, from a place in it on, what a call gives of it.
    #[inline(always)]
    pub fn change_number_at<F: FnOnce(u128) -> u128>(&mut self, node: u32, at: usize, change: F)
        requires node { HasNode node self.old.nodes }
        requires behind { 4 ≤ at }
        requires inside { at + 16 ≤ length (row_of node self.old.nodes) }
        requires call { F.pre change (number_in (part_of at 16 (row_of node self.old.nodes))) }
        ensures { (number : ℕ) × F.post change (number_in (part_of at 16 (row_of node self.old.nodes))) number × (self.new ≡ with_nodes (with_row node (with_number at number (row_of node self.old.nodes)) self.old.nodes) self.old) }
    {
        self.nodes.change_wide(node as usize + 4 + at, change);
    }
}

//! All nodes, in the order in which they came.
ghost use Rattle.std.specs.Prelude.{◌≡◌, IfSome};
ghost use Rattle.bucket_table.specs.Tables.{HasNode, newer_than, oldest};

use crate::table::BucketTable;

impl BucketTable {
    /// The node that came first.
    pub fn first_node(&self) -> Option<u32>
        ensures value { result ≡ oldest self.now.nodes }
        ensures node { IfSome result (λ node. HasNode node self.now.nodes) }
    {
        if self.used == 0 {
            return None;
        }
        Some(0)
    }

    /// The node that came after this one.
    pub fn next_node(&self, node: u32) -> Option<u32>
        requires { HasNode node self.now.nodes }
        ensures value { result ≡ newer_than node self.now.nodes }
        ensures node { IfSome result (λ next. HasNode next self.now.nodes) }
    {
        let next = node as usize + 4 + self.row_len(node);
        if next == self.used {
            return None;
        }
        Some(next as u32)
    }
}

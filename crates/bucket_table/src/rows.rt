//! The row of a node.
ghost use Rattle.std.specs.Prelude.{◌≡◌, length, OnOk};
ghost use Rattle.bucket_table.specs.Tables.{HasNode, IsFramed, row_of, with_nodes, with_row};

use crate::table::BucketTable;
use reservation_tree::Memory;

impl BucketTable {
    /// Copies the row of a node into memory that the next one may take again.
    ///
    /// # Errors
    ///
    /// `Memory`: there was no memory for the row. What stands in `out` is left open then.
    pub fn row_at(&self, node: u32, out: &mut Vec<u8>) -> Result<(), Memory>
        requires { HasNode node self.now.nodes }
        ensures ok { OnOk result (out.new.items ≡ row_of node self.now.nodes) }
    {
        let len = self.row_len(node);
        out.resize(len, 0)?;
        self.nodes.read(node as usize + 4, out);
        Ok(())
    }

    /// Writes a row of the same length over the row of a node.
    pub fn write_row(&mut self, node: u32, row: &[u8])
        requires node { HasNode node self.old.nodes }
        requires framed { IsFramed row.now }
        requires same { length row.now ≡ length (row_of node self.old.nodes) }
        ensures { self.new ≡ with_nodes (with_row node row.now self.old.nodes) self.old }
    {
        self.nodes.write(node as usize + 4, row);
    }
}

//! Rows come, and all go.
ghost use Rattle.std.specs.Prelude.{◌≡◌, ◌<◌, ◌+◌, ◌%◌, ◌↔◌, [], ◌∷◌, length, IsErr, IfOk, OnErr};
ghost use Rattle.bucket_table.specs.Tables.{HasNode, IsFramed, new_node, used_by, with_nodes};

use crate::full::Full;
use crate::table::BucketTable;
use crate::threading::thread;

impl BucketTable {
    /// Adds a row in front of the chain of this hash, and gives the number of its node. The first four bytes of the row
    /// count those behind them, as they do in every encoded row. This takes no memory.
    ///
    /// A caller hands it `spread(hash)`, and the same to `find_first` and `find_row`: by the hashes themselves, the rows of a
    /// partition would stand on few of the chains.
    ///
    /// # Errors
    ///
    /// `Full`: fewer than four bytes more than the row are left of the node area.
    pub fn insert(&mut self, hash: u64, row: &[u8]) -> Result<u32, Full>
        requires { IsFramed row.now }
        ensures ok { IfOk result (λ node. self.new ≡ with_nodes (new_node (hash % self.old.heads) row.now self.old.nodes ∷ self.old.nodes) self.old) }
        ensures place { IfOk result (λ node. node ≡ used_by self.old.nodes) }
        ensures node { IfOk result (λ node. HasNode node self.new.nodes) }

        ensures refused { IsErr result ↔ (self.old.room < used_by self.old.nodes + 4 + length row.now) }
        ensures err { OnErr result (self.new ≡ self.old) }
    {
        if !self.has_room(row.len()) {
            return Err(Full);
        }
        let node = self.used;
        thread(&mut self.heads, &mut self.nodes, self.chains, node, hash);
        self.nodes.write(node + 4, row);
        self.used = node + 4 + row.len();
        self.count += 1;
        Ok(node as u32)
    }

    /// Forgets all rows. The loans stay.
    pub fn clear(&mut self)
        ensures { self.new ≡ with_nodes [] self.old }
    {
        self.heads.zero();
        self.used = 0;
        self.count = 0;
    }
}

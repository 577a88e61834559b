//! A table gets more chains.
ghost use Rattle.std.specs.Prelude.{◌≡◌, ◌*◌, ◌^◌, ◌<◌, ◌≤◌, All, length, IfErr, OnOk, OnErr};
ghost use Rattle.store_api.specs.Alike.{Alike};
ghost use Rattle.store_api.specs.Holdings.{unused_of};
ghost use Rattle.store_api.specs.Signs.{Grows};
ghost use Rattle.bucket_table.specs.Entering.{EnteredLoans};
ghost use Rattle.bucket_table.specs.Lending.{IsTableOf, WasShort, bytes_of};
ghost use Rattle.bucket_table.specs.Widening.{Widened};

use crate::chains::Chains;
use crate::hashing::RowHash;
use crate::table::BucketTable;
use crate::threading::rethread;
use reservation_tree::PoolErr;
use std::alloc::Global;
use store_api::{Client, Store};

impl BucketTable {
    // The bytes of the longest row, or more.
    fn longest_row(&self) -> usize
        ensures { All (λ n. length n.row ≤ result) self.now.nodes }
    {
        let mut longest = 0usize;
        let mut node = 0;
        while node < self.used {
            let len = self.nodes.link(node + 4) as usize + 4;
            longest = longest.max(len);
            node += 4 + len;
        }
        longest
    }

    /// Doubles the buffers of heads and the chains, and puts each row on the chain of its hash anew. The rows keep their
    /// nodes, and those of a chain are still found newest first. The rows' hashes should be those with which they were
    /// inserted.
    ///
    /// # Errors
    ///
    /// As for [`BucketTable::open_wide`]. The table and what the store holds are as before.
    pub fn widen<St: Store, H: RowHash>(
        &mut self,
        alloc: Global,
        store: &mut St,
        c: &Client,
        hasher: &H,
    ) -> Result<(), PoolErr>
        requires table { IsTableOf self.old (St.holds store.old) }
        requires client { c.now.tracker ≡ self.old.client }
        requires unused { bytes_of self.old.head_loans ≤ unused_of self.old.client (St.holds store.old) }
        requires short { 2 * bytes_of self.old.head_loans < 2 ^ 32 }
        ensures ok { OnOk result (Widened (H.hash hasher.now) self.old self.new (St.holds store.old) (St.holds store.new)) }
        ensures err { OnErr result (self.new ≡ self.old) }
        ensures held { OnErr result (Alike (St.holds store.old) (St.holds store.new)) }
        ensures table { IsTableOf self.new (St.holds store.new) }
        ensures cause { IfErr result (WasShort self.old.client self.old.page_blocks (St.signs store.old) (St.signs store.new)) }
        ensures grows { Grows (St.signs store.old) (St.signs store.new) }
        ensures entries { EnteredLoans (St.signs store.old).trail (St.signs store.new).trail }
    {
        let longest = self.longest_row();
        let Ok(mut scratch) = vec![in alloc; 0; longest] else {
            return Err(PoolErr::Memory);
        };
        self.heads.double(alloc, store, c)?;
        let chains = Chains::of(2 * self.chains.len());
        rethread(
            &mut self.heads,
            &mut self.nodes,
            chains,
            self.used,
            hasher,
            &mut scratch,
        );
        self.chains = chains;
        Ok(())
    }
}

//! A table gets more memory.
ghost use Rattle.std.specs.Prelude.{◌≡◌, ◌+◌, ◌^◌, ◌<◌, ◌≤◌, IfErr, OnOk, OnErr};
ghost use Rattle.store_api.specs.Holdings.{unused_of};
ghost use Rattle.store_api.specs.Signs.{Grows};
ghost use Rattle.bucket_table.specs.Entering.{EnteredLoans};
ghost use Rattle.bucket_table.specs.Lending.{Grew, IsTableOf, WasShort, buffer_len};

use crate::table::BucketTable;
use reservation_tree::PoolErr;
use std::alloc::Global;
use store_api::{Client, Store};

impl BucketTable {
    /// Adds one buffer of nodes. The rows stay as they are.
    ///
    /// # Errors
    ///
    /// As for [`BucketTable::open_wide`]. The table and what the store holds are as before.
    pub fn grow<St: Store>(
        &mut self,
        alloc: Global,
        store: &mut St,
        c: &Client,
    ) -> Result<(), PoolErr>
        requires table { IsTableOf self.old (St.holds store.old) }
        requires client { c.now.tracker ≡ self.old.client }
        requires unused { buffer_len self.old ≤ unused_of self.old.client (St.holds store.old) }
        requires short { self.old.room + buffer_len self.old < 2 ^ 32 }
        ensures ok { OnOk result (Grew self.old self.new (St.holds store.old) (St.holds store.new)) }
        ensures err { OnErr result (self.new ≡ self.old) }
        ensures held { OnErr result (St.holds store.new ≡ St.holds store.old) }
        ensures table { IsTableOf self.new (St.holds store.new) }
        ensures cause { IfErr result (WasShort self.old.client self.old.page_blocks (St.signs store.old) (St.signs store.new)) }
        ensures grows { Grows (St.signs store.old) (St.signs store.new) }
        ensures entries { EnteredLoans (St.signs store.old).trail (St.signs store.new).trail }
    {
        self.nodes.add(alloc, store, c)?;
        Ok(())
    }
}

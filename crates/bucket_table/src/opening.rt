//! A table begins, and ends.
ghost use Rattle.std.specs.Prelude.{◌≡◌, ◌+◌, ◌*◌, ◌/◌, ◌^◌, ◌<◌, ◌≤◌, ◌++◌, ℕ, [], length, replicate, IfOk, IfErr, OnOk, OnErr};
ghost use Rattle.store_api.specs.Alike.{Alike};
ghost use Rattle.store_api.specs.Conditions.{IsBlockCount, IsLiveClient};
ghost use Rattle.store_api.specs.Holdings.{length_of, unused_of};
ghost use Rattle.store_api.specs.Signs.{Grows};
ghost use Rattle.bucket_table.specs.Filling.{FillsBoth, each_of};
ghost use Rattle.bucket_table.specs.Entering.{EnteredLoans};
ghost use Rattle.bucket_table.specs.Lending.{AreHeld, IsOpened, IsTableOf, Lends, WasShort, loans_of};
ghost use Rattle.bucket_table.specs.Threads.{table_of};
ghost use Rattle.bucket_table.specs.Tables.{with_nodes};

use crate::area::Area;
use crate::chains::Chains;
use crate::table::BucketTable;
use reservation_tree::PoolErr;
use std::alloc::Global;
use store_api::{Client, Store};

// So many loans come to the first area, and then so many to the second.
fn fill_both<St: Store>(
    alloc: Global,
    store: &mut St,
    c: &Client,
    heads: &mut Area,
    head_bufs: u32,
    nodes: &mut Area,
    node_bufs: u32,
) -> Result<(), PoolErr>
    requires client { IsLiveClient c.now (St.holds store.old) }
    requires blocks { IsBlockCount heads.old.blocks }
    requires same { (nodes.old.blocks ≡ heads.old.blocks) × (nodes.old.block_len ≡ heads.old.block_len) }
    requires block_len { heads.old.block_len ≡ (St.holds store.old).block_len }
    requires unused { (head_bufs + node_bufs) * each_of heads.old ≤ unused_of c.now.tracker (St.holds store.old) }
    requires short_heads { length heads.old.bytes + head_bufs * each_of heads.old < 2 ^ 32 }
    requires short_nodes { length nodes.old.bytes + node_bufs * each_of heads.old < 2 ^ 32 }
    ensures ok { OnOk result (FillsBoth c.now.tracker head_bufs node_bufs heads.old heads.new nodes.old nodes.new (St.holds store.old) (St.holds store.new)) }
    ensures err { OnErr result ((some : ℕ) × (others : ℕ) × FillsBoth c.now.tracker some others heads.old heads.new nodes.old nodes.new (St.holds store.old) (St.holds store.new)) }
    ensures cause { IfErr result (WasShort c.now.tracker heads.old.blocks (St.signs store.old) (St.signs store.new)) }
    ensures grows { Grows (St.signs store.old) (St.signs store.new) }
    ensures entries { EnteredLoans (St.signs store.old).trail (St.signs store.new).trail }
{
    heads.fill(alloc, store, c, head_bufs)?;
    nodes.fill(alloc, store, c, node_bufs)
}

// Frees the loans of both areas.
fn give_both<St: Store>(store: &mut St, heads: Area, nodes: Area)
    requires { (t : ℕ) × AreHeld t (St.holds store.old) (heads.loans ++ nodes.loans) }
    ensures lends { (t : ℕ) → AreHeld t (St.holds store.old) (heads.loans ++ nodes.loans) → Lends t (heads.loans ++ nodes.loans) (St.holds store.new) (St.holds store.old) }
    ensures grows { Grows (St.signs store.old) (St.signs store.new) }
    ensures entries { EnteredLoans (St.signs store.old).trail (St.signs store.new).trail }
{
    nodes.give(store);
    heads.give(store);
}

impl BucketTable {
    // A table without rows, whose heads are zero.
    fn over(heads: Area, nodes: Area) -> BucketTable
        requires zeros { heads.bytes ≡ replicate (length heads.bytes) 0 }
        requires some { 4 ≤ length heads.bytes }
        requires blocks { heads.blocks ≡ nodes.blocks }
        requires block_len { heads.block_len ≡ nodes.block_len }
        ensures { result ≡ with_nodes [] (table_of (length heads.bytes / 4) heads nodes) }
    {
        let chains = Chains::of(heads.len() / 4);
        let _nodes = nodes.len();
        BucketTable {
            heads,
            nodes,
            used: 0,
            count: 0,
            chains,
        }
    }

    /// A table without rows, in so many buffers of heads and of nodes, each of `page_blocks` blocks, a power of two up
    /// to 256. A buffer of heads has a chain for each four of its bytes.
    ///
    /// # Errors
    ///
    /// `Memory`: there was no memory. `WriteFault`: a write of a page of this client failed, and there is no room. The
    /// store holds what it held before.
    pub fn open_wide<St: Store>(
        alloc: Global,
        store: &mut St,
        c: &Client,
        page_blocks: u32,
        head_bufs: u32,
        node_bufs: u32,
    ) -> Result<BucketTable, PoolErr>
        requires client { IsLiveClient c.now (St.holds store.old) }
        requires blocks { IsBlockCount page_blocks }
        requires some { 0 < head_bufs }
        requires heads { head_bufs * length_of page_blocks (St.holds store.old) ≤ 2 ^ 28 }
        requires nodes { node_bufs * length_of page_blocks (St.holds store.old) < 2 ^ 32 }
        requires unused { (head_bufs + node_bufs) * length_of page_blocks (St.holds store.old) ≤ unused_of c.now.tracker (St.holds store.old) }
        ensures ok { IfOk result (IsOpened c.now.tracker page_blocks head_bufs node_bufs (St.holds store.old) (St.holds store.new)) }
        ensures table { IfOk result (λ table. IsTableOf table (St.holds store.new)) }
        ensures err { OnErr result (Alike (St.holds store.old) (St.holds store.new)) }
        ensures cause { IfErr result (WasShort c.now.tracker page_blocks (St.signs store.old) (St.signs store.new)) }
        ensures grows { Grows (St.signs store.old) (St.signs store.new) }
        ensures entries { EnteredLoans (St.signs store.old).trail (St.signs store.new).trail }
    {
        let block_len = store.block_len();
        let mut heads = Area::empty(alloc, page_blocks, block_len);
        let mut nodes = Area::empty(alloc, page_blocks, block_len);
        match fill_both(
            alloc, store, c, &mut heads, head_bufs, &mut nodes, node_bufs,
        ) {
            Ok(()) => Ok(BucketTable::over(heads, nodes)),
            Err(e) => {
                give_both(store, heads, nodes);
                Err(e)
            }
        }
    }

    /// A table without rows, in one buffer of heads and 1 to 16 of nodes, each of `page_blocks` blocks, a power of two
    /// up to 256.
    ///
    /// # Errors
    ///
    /// As for [`BucketTable::open_wide`].
    pub fn open<St: Store>(
        alloc: Global,
        store: &mut St,
        c: &Client,
        page_blocks: u32,
        node_bufs: u32,
    ) -> Result<BucketTable, PoolErr>
        requires client { IsLiveClient c.now (St.holds store.old) }
        requires blocks { IsBlockCount page_blocks }
        requires few { node_bufs ≤ 16 }
        requires unused { (1 + node_bufs) * length_of page_blocks (St.holds store.old) ≤ unused_of c.now.tracker (St.holds store.old) }
        ensures ok { IfOk result (IsOpened c.now.tracker page_blocks 1 node_bufs (St.holds store.old) (St.holds store.new)) }
        ensures table { IfOk result (λ table. IsTableOf table (St.holds store.new)) }
        ensures err { OnErr result (Alike (St.holds store.old) (St.holds store.new)) }
        ensures cause { IfErr result (WasShort c.now.tracker page_blocks (St.signs store.old) (St.signs store.new)) }
        ensures grows { Grows (St.signs store.old) (St.signs store.new) }
        ensures entries { EnteredLoans (St.signs store.old).trail (St.signs store.new).trail }
    {
        // It tells that blocks are short, so that a u32 numbers the bytes of sixteen buffers.
        let _block_len = store.block_len();
        BucketTable::open_wide(alloc, store, c, page_blocks, 1, node_bufs)
    }

    /// Ends a table, and frees its loans. This takes no memory.
    pub fn close<St: Store>(self, store: &mut St)
        requires { IsTableOf self (St.holds store.old) }
        ensures lends { Lends self.client (loans_of self) (St.holds store.new) (St.holds store.old) }
        ensures grows { Grows (St.signs store.old) (St.signs store.new) }
        ensures entries { EnteredLoans (St.signs store.old).trail (St.signs store.new).trail }
    {
        let BucketTable {
            heads,
            nodes,
            used: _,
            count: _,
            chains: _,
        } = self;
        give_both(store, heads, nodes);
    }
}

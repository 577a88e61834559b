//! Rows are taken out.
ghost use Rattle.std.specs.Prelude.{◌≡◌, ◌≢◌, ℕ, ◌+◌, ◌^◌, ◌<◌, take, drop, Some, None, option_map, if◌then◌else◌, IfOk, IfErr, OnErr, ⊤};
ghost use Rattle.store_api.specs.Conditions.{IsLiveClient};
ghost use Rattle.tuple_stream.specs.PageRows.{row_len};
ghost use Rattle.tuple_stream.specs.Streamed.{open_bytes};
ghost use Rattle.tuple_stream.specs.Streams.{HasPageRoom, IsOpenAt, IsShaped};
ghost use Rattle.tuple_stream.specs.Steps.{CameOf, Reads, scene};
ghost use Rattle.tuple_stream.specs.Spending.{Spends, SpendsRow};

use crate::stream::Stream;
use reservation_tree::PoolErr;
use std::alloc::Global;
use store_api::{Client, Store};

impl Stream {
    /// Takes the first row out; `None` exactly where there is none. With the last row of a page the page ends.
    ///
    /// # Errors
    ///
    /// The store answered so in this call, or there was no memory, or a page shows no row where one must be. The rows
    /// are as before; which page is pinned may have changed.
    pub fn next_spend<St: Store>(
        &mut self,
        alloc: Global,
        store: &mut St,
        c: &Client,
    ) -> Result<Option<Vec<u8>>, PoolErr>
        requires client { IsLiveClient c.now (St.holds store.old) }
        requires stream { IsShaped c.now.tracker self.old (St.holds store.old) }
        requires room { HasPageRoom c.now.tracker self.old (St.holds store.old) }
        ensures ok { IfOk result (λ found. Spends c.now.tracker (option_map (λ row. row.items) found) (scene self.old (St.holds store.old) (St.signs store.old)) (scene self.new (St.holds store.new) (St.signs store.new))) }
        ensures err { OnErr result (Reads c.now.tracker (scene self.old (St.holds store.old) (St.signs store.old)) (scene self.new (St.holds store.new) (St.signs store.new))) }
        ensures same { OnErr result (self.new ≡ record self.old { pinned = self.new.pinned }) }
        ensures cause { IfErr result (CameOf (scene self.old (St.holds store.old) (St.signs store.old)) (scene self.new (St.holds store.new) (St.signs store.new))) }
    {
        let mut row = Vec::new(alloc);
        if self.spend_into(store, c, &mut row)? {
            Ok(Some(row))
        } else {
            Ok(None)
        }
    }

    /// As [`Stream::next_spend`], into memory that the next row may take again: whether there was a row. Where there
    /// was none, what stands in `out` is left open.
    #[inline(always)]
    pub fn spend_into<St: Store>(
        &mut self,
        store: &mut St,
        c: &Client,
        out: &mut Vec<u8>,
    ) -> Result<bool, PoolErr>
        requires client { IsLiveClient c.now (St.holds store.old) }
        requires stream { IsShaped c.now.tracker self.old (St.holds store.old) }
        requires room { HasPageRoom c.now.tracker self.old (St.holds store.old) }
        ensures ok { IfOk result (λ found. Spends c.now.tracker (if found then Some out.new.items else None) (scene self.old (St.holds store.old) (St.signs store.old)) (scene self.new (St.holds store.new) (St.signs store.new))) }
        ensures err { OnErr result (Reads c.now.tracker (scene self.old (St.holds store.old) (St.signs store.old)) (scene self.new (St.holds store.new) (St.signs store.new))) }
        ensures same { OnErr result (self.new ≡ record self.old { pinned = self.new.pinned }) }
        ensures cause { IfErr result (CameOf (scene self.old (St.holds store.old) (St.signs store.old)) (scene self.new (St.holds store.new) (St.signs store.new))) }
    {
        let Some(count) = self.count.checked_sub(1) else {
            return Ok(false);
        };
        if self.pages.is_empty() {
            return Err(PoolErr::Memory);
        }
        self.open_at(store, 0)?;
        let len = self.copy_from_open(self.spent, out)?;
        if len == 0 {
            return Err(PoolErr::Memory);
        }
        self.spend(store, count, len);
        Ok(true)
    }

    // The first row, of so many bytes, goes, and so many rows stay. With the last row of its page the page goes.
    fn spend<St: Store>(&mut self, store: &mut St, count: u64, len: usize)
        requires stream { (t : ℕ) × IsShaped t self.old (St.holds store.old) }
        requires pinned { IsOpenAt 0 self.old }
        requires len { len ≡ row_len (drop self.old.spent (open_bytes self.old.pinned)) }
        requires some { len ≢ 0 }
        requires short { self.old.spent + len < 2 ^ 64 }
        requires count { self.old.count ≡ count + 1 }
        ensures went { (t : ℕ) → IsShaped t self.old (St.holds store.old) → SpendsRow ⊤ t (take len (drop self.old.spent (open_bytes self.old.pinned))) (scene self.old (St.holds store.old) (St.signs store.old)) (scene self.new (St.holds store.new) (St.signs store.new)) }
    {
        self.spent += len;
        self.count = count;
        if self.len_in_open(self.spent) == 0 {
            self.end_first(store);
        }
    }
}

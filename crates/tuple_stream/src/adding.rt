//! Rows come.
ghost use Rattle.std.specs.Prelude.{◌≡◌, ◌+◌, ◌^◌, ◌<◌, ◌≤◌, length, Some, IsSome, IfSome, IfErr, OnOk, Err};
ghost use Rattle.store_api.specs.Conditions.{IsBlockCount, IsLiveClient};
ghost use Rattle.tuple_stream.specs.declared.err.StreamErr.TheVariants as failure;
ghost use Rattle.tuple_stream.specs.PageRows.{IsOneRow};
ghost use Rattle.tuple_stream.specs.Streamed.{len_in};
ghost use Rattle.tuple_stream.specs.Streams.{HasPageRoom, IsAtEnd, IsShaped};
ghost use Rattle.tuple_stream.specs.Ready.{with_row};
ghost use Rattle.tuple_stream.specs.Steps.{Adds, MayRefuseRow, came, scene};

use crate::err::StreamErr;
use crate::stream::Stream;
use reservation_tree::PoolErr;
use std::alloc::Global;
use store_api::{Client, Store};

impl Stream {
    /// Appends a row. It is copied once, into its page, which stays pinned.
    ///
    /// # Errors
    ///
    /// `RowTooLong`, exactly where the row has more bytes than a page. `Pool`: the store answered so in this call,
    /// or there was no memory, also for the number of one row more. The rows are as before; the page that was
    /// pinned may rest.
    #[inline(always)]
    pub fn append<St: Store>(
        &mut self,
        alloc: Global,
        store: &mut St,
        c: &Client,
        row: &[u8],
    ) -> Result<(), StreamErr>
        requires client { IsLiveClient c.now (St.holds store.old) }
        requires stream { IsShaped c.now.tracker self.old (St.holds store.old) }
        requires room { HasPageRoom c.now.tracker self.old (St.holds store.old) }
        requires row { IsOneRow row.now }
        ensures went { Adds c.now.tracker (came result row.now) (scene self.old (St.holds store.old) (St.signs store.old)) (scene self.new (St.holds store.new) (St.signs store.new)) }
        ensures pinned { OnOk result (IsAtEnd self.new × IsSome self.new.pinned) }
        ensures few { length self.new.pages ≤ length self.old.pages + 1 }
        ensures long { len_in self.old (St.holds store.old) < length row.now → result ≡ Err (failure.RowTooLong (length row.now)) }
        ensures cause { IfErr result (MayRefuseRow row.now (scene self.old (St.holds store.old) (St.signs store.old)) (scene self.new (St.holds store.new) (St.signs store.new))) }
    {
        let len = self.page_len(store);
        if row.len() > len {
            let bytes = row.len() as u64;
            return Err(StreamErr::RowTooLong { bytes });
        }
        let Some(count) = self.count.checked_add(1) else {
            return Err(StreamErr::Pool(PoolErr::Memory));
        };
        self.make_room(alloc, store, c, len, row.len())?;
        self.put_row(row, count);
        Ok(())
    }

    // The length of a page.
    fn page_len<St: Store>(&self, store: &St) -> usize
        requires { IsBlockCount self.now.page_blocks }
        ensures { result ≡ len_in self.now (St.holds store.now) }
    {
        self.page_blocks as usize * store.block_len() as usize
    }

    // Writes a row behind the others of the pinned page.
    fn put_row(&mut self, row: &[u8], count: u64)
        requires pinned { IsSome self.old.pinned }
        requires room { IfSome self.old.pinned (λ page. self.old.used + length row.now ≤ length page.buf.bytes) }
        requires short { self.old.used + length row.now < 2 ^ 64 }
        ensures { self.new ≡ with_row row.now count self.old }
    {
        match &mut self.pinned {
            Some(page) => page.buf.write_at(self.used, row),
            None => unreachable!(),
        }
        self.used += row.len();
        self.count = count;
    }
}

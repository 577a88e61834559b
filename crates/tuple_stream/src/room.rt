//! Room for a row at the end.
ghost use Rattle.std.specs.Prelude.{◌≡◌, ◌<◌, ◌≤◌, ◌⊎◌, ◌+◌, [], true, false, length, None, IfErr, OnOk, OnErr, ⊤};
ghost use Rattle.store_api.specs.Conditions.{IsLiveClient};
ghost use Rattle.store_api.specs.Holdings.{unused_of};
ghost use Rattle.tuple_stream.specs.Streamed.{len_in};
ghost use Rattle.tuple_stream.specs.Streams.{HasPageRoom, IsAtEnd, IsShaped};
ghost use Rattle.tuple_stream.specs.Steps.{Adds, CameOf, Readies, Tells, Went, scene};

use crate::stream::{Open, Stream};
use reservation_tree::PoolErr;
use std::alloc::Global;
use store_api::{Client, Store};

impl Stream {
    // Pins a page that has room for a row of so many bytes: the last one, or a new one where it has none.
    #[inline(always)]
    pub(crate) fn make_room<St: Store>(
        &mut self,
        alloc: Global,
        store: &mut St,
        c: &Client,
        len: usize,
        bytes: usize,
    ) -> Result<(), PoolErr>
        requires client { IsLiveClient c.now (St.holds store.old) }
        requires stream { IsShaped c.now.tracker self.old (St.holds store.old) }
        requires room { HasPageRoom c.now.tracker self.old (St.holds store.old) }
        requires len { len ≡ len_in self.old (St.holds store.old) }
        requires some { 0 < bytes }
        requires fits { bytes ≤ len }
        ensures ok { OnOk result (Readies (Tells (scene self.old (St.holds store.old) (St.signs store.old)) ⊎ IsAtEnd self.old) (IsAtEnd self.old) c.now.tracker bytes (scene self.old (St.holds store.old) (St.signs store.old)) (scene self.new (St.holds store.new) (St.signs store.new))) }
        ensures err { OnErr result (Adds c.now.tracker [] (scene self.old (St.holds store.old) (St.signs store.old)) (scene self.new (St.holds store.new) (St.signs store.new))) }
        ensures few { length self.new.pages ≤ length self.old.pages + 1 }
        ensures cause { IfErr result (CameOf (scene self.old (St.holds store.old) (St.signs store.old)) (scene self.new (St.holds store.new) (St.signs store.new))) }
    {
        if self.has_room(len, bytes) {
            let last = self.pages.len() - 1;
            self.open_at(store, last)
        } else {
            self.begin_page(alloc, store, c, len, bytes)
        }
    }

    // Whether the last page has room for a row of so many bytes.
    fn has_room(&self, len: usize, bytes: usize) -> bool
        requires { 0 < bytes }
        ensures some { result ≡ true → 0 < length self.now.pages }
        ensures fits { result ≡ true → self.now.used + bytes ≤ len }
        ensures full { result ≡ false → 0 < length self.now.pages → len < self.now.used + bytes }
    {
        !self.pages.is_empty() && bytes <= len.saturating_sub(self.used)
    }

    // Lets the pinned page rest, and adds one.
    #[inline(never)]
    fn begin_page<St: Store>(
        &mut self,
        alloc: Global,
        store: &mut St,
        c: &Client,
        len: usize,
        bytes: usize,
    ) -> Result<(), PoolErr>
        requires client { IsLiveClient c.now (St.holds store.old) }
        requires stream { IsShaped c.now.tracker self.old (St.holds store.old) }
        requires room { HasPageRoom c.now.tracker self.old (St.holds store.old) }
        requires len { len ≡ len_in self.old (St.holds store.old) }
        requires fits { bytes ≤ len }
        requires full { 0 < length self.old.pages → len < self.old.used + bytes }
        ensures ok { OnOk result (Readies ⊤ (IsAtEnd self.old ⊎ (self.old.pinned ≡ None)) c.now.tracker bytes (scene self.old (St.holds store.old) (St.signs store.old)) (scene self.new (St.holds store.new) (St.signs store.new))) }
        ensures err { OnErr result (Went ⊤ (IsAtEnd self.old ⊎ (self.old.pinned ≡ None)) ⊥ c.now.tracker [] (scene self.old (St.holds store.old) (St.signs store.old)) (scene self.new (St.holds store.new) (St.signs store.new))) }
        ensures few { length self.new.pages ≤ length self.old.pages + 1 }
        ensures cause { IfErr result (CameOf (scene self.old (St.holds store.old) (St.signs store.old)) (scene self.new (St.holds store.new) (St.signs store.new))) }
    {
        self.rest(store)?;
        self.add_page(alloc, store, c, len, bytes)
    }

    // Adds a page, where none is pinned.
    fn add_page<St: Store>(
        &mut self,
        alloc: Global,
        store: &mut St,
        c: &Client,
        len: usize,
        bytes: usize,
    ) -> Result<(), PoolErr>
        requires client { IsLiveClient c.now (St.holds store.old) }
        requires stream { IsShaped c.now.tracker self.old (St.holds store.old) }
        requires closed { self.old.pinned ≡ None }
        requires room { len_in self.old (St.holds store.old) ≤ unused_of c.now.tracker (St.holds store.old) }
        requires len { len ≡ len_in self.old (St.holds store.old) }
        requires fits { bytes ≤ len }
        requires full { 0 < length self.old.pages → len < self.old.used + bytes }
        ensures ok { OnOk result (Readies ⊤ ⊤ c.now.tracker bytes (scene self.old (St.holds store.old) (St.signs store.old)) (scene self.new (St.holds store.new) (St.signs store.new))) }
        ensures err { OnErr result (Went ⊤ ⊤ ⊥ c.now.tracker [] (scene self.old (St.holds store.old) (St.signs store.old)) (scene self.new (St.holds store.new) (St.signs store.new))) }
        ensures few { length self.new.pages ≤ length self.old.pages + 1 }
        ensures cause { IfErr result (CameOf (scene self.old (St.holds store.old) (St.signs store.old)) (scene self.new (St.holds store.new) (St.signs store.new))) }
    {
        if self.pages.reserve(1).is_err() {
            return Err(PoolErr::Memory);
        }
        let (page, buf) = store.create(alloc, c, self.page_blocks)?;
        let place = self.pages.len();
        self.pages.push_back_reserved(page);
        self.used = 0;
        self.set_pinned(Open { place, buf });
        Ok(())
    }
}

//! Rows are read, and stay.
ghost use Rattle.std.specs.Prelude.{◌≡◌, ◌<◌, ◌+◌, ◌^◌, length, Some, None, option_map, if◌then◌else◌, IfOk, IfErr, OnErr, OnOk};
ghost use Rattle.store_api.specs.Conditions.{IsLiveClient};
ghost use Rattle.tuple_stream.specs.Streams.{HasPageRoom, IsOpenAt, IsShaped};
ghost use Rattle.tuple_stream.specs.Places.{IsWithin, start_in};
ghost use Rattle.tuple_stream.specs.Steps.{CameOf, Reads, scene};
ghost use Rattle.tuple_stream.specs.Reading.{IsFoundAt, Keeps, KeepsOpen, ReadsRow};

use crate::place::At;
use crate::stream::Stream;
use reservation_tree::PoolErr;
use std::alloc::Global;
use store_api::{Client, Store};

impl Stream {
    /// The row at the place, which moves on behind it; `None` exactly at the end.
    ///
    /// # Errors
    ///
    /// The store answered so in this call, or there was no memory, or a page shows no row where one must be. The rows
    /// and the place are as before; which page is pinned may have changed.
    pub fn next_keep<St: Store>(
        &mut self,
        alloc: Global,
        store: &mut St,
        c: &Client,
        place: &mut At,
    ) -> Result<Option<Vec<u8>>, PoolErr>
        requires client { IsLiveClient c.now (St.holds store.old) }
        requires stream { IsShaped c.now.tracker self.old (St.holds store.old) }
        requires room { HasPageRoom c.now.tracker self.old (St.holds store.old) }
        requires place { IsWithin place.old self.old }
        ensures ok { IfOk result (λ found. Keeps (option_map (λ row. row.items) found) place.old place.new (scene self.old (St.holds store.old) (St.signs store.old)) (scene self.new (St.holds store.new) (St.signs store.new))) }
        ensures went { Reads c.now.tracker (scene self.old (St.holds store.old) (St.signs store.old)) (scene self.new (St.holds store.new) (St.signs store.new)) }
        ensures same { self.new ≡ record self.old { pinned = self.new.pinned } }
        ensures cause { IfErr result (CameOf (scene self.old (St.holds store.old) (St.signs store.old)) (scene self.new (St.holds store.new) (St.signs store.new))) }
        ensures err { OnErr result (place.new ≡ place.old) }
    {
        let mut row = Vec::new(alloc);
        if self.keep_into(store, c, place, &mut row)? {
            Ok(Some(row))
        } else {
            Ok(None)
        }
    }

    /// As [`Stream::next_keep`], into memory that the next row may take again: whether there was a row. Where there
    /// was none, what stands in `out` is left open.
    pub fn keep_into<St: Store>(
        &mut self,
        store: &mut St,
        c: &Client,
        place: &mut At,
        out: &mut Vec<u8>,
    ) -> Result<bool, PoolErr>
        requires client { IsLiveClient c.now (St.holds store.old) }
        requires stream { IsShaped c.now.tracker self.old (St.holds store.old) }
        requires room { HasPageRoom c.now.tracker self.old (St.holds store.old) }
        requires place { IsWithin place.old self.old }
        ensures ok { IfOk result (λ found. Keeps (if found then Some out.new.items else None) place.old place.new (scene self.old (St.holds store.old) (St.signs store.old)) (scene self.new (St.holds store.new) (St.signs store.new))) }
        ensures went { Reads c.now.tracker (scene self.old (St.holds store.old) (St.signs store.old)) (scene self.new (St.holds store.new) (St.signs store.new)) }
        ensures same { self.new ≡ record self.old { pinned = self.new.pinned } }
        ensures cause { IfErr result (CameOf (scene self.old (St.holds store.old) (St.signs store.old)) (scene self.new (St.holds store.new) (St.signs store.new))) }
        ensures err { OnErr result (place.new ≡ place.old) }
    {
        if place.row == self.count {
            return Ok(false);
        }
        *place = self.keep_next(store, c, *place, out)?;
        Ok(true)
    }

    // The place behind the row that stands at this one, in its page or at the front of the next.
    fn keep_next<St: Store>(
        &mut self,
        store: &mut St,
        c: &Client,
        place: At,
        out: &mut Vec<u8>,
    ) -> Result<At, PoolErr>
        requires client { IsLiveClient c.now (St.holds store.old) }
        requires stream { IsShaped c.now.tracker self.old (St.holds store.old) }
        requires room { HasPageRoom c.now.tracker self.old (St.holds store.old) }
        requires place { IsWithin place self.old }
        requires some { place.row < self.old.count }
        requires short { place.row + 1 < 2 ^ 64 }
        ensures ok { IfOk result (λ behind. ReadsRow place behind out.new.items (scene self.old (St.holds store.old) (St.signs store.old)) (scene self.new (St.holds store.new) (St.signs store.new))) }
        ensures went { Reads c.now.tracker (scene self.old (St.holds store.old) (St.signs store.old)) (scene self.new (St.holds store.new) (St.signs store.new)) }
        ensures same { self.new ≡ record self.old { pinned = self.new.pinned } }
        ensures cause { IfErr result (CameOf (scene self.old (St.holds store.old) (St.signs store.old)) (scene self.new (St.holds store.new) (St.signs store.new))) }
    {
        if self.pages.is_empty() {
            return Err(PoolErr::Memory);
        }
        if let Some(byte) = self.keep_at(store, c, place, out)? {
            return Ok(At {
                page: place.page,
                byte,
                row: place.row + 1,
            });
        }
        if place.page + 1 == self.pages.len() {
            return Err(PoolErr::Memory);
        }
        let next = At {
            page: place.page + 1,
            byte: 0,
            row: place.row,
        };
        self.keep_first(store, c, next, out)
    }

    // The place behind the row that stands at this one in its page, where one must be.
    fn keep_first<St: Store>(
        &mut self,
        store: &mut St,
        c: &Client,
        place: At,
        out: &mut Vec<u8>,
    ) -> Result<At, PoolErr>
        requires client { IsLiveClient c.now (St.holds store.old) }
        requires stream { IsShaped c.now.tracker self.old (St.holds store.old) }
        requires room { HasPageRoom c.now.tracker self.old (St.holds store.old) }
        requires place { IsWithin place self.old }
        requires inside { place.page < length self.old.pages }
        requires some { place.row < self.old.count }
        requires short { place.row + 1 < 2 ^ 64 }
        ensures page { IfOk result (λ behind. behind.page ≡ place.page) }
        ensures ok { IfOk result (λ behind. ReadsRow place behind out.new.items (scene self.old (St.holds store.old) (St.signs store.old)) (scene self.new (St.holds store.new) (St.signs store.new))) }
        ensures went { Reads c.now.tracker (scene self.old (St.holds store.old) (St.signs store.old)) (scene self.new (St.holds store.new) (St.signs store.new)) }
        ensures same { self.new ≡ record self.old { pinned = self.new.pinned } }
        ensures cause { IfErr result (CameOf (scene self.old (St.holds store.old) (St.signs store.old)) (scene self.new (St.holds store.new) (St.signs store.new))) }
    {
        match self.keep_at(store, c, place, out)? {
            Some(byte) => Ok(At {
                page: place.page,
                byte,
                row: place.row + 1,
            }),
            None => Err(PoolErr::Memory),
        }
    }

    // The byte behind the row that stands at this place in its page.
    fn keep_at<St: Store>(
        &mut self,
        store: &mut St,
        c: &Client,
        place: At,
        out: &mut Vec<u8>,
    ) -> Result<Option<usize>, PoolErr>
        requires client { IsLiveClient c.now (St.holds store.old) }
        requires stream { IsShaped c.now.tracker self.old (St.holds store.old) }
        requires room { HasPageRoom c.now.tracker self.old (St.holds store.old) }
        requires inside { place.page < length self.old.pages }
        ensures ok { IfOk result (λ found. IsFoundAt found place out.new.items (scene self.new (St.holds store.new) (St.signs store.new))) }
        ensures pinned { OnOk result (IsOpenAt place.page self.new) }
        ensures still { IsOpenAt place.page self.old → (St.holds store.new ≡ St.holds store.old) × (St.signs store.new ≡ St.signs store.old) }
        ensures went { Reads c.now.tracker (scene self.old (St.holds store.old) (St.signs store.old)) (scene self.new (St.holds store.new) (St.signs store.new)) }
        ensures same { self.new ≡ record self.old { pinned = self.new.pinned } }
        ensures cause { IfErr result (CameOf (scene self.old (St.holds store.old) (St.signs store.old)) (scene self.new (St.holds store.new) (St.signs store.new))) }
    {
        self.open_at(store, place.page)?;
        let start = self.start_in(place);
        let len = self.copy_from_open(start, out)?;
        if len == 0 {
            return Ok(None);
        }
        Ok(Some(start + len))
    }

    // Where reading goes on in the place's page: nothing that is spent is read.
    fn start_in(&self, place: At) -> usize
        ensures { result ≡ start_in self.now place }
    {
        if place.page == 0 {
            place.byte.max(self.spent)
        } else {
            place.byte
        }
    }
}

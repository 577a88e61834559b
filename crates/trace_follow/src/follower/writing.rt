//! Pages are written and evicted.
ghost use Rattle.std.specs.Prelude.{◌≡◌, ◌<◌, ◌⊎◌, ◌↔◌, Some, IsSome, IfSome, IsTrue};
ghost use Rattle.std.specs.FinMap.{get};

use super::Follower;
use crate::rows::{PageRow, Place};
use pool_model::MAX_SESSIONS;
use std::alloc::AllocError;

// Whether this page was found.
fn is_page(found: Option<u64>, p: u64) -> bool
    ensures { IsTrue result ↔ (found ≡ Some p) }
{
    match found {
        Some(q) => q == p,
        None => false,
    }
}

impl Follower {
    ghost use Rattle.pool_model.specs.declared.bare.Bare.TheVariants as bare;
    ghost use Rattle.pool_model.specs.Makers.{IsSession, IsWriter};
    ghost use Rattle.pool_model.specs.State.{State, dirty_of};
    ghost use Rattle.pool_model.specs.ScratchRows.{MayStartWrite, MayEndWrite, MayEvict};
    ghost use Rattle.trace_follow.specs.Queues.{IsFirst, IsLast};
    ghost use Rattle.trace_follow.specs.Showing.{Shows};
    ghost use Rattle.trace_follow.specs.Judging.{made, Answers};

    // The newest dirty page of a client is written from now on.
    pub(super) fn start_write(&mut self, maker: u32, p: u64) -> Result<bool, AllocError>
        requires { IsSession maker ⊎ IsWriter maker }
        ensures { Answers self.old self.new (made maker (bare.StartWrite p)) result }
    {
        let Some(row) = self.writable(maker, p) else {
            return Ok(false);
        };
        let version = self.entries;
        self.unqueue(row.client, p)?;
        let place = Place::Flying(maker);
        self.put_page(
            p,
            row,
            PageRow {
                place,
                version,
                ..row
            },
        )?;
        self.enter()
    }

    // The page, where its write may begin.
    fn writable(&self, maker: u32, p: u64) -> Option<PageRow>
        ensures judges { (s : State) → Shows self.now s → IsSome result ↔ MayStartWrite s maker p }
        ensures row { IfSome result (λ row. get self.now.pages p ≡ Some row) }
    {
        let row = self.pages.row(p)?;
        let own = maker >= MAX_SESSIONS || row.session == maker;
        if own && row.place == Place::Dirty && self.is_newest(row.client, p) {
            Some(row)
        } else {
            None
        }
    }

    // Whether this is the newest of the client's dirty pages.
    fn is_newest(&self, client: u32, p: u64) -> bool
        ensures { (s : State) → Shows self.now s → IsTrue result ↔ IsLast p (dirty_of s client) }
    {
        match self.dirty.find(u64::from(client)) {
            Some(queue) => is_page(queue.newest(), p),
            None => false,
        }
    }

    // A page was written.
    pub(super) fn write_ok(&mut self, maker: u32, p: u64) -> Result<bool, AllocError>
        requires { IsSession maker ⊎ IsWriter maker }
        ensures { Answers self.old self.new (made maker (bare.WriteOk p)) result }
    {
        let Some(row) = self.flying(maker, p) else {
            return Ok(false);
        };
        let place = Place::Clean;
        self.put_page(p, row, PageRow { place, ..row })?;
        self.queue_clean(p)?;
        self.enter()
    }

    // A write failed: the page is dirty again.
    pub(super) fn write_failed(&mut self, maker: u32, p: u64) -> Result<bool, AllocError>
        requires { IsSession maker ⊎ IsWriter maker }
        ensures { Answers self.old self.new (made maker (bare.WriteFailed p)) result }
    {
        let Some(row) = self.flying(maker, p) else {
            return Ok(false);
        };
        self.note_failure(row.session, row.client)?;
        let place = Place::Dirty;
        self.put_page(p, row, PageRow { place, ..row })?;
        self.queue_dirty(row.client, p)?;
        self.enter()
    }

    // The page, where this maker writes it.
    fn flying(&self, maker: u32, p: u64) -> Option<PageRow>
        ensures judges { (s : State) → Shows self.now s → IsSome result ↔ MayEndWrite s maker p }
        ensures row { IfSome result (λ row. get self.now.pages p ≡ Some row) }
    {
        let row = self.pages.row(p)?;
        if row.place == Place::Flying(maker) {
            Some(row)
        } else {
            None
        }
    }

    // The clean page that has been so longest gives its blocks up.
    pub(super) fn evict(&mut self, maker: u32, p: u64) -> Result<bool, AllocError>
        requires { maker < 240 }
        ensures { Answers self.old self.new (made maker (bare.Evict p)) result }
    {
        let Some(row) = self.evictable(p) else {
            return Ok(false);
        };
        self.unqueue(row.client, p)?;
        let place = Place::Evicted;
        self.put_page(p, row, PageRow { place, ..row })?;
        self.enter()
    }

    // The page, where it may be evicted.
    fn evictable(&self, p: u64) -> Option<PageRow>
        ensures judges { (s : State) → Shows self.now s → IsSome result ↔ MayEvict s p }
        ensures row { IfSome result (λ row. get self.now.pages p ≡ Some row) }
    {
        let row = self.pages.row(p)?;
        if row.place == Place::Clean && self.is_oldest(p) {
            Some(row)
        } else {
            None
        }
    }

    // Whether this is the page that has been clean longest.
    fn is_oldest(&self, p: u64) -> bool
        ensures { (s : State) → Shows self.now s → IsTrue result ↔ IsFirst p s.clean }
    {
        is_page(self.clean.oldest(), p)
    }
}

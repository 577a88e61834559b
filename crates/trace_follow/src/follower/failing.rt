//! Failures are noted, and reads that fail.
ghost use Rattle.std.specs.Prelude.{◌≡◌, ◌≢◌, ◌<◌, ◌↔◌, OnOk, IfSome, IsSome, IsTrue, Some};
ghost use Rattle.std.specs.FinMap.{get};
ghost use Rattle.pool_model.specs.State.{State};
ghost use Rattle.trace_follow.specs.Showing.{Shows};
ghost use Rattle.trace_follow.specs.Noting.{ChangesAsked, failing, misreading, IsStale};

use super::Follower;
use crate::rows::{PageRow, Place};
use reservation_tree::Mark;
use std::alloc::AllocError;

fn differs(found: Mark, wanted: Mark) -> bool
    ensures { IsTrue result ↔ (found ≢ wanted) }
{
    found != wanted
}

impl Follower {
    ghost use Rattle.pool_model.specs.declared.bare.Bare.TheVariants as bare;
    ghost use Rattle.trace_follow.specs.Judging.{made, Answers};

    // A read ended badly: the page is evicted again.
    pub(super) fn read_failed(&mut self, maker: u32, p: u64) -> Result<bool, AllocError>
        requires { maker < 240 }
        ensures { Answers self.old self.new (made maker (bare.ReadFailed p)) result }
    {
        let Some(row) = self.loading(maker, p) else {
            return Ok(false);
        };
        self.note_failure(row.session, row.client)?;
        self.note_read(maker, p)?;
        let place = Place::Evicted;
        self.put_page(p, row, PageRow { place, ..row })?;
        self.enter()
    }

    // A read gave another block than the wanted one: the page is evicted again.
    pub(super) fn read_stale(
        &mut self,
        maker: u32,
        wanted: Mark,
        found: Mark,
    ) -> Result<bool, AllocError>
        requires { maker < 240 }
        ensures { Answers self.old self.new (made maker (bare.ReadStale wanted found)) result }
    {
        let Some(row) = self.stale(maker, wanted, found) else {
            return Ok(false);
        };
        let p = wanted.name;
        self.note_read(maker, p)?;
        let place = Place::Evicted;
        self.put_page(p, row, PageRow { place, ..row })?;
        self.enter()
    }

    // The page that the session loads, where the found mark isn't the wanted one of its last write.
    fn stale(&self, maker: u32, wanted: Mark, found: Mark) -> Option<PageRow>
        ensures judges { (s : State) → Shows self.now s → IsSome result ↔ IsStale s maker wanted found }
        ensures row { IfSome result (λ row. get self.now.pages wanted.name ≡ Some row) }
    {
        let row = self.loading(maker, wanted.name)?;
        if row.version == wanted.version && wanted.block < row.blocks && differs(found, wanted) {
            Some(row)
        } else {
            None
        }
    }

    // The failure of this entry is noted for the client, where its session has made a call.
    pub(super) fn note_failure(&mut self, session: u32, client: u32) -> Result<(), AllocError>
        ensures asked { OnOk result (ChangesAsked (failing client self.old.entries) self.old.asked self.new.asked session) }
        ensures rest { self.new ≡ record self.old { asked = self.new.asked } }
    {
        let number = self.entries;
        let Some(mut since) = self.take_asked(session) else {
            return Ok(());
        };
        since.note_failure(client, number)?;
        self.put_asked(session, since)
    }

    // The failed read of this entry is noted for the page.
    fn note_read(&mut self, maker: u32, p: u64) -> Result<(), AllocError>
        ensures asked { OnOk result (ChangesAsked (misreading p self.old.entries) self.old.asked self.new.asked maker) }
        ensures rest { self.new ≡ record self.old { asked = self.new.asked } }
    {
        let number = self.entries;
        let Some(mut since) = self.take_asked(maker) else {
            return Ok(());
        };
        since.note_read(p, number)?;
        self.put_asked(maker, since)
    }
}

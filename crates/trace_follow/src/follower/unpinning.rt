//! Pages are left by their only pin.
ghost use Rattle.std.specs.Prelude.{◌≡◌, ◌<◌, ◌↔◌, Some, OnOk, IsSome, IfSome};
ghost use Rattle.std.specs.FinMap.{get};

use super::Follower;
use crate::rows::{PageRow, Place};
use std::alloc::AllocError;

impl Follower {
    ghost use Rattle.pool_model.specs.declared.bare.Bare.TheVariants as bare;
    ghost use Rattle.pool_model.specs.State.{State};
    ghost use Rattle.trace_follow.specs.Showing.{Shows};
    ghost use Rattle.trace_follow.specs.Judging.{made, Answers};
    ghost use Rattle.trace_follow.specs.Unpinning.{CanUnpin, LendsSlots};

    // A page is left dirty by its only pin; the first time it takes slots.
    pub(super) fn unpin(&mut self, maker: u32, p: u64) -> Result<bool, AllocError>
        requires { maker < 240 }
        ensures { Answers self.old self.new (made maker (bare.Unpin p)) result }
    {
        let Some(row) = self.unpinnable(maker, p) else {
            return Ok(false);
        };
        self.lend_slots(row)?;
        let dirty = PageRow {
            has_slots: true,
            place: Place::Dirty,
            ..row
        };
        self.put_page(p, row, dirty)?;
        self.queue_dirty(row.client, p)?;
        self.enter()
    }

    // The page, where its only pin may end.
    fn unpinnable(&self, maker: u32, p: u64) -> Option<PageRow>
        ensures judges { (s : State) → Shows self.now s → IsSome result ↔ CanUnpin s maker p }
        ensures row { IfSome result (λ row. get self.now.pages p ≡ Some row) }
    {
        let row = self.own_page(maker, p)?;
        if row.place != Place::Pinned(1) {
            return None;
        }
        if row.has_slots || u64::from(row.blocks) <= self.free_slots(maker) {
            Some(row)
        } else {
            None
        }
    }

    // The page's session has lent it slots from now on.
    fn lend_slots(&mut self, row: PageRow) -> Result<(), AllocError>
        ensures { OnOk result (LendsSlots self.old self.new row) }
    {
        let with = self
            .lent(row.session)
            .checked_add(u64::from(row.blocks))
            .ok_or(AllocError)?;
        let lent = with.checked_sub(row.slots()).ok_or(AllocError)?;
        self.lent.put(u64::from(row.session), lent)
    }
}

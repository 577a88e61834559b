//! Pages are pinned, loaded and unpinned.
ghost use Rattle.std.specs.Prelude.{◌≡◌, ◌<◌, ◌↔◌, Some, IsSome, IfSome};
ghost use Rattle.std.specs.FinMap.{get};

use super::Follower;
use crate::rows::{PageRow, Place};
use std::alloc::AllocError;

impl Follower {
    ghost use Rattle.pool_model.specs.declared.bare.Bare.TheVariants as bare;
    ghost use Rattle.pool_model.specs.State.{State};
    ghost use Rattle.pool_model.specs.PageRows.{MayPinHere, MayPinLoad, MayPinAgain, MayUnpinOnce};
    ghost use Rattle.pool_model.specs.ScratchRows.{MayEndRead};
    ghost use Rattle.trace_follow.specs.Showing.{Shows};
    ghost use Rattle.trace_follow.specs.Judging.{made, Answers};

    // A dirty or clean page is pinned where it is.
    pub(super) fn pin_here(&mut self, maker: u32, p: u64) -> Result<bool, AllocError>
        requires { maker < 240 }
        ensures { Answers self.old self.new (made maker (bare.PinHere p)) result }
    {
        let Some(row) = self.pinnable(maker, p) else {
            return Ok(false);
        };
        self.unqueue(row.client, p)?;
        let place = Place::Pinned(1);
        self.put_page(p, row, PageRow { place, ..row })?;
        self.enter()
    }

    // The page, where it may be pinned without a load.
    fn pinnable(&self, maker: u32, p: u64) -> Option<PageRow>
        ensures judges { (s : State) → Shows self.now s → IsSome result ↔ MayPinHere s maker p }
        ensures row { IfSome result (λ row. get self.now.pages p ≡ Some row) }
    {
        let row = self.own_page(maker, p)?;
        let may = match row.place {
            Place::Dirty => true,
            Place::Clean => self.has_room_for(row.client, row.blocks),
            _ => false,
        };
        if may { Some(row) } else { None }
    }

    // An evicted page gets blocks, into which it is read.
    pub(super) fn pin_load(&mut self, maker: u32, p: u64) -> Result<bool, AllocError>
        requires { maker < 240 }
        ensures { Answers self.old self.new (made maker (bare.PinLoad p)) result }
    {
        let Some(row) = self.loadable(maker, p) else {
            return Ok(false);
        };
        let place = Place::Loading;
        self.put_page(p, row, PageRow { place, ..row })?;
        self.enter()
    }

    // The page, where it may be loaded.
    fn loadable(&self, maker: u32, p: u64) -> Option<PageRow>
        ensures judges { (s : State) → Shows self.now s → IsSome result ↔ MayPinLoad s maker p }
        ensures row { IfSome result (λ row. get self.now.pages p ≡ Some row) }
    {
        let row = self.own_page(maker, p)?;
        if row.place == Place::Evicted && self.can_take(row.client, row.blocks) {
            Some(row)
        } else {
            None
        }
    }

    // A page was read.
    pub(super) fn read_ok(&mut self, maker: u32, p: u64) -> Result<bool, AllocError>
        requires { maker < 240 }
        ensures { Answers self.old self.new (made maker (bare.ReadOk p)) result }
    {
        let Some(row) = self.loading(maker, p) else {
            return Ok(false);
        };
        let place = Place::Pinned(1);
        self.put_page(p, row, PageRow { place, ..row })?;
        self.enter()
    }

    // The page, where this session loads it.
    pub(super) fn loading(&self, maker: u32, p: u64) -> Option<PageRow>
        ensures judges { (s : State) → Shows self.now s → IsSome result ↔ MayEndRead s maker p }
        ensures row { IfSome result (λ row. get self.now.pages p ≡ Some row) }
    {
        let row = self.own_page(maker, p)?;
        if row.place == Place::Loading {
            Some(row)
        } else {
            None
        }
    }

    // A pinned page is pinned once more.
    pub(super) fn pin_again(&mut self, maker: u32, p: u64) -> Result<bool, AllocError>
        requires { maker < 240 }
        ensures { Answers self.old self.new (made maker (bare.PinAgain p)) result }
    {
        let Some(row) = self.pinnable_again(maker, p) else {
            return Ok(false);
        };
        let count = row.place.pins().checked_add(1).ok_or(AllocError)?;
        let place = Place::Pinned(count);
        self.put_page(p, row, PageRow { place, ..row })?;
        self.enter()
    }

    // The page, where it may be pinned once more.
    fn pinnable_again(&self, maker: u32, p: u64) -> Option<PageRow>
        ensures judges { (s : State) → Shows self.now s → IsSome result ↔ MayPinAgain s maker p }
        ensures row { IfSome result (λ row. get self.now.pages p ≡ Some row) }
    {
        let row = self.own_page(maker, p)?;
        match row.place {
            Place::Pinned(_) if self.has_room_for(row.client, row.blocks) => Some(row),
            _ => None,
        }
    }

    // One of several pins of a page ends.
    pub(super) fn unpin_once(&mut self, maker: u32, p: u64) -> Result<bool, AllocError>
        requires { maker < 240 }
        ensures { Answers self.old self.new (made maker (bare.UnpinOnce p)) result }
    {
        let Some(row) = self.pinned_more(maker, p) else {
            return Ok(false);
        };
        let count = row.place.pins().saturating_sub(1);
        let place = Place::Pinned(count);
        self.put_page(p, row, PageRow { place, ..row })?;
        self.enter()
    }

    // The page, where it has several pins.
    fn pinned_more(&self, maker: u32, p: u64) -> Option<PageRow>
        ensures judges { (s : State) → Shows self.now s → IsSome result ↔ MayUnpinOnce s maker p }
        ensures row { IfSome result (λ row. get self.now.pages p ≡ Some row) }
    {
        let row = self.own_page(maker, p)?;
        match row.place {
            Place::Pinned(count) if count >= 2 => Some(row),
            _ => None,
        }
    }
}

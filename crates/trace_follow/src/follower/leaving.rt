//! Pages and buffers that a session makes and gives up.
ghost use Rattle.std.specs.Prelude.{◌≡◌, ◌<◌, ◌↔◌, None, Some, IsSome, IfSome, IsTrue};
ghost use Rattle.std.specs.FinMap.{get};

use super::Follower;
use crate::rows::{BufferRow, PageRow, Place};
use std::alloc::AllocError;

impl Follower {
    ghost use Rattle.pool_model.specs.declared.bare.Bare.TheVariants as bare;
    ghost use Rattle.pool_model.specs.State.{State};
    ghost use Rattle.pool_model.specs.PageRows.{MayDestroy, MayAlloc, MayFree, MayMoveBuffer, MayExtract};
    ghost use Rattle.trace_follow.specs.Showing.{Shows};
    ghost use Rattle.trace_follow.specs.Judging.{made, Answers};

    // A page ends.
    pub(super) fn destroy(&mut self, maker: u32, p: u64) -> Result<bool, AllocError>
        requires { maker < 240 }
        ensures { Answers self.old self.new (made maker (bare.Destroy p)) result }
    {
        let Some(row) = self.resting(maker, p) else {
            return Ok(false);
        };
        self.unqueue(row.client, p)?;
        self.end_page(p, row)?;
        self.enter()
    }

    // The page, where no job has it.
    fn resting(&self, maker: u32, p: u64) -> Option<PageRow>
        ensures judges { (s : State) → Shows self.now s → IsSome result ↔ MayDestroy s maker p }
        ensures row { IfSome result (λ row. get self.now.pages p ≡ Some row) }
    {
        let row = self.own_page(maker, p)?;
        match row.place {
            Place::Flying(_) | Place::Loading => None,
            _ => Some(row),
        }
    }

    // A buffer is made.
    pub(super) fn alloc(
        &mut self,
        maker: u32,
        f: u32,
        client: u32,
        blocks: u32,
    ) -> Result<bool, AllocError>
        requires { maker < 240 }
        ensures { Answers self.old self.new (made maker (bare.Alloc f client blocks)) result }
    {
        if !self.may_alloc(maker, f, client, blocks) {
            return Ok(false);
        }
        self.add_buffer(f, BufferRow { client, blocks })?;
        self.enter()
    }

    fn may_alloc(&self, maker: u32, f: u32, client: u32, blocks: u32) -> bool
        ensures judges { (s : State) → Shows self.now s → IsTrue result ↔ MayAlloc s maker f client blocks }
        ensures fresh { IsTrue result → get self.now.buffers f ≡ None }
    {
        if !self.is_new(f) {
            return false;
        }
        if !self.owns_client(maker, client) {
            return false;
        }
        self.can_take(client, blocks)
    }

    // Whether no buffer has this number.
    fn is_new(&self, f: u32) -> bool
        ensures { IsTrue result ↔ (get self.now.buffers f ≡ None) }
    {
        self.buffers.row(u64::from(f)).is_none()
    }

    // A buffer ends.
    pub(super) fn free_buffer(&mut self, maker: u32, f: u32) -> Result<bool, AllocError>
        requires { maker < 240 }
        ensures { Answers self.old self.new (made maker (bare.Free f)) result }
    {
        let Some(row) = self.own_buffer(maker, f) else {
            return Ok(false);
        };
        self.end_buffer(f, row)?;
        self.enter()
    }

    // A live buffer of this session.
    fn own_buffer(&self, maker: u32, f: u32) -> Option<BufferRow>
        ensures judges { (s : State) → Shows self.now s → IsSome result ↔ MayFree s maker f }
        ensures row { IfSome result (λ row. get self.now.buffers f ≡ Some row) }
    {
        let row = self.buffers.row(u64::from(f))?;
        if self.owns_client(maker, row.client) {
            Some(row)
        } else {
            None
        }
    }

    // A buffer is charged to another client.
    pub(super) fn move_buffer(&mut self, maker: u32, f: u32, to: u32) -> Result<bool, AllocError>
        requires { maker < 240 }
        ensures { Answers self.old self.new (made maker (bare.MoveBuffer f to)) result }
    {
        let Some(row) = self.movable(maker, f, to) else {
            return Ok(false);
        };
        self.end_buffer(f, row)?;
        let blocks = row.blocks;
        self.add_buffer(f, BufferRow { client: to, blocks })?;
        self.enter()
    }

    // The buffer, where it may be charged to that client.
    fn movable(&self, maker: u32, f: u32, to: u32) -> Option<BufferRow>
        ensures judges { (s : State) → Shows self.now s → IsSome result ↔ MayMoveBuffer s maker f to }
        ensures row { IfSome result (λ row. get self.now.buffers f ≡ Some row) }
    {
        let row = self.buffers.row(u64::from(f))?;
        if row.client == to || !self.owns_client(maker, row.client) {
            return None;
        }
        if self.owns_client(maker, to) && self.has_room_for(to, row.blocks) {
            Some(row)
        } else {
            None
        }
    }

    // A pinned page ends, and its blocks are a buffer.
    pub(super) fn extract(&mut self, maker: u32, p: u64, f: u32) -> Result<bool, AllocError>
        requires { maker < 240 }
        ensures { Answers self.old self.new (made maker (bare.Extract p f)) result }
    {
        let Some(row) = self.extractable(maker, p, f) else {
            return Ok(false);
        };
        self.end_page(p, row)?;
        let (client, blocks) = (row.client, row.blocks);
        self.add_buffer(f, BufferRow { client, blocks })?;
        self.enter()
    }

    // The page, where its blocks may be this buffer.
    fn extractable(&self, maker: u32, p: u64, f: u32) -> Option<PageRow>
        ensures judges { (s : State) → Shows self.now s → IsSome result ↔ MayExtract s maker p f }
        ensures row { IfSome result (λ row. get self.now.pages p ≡ Some row) }
        ensures fresh { IfSome result (λ row. get self.now.buffers f ≡ None) }
    {
        let row = self.own_page(maker, p)?;
        if row.place == Place::Pinned(1) && self.is_new(f) {
            Some(row)
        } else {
            None
        }
    }
}

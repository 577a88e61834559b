//! Pages are made.
ghost use Rattle.std.specs.Prelude.{◌<◌, ◌↔◌, IsTrue};

use super::Follower;
use crate::rows::{PageRow, Place};
use std::alloc::AllocError;

impl Follower {
    ghost use Rattle.pool_model.specs.declared.bare.Bare.TheVariants as bare;
    ghost use Rattle.pool_model.specs.State.{State};
    ghost use Rattle.pool_model.specs.PageRows.{MayCreate};
    ghost use Rattle.trace_follow.specs.Showing.{Shows};
    ghost use Rattle.trace_follow.specs.Judging.{made, Answers};

    // A page with the next name is made.
    pub(super) fn create(
        &mut self,
        maker: u32,
        p: u64,
        client: u32,
        blocks: u32,
    ) -> Result<bool, AllocError>
        requires { maker < 240 }
        ensures { Answers self.old self.new (made maker (bare.Create p client blocks)) result }
    {
        if !self.may_create(maker, p, client, blocks) {
            return Ok(false);
        }
        let next = p.checked_add(1).ok_or(AllocError)?;
        let row = PageRow {
            session: maker,
            client,
            blocks,
            place: Place::Pinned(1),
            has_slots: false,
            version: 0,
        };
        self.add_page(p, row)?;
        self.next_name = next;
        self.enter()
    }

    fn may_create(&self, maker: u32, p: u64, client: u32, blocks: u32) -> bool
        ensures { (s : State) → Shows self.now s → IsTrue result ↔ MayCreate s maker p client blocks }
    {
        if p != self.next_name || p == u64::MAX {
            return false;
        }
        if !self.owns_client(maker, client) {
            return false;
        }
        self.can_take(client, blocks)
    }
}

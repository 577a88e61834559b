//! Calls that are refused, and unpins.
ghost use Rattle.std.specs.Prelude.{◌≡◌, ◌<◌, ◌↔◌, IsTrue, Some, false, is_some};
ghost use Rattle.std.specs.FinMap.{get};
ghost use Rattle.pool_model.specs.State.{State};
ghost use Rattle.pool_model.specs.PageRows.{MayRefuseUnpin};
ghost use Rattle.pool_model.specs.Refusals.{MayRefuse};
ghost use Rattle.trace_follow.specs.Changing.{AfterAll};
ghost use Rattle.trace_follow.specs.Showing.{Shows};
ghost use Rattle.trace_follow.specs.Wanting.{WantsRoom, Wants, IsPinnable, noted_failure, noted_read, FailedRead};

use super::Follower;
use crate::rows::{BufferRow, PageRow, Place, Want};
use pool_model::Call;
use std::alloc::AllocError;

impl Follower {
    ghost use Rattle.pool_model.specs.declared.bare.Bare.TheVariants as bare;
    ghost use Rattle.pool_model.specs.declared.call.Call.TheVariants as call;
    ghost use Rattle.trace_follow.specs.Judging.{made, Answers};

    // A page stays pinned, since it has no slots and too few are free.
    pub(super) fn unpin_refused(&mut self, maker: u32, p: u64) -> Result<bool, AllocError>
        requires { maker < 240 }
        ensures { Answers self.old self.new (made maker (bare.UnpinRefused p)) result }
    {
        if !self.may_refuse_unpin(maker, p) {
            return Ok(false);
        }
        self.enter()
    }

    fn may_refuse_unpin(&self, maker: u32, p: u64) -> bool
        ensures { (s : State) → Shows self.now s → IsTrue result ↔ MayRefuseUnpin s maker p }
    {
        let Some(row) = self.own_page(maker, p) else {
            return false;
        };
        row.place == Place::Pinned(1)
            && !row.has_slots
            && self.free_slots(maker) < u64::from(row.blocks)
    }

    // A call is refused for want of room after a failure, or for its own failed read.
    pub(super) fn refused(
        &mut self,
        maker: u32,
        call: &Call,
        entry: u64,
    ) -> Result<bool, AllocError>
        requires { maker < 240 }
        ensures { Answers self.old self.new (made maker (bare.Refused call.now entry)) result }
    {
        if !self.may_refuse(maker, call, entry) {
            return Ok(false);
        }
        self.enter()
    }

    fn may_refuse(&self, maker: u32, call: &Call, entry: u64) -> bool
        ensures { AfterAll self.now (λ h s. IsTrue result ↔ MayRefuse h s maker call.now entry) }
    {
        if !self.has_asked(maker) {
            return false;
        }
        let Some(want) = self.wants(maker, call) else {
            return false;
        };
        if self.lacks_room(maker, want, entry) {
            return true;
        }
        self.failed_to_load(maker, call, entry)
    }

    // Whether there is no room, and this is the client's first failure since the session's call.
    fn lacks_room(&self, maker: u32, want: Want, entry: u64) -> bool
        ensures { IsTrue result ↔ ((want.enabled ≡ false) × (noted_failure want.client (get self.now.asked maker) ≡ Some entry)) }
    {
        if want.enabled {
            return false;
        }
        self.failure_of(maker, want.client) == Some(entry)
    }

    // The client that an own call needs room for, and whether it has it.
    fn wants(&self, maker: u32, call: &Call) -> Option<Want>
        ensures { AfterAll self.now (λ _ s. Wants s maker call.now result) }
    {
        match call {
            Call::Pin { page } => self.wants_pin(maker, *page),
            Call::PinAgain { page } => self.wants_again(maker, *page),
            Call::Create { client, blocks } => {
                self.wants_room(maker, client.number(), self.len_of(*blocks))
            }
            Call::Alloc { client, blocks } => {
                self.wants_room(maker, client.number(), self.len_of(*blocks))
            }
            Call::GiveBack { client, bytes } => self.wants_room(maker, client.number(), *bytes),
            Call::MoveReservation { from, to, bytes } => {
                self.wants_move(maker, from.number(), to.number(), *bytes)
            }
            Call::MoveBuffer { buffer, to } => self.wants_buffer(maker, *buffer, to.number()),
        }
    }

    fn wants_pin(&self, maker: u32, p: u64) -> Option<Want>
        ensures { AfterAll self.now (λ _ s. Wants s maker (call.Pin p) result) }
    {
        let row = self.own_page(maker, p)?;
        let enabled = self.can_be_pinned(row);
        Some(Want {
            client: row.client,
            enabled,
        })
    }

    fn can_be_pinned(&self, row: PageRow) -> bool
        ensures { (s : State) → Shows self.now s → IsTrue result ↔ IsPinnable s row }
    {
        if row.place.is_held_unpinned() {
            return true;
        }
        self.has_room(row.client, self.len_of(row.blocks))
    }

    fn wants_again(&self, maker: u32, p: u64) -> Option<Want>
        ensures { AfterAll self.now (λ _ s. Wants s maker (call.PinAgain p) result) }
    {
        let row = self.own_page(maker, p)?;
        let enabled = self.has_room(row.client, self.len_of(row.blocks));
        Some(Want {
            client: row.client,
            enabled,
        })
    }

    fn wants_room(&self, maker: u32, c: u32, bytes: u64) -> Option<Want>
        ensures { (s : State) → Shows self.now s → WantsRoom s maker c bytes result }
    {
        if !self.owns_client(maker, c) {
            return None;
        }
        Some(Want {
            client: c,
            enabled: self.has_room(c, bytes),
        })
    }

    fn wants_move(&self, maker: u32, from: u32, to: u32, bytes: u64) -> Option<Want>
        ensures { AfterAll self.now (λ _ s. Wants s maker (call.MoveReservation from to bytes) result) }
    {
        if !self.owns_tracker(maker, to) {
            return None;
        }
        self.wants_room(maker, from, bytes)
    }

    fn wants_buffer(&self, maker: u32, f: u32, to: u32) -> Option<Want>
        ensures { AfterAll self.now (λ _ s. Wants s maker (call.MoveBuffer f to) result) }
    {
        let row = self.buffer(f)?;
        if !self.owns_client(maker, row.client) {
            return None;
        }
        self.wants_room(maker, to, self.len_of(row.blocks))
    }

    // Whether the call is a pin, and its last read since the session's call failed at this entry.
    fn failed_to_load(&self, maker: u32, call: &Call, entry: u64) -> bool
        ensures { IsTrue result ↔ FailedRead (get self.now.asked maker) call.now entry }
    {
        match call {
            Call::Pin { page } => self.read_of(maker, *page) == Some(entry),
            _ => false,
        }
    }

    fn has_asked(&self, maker: u32) -> bool
        ensures { result ≡ is_some (get self.now.asked maker) }
    {
        self.asked.holds(u64::from(maker))
    }

    fn failure_of(&self, maker: u32, c: u32) -> Option<u64>
        ensures { result ≡ noted_failure c (get self.now.asked maker) }
    {
        match self.asked.find(u64::from(maker)) {
            Some(since) => since.failures.row(u64::from(c)),
            None => None,
        }
    }

    fn read_of(&self, maker: u32, p: u64) -> Option<u64>
        ensures { result ≡ noted_read p (get self.now.asked maker) }
    {
        match self.asked.find(u64::from(maker)) {
            Some(since) => since.reads.row(p),
            None => None,
        }
    }

    pub(super) fn buffer(&self, f: u32) -> Option<BufferRow>
        ensures { result ≡ get self.now.buffers f }
    {
        self.buffers.row(u64::from(f))
    }
}

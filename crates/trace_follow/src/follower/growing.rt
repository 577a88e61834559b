//! Reservations that grow, fall and move.
ghost use Rattle.std.specs.Prelude.{◌≡◌, ◌<◌, ◌≤◌, ◌↔◌, ◌⊎◌, IsTrue, OnOk};
ghost use Rattle.reservation_tree.specs.Tracker.{room_of};
ghost use Rattle.pool_model.specs.Owning.{IsQueryOf};
ghost use Rattle.trace_follow.specs.Changing.{Carries};

use super::Follower;
use std::alloc::AllocError;

impl Follower {
    ghost use Rattle.pool_model.specs.declared.bare.Bare.TheVariants as bare;
    ghost use Rattle.pool_model.specs.State.{State};
    ghost use Rattle.pool_model.specs.TrackerRows.{MayIncrease, MayDecrease, MayMoveReservation};
    ghost use Rattle.pool_model.specs.Sound.{IsSound};
    ghost use Rattle.trace_follow.specs.Showing.{Shows};
    ghost use Rattle.trace_follow.specs.Judging.{made, Answers};

    pub(super) fn increase(&mut self, maker: u32, t: u32, bytes: u64) -> Result<bool, AllocError>
        requires { maker < 240 }
        ensures { Answers self.old self.new (made maker (bare.Increase t bytes)) result }
    {
        if !self.may_increase(maker, t, bytes) {
            return Ok(false);
        }
        self.grow(t, bytes)?;
        self.enter()
    }

    fn may_increase(&self, maker: u32, t: u32, bytes: u64) -> bool
        ensures { (s : State) → Shows self.now s → IsSound s → IsTrue result ↔ MayIncrease s maker t bytes }
    {
        self.owns_tracker(maker, t) && self.can_grow(t, bytes)
    }

    pub(super) fn increase_to_fit(
        &mut self,
        maker: u32,
        t: u32,
        bytes: u64,
    ) -> Result<bool, AllocError>
        requires { maker < 240 }
        ensures { Answers self.old self.new (made maker (bare.IncreaseToFit t bytes)) result }
    {
        let lacking = self.lacking(t, bytes);
        if !self.may_increase(maker, t, lacking) {
            return Ok(false);
        }
        self.grow(t, lacking)?;
        self.enter()
    }

    pub(super) fn decrease(&mut self, maker: u32, t: u32, bytes: u64) -> Result<bool, AllocError>
        requires { maker < 240 }
        ensures { Answers self.old self.new (made maker (bare.Decrease t bytes)) result }
    {
        if !self.may_decrease(maker, t, bytes) {
            return Ok(false);
        }
        self.shrink(t, bytes)?;
        self.enter()
    }

    fn may_decrease(&self, maker: u32, t: u32, bytes: u64) -> bool
        ensures { (s : State) → Shows self.now s → IsSound s → IsTrue result ↔ MayDecrease s maker t bytes }
    {
        self.owns_tracker(maker, t) && self.can_lose(t, bytes)
    }

    pub(super) fn move_reservation(
        &mut self,
        maker: u32,
        from: u32,
        to: u32,
        bytes: u64,
    ) -> Result<bool, AllocError>
        requires { maker < 240 }
        ensures { Answers self.old self.new (made maker (bare.MoveReservation from to bytes)) result }
    {
        if !self.may_move(maker, from, to, bytes) {
            return Ok(false);
        }
        self.carry(maker, from, to, bytes)?;
        self.enter()
    }

    fn may_move(&self, maker: u32, from: u32, to: u32, bytes: u64) -> bool
        ensures { (s : State) → Shows self.now s → IsSound s → IsTrue result ↔ MayMoveReservation s maker from to bytes }
    {
        if !self.owns_tracker(maker, from) {
            return false;
        }
        if !self.owns_tracker(maker, to) {
            return false;
        }
        if !self.can_lose(from, bytes) {
            return false;
        }
        self.can_arrive(maker, from, to, bytes)
    }

    // Whether the limit of the second tracker doesn't refuse. A query has what its clients have.
    fn can_arrive(&self, maker: u32, from: u32, to: u32, bytes: u64) -> bool
        ensures { (s : State) → Shows self.now s → IsTrue result ↔ ((from ≡ to) ⊎ IsQueryOf s maker to ⊎ (bytes ≤ room_of s.trackers to)) }
    {
        from == to || self.owns_query(maker, to) || bytes <= self.room(to)
    }

    // Takes the bytes from the one and gives them to the other. What a query has of its clients stays.
    fn carry(&mut self, maker: u32, from: u32, to: u32, bytes: u64) -> Result<(), AllocError>
        ensures shows { OnOk result (Carries self.old self.new maker bytes from to) }
        ensures rest { self.new ≡ record self.old { trackers = self.new.trackers; unders = self.new.unders } }
    {
        if from == to {
            return Ok(());
        }
        if self.owns_query(maker, to) {
            return self.lower(from, bytes);
        }
        if self.owns_query(maker, from) {
            return self.raise(to, bytes);
        }
        self.lower(from, bytes)?;
        self.raise(to, bytes)
    }
}

//! Trackers that come, and sessions with them.
ghost use Rattle.std.specs.Prelude.{◌≡◌, ◌+◌, ◌<◌, ◌↔◌, [], IsTrue, OnOk, None};
ghost use Rattle.std.specs.FinMap.{insert};
ghost use Rattle.reservation_tree.specs.Tracker.{Trackers, depth_of};
ghost use Rattle.pool_model.specs.State.{State};
ghost use Rattle.pool_model.specs.TrackerRows.{MayOpenSession, MayAddClient};
ghost use Rattle.trace_follow.specs.Changing.{set_tracker, set_under, seated, Adds};
ghost use Rattle.trace_follow.specs.Rows.{under_at};
ghost use Rattle.trace_follow.specs.Showing.{ShowsTrackers, Shows};

use super::Follower;
use crate::queue::Queue;
use crate::rows::{SessionRow, TrackerRow};
use std::alloc::AllocError;

impl Follower {
    ghost use Rattle.pool_model.specs.declared.bare.Bare.TheVariants as bare;
    ghost use Rattle.std.specs.Prelude.{Some};
    ghost use Rattle.trace_follow.specs.Judging.{made, Answers};

    pub(super) fn open_session(
        &mut self,
        maker: u32,
        t: u32,
        parent: u32,
        limit: u64,
        quota: u32,
    ) -> Result<bool, AllocError>
        requires { maker < 240 }
        ensures { Answers self.old self.new (made maker (bare.AddTracker t parent limit (Some quota))) result }
    {
        if !self.may_open(maker, t, parent) {
            return Ok(false);
        }
        self.add_tracker(t, 0, limit)?;
        self.seat(maker, t, quota)?;
        self.enter()
    }

    fn may_open(&self, maker: u32, t: u32, parent: u32) -> bool
        ensures { (s : State) → Shows self.now s → IsTrue result ↔ MayOpenSession s maker t parent }
    {
        parent == 0 && self.tracker(t).is_none() && self.session(maker).is_none()
    }

    // A session comes that has made no call.
    fn seat(&mut self, maker: u32, query: u32, quota: u32) -> Result<(), AllocError>
        ensures ok { OnOk result (self.new ≡ seated maker query quota self.old) }
    {
        self.sessions
            .put(u64::from(maker), SessionRow { query, quota })?;
        self.asked.take(u64::from(maker));
        Ok(())
    }

    pub(super) fn add_client(
        &mut self,
        maker: u32,
        t: u32,
        parent: u32,
        limit: u64,
    ) -> Result<bool, AllocError>
        requires { maker < 240 }
        ensures { Answers self.old self.new (made maker (bare.AddTracker t parent limit None)) result }
    {
        if !self.may_add(maker, t, parent) {
            return Ok(false);
        }
        self.add_tracker(t, parent, limit)?;
        self.begin_queue(t)?;
        self.enter()
    }

    fn begin_queue(&mut self, c: u32) -> Result<(), AllocError>
        ensures { OnOk result (self.new ≡ record self.old { dirty = insert self.old.dirty c [] }) }
    {
        let queue = Queue::new(self.alloc);
        self.dirty.put(u64::from(c), queue)
    }

    fn may_add(&self, maker: u32, t: u32, parent: u32) -> bool
        ensures { (s : State) → Shows self.now s → IsTrue result ↔ MayAddClient s maker t parent }
    {
        match self.tracker(t) {
            Some(_) => false,
            None => self.owns_query(maker, parent),
        }
    }

    // A tracker comes under a live one.
    fn add_tracker(&mut self, t: u32, parent: u32, limit: u64) -> Result<(), AllocError>
        ensures shows { OnOk result (Adds self.old self.new t parent limit) }
        ensures rest { self.new ≡ record self.old { trackers = self.new.trackers; unders = self.new.unders } }
    {
        let depth = self.depth(parent);
        self.put_child(t, parent, depth, limit)?;
        self.count_under(parent)
    }

    fn put_child(&mut self, t: u32, parent: u32, above: u64, limit: u64) -> Result<(), AllocError>
        ensures ok { OnOk result (self.new ≡ set_tracker t (record { parent = Some parent; depth = above + 1; limit = limit; reservation = 0 }) self.old) }
        ensures rest { self.new ≡ record self.old { trackers = self.new.trackers; unders = self.new.unders } }
    {
        let row = TrackerRow {
            parent: Some(parent),
            depth: above.checked_add(1).ok_or(AllocError)?,
            limit,
            reservation: 0,
        };
        self.trackers.put(u64::from(t), row)
    }

    fn depth(&self, t: u32) -> u64
        ensures { (ts : Trackers) → ShowsTrackers self.now.trackers self.now.unders ts → result ≡ depth_of ts t }
    {
        match self.tracker(t) {
            Some(row) => row.depth,
            None => 0,
        }
    }

    fn count_under(&mut self, p: u32) -> Result<(), AllocError>
        ensures ok { OnOk result (let under = under_at self.old.unders p in self.new ≡ set_under p (record under { count = under.count + 1 }) self.old) }
        ensures rest { self.new ≡ record self.old { trackers = self.new.trackers; unders = self.new.unders } }
    {
        let mut under = self.under(p);
        under.count = under.count.checked_add(1).ok_or(AllocError)?;
        self.unders.put(u64::from(p), under)
    }
}

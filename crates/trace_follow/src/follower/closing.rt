//! Trackers that end, and sessions with them.
ghost use Rattle.std.specs.Prelude.{◌≡◌, ◌-◌, ◌<◌, ◌↔◌, IsTrue, OnOk};
ghost use Rattle.std.specs.FinMap.{remove};
ghost use Rattle.pool_model.specs.State.{State};
ghost use Rattle.pool_model.specs.TrackerRows.{MayCloseTracker};
ghost use Rattle.trace_follow.specs.Changing.{set_under, Drops};
ghost use Rattle.trace_follow.specs.Rows.{under_at};
ghost use Rattle.trace_follow.specs.Showing.{Shows};
ghost use Rattle.trace_follow.specs.Looking.{HasNothing, ForgetsClient};

use super::Follower;
use std::alloc::AllocError;

impl Follower {
    ghost use Rattle.pool_model.specs.declared.bare.Bare.TheVariants as bare;
    ghost use Rattle.trace_follow.specs.Judging.{made, Answers};

    pub(super) fn close_tracker(&mut self, maker: u32, t: u32) -> Result<bool, AllocError>
        requires { maker < 240 }
        ensures { Answers self.old self.new (made maker (bare.CloseTracker t)) result }
    {
        if !self.may_close(maker, t) {
            return Ok(false);
        }
        let is_query = self.owns_query(maker, t);
        self.drop_tracker(t)?;
        self.drop_things(t);
        if is_query {
            self.drop_session(maker);
            return self.enter();
        }
        self.forget_client(maker, t)?;
        self.enter()
    }

    fn may_close(&self, maker: u32, t: u32) -> bool
        ensures { (s : State) → Shows self.now s → IsTrue result ↔ MayCloseTracker s maker t }
    {
        if !self.owns_tracker(maker, t) {
            return false;
        }
        self.has_nothing(t)
    }

    // Whether nothing is reserved, and nothing stands under it.
    fn has_nothing(&self, t: u32) -> bool
        ensures { (s : State) → Shows self.now s → IsTrue result ↔ HasNothing s t }
    {
        self.reservation(t) == 0 && self.under(t).count == 0 && self.load(t).count == 0
    }

    fn drop_tracker(&mut self, t: u32) -> Result<(), AllocError>
        ensures shows { OnOk result (Drops self.old self.new t) }
        ensures rest { self.new ≡ record self.old { trackers = self.new.trackers; unders = self.new.unders } }
    {
        let parent = self.parent(t);
        self.uncount_under(parent)?;
        self.drop_rows(t);
        Ok(())
    }

    fn uncount_under(&mut self, p: u32) -> Result<(), AllocError>
        ensures ok { OnOk result (let under = under_at self.old.unders p in self.new ≡ set_under p (record under { count = under.count - 1 }) self.old) }
        ensures rest { self.new ≡ record self.old { trackers = self.new.trackers; unders = self.new.unders } }
    {
        let mut under = self.under(p);
        under.count = under.count.saturating_sub(1);
        self.unders.put(u64::from(p), under)
    }

    fn drop_rows(&mut self, t: u32)
        ensures { self.new ≡ record self.old { trackers = remove self.old.trackers t; unders = remove self.old.unders t } }
    {
        self.trackers.take(u64::from(t));
        self.unders.take(u64::from(t));
    }

    fn drop_things(&mut self, t: u32)
        ensures { self.new ≡ record self.old { loads = remove self.old.loads t; dirty = remove self.old.dirty t } }
    {
        self.loads.take(u64::from(t));
        self.dirty.take(u64::from(t));
    }

    fn drop_session(&mut self, maker: u32)
        ensures { self.new ≡ record self.old { sessions = remove self.old.sessions maker } }
    {
        self.sessions.take(u64::from(maker));
    }

    // What is kept of the client's failures goes.
    fn forget_client(&mut self, maker: u32, c: u32) -> Result<(), AllocError>
        ensures asked { OnOk result (ForgetsClient self.old.asked self.new.asked maker c) }
        ensures rest { self.new ≡ record self.old { asked = self.new.asked } }
    {
        let Some(mut since) = self.take_asked(maker) else {
            return Ok(());
        };
        since.forget(c);
        self.put_asked(maker, since)
    }
}

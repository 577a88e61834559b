//! What an event asks of what is live.
ghost use Rattle.std.specs.Prelude.{◌≡◌, ◌-◌, ◌*◌, ◌↔◌, IsTrue};
ghost use Rattle.std.specs.FinMap.{get};
ghost use Rattle.trace_follow.specs.Tables.{amount_at};
ghost use Rattle.pool_model.specs.State.{State};
ghost use Rattle.pool_model.specs.Owning.{IsQueryOf, IsClientOf, IsTrackerOf};
ghost use Rattle.trace_follow.specs.Showing.{Shows};
ghost use Rattle.trace_follow.specs.Looking.{own_row, quota_in};

use super::Follower;
use crate::rows::{BufferRow, PageRow, SessionRow, TrackerRow};

impl Follower {
    pub(super) fn tracker(&self, t: u32) -> Option<TrackerRow>
        ensures { result ≡ get self.now.trackers t }
    {
        self.trackers.row(u64::from(t))
    }

    pub(super) fn session(&self, maker: u32) -> Option<SessionRow>
        ensures { result ≡ get self.now.sessions maker }
    {
        self.sessions.row(u64::from(maker))
    }

    // A live page of this session.
    pub(super) fn own_page(&self, maker: u32, p: u64) -> Option<PageRow>
        ensures { result ≡ own_row maker (get self.now.pages p) }
    {
        match self.pages.row(p) {
            Some(row) if row.session == maker => Some(row),
            _ => None,
        }
    }

    // Whether this is a client of the session.
    pub(super) fn owns_client(&self, maker: u32, c: u32) -> bool
        ensures { (s : State) → Shows self.now s → IsTrue result ↔ IsClientOf s maker c }
    {
        let Some(session) = self.session(maker) else {
            return false;
        };
        let Some(row) = self.tracker(c) else {
            return false;
        };
        match row.parent {
            Some(parent) => parent == session.query,
            None => false,
        }
    }

    // Whether this is the session's query tracker.
    pub(super) fn owns_query(&self, maker: u32, t: u32) -> bool
        ensures { (s : State) → Shows self.now s → IsTrue result ↔ IsQueryOf s maker t }
    {
        match self.session(maker) {
            Some(session) => session.query == t,
            None => false,
        }
    }

    // Whether this is a tracker of the session.
    pub(super) fn owns_tracker(&self, maker: u32, t: u32) -> bool
        ensures { (s : State) → Shows self.now s → IsTrue result ↔ IsTrackerOf s maker t }
    {
        self.owns_query(maker, t) || self.owns_client(maker, t)
    }

    // The slots that the session may still take.
    pub(super) fn free_slots(&self, maker: u32) -> u64
        ensures { result ≡ quota_in (get self.now.sessions maker) - amount_at self.now.lent maker }
    {
        let quota = match self.session(maker) {
            Some(session) => u64::from(session.quota),
            None => 0,
        };
        quota.saturating_sub(self.lent.row(u64::from(maker)).unwrap_or(0))
    }

    // The bytes of so many blocks.
    pub(super) fn len_of(&self, blocks: u32) -> u64
        ensures { result ≡ blocks * self.now.block_len }
    {
        u64::from(blocks) * u64::from(self.block_len)
    }
}

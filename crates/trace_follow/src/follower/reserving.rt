//! Reservations change along the tree: growths and rises from the top down, falls from below.
ghost use Rattle.std.specs.Prelude.{◌≡◌, ◌+◌, ◌-◌, ◌≤◌, ◌↔◌, IsTrue, OnOk};
ghost use Rattle.reservation_tree.specs.Tracker.{reservation_of, room_of, unused, parent_of};
ghost use Rattle.reservation_tree.specs.Change.{raise, lower, grow, shrink, lacking};
ghost use Rattle.pool_model.specs.State.{State};
ghost use Rattle.pool_model.specs.Sums.{charge_of, held_by};
ghost use Rattle.trace_follow.specs.Changing.{set_tracker, set_under, Raises, Lowers, Grows, Shrinks};
ghost use Rattle.trace_follow.specs.Looking.{GrowsWithin, IsSpare};
ghost use Rattle.trace_follow.specs.Rows.{under_at, load_at};
ghost use Rattle.trace_follow.specs.Showing.{Shows};

use super::Follower;
use crate::rows::{Load, TrackerRow, Under};
use std::alloc::AllocError;

impl Follower {
    pub(super) fn under(&self, t: u32) -> Under
        ensures { result ≡ under_at self.now.unders t }
    {
        self.unders
            .row(u64::from(t))
            .unwrap_or(Under { bytes: 0, count: 0 })
    }

    fn add_reserved(&mut self, t: u32, row: TrackerRow, bytes: u64) -> Result<(), AllocError>
        ensures ok { OnOk result (self.new ≡ set_tracker t (record row { reservation = row.reservation + bytes }) self.old) }
        ensures rest { self.new ≡ record self.old { trackers = self.new.trackers; unders = self.new.unders } }
    {
        let reservation = row.reservation.checked_add(bytes).ok_or(AllocError)?;
        self.trackers
            .put(u64::from(t), TrackerRow { reservation, ..row })
    }

    fn take_reserved(&mut self, t: u32, row: TrackerRow, bytes: u64) -> Result<(), AllocError>
        ensures ok { OnOk result (self.new ≡ set_tracker t (record row { reservation = row.reservation - bytes }) self.old) }
        ensures rest { self.new ≡ record self.old { trackers = self.new.trackers; unders = self.new.unders } }
    {
        let reservation = row.reservation.saturating_sub(bytes);
        self.trackers
            .put(u64::from(t), TrackerRow { reservation, ..row })
    }

    fn add_under(&mut self, p: u32, bytes: u64) -> Result<(), AllocError>
        ensures ok { OnOk result (let under = under_at self.old.unders p in self.new ≡ set_under p (record under { bytes = under.bytes + bytes }) self.old) }
        ensures rest { self.new ≡ record self.old { trackers = self.new.trackers; unders = self.new.unders } }
    {
        let mut under = self.under(p);
        under.bytes = under.bytes.checked_add(bytes).ok_or(AllocError)?;
        self.unders.put(u64::from(p), under)
    }

    fn take_under(&mut self, p: u32, bytes: u64) -> Result<(), AllocError>
        ensures ok { OnOk result (let under = under_at self.old.unders p in self.new ≡ set_under p (record under { bytes = under.bytes - bytes }) self.old) }
        ensures rest { self.new ≡ record self.old { trackers = self.new.trackers; unders = self.new.unders } }
    {
        let mut under = self.under(p);
        under.bytes = under.bytes.saturating_sub(bytes);
        self.unders.put(u64::from(p), under)
    }

    // The reservation rises, and with it what the parent gave.
    pub(super) fn raise(&mut self, t: u32, bytes: u64) -> Result<(), AllocError>
        ensures shows { OnOk result (Raises self.old self.new bytes t) }
        ensures rest { self.new ≡ record self.old { trackers = self.new.trackers; unders = self.new.unders } }
    {
        let Some(row) = self.tracker(t) else {
            return Ok(());
        };
        self.add_reserved(t, row, bytes)?;
        match row.parent {
            Some(parent) => self.add_under(parent, bytes),
            None => Ok(()),
        }
    }

    // The reservation falls, and with it what the parent gave.
    pub(super) fn lower(&mut self, t: u32, bytes: u64) -> Result<(), AllocError>
        ensures shows { OnOk result (Lowers self.old self.new bytes t) }
        ensures rest { self.new ≡ record self.old { trackers = self.new.trackers; unders = self.new.unders } }
    {
        let Some(row) = self.tracker(t) else {
            return Ok(());
        };
        self.take_reserved(t, row, bytes)?;
        match row.parent {
            Some(parent) => self.take_under(parent, bytes),
            None => Ok(()),
        }
    }

    // The tracker grows, and each above it by what its unused bytes don't cover.
    pub(super) fn grow(&mut self, t: u32, bytes: u64) -> Result<(), AllocError>
        ensures shows { OnOk result (Grows self.old self.new bytes t) }
        ensures rest { self.new ≡ record self.old { trackers = self.new.trackers; unders = self.new.unders } }
    {
        let parent = self.parent(t);
        let above = bytes.saturating_sub(self.unused(parent));
        if parent == 0 {
            self.raise(0, above)?;
            return self.raise(t, bytes);
        }
        let top = above.saturating_sub(self.unused(0));
        self.raise(0, top)?;
        self.raise(parent, above)?;
        self.raise(t, bytes)
    }

    // Whether no limit refuses that.
    pub(super) fn can_grow(&self, t: u32, bytes: u64) -> bool
        ensures { (s : State) → Shows self.now s → IsTrue result ↔ GrowsWithin (charge_of s) s.trackers t bytes }
    {
        let parent = self.parent(t);
        let above = bytes.saturating_sub(self.unused(parent));
        let top = above.saturating_sub(self.unused(0));
        bytes <= self.room(t) && above <= self.room(parent) && (parent == 0 || top <= self.room(0))
    }

    // The tracker and all above it fall.
    pub(super) fn shrink(&mut self, t: u32, bytes: u64) -> Result<(), AllocError>
        ensures shows { OnOk result (Shrinks self.old self.new bytes t) }
        ensures rest { self.new ≡ record self.old { trackers = self.new.trackers; unders = self.new.unders } }
    {
        let parent = self.parent(t);
        if parent == 0 {
            self.lower(t, bytes)?;
            return self.lower(0, bytes);
        }
        self.lower(t, bytes)?;
        self.lower(parent, bytes)?;
        self.lower(0, bytes)
    }

    // Whether the tracker doesn't need so many bytes.
    pub(super) fn can_lose(&self, t: u32, bytes: u64) -> bool
        ensures { (s : State) → Shows self.now s → IsTrue result ↔ IsSpare s t bytes }
    {
        bytes <= self.unused(t) && self.has_room(t, bytes)
    }

    // Whether so much more can be held.
    pub(super) fn has_room(&self, t: u32, bytes: u64) -> bool
        ensures { (s : State) → Shows self.now s → IsTrue result ↔ (bytes ≤ reservation_of s.trackers t - held_by s t) }
    {
        bytes <= self.reservation(t).saturating_sub(self.load(t).held)
    }

    pub(super) fn load(&self, t: u32) -> Load
        ensures { result ≡ load_at self.now.loads t }
    {
        self.loads.row(u64::from(t)).unwrap_or(Load {
            charge: 0,
            held: 0,
            count: 0,
        })
    }

    pub(super) fn reservation(&self, t: u32) -> u64
        ensures { (s : State) → Shows self.now s → result ≡ reservation_of s.trackers t }
    {
        match self.tracker(t) {
            Some(row) => row.reservation,
            None => 0,
        }
    }

    // What the reservation may still rise by.
    pub(super) fn room(&self, t: u32) -> u64
        ensures { (s : State) → Shows self.now s → result ≡ room_of s.trackers t }
    {
        match self.tracker(t) {
            Some(row) => row.limit.saturating_sub(row.reservation),
            None => 0,
        }
    }

    // The tracker above, and for the root the root.
    pub(super) fn parent(&self, t: u32) -> u32
        ensures { (s : State) → Shows self.now s → result ≡ parent_of s.trackers t }
    {
        match self.tracker(t) {
            Some(row) => row.parent.unwrap_or(0),
            None => 0,
        }
    }

    // What is to be added until so much is unused.
    pub(super) fn lacking(&self, t: u32, bytes: u64) -> u64
        ensures { (s : State) → Shows self.now s → result ≡ lacking (charge_of s) bytes t s.trackers }
    {
        bytes.saturating_sub(self.unused(t))
    }

    // What of the reservation is neither charged nor the children's.
    fn unused(&self, t: u32) -> u64
        ensures { (s : State) → Shows self.now s → result ≡ unused (charge_of s) s.trackers t }
    {
        self.reservation(t)
            .saturating_sub(self.load(t).charge)
            .saturating_sub(self.under(t).bytes)
    }
}

//! The events of trackers over plain maps.

use crate::Event;
use crate::tests::plain_pool::{PlainPool, Session, Tracker};
use std::alloc::AllocError;

impl PlainPool {
    pub fn allows_trackers(&self, maker: u32, event: &Event) -> bool {
        match event {
            Event::Ask => true,
            Event::AddTracker {
                tracker,
                parent,
                quota,
                ..
            } => {
                let fresh = !self.trackers.contains_key(&tracker.number());
                let session = self.sessions.get(&maker);
                fresh
                    && match quota {
                        Some(_) => parent.number() == 0 && session.is_none(),
                        None => session.is_some_and(|x| x.query == parent.number()),
                    }
            }
            Event::CloseTracker { tracker } => {
                let t = tracker.number();
                self.owns(maker, t)
                    && self.reservation(t) == 0
                    && !self.has_child(t)
                    && !self.has_things(t)
            }
            Event::Increase { tracker, bytes } => {
                let t = tracker.number();
                self.owns(maker, t) && self.growth(t, *bytes).is_some()
            }
            Event::IncreaseToFit { tracker, bytes } => {
                let t = tracker.number();
                self.owns(maker, t)
                    && self
                        .growth(t, bytes.saturating_sub(self.unused(t)))
                        .is_some()
            }
            Event::Decrease { tracker, bytes } => self.can_lose(maker, tracker.number(), *bytes),
            Event::MoveReservation { from, to, bytes } => {
                self.can_lose(maker, from.number(), *bytes)
                    && self.can_gain(maker, from.number(), to.number(), *bytes)
            }
            _ => false,
        }
    }

    pub fn take_trackers(&mut self, maker: u32, event: &Event) -> Result<(), AllocError> {
        match event {
            Event::Ask => {
                let number = self.entries;
                if let Some(session) = self.sessions.get_mut(&maker) {
                    session.asked = Some(number);
                }
            }
            Event::AddTracker {
                tracker,
                parent,
                limit,
                quota,
            } => {
                let new = Tracker {
                    parent: Some(parent.number()),
                    limit: *limit,
                    reservation: 0,
                };
                self.trackers.insert(tracker.number(), new)?;
                if let Some(quota) = quota {
                    self.open_session(maker, tracker.number(), *quota)?;
                }
            }
            Event::CloseTracker { tracker } => {
                let t = tracker.number();
                self.trackers.remove(&t);
                if self.sessions.get(&maker).is_some_and(|x| x.query == t) {
                    self.sessions.remove(&maker);
                }
            }
            Event::Increase { tracker, bytes } => self.increase(tracker.number(), *bytes),
            Event::IncreaseToFit { tracker, bytes } => {
                let t = tracker.number();
                self.increase(t, bytes.saturating_sub(self.unused(t)));
            }
            Event::Decrease { tracker, bytes } => self.decrease(tracker.number(), *bytes),
            Event::MoveReservation { from, to, bytes } => {
                if self.is_client_of(maker, from.number()) {
                    self.fall(from.number(), *bytes);
                }
                if self.is_client_of(maker, to.number()) {
                    self.rise(to.number(), *bytes);
                }
            }
            _ => {}
        }
        Ok(())
    }

    fn can_lose(&self, maker: u32, t: u32, bytes: u64) -> bool {
        self.owns(maker, t)
            && bytes <= self.unused(t)
            && (!self.is_client_of(maker, t) || self.has_room(t, bytes))
    }

    // A move from one tracker of a session to another: two clients, or a client and the query's tracker.
    fn can_gain(&self, maker: u32, from: u32, to: u32, bytes: u64) -> bool {
        let rises = from != to && self.is_client_of(maker, to);
        let room = self
            .trackers
            .get(&to)
            .map_or(0, |x| x.limit.saturating_sub(x.reservation));
        self.owns(maker, to) && (!rises || bytes <= room)
    }

    fn open_session(&mut self, maker: u32, query: u32, quota: u32) -> Result<(), AllocError> {
        let session = Session {
            query,
            quota,
            asked: None,
        };
        self.sessions.insert(maker, session)?;
        Ok(())
    }

    fn decrease(&mut self, t: u32, bytes: u64) {
        let query = self.trackers.get(&t).and_then(|x| x.parent);
        self.fall(t, bytes);
        if let Some(query) = query {
            self.fall(query, bytes);
            if query != 0 {
                self.fall(0, bytes);
            }
        }
    }

    fn increase(&mut self, t: u32, bytes: u64) {
        if let Some(rises) = self.growth(t, bytes) {
            for (at, growth) in rises {
                self.rise(at, growth);
            }
        }
    }
}

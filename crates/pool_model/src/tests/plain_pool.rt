//! The state of a pool over plain maps: what the tests follow the worked histories with.

use std::alloc::{AllocError, Global};
use std::collections::BTreeMap;

#[derive(Clone, Copy, Debug, PartialEq, Eq)]
pub enum Place {
    /// With so many pins.
    Pinned(u32),
    Dirty,
    Flying(u32),
    Loading,
    Clean,
    Evicted,
}

#[derive(Clone, Copy)]
pub struct Tracker {
    pub parent: Option<u32>,
    pub limit: u64,
    pub reservation: u64,
}

#[derive(Clone, Copy)]
pub struct Page {
    pub session: u32,
    pub client: u32,
    pub blocks: u32,
    pub place: Place,
    pub has_slots: bool,
    /// The number of the entry by which its last write began.
    pub version: u64,
}

#[derive(Clone, Copy)]
pub struct Buffer {
    pub client: u32,
    pub blocks: u32,
}

#[derive(Clone, Copy)]
pub struct Session {
    pub query: u32,
    pub quota: u32,
    /// The number of its last Ask.
    pub asked: Option<u64>,
}

/// A write or a read that failed, or a read that gave another block.
#[derive(Clone, Copy)]
pub struct Failure {
    pub entry: u64,
    pub maker: u32,
    pub page: u64,
    pub client: u32,
    pub kind: Kind,
}

/// What went wrong. A stale read is no failure, but a pin is refused for it.
#[derive(Clone, Copy, PartialEq, Eq)]
pub enum Kind {
    Write,
    Read,
    Stale,
}

#[derive(Drop)]
pub struct PlainPool {
    pub block_len: u64,
    pub memory: u64,
    pub trackers: BTreeMap<u32, Tracker>,
    pub sessions: BTreeMap<u32, Session>,
    pub pages: BTreeMap<u64, Page>,
    pub buffers: BTreeMap<u32, Buffer>,
    /// Dirty pages, and clean ones, the one that waits longest first.
    pub dirty: Vec<u64>,
    pub clean: Vec<u64>,
    pub failures: Vec<Failure>,
    pub next_name: u64,
    pub entries: u64,
}

impl PlainPool {
    pub fn open(alloc: Global, blocks: u32, block_len: u64) -> Result<PlainPool, AllocError> {
        let memory = u64::from(blocks).saturating_mul(block_len);
        let mut trackers = BTreeMap::new(alloc);
        let root = Tracker {
            parent: None,
            limit: memory,
            reservation: 0,
        };
        trackers.insert(0, root)?;
        Ok(PlainPool {
            block_len,
            memory,
            trackers,
            sessions: BTreeMap::new(alloc),
            pages: BTreeMap::new(alloc),
            buffers: BTreeMap::new(alloc),
            dirty: Vec::new(alloc),
            clean: Vec::new(alloc),
            failures: Vec::new(alloc),
            next_name: 0,
            entries: 0,
        })
    }

    pub fn len_of(&self, blocks: u32) -> u64 {
        u64::from(blocks).saturating_mul(self.block_len)
    }

    /// What a client is charged: a pinned page for each of its pins.
    pub fn charge(&self, client: u32) -> u64 {
        let mut bytes = self.buffer_bytes(client);
        for page in self.pages.values() {
            if page.client == client {
                let times = match page.place {
                    Place::Pinned(count) => u64::from(count),
                    Place::Loading => 1,
                    _ => 0,
                };
                bytes = bytes.saturating_add(self.len_of(page.blocks).saturating_mul(times));
            }
        }
        bytes
    }

    /// What a client holds.
    pub fn held(&self, client: u32) -> u64 {
        let mut bytes = self.charge(client);
        for page in self.pages.values() {
            if page.client == client && matches!(page.place, Place::Dirty | Place::Flying(_)) {
                bytes = bytes.saturating_add(self.len_of(page.blocks));
            }
        }
        bytes
    }

    fn buffer_bytes(&self, client: u32) -> u64 {
        let mut bytes = 0u64;
        for buffer in self.buffers.values() {
            if buffer.client == client {
                bytes = bytes.saturating_add(self.len_of(buffer.blocks));
            }
        }
        bytes
    }

    pub fn free(&self) -> u64 {
        let mut used = 0u64;
        for page in self.pages.values() {
            if page.place != Place::Evicted {
                used = used.saturating_add(self.len_of(page.blocks));
            }
        }
        for buffer in self.buffers.values() {
            used = used.saturating_add(self.len_of(buffer.blocks));
        }
        self.memory.saturating_sub(used)
    }

    pub fn reservation(&self, t: u32) -> u64 {
        self.trackers.get(&t).map_or(0, |x| x.reservation)
    }

    pub fn place(&self, page: u64) -> Option<Place> {
        self.pages.get(&page).map(|x| x.place)
    }

    fn children(&self, t: u32) -> u64 {
        let mut bytes = 0u64;
        for tracker in self.trackers.values() {
            if tracker.parent == Some(t) {
                bytes = bytes.saturating_add(tracker.reservation);
            }
        }
        bytes
    }

    pub fn unused(&self, t: u32) -> u64 {
        self.reservation(t)
            .saturating_sub(self.charge(t))
            .saturating_sub(self.children(t))
    }

    pub fn has_room(&self, client: u32, bytes: u64) -> bool {
        self.held(client).saturating_add(bytes) <= self.reservation(client)
    }

    /// Whether there is room for so many blocks, and so many are free.
    pub fn can_take(&self, client: u32, blocks: u32) -> bool {
        let bytes = self.len_of(blocks);
        self.has_room(client, bytes) && bytes <= self.free()
    }

    pub fn is_client_of(&self, maker: u32, client: u32) -> bool {
        match (self.sessions.get(&maker), self.trackers.get(&client)) {
            (Some(session), Some(tracker)) => tracker.parent == Some(session.query),
            _ => false,
        }
    }

    pub fn owns(&self, maker: u32, t: u32) -> bool {
        self.sessions.get(&maker).is_some_and(|x| x.query == t) || self.is_client_of(maker, t)
    }

    /// The page, where it is the session's and in this place.
    pub fn own_page(&self, maker: u32, page: u64, place: Place) -> Option<Page> {
        let found = self.pages.get(&page).copied()?;
        (found.session == maker && found.place == place).then_some(found)
    }

    /// The page and its pins, where it is the session's and pinned.
    pub fn own_pins(&self, maker: u32, page: u64) -> Option<(Page, u32)> {
        let found = self.pages.get(&page).copied()?;
        match found.place {
            Place::Pinned(count) if found.session == maker => Some((found, count)),
            _ => None,
        }
    }

    pub fn free_slots(&self, session: u32) -> u32 {
        let mut free = self.sessions.get(&session).map_or(0, |x| x.quota);
        for page in self.pages.values() {
            if page.session == session && page.has_slots {
                free = free.saturating_sub(page.blocks);
            }
        }
        free
    }

    pub fn has_child(&self, t: u32) -> bool {
        self.trackers.values().any(|x| x.parent == Some(t))
    }

    pub fn has_things(&self, t: u32) -> bool {
        self.pages.values().any(|x| x.client == t) || self.buffers.values().any(|x| x.client == t)
    }

    /// The newest dirty page of the client.
    pub fn newest_dirty(&self, client: u32) -> Option<u64> {
        let mut newest = None;
        for page in self.dirty.iter() {
            if self.pages.get(page).is_some_and(|x| x.client == client) {
                newest = Some(*page);
            }
        }
        newest
    }

    /// The growth of each tracker on the way, from the lowest up, where no limit refuses it.
    pub fn growth(&self, t: u32, bytes: u64) -> Option<[(u32, u64); 3]> {
        let mut rises = [(0, 0); 3];
        let mut at = t;
        let mut growth = bytes;
        for rise in rises.iter_mut() {
            let tracker = self.trackers.get(&at)?;
            if growth > tracker.limit.saturating_sub(tracker.reservation) {
                return None;
            }
            *rise = (at, growth);
            let Some(parent) = tracker.parent else {
                return Some(rises);
            };
            growth = growth.saturating_sub(self.unused(parent));
            at = parent;
        }
        None
    }

    pub fn rise(&mut self, t: u32, bytes: u64) {
        if let Some(tracker) = self.trackers.get_mut(&t) {
            tracker.reservation = tracker.reservation.saturating_add(bytes);
        }
    }

    pub fn fall(&mut self, t: u32, bytes: u64) {
        if let Some(tracker) = self.trackers.get_mut(&t) {
            tracker.reservation = tracker.reservation.saturating_sub(bytes);
        }
    }

    pub fn put(&mut self, page: u64, place: Place) {
        if let Some(found) = self.pages.get_mut(&page) {
            found.place = place;
        }
    }

    /// The page is written from this entry on.
    pub fn fly(&mut self, page: u64, writer: u32) {
        let version = self.entries;
        if let Some(found) = self.pages.get_mut(&page) {
            found.place = Place::Flying(writer);
            found.version = version;
        }
    }

    pub fn unqueue(&mut self, page: u64) {
        self.dirty.retain(|x| *x != page);
        self.clean.retain(|x| *x != page);
    }

    pub fn note_failure(&mut self, maker: u32, page: u64, kind: Kind) -> Result<(), AllocError> {
        if let Some(found) = self.pages.get(&page) {
            let failure = Failure {
                entry: self.entries,
                maker,
                page,
                client: found.client,
                kind,
            };
            self.failures.push(failure)?;
        }
        Ok(())
    }

    /// The first failure on the client's pages since this entry.
    pub fn first_failure(&self, client: u32, since: u64) -> Option<u64> {
        for failure in self.failures.iter() {
            if failure.client == client && failure.kind != Kind::Stale && failure.entry > since {
                return Some(failure.entry);
            }
        }
        None
    }

    /// The last read of the page by this maker that failed since this entry.
    pub fn last_failed_read(&self, maker: u32, page: u64, since: u64) -> Option<u64> {
        let mut last = None;
        for failure in self.failures.iter() {
            if failure.kind != Kind::Write
                && failure.maker == maker
                && failure.page == page
                && failure.entry > since
            {
                last = Some(failure.entry);
            }
        }
        last
    }
}

//! A plain pool of maps and lists: what the pool's value is compared with after each call.

use super::sums::bytes_of;
use block_arena::Buf;
use page_table::Place;
use pin_core::EvictedPages;
use std::alloc::{AllocError, Global};
use std::collections::BTreeMap;
use std::mem::forget;

/// A client, with what it has reserved.
#[derive(Clone, Copy)]
pub struct Member {
    pub session: u32,
    pub reservation: u64,
}

/// A page, with the byte in front of its content.
#[derive(Clone, Copy)]
pub struct Leaf {
    pub key: u32,
    pub session: u32,
    pub client: u32,
    pub blocks: u32,
    pub place: Place,
    pub has_slots: bool,
    pub byte: u8,
}

/// A buffer that is no page's.
#[derive(Drop)]
pub struct Lent {
    pub client: u32,
    pub buf: Buf,
}

/// What a pool of so many blocks of 64 bytes has, with three sessions of the same quota.
#[derive(Drop)]
pub struct World {
    seed: u64,
    pub blocks: u32,
    pub quota: u32,
    /// What the query of each session has reserved.
    pub queries: [u64; 3],
    pub clients: BTreeMap<u32, Member>,
    pub pages: BTreeMap<u64, Leaf>,
    /// The buffers of pinned pages.
    pub buffers: BTreeMap<u64, Buf>,
    pub loans: BTreeMap<u32, Lent>,
    /// Dirty pages, and clean ones, the one that waits longest first.
    pub dirty: Vec<u64>,
    pub clean: Vec<u64>,
    /// Which pages went out of memory at the last call that made room, and which ones the pool told.
    pub went: Vec<u64>,
    pub gone: EvictedPages,
    /// The first failure of a client since its session's last call.
    pub failures: BTreeMap<u32, u64>,
    pub entries: u64,
    /// How often each kind of call was made, and each answer came.
    pub tallies: [u32; 26],
}

impl World {
    /// Three sessions without clients, each by two entries.
    pub fn open(alloc: Global, seed: u64, blocks: u32, quota: u32, gone: EvictedPages) -> World {
        World {
            seed,
            blocks,
            quota,
            queries: [0; 3],
            clients: BTreeMap::new(alloc),
            pages: BTreeMap::new(alloc),
            buffers: BTreeMap::new(alloc),
            loans: BTreeMap::new(alloc),
            dirty: Vec::new(alloc),
            clean: Vec::new(alloc),
            went: Vec::new(alloc),
            gone,
            failures: BTreeMap::new(alloc),
            entries: 6,
            tallies: [0; 26],
        }
    }

    // A number of 31 bits, at random.
    fn random(&mut self) -> u64 {
        self.seed = self
            .seed
            .wrapping_mul(6364136223846793005)
            .wrapping_add(1442695040888963407);
        self.seed >> 33
    }

    /// A number below `count`, at random.
    pub fn below(&mut self, count: u32) -> u32 {
        let most = u32::MAX;
        u32::try_from(self.random())
            .unwrap_or(most)
            .checked_rem(count)
            .unwrap_or(0)
    }

    pub fn byte(&mut self) -> u8 {
        self.random().to_le_bytes()[0]
    }

    // A place in a list of so many.
    pub fn place_in(&mut self, len: usize) -> usize {
        usize::try_from(self.random())
            .unwrap_or(0)
            .checked_rem(len)
            .unwrap_or(0)
    }

    /// Some client, some page, and some loan.
    pub fn some_client(&mut self) -> Option<u32> {
        let len = self.clients.len();
        let at = self.place_in(len);
        self.clients.keys().nth(at).copied()
    }

    pub fn some_page(&mut self) -> Option<(u64, Leaf)> {
        let len = self.pages.len();
        let at = self.place_in(len);
        self.pages.iter().nth(at).map(|(name, leaf)| (*name, *leaf))
    }

    pub fn some_loan(&mut self) -> Option<u32> {
        let len = self.loans.len();
        let at = self.place_in(len);
        self.loans.keys().nth(at).copied()
    }

    pub fn session_of(&self, client: u32) -> u32 {
        self.clients.get(&client).map_or(0, |x| x.session)
    }

    pub fn reservation(&self, client: u32) -> u64 {
        self.clients.get(&client).map_or(0, |x| x.reservation)
    }

    pub fn query(&self, session: u32) -> u64 {
        self.queries.get(session as usize).copied().unwrap_or(0)
    }

    pub fn set_query(&mut self, session: u32, bytes: u64) {
        if let Some(query) = self.queries.get_mut(session as usize) {
            *query = bytes;
        }
    }

    pub fn set_reservation(&mut self, client: u32, bytes: u64) {
        if let Some(member) = self.clients.get_mut(&client) {
            member.reservation = bytes;
        }
    }

    pub fn put(&mut self, name: u64, place: Place) {
        if let Some(page) = self.pages.get_mut(&name) {
            page.place = place;
        }
    }

    /// The page stands neither among the dirty ones nor among the clean ones.
    pub fn unqueue(&mut self, name: u64) {
        self.dirty.retain(|x| *x != name);
        self.clean.retain(|x| *x != name);
    }

    /// A page is left with its bytes.
    pub fn leave(&mut self, name: u64, byte: u8) -> Result<(), AllocError> {
        if let Some(page) = self.pages.get_mut(&name) {
            page.place = Place::Dirty;
            page.has_slots = true;
            page.byte = byte;
        }
        self.dirty.push(name)?;
        Ok(())
    }

    /// While too few blocks are free, the page that has been clean longest goes out of memory.
    pub fn evict(&mut self, blocks: u32) -> Result<(), AllocError> {
        self.went.clear();
        for _ in 0..256u32 {
            if self.free() >= bytes_of(blocks) || self.clean.is_empty() {
                break;
            }
            let name = self.clean.remove(0);
            self.put(name, Place::Evicted);
            self.count(1);
            self.went.push(name)?;
        }
        Ok(())
    }

    /// Whether the pool told just the pages that went.
    pub fn is_told(&self) -> bool {
        self.gone.names() == self.went.as_slice()
    }

    /// A client comes.
    pub fn join(&mut self, client: u32, session: u32) -> Result<(), AllocError> {
        let member = Member {
            session,
            reservation: 0,
        };
        self.clients.insert(client, member)?;
        Ok(())
    }

    /// A page comes.
    pub fn come(&mut self, name: u64, page: Leaf) -> Result<(), AllocError> {
        self.pages.insert(name, page)?;
        Ok(())
    }

    /// The buffer of a pinned page.
    pub fn hold(&mut self, name: u64, buf: Buf) -> Result<(), AllocError> {
        self.buffers.insert(name, buf)?;
        Ok(())
    }

    pub fn lend(&mut self, number: u32, lent: Lent) -> Result<(), AllocError> {
        self.loans.insert(number, lent)?;
        Ok(())
    }

    /// The failures of the session's clients are forgotten.
    pub fn forget(&mut self, session: u32) {
        for client in 0..64u32 {
            if self.session_of(client) == session {
                self.failures.remove(&client);
            }
        }
    }

    /// A failure that is the last entry.
    pub fn note(&mut self, client: u32) -> Result<(), AllocError> {
        if !self.failures.contains_key(&client) {
            let entry = self.entries.saturating_sub(1);
            self.failures.insert(client, entry)?;
        }
        Ok(())
    }

    pub fn tally(&mut self, kind: usize) {
        if let Some(times) = self.tallies.get_mut(kind) {
            *times = times.saturating_add(1);
        }
    }

    pub fn count(&mut self, entries: u64) {
        self.entries = self.entries.saturating_add(entries);
    }
}

/// Leaves a plain pool to the end of its test, as the pool beside it.
pub fn set_aside(world: World) {
    forget(world);
}

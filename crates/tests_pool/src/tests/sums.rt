//! What a plain pool has in sum: charges, free blocks, free slots, and what is left for growth.

use super::world::{Leaf, World};
use page_table::Place;

impl World {
    /// What is charged to a client: a pinned page for each of its pins.
    pub fn charge(&self, client: u32) -> u64 {
        let mut bytes = self.lent(client);
        for page in self.pages.values() {
            let charged = bytes_of(page.blocks).saturating_mul(pins(page));
            bytes = bytes.saturating_add(only_if(page.client == client, charged));
        }
        bytes
    }

    // What its loans have.
    fn lent(&self, client: u32) -> u64 {
        let mut bytes = 0u64;
        for lent in self.loans.values() {
            let len = lent.buf.len() as u64;
            bytes = bytes.saturating_add(only_if(lent.client == client, len));
        }
        bytes
    }

    // What its dirty and flying pages keep of its reservation.
    fn unwritten(&self, client: u32) -> u64 {
        let mut bytes = 0u64;
        for page in self.pages.values() {
            let kept = only_if(is_unwritten(page.place), bytes_of(page.blocks));
            bytes = bytes.saturating_add(only_if(page.client == client, kept));
        }
        bytes
    }

    pub fn unused(&self, client: u32) -> u64 {
        self.reservation(client).saturating_sub(self.charge(client))
    }

    /// Whether the client can hold so many bytes more.
    pub fn has_room(&self, client: u32, bytes: u64) -> bool {
        let held = self.charge(client).saturating_add(self.unwritten(client));
        held.saturating_add(bytes) <= self.reservation(client)
    }

    /// The bytes that no page in memory and no loan has.
    pub fn free(&self) -> u64 {
        let mut used = 0u64;
        for lent in self.loans.values() {
            used = used.saturating_add(lent.buf.len() as u64);
        }
        let taken = used.saturating_add(self.in_memory());
        bytes_of(self.blocks).saturating_sub(taken)
    }

    fn in_memory(&self) -> u64 {
        let mut bytes = 0u64;
        for page in self.pages.values() {
            let len = bytes_of(page.blocks);
            bytes = bytes.saturating_add(only_if(page.place != Place::Evicted, len));
        }
        bytes
    }

    /// The slots of a session's quota that no page of it has.
    pub fn free_slots(&self, session: u32) -> u64 {
        let mut used = 0u64;
        for page in self.pages.values() {
            let slots = only_if(page.has_slots, u64::from(page.blocks));
            used = used.saturating_add(only_if(page.session == session, slots));
        }
        u64::from(self.quota).saturating_sub(used)
    }

    /// The newest dirty page of the client.
    pub fn newest_dirty(&self, client: u32) -> Option<u64> {
        let mut newest = None;
        for name in self.dirty.iter() {
            if self.pages.get(name).is_some_and(|x| x.client == client) {
                newest = Some(*name);
            }
        }
        newest
    }

    /// Whether a client has neither a page nor a loan.
    pub fn is_idle(&self, client: u32) -> bool {
        !self.pages.values().any(|x| x.client == client)
            && !self.loans.values().any(|x| x.client == client)
    }

    /// How many clients a session has.
    pub fn members(&self, session: u32) -> usize {
        self.clients
            .values()
            .filter(|x| x.session == session)
            .count()
    }

    /// By how much the query of a session has to grow, for its client to grow by so many bytes.
    pub fn growth(&self, session: u32, bytes: u64) -> u64 {
        let mut given = bytes;
        for member in self.clients.values() {
            given = given.saturating_add(only_if(member.session == session, member.reservation));
        }
        given.saturating_sub(self.query(session))
    }

    /// What the root has left for growth.
    pub fn room(&self) -> u64 {
        let mut bytes = bytes_of(self.blocks);
        for query in self.queries {
            bytes = bytes.saturating_sub(query);
        }
        bytes
    }
}

/// The bytes of so many blocks.
pub fn bytes_of(blocks: u32) -> u64 {
    u64::from(blocks).saturating_mul(64)
}

fn pins(page: &Leaf) -> u64 {
    match page.place {
        Place::Pinned(count) => u64::from(count),
        Place::Loading => 1,
        _ => 0,
    }
}

fn only_if(is: bool, count: u64) -> u64 {
    match is {
        true => count,
        false => 0,
    }
}

fn is_unwritten(place: Place) -> bool {
    matches!(place, Place::Dirty | Place::Flying(_))
}

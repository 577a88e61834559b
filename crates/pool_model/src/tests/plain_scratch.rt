//! Reads, writes, evictions and refusals over plain maps.

use crate::tests::plain_pool::{Buffer, Kind, Page, Place, PlainPool};
use crate::{Call, Event};
use std::alloc::AllocError;

impl PlainPool {
    pub fn allows_scratch(&self, maker: u32, event: &Event) -> bool {
        match event {
            Event::ReadOk { page } => self.own_page(maker, *page, Place::Loading).is_some(),
            Event::ReadFailed {
                page,
                before,
                after,
            } => {
                self.own_page(maker, *page, Place::Loading).is_some()
                    && is_fault(before.shown(), after.shown())
            }
            Event::ReadStale {
                page,
                wanted,
                found,
            } => {
                let own = self.own_page(maker, *page, Place::Loading);
                let is_wanted = |x: Page| {
                    wanted.name == *page && wanted.version == x.version && wanted.block < x.blocks
                };
                own.is_some_and(is_wanted) && found != wanted
            }
            Event::StartWrite { page } => self.pages.get(page).is_some_and(|x| {
                (maker >= 240 || x.session == maker)
                    && x.place == Place::Dirty
                    && self.newest_dirty(x.client) == Some(*page)
            }),
            Event::WriteOk { page } => self.place(*page) == Some(Place::Flying(maker)),
            Event::WriteFailed {
                page,
                before,
                after,
            } => {
                self.place(*page) == Some(Place::Flying(maker))
                    && is_fault(before.shown(), after.shown())
            }
            Event::Evict { page } => {
                self.place(*page) == Some(Place::Clean) && self.clean.first() == Some(page)
            }
            Event::Refused { call, entry } => self.may_refuse(maker, call, *entry),
            _ => false,
        }
    }

    pub fn take_scratch(&mut self, maker: u32, event: &Event) -> Result<(), AllocError> {
        match event {
            Event::ReadOk { page } => self.put(*page, Place::Pinned(1)),
            Event::ReadFailed { page, .. } => {
                self.note_failure(maker, *page, Kind::Read)?;
                self.put(*page, Place::Evicted);
            }
            Event::ReadStale { page, .. } => {
                self.note_failure(maker, *page, Kind::Stale)?;
                self.put(*page, Place::Evicted);
            }
            Event::StartWrite { page } => {
                self.unqueue(*page);
                self.fly(*page, maker);
            }
            Event::WriteOk { page } => {
                self.clean.push(*page)?;
                self.put(*page, Place::Clean);
            }
            Event::WriteFailed { page, .. } => {
                self.note_failure(maker, *page, Kind::Write)?;
                self.dirty.push(*page)?;
                self.put(*page, Place::Dirty);
            }
            Event::Evict { page } => {
                self.unqueue(*page);
                self.put(*page, Place::Evicted);
            }
            _ => {}
        }
        Ok(())
    }

    fn may_refuse(&self, maker: u32, call: &Call, entry: u64) -> bool {
        let Some(asked) = self.sessions.get(&maker).and_then(|x| x.asked) else {
            return false;
        };
        if !self.is_own_call(maker, call) {
            return false;
        }
        if let Call::Pin { page } = call
            && self.last_failed_read(maker, *page, asked) == Some(entry)
        {
            return true;
        }
        self.lacking_client(call)
            .is_some_and(|client| self.first_failure(client, asked) == Some(entry))
    }

    fn is_own_call(&self, maker: u32, call: &Call) -> bool {
        match call {
            Call::Pin { page } | Call::PinAgain { page } => {
                self.pages.get(page).is_some_and(|x| x.session == maker)
            }
            Call::Create { client, .. }
            | Call::Alloc { client, .. }
            | Call::GiveBack { client, .. } => self.is_client_of(maker, client.number()),
            Call::MoveReservation { from, to, .. } => {
                self.is_client_of(maker, from.number()) && self.owns(maker, to.number())
            }
            Call::MoveBuffer { buffer, to } => {
                let own = |x: &Buffer| self.is_client_of(maker, x.client);
                self.buffers.get(buffer).is_some_and(own) && self.is_client_of(maker, to.number())
            }
        }
    }

    // The call's client, where the call lacks its room.
    fn lacking_client(&self, call: &Call) -> Option<u32> {
        let (client, bytes) = match call {
            Call::Pin { page } => {
                let found = self.pages.get(page)?;
                if matches!(found.place, Place::Dirty | Place::Flying(_)) {
                    return None;
                }
                (found.client, self.len_of(found.blocks))
            }
            Call::PinAgain { page } => {
                let found = self.pages.get(page)?;
                (found.client, self.len_of(found.blocks))
            }
            Call::Create { client, blocks } | Call::Alloc { client, blocks } => {
                (client.number(), self.len_of(*blocks))
            }
            Call::GiveBack { client, bytes } => (client.number(), *bytes),
            Call::MoveReservation { from, bytes, .. } => (from.number(), *bytes),
            Call::MoveBuffer { buffer, to } => {
                (to.number(), self.len_of(self.buffers.get(buffer)?.blocks))
            }
        };
        (!self.has_room(client, bytes)).then_some(client)
    }
}

// A count of faults rose, or stands at its last value.
fn is_fault(before: u64, after: u64) -> bool {
    before < after || before == u64::MAX && after == u64::MAX
}

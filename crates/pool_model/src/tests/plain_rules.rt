//! Which entry may follow and what it does, over plain maps.

use crate::tests::plain_pool::PlainPool;
use crate::{Entry, Event};
use std::alloc::AllocError;

impl PlainPool {
    /// Enters an entry where it may follow, and tells whether it could.
    pub fn enter(&mut self, entry: &Entry) -> Result<bool, AllocError> {
        let maker = entry.maker.number();
        let makes = entry.maker.is_session()
            || entry.maker.is_writer() && is_of_writes(&entry.event);
        if !makes || !self.allows(maker, &entry.event) {
            return Ok(false);
        }
        self.take_trackers(maker, &entry.event)?;
        self.take_pages(maker, &entry.event)?;
        self.take_buffers(&entry.event)?;
        self.take_scratch(maker, &entry.event)?;
        self.entries = self.entries.saturating_add(1);
        Ok(true)
    }

    fn allows(&self, maker: u32, event: &Event) -> bool {
        self.allows_trackers(maker, event)
            || self.allows_pages(maker, event)
            || self.allows_buffers(maker, event)
            || self.allows_scratch(maker, event)
    }
}

fn is_of_writes(event: &Event) -> bool {
    matches!(
        event,
        Event::StartWrite { .. } | Event::WriteOk { .. } | Event::WriteFailed { .. }
    )
}

//! A pool's history, of which the first entries are kept.
ghost use Rattle.std.specs.Prelude.{◌≡◌, ◌++◌, ◌∷◌, [], IfOk};
ghost use Rattle.pool_model.specs.Traces.{is_writer, skeleton_of, skeletons};
ghost use Rattle.session_calls.specs.Kept.{IsTraceOf};

use crate::trace::Trace;
use pool_model::{Bare, Entry, Event, FIRST_WRITER, Maker, Skeleton};
use std::alloc::Global;
use std::marker::Model;
use turn_table::{Adds, Memory, Solo};

/// A history. Contracts see the list of its entries, the oldest first. The code keeps the skeletons of the first ones,
/// as many as there is room for, and whether there were more.
#[derive(Drop)]
pub struct Log {
    history: Solo<Entry>,
    kept: Vec<Skeleton>,
    room: usize,
    more: bool,
}

impl Model for Log {
    ghost use Rattle.std.specs.Prelude.{List, ◌≤◌, vec_capacity};
    ghost use Rattle.pool_model.specs.declared.entry.Entry.{Entry as Event};
    ghost use Rattle.session_calls.specs.Kept.{AreFirst};

    ghost Value = { List Event };

    ghost view = { λ log. log.history };

    ghost invariant = { λ log. AreFirst log.kept.items log.room log.more log.history × (log.room ≤ vec_capacity log.kept) };
}

impl Log {
    /// The empty history, and room for so many entries of it. Takes all the memory that it will ever use, and none for
    /// entries where `room` is 0.
    ///
    /// # Errors
    ///
    /// `Memory`: there was not so much.
    pub fn open(alloc: Global, room: u32) -> Result<Log, Memory>
        ensures { IfOk result (λ log. log ≡ []) }
    {
        let room = room as usize;
        let Ok(kept) = Vec::with_capacity(alloc, room) else {
            return Err(Memory);
        };
        let history = Solo::open(alloc)?;
        Ok(Log {
            history,
            kept,
            room,
            more: false,
        })
    }

    // This event of the maker was entered, which `N` names.
    #[inline]
    pub(crate) fn enter<N: Adds<Entry>>(&mut self, maker: u32, event: &Event)
        requires named { N.entries ≡ record { maker = maker; event = event.now } ∷ [] }
        ensures { self.new ≡ self.old ++ N.entries }
    {
        if self.kept.as_slice().len() < self.room {
            self.kept.push_reserved(of_event(maker, event));
        } else {
            self.more = true;
        }
        self.history.tick::<N>();
    }

    // An entry was entered, which `N` names, and of which the code has the maker, and the event without what contracts
    // alone see.
    #[inline]
    pub(crate) fn enter_bare<N: Adds<Entry>>(&mut self, maker: u32, event: Bare)
        requires named { skeletons N.entries ≡ record { writer = is_writer maker; maker = maker; event = event } ∷ [] }
        ensures { self.new ≡ self.old ++ N.entries }
    {
        if self.kept.as_slice().len() < self.room {
            self.kept.push_reserved(of_bare(maker, event));
        } else {
            self.more = true;
        }
        self.history.tick::<N>();
    }

    /// What was kept, of a pool that opened with these numbers.
    pub fn into_trace(self, blocks: u32, block_len: u32, first_name: u64) -> Trace
        ensures kept { IsTraceOf self result }
        ensures opening { (result.blocks ≡ blocks) × (result.block_len ≡ block_len) × (result.first_name ≡ first_name) }
    {
        let Log {
            history: _,
            kept,
            room: _,
            more,
        } = self;
        Trace {
            blocks,
            block_len,
            first_name,
            entries: kept,
            more,
        }
    }
}

// What is kept of this event of the maker. What is kept of the event itself is the same for every maker.
fn of_event(maker: u32, event: &Event) -> Skeleton
    ensures { result ≡ skeleton_of (record { maker = maker; event = event.now }) }
{
    of_bare(maker, Skeleton::of(Maker::session(0), event).event)
}

#[inline]
fn of_bare(maker: u32, event: Bare) -> Skeleton
    ensures { result ≡ record { writer = is_writer maker; maker = maker; event = event } }
{
    Skeleton {
        writer: maker >= FIRST_WRITER,
        maker,
        event,
    }
}

//! What a follower keeps of what is live.

ghost use Rattle.std.specs.Prelude.{◌≡◌, ◌↔◌, ◌⊎◌, ℕ, IsTrue, OnOk};
ghost use Rattle.trace_follow.specs.Noting.{failing, misreading};
ghost use Rattle.trace_follow.specs.declared.rows.Place.TheVariants as spot;
ghost use Rattle.std.specs.FinMap.{empty, remove};

use crate::table::Table;
use std::alloc::{AllocError, Global};

/// Where a live page is.
#[derive(Clone, Copy, Debug, PartialEq, Eq)]
pub(crate) enum Place {
    /// With so many pins.
    Pinned(u64),
    Dirty,
    /// With the maker that writes it.
    Flying(u32),
    Loading,
    Clean,
    Evicted,
}

impl Place {
    // Whether a page is here that is pinned without more room.
    pub(crate) fn is_held_unpinned(self) -> bool
        ensures { IsTrue result ↔ ((self ≡ spot.Dirty) ⊎ ((writer : ℕ) × (self ≡ spot.Flying writer))) }
    {
        match self {
            Place::Dirty => true,
            Place::Flying(_) => true,
            _ => false,
        }
    }
}

/// What a call needs: the client whose room is asked for, and whether there is room.
#[derive(Clone, Copy)]
pub(crate) struct Want {
    pub(crate) client: u32,
    pub(crate) enabled: bool,
}

/// A live tracker. Amounts are in bytes.
#[derive(Clone, Copy)]
pub(crate) struct TrackerRow {
    pub(crate) parent: Option<u32>,
    pub(crate) depth: u64,
    pub(crate) limit: u64,
    pub(crate) reservation: u64,
}

/// The trackers right under one: their reservations together, and how many they are.
#[derive(Clone, Copy)]
pub(crate) struct Under {
    pub(crate) bytes: u64,
    pub(crate) count: u64,
}

/// The pages and buffers of a client: what is charged and held of them in bytes, and how many they are.
#[derive(Clone, Copy)]
pub(crate) struct Load {
    pub(crate) charge: u64,
    pub(crate) held: u64,
    pub(crate) count: u64,
}

/// A live session: its query tracker and its quota of slots.
#[derive(Clone, Copy)]
pub(crate) struct SessionRow {
    pub(crate) query: u32,
    pub(crate) quota: u32,
}

/// What failed since a session's last call, each as the number of its entry.
#[derive(Drop)]
pub(crate) struct Asked {
    /// The first failure for each client.
    pub(crate) failures: Table<u64>,
    /// The last read of each page by this session that failed.
    pub(crate) reads: Table<u64>,
}

impl Asked {
    // The session calls now.
    pub(crate) fn new(alloc: Global) -> Asked
        ensures { result ≡ record { failures = empty; reads = empty } }
    {
        Asked {
            failures: Table::new(alloc),
            reads: Table::new(alloc),
        }
    }

    // The first failure for the client stays.
    pub(crate) fn note_failure(&mut self, c: u32, number: u64) -> Result<(), AllocError>
        ensures { OnOk result (self.new ≡ failing c number self.old) }
    {
        match self.failures.row(u64::from(c)) {
            Some(_) => Ok(()),
            None => self.failures.put(u64::from(c), number),
        }
    }

    pub(crate) fn note_read(&mut self, p: u64, number: u64) -> Result<(), AllocError>
        ensures { OnOk result (self.new ≡ misreading p number self.old) }
    {
        self.reads.put(p, number)
    }

    // What failed for the client.
    pub(crate) fn forget(&mut self, c: u32)
        ensures { self.new ≡ record self.old { failures = remove self.old.failures c } }
    {
        self.failures.take(u64::from(c));
    }
}

/// A live page.
#[derive(Clone, Copy)]
pub(crate) struct PageRow {
    pub(crate) session: u32,
    pub(crate) client: u32,
    pub(crate) blocks: u32,
    pub(crate) place: Place,
    pub(crate) has_slots: bool,
    pub(crate) version: u64,
}

/// A live buffer.
#[derive(Clone, Copy)]
pub(crate) struct BufferRow {
    pub(crate) client: u32,
    pub(crate) blocks: u32,
}

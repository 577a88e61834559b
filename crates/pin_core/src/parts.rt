//! All that a pool has.
ghost use Rattle.std.specs.Prelude.{◌≡◌};

use crate::kept::Kept;
use block_arena::Arena;
use buffer_transfer::BufferBook;
use clean_evict::CleanList;
use client_lists::ClientLists;
use page_table::PageTable;
use reservation_tree::Tree;
use scratch_dev::SlotPool;
use session_table::SessionTable;

/// All that a pool has: its trackers, its pages and where they stand, its blocks and slots, its buffers, its
/// sessions, and how many entries its history has, up to the greatest u64.
#[derive(Drop)]
pub struct Parts<D> {
    pub block_len: u32,
    /// Whether each block lies in its slot behind a mark.
    pub marked: bool,
    pub tree: Tree,
    pub pages: PageTable<Kept<D>>,
    pub lists: ClientLists,
    pub clean: CleanList,
    pub arena: Arena,
    pub slots: SlotPool<D>,
    pub buffers: BufferBook,
    pub seats: SessionTable,
    pub entries: u64,
}

impl<D> Parts<D> {
    ghost use Rattle.pin_core.specs.Lawful.{Lawful};

    /// What each part keeps by itself. It does nothing.
    #[inline]
    pub fn laws(&self)
        ensures { Lawful self.now }
    {
        self.pages.law_proper();
        self.tree.law_fits();
        self.clean.law_distinct();
        self.slots.law_counted();
        self.lists.law_whole();
        self.buffers.law_proper();
        self.seats.law_proper();
    }
}

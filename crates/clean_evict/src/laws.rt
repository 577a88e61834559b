//! What a caller knows of the clean list between calls. These functions do nothing.
ghost use Rattle.std.specs.Prelude.{◌≡◌, ◌+◌, ◌<◌, ◌≤◌, ℕ, true, length, eqb};
ghost use Rattle.std.specs.List.{IsDistinct};
ghost use Rattle.index_list.specs.Listing.{stands_in};
ghost use Rattle.clean_evict.specs.Cleans.{pushed, without};
ghost use Rattle.clean_evict.specs.Eviction.{IsCleanPage, IsCleanList, blocks_at, blocks_of, fewest};

use crate::list::CleanList;
use block_arena::Arena;
use page_table::PageTable;

impl CleanList {
    /// A page that is clean, and whose blocks fit beside the free ones and those of the list, may be
    /// put on it.
    #[inline]
    pub fn law_push<S>(&self, arena: &Arena, pages: &PageTable<S>, node: u32)
        requires list { IsCleanList arena.now pages.now self.now.keys }
        requires page { IsCleanPage arena.now.block_len pages.now node }
        requires fits { arena.now.free + blocks_of pages.now self.now.keys + blocks_at pages.now node ≤ arena.now.blocks }
        ensures { IsCleanList arena.now pages.now (pushed node self.now).keys }
    {}

    /// Any page may be taken off the list.
    #[inline]
    pub fn law_remove<S>(&self, arena: &Arena, pages: &PageTable<S>, node: u32)
        requires { IsCleanList arena.now pages.now self.now.keys }
        ensures { IsCleanList arena.now pages.now (without node self.now).keys }
    {}

    /// No page is on the list twice.
    #[inline]
    pub fn law_distinct(&self)
        ensures { IsDistinct eqb self.now.keys }
    {
        let _oldest = self.oldest();
    }

    /// How many names `make_room` and `acquire` may append: no more than pages are on the list, and
    /// where each of them has a block, no more than blocks are wanted.
    #[inline]
    pub fn law_fewest<S>(&self, arena: &Arena, pages: &PageTable<S>, wanted: u32)
        ensures most { fewest wanted arena.now pages.now self.now.keys ≤ length self.now.keys }
        ensures each { ((key : ℕ) → stands_in key self.now.keys ≡ true → 0 < blocks_at pages.now key) → fewest wanted arena.now pages.now self.now.keys ≤ wanted }
    {}
}

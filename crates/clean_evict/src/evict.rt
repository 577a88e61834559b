//! One page goes out of memory.
ghost use Rattle.std.specs.Prelude.{◌≡◌, ◌+◌, ◌≤◌, Some};
ghost use Rattle.std.specs.FinMap.{get};
ghost use Rattle.page_table.specs.declared.entry.Entry.{Entry as Page};
ghost use Rattle.page_table.specs.Pages.{IsLive, with_entry};
ghost use Rattle.clean_evict.specs.Eviction.{IsCleanPage, blocks_at, evicted, with_freed};

use block_arena::Arena;
use page_table::{Mem, PageId, PageTable, Place};
use std::mem;

/// Evicts a clean page. Its blocks go back to the arena, and it keeps the room for them.
#[inline]
pub(crate) fn evict<S>(arena: &mut Arena, pages: &mut PageTable<S>, id: PageId)
    requires live { IsLive pages.old id }
    requires clean { IsCleanPage arena.old.block_len pages.old id.key }
    requires fits { arena.old.free + blocks_at pages.old id.key ≤ arena.old.blocks }
    ensures pages { (page : Page S) → get pages.old.entries id.name ≡ Some page → pages.new ≡ with_entry pages.old id (evicted page) }
    ensures arena { arena.new ≡ with_freed (blocks_at pages.old id.key) arena.old }
{
    let entry = pages.entry_mut(id);
    entry.place = Place::Evicted;
    let Mem::Held(buf) = mem::replace(&mut entry.mem, Mem::Out) else {
        unreachable!()
    };
    entry.mem = Mem::Empty(arena.take_back(buf));
}

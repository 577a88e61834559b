//! Clean pages go out of memory where too few blocks are free for what is wanted.
ghost use Rattle.std.specs.Prelude.{◌≡◌, ◌≢◌, ◌+◌, ◌-◌, ◌<◌, ◌≤◌, ◌++◌, ℕ, Some, length, vec_len, vec_capacity};
ghost use Rattle.std.specs.FinMap.{get};
ghost use Rattle.block_arena.specs.Memory.{IsBufferOf};
ghost use Rattle.page_table.specs.declared.entry.Entry.{Entry as Page};
ghost use Rattle.page_table.specs.declared.entry.Place.TheVariants.{Clean};
ghost use Rattle.clean_evict.specs.Cleans.{without_oldest};
ghost use Rattle.clean_evict.specs.Eviction.{IsCleanList, fewest, going, names_of, blocks_of, evicted_all, with_freed};
ghost use Rattle.clean_evict.specs.Inside.{Evicts};

use crate::evict::evict;
use crate::list::CleanList;
use block_arena::{Arena, Buf, Shell};
use page_table::PageTable;

impl CleanList {
    /// A buffer of as many blocks as the shell has room for. Its bytes are any bytes.
    ///
    /// While too few blocks are free, the page that has been clean longest goes out of memory, and its
    /// name is appended to `evicted`. It keeps the room for its blocks and what it has of scratch, and
    /// stays live. Nothing is stored or loaded, and no memory is taken.
    ///
    /// The caller keeps each page on the list clean and with its buffer: one that is pinned or ends
    /// leaves the list first. `law_push`, `law_remove` and `law_fewest` help to keep these conditions.
    #[inline]
    pub fn acquire<S>(
        &mut self,
        arena: &mut Arena,
        pages: &mut PageTable<S>,
        shell: Shell,
        evicted: &mut Vec<u64>,
    ) -> Buf
        requires clean { IsCleanList arena.old pages.old self.old.keys }
        requires covered { shell ≤ arena.old.free + blocks_of pages.old self.old.keys }
        requires room { vec_len evicted.old + fewest shell arena.old pages.old self.old.keys ≤ vec_capacity evicted.old }

        // The oldest pages went, as few as cover the shell with the free blocks, and were told in order.
        ensures list { self.new ≡ without_oldest (fewest shell arena.old pages.old self.old.keys) self.old }
        ensures told { evicted.new.items ≡ evicted.old.items ++ names_of pages.old (going shell arena.old pages.old self.old.keys) }
        ensures pages { pages.new ≡ evicted_all (names_of pages.old (going shell arena.old pages.old self.old.keys)) pages.old }

        // A page that is not clean is as it was.
        ensures others { (name : ℕ) (page : Page S) → get pages.old.entries name ≡ Some page → page.place ≢ Clean → get pages.new.entries name ≡ Some page }

        // The blocks of those that went came back, and the shell's were lent.
        ensures enough { shell ≤ arena.old.free + blocks_of pages.old (going shell arena.old pages.old self.old.keys) }
        ensures arena { arena.new ≡ record arena.old { free = arena.old.free + blocks_of pages.old (going shell arena.old pages.old self.old.keys) - shell } }
        ensures buffer { IsBufferOf shell arena.old.block_len result }

        // The next call can be made.
        ensures clean { IsCleanList arena.new pages.new self.new.keys }
        ensures capacity { vec_capacity evicted.new ≡ vec_capacity evicted.old }
    {
        self.make_room(arena, pages, shell.room(), evicted);
        arena.fill(shell)
    }

    /// Makes room for that many blocks: while fewer are free, the page that has been clean longest goes
    /// out of memory, and its name is appended to `evicted`, as by `acquire`. No block is lent.
    ///
    /// The conditions are those of `acquire`.
    pub fn make_room<S>(
        &mut self,
        arena: &mut Arena,
        pages: &mut PageTable<S>,
        wanted: u32,
        evicted: &mut Vec<u64>,
    )
        requires clean { IsCleanList arena.old pages.old self.old.keys }
        requires covered { wanted ≤ arena.old.free + blocks_of pages.old self.old.keys }
        requires room { vec_len evicted.old + fewest wanted arena.old pages.old self.old.keys ≤ vec_capacity evicted.old }

        // The oldest pages went, as few as cover the blocks with the free ones, and were told in order.
        ensures list { self.new ≡ without_oldest (fewest wanted arena.old pages.old self.old.keys) self.old }
        ensures told { evicted.new.items ≡ evicted.old.items ++ names_of pages.old (going wanted arena.old pages.old self.old.keys) }
        ensures pages { pages.new ≡ evicted_all (names_of pages.old (going wanted arena.old pages.old self.old.keys)) pages.old }

        // The blocks of those that went came back.
        ensures arena { arena.new ≡ with_freed (blocks_of pages.old (going wanted arena.old pages.old self.old.keys)) arena.old }
        ensures enough { wanted ≤ arena.new.free }

        // The next call can be made.
        ensures clean { IsCleanList arena.new pages.new self.new.keys }
        ensures capacity { vec_capacity evicted.new ≡ vec_capacity evicted.old }
    {
        while arena.free() < wanted {
            self.evict_oldest(arena, pages, evicted);
        }
    }

    // The page that has been clean longest is evicted, and its name is told.
    #[inline]
    fn evict_oldest<S>(
        &mut self,
        arena: &mut Arena,
        pages: &mut PageTable<S>,
        evicted: &mut Vec<u64>,
    )
        requires clean { IsCleanList arena.old pages.old self.old.keys }
        requires some { 0 < length self.old.keys }
        requires room { vec_len evicted.old < vec_capacity evicted.old }
        ensures evicts { Evicts 1 self.old self.new arena.old arena.new pages.old pages.new evicted.old.items evicted.new.items }
        ensures len { vec_len evicted.new ≡ vec_len evicted.old + 1 }
        ensures capacity { vec_capacity evicted.new ≡ vec_capacity evicted.old }
    {
        pages.law_proper();
        let key = self.oldest().unwrap();
        let id = pages.id_at(key).unwrap();
        self.remove(key);
        evict(arena, pages, id);
        evicted.push_reserved(id.name);
    }
}

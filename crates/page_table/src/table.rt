//! The table of pages.
ghost use Rattle.std.specs.Prelude.{◌≡◌, ◌<◌, ◌↔◌, Some, None, IfOk, IsTrue, IsSome, option_copied};
ghost use Rattle.std.specs.Option.{option_copied_mut};
ghost use Rattle.std.specs.Borrow.{sem};
ghost use Rattle.std.specs.FinMap.{get};
ghost use Rattle.page_table.specs.Pages.{IsLive, IsSpent, IsProper, HasRoom, new_entry, entry_of, id_of, opened, with_page, without_page};

use crate::entry::{Entry, Mem, Place};
use crate::page_id::PageId;
use crate::row::Row;
use block_arena::Memory;
use slab::Slab;
use std::alloc::Global;
use std::marker::Model;

/// The live pages of a pool. `S` is the type of what a page keeps of scratch.
#[derive(Drop)]
pub struct PageTable<S> {
    rows: Slab<Row<Entry<S>>>,
    next_name: u64,
    room: u32,
}

impl<S> Model for PageTable<S> {
    ghost use Rattle.page_table.specs.Pages.{Pages, pages_code};
    ghost use Rattle.page_table.specs.declared.entry.Entry.{Entry as Page};
    ghost use Rattle.page_table.specs.Codes.{entry_code};

    ghost Value = { Pages (Page S) };

    ghost coded = { pages_code (entry_code S.code) };

    ghost use Rattle.page_table.specs.Rows.{pages_in, IsSound};

    ghost view = { λ t. pages_in t.rows t.next_name t.room };

    ghost invariant = { λ t. IsSound t.rows t.next_name t.room };
}

impl<S> PageTable<S> {
    ghost use Rattle.page_table.specs.Lends.{lends_get, lends_entry};

    /// A table with no page yet. At most `pages` pages may be live, and the first is named `first_name`.
    ///
    /// It is the one call that takes memory.
    ///
    /// # Errors
    ///
    /// `Memory`: there was no memory for the table, or it came in a size that isn't the one asked for.
    pub fn with(alloc: Global, pages: u32, first_name: u64) -> Result<PageTable<S>, Memory>
    where
        S: Drop,
        ensures { IfOk result (λ table. table ≡ opened pages first_name) }
    {
        let rows = Slab::with_capacity(alloc, pages as usize)?;
        // A key is below the capacity, so it is below `pages` where the two are equal.
        if rows.capacity() != pages as usize {
            return Err(Memory);
        }
        Ok(PageTable {
            rows,
            next_name: first_name,
            room: pages,
        })
    }

    /// Whether no name is left for another page.
    #[inline]
    pub fn spent(&self) -> bool
        ensures { IsTrue result ↔ IsSpent self.now }
    {
        self.next_name == u64::MAX
    }

    /// Whether one more page may be live.
    #[inline]
    pub fn has_room(&self) -> bool
        ensures { IsTrue result ↔ HasRoom self.now }
    {
        self.rows.len() < self.room as usize
    }

    /// How many pages may be live. Keys are below it.
    #[inline]
    pub fn room(&self) -> u32
        ensures { result ≡ self.now.room }
    {
        self.room
    }

    /// A new page, pinned once, under the next name.
    #[inline]
    pub fn add(&mut self, session: u32, client: u32, blocks: u32, mem: Mem, scratch: S) -> PageId
        requires not_spent { IsSpent self.old → ⊥ }
        requires room { HasRoom self.old }
        ensures name { result.name ≡ self.old.next_name }
        ensures fresh { get self.old.entries result.name ≡ None }
        ensures vacant { get self.old.names result.key ≡ None }
        ensures in_range { result.key < self.old.room }
        ensures pages { self.new ≡ with_page self.old result (new_entry result.name session client blocks mem scratch) }

        // No page that had ended is found again.
        ensures ended { (id : PageId) → id.name < self.old.next_name → IsLive self.new id → IsLive self.old id }
    {
        let name = self.next_name;
        let entry = Entry {
            name,
            session,
            client,
            blocks,
            version: 0,
            place: Place::Pinned(1),
            mem,
            scratch,
        };
        let key = self.rows.insert_reserved(Row { name, entry });
        self.next_name = name + 1;
        PageId {
            name,
            key: key as u32,
        }
    }

    /// The page's entry, or `None` exactly where no page of this name and key is live.
    #[inline]
    pub fn get(&self, id: PageId) -> Option<&Entry<S>>
        ensures value { option_copied result ≡ entry_of self.now id }
        ensures live { IsSome result ↔ IsLive self.now id }
    {
        match self.rows.get(id.key as usize) {
            Some(row) if row.name == id.name => Some(&row.entry),
            _ => None,
        }
    }

    /// The page's entry, to be written. What is left there is the page's, and nothing else changes.
    ///
    /// It is `None` exactly where no page of this name and key is live.
    #[inline]
    pub fn get_mut(&mut self, id: PageId) -> Option<&mut Entry<S>>
        ensures* writes_back { sem 𝓛 (lends_get S.row self.entry id result) }
        ensures value { option_copied_mut result ≡ entry_of self.old id }
        ensures live { IsSome result ↔ IsLive self.old id }
    {
        if self.is_live(id) {
            Some(self.entry_mut(id))
        } else {
            None
        }
    }

    /// The entry of a live page, to be written. What is left there is the page's, and nothing else changes.
    #[inline]
    pub fn entry_mut(&mut self, id: PageId) -> &mut Entry<S>
        requires { IsLive self.old id }
        ensures* writes_back { sem 𝓛 (lends_entry S.row self.entry id result) }
        ensures value { get self.old.entries id.name ≡ Some result.now }
    {
        let row = &mut self.rows[id.key as usize];
        &mut row.entry
    }

    /// Ends the page, and gives its entry. Its key may come again, its name never does.
    #[inline]
    pub fn remove(&mut self, id: PageId) -> Entry<S>
        requires { IsLive self.old id }
        ensures value { get self.old.entries id.name ≡ Some result }
        ensures pages { self.new ≡ without_page self.old id }
    {
        let Row { name: _, entry } = self.rows.remove(id.key as usize);
        entry
    }

    /// The live page with this key, or `None` exactly where no live page has it.
    #[inline]
    pub fn id_at(&self, key: u32) -> Option<PageId>
        ensures { result ≡ id_of self.now key }
    {
        match self.rows.get(key as usize) {
            Some(row) => Some(PageId {
                name: row.name,
                key,
            }),
            None => None,
        }
    }

    /// What holds of every table: names and keys go together, and names are below the next one.
    #[inline]
    pub fn law_proper(&self)
        ensures { IsProper self.now }
    {
        let _rows = &self.rows;
    }

    #[inline]
    fn is_live(&self, id: PageId) -> bool
        ensures { IsTrue result ↔ IsLive self.now id }
    {
        match self.rows.get(id.key as usize) {
            Some(row) => row.name == id.name,
            None => false,
        }
    }
}

//! An evicted page gets blocks.
ghost use Rattle.std.specs.Prelude.{◌≡◌, ◌≤◌};
ghost use Rattle.block_arena.specs.Memory.{IsBufferOf};
ghost use Rattle.page_table.specs.Pages.{IsLive, with_entry};
ghost use Rattle.page_table.specs.declared.entry.Mem.TheVariants as mem;
ghost use Rattle.page_table.specs.declared.entry.Place.TheVariants as spot;
ghost use Rattle.pin_core.specs.Invariant.{IsKept, IsKeptOf};
ghost use Rattle.pin_core.specs.Lawful.{Lawful};
ghost use Rattle.pin_core.specs.parts.Keeping.{row_in};
ghost use Rattle.pin_core.specs.parts.Changes.{entry_in, entry_at};
ghost use Rattle.pin_core.specs.calls.Evictions.{names_gone, with_room};
ghost use Rattle.pin_core.specs.parts.Loads.{CanLoad, ReadyLoad, loading, loaded, loaded_over, read_job};

use crate::evicted::EvictedPages;
use crate::jobs::{ReadJob, under};
use crate::kept::Kept;
use crate::lengths;
use crate::look::look_at;
use crate::parts::Parts;
use block_arena::Shell;
use client_lists::Which;
use page_table::{Entry, Mem, PageId, PageTable, Place};
use reservation_tree::TrackerId;
use scratch_dev::SlotRow;
use std::mem;

impl<D: Drop> Parts<D> {
    // Clean pages make room where too few blocks are free, and the page gets its blocks.
    pub(crate) fn load(&mut self, id: PageId, gone: &mut EvictedPages) -> ReadJob<D>
        requires kept { IsKept self.old }
        requires laws { Lawful self.old }
        requires can { CanLoad self.old id (entry_at self.old id.name) }
        ensures parts { self.new ≡ loaded_over id (entry_at self.old id.name) self.old }
        ensures job { result ≡ read_job self.old.marked id (entry_at self.old id.name) result.buf }
        ensures buffer { IsBufferOf (entry_at self.old id.name).blocks self.old.arena.block_len result.buf }
        ensures enough { (entry_at self.old id.name).blocks ≤ (with_room (entry_at self.old id.name).blocks self.old).arena.free }
        ensures gone { gone.new ≡ names_gone (entry_at self.old id.name).blocks self.old }
    {
        let marked = self.marked;
        let look = look_at(&self.pages, id);
        self.make_room(look.blocks, gone);
        self.fill(id, marked)
    }

    // The page gets free blocks.
    fn fill(&mut self, id: PageId, marked: bool) -> ReadJob<D>
        requires ready { ReadyLoad self.old id (entry_at self.old id.name) }
        ensures parts { self.new ≡ loaded id (entry_at self.old id.name) self.old }
        ensures job { result ≡ read_job marked id (entry_at self.old id.name) result.buf }
        ensures buffer { IsBufferOf (entry_at self.old id.name).blocks self.old.arena.block_len result.buf }
    {
        self.entries = lengths::counted(self.entries);
        let Lent {
            shell,
            row,
            client,
            blocks,
            version,
        } = lend_at(&mut self.pages, id);
        let len = lengths::bytes(self.block_len, blocks);
        let buf = self.arena.fill(shell);
        self.lists.push(client, Which::Pinned, id.key, len);
        self.tree.charge(TrackerId::of(client), len);
        ReadJob {
            id,
            client,
            under: under(marked, version),
            buf,
            row,
            failed: false,
            stale: None,
        }
    }
}

/// What a page lends when it is loaded, and whose it is.
struct Lent<D> {
    shell: Shell,
    row: SlotRow<D>,
    client: u32,
    blocks: u32,
    version: u64,
}

// An evicted page lends its shell and its slots, and is loading.
#[inline]
fn lend<D: Drop>(entry: &mut Entry<Kept<D>>) -> (Shell, SlotRow<D>)
    requires room { entry.old.mem ≡ mem.Empty entry.old.blocks }
    requires slots { IsKeptOf entry.old.blocks spot.Evicted entry.old.scratch }
    ensures entry { entry.new ≡ loading entry.old }
    ensures shell { result.0 ≡ entry.old.blocks }
    ensures row { result.1 ≡ row_in entry.old.scratch }
{
    entry.place = Place::Loading;
    let Mem::Empty(shell) = mem::replace(&mut entry.mem, Mem::Out) else {
        unreachable!()
    };
    let Kept::Held(row) = mem::replace(&mut entry.scratch, Kept::Out) else {
        unreachable!()
    };
    (shell, row)
}

// The same of the page in the table.
fn lend_at<D: Drop>(pages: &mut PageTable<Kept<D>>, id: PageId) -> Lent<D>
    requires live { IsLive pages.old id }
    requires room { (entry_in pages.old id.name).mem ≡ mem.Empty (entry_in pages.old id.name).blocks }
    requires slots { IsKeptOf (entry_in pages.old id.name).blocks spot.Evicted (entry_in pages.old id.name).scratch }
    ensures pages { pages.new ≡ with_entry pages.old id (loading (entry_in pages.old id.name)) }
    ensures shell { result.shell ≡ (entry_in pages.old id.name).blocks }
    ensures row { result.row ≡ row_in (entry_in pages.old id.name).scratch }
    ensures client { result.client ≡ (entry_in pages.old id.name).client }
    ensures blocks { result.blocks ≡ (entry_in pages.old id.name).blocks }
    ensures version { result.version ≡ (entry_in pages.old id.name).version }
{
    let entry = pages.entry_mut(id);
    let client = entry.client;
    let blocks = entry.blocks;
    let version = entry.version;
    let (shell, row) = lend(entry);
    Lent {
        shell,
        row,
        client,
        blocks,
        version,
    }
}

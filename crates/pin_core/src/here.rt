//! A page that is in memory is pinned.
ghost use Rattle.std.specs.Prelude.{◌≡◌, true};
ghost use Rattle.page_table.specs.Pages.{IsLive, with_entry};
ghost use Rattle.pin_core.specs.parts.Changes.{entry_in, entry_at};
ghost use Rattle.pin_core.specs.parts.Flights.{buffer_in, is_held_mem};
ghost use Rattle.pin_core.specs.parts.Pinning.{ReadyDirty, ReadyClean, with_client, pinned_dirty, pinned_clean};

use crate::kept::Kept;
use crate::lengths;
use crate::parts::Parts;
use block_arena::Buf;
use client_lists::Which;
use page_table::{Mem, PageId, PageTable, Place};
use reservation_tree::TrackerId;
use std::mem;

impl<D: Drop> Parts<D> {
    // A dirty page is pinned, and gives its buffer.
    pub(crate) fn pin_dirty(&mut self, id: PageId) -> Buf
        requires ready { ReadyDirty self.old id (entry_at self.old id.name) }
        ensures parts { self.new ≡ pinned_dirty id (entry_at self.old id.name) self.old }
        ensures buffer { result ≡ buffer_in (entry_at self.old id.name).mem }
    {
        self.entries = lengths::counted(self.entries);
        let Taken {
            buf,
            client,
            blocks,
        } = take_at(&mut self.pages, id);
        let len = lengths::bytes(self.block_len, blocks);
        self.lists.shift(client, id.key, Which::Pinned);
        self.tree.charge(TrackerId::of(client), len);
        buf
    }

    // A clean page is pinned, and gives its buffer.
    pub(crate) fn pin_clean(&mut self, id: PageId) -> Buf
        requires ready { ReadyClean self.old id (entry_at self.old id.name) }
        ensures parts { self.new ≡ pinned_clean id (entry_at self.old id.name) self.old }
        ensures buffer { result ≡ buffer_in (entry_at self.old id.name).mem }
    {
        self.entries = lengths::counted(self.entries);
        let Taken {
            buf,
            client,
            blocks,
        } = take_at(&mut self.pages, id);
        let len = lengths::bytes(self.block_len, blocks);
        self.clean.remove(id.key);
        self.lists.push(client, Which::Pinned, id.key, len);
        self.tree.charge(TrackerId::of(client), len);
        buf
    }
}

/// What a page gives when it is pinned, and whose it is.
struct Taken {
    buf: Buf,
    client: u32,
    blocks: u32,
}

// A page that holds its buffer gives it, and has one pin.
fn take_at<D: Drop>(pages: &mut PageTable<Kept<D>>, id: PageId) -> Taken
    requires live { IsLive pages.old id }
    requires held { is_held_mem (entry_in pages.old id.name).mem ≡ true }
    ensures pages { pages.new ≡ with_entry pages.old id (with_client (entry_in pages.old id.name)) }
    ensures buffer { result.buf ≡ buffer_in (entry_in pages.old id.name).mem }
    ensures client { result.client ≡ (entry_in pages.old id.name).client }
    ensures blocks { result.blocks ≡ (entry_in pages.old id.name).blocks }
{
    let entry = pages.entry_mut(id);
    entry.place = Place::Pinned(1);
    let Mem::Held(buf) = mem::replace(&mut entry.mem, Mem::Out) else {
        unreachable!()
    };
    Taken {
        buf,
        client: entry.client,
        blocks: entry.blocks,
    }
}

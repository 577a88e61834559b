//! What a page takes along when its bytes are stored or loaded outside the pool's value.
ghost use Rattle.std.specs.Prelude.{◌≡◌, true};
ghost use Rattle.page_table.specs.declared.entry.Place.TheVariants as spot;
ghost use Rattle.page_table.specs.Pages.{IsLive, with_entry};
ghost use Rattle.pin_core.specs.parts.Changes.{entry_in};
ghost use Rattle.pin_core.specs.Invariant.{IsKeptOf};
ghost use Rattle.pin_core.specs.parts.Keeping.{row_in};
ghost use Rattle.pin_core.specs.Marking.{under_of};
ghost use Rattle.pin_core.specs.parts.Flights.{buffer_in, flying, is_held_mem, job_of, put_back};

use crate::kept::Kept;
use block_arena::Buf;
use page_table::{Entry, Mem, PageId, PageTable, Place};
use reservation_tree::Mark;
use scratch_dev::SlotRow;
use std::mem;

/// A page that is written: its buffer, its slots, and who writes it.
pub struct WriteJob<D> {
    pub id: PageId,
    pub who: u32,
    pub client: u32,
    /// The version under which its blocks are stored, where they get marks.
    pub under: Option<u64>,
    pub buf: Buf,
    pub row: SlotRow<D>,
    /// Whether a store failed.
    pub failed: bool,
}

/// A page that is loaded: its buffer, and its slots.
pub struct ReadJob<D> {
    pub id: PageId,
    pub client: u32,
    /// The version under which its blocks were stored, where they have marks.
    pub under: Option<u64>,
    pub buf: Buf,
    pub row: SlotRow<D>,
    /// Whether a load failed.
    pub failed: bool,
    /// The mark that was found in the place of another, where that ended the loads.
    pub stale: Option<Stale>,
}

/// The mark that was wanted of a block, and the one that was found.
#[derive(Clone, Copy, Debug, PartialEq, Eq)]
pub struct Stale {
    pub wanted: Mark,
    pub found: Mark,
}

// The version, where blocks have marks.
pub(crate) fn under(marked: bool, version: u64) -> Option<u64>
    ensures { result ≡ under_of marked version }
{
    if marked { Some(version) } else { None }
}

// A dirty page goes out with its buffer and its slots.
#[inline]
fn fly<D: Drop>(entry: &mut Entry<Kept<D>>, who: u32, version: u64) -> (Buf, SlotRow<D>)
    requires held { is_held_mem entry.old.mem ≡ true }
    requires slots { IsKeptOf entry.old.blocks spot.Dirty entry.old.scratch }
    ensures entry { entry.new ≡ flying who version entry.old }
    ensures buffer { result.0 ≡ buffer_in entry.old.mem }
    ensures row { result.1 ≡ row_in entry.old.scratch }
{
    entry.place = Place::Flying(who);
    entry.version = version;
    let Mem::Held(buf) = mem::replace(&mut entry.mem, Mem::Out) else {
        unreachable!()
    };
    let Kept::Held(row) = mem::replace(&mut entry.scratch, Kept::Out) else {
        unreachable!()
    };
    (buf, row)
}

// The same of the page in the table.
pub(crate) fn fly_at<D: Drop>(
    pages: &mut PageTable<Kept<D>>,
    id: PageId,
    who: u32,
    version: u64,
    under: Option<u64>,
) -> WriteJob<D>
    requires live { IsLive pages.old id }
    requires held { is_held_mem (entry_in pages.old id.name).mem ≡ true }
    requires slots { IsKeptOf (entry_in pages.old id.name).blocks spot.Dirty (entry_in pages.old id.name).scratch }
    ensures pages { pages.new ≡ with_entry pages.old id (flying who version (entry_in pages.old id.name)) }
    ensures job { result ≡ job_of who under id (entry_in pages.old id.name) }
{
    let entry = pages.entry_mut(id);
    let client = entry.client;
    let (buf, row) = fly(entry, who, version);
    WriteJob {
        id,
        who,
        client,
        under,
        buf,
        row,
        failed: false,
    }
}

// A page comes back to this place with what it keeps in memory, and with its slots. Whose session's it is.
pub(crate) fn put_at<D: Drop>(
    pages: &mut PageTable<Kept<D>>,
    id: PageId,
    place: Place,
    mem: Mem,
    row: SlotRow<D>,
) -> u32
    requires live { IsLive pages.old id }
    ensures pages { pages.new ≡ with_entry pages.old id (put_back place mem row (entry_in pages.old id.name)) }
    ensures session { result ≡ (entry_in pages.old id.name).session }
{
    let entry = pages.entry_mut(id);
    entry.place = place;
    entry.mem = mem;
    entry.scratch = Kept::Held(row);
    entry.session
}

//! What is read of a live page.
ghost use Rattle.std.specs.Prelude.{◌≡◌};
ghost use Rattle.page_table.specs.Pages.{IsLive};
ghost use Rattle.pin_core.specs.parts.Changes.{entry_in};

use crate::kept::Kept;
use page_table::{PageId, PageTable, Place};

/// Whose a page is, how many blocks it has, and where it is.
#[derive(Clone, Copy)]
pub(crate) struct Look {
    pub(crate) client: u32,
    pub(crate) blocks: u32,
    pub(crate) place: Place,
}

#[inline]
pub(crate) fn look_at<D: Drop>(pages: &PageTable<Kept<D>>, id: PageId) -> Look
    requires { IsLive pages.now id }
    ensures client { result.client ≡ (entry_in pages.now id.name).client }
    ensures blocks { result.blocks ≡ (entry_in pages.now id.name).blocks }
    ensures place { result.place ≡ (entry_in pages.now id.name).place }
{
    let entry = pages.get(id).unwrap();
    Look {
        client: entry.client,
        blocks: entry.blocks,
        place: entry.place,
    }
}

//! What a page that ends gives back.
ghost use Rattle.std.specs.Prelude.{◌≡◌, ◌<◌, ◌≤◌, ◌*◌, true, length, IsSome};
ghost use Rattle.index_list.specs.Listing.{stands_in};
ghost use Rattle.page_table.specs.declared.entry.Place.TheVariants as spot;
ghost use Rattle.client_lists.specs.Clients.{IsOn};
ghost use Rattle.clean_evict.specs.Eviction.{with_freed};
ghost use Rattle.scratch_dev.specs.Pool.{quota_of, lent_of};
ghost use Rattle.pool_model.specs.State.{pins_of};
ghost use Rattle.pool_model.specs.Bytes.{bytes_of};
ghost use Rattle.pin_core.specs.parts.Keeping.{row_in};
ghost use Rattle.pin_core.specs.StateOf.{place_in};
ghost use Rattle.pin_core.specs.parts.Leavings.{is_listed, lists_left, clean_left, IfHeld, TakesBack, held_in, blocks_in, slots_back};

use crate::kept::Kept;
use crate::lengths;
use block_arena::{Arena, Buf};
use clean_evict::CleanList;
use client_lists::ClientLists;
use page_table::{Mem, Place};
use scratch_dev::SlotPool;

// The page leaves the list on which it is, if any.
pub(crate) fn leave(
    lists: &mut ClientLists,
    clean: &mut CleanList,
    place: Place,
    client: u32,
    key: u32,
)
    requires listed { is_listed place ≡ true → IsOn client key lists.old }
    requires clean { place ≡ spot.Clean → stands_in key clean.old.keys ≡ true }
    ensures lists { lists.new ≡ lists_left place key lists.old }
    ensures clean { clean.new ≡ clean_left place key clean.old }
{
    match place {
        Place::Pinned(_) | Place::Dirty => lists.take_out(client, key),
        Place::Clean => clean.remove(key),
        Place::Flying(_) | Place::Loading | Place::Evicted => {}
    }
}

// The blocks of the page's buffer, the one in the table or the one that its client had, are free.
pub(crate) fn free_blocks(arena: &mut Arena, mem: Mem, buf: Option<Buf>)
    requires { IfHeld (TakesBack arena.old) (held_in mem buf) }
    ensures { arena.new ≡ with_freed (blocks_in (held_in mem buf)) arena.old }
{
    let held = match mem {
        Mem::Held(own) => Some(own),
        Mem::Empty(_) | Mem::Out => buf,
    };
    if let Some(buf) = held {
        let _shell = arena.take_back(buf);
    }
}

// The page's slots are free for its session.
pub(crate) fn free_slots<D: Drop>(slots: &mut SlotPool<D>, q: u32, kept: Kept<D>)
    requires number { q < length slots.old.quotas }
    requires open { IsSome (quota_of slots.old q) }
    requires lent { length (row_in kept) ≤ lent_of slots.old q }
    ensures { slots.new ≡ slots_back q kept slots.old }
{
    if let Kept::Held(row) = kept {
        let _shell = slots.give(q, row);
    }
}

// The bytes of so many blocks, once for each pin.
pub(crate) fn pinned_bytes(block_len: u32, blocks: u32, place: Place) -> u64
    requires { bytes_of block_len blocks ≤ 16777216 }
    ensures { result ≡ pins_of (place_in place) * bytes_of block_len blocks }
{
    let pins = match place {
        Place::Pinned(pins) => pins,
        _ => 0,
    };
    u64::from(pins) * lengths::bytes(block_len, blocks)
}

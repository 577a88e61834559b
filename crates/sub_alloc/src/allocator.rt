//! The suballocator, how it begins and ends, and what it says of itself.
ghost use Rattle.std.specs.Prelude.{◌≡◌, ℕ, ◌*◌, ◌≤◌, ◌<◌, IfOk, None};
ghost use Rattle.block_arena.specs.Blocks.{IsBlockLen};
ghost use Rattle.store_api.specs.Conditions.{IsBlockCount, IsIdle, IsLiveClient};
ghost use Rattle.store_api.specs.Holdings.{Holdings};
ghost use Rattle.sub_alloc.specs.Pieces.{HasNoLive, buffer, buffer_len, piece_at, places};
ghost use Rattle.sub_alloc.specs.Tiling.{IsNew, IsWhole};
ghost use Rattle.sub_alloc.specs.Lending.{IsAllocOf};

use crate::piece::Piece;
use index_list::Lists;
use reservation_tree::Memory;
use std::alloc::Global;
use std::marker::Model;
use store_api::{Client, Loan, Store};

/// Pieces out of buffers of a store.
pub struct SubAlloc {
    pub(crate) block_len: u32,
    pub(crate) page_blocks: u32,
    pub(crate) classes: u32,
    pub(crate) buffers: Vec<Option<Loan>>,
    pub(crate) free: Lists,
    pub(crate) live: Vec<u8>,
}

impl Model for SubAlloc {
    ghost use Rattle.sub_alloc.specs.Pieces.{Division};

    ghost Value = { Division };

    ghost use Rattle.sub_alloc.specs.Tiling.{IsWhole};

    ghost view = { λ a. record {
      block_len = a.block_len;
      page_blocks = a.page_blocks;
      classes = a.classes;
      buffers = a.buffers.items;
      free = a.free;
      live = a.live.items;
    } };

    ghost invariant = { λ a. IsWhole (record {
      block_len = a.block_len;
      page_blocks = a.page_blocks;
      classes = a.classes;
      buffers = a.buffers.items;
      free = a.free;
      live = a.live.items;
    }) };
}

impl SubAlloc {
    /// An allocator over up to `bufs` buffers of `page_blocks` blocks, for a store whose blocks have `block_len` bytes. No
    /// buffer is open. A buffer has at most 1048576 bytes, and there are at most 64.
    ///
    /// Takes 13 bytes for each 64 bytes of all buffers, also of those that are never opened.
    ///
    /// # Errors
    ///
    /// `Memory`: there was not so much memory.
    pub fn open(
        alloc: Global,
        block_len: u32,
        page_blocks: u32,
        bufs: u32,
    ) -> Result<SubAlloc, Memory>
        requires block_len { IsBlockLen block_len }
        requires blocks { IsBlockCount page_blocks }
        requires short { page_blocks * block_len ≤ 1048576 }
        requires bufs { bufs ≤ 64 }
        ensures { IfOk result (IsNew block_len page_blocks bufs) }
    {
        let places = page_blocks * block_len / 64;
        let classes = places.ilog2() + 1;
        let nodes = bufs * places;
        let Ok(free) = Lists::with(alloc, nodes, classes) else {
            return Err(Memory);
        };
        let live = vec![in alloc; 0; nodes as usize]?;
        let mut buffers = Vec::with_capacity(alloc, bufs as usize)?;
        for _number in 0..bufs {
            buffers.push_reserved(None);
        }
        Ok(SubAlloc {
            block_len,
            page_blocks,
            classes,
            buffers,
            free,
            live,
        })
    }

    /// Ends an allocator that has no live piece. Then no buffer is open, and its client has nothing in the store.
    pub fn close(self)
        requires { HasNoLive self }
        ensures closed { (u : ℕ) → buffer u self ≡ None }
        ensures idle { (t : ℕ) (h : Holdings) → IsAllocOf t h self → IsIdle t h }
    {
        let SubAlloc {
            block_len: _,
            page_blocks: _,
            classes: _,
            mut buffers,
            free: _,
            live: _,
        } = self;
        while let Some(slot) = buffers.pop() {
            match slot {
                None => (),
                Some(_) => unreachable!(),
            }
        }
        buffers.destroy_empty();
    }

    /// What is true of every allocator: its pieces tile its open buffers, and the free ones are joined as far as they can be.
    pub fn law_whole(&self)
        ensures { IsWhole self.now }
    {
        let _classes = self.classes;
    }

    /// A new allocator is one of every client that has nothing in the store.
    pub fn law_new<St: Store>(&self, store: &St, c: &Client)
        requires new { (block_len : ℕ) × (page_blocks : ℕ) × (bufs : ℕ) × IsNew block_len page_blocks bufs self.now }
        requires block_len { self.now.block_len ≡ (St.holds store.now).block_len }
        requires client { IsLiveClient c.now (St.holds store.now) }
        requires idle { IsIdle c.now.tracker (St.holds store.now) }
        ensures { IsAllocOf c.now.tracker (St.holds store.now) self.now }
    {}

    /// How many bytes a buffer has: the most that a piece may have.
    pub fn buffer_len(&self) -> u32
        ensures { result ≡ buffer_len self.now }
    {
        64 * self.places()
    }

    // How many places a buffer has.
    pub(crate) fn places(&self) -> u32
        ensures value { result ≡ places self.now }
        ensures whole { IsWhole self.now }
    {
        1 << (self.classes - 1)
    }

    // The piece of a class at a place.
    pub(crate) fn piece(&self, class: u32, place: u32) -> Piece
        requires { class < self.now.classes }
        ensures { result ≡ piece_at self.now class place }
    {
        let within = self.places() - 1;
        Piece::of(
            place >> (self.classes - 1),
            64 * (place & within),
            64 << class,
        )
    }
}

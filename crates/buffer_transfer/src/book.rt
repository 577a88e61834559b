//! The book of live buffers.
ghost use Rattle.std.specs.Prelude.{◌≡◌, ◌<◌, ◌↔◌, None, IfOk, IsTrue};
ghost use Rattle.std.specs.FinMap.{get};
ghost use Rattle.buffer_transfer.specs.Buffers.{HasRoom, IsLive, IsProper, held_by, moved, opened, with_buffer, without_buffer};

use crate::lent::Lent;
use block_arena::Memory;
use slab::Slab;
use std::alloc::Global;
use std::marker::Model;

/// The live buffers of a pool.
#[derive(Drop)]
pub struct BufferBook {
    rows: Slab<Lent>,
    room: u32,
}

impl Model for BufferBook {
    ghost use Rattle.buffer_transfer.specs.Buffers.{Book, book_code};

    ghost Value = { Book };

    ghost coded = { book_code };

    ghost use Rattle.std.specs.Prelude.{◌≡◌, ◌^◌, ◌<◌};
    ghost use Rattle.buffer_transfer.specs.Rows.{book_in};

    ghost view = { λ book. book_in book.rows book.room };

    ghost invariant = { λ book. record {
      capacity : book.rows.capacity ≡ book.room;
      short : book.room < 2 ^ 32;
    } };
}

impl BufferBook {
    /// A book with no buffer yet. At most `buffers` buffers may be live.
    ///
    /// It is the one call that takes memory.
    ///
    /// # Errors
    ///
    /// `Memory`: there was no memory for the book, or it came in a size that isn't the one asked for.
    pub fn with(alloc: Global, buffers: u32) -> Result<BufferBook, Memory>
        ensures { IfOk result (λ book. book ≡ opened buffers) }
    {
        let rows = Slab::with_capacity(alloc, buffers as usize)?;
        // A number is below the capacity, so it is below `buffers` where the two are equal.
        if rows.capacity() != buffers as usize {
            return Err(Memory);
        }
        Ok(BufferBook {
            rows,
            room: buffers,
        })
    }

    /// Whether one more buffer may be live.
    #[inline]
    pub fn has_room(&self) -> bool
        ensures { IsTrue result ↔ HasRoom self.now }
    {
        self.rows.len() < self.room as usize
    }

    /// Enters a new buffer of so many blocks for a client, and gives its number.
    #[inline]
    pub fn open(&mut self, client: u32, blocks: u32) -> u32
        requires { HasRoom self.old }
        ensures vacant { get self.old.buffers result ≡ None }
        ensures in_range { result < self.old.room }
        ensures book { self.new ≡ with_buffer self.old result (record { client = client; blocks = blocks }) }
    {
        self.rows.insert_reserved(Lent { client, blocks }) as u32
    }

    /// Gives the buffer to a client. Its number and its blocks stay.
    #[inline]
    pub fn move_to(&mut self, id: u32, client: u32)
        requires { IsLive self.old id }
        ensures { self.new ≡ moved self.old id client }
    {
        self.rows[id as usize].client = client;
    }

    /// Ends the buffer. Its number may come again.
    #[inline]
    pub fn close(&mut self, id: u32)
        requires { IsLive self.old id }
        ensures { self.new ≡ without_buffer self.old id }
    {
        self.rows.remove(id as usize);
    }

    /// Whose the buffer is, and how many blocks it has. `None` is for a number that isn't live.
    #[inline]
    pub fn get(&self, id: u32) -> Option<Lent>
        ensures { result ≡ get self.now.buffers id }
    {
        self.rows.get(id as usize).copied()
    }

    /// How many blocks the client's live buffers have together.
    ///
    /// It goes over as many rows as buffers were ever live at once.
    pub fn held(&self, client: u32) -> u64
        ensures { result ≡ held_by self.now client }
    {
        self.law_proper();
        let mut blocks: u64 = 0;
        for (_, lent) in self.rows.iter() {
            if lent.client == client {
                blocks += u64::from(lent.blocks);
            }
        }
        blocks
    }

    /// What holds of every book: live numbers are below the room, and there are no more of them.
    #[inline]
    pub fn law_proper(&self)
        ensures { IsProper self.now }
    {
        let _capacity = self.rows.capacity();
    }
}

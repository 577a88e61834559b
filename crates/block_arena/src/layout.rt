//! How the bytes of one block lie in memory. Nothing else in this crate knows.
ghost use Rattle.std.specs.Prelude.{◌≡◌, ◌+◌, ◌≤◌, IfOk, drop, length, replicate};
ghost use Rattle.std.specs.Borrow.{Lends, Array, sem, u8 as byte};
ghost use Rattle.block_arena.specs.contracts.layout.Block.{the_row};
ghost use Rattle.block_arena.specs.Bytes.{behind_front, fitted};

use crate::shortage::Memory;
use std::alloc::Global;
use std::marker::Model;

/// How many bytes stand in front of a block's own, for a mark.
pub(crate) const FRONT: usize = 20;

/// The memory of a block that no buffer has had: taken, but not touched.
#[derive(Drop)]
pub(crate) struct Room {
    own: Vec<u8>,
}

impl Model for Room {
    ghost use Rattle.std.specs.Prelude.{◌≡◌, ◌≤◌, ◌-◌, ℕ, vec_len, vec_capacity};

    ghost Value = { ℕ };

    ghost view = { λ room. vec_capacity room.own - 20 };

    ghost invariant = { λ room. (vec_len room.own ≡ 0) × (20 ≤ vec_capacity room.own) };
}

impl Room {
    /// Room for a block of `len` bytes.
    pub(crate) fn of(alloc: Global, len: usize) -> Result<Room, Memory>
        requires { len ≤ 2147483648 }
        ensures { IfOk result (λ room. room ≡ len) }
    {
        let own = Vec::with_capacity(alloc, FRONT + len)?;
        Ok(Room { own })
    }

    /// The block of `len` zeros that stands there. Each byte is touched once.
    pub(crate) fn zeroed(self, len: usize) -> Block
        requires room { len ≤ self }
        requires short { len ≤ 2147483648 }
        ensures { result ≡ replicate len 0 }
    {
        let Room { mut own } = self;
        // There is room, so nothing is refused.
        let _grown = own.resize(FRONT + len, 0);
        Block { own }
    }
}

/// The memory of one block.
#[derive(Drop)]
pub(crate) struct Block {
    own: Vec<u8>,
}

impl Model for Block {
    ghost use Rattle.std.specs.Prelude.{◌≤◌, List, ℕ, drop, length};

    ghost Value = { List ℕ };

    ghost view = { λ block. drop 20 block.own.items };

    ghost invariant = { λ block. 20 ≤ length block.own.items };
}

impl Block {
    /// The bytes of the block.
    #[inline]
    pub(crate) fn bytes(&self) -> &[u8]
        ensures { result.now ≡ self.now }
    {
        &self.own.as_slice()[FRONT..]
    }

    /// The bytes of the block, to be written.
    #[inline]
    pub(crate) fn bytes_mut(&mut self) -> &mut [u8]
        ensures* writes_back { sem 𝓛 (Lends the_row (Array byte 0) self.entry result (fitted self.entry.now)) }
        ensures value { result.now ≡ self.old }
    {
        self.own.slice_mut(FRONT..)
    }

    /// The bytes of the block, and those in front of them.
    #[inline]
    pub(crate) fn marked(&self) -> &[u8]
        ensures value { drop 20 result.now ≡ self.now }
        ensures len { length result.now ≡ 20 + length self.now }
    {
        self.own.as_slice()
    }

    /// The bytes of the block and those in front of them, to be written.
    #[inline]
    pub(crate) fn marked_mut(&mut self) -> &mut [u8]
        ensures* writes_back { sem 𝓛 (Lends the_row (Array byte 0) self.entry result (behind_front self.entry.now)) }
        ensures value { drop 20 result.now ≡ self.old }
        ensures len { length result.now ≡ 20 + length self.old }
    {
        self.own.as_mut_slice()
    }

    /// Makes every byte zero.
    pub(crate) fn zero(&mut self)
        ensures { self.new ≡ replicate (length self.old) 0 }
    {
        self.own.as_mut_slice()[FRONT..].fill(0);
    }
}

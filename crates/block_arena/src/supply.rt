//! All blocks of a pool, taken once.
ghost use Rattle.std.specs.Prelude.{◌≡◌, ◌+◌, ◌-◌, ◌^◌, ◌≤◌, All, IfOk, ℕ, vec_len, vec_capacity};
ghost use Rattle.block_arena.specs.Blocks.{AreBlocks, IsBlockLen};
ghost use Rattle.block_arena.specs.Memory.{IsBufferOf};

use crate::buffer::Buf;
use crate::layout::{Block, Room};
use crate::length::BlockLen;
use crate::shells::Shell;
use crate::shortage::Memory;
use std::alloc::Global;
use std::marker::Model;

/// Blocks of one length, free or lent to buffers.
#[derive(Drop)]
pub struct Arena {
    each: BlockLen,
    opened: u32,
    // Free, and no buffer has had them.
    unused: Vec<Room>,
    // Free, and came back.
    back: Vec<Block>,
}

impl Model for Arena {
    ghost use Rattle.std.specs.Prelude.{◌≡◌, ◌≤◌, ◌<◌, ◌+◌, ◌^◌, All, vec_len, vec_capacity};
    ghost use Rattle.block_arena.specs.Blocks.{AreBlocks};
    ghost use Rattle.block_arena.specs.Memory.{Supply};

    ghost Value = { Supply };

    ghost view = { λ arena. record { block_len = 2 ^ arena.each.shift; blocks = arena.opened; free = vec_len arena.unused + vec_len arena.back } };

    ghost invariant = { λ arena. (arena.opened < 2 ^ 32) × (vec_len arena.unused + vec_len arena.back ≤ arena.opened) × (arena.opened ≤ vec_capacity arena.back) × All (λ room. room ≡ 2 ^ arena.each.shift) arena.unused.items × AreBlocks (2 ^ arena.each.shift) arena.back.items };
}

impl Arena {
    /// Takes the memory of `blocks` blocks of `block_len` bytes each. All of them are free.
    /// A block length is a power of two from 64 to 65536. The memory is asked of the allocator
    /// here, all of it; a block is touched when a buffer has it for the first time.
    ///
    /// # Errors
    ///
    /// `Memory`: there was not so much memory. What was taken is given back.
    pub fn open(alloc: Global, blocks: u32, block_len: u32) -> Result<Arena, Memory>
        requires { IsBlockLen block_len }
        ensures { IfOk result (λ arena. arena ≡ record { block_len = block_len; blocks = blocks; free = blocks }) }
    {
        let each = BlockLen::of(block_len);
        let mut unused = Vec::with_capacity(alloc, blocks as usize)?;
        for _i in 0..blocks {
            unused.push_reserved(Room::of(alloc, each.bytes())?);
        }
        Ok(Arena {
            each,
            opened: blocks,
            unused,
            back: Vec::with_capacity(alloc, blocks as usize)?,
        })
    }

    /// The number of free blocks.
    #[inline]
    pub fn free(&self) -> u32
        ensures value { result ≡ self.now.free }
        ensures most { result ≤ self.now.blocks }
    {
        (self.unused.len() + self.back.len()) as u32
    }

    /// A buffer of as many free blocks as the shell has room for. Its bytes are any bytes.
    /// Blocks that came back are taken first.
    pub fn fill(&mut self, shell: Shell) -> Buf
        requires { shell ≤ self.old.free }
        ensures buffer { IsBufferOf shell self.old.block_len result }
        ensures arena { self.new ≡ record self.old { free = self.old.free - shell } }
        ensures most { self.old.free ≤ self.old.blocks }
    {
        let Shell {
            room,
            none: mut blocks,
        } = shell;
        let again = room.min(self.back.len() as u32);
        move_blocks(&mut self.back, &mut blocks, again);
        first_blocks(&mut self.unused, &mut blocks, room - again, self.each);
        Buf {
            each: self.each,
            blocks,
        }
    }

    /// Takes the blocks of a buffer back, and gives a shell with room for as many.
    pub fn take_back(&mut self, buf: Buf) -> Shell
        requires block_len { buf.block_len ≡ self.old.block_len }
        requires room { self.old.free + buf.blocks ≤ self.old.blocks }
        ensures shell { result ≡ buf.blocks }
        ensures arena { self.new ≡ record self.old { free = self.old.free + buf.blocks } }
    {
        let Buf {
            each: _,
            mut blocks,
        } = buf;
        let room = blocks.len() as u32;
        move_blocks(&mut blocks, &mut self.back, room);
        Shell { room, none: blocks }
    }
}

// Moves that many blocks from the end of one list to the end of another.
fn move_blocks(from: &mut Vec<Block>, to: &mut Vec<Block>, count: u32)
    requires enough { count ≤ vec_len from.old }
    requires room { vec_len to.old + count ≤ vec_capacity to.old }
    ensures left { vec_len from.new + count ≡ vec_len from.old }
    ensures moved { vec_len to.new ≡ vec_len to.old + count }
    ensures from_room { vec_capacity from.new ≡ vec_capacity from.old }
    ensures to_room { vec_capacity to.new ≡ vec_capacity to.old }
    ensures from_sizes { (len : ℕ) → AreBlocks len from.old.items → AreBlocks len from.new.items }
    ensures to_sizes { (len : ℕ) → AreBlocks len from.old.items → AreBlocks len to.old.items → AreBlocks len to.new.items }
{
    for _i in 0..count {
        to.push_reserved(from.take_last());
    }
}

// Makes blocks in that many rooms from the end of one list, at the end of another.
fn first_blocks(from: &mut Vec<Room>, to: &mut Vec<Block>, count: u32, each: BlockLen)
    requires enough { count ≤ vec_len from.old }
    requires room { vec_len to.old + count ≤ vec_capacity to.old }
    requires rooms { All (λ room. room ≡ 2 ^ each.shift) from.old.items }
    ensures left { vec_len from.new + count ≡ vec_len from.old }
    ensures made { vec_len to.new ≡ vec_len to.old + count }
    ensures to_room { vec_capacity to.new ≡ vec_capacity to.old }
    ensures from_sizes { All (λ room. room ≡ 2 ^ each.shift) from.new.items }
    ensures to_sizes { AreBlocks (2 ^ each.shift) to.old.items → AreBlocks (2 ^ each.shift) to.new.items }
{
    for _i in 0..count {
        to.push_reserved(from.take_last().zeroed(each.bytes()));
    }
}

//! A buffer: some blocks, seen as one list of bytes.
ghost use Rattle.std.specs.Prelude.{◌≡◌, ◌+◌, ◌*◌, ◌^◌, ◌%◌, ◌<◌, ◌≤◌, drop, length, replicate, slice_range};
ghost use Rattle.std.specs.Borrow.{Lends, Array, sem, u8 as byte};
ghost use Rattle.block_arena.specs.contracts.buffer.Buf.{the_row};
ghost use Rattle.block_arena.specs.Bytes.{written};
ghost use Rattle.block_arena.specs.Memory.{block_of, with_block, with_bytes, with_marked};

use crate::layout::Block;
use crate::length::BlockLen;
use std::marker::Model;

/// A list of blocks of one length that need not be adjacent.
#[derive(Drop)]
pub struct Buf {
    pub(crate) each: BlockLen,
    pub(crate) blocks: Vec<Block>,
}

impl Model for Buf {
    ghost use Rattle.std.specs.Prelude.{◌<◌, ◌^◌, length};
    ghost use Rattle.std.specs.List.{concat};
    ghost use Rattle.block_arena.specs.Blocks.{AreBlocks};
    ghost use Rattle.block_arena.specs.Memory.{Buffer};

    ghost Value = { Buffer };

    ghost view = { λ buf. record { block_len = 2 ^ buf.each.shift; blocks = length buf.blocks.items; bytes = concat buf.blocks.items } };

    ghost invariant = { λ buf. (length buf.blocks.items < 2 ^ 32) × AreBlocks (2 ^ buf.each.shift) buf.blocks.items };
}

impl Buf {
    /// The number of bytes.
    #[inline]
    pub fn len(&self) -> usize
        ensures value { result ≡ length self.now.bytes }
        ensures whole { result ≡ self.now.blocks * self.now.block_len }
    {
        self.blocks.len() * self.each.bytes()
    }

    /// The bytes of the block `i`, counted from 0.
    #[inline]
    pub fn block(&self, i: usize) -> &[u8]
        requires { i < self.now.blocks }
        ensures value { result.now ≡ block_of self.now i }
        ensures len { length result.now ≡ self.now.block_len }
    {
        self.blocks[i].bytes()
    }

    /// The bytes of the block `i`, to be written. What is left there is the block's.
    #[inline]
    pub fn block_mut(&mut self, i: usize) -> &mut [u8]
        requires { i < self.old.blocks }
        ensures* writes_back { sem 𝓛 (Lends the_row (Array byte 0) self.entry result (with_block self.entry.now i)) }
        ensures value { result.now ≡ block_of self.old i }
        ensures len { length result.now ≡ self.old.block_len }
    {
        let block = &mut self.blocks[i];
        block.bytes_mut()
    }

    /// The bytes of the block `i` with the twenty that stand in front of them, in which a mark has room.
    #[inline]
    pub fn marked(&self, i: usize) -> &[u8]
        requires { i < self.now.blocks }
        ensures value { drop 20 result.now ≡ block_of self.now i }
        ensures len { length result.now ≡ 20 + self.now.block_len }
    {
        self.blocks[i].marked()
    }

    /// The same, to be written. What is left behind the first twenty is the block's.
    #[inline]
    pub fn marked_mut(&mut self, i: usize) -> &mut [u8]
        requires { i < self.old.blocks }
        ensures* writes_back { sem 𝓛 (Lends the_row (Array byte 0) self.entry result (with_marked self.entry.now i)) }
        ensures value { drop 20 result.now ≡ block_of self.old i }
        ensures len { length result.now ≡ 20 + self.old.block_len }
    {
        let block = &mut self.blocks[i];
        block.marked_mut()
    }

    /// Copies the bytes from `at` on into `out`. They may lie in several blocks.
    #[inline]
    pub fn read_at(&self, at: usize, out: &mut [u8])
        requires { at + length out.old ≤ length self.now.bytes }
        ensures { out.new ≡ slice_range self.now.bytes at (at + length out.old) }
    {
        if out.len() <= self.rest_of_block(at) {
            self.read_in_block(at, out);
        } else {
            self.read_across(at, out);
        }
    }

    /// Copies `bytes` into the buffer from the byte `at` on. They may lie in several blocks.
    #[inline]
    pub fn write_at(&mut self, at: usize, bytes: &[u8])
        requires { at + length bytes.now ≤ length self.old.bytes }
        ensures value { self.new ≡ with_bytes self.old (written at bytes.now self.old.bytes) }
        ensures len { length self.new.bytes ≡ length self.old.bytes }
    {
        if bytes.len() <= self.rest_of_block(at) {
            self.write_in_block(at, bytes);
        } else {
            self.write_across(at, bytes);
        }
    }

    /// Makes every byte zero.
    pub fn zero(&mut self)
        ensures { self.new ≡ with_bytes self.old (replicate (length self.old.bytes) 0) }
    {
        for i in 0..self.blocks.len() {
            self.blocks[i].zero();
        }
    }

    // How many bytes the block of the byte `at` has from there on.
    #[inline]
    fn rest_of_block(&self, at: usize) -> usize
        ensures value { result + at % self.now.block_len ≡ self.now.block_len }
        ensures some { 0 < result }
        ensures short { length self.now.bytes < 2 ^ 64 }
    {
        self.each.bytes() - self.each.place_of(at)
    }

    // One copy. No bytes are asked for behind the last block.
    #[inline]
    fn read_in_block(&self, at: usize, out: &mut [u8])
        requires inside { at + length out.old ≤ length self.now.bytes }
        requires one { length out.old + at % self.now.block_len ≤ self.now.block_len }
        ensures { out.new ≡ slice_range self.now.bytes at (at + length out.old) }
    {
        let index = self.each.block_of(at);
        if index < self.blocks.len() {
            let from = self.each.place_of(at);
            let block = self.blocks[index].bytes();
            out.copy_from_slice(&block[from..from + out.len()]);
        }
    }

    // A copy for each block.
    #[inline(never)]
    fn read_across(&self, at: usize, out: &mut [u8])
        requires short { length self.now.bytes < 2 ^ 64 }
        requires inside { at + length out.old ≤ length self.now.bytes }
        ensures { out.new ≡ slice_range self.now.bytes at (at + length out.old) }
    {
        let mut done = 0;
        while done < out.len() {
            let read = self.rest_of_block(at + done).min(out.len() - done);
            self.read_in_block(at + done, &mut out[done..done + read]);
            done += read;
        }
    }

    // One copy. No bytes are given for a place behind the last block.
    #[inline]
    fn write_in_block(&mut self, at: usize, bytes: &[u8])
        requires inside { at + length bytes.now ≤ length self.old.bytes }
        requires one { length bytes.now + at % self.old.block_len ≤ self.old.block_len }
        ensures { self.new ≡ with_bytes self.old (written at bytes.now self.old.bytes) }
    {
        let index = self.each.block_of(at);
        if index < self.blocks.len() {
            let from = self.each.place_of(at);
            let block = self.blocks[index].bytes_mut();
            block[from..from + bytes.len()].copy_from_slice(bytes);
        }
    }

    // A copy for each block.
    #[inline(never)]
    fn write_across(&mut self, at: usize, bytes: &[u8])
        requires short { length self.old.bytes < 2 ^ 64 }
        requires inside { at + length bytes.now ≤ length self.old.bytes }
        ensures { self.new ≡ with_bytes self.old (written at bytes.now self.old.bytes) }
    {
        let mut done = 0;
        while done < bytes.len() {
            let written = self.rest_of_block(at + done).min(bytes.len() - done);
            self.write_in_block(at + done, &bytes[done..done + written]);
            done += written;
        }
    }
}

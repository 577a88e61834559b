//! Several loans of one length, as one list of bytes.
ghost use Rattle.std.specs.Prelude.{◌≡◌, ◌↔◌, ◌+◌, ◌*◌, ◌<◌, ◌≤◌, ◌/◌, ◌%◌, ◌^◌, length, replicate, true, IfSome, OnSome};
ghost use Rattle.block_arena.specs.Bytes.{written};
ghost use Rattle.bucket_table.specs.Lending.{bytes_of};
ghost use Rattle.bucket_table.specs.Regions.{cut, with_bytes};

use crate::same::are_same;
use crate::stride::Stride;
use block_arena::Buf;
use std::marker::Model;
use store_api::Loan;

// Loans of `each` bytes. All their blocks have the length `block`.
pub(crate) struct Area {
    pub(crate) blocks: u32,
    pub(crate) block: Stride,
    pub(crate) each: Stride,
    pub(crate) parts: Vec<Loan>,
}

impl Model for Area {
    ghost use Rattle.std.specs.Prelude.{map};
    ghost use Rattle.bucket_table.specs.Regions.{Region, AreParts, area_of, lent};

    ghost Value = { Region };

    ghost view = { λ a. record { blocks = a.blocks; block_len = a.block.len; loans = map lent a.parts.items; bytes = area_of a.parts.items } };

    ghost invariant = { λ a. AreParts a.blocks a.block.len a.each.len a.parts.items };
}

// The bytes from a place on that lie in one block of a buffer, and so many at most.
#[inline]
fn front_of(buf: &Buf, block: Stride, from: usize, most: usize) -> &[u8]
    requires some { 0 < most }
    requires block { block.len ≡ buf.now.block_len }
    requires inside { from / block.len < buf.now.blocks }
    ensures value { result.now ≡ cut from (length result.now) buf.now.bytes }
    ensures some { 0 < length result.now }
    ensures most { length result.now ≤ most }
    ensures one { length result.now + from % block.len ≤ block.len }
{
    let place = block.place(from);
    let count = most.min(block.len() - place);
    let bytes = buf.block(block.part(from));
    &bytes[place..place + count]
}

// So many bytes of a buffer from a place on, where they lie in one block.
#[inline]
fn piece_of(buf: &Buf, block: Stride, from: usize, count: usize) -> Option<&[u8]>
    requires block { block.len ≡ buf.now.block_len }
    requires inside { from / block.len < buf.now.blocks }
    ensures value { IfSome result (λ bytes. bytes.now ≡ cut from count buf.now.bytes) }
    ensures count { IfSome result (λ bytes. length bytes.now ≡ count) }
    ensures one { OnSome result (count + from % block.len ≤ block.len) }
{
    let place = block.place(from);
    if count > block.len() - place {
        return None;
    }
    let bytes = buf.block(block.part(from));
    Some(&bytes[place..place + count])
}

impl Area {
    // How many bytes there are.
    #[inline]
    pub(crate) fn len(&self) -> usize
        ensures value { result ≡ length self.now.bytes }
        ensures lent { result ≡ bytes_of self.now.loans }
        ensures short { result < 2 ^ 32 }
    {
        self.parts.len() * self.each.len()
    }

    // How many loans there are.
    #[inline]
    pub(crate) fn count(&self) -> usize
        ensures { result ≡ length self.now.loans }
    {
        self.parts.len()
    }

    // Makes every byte zero.
    pub(crate) fn zero(&mut self)
        ensures { self.new ≡ with_bytes (replicate (length self.old.bytes) 0) self.old }
    {
        for i in 0..self.parts.len() {
            let part = &mut self.parts[i];
            part.buf_mut().zero();
        }
    }

    // The bytes from a place on that lie in one block, and so many at most.
    #[inline]
    pub(crate) fn front(&self, at: usize, most: usize) -> &[u8]
        requires some { 0 < most }
        requires inside { at + most ≤ length self.now.bytes }
        ensures value { result.now ≡ cut at (length result.now) self.now.bytes }
        ensures some { 0 < length result.now }
        ensures most { length result.now ≤ most }
        ensures short { length self.now.bytes < 2 ^ 32 }
    {
        let loan = &self.parts[self.each.part(at)];
        front_of(loan.buf(), self.block, self.each.place(at), most)
    }

    // So many bytes from a place on, where they lie in one block.
    #[inline]
    pub(crate) fn piece(&self, at: usize, count: usize) -> Option<&[u8]>
        requires inside { at < length self.now.bytes }
        ensures value { IfSome result (λ bytes. bytes.now ≡ cut at count self.now.bytes) }
        ensures count { IfSome result (λ bytes. length bytes.now ≡ count) }
        ensures short { OnSome result (count < 2 ^ 32) }
    {
        let loan = &self.parts[self.each.part(at)];
        piece_of(loan.buf(), self.block, self.each.place(at), count)
    }

    // Copies the bytes from a place on. They may lie in several blocks.
    #[inline]
    pub(crate) fn read(&self, at: usize, out: &mut [u8])
        requires some { 0 < length out.old }
        requires inside { at + length out.old ≤ length self.now.bytes }
        ensures { out.new ≡ cut at (length out.old) self.now.bytes }
    {
        let front = self.front(at, out.len());
        if front.len() == out.len() {
            out.copy_from_slice(front);
        } else {
            self.read_across(at, out);
        }
    }

    // A copy for each block.
    #[inline(never)]
    fn read_across(&self, at: usize, out: &mut [u8])
        requires short { length self.now.bytes < 2 ^ 32 }
        requires inside { at + length out.old ≤ length self.now.bytes }
        ensures { out.new ≡ cut at (length out.old) self.now.bytes }
    {
        let mut done = 0;
        while done < out.len() {
            let front = self.front(at + done, out.len() - done);
            let count = front.len();
            out[done..done + count].copy_from_slice(front);
            done += count;
        }
    }

    // Whether these bytes stand from a place on.
    #[inline]
    pub(crate) fn shows(&self, at: usize, bytes: &[u8]) -> bool
        requires some { 0 < length bytes.now }
        requires inside { at + length bytes.now ≤ length self.now.bytes }
        ensures { result ≡ true ↔ (cut at (length bytes.now) self.now.bytes ≡ bytes.now) }
    {
        let front = self.front(at, bytes.len());
        if front.len() == bytes.len() {
            are_same(front, bytes)
        } else {
            self.shows_across(at, bytes)
        }
    }

    // A comparison for each block.
    #[inline(never)]
    fn shows_across(&self, at: usize, bytes: &[u8]) -> bool
        requires short { length self.now.bytes < 2 ^ 32 }
        requires inside { at + length bytes.now ≤ length self.now.bytes }
        ensures { result ≡ true ↔ (cut at (length bytes.now) self.now.bytes ≡ bytes.now) }
    {
        let mut done = 0;
        while done < bytes.len() {
            let front = self.front(at + done, bytes.len() - done);
            let count = front.len();
            if !are_same(front, &bytes[done..done + count]) {
                return false;
            }
            done += count;
        }
        true
    }

    // Writes bytes from a place on. They may lie in several loans.
    #[inline(always)]
    pub(crate) fn write(&mut self, at: usize, bytes: &[u8])
        requires some { 0 < length bytes.now }
        requires inside { at + length bytes.now ≤ length self.old.bytes }
        ensures { self.new ≡ with_bytes (written at bytes.now self.old.bytes) self.old }
    {
        if bytes.len() <= self.rest_of_part(at) {
            self.write_in_part(at, bytes);
        } else {
            self.write_across(at, bytes);
        }
    }

    // How many bytes the loan of the byte `at` has from there on.
    #[inline]
    fn rest_of_part(&self, at: usize) -> usize
        ensures value { result + at % (self.now.blocks * self.now.block_len) ≡ self.now.blocks * self.now.block_len }
        ensures some { 0 < result }
        ensures short { length self.now.bytes < 2 ^ 32 }
    {
        self.each.len() - self.each.place(at)
    }

    // Writes bytes that lie in one loan.
    #[inline(always)]
    fn write_in_part(&mut self, at: usize, bytes: &[u8])
        requires some { 0 < length bytes.now }
        requires inside { at + length bytes.now ≤ length self.old.bytes }
        requires one { length bytes.now + at % (self.old.blocks * self.old.block_len) ≤ self.old.blocks * self.old.block_len }
        ensures { self.new ≡ with_bytes (written at bytes.now self.old.bytes) self.old }
    {
        let part = &mut self.parts[self.each.part(at)];
        part.buf_mut().write_at(self.each.place(at), bytes);
    }

    // A copy for each loan.
    #[inline(never)]
    fn write_across(&mut self, at: usize, bytes: &[u8])
        requires short { length self.old.bytes < 2 ^ 32 }
        requires inside { at + length bytes.now ≤ length self.old.bytes }
        ensures { self.new ≡ with_bytes (written at bytes.now self.old.bytes) self.old }
    {
        let mut done = 0;
        while done < bytes.len() {
            let count = self.rest_of_part(at + done).min(bytes.len() - done);
            self.write_in_part(at + done, &bytes[done..done + count]);
            done += count;
        }
    }
}

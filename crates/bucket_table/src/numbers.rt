//! Numbers in the bytes of several loans, the most significant byte first.
ghost use Rattle.std.specs.Prelude.{◌≡◌, ◌+◌, ◌*◌, ◌/◌, ◌%◌, ◌<◌, ◌≤◌, ℕ, length};
ghost use Rattle.std.specs.Int.{w32, w128, to_be_bytes};
ghost use Rattle.block_arena.specs.Bytes.{written};
ghost use Rattle.block_arena.specs.Memory.{with_bytes as with_content};
ghost use Rattle.row_codec.specs.RowReading.{number_in};
ghost use Rattle.bucket_table.specs.Regions.{cut, link_at, with_bytes};

use crate::area::Area;
use crate::stride::Stride;
use block_arena::Buf;

// The number that four bytes spell.
#[inline]
#[tactic(auto, using(crate::proofs::Spelling::number_of_4))]
pub(crate) fn spelled(bytes: &[u8]) -> u32
    requires { length bytes.now ≡ 4 }
    ensures { result ≡ number_in bytes.now }
{
    let mut out = [0; 4];
    out.copy_from_slice(bytes);
    u32::from_be_bytes(out)
}

// The number that sixteen bytes spell.
#[inline]
#[tactic(auto, using(crate::proofs::Spelling::number_of_16))]
fn spelled_wide(bytes: &[u8]) -> u128
    requires { length bytes.now ≡ 16 }
    ensures { result ≡ number_in bytes.now }
{
    let mut out = [0; 16];
    out.copy_from_slice(bytes);
    u128::from_be_bytes(out)
}

// The sixteen bytes that spell a number. All of it is turned round before it is parted: a compiler does that by an
// instruction for each half, where the upper half alone would take it thirty.
#[inline]
fn spelling_of(value: u128) -> [u8; 16]
    ensures { result ≡ to_be_bytes w128 value }
{
    let turned = value.swap_bytes();
    let first = ((turned % (1 << 64)) as u64).to_le_bytes();
    let last = ((turned >> 64) as u64).to_le_bytes();
    let mut out = [0; 16];
    out[..8].copy_from_slice(&first);
    out[8..].copy_from_slice(&last);
    out
}

// Changes the number of sixteen bytes that lie in one block of a buffer.
#[inline(always)]
fn change_in<F: FnOnce(u128) -> u128>(buf: &mut Buf, block: Stride, from: usize, change: F)
    requires block { block.len ≡ buf.old.block_len }
    requires inside { from / block.len < buf.old.blocks }
    requires one { 16 + from % block.len ≤ block.len }
    requires call { F.pre change (number_in (cut from 16 buf.old.bytes)) }
    ensures { (number : ℕ) × F.post change (number_in (cut from 16 buf.old.bytes)) number × (buf.new ≡ with_content buf.old (written from (to_be_bytes w128 number) buf.old.bytes)) }
{
    let place = block.place(from);
    let bytes = buf.block_mut(block.part(from));
    let wide = &mut bytes[place..place + 16];
    let number = change(spelled_wide(wide));
    wide.copy_from_slice(&spelling_of(number));
}

impl Area {
    // The number of four bytes.
    #[inline]
    pub(crate) fn link(&self, at: usize) -> u32
        requires { at + 4 ≤ length self.now.bytes }
        ensures { result ≡ link_at self.now.bytes at }
    {
        match self.piece(at, 4) {
            Some(bytes) => spelled(bytes),
            None => self.link_across(at),
        }
    }

    // The same, of bytes that may lie in two blocks.
    #[inline(never)]
    #[tactic(auto, using(crate::proofs::Spelling::number_of_4))]
    fn link_across(&self, at: usize) -> u32
        requires { at + 4 ≤ length self.now.bytes }
        ensures { result ≡ link_at self.now.bytes at }
    {
        let mut out = [0; 4];
        self.read(at, &mut out);
        u32::from_be_bytes(out)
    }

    #[inline]
    pub(crate) fn set_link(&mut self, at: usize, link: u32)
        requires { at + 4 ≤ length self.old.bytes }
        ensures { self.new ≡ with_bytes (written at (to_be_bytes w32 link) self.old.bytes) self.old }
    {
        self.write(at, &link.to_be_bytes());
    }

    // The number of sixteen bytes.
    #[inline]
    pub(crate) fn wide(&self, at: usize) -> u128
        requires { at + 16 ≤ length self.now.bytes }
        ensures { result ≡ number_in (cut at 16 self.now.bytes) }
    {
        match self.piece(at, 16) {
            Some(bytes) => spelled_wide(bytes),
            None => self.wide_across(at),
        }
    }

    // The same, of bytes that may lie in two blocks.
    #[inline(never)]
    #[tactic(auto, using(crate::proofs::Spelling::number_of_16))]
    fn wide_across(&self, at: usize) -> u128
        requires { at + 16 ≤ length self.now.bytes }
        ensures { result ≡ number_in (cut at 16 self.now.bytes) }
    {
        let mut out = [0; 16];
        self.read(at, &mut out);
        u128::from_be_bytes(out)
    }

    #[inline(always)]
    pub(crate) fn set_wide(&mut self, at: usize, value: u128)
        requires { at + 16 ≤ length self.old.bytes }
        ensures { self.new ≡ with_bytes (written at (to_be_bytes w128 value) self.old.bytes) self.old }
    {
        self.write(at, &spelling_of(value));
    }

    // Makes of the number of sixteen bytes what a call gives of it.
    #[inline(always)]
    pub(crate) fn change_wide<F: FnOnce(u128) -> u128>(&mut self, at: usize, change: F)
        requires inside { at + 16 ≤ length self.old.bytes }
        requires call { F.pre change (number_in (cut at 16 self.old.bytes)) }
        ensures { (number : ℕ) × F.post change (number_in (cut at 16 self.old.bytes)) number × (self.new ≡ with_bytes (written at (to_be_bytes w128 number) self.old.bytes) self.old) }
    {
        if 16 <= self.rest_of_block(at) {
            self.change_in_block(at, change);
        } else {
            let number = change(self.wide_across(at));
            self.set_wide_across(at, number);
        }
    }

    // How many bytes the block of the byte `at` has from there on.
    #[inline(always)]
    fn rest_of_block(&self, at: usize) -> usize
        ensures { result + at % (self.now.blocks * self.now.block_len) % self.now.block_len ≡ self.now.block_len }
    {
        self.block.len() - self.block.place(self.each.place(at))
    }

    // Changes the number of sixteen bytes that lie in one block, whose place is found once.
    #[inline(always)]
    fn change_in_block<F: FnOnce(u128) -> u128>(&mut self, at: usize, change: F)
        requires inside { at + 16 ≤ length self.old.bytes }
        requires one { 16 + at % (self.old.blocks * self.old.block_len) % self.old.block_len ≤ self.old.block_len }
        requires call { F.pre change (number_in (cut at 16 self.old.bytes)) }
        ensures { (number : ℕ) × F.post change (number_in (cut at 16 self.old.bytes)) number × (self.new ≡ with_bytes (written at (to_be_bytes w128 number) self.old.bytes) self.old) }
    {
        let part = &mut self.parts[self.each.part(at)];
        change_in(part.buf_mut(), self.block, self.each.place(at), change);
    }

    // Writes a number over sixteen bytes that may lie in two blocks.
    #[inline(never)]
    fn set_wide_across(&mut self, at: usize, value: u128)
        requires { at + 16 ≤ length self.old.bytes }
        ensures { self.new ≡ with_bytes (written at (to_be_bytes w128 value) self.old.bytes) self.old }
    {
        self.set_wide(at, value);
    }
}

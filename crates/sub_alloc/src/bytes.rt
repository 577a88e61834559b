//! The bytes of a live piece.
ghost use Rattle.std.specs.Prelude.{◌≡◌, ℕ, ◌+◌, ◌≤◌, length, slice_range};
ghost use Rattle.block_arena.specs.Bytes.{written};
ghost use Rattle.store_api.specs.Holdings.{Holdings};
ghost use Rattle.sub_alloc.specs.Pieces.{IsLive, bytes_of, written_in};
ghost use Rattle.sub_alloc.specs.Lending.{IsAllocOf};
ghost use Rattle.sub_alloc.specs.Calls.{KeepsOthers};

use crate::allocator::SubAlloc;
use crate::lending::{read_slot, write_slot};
use crate::piece::Piece;

impl SubAlloc {
    /// Copies bytes of a piece from one of its bytes on.
    pub fn read_at(&self, p: &Piece, at: u32, out: &mut [u8])
        requires live { IsLive p.now self.now }
        requires inside { at + length out.old ≤ p.now.len }
        ensures { out.new ≡ slice_range (bytes_of p.now self.now) at (at + length out.old) }
    {
        let _classes = self.classes;
        let from = (p.at() + at) as usize;
        read_slot(&self.buffers[p.buf() as usize], from, out);
    }

    /// Writes bytes over those of a piece from one of its bytes on.
    pub fn write_at(&mut self, p: &Piece, at: u32, bytes: &[u8])
        requires live { IsLive p.now self.old }
        requires inside { at + length bytes.now ≤ p.now.len }
        ensures division { self.new ≡ written_in p.now at bytes.now self.old }
        ensures written { bytes_of p.now self.new ≡ written at bytes.now (bytes_of p.now self.old) }
        ensures live { IsLive p.now self.new }
        ensures kept { KeepsOthers p.now self.old self.new }
        ensures of { (t : ℕ) (h : Holdings) → IsAllocOf t h self.old → IsAllocOf t h self.new }
    {
        let _classes = self.classes;
        let from = (p.at() + at) as usize;
        write_slot(&mut self.buffers[p.buf() as usize], from, bytes);
    }
}

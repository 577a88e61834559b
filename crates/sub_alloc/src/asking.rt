//! Questions to an allocator, for callers that can't tell the answer.
ghost use Rattle.std.specs.Prelude.{◌≡◌, ◌↔◌, true};
ghost use Rattle.sub_alloc.specs.Pieces.{HasNoLive, IsLive};

use crate::allocator::SubAlloc;
use crate::piece::Piece;

impl SubAlloc {
    /// Whether this is a live piece of this allocator: it may be read, written and put back.
    pub fn is_live(&self, p: &Piece) -> bool
        ensures { result ≡ true ↔ IsLive p.now self.now }
    {
        let places = self.places();
        let (buf, at) = (p.buf(), p.at());
        if at % 64 != 0 || at / 64 >= places || buf as usize >= self.buffers.len() {
            return false;
        }
        let mark = u32::from(self.live[(buf * places + at / 64) as usize]);
        mark != 0 && p.len() == 64 << (mark - 1)
    }

    /// Whether no piece is live: the allocator may be closed.
    pub fn is_idle(&self) -> bool
        ensures { result ≡ true ↔ HasNoLive self.now }
    {
        for number in 0..self.buffers.len() {
            if self.buffers[number].is_some() {
                return false;
            }
        }
        true
    }
}

//! A plain list of free pieces: what an allocator is compared with after each call.
ghost use Rattle.std.specs.Prelude.{◌≤◌};

use std::alloc::Global;
use std::process::Abort;
use sub_alloc::{Piece, SubErr};

/// A piece: the number of its buffer, where it begins there, and its length.
#[derive(Clone, Copy, Debug, Drop, PartialEq, Eq)]
pub struct Shape {
    pub buf: u32,
    pub at: u32,
    pub len: u32,
}

impl Shape {
    pub fn of(p: &Piece) -> Shape {
        Shape {
            buf: p.buf(),
            at: p.at(),
            len: p.len(),
        }
    }

    // Its lower and its upper half.
    fn halves(self) -> (Shape, Shape) {
        let len = self.len / 2;
        let upper = Shape {
            at: self.at.wrapping_add(len),
            len,
            ..self
        };
        (Shape { len, ..self }, upper)
    }

    // What it was halved from, and the other half of that.
    fn whole(self) -> (Shape, Shape) {
        let other = Shape {
            at: self.at ^ self.len,
            ..self
        };
        let whole = Shape {
            at: self.at.min(other.at),
            len: self.len.wrapping_mul(2),
            ..self
        };
        (whole, other)
    }
}

/// Four buffers of 256 bytes, some of them open, and the free pieces in the order in which they became free.
#[derive(Drop)]
pub struct Plain {
    seed: u64,
    open: [bool; 4],
    free: Vec<Shape>,
    /// What the client has reserved.
    pub reservation: u64,
    /// How often a piece came of a free one, came of a new buffer, was refused as the buffers were all open, or for want of
    /// bytes, and how often two halves were joined, and a buffer closed.
    pub tallies: [u32; 6],
}

impl Plain {
    pub fn open(alloc: Global, seed: u64, reservation: u64) -> Plain {
        Plain {
            seed,
            open: [false; 4],
            free: Vec::new(alloc),
            reservation,
            tallies: [0; 6],
        }
    }

    /// A number below `count`, at random, or 0 where there is none.
    pub fn below(&mut self, count: u64) -> u64
        ensures { result ≤ count }
    {
        self.seed = self
            .seed
            .wrapping_mul(6364136223846793005)
            .wrapping_add(1442695040888963407);
        (self.seed >> 33).checked_rem(count).unwrap_or(0)
    }

    fn tally(&mut self, kind: usize) {
        if let Some(times) = self.tallies.get_mut(kind) {
            *times = times.saturating_add(1);
        }
    }

    /// What the client has unused.
    pub fn unused(&self) -> u64 {
        let open = self.open.iter().filter(|is_open| **is_open).count() as u64;
        self.reservation.saturating_sub(open.saturating_mul(256))
    }

    fn give(&mut self, rt: &impl Abort, piece: Shape) {
        assert!(rt; self.free.push(piece).is_ok());
    }

    // The place in the list of the shortest free piece that is long enough, of those the one that became free last.
    fn find(&self, len: u32) -> Option<usize> {
        let least = self
            .free
            .iter()
            .map(|piece| piece.len)
            .filter(|free| *free >= len)
            .min()?;
        let mut found = None;
        for (at, piece) in self.free.iter().enumerate() {
            if piece.len == least {
                found = Some(at);
            }
        }
        found
    }

    // A new buffer.
    fn begin(&mut self) -> Result<Shape, SubErr> {
        let Some(number) = self.open.iter().position(|is_open| !*is_open) else {
            self.tally(2);
            return Err(SubErr::Full { bufs: 4 });
        };
        let unused = self.unused();
        if unused < 256 {
            self.tally(3);
            return Err(SubErr::NoRoom {
                wanted: 256,
                unused,
            });
        }
        self.tally(1);
        if let Some(is_open) = self.open.get_mut(number) {
            *is_open = true;
        }
        Ok(Shape {
            buf: number as u32,
            at: 0,
            len: 256,
        })
    }

    /// A piece for so many bytes.
    pub fn take(&mut self, rt: &impl Abort, bytes: u32) -> Result<Shape, SubErr> {
        let len = match bytes {
            0..=64 => 64,
            65..=128 => 128,
            _ => 256,
        };
        let mut piece = match self.find(len) {
            Some(at) if at < self.free.len() => {
                let piece = self.free.remove(at);
                self.tally(0);
                piece
            }
            _ => self.begin()?,
        };
        for _ in 0..2u8 {
            if piece.len > len {
                let (lower, upper) = piece.halves();
                self.give(rt, upper);
                piece = lower;
            }
        }
        Ok(piece)
    }

    // Takes the other half of what a piece was halved from, where that is free and whole.
    fn join(&mut self, piece: Shape) -> Option<Shape> {
        let (whole, other) = piece.whole();
        let at = self.free.iter().position(|free| *free == other)?;
        if at < self.free.len() {
            self.free.remove(at);
        }
        self.tally(4);
        Some(whole)
    }

    /// A piece comes back.
    pub fn put_back(&mut self, rt: &impl Abort, piece: Shape) {
        let mut piece = piece;
        for _ in 0..2u8 {
            if piece.len < 256 {
                piece = self.join(piece).unwrap_or(piece);
            }
        }
        if piece.len < 256 {
            self.give(rt, piece);
            return;
        }
        self.tally(5);
        if let Some(is_open) = self.open.get_mut(piece.buf as usize) {
            *is_open = false;
        }
    }
}

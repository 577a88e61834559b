//! A length to divide by, a power of two, so that a place is divided without a division.
ghost use Rattle.std.specs.Prelude.{◌≡◌, ◌^◌, ◌/◌, ◌%◌, ◌<◌};
ghost use Rattle.std.specs.Int.{IsPowerOfTwo};

/// A length that is a power of two.
#[derive(Clone, Copy)]
pub(crate) struct Stride {
    len: usize,
    shift: u32,
    ghost some: { 0 < len },
    ghost below: { shift < 64 },
    ghost power: { len ≡ 2 ^ shift },
}

impl Stride {
    /// The length of `len` bytes.
    pub(crate) fn of(len: usize) -> Stride
        requires { IsPowerOfTwo len }
        ensures { result.len ≡ len }
    {
        Stride {
            len,
            shift: len.ilog2(),
        }
    }

    /// The length.
    #[inline]
    pub(crate) fn len(self) -> usize
        ensures value { result ≡ self.len }
        ensures some { 0 < result }
    {
        self.len
    }

    /// How many whole lengths lie before `at`.
    #[inline]
    pub(crate) fn part(self, at: usize) -> usize
        ensures { result ≡ at / self.len }
    {
        at >> self.shift
    }

    /// The place of `at` behind the last whole length.
    #[inline]
    pub(crate) fn place(self, at: usize) -> usize
        ensures value { result ≡ at % self.len }
        ensures below { result < self.len }
    {
        at & (self.len - 1)
    }
}

//! How many chains there are. By a power of two a hash is divided without a division.
ghost use Rattle.std.specs.Prelude.{◌≡◌, ◌^◌, ◌%◌, ◌<◌, true};

/// How many chains there are, of which it is known whether that is a power of two.
#[derive(Clone, Copy)]
pub(crate) struct Chains {
    len: usize,
    shift: u32,
    even: bool,
    ghost some: { 0 < len },
    ghost below: { shift < 64 },
    ghost power: { even ≡ true → len ≡ 2 ^ shift },
}

// The division stands in a function of its own, so that the callers' code stays short.
#[inline(never)]
fn remainder(hash: usize, len: usize) -> usize
    requires { 0 < len }
    ensures value { result ≡ hash % len }
    ensures below { result < len }
{
    hash % len
}

impl Chains {
    /// So many chains.
    pub(crate) fn of(len: usize) -> Chains
        requires { 0 < len }
        ensures { result.len ≡ len }
    {
        let shift = len.ilog2();
        let even = len == 1 << shift;
        Chains { len, shift, even }
    }

    /// How many there are.
    #[inline]
    pub(crate) fn len(self) -> usize
        ensures value { result ≡ self.len }
        ensures some { 0 < result }
    {
        self.len
    }

    /// The chain of a hash.
    #[inline]
    pub(crate) fn place(self, hash: usize) -> usize
        ensures value { result ≡ hash % self.len }
        ensures below { result < self.len }
    {
        if self.even {
            hash & (self.len - 1)
        } else {
            remainder(hash, self.len)
        }
    }
}

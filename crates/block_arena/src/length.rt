//! The length of a block, a power of two, so that places are found without a division.
ghost use Rattle.std.specs.Prelude.{◌≡◌, ◌^◌, ◌/◌, ◌%◌, ◌<◌};
ghost use Rattle.block_arena.specs.Blocks.{IsBlockLen};

/// A block has `2 ^ shift` bytes.
#[derive(Clone, Copy)]
pub(crate) struct BlockLen {
    shift: u32,
    ghost below: { shift < 32 },
}

impl BlockLen {
    /// The length of `bytes` bytes.
    pub(crate) fn of(bytes: u32) -> BlockLen
        requires { IsBlockLen bytes }
        ensures { 2 ^ result.shift ≡ bytes }
    {
        BlockLen {
            shift: bytes.ilog2(),
        }
    }

    /// The length in bytes.
    #[inline]
    pub(crate) fn bytes(self) -> usize
        ensures { result ≡ 2 ^ self.shift }
    {
        1 << self.shift
    }

    /// The block in which the byte `at` stands.
    #[inline]
    pub(crate) fn block_of(self, at: usize) -> usize
        ensures { result ≡ at / 2 ^ self.shift }
    {
        at >> self.shift
    }

    /// The place of the byte `at` in its block.
    #[inline]
    pub(crate) fn place_of(self, at: usize) -> usize
        ensures { result ≡ at % 2 ^ self.shift }
    {
        at & (self.bytes() - 1)
    }
}

//! The mark of a block that was stored.
ghost use Rattle.std.specs.Prelude.{◌≡◌, ◌+◌, ◌≤◌, ◌++◌, length, take, drop};
ghost use Rattle.std.specs.Int.{w32, w64, to_be_bytes};
ghost use Rattle.reservation_tree.specs.Marks.{mark_bytes};

/// How many bytes a mark has.
pub const MARK_LEN: usize = 20;

/// Which block a stored block is: its page's name, the number of the entry by which its write began, and its
/// number among the page's blocks, from 0.
#[derive(Clone, Copy, Debug, PartialEq, Eq)]
pub struct Mark {
    pub name: u64,
    pub version: u64,
    pub block: u32,
}

impl Mark {
    /// Puts the bytes of the mark in front: each number with its highest byte first.
    pub fn write(self, bytes: &mut [u8])
        requires { 20 ≤ length bytes.old }
        ensures { bytes.new ≡ mark_bytes self ++ drop 20 bytes.old }
    {
        bytes[0..8].copy_from_slice(&self.name.to_be_bytes());
        bytes[8..16].copy_from_slice(&self.version.to_be_bytes());
        bytes[16..20].copy_from_slice(&self.block.to_be_bytes());
    }

    /// The mark whose bytes stand in front.
    pub fn read(bytes: &[u8]) -> Mark
        requires { 20 ≤ length bytes.now }
        ensures { mark_bytes result ≡ take 20 bytes.now }
    {
        Mark {
            name: long_at(bytes, 0),
            version: long_at(bytes, 8),
            block: short_at(bytes, 16),
        }
    }
}

// The number that eight bytes spell.
fn long_at(bytes: &[u8], at: usize) -> u64
    requires { at + 8 ≤ length bytes.now }
    ensures { to_be_bytes w64 result ≡ take 8 (drop at bytes.now) }
{
    let (_before, rest) = bytes.split_at(at);
    let Some((number, _behind)) = rest.split_first_chunk::<8>() else {
        unreachable!()
    };
    u64::from_be_bytes(*number)
}

// The number that four bytes spell.
fn short_at(bytes: &[u8], at: usize) -> u32
    requires { at + 4 ≤ length bytes.now }
    ensures { to_be_bytes w32 result ≡ take 4 (drop at bytes.now) }
{
    let (_before, rest) = bytes.split_at(at);
    let Some((number, _behind)) = rest.split_first_chunk::<4>() else {
        unreachable!()
    };
    u32::from_be_bytes(*number)
}

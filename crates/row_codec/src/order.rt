//! The hash of a key, its path, and the order by path.

ghost use Rattle.row_codec.specs.KeyInside.{path_number};
ghost use Rattle.row_codec.specs.Order.{hash_of, nibble_of, path_order};
ghost use Rattle.std.specs.Prelude.{◌≡◌, ◌<◌};

use std::cmp::Ordering;

const START: u64 = 14695981039346656037;

const PRIME: u64 = 1099511628211;

/// The lower four bits of each byte.
const LOWER_HALVES: u64 = 0x0f0f0f0f0f0f0f0f;

/// FNV-1a, 64 bits, of the bytes of a key.
#[inline]
pub fn hash64(key: &[u8]) -> u64
    ensures hash { result ≡ hash_of key.now }
{
    key.iter().fold(
        START,
        |hash, byte| (hash ^ u64::from(*byte)).wrapping_mul(PRIME),
    )
}

/// The four bits of a hash that stand at a level; level 0 is the lowest four.
#[inline]
pub fn nibble(hash: u64, level: u32) -> u32
    requires { level < 16 }
    ensures nibble { result ≡ nibble_of hash level }
{
    ((hash >> (4 * level)) % 16) as u32
}

/// The path of a key as one number: the nibbles of its hash turned round, so that level 0 is the
/// most significant.
#[inline]
#[tactic(auto, unfolding(crate::specs::Order::path_of))]
pub fn path_number(key: &[u8]) -> u64
    ensures number { result ≡ path_number key.now }
{
    let hash = hash64(key);
    // The bytes turn round first, and then the two halves of each.
    let turned = hash.swap_bytes();
    let low = turned & LOWER_HALVES;
    low * 16 + (turned - low) / 16
}

/// Compares keys by their paths, and keys of one path by their bytes.
#[inline]
#[tactic(auto, using(crate::proofs::PathNumber::path_number_order))]
pub fn path_cmp(a: &[u8], b: &[u8]) -> Ordering
    ensures order { result ≡ path_order a.now b.now }
{
    path_number(a).cmp(&path_number(b)).then(a.cmp(b))
}

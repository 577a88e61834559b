//! A hash is spread before it chooses a chain.
ghost use Rattle.std.specs.Prelude.{◌≡◌};
ghost use Rattle.bucket_table.specs.Spreading.{spread};

/// 2^64 over the golden ratio, made odd.
const GOLDEN: u64 = 0x9e3779b97f4a7c15;

/// Spreads a hash, so that rows whose hashes have the same lowest bits, as those of one partition have, stand on all chains: the
/// upper half of a product, on which each of its bits bears. By the hash itself the rows of one partition of sixteen would stand
/// on one chain of sixteen. Equal hashes stay equal; 2^32 values are left.
#[inline]
#[tactic(auto, unfolding(crate::specs::Spreading::spread))]
pub fn spread(hash: u64) -> u64
    ensures { result ≡ spread hash }
{
    hash.wrapping_mul(GOLDEN) >> 32
}

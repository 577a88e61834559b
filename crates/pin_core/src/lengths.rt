//! Bytes of blocks.
ghost use Rattle.std.specs.Prelude.{◌≡◌, ◌<◌, ◌+◌, ◌≤◌};
ghost use Rattle.pool_model.specs.Bytes.{bytes_of};
ghost use Rattle.pool_model.specs.State.{shown};

/// The bytes of so many blocks.
#[inline]
#[tactic(auto, unfolding(pool_model::specs::Bytes::bytes_of))]
pub(crate) fn bytes(block_len: u32, blocks: u32) -> u64
    ensures { result ≡ bytes_of block_len blocks }
{
    u64::from(blocks) * u64::from(block_len)
}

/// One entry more.
#[inline]
pub(crate) fn counted(entries: u64) -> u64
    ensures { result ≡ shown (entries + 1) }
{
    entries.saturating_add(1)
}

/// So many entries more.
#[inline]
pub(crate) fn counted_all(entries: u64, more: u64) -> u64
    ensures { result ≡ shown (entries + more) }
{
    entries.saturating_add(more)
}

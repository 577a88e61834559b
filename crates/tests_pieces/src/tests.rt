//! A suballocator over a store in memory, and over the pool of one owner. Its buffers have 256 bytes, in four blocks.
ghost use Rattle.std.specs.Prelude.{◌≡◌, ◌<◌, ◌≤◌, IfOk, vec_len};
ghost use Rattle.local_pool.specs.Told.{held_of};

mod mixed;
mod plain;
mod rows;
mod steps;

use local_pool::LocalPool;
use outside::Slot;
use pin_core::PoolConf;
use reservation_tree::PoolErr;
use std::alloc::Global;

// A pool of so many blocks of 64 bytes over these slots, all of whose blocks its owner may have.
#[tactic(auto, unfolding(pool_model::specs::Bytes::bytes_of))]
fn pool_of<D: Slot + Drop>(
    alloc: Global,
    blocks: u32,
    slots: Vec<D>,
) -> Result<LocalPool<D>, (Vec<D>, PoolErr)>
    requires some { 0 < blocks }
    requires blocks { blocks ≤ 1024 }
    requires slots { vec_len slots ≤ 1024 }
    ensures { IfOk result (λ pool. (held_of D.Slot pool.alone).live_clients ≡ 0) }
{
    let conf = PoolConf {
        blocks,
        block_len: 64,
        first_name: 0,
        profile: 1,
        trace: 0,
    };
    let bytes = u64::from(blocks) * 64;
    LocalPool::<D>::open(alloc, &conf, slots, bytes, 0, bytes)
}

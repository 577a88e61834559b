//! Whole operators over stores that have slots, and over a store in memory.
ghost use Rattle.std.specs.Prelude.{◌≡◌, ◌<◌, ◌≤◌, IfOk, vec_len};
ghost use Rattle.local_pool.specs.Told.{held_of};

mod chunks;
mod groups;
mod joins;
mod partial_pages;
mod partials;
mod scans;

use local_pool::LocalPool;
use outside::{MemSlot, Slot};
use pin_core::PoolConf;
use reservation_tree::PoolErr;
use std::alloc::Global;
use store_api::OpErr;

const MEMORY: OpErr = OpErr::Pool(PoolErr::Memory);

// A pool of so many blocks of 64 bytes over these slots, all of whose blocks and slots its owner may have.
#[tactic(auto, unfolding(pool_model::specs::Bytes::bytes_of))]
fn opened<D: Slot + Drop>(
    alloc: Global,
    blocks: u32,
    slots: Vec<D>,
) -> Result<LocalPool<D>, (Vec<D>, PoolErr)>
    requires some { 0 < blocks }
    requires blocks { blocks ≤ 1024 }
    requires slots { vec_len slots ≤ 1024 }
    ensures { IfOk result (λ pool. (held_of D.Slot pool.alone).live_clients ≡ 0) }
{
    let conf = PoolConf {
        blocks,
        block_len: 64,
        first_name: 0,
        profile: 1,
        trace: 0,
    };
    let bytes = u64::from(blocks) * 64;
    let quota = slots.len() as u32;
    LocalPool::<D>::open(alloc, &conf, slots, bytes, quota, bytes)
}

// So many slots, of which the first ones, so many, fail at the stores and loads that are listed.
fn slots(alloc: Global, count: u32, first: u32, fails: &[u64]) -> Result<Vec<MemSlot>, OpErr> {
    let mut slots = Vec::new(alloc);
    for number in 0..count {
        let listed = if number < first { fails } else { &[] };
        let Ok(slot) = MemSlot::new(alloc, listed) else {
            return Err(MEMORY);
        };
        if slots.push(slot).is_err() {
            return Err(MEMORY);
        }
    }
    Ok(slots)
}

// How often the slots were stored to, and how often they failed.
fn counted(slots: &[MemSlot]) -> (u64, u64) {
    slots.iter().fold((0, 0), |(stores, faults), slot| {
        (
            u64::saturating_add(stores, slot.stores()),
            u64::saturating_add(faults, slot.faults()),
        )
    })
}

// Whether a store was refused, or a load, or neither.
fn kind_of(e: PoolErr) -> u64 {
    match e {
        PoolErr::WriteFault { .. } => 0,
        PoolErr::ReadFault { .. } => 1,
        _ => 2,
    }
}

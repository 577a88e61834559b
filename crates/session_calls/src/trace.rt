//! What is kept of a history.

use pool_model::Skeleton;

/// The first entries of a pool's history, the oldest first, and whether there were more; and the numbers with which the pool
/// opened, as its `PoolConf` has them.
#[derive(Drop)]
pub struct Trace {
    pub blocks: u32,
    pub block_len: u32,
    pub first_name: u64,
    pub entries: Vec<Skeleton>,
    pub more: bool,
}

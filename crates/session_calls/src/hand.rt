//! A pool's value in hand.
use crate::count::Count;
use crate::log::Log;
use pin_core::{EvictedPages, PoolState};
use turn_table::Solo;

/// A pool's value, the history for which it stands, what its slots counted, the number of the session that has it in
/// hand, and the pages that it evicted last.
#[derive(Drop)]
pub struct Hand<D> {
    pub state: PoolState<D>,
    pub trail: Log,
    pub counts: Solo<Count>,
    pub session: u32,
    pub gone: EvictedPages,
}

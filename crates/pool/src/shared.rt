//! The pool's value, as it stands under the turn lock.
use crate::item::Item;
use outside::Slot;
use pin_core::{EvictedPages, PoolState};
use session_calls::{Count, Log, Opened};
use std::marker::{Brand, PhantomData};
use turn_table::{Logged, Solo};

/// A pool's value under a turn lock, the history for which it stands, what its slots counted, the pages that it evicted
/// last, and whether its writers have to end. `T` names with what the pool opened.
#[derive(Drop)]
pub struct Shared<D: Slot, T: Opened = Brand> {
    pub(crate) state: PoolState<D>,
    pub(crate) trail: Log,
    pub(crate) counts: Solo<Count>,
    pub(crate) gone: EvictedPages,
    pub(crate) stopped: bool,
    pub(crate) first: PhantomData<T>,
}

impl<D: Slot, T: Opened> Logged for Shared<D, T> {
    ghost use Rattle.std.specs.Prelude.{◌≡◌};
    ghost use Rattle.pool.specs.Items.{all_rights, is_stopped, needs_of};
    ghost use Rattle.pool.specs.Standing.{StandsAs};

    type Entry = Item;

    ghost stands = { λ value items. StandsAs D.Slot T.opening T.outset.told T.first items (record { trail = value.trail; counts = value.counts }) value.state × (value.stopped ≡ is_stopped items) };

    ghost rights = { all_rights };

    ghost needs = { needs_of };
}

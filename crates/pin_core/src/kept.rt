//! What a page keeps of scratch.
ghost use Rattle.std.specs.Prelude.{◌≡◌, ◌↔◌, ◌<◌, IsSome, IsErr, OnOk, OnErr, IfErr, length};
ghost use Rattle.scratch_dev.specs.Pool.{free_of, quota_of};
ghost use Rattle.pin_core.specs.parts.Keeping.{kept_then, slots_then, need_of};

use reservation_tree::PoolErr;
use scratch_dev::{SlotPool, SlotRow, SlotShell};
use std::mem;

/// The slots of a page, or the room for them.
#[derive(Drop)]
pub enum Kept<D> {
    /// It has no slots yet, but room for as many as it has blocks.
    Empty(SlotShell<D>),
    /// Its slots, as many as it has blocks.
    Held(SlotRow<D>),
    /// Its slots are in a job.
    Out,
}

/// A page that has no slots gets them.
pub(crate) fn take_slots<D: Drop>(
    slots: &mut SlotPool<D>,
    q: u32,
    kept: &mut Kept<D>,
) -> Result<(), PoolErr>
    requires number { q < length slots.old.quotas }
    requires open { IsSome (quota_of slots.old q) }
    ensures kept { OnOk result (kept.new ≡ kept_then slots.old kept.old) }
    ensures slots { OnOk result (slots.new ≡ slots_then q kept.old slots.old) }
    ensures refused { IsErr result ↔ (free_of slots.old q < need_of kept.old) }
    ensures cause { IfErr result (λ e. e ≡ PoolErr.ScratchFull (need_of kept.old) (free_of slots.old q)) }
    ensures kept_err { OnErr result (kept.new ≡ kept.old) }
    ensures slots_err { OnErr result (slots.new ≡ slots.old) }
{
    match mem::replace(kept, Kept::Out) {
        Kept::Empty(shell) => match slots.take(q, shell) {
            Ok(row) => {
                *kept = Kept::Held(row);
                Ok(())
            }
            Err((shell, refusal)) => {
                *kept = Kept::Empty(shell);
                Err(refusal)
            }
        },
        Kept::Held(row) => {
            *kept = Kept::Held(row);
            Ok(())
        }
        Kept::Out => Ok(()),
    }
}

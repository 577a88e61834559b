//! A refusal is entered.
use crate::lengths;
use crate::pool::PoolState;
use outside::Slot;
use pool_model::Call;

impl<D: Slot + Drop> PoolState<D> {
    ghost use Rattle.std.specs.Prelude.{[]};
    ghost use Rattle.pool_model.specs.MayFollow.{MayFollow};
    ghost use Rattle.pin_core.specs.StateOf.{state_of};
    ghost use Rattle.pin_core.specs.calls.Refusing.{MayEnter, refusal_of};
    ghost use Rattle.pin_core.specs.calls.Returning.{EntersWhere};

    /// Enters that this call of the session `s` was refused for the failure with this number. It changes
    /// nothing but the number of entries.
    ///
    /// `_call` and `entry` are in the entry alone, which the pool doesn't keep.
    pub fn refuse(&mut self, s: u32, _call: &Call, entry: u64)
        requires may { MayEnter D.Slot self.old (refusal_of s _call.now entry) }
        ensures enters { EntersWhere D.Slot (λ o h. MayFollow h (state_of self.old) (refusal_of s _call.now entry)) (refusal_of s _call.now entry) [] self.old self.new }
    {
        self.parts.entries = lengths::counted(self.parts.entries);
    }
}

//! An entry is counted.
ghost use Rattle.std.specs.Prelude.{◌≡◌, ◌+◌, ◌<◌, ◌^◌, OnOk, IfOk, true};

use super::Follower;
use std::alloc::AllocError;

impl Follower {
    // Counts the entry that was followed.
    pub(super) fn enter(&mut self) -> Result<bool, AllocError>
        ensures followed { IfOk result (λ may. may ≡ true) }
        ensures counted { OnOk result (self.new ≡ record self.old { entries = self.old.entries + 1 }) }
        ensures few { OnOk result (self.old.entries + 1 < 2 ^ 64) }
    {
        self.entries = self.entries.checked_add(1).ok_or(AllocError)?;
        Ok(true)
    }
}

//! A session begins a call.
ghost use Rattle.std.specs.Prelude.{◌≡◌, ◌∷◌, [], IsSome};
ghost use Rattle.session_table.specs.Seats.{seat_of};
ghost use Rattle.pin_core.specs.parts.Rearranging.{asked};

use crate::lengths;
use crate::parts::Parts;
use crate::pool::PoolState;
use outside::Slot;

impl<D: Slot + Drop> PoolState<D> {
    ghost use Rattle.pin_core.specs.StateOf.{state_of};
    ghost use Rattle.pin_core.specs.Standing.{Enters};
    ghost use Rattle.pin_core.specs.calls.Sessions.{IsSeat};
    ghost use Rattle.pin_core.specs.calls.Entering.{ask_entry};

    /// Begins a call of a session, and gives the number of its entry. The failures that were noted of the
    /// session's clients are forgotten.
    pub fn ask(&mut self, s: u32) -> u64
        requires live { IsSeat (state_of self.old) s }
        ensures enters { Enters D.Slot (ask_entry s ∷ []) [] [] self.old self.new }
        ensures number { result ≡ (state_of self.old).entries }
    {
        self.parts.laws();
        let entry = self.parts.entries;
        self.parts.ask(s);
        entry
    }
}

impl<D: Drop> Parts<D> {
    fn ask(&mut self, s: u32)
        requires { IsSome (seat_of self.old.seats s) }
        ensures { self.new ≡ asked s self.old }
    {
        self.entries = lengths::counted(self.entries);
        self.seats.forget(s);
    }
}

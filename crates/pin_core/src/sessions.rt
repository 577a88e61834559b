//! Sessions begin and end.
ghost use Rattle.std.specs.Prelude.{◌≡◌, ◌≤◌, ◌<◌, [], None, Some, IfOk, OnOk, OnErr, IfErr, IsErr};
ghost use Rattle.std.specs.FinMap.{get};
ghost use Rattle.pin_core.specs.parts.Rearranging.{seated, unseated};
ghost use Rattle.pin_core.specs.parts.Seating.{CanSeat, CanUnseat};

use crate::lengths;
use crate::parts::Parts;
use crate::pool::PoolState;
use outside::Slot;
use reservation_tree::{PoolErr, TrackerId};
use session_table::MAX_SESSIONS;

impl<D: Slot + Drop> PoolState<D> {
    ghost use Rattle.std.specs.Prelude.{◌↔◌, ◌⊎◌, ◌+◌};
    ghost use Rattle.reservation_tree.specs.Tracker.{HasNoChild};
    ghost use Rattle.pin_core.specs.StateOf.{state_of};
    ghost use Rattle.pin_core.specs.Standing.{Enters};
    ghost use Rattle.pin_core.specs.calls.Sessions.{IsFull, IsSeat, query_of, quota_in};
    ghost use Rattle.pin_core.specs.calls.Opening.{ClosedAgain, LacksLeast, ending_entries, opening_entries, spare_of};

    /// A new session, with a quota of so many slots. Its query tracker may reserve up to `limit` bytes, and has
    /// `least` bytes reserved. Its number had no session; which one it is is left open.
    ///
    /// # Errors
    ///
    /// `TooManyTrackers`: there are 240 sessions. `NoReservation`: the limit, or that of the root, would be
    /// passed; then the session's tracker came and went, and the history has the entries of both.
    pub fn open_session(&mut self, limit: u64, quota: u32, least: u64) -> Result<u32, PoolErr>
        requires spare { quota ≤ spare_of self.old }
        ensures ok { IfOk result (λ s. Enters D.Slot (opening_entries s (query_of (state_of self.new) s) limit quota least) [] [] self.old self.new) }
        ensures fresh { IfOk result (λ s. (s < 240) × (get (state_of self.old).sessions s ≡ None)) }
        ensures spare { OnOk result (spare_of self.new + quota ≡ spare_of self.old) }

        // It is refused exactly where each number has a session, which is looked at first, or where so much can't
        // be reserved.
        ensures refused { IsErr result ↔ (IsFull (state_of self.old) ⊎ LacksLeast (state_of self.old) limit least) }
        ensures full { IsFull (state_of self.old) → IfErr result (λ e. e ≡ PoolErr.TooManyTrackers 240) × (self.new ≡ self.old) }
        ensures err { IfErr result (λ e. (IsFull (state_of self.old) → ⊥) → ClosedAgain D.Slot limit quota least self.old self.new e) }
        ensures spare_err { OnErr result (spare_of self.new ≡ spare_of self.old) }
    {
        self.parts.laws();
        let Some(s) = self.parts.seats.vacant() else {
            return Err(PoolErr::TooManyTrackers {
                count: MAX_SESSIONS,
            });
        };
        let query = self.parts.open_session(s, limit, quota);
        self.parts.laws();
        if let Err(refusal) = self.parts.increase(query, least) {
            self.parts.close_session(s, query);
            return Err(refusal);
        }
        Ok(s)
    }

    /// Ends a session that has no client. Its reservation and its quota are free again.
    pub fn end_session(&mut self, s: u32)
        requires live { IsSeat (state_of self.old) s }
        requires no_client { HasNoChild (state_of self.old).trackers (query_of (state_of self.old) s) }
        ensures enters { Enters D.Slot (ending_entries (state_of self.old) s) [] [] self.old self.new }
        ensures spare { spare_of self.new ≡ spare_of self.old + quota_in (state_of self.old) s }
    {
        self.parts.laws();
        let query = TrackerId::of(self.parts.seats.query(s));
        let bytes = self.parts.tree.reservation(query);
        self.parts.decrease(query, bytes);
        self.parts.laws();
        self.parts.close_session(s, query);
    }
}

impl<D: Drop> Parts<D> {
    fn open_session(&mut self, s: u32, limit: u64, quota: u32) -> TrackerId
        requires can { CanSeat self.old s quota }
        ensures fresh { get self.old.tree.trackers result ≡ None }
        ensures seated { self.new ≡ seated s limit quota result self.old }
    {
        let root = self.tree.root();
        // A tree has room for all trackers of all sessions.
        let query = self.tree.add_child(root, limit).unwrap();
        self.slots.open_quota(s, quota);
        self.seats.open(s, query.number(), quota);
        self.entries = lengths::counted(self.entries);
        query
    }

    fn close_session(&mut self, s: u32, query: TrackerId)
        requires can { CanUnseat self.old s query }
        ensures { self.new ≡ unseated s query self.old }
    {
        self.seats.close(s);
        self.slots.close_quota(s);
        self.tree.close(query);
        self.entries = lengths::counted(self.entries);
    }
}

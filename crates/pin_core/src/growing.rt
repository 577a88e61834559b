//! Reservations grow, fall and move.
ghost use Rattle.std.specs.Prelude.{◌≡◌, ◌↔◌, ◌≤◌, ◌∷◌, [], IsErr, IsSome, IfErr, OnOk, OnErr};
ghost use Rattle.reservation_tree.specs.Answer.{IsFrom};
ghost use Rattle.reservation_tree.specs.Change.{grow_refusal, lacking, move_refusal};
ghost use Rattle.reservation_tree.specs.Tracker.{IsLive, unused};
ghost use Rattle.reservation_tree.specs.Tree.{charge_of as charge_in};
ghost use Rattle.pin_core.specs.parts.Rearranging.{grown, grown_to_fit, shrunk, transferred};

use crate::lengths;
use crate::parts::Parts;
use crate::pool::PoolState;
use outside::Slot;
use reservation_tree::{PoolErr, TrackerId};
use store_api::Client;

impl<D: Slot + Drop> PoolState<D> {
    ghost use Rattle.pool_model.specs.Owning.{IsClientOf};
    ghost use Rattle.pool_model.specs.Sums.{HasRoom};
    ghost use Rattle.pin_core.specs.StateOf.{state_of};
    ghost use Rattle.pin_core.specs.Standing.{Enters};
    ghost use Rattle.pin_core.specs.calls.Entering.{decrease_entry, fit_entry, fit_refusal, growth_refusal, increase_entry, move_entry, unused_of};

    /// Raises a client's reservation by so many bytes. Each ancestor grows by what its unused bytes don't cover.
    ///
    /// # Errors
    ///
    /// `NoReservation`: the limit of a tracker would be passed. The lowest such tracker is named, with the growth
    /// that was wanted of it and its room.
    pub fn increase(&mut self, c: &Client, bytes: u64) -> Result<(), PoolErr>
        requires client { IsClientOf (state_of self.old) c.now.session c.now.tracker }
        ensures ok { OnOk result (Enters D.Slot (increase_entry c.now.session c.now.tracker bytes ∷ []) [] [] self.old self.new) }

        // It is refused exactly where a limit would be passed.
        ensures refused { IsErr result ↔ IsSome (growth_refusal (state_of self.old) c.now.tracker bytes) }
        ensures cause { IfErr result (IsFrom (growth_refusal (state_of self.old) c.now.tracker bytes)) }
        ensures err { OnErr result (self.new ≡ self.old) }
    {
        self.parts.laws();
        self.parts.increase(c.tracker(), bytes)
    }

    /// Raises a client's reservation until so many bytes are unused, where so many aren't.
    ///
    /// # Errors
    ///
    /// `NoReservation`: the limit of a tracker would be passed, as for `increase` by what is lacking.
    pub fn increase_to_fit(&mut self, c: &Client, bytes: u64) -> Result<(), PoolErr>
        requires client { IsClientOf (state_of self.old) c.now.session c.now.tracker }
        ensures ok { OnOk result (Enters D.Slot (fit_entry c.now.session c.now.tracker bytes ∷ []) [] [] self.old self.new) }

        // It is refused exactly where a limit would be passed.
        ensures refused { IsErr result ↔ IsSome (fit_refusal (state_of self.old) c.now.tracker bytes) }
        ensures cause { IfErr result (IsFrom (fit_refusal (state_of self.old) c.now.tracker bytes)) }
        ensures err { OnErr result (self.new ≡ self.old) }
    {
        self.parts.laws();
        self.parts.increase_to_fit(c.tracker(), bytes)
    }

    /// Lowers a client's reservation, and those of all ancestors, by bytes that are unused and that its dirty and
    /// flying pages don't need.
    pub fn decrease_now(&mut self, c: &Client, bytes: u64)
        requires client { IsClientOf (state_of self.old) c.now.session c.now.tracker }
        requires unused { bytes ≤ unused_of (state_of self.old) c.now.tracker }
        requires room { HasRoom (state_of self.old) c.now.tracker bytes }
        ensures enters { Enters D.Slot (decrease_entry c.now.session c.now.tracker bytes ∷ []) [] [] self.old self.new }
    {
        self.parts.laws();
        self.parts.decrease(c.tracker(), bytes);
    }

    /// Moves reservation to another client of the session: bytes that are unused and that the dirty and flying
    /// pages of the first don't need.
    ///
    /// # Errors
    ///
    /// `NoReservation`: the limit of the client that is to get them would be passed.
    pub fn move_now(&mut self, from: &Client, to: &Client, bytes: u64) -> Result<(), PoolErr>
        requires client { IsClientOf (state_of self.old) from.now.session from.now.tracker }
        requires to { IsClientOf (state_of self.old) from.now.session to.now.tracker }
        requires unused { bytes ≤ unused_of (state_of self.old) from.now.tracker }
        requires room { HasRoom (state_of self.old) from.now.tracker bytes }
        ensures ok { OnOk result (Enters D.Slot (move_entry from.now.session from.now.tracker to.now.tracker bytes ∷ []) [] [] self.old self.new) }

        // It is refused exactly where a limit would be passed.
        ensures refused { IsErr result ↔ IsSome (move_refusal bytes from.now.tracker to.now.tracker (state_of self.old).trackers) }
        ensures cause { IfErr result (IsFrom (move_refusal bytes from.now.tracker to.now.tracker (state_of self.old).trackers)) }
        ensures err { OnErr result (self.new ≡ self.old) }
    {
        self.parts.laws();
        self.parts.transfer(from.tracker(), to.tracker(), bytes)
    }
}

impl<D: Drop> Parts<D> {
    pub(crate) fn increase(&mut self, t: TrackerId, bytes: u64) -> Result<(), PoolErr>
        requires { IsLive self.old.tree.trackers t }
        ensures ok { OnOk result (self.new ≡ grown t bytes self.old) }
        ensures refused { IsErr result ↔ IsSome (grow_refusal (charge_in self.old.tree) bytes t self.old.tree.trackers) }
        ensures cause { IfErr result (IsFrom (grow_refusal (charge_in self.old.tree) bytes t self.old.tree.trackers)) }
        ensures err { OnErr result (self.new ≡ self.old) }
    {
        self.tree.increase(t, bytes)?;
        self.entries = lengths::counted(self.entries);
        Ok(())
    }

    fn increase_to_fit(&mut self, t: TrackerId, bytes: u64) -> Result<(), PoolErr>
        requires { IsLive self.old.tree.trackers t }
        ensures ok { OnOk result (self.new ≡ grown_to_fit t bytes self.old) }
        ensures refused { IsErr result ↔ IsSome (grow_refusal (charge_in self.old.tree) (lacking (charge_in self.old.tree) bytes t self.old.tree.trackers) t self.old.tree.trackers) }
        ensures cause { IfErr result (IsFrom (grow_refusal (charge_in self.old.tree) (lacking (charge_in self.old.tree) bytes t self.old.tree.trackers) t self.old.tree.trackers)) }
        ensures err { OnErr result (self.new ≡ self.old) }
    {
        self.tree.increase_to_fit(t, bytes)?;
        self.entries = lengths::counted(self.entries);
        Ok(())
    }

    pub(crate) fn decrease(&mut self, t: TrackerId, bytes: u64)
        requires live { IsLive self.old.tree.trackers t }
        requires unused { bytes ≤ unused (charge_in self.old.tree) self.old.tree.trackers t }
        ensures { self.new ≡ shrunk t bytes self.old }
    {
        self.tree.decrease(t, bytes);
        self.entries = lengths::counted(self.entries);
    }

    pub(crate) fn transfer(
        &mut self,
        from: TrackerId,
        to: TrackerId,
        bytes: u64,
    ) -> Result<(), PoolErr>
        requires live { IsLive self.old.tree.trackers from }
        requires to_live { IsLive self.old.tree.trackers to }
        requires unused { bytes ≤ unused (charge_in self.old.tree) self.old.tree.trackers from }
        ensures ok { OnOk result (self.new ≡ transferred from to bytes self.old) }
        ensures refused { IsErr result ↔ IsSome (move_refusal bytes from to self.old.tree.trackers) }
        ensures cause { IfErr result (IsFrom (move_refusal bytes from to self.old.tree.trackers)) }
        ensures err { OnErr result (self.new ≡ self.old) }
    {
        self.tree.transfer(from, to, bytes)?;
        self.entries = lengths::counted(self.entries);
        Ok(())
    }
}

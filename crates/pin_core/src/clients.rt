//! Clients come and go.
ghost use Rattle.std.specs.Prelude.{◌≡◌, ◌↔◌, ◌≤◌, ◌<◌, ◌∷◌, [], None, IsErr, IfOk, IfErr, OnErr, length};
ghost use Rattle.std.specs.FinMap.{get};
ghost use Rattle.reservation_tree.specs.Change.{move_refusal};
ghost use Rattle.reservation_tree.specs.Tracker.{IsLive, unused};
ghost use Rattle.reservation_tree.specs.Tree.{charge_of as charge_in};
ghost use Rattle.session_table.specs.Seats.{members_of};
ghost use Rattle.pin_core.specs.parts.Rearranging.{joined, parted, transferred};
ghost use Rattle.pin_core.specs.parts.Seating.{CanJoin, CanPart, query_in};

use crate::lengths;
use crate::parts::Parts;
use crate::pool::PoolState;
use outside::Slot;
use reservation_tree::{PoolErr, TrackerId};
use session_table::MAX_CLIENTS;
use store_api::Client;

impl<D: Slot + Drop> PoolState<D> {
    ghost use Rattle.pool_model.specs.Owning.{IsClientOf};
    ghost use Rattle.pin_core.specs.StateOf.{state_of};
    ghost use Rattle.pin_core.specs.Standing.{Enters};
    ghost use Rattle.pin_core.specs.calls.Sessions.{IsIdle, IsSeat, client_count, query_of};
    ghost use Rattle.pin_core.specs.calls.Entering.{client_entry};
    ghost use Rattle.pin_core.specs.calls.Opening.{leaving_entries};

    /// A new client of a session, with this limit in bytes and the reservation 0. Its number may have been that
    /// of a client that ended.
    ///
    /// # Errors
    ///
    /// `TooManyTrackers`: the session has 16 clients.
    pub fn add_client(&mut self, s: u32, limit: u64) -> Result<Client, PoolErr>
        requires live { IsSeat (state_of self.old) s }
        ensures ok { IfOk result (λ c. Enters D.Slot (client_entry s (query_of (state_of self.old) s) limit c.tracker ∷ []) [] [] self.old self.new) }
        ensures client { IfOk result (λ c. (c.session ≡ s) × IsClientOf (state_of self.new) s c.tracker) }
        ensures fresh { IfOk result (λ c. get (state_of self.old).trackers c.tracker ≡ None) }

        // It is refused exactly where so many clients are live.
        ensures refused { IsErr result ↔ (client_count (state_of self.old) s ≡ 16) }
        ensures cause { IfErr result (λ e. e ≡ PoolErr.TooManyTrackers 16) }
        ensures err { OnErr result (self.new ≡ self.old) }
    {
        self.parts.laws();
        let t = self.parts.add_client(s, limit)?;
        Ok(Client::of(s, t))
    }

    /// Ends a client that has no page and no loan. Its reservation goes to its session's query.
    pub fn end_client(&mut self, c: Client)
        requires client { IsClientOf (state_of self.old) c.session c.tracker }
        requires idle { IsIdle (state_of self.old) c.tracker }
        ensures enters { Enters D.Slot (leaving_entries (state_of self.old) c.session c.tracker) [] [] self.old self.new }
    {
        self.parts.laws();
        let s = c.session();
        let t = c.into_tracker();
        let query = TrackerId::of(self.parts.seats.query(s));
        let bytes = self.parts.tree.reservation(t);
        self.parts.give_up(t, query, bytes);
        self.parts.laws();
        self.parts.close_client(s, t);
    }
}

impl<D: Drop> Parts<D> {
    fn add_client(&mut self, s: u32, limit: u64) -> Result<TrackerId, PoolErr>
        requires can { CanJoin self.old s }
        ensures ok { IfOk result (λ t. self.new ≡ joined s (query_in self.old.seats s) limit t self.old) }
        ensures fresh { IfOk result (λ t. get self.old.tree.trackers t ≡ None) }
        ensures number { IfOk result (λ t. t < 4096) }
        ensures refused { IsErr result ↔ (length (members_of self.old.seats s) ≡ 16) }
        ensures cause { IfErr result (λ e. e ≡ PoolErr.TooManyTrackers 16) }
        ensures err { OnErr result (self.new ≡ self.old) }
    {
        if self.seats.is_full(s) {
            return Err(PoolErr::TooManyTrackers { count: MAX_CLIENTS });
        }
        let query = TrackerId::of(self.seats.query(s));
        // A tree has room for all trackers of all sessions.
        let t = self.tree.add_child(query, limit).unwrap();
        self.lists.open(t.number());
        self.seats.add(s, t.number());
        self.entries = lengths::counted(self.entries);
        Ok(t)
    }

    // Moves reservation where no limit is passed.
    fn give_up(&mut self, from: TrackerId, to: TrackerId, bytes: u64)
        requires live { IsLive self.old.tree.trackers from }
        requires to_live { IsLive self.old.tree.trackers to }
        requires unused { bytes ≤ unused (charge_in self.old.tree) self.old.tree.trackers from }
        requires fits { move_refusal bytes from to self.old.tree.trackers ≡ None }
        ensures { self.new ≡ transferred from to bytes self.old }
    {
        self.tree.transfer(from, to, bytes).unwrap();
        self.entries = lengths::counted(self.entries);
    }

    fn close_client(&mut self, s: u32, t: TrackerId)
        requires can { CanPart self.old s t }
        ensures { self.new ≡ parted s t self.old }
    {
        self.seats.remove(s, t.number());
        self.lists.close(t.number());
        self.tree.close(t);
        self.entries = lengths::counted(self.entries);
    }
}

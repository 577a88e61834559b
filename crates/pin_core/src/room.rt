//! Whether a call has its room, and what to do where it hasn't.
ghost use Rattle.std.specs.Prelude.{◌≡◌, ◌↔◌, ◌<◌, IsTrue, length};
ghost use Rattle.pool_model.specs.Sums.{HasRoom, IsClient};
ghost use Rattle.pin_core.specs.StateOf.{state_of};
ghost use Rattle.pin_core.specs.Invariant.{IsKept};
ghost use Rattle.pin_core.specs.Lawful.{Lawful};
ghost use Rattle.pin_core.specs.calls.Turns.{IsKnown, TurnIs, amount_of};

use crate::jobs::WriteJob;
use crate::parts::Parts;
use crate::pool::PoolState;
use client_lists::Which;
use outside::Slot;
use reservation_tree::TrackerId;
use store_api::Client;

/// What a call wants, in bytes: both need that the client can hold so many more.
#[derive(Clone, Copy, Debug, PartialEq, Eq)]
pub enum Want {
    /// To hold so many more.
    Hold(u64),
    /// To give back so much of the reservation.
    Shrink(u64),
}

impl Want {
    #[inline]
    pub(crate) fn amount(self) -> u64
        ensures { result ≡ amount_of self }
    {
        match self {
            Want::Hold(bytes) => bytes,
            Want::Shrink(bytes) => bytes,
        }
    }
}

/// What a call that wants room is to do next.
pub enum RoomTurn<D> {
    /// There is room.
    Ready,
    /// A write or a read of a page of the client failed since the session's last call began. The
    /// number is that of its entry.
    Refused { entry: u64 },
    /// This page is to be written first.
    Write(WriteJob<D>),
    /// Pages of the client are written, and none can be started.
    Wait,
}

impl<D: Slot + Drop> PoolState<D> {
    ghost use Rattle.std.specs.Prelude.{◌≤◌, []};
    ghost use Rattle.reservation_tree.specs.Tracker.{unused};
    ghost use Rattle.pool_model.specs.Sums.{charge_of};
    ghost use Rattle.pool_model.specs.Owning.{IsClientOf};
    ghost use Rattle.pin_core.specs.Standing.{Enters};
    ghost use Rattle.pin_core.specs.calls.Turns.{RoomAnswer, room_entries, room_slots};

    /// The first of the answers that applies to a call of the session `s` that wants this of its client:
    /// there is room; a page of the client failed since the session's last call began; the client's newest
    /// dirty page is to be written; or a page of the client is being written, and the call is to wait.
    ///
    /// `_since` is what the session's last `ask` answered. It isn't looked at: a failure from before that
    /// call is forgotten already.
    pub fn room_turn(&mut self, s: u32, _since: u64, c: &Client, want: Want) -> RoomTurn<D>
        requires client { IsClientOf (state_of self.old) s c.now.tracker }
        requires unused { amount_of want ≤ unused (charge_of (state_of self.old)) (state_of self.old).trackers c.now.tracker }
        ensures turn { RoomAnswer D.Slot self.old self.new s c.now.tracker (amount_of want) result }
        ensures enters { Enters D.Slot (room_entries s result) (room_slots result) [] self.old self.new }
    {
        self.parts.laws();
        self.parts.room_turn(s, c.tracker().number(), want.amount())
    }
}

impl<D: Drop> Parts<D> {
    /// Whether the client can hold so many bytes more.
    pub fn has_room(&self, client: u32, bytes: u64) -> bool
        requires kept { IsKept self.now }
        requires laws { Lawful self.now }
        requires client { IsClient self.now.tree.trackers client }
        requires listed { client < length self.now.lists.is_open }
        ensures { IsTrue result ↔ HasRoom (state_of self.now) client bytes }
    {
        let t = TrackerId::of(client);
        let reservation = self.tree.reservation(t);
        let unwritten = self.lists.sum(client, Which::Dirty)
            + self.lists.sum(client, Which::Flying);
        bytes <= reservation - (self.tree.used(t) + unwritten)
    }

    // The first of the answers that applies.
    pub(crate) fn room_turn(&mut self, session: u32, client: u32, bytes: u64) -> RoomTurn<D>
        requires kept { IsKept self.old }
        requires laws { Lawful self.old }
        requires known { IsKnown self.old session client }
        ensures { TurnIs self.old self.new session client bytes result }
    {
        if self.has_room(client, bytes) {
            return RoomTurn::Ready;
        }
        if let Some(entry) = self.seats.first(session, client) {
            return RoomTurn::Refused { entry };
        }
        match self.lists.newest_dirty(client) {
            Some(key) => RoomTurn::Write(self.start(client, key, session)),
            None => RoomTurn::Wait,
        }
    }
}

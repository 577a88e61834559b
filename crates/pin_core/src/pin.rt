//! A call that pins a page, and what it is to do next.
ghost use Rattle.std.specs.Prelude.{◌≡◌, ℕ};
ghost use Rattle.pool_model.specs.Sums.{HasRoom};
ghost use Rattle.pin_core.specs.StateOf.{state_of};
ghost use Rattle.pin_core.specs.Invariant.{IsKept};
ghost use Rattle.pin_core.specs.Lawful.{Lawful};
ghost use Rattle.pin_core.specs.parts.Changes.{entry_at};
ghost use Rattle.pin_core.specs.parts.PinSteps.{CanPinAt, IsAway, PinIs, bytes_at, told_gone};

use crate::evicted::EvictedPages;
use crate::jobs::{ReadJob, WriteJob};
use crate::lengths;
use crate::look::look_at;
use crate::parts::Parts;
use crate::pool::{PoolState, id_of};
use crate::room::RoomTurn;
use block_arena::Buf;
use outside::Slot;
use page_table::{PageId, Place};
use store_api::Page;

/// What a call that pins a page is to do next.
pub enum PinTurn<D> {
    /// The page is pinned, and this is its buffer.
    Here(Buf),
    /// The page is loaded by this job.
    Load(ReadJob<D>),
    /// A write or a read of a page of the client failed since the session's last call began. The
    /// number is that of its entry.
    Refused { entry: u64 },
    /// This page is to be written first.
    Write(WriteJob<D>),
    /// The page is written, or other pages of its client are, and none can be started.
    Wait,
}

impl<D: Slot + Drop> PoolState<D> {
    ghost use Rattle.std.specs.Prelude.{[]};
    ghost use Rattle.pin_core.specs.Standing.{Enters};
    ghost use Rattle.pin_core.specs.calls.PinTurns.{CanPin, PinAnswer, pin_entries, pin_gone, pin_slots};

    /// The answer that applies to a call of the session `s` that pins this page of it: a dirty page is
    /// pinned, and a clean or an evicted one where its client has room for its length. Where it lacks
    /// room, the first of `room_turn`'s answers. Where the page itself is being written, the call is to wait.
    ///
    /// A page that is evicted is loaded: clean pages make room for its blocks, as few as serve, and the
    /// page's client gets it once the job has ended. `gone` then has the names of those that went.
    ///
    /// `_since` is what the session's last `ask` answered. It isn't looked at: a failure from before that
    /// call is forgotten already.
    pub fn pin_turn(&mut self, s: u32, _since: u64, p: &Page, gone: &mut EvictedPages) -> PinTurn<D>
        requires can { CanPin (state_of self.old) s p.now }
        ensures turn { PinAnswer D.Slot self.old self.new s p.now result }
        ensures enters { Enters D.Slot (pin_entries s p.now.name self.old result) (pin_slots result) [] self.old self.new }
        ensures gone { gone.new ≡ pin_gone gone.old p.now.name self.old result }
    {
        self.parts.laws();
        let id = id_of(p);
        self.parts.pin_turn(s, id, gone)
    }
}

impl<D: Drop> Parts<D> {
    // The answer that applies.
    pub(crate) fn pin_turn(
        &mut self,
        session: u32,
        id: PageId,
        gone: &mut EvictedPages,
    ) -> PinTurn<D>
        requires kept { IsKept self.old }
        requires laws { Lawful self.old }
        requires can { CanPinAt self.old session id (entry_at self.old id.name) }
        ensures turn { PinIs self.old self.new session id (entry_at self.old id.name) result }
        ensures gone { gone.new ≡ told_gone gone.old (entry_at self.old id.name) self.old result }
    {
        match look_at(&self.pages, id).place {
            Place::Flying(_) => PinTurn::Wait,
            Place::Dirty => PinTurn::Here(self.pin_dirty(id)),
            Place::Clean | Place::Evicted => self.pin_stored(session, id, gone),
            Place::Pinned(_) | Place::Loading => unreachable!(),
        }
    }

    // The answer for a page that is clean or evicted.
    fn pin_stored(&mut self, session: u32, id: PageId, gone: &mut EvictedPages) -> PinTurn<D>
        requires kept { IsKept self.old }
        requires laws { Lawful self.old }
        requires can { CanPinAt self.old session id (entry_at self.old id.name) }
        requires away { IsAway (entry_at self.old id.name).place }
        ensures turn { PinIs self.old self.new session id (entry_at self.old id.name) result }
        ensures gone { gone.new ≡ told_gone gone.old (entry_at self.old id.name) self.old result }
    {
        let look = look_at(&self.pages, id);
        let len = lengths::bytes(self.block_len, look.blocks);
        match self.room_turn(session, look.client, len) {
            RoomTurn::Ready => self.pin_roomy(id, gone),
            RoomTurn::Refused { entry } => PinTurn::Refused { entry },
            RoomTurn::Write(job) => PinTurn::Write(job),
            RoomTurn::Wait => PinTurn::Wait,
        }
    }

    // The same, where its client has room for it.
    fn pin_roomy(&mut self, id: PageId, gone: &mut EvictedPages) -> PinTurn<D>
        requires kept { IsKept self.old }
        requires laws { Lawful self.old }
        requires can { CanPinAt self.old (entry_at self.old id.name).session id (entry_at self.old id.name) }
        requires away { IsAway (entry_at self.old id.name).place }
        requires room { HasRoom (state_of self.old) (entry_at self.old id.name).client (bytes_at self.old (entry_at self.old id.name)) }
        ensures turn { (session : ℕ) → PinIs self.old self.new session id (entry_at self.old id.name) result }
        ensures gone { gone.new ≡ told_gone gone.old (entry_at self.old id.name) self.old result }
    {
        match look_at(&self.pages, id).place {
            Place::Clean => PinTurn::Here(self.pin_clean(id)),
            _ => PinTurn::Load(self.load(id, gone)),
        }
    }
}

//! A dirty page goes out to be written.
ghost use Rattle.std.specs.Prelude.{◌≡◌, Some};
ghost use Rattle.client_lists.specs.Clients.{newest};
ghost use Rattle.pin_core.specs.Invariant.{IsKept};
ghost use Rattle.pin_core.specs.Lawful.{Lawful};
ghost use Rattle.pin_core.specs.parts.Changes.{entry_at};
ghost use Rattle.pin_core.specs.parts.Flights.{flown, id_with, job_of};
ghost use Rattle.pin_core.specs.Marking.{under_of};
ghost use Rattle.pin_core.specs.calls.Turns.{StartIs};

use crate::jobs::{WriteJob, fly_at, under};
use crate::lengths;
use crate::parts::Parts;
use crate::pool::PoolState;
use client_lists::Which;
use outside::Slot;

impl<D: Slot + Drop> PoolState<D> {
    ghost use Rattle.std.specs.Prelude.{◌↔◌, ℕ, None, [], IfSome};
    ghost use Rattle.pool_model.specs.Makers.{IsWriter};
    ghost use Rattle.pool_model.specs.State.{dirty_of};
    ghost use Rattle.pin_core.specs.StateOf.{state_of};
    ghost use Rattle.pin_core.specs.Standing.{Enters};
    ghost use Rattle.pin_core.specs.calls.Turns.{IsStarted, start_entries, start_slots};

    /// Starts to write the newest dirty page of some client. Which one of several is free.
    ///
    /// `None`: no client has a dirty page.
    pub fn start_write(&mut self, who: u32) -> Option<WriteJob<D>>
        requires writer { IsWriter who }
        ensures none { (result ≡ None) ↔ ((c : ℕ) → dirty_of (state_of self.old) c ≡ []) }
        ensures same { result ≡ None → self.new ≡ self.old }
        ensures started { IfSome result (λ job. IsStarted D.Slot who job.client job self.old self.new) }
        ensures enters { Enters D.Slot (start_entries who result) (start_slots result) [] self.old self.new }
    {
        self.parts.laws();
        self.parts.start_some(who)
    }
}

impl<D: Drop> Parts<D> {
    // The client's newest dirty page goes out.
    pub(crate) fn start(&mut self, client: u32, key: u32, who: u32) -> WriteJob<D>
        requires kept { IsKept self.old }
        requires laws { Lawful self.old }
        requires newest { newest client self.old.lists ≡ Some key }
        ensures parts { self.new ≡ flown who (id_with key self.old) (entry_at self.old (id_with key self.old).name) self.old }
        ensures job { result ≡ job_of who (under_of self.old.marked self.old.entries) (id_with key self.old) (entry_at self.old (id_with key self.old).name) }
    {
        let entry = self.entries;
        self.entries = lengths::counted(entry);
        let id = self.pages.id_at(key).unwrap();
        let job = fly_at(&mut self.pages, id, who, entry, under(self.marked, entry));
        self.lists.shift(client, key, Which::Flying);
        job
    }

    // The newest dirty page of some client goes out.
    pub(crate) fn start_some(&mut self, who: u32) -> Option<WriteJob<D>>
        requires kept { IsKept self.old }
        requires laws { Lawful self.old }
        ensures { StartIs self.old self.new who result }
    {
        let client = self.lists.some_dirty()?;
        let key = self.lists.newest_dirty(client).unwrap();
        Some(self.start(client, key, who))
    }
}

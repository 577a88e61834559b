//! A page is written by a writer, which has the value in hand while the page goes out and when it comes back.
ghost use Rattle.std.specs.Prelude.{◌≡◌, ◌++◌, [], ◌∷◌, ℕ, None, IfSome};
ghost use Rattle.pool_model.specs.Makers.{IsWriter};
ghost use Rattle.pool_model.specs.State.{dirty_of};
ghost use Rattle.pin_core.specs.StateOf.{state_of};
ghost use Rattle.pin_core.specs.calls.Returning.{wrote};
ghost use Rattle.session_calls.specs.Ready.{StandsWhole};
ghost use Rattle.session_calls.specs.Having.{sight_of};
ghost use Rattle.session_calls.specs.Flying.{IsBack, Returns, Sends, end_of};

use crate::count::{Count, count_write};
use crate::hand::Hand;
use crate::jobs::write_ended;
use crate::log::Log;
use crate::opened::Opened;
use crate::turning::enter_started;
use outside::Slot;
use pin_core::{WriteJob, Wrote};
use pool_model::Entry;
use std::marker::Brand;
use turn_table::{Adds, Solo};

impl<D: Slot + Drop> Hand<D> {
    /// The newest dirty page of some client goes out to be written. Which one of several is free.
    ///
    /// `None`: no client has a dirty page.
    pub fn send_page<O: Opened>(&mut self) -> Option<WriteJob<D>>
        requires writer { IsWriter self.old.session }
        requires whole { StandsWhole D.Slot O.opening O.outset.told self.old.trail self.old.counts self.old.state }
        ensures none { result ≡ None → ((c : ℕ) → dirty_of (state_of self.old.state) c ≡ []) × (self.new ≡ self.old) }
        ensures sends { IfSome result (Sends D.Slot O.opening O.outset.told self.old self.new) }
    {
        let job = self.state.start_write(self.session)?;
        enter_started(&mut self.trail, self.session, &job);
        count_write(&mut self.counts, &job);
        Some(job)
    }

    /// A page that was written comes back: clean, or dirty again where a store failed.
    pub fn take_page<O: Opened>(&mut self, job: WriteJob<D>) -> Wrote
        requires whole { StandsWhole D.Slot O.opening O.outset.told self.old.trail self.old.counts self.old.state }
        requires back { IsBack D.Slot O.opening O.outset.told self.old.session (sight_of self.old) job }
        ensures wrote { result ≡ wrote job.failed job.id.name }
        ensures returns { Returns D.Slot O.opening O.outset.told job self.old self.new }
    {
        enter_end::<Brand, D>(&mut self.trail, &self.counts, &job);
        self.state.finish_write(job)
    }
}

// The write of this job ended.
fn enter_end<N: Adds<Entry>, D: Slot>(trail: &mut Log, _counts: &Solo<Count>, job: &WriteJob<D>)
    requires named { N.entries ≡ record { maker = job.now.who; event = end_of D.Slot (record { trail = trail.old; counts = _counts.now }) job.now } ∷ [] }
    ensures { trail.new ≡ trail.old ++ record { maker = job.now.who; event = end_of D.Slot (record { trail = trail.old; counts = _counts.now }) job.now } ∷ [] }
{
    trail.enter_bare::<N>(job.who, write_ended(job));
}

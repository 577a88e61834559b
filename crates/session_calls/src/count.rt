//! What slots counted, for contracts alone.
ghost use Rattle.std.specs.Prelude.{◌≡◌, ◌++◌, ◌∷◌, []};
ghost use Rattle.pin_core.specs.Tallies.{tally_of};
ghost use Rattle.session_calls.specs.declared.count.Count.TheVariants.{Opening, Out};

use outside::Slot;
use pin_core::{ReadJob, Tally, WriteJob};
use std::marker::Brand;
use turn_table::{Adds, Solo};

/// What slots counted together, at a time from which on it has to be known. No value of it is ever made.
pub enum Count {
    /// All slots, when the pool opened.
    Opening { tally: Tally },
    /// Those of a page, when they went out with a job.
    Out { page: u64, tally: Tally },
}

/// The pool opened with these slots.
pub fn count_opening<D: Slot>(counts: &mut Solo<Count>, slots: &[D])
    ensures { counts.new ≡ counts.old ++ Opening (tally_of D.Slot slots.now) ∷ [] }
{
    enter_opening::<Brand, D>(counts, slots);
}

fn enter_opening<N: Adds<Count>, D: Slot>(counts: &mut Solo<Count>, _slots: &[D])
    requires named { N.entries ≡ Opening (tally_of D.Slot _slots.now) ∷ [] }
    ensures { counts.new ≡ counts.old ++ Opening (tally_of D.Slot _slots.now) ∷ [] }
{
    counts.tick::<N>();
}

// The slots of a page went out to be written, or to be read.
#[inline]
pub(crate) fn count_write<D: Slot>(counts: &mut Solo<Count>, job: &WriteJob<D>)
    ensures { counts.new ≡ counts.old ++ Out job.now.id.name (tally_of D.Slot job.now.row) ∷ [] }
{
    enter_write_count::<Brand, D>(counts, job);
}

#[inline]
fn enter_write_count<N: Adds<Count>, D: Slot>(counts: &mut Solo<Count>, _job: &WriteJob<D>)
    requires named { N.entries ≡ Out _job.now.id.name (tally_of D.Slot _job.now.row) ∷ [] }
    ensures { counts.new ≡ counts.old ++ Out _job.now.id.name (tally_of D.Slot _job.now.row) ∷ [] }
{
    counts.tick::<N>();
}

#[inline]
pub(crate) fn count_read<D: Slot>(counts: &mut Solo<Count>, job: &ReadJob<D>)
    ensures { counts.new ≡ counts.old ++ Out job.now.id.name (tally_of D.Slot job.now.row) ∷ [] }
{
    enter_read_count::<Brand, D>(counts, job);
}

#[inline]
fn enter_read_count<N: Adds<Count>, D: Slot>(counts: &mut Solo<Count>, _job: &ReadJob<D>)
    requires named { N.entries ≡ Out _job.now.id.name (tally_of D.Slot _job.now.row) ∷ [] }
    ensures { counts.new ≡ counts.old ++ Out _job.now.id.name (tally_of D.Slot _job.now.row) ∷ [] }
{
    counts.tick::<N>();
}

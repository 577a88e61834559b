//! Pages are written and loaded while the value isn't in hand.
ghost use Rattle.std.specs.Prelude.{◌≡◌, ◌++◌, ◌∷◌, [], ℕ, true, IfErr, IfOk};
ghost use Rattle.scratch_dev.specs.Rows.{faults_of};
ghost use Rattle.pool_model.specs.Traces.{bare_of};
ghost use Rattle.pin_core.specs.calls.Returning.{read_ends, write_ends, write_entry};
ghost use Rattle.session_calls.specs.Having.{MayGive};
ghost use Rattle.session_calls.specs.Jobs.{CanRead, CanWrite, IsRead, IsUnread, Wrote, ended_load};

use crate::access::Access;
use crate::hand::Hand;
use crate::log::Log;
use crate::opened::Opened;
use block_arena::Buf;
use outside::{OpenGate, Point, Slot};
use pin_core::{ReadJob, WriteJob};
use pool_model::{Bare, Entry};
use reservation_tree::PoolErr;
use std::marker::Brand;
use turn_table::Adds;

// Names a sum of faults for contracts alone: that of a job's slots before it is run. A call at `Brand` picks it.
pub(crate) trait Before {
    ghost sum: { ℕ };
}

impl Before for Brand {
    ghost sum = { 0 };
}

// A page that flies is stored, and comes back.
pub(crate) fn write_out<O: Opened, A: Access<D>, D: Slot + Drop>(
    access: &A,
    place: &mut A::Place,
    hand: Hand<D>,
    job: WriteJob<D>,
) -> Hand<D>
    requires turns { A.turns O.opening O.outset access.now place.old hand.session }
    requires may { MayGive D.Slot O.opening O.outset.told (A.seen place.old) hand }
    requires can { CanWrite D.Slot O.outset.told job hand }
    ensures turns { A.turns O.opening O.outset access.now place.new result.session }
    ensures may { MayGive D.Slot O.opening O.outset.told (A.seen place.new) result }
    ensures wrote { Wrote job hand result }
{
    write_named::<Brand, O, A, D>(access, place, hand, job)
}

fn write_named<B: Before, O: Opened, A: Access<D>, D: Slot + Drop>(
    access: &A,
    place: &mut A::Place,
    hand: Hand<D>,
    mut job: WriteJob<D>,
) -> Hand<D>
    requires before { B.sum ≡ faults_of D.Slot job.row }
    requires turns { A.turns O.opening O.outset access.now place.old hand.session }
    requires may { MayGive D.Slot O.opening O.outset.told (A.seen place.old) hand }
    requires can { CanWrite D.Slot O.outset.told job hand }
    ensures turns { A.turns O.opening O.outset access.now place.new result.session }
    ensures may { MayGive D.Slot O.opening O.outset.told (A.seen place.new) result }
    ensures wrote { Wrote job hand result }
{
    let session = hand.session;
    access.give::<O>(place, hand);
    access.pass(Point::BeforeStore);
    job.run(&OpenGate, session);
    access.pass(Point::AfterStore);
    let mut hand = access.take::<O>(place, session);
    enter_write::<Brand, B, D>(&mut hand.trail, &job);
    hand.state.finish_write(job);
    hand
}

fn enter_write<N: Adds<Entry>, B: Before, D: Slot>(trail: &mut Log, job: &WriteJob<D>)
    requires named { N.entries ≡ write_entry job.now B.sum (faults_of D.Slot job.now.row) ∷ [] }
    ensures { trail.new ≡ trail.old ++ write_entry job.now B.sum (faults_of D.Slot job.now.row) ∷ [] }
{
    trail.enter_bare::<N>(job.who, write_ended(job));
}

// What a trace tells of the end of this write.
pub(crate) fn write_ended<D>(job: &WriteJob<D>) -> Bare
    ensures { (before now : ℕ) → result ≡ bare_of (write_ends job.now.failed job.now.id.name before now) }
{
    let page = job.id.name;
    if job.failed {
        Bare::WriteFailed { page }
    } else {
        Bare::WriteOk { page }
    }
}

// A load that ended badly: its error, and the number of the entry that tells it.
#[derive(Clone, Copy, Debug, PartialEq, Eq)]
pub(crate) struct Unread {
    pub err: PoolErr,
    pub entry: u64,
}

// A page that is loading is read, and comes back: pinned with this buffer, or evicted again.
pub(crate) fn read_back<O: Opened, A: Access<D>, D: Slot + Drop>(
    access: &A,
    place: &mut A::Place,
    hand: Hand<D>,
    job: ReadJob<D>,
) -> (Hand<D>, Result<Buf, Unread>)
    requires turns { A.turns O.opening O.outset access.now place.old hand.session }
    requires may { MayGive D.Slot O.opening O.outset.told (A.seen place.old) hand }
    requires can { CanRead D.Slot O.outset.told job hand }
    ensures turns { A.turns O.opening O.outset access.now place.new result.0.session }
    ensures may { MayGive D.Slot O.opening O.outset.told (A.seen place.new) result.0 }
    ensures ok { IfOk result.1 (λ buf. IsRead O.opening O.outset.told job buf hand result.0) }
    ensures err { IfErr result.1 (λ e. IsUnread job e hand result.0) }
{
    read_named::<Brand, O, A, D>(access, place, hand, job)
}

fn read_named<B: Before, O: Opened, A: Access<D>, D: Slot + Drop>(
    access: &A,
    place: &mut A::Place,
    hand: Hand<D>,
    mut job: ReadJob<D>,
) -> (Hand<D>, Result<Buf, Unread>)
    requires before { B.sum ≡ faults_of D.Slot job.row }
    requires turns { A.turns O.opening O.outset access.now place.old hand.session }
    requires may { MayGive D.Slot O.opening O.outset.told (A.seen place.old) hand }
    requires can { CanRead D.Slot O.outset.told job hand }
    ensures turns { A.turns O.opening O.outset access.now place.new result.0.session }
    ensures may { MayGive D.Slot O.opening O.outset.told (A.seen place.new) result.0 }
    ensures ok { IfOk result.1 (λ buf. IsRead O.opening O.outset.told job buf hand result.0) }
    ensures err { IfErr result.1 (λ e. IsUnread job e hand result.0) }
{
    let session = hand.session;
    access.give::<O>(place, hand);
    access.pass(Point::BeforeLoad);
    job.run(&OpenGate, session);
    access.pass(Point::AfterLoad);
    let mut hand = access.take::<O>(place, session);
    enter_load::<Brand, B, D>(&mut hand.trail, session, &job);
    // The entry is counted before it is entered, so that its number is exact also at the end of the numbers.
    let entry = hand.state.parts().entries;
    match hand.state.finish_read(0, job) {
        Ok(buf) => (hand, Ok(buf)),
        Err(err) => (hand, Err(Unread { err, entry })),
    }
}

fn enter_load<N: Adds<Entry>, B: Before, D: Slot>(trail: &mut Log, session: u32, job: &ReadJob<D>)
    requires named { N.entries ≡ ended_load session job.now B.sum (faults_of D.Slot job.now.row) ∷ [] }
    ensures { trail.new ≡ trail.old ++ ended_load session job.now B.sum (faults_of D.Slot job.now.row) ∷ [] }
{
    trail.enter_bare::<N>(session, read_ended(job));
}

// What a trace tells of the end of this read.
fn read_ended<D>(job: &ReadJob<D>) -> Bare
    ensures { (before now : ℕ) → result ≡ bare_of (read_ends job.now.failed job.now.stale job.now.id.name before now) }
{
    let page = job.id.name;
    if job.failed {
        return Bare::ReadFailed { page };
    }
    match &job.stale {
        None => Bare::ReadOk { page },
        Some(stale) => Bare::ReadStale {
            wanted: stale.wanted,
            found: stale.found,
        },
    }
}
